// Assignments with links, so that each is compared only with earlier ones that it may meet.
ghost use Rattle.std.specs.Prelude.{◌≡◌, ◌<◌, ℕ, length, map, get_or, true, if◌then◌else◌, IfOk};
ghost use Rattle.smv_single_assignment.specs.Held.{standing_of};
ghost use Rattle.smv_single_assignment.specs.Links as spec;
ghost use Rattle.smv_single_assignment.specs.Links.{AreClassed, AreLinked, IsTable, held};
ghost use Rattle.smv_single_assignment.specs.Shared.{AreShared};

use crate::assignments::Assignment;
use crate::clashes::same_kind;
use smv_core::tree::Kind;
use std::alloc::{AllocError, Global};

/// The assignments in flat order, with their classes, and for each kind the end of the last one of that kind and class before each, or 0. The flag
/// says that each two which may meet are known to share the variables around both.
#[derive(Drop)]
pub struct Table<'a> {
    pub all: Vec<Assignment<'a>>,
    pub classes: Vec<usize>,
    pub comb: Vec<usize>,
    pub init: Vec<usize>,
    pub next: Vec<usize>,
    pub shared: bool,
}

/// The links to assignments of a kind.
pub(crate) fn links_of<'t>(table: &'t Table, kind: Kind) -> &'t [usize]
    ensures { result.now ≡ spec.links_of kind table.now }
{
    match kind {
        Kind::Comb => table.comb.as_slice(),
        Kind::Init => table.init.as_slice(),
        Kind::Next => table.next.as_slice(),
    }
}

/// A number of zeros.
pub(crate) fn zeros(alloc: Global, count: usize) -> Result<Vec<usize>, AllocError>
    ensures length { IfOk result (λ zeros. length zeros.items ≡ count) }
    ensures zeros { IfOk result (λ zeros. (k : ℕ) → get_or zeros.items k 0 ≡ 0) }
{
    let mut zeros = Vec::new(alloc);
    for step in 0..count {
        let _ = step;
        zeros.push(0)?;
    }
    Ok(zeros)
}

// The new end of a class, where the assignment before it is of the kind, and else the old one.
fn end_after(is_last: bool, here: usize, before: usize) -> usize
    ensures { result ≡ (if is_last then here else before) }
{
    if is_last { here } else { before }
}

// The links to assignments of a kind, where there are so many classes.
fn linked(
    alloc: Global,
    all: &[Assignment],
    classes: &[usize],
    count: usize,
    kind: Kind,
) -> Result<Vec<usize>, AllocError>
    requires { AreClassed (map standing_of all.now) classes.now count }
    ensures { IfOk result (λ links. AreLinked (map standing_of all.now) classes.now kind links.items) }
{
    let mut ends = zeros(alloc, count)?;
    let mut links = Vec::new(alloc);
    for place in 0..all.len() {
        let class = classes[place];
        let end = ends[class];
        links.push(end)?;
        ends[class] = end_after(same_kind(all[place].kind, kind), place + 1, end);
    }
    Ok(links)
}

/// The assignments with their links, where there are so many classes.
pub(crate) fn linked_table<'a>(
    alloc: Global,
    all: Vec<Assignment<'a>>,
    classes: Vec<usize>,
    count: usize,
    shared: bool,
) -> Result<Table<'a>, AllocError>
    requires classed { AreClassed (map standing_of all.items) classes.items count }
    requires shared { shared ≡ true → AreShared (map standing_of all.items) }
    ensures held { IfOk result (λ table. held table ≡ map standing_of all.entry.items) }
    ensures linked { IfOk result (λ table. IsTable table count) }
{
    let comb = linked(alloc, &all, &classes, count, Kind::Comb)?;
    let init = linked(alloc, &all, &classes, count, Kind::Init)?;
    let next = linked(alloc, &all, &classes, count, Kind::Next)?;
    Ok(Table {
        all,
        classes,
        comb,
        init,
        next,
        shared,
    })
}
