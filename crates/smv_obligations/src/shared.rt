// What the problems of all cases of a design have in common.
ghost use Rattle.std.specs.Prelude.{◌≡◌, map, length, IfOk};
ghost use Rattle.smv_problem.specs.Written.{name_number, set_numbers_of, orders_of};
ghost use Rattle.smv_obligations.specs.Shared.{IsShared, parts_in, shared_in};

use smv_cone::bits::list_lengths;
use smv_copies::copy_families;
use smv_core::Seq;
use smv_core::flat::{Design, Element, Family, SetInfo};
use smv_problem::Problem;
use std::alloc::{AllocError, Global};

/// The families of a design, how many constants each enumeration has, the numbers of the names of its constants and set types, and which set types are ordsets.
#[derive(Drop)]
pub struct Shared {
    pub families: Seq<Family>,
    pub lists: Seq<u16>,
    pub names: Seq<Seq<usize>>,
    pub set_names: Seq<usize>,
    pub ordered: Seq<bool>,
}

// A copy of some numbers.
fn copy_numbers(alloc: Global, numbers: &[usize]) -> Result<Seq<usize>, AllocError>
    ensures { IfOk result (λ copy. copy ≡ numbers.now) }
{
    let copy = Vec::from_slice(alloc, numbers)?;
    Ok(Seq::from_vec(copy))
}

// A copy of the numbers of each enumeration.
fn copy_names(alloc: Global, names: &[Seq<usize>]) -> Result<Seq<Seq<usize>>, AllocError>
    ensures { IfOk result (λ copy. copy ≡ names.now) }
{
    let mut copies = Seq::new(alloc);
    for numbers in names {
        copies.push(copy_numbers(alloc, numbers.as_slice())?)?;
    }
    Ok(copies)
}

// How many constants each enumeration has.
fn lengths(alloc: Global, design: &Design) -> Result<Seq<u16>, AllocError>
    ensures { IfOk result (λ lists. lists ≡ map length design.now.enums) }
{
    let lists = list_lengths(alloc, design)?;
    Ok(Seq::from_vec(lists))
}

// Which set types are ordsets.
fn orders(alloc: Global, sets: &[SetInfo]) -> Result<Seq<bool>, AllocError>
    ensures { IfOk result (λ ordered. ordered ≡ orders_of sets.now) }
{
    let mut ordered = Seq::new(alloc);
    for info in sets {
        ordered.push(info.ordered)?;
    }
    Ok(ordered)
}

/// A copy of all that, by the numbers of names.
pub fn in_common(
    alloc: Global,
    design: &Design,
    names: &[Seq<usize>],
    set_names: &[usize],
) -> Result<Shared, AllocError>
    requires names { names.now ≡ map (map (name_number design.now.enums)) design.now.enums }
    requires set_names { set_names.now ≡ set_numbers_of design.now.sets }
    ensures { IfOk result (IsShared design.now) }
{
    let families = copy_families(alloc, design.families.as_slice())?;
    let lists = lengths(alloc, design)?;
    let names = copy_names(alloc, names)?;
    let set_names = copy_numbers(alloc, set_names)?;
    let ordered = orders(alloc, design.sets.as_slice())?;
    Ok(Shared {
        families,
        lists,
        names,
        set_names,
        ordered,
    })
}

/// The elements of a problem that is done with, and what it has in common with the others of its design.
#[derive(Drop)]
pub struct ProblemParts {
    pub elements: Seq<Element>,
    pub shared: Shared,
}

/// Takes a problem apart that is done with.
pub fn taken_apart(problem: Problem) -> ProblemParts
    ensures { result ≡ parts_in problem }
{
    let Problem {
        elements,
        families,
        lists,
        names,
        set_names,
        ordered,
        types: _,
        now: _,
        before: _,
        target: _,
        guards: _,
        bindings: _,
    } = problem;
    ProblemParts {
        elements,
        shared: Shared {
            families,
            lists,
            names,
            set_names,
            ordered,
        },
    }
}

/// What a problem that is done with has in common with the others of its design.
pub fn taken_back(problem: Problem) -> Shared
    ensures { result ≡ shared_in problem }
{
    taken_apart(problem).shared
}
