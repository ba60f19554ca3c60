// The base definition of each family, by its number.
ghost use Rattle.std.specs.Prelude.{◌≡◌, ◌+◌, ◌<◌, length, option_copied, replicate, slice_get, Some, IfOk};
ghost use Rattle.law_obligations.specs.Outlines as outline;
ghost use Rattle.law_obligations.specs.Outlines.{base_of, earlier};
ghost use Rattle.smv_unit_tables.specs.Bases.{AreBases, AreBasesFrom};

use smv_core::flat::{Def, Design};
use std::alloc::{AllocError, Global};

/// The number of each family's base definition, and for a family without one how many definitions there are. It is found in one pass from the last
/// definition to the first, so that of several at one place the first counts.
pub fn bases(alloc: Global, design: &Design) -> Result<Vec<usize>, AllocError>
    ensures { IfOk result (λ bases. AreBases design.now bases.items) }
{
    let count = design.defs.len();
    let mut bases = none_yet(alloc, design)?;
    for place in (0..count).rev() {
        add(design, &mut bases, place);
    }
    Ok(bases)
}

// The number of a family's base definition, if the table has the family.
fn number_at(bases: &[usize], family: usize) -> Option<usize>
    ensures { result ≡ slice_get bases.now family }
{
    bases.get(family).copied()
}

/// The definition of a number.
pub fn def_at<'a>(design: &'a Design, place: usize) -> Option<&'a Def>
    ensures { option_copied result ≡ slice_get design.now.defs place }
{
    design.defs.as_slice().get(place)
}

/// The base definition of a family, by the numbers of all of them.
pub fn base_at<'a>(design: &'a Design, bases: &[usize], family: usize) -> Option<&'a Def>
    requires { AreBases design.now bases.now }
    ensures { option_copied result ≡ base_of design.now family }
{
    match number_at(bases, family) {
        Some(place) => def_at(design, place),
        None => def_at(design, design.defs.len()),
    }
}

// Before the first definition no family has one.
fn none_yet(alloc: Global, design: &Design) -> Result<Vec<usize>, AllocError>
    ensures { IfOk result (λ bases. bases.items ≡ replicate (length design.now.families) (length design.now.defs)) }
{
    vec![in alloc; design.defs.len(); design.families.len()]
}

// One more definition, in front of those that are known.
fn add(design: &Design, bases: &mut Vec<usize>, place: usize)
    requires place { place < length design.now.defs }
    requires bases { AreBasesFrom design.now (place + 1) bases.old.items }
    ensures { AreBasesFrom design.now place bases.new.items }
{
    let defs = design.defs.as_slice();
    let def = &defs[place];
    let family = def.family as usize;
    if may_be_base(design, def) {
        bases[family] = earlier_of(defs, place, bases[family]);
    }
}

// Whether a definition may be the base definition of its family: of an abstract signal any, of another that outside layers.
fn may_be_base(design: &Design, def: &Def) -> bool
    ensures { result ≡ outline.may_be_base design.now def.now.family (slice_get design.now.families def.now.family) def.now }
{
    match design.families.as_slice().get(def.family as usize) {
        Some(family) => family.is_abstract || def.layer.is_none(),
        None => false,
    }
}

// Of a definition and one that stands behind it in the list, if there is one, that which stands earlier in flat order.
fn earlier_of(defs: &[Def], place: usize, other: usize) -> usize
    requires { place < length defs.now }
    ensures { (def : Def) → slice_get defs.now place ≡ Some def → slice_get defs.now result ≡ Some (earlier def (slice_get defs.now other)) }
{
    match defs.get(other) {
        Some(found) => {
            if found.place < defs[place].place {
                other
            } else {
                place
            }
        }
        None => place,
    }
}
