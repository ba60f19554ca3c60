// What is said of owners, brought together by owner.
ghost use Rattle.std.specs.Prelude.{◌≡◌, IfOk, OnOk, option_copied};
ghost use Rattle.smv_design.specs.declared.owners.Owner.{Owner};
ghost use Rattle.smv_design.specs.Parts.{kept};
ghost use Rattle.smv_design.specs.Groups.{same_owner, parts_for, no_sides, more, filled, combine, used, one_more, held};

use crate::owners::Owner;
use crate::parts::{Part, branches, joined, keep};
use smv_core::flat::{DefBody, FlatExpr};
use smv_core::seq::Seq;
use std::alloc::{AllocError, Global};
use std::collections::HashMap;

/// The parts that are said of one owner, in their order: those of the first branch of an `if` and those of its second. Elsewhere all are first.
#[derive(Drop)]
pub struct Sides {
    pub first: Seq<DefBody>,
    pub second: Seq<DefBody>,
}

// One more part.
fn put(sides: &mut Sides, is_second: bool, says: DefBody) -> Result<(), AllocError>
    ensures { OnOk result (sides.new ≡ more sides.old is_second says) }
{
    if is_second {
        sides.second.push(says)?;
    } else {
        sides.first.push(says)?;
    }
    Ok(())
}

// One part alone.
fn only(is_second: bool, says: DefBody, alloc: Global) -> Result<Sides, AllocError>
    ensures { IfOk result (λ sides. sides ≡ more no_sides is_second says) }
{
    let one = Seq::from_vec(vec![in alloc; says]?);
    let none = Seq::new(alloc);
    if is_second {
        Ok(Sides {
            first: none,
            second: one,
        })
    } else {
        Ok(Sides {
            first: one,
            second: none,
        })
    }
}

/// One more part, with its owner's.
pub fn add(
    groups: &mut HashMap<Owner, Sides>,
    part: Part,
    is_second: bool,
    alloc: Global,
) -> Result<(), AllocError>
    ensures { OnOk result ((other : Owner) → used groups.new other ≡ one_more (used groups.old other) (same_owner part.owner other) is_second part.says) }
{
    let Part { owner, says } = part;
    match groups.get_mut(&owner) {
        Some(sides) => {
            put(sides, is_second, says)?;
            Ok(())
        }
        None => {
            let sides = only(is_second, says, alloc)?;
            groups.insert(owner, sides)?;
            Ok(())
        }
    }
}

/// These parts more, each with its owner's.
pub fn add_all(
    groups: &mut HashMap<Owner, Sides>,
    parts: Vec<Part>,
    is_second: bool,
    alloc: Global,
) -> Result<(), AllocError>
    ensures { OnOk result ((owner : Owner) → held groups.new owner ≡ filled (held groups.old owner) is_second (parts_for owner parts.items)) }
{
    for part in parts {
        add(groups, part, is_second, alloc)?;
    }
    Ok(())
}

// The parts of an owner as one: those of an `if` of this condition, or of several statements.
fn combined(cond: Option<&FlatExpr>, sides: Sides, alloc: Global) -> Result<DefBody, AllocError>
    ensures { IfOk result (λ part. part ≡ combine (option_copied cond.entry) sides) }
{
    let Sides { first, second } = sides;
    let yes = joined(first.into_vec());
    match cond {
        Some(cond) => branches(cond, yes, joined(second.into_vec()), alloc),
        None => Ok(yes),
    }
}

/// Each owner's parts as one, where they have a result: those of an `if` of this condition, or of several statements.
pub(crate) fn merged(
    groups: HashMap<Owner, Sides>,
    cond: Option<&FlatExpr>,
    alloc: Global,
) -> Result<Vec<Part>, AllocError>
    ensures { IfOk result (λ parts. (owner : Owner) → parts_for owner parts.items ≡ kept (combine (option_copied cond.entry) (held groups owner))) }
{
    let mut parts = Vec::new(alloc);
    for (owner, sides) in groups {
        let says = combined(cond, sides, alloc)?;
        keep(&mut parts, owner, says)?;
    }
    Ok(parts)
}
