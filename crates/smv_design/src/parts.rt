// What is said of owners, for one kind of assignment.
ghost use Rattle.std.specs.Prelude.{◌≡◌, ◌++◌, [], IfOk, OnOk, if◌then◌else◌};
ghost use Rattle.smv_core.specs.Walk.{same_kind};
ghost use Rattle.law_designs.specs.Definitions.{is_nothing as has_no_result, joined as joined_of, branches as branches_of, each_value as each_value_of};
ghost use Rattle.smv_design.specs.declared.owners.Owner.{Owner};
ghost use Rattle.smv_design.specs.Parts.{kept};
ghost use Rattle.smv_design.specs.Groups.{parts_for, same_owner};

use crate::owners::Owner;
use smv_copies::copy_expression;
use smv_core::boxed::Boxed;
use smv_core::flat::{DefBody, FlatExpr, Simple};
use smv_core::seq::Seq;
use smv_core::tree::Kind;
use std::alloc::{AllocError, Global};

/// What is said of an owner.
#[derive(Drop)]
pub struct Part {
    pub owner: Owner,
    pub says: DefBody,
}

/// Whether two kinds are the same.
pub fn is_same(a: Kind, b: Kind) -> bool
    ensures { result ≡ same_kind a b }
{
    matches!(
        (a, b),
        (Kind::Comb, Kind::Comb) | (Kind::Init, Kind::Init) | (Kind::Next, Kind::Next)
    )
}

fn is_nothing(part: &DefBody) -> bool
    ensures { result ≡ has_no_result part.now }
{
    matches!(part, DefBody::Nothing)
}

/// Puts a part at the end, where it has a result.
pub fn keep(parts: &mut Vec<Part>, owner: Owner, says: DefBody) -> Result<(), AllocError>
    ensures { OnOk result ((other : Owner) → parts_for other parts.new.items ≡ parts_for other parts.old.items ++ (if same_owner owner other then kept says else [])) }
{
    if !is_nothing(&says) {
        parts.push(Part { owner, says })?;
    }
    Ok(())
}

/// Some parts as one: one alone is itself.
pub fn joined(parts: Vec<DefBody>) -> DefBody
    ensures { result ≡ joined_of parts.items }
{
    let mut parts = parts;
    if parts.len() > 1 {
        return DefBody::First {
            parts: Seq::from_vec(parts),
        };
    }
    match parts.pop() {
        Some(part) => part,
        None => DefBody::Nothing,
    }
}

// An `if` of these branches.
fn chosen(cond: &FlatExpr, yes: DefBody, no: DefBody, alloc: Global) -> Result<DefBody, AllocError>
    ensures { IfOk result (λ part. part ≡ DefBody.If cond.now yes no) }
{
    let yes = Boxed::new(alloc, yes)?;
    let no = Boxed::new(alloc, no)?;
    let cond = copy_expression(cond, alloc)?;
    Ok(DefBody::If { cond, yes, no })
}

/// The branches of an `if`, where one of them has a result.
pub fn branches(
    cond: &FlatExpr,
    yes: DefBody,
    no: DefBody,
    alloc: Global,
) -> Result<DefBody, AllocError>
    ensures { IfOk result (λ part. part ≡ branches_of cond.now yes no) }
{
    if is_nothing(&yes) && is_nothing(&no) {
        return Ok(DefBody::Nothing);
    }
    chosen(cond, yes, no, alloc)
}

/// What stands under a `forall`, where it has a result.
pub fn each_value(
    var: u16,
    over: Simple,
    body: DefBody,
    alloc: Global,
) -> Result<DefBody, AllocError>
    ensures { IfOk result (λ part. part ≡ each_value_of var over body) }
{
    if is_nothing(&body) {
        return Ok(DefBody::Nothing);
    }
    let body = Boxed::new(alloc, body)?;
    Ok(DefBody::Forall { var, over, body })
}

// A copy of each of these indexes, in no more memory than they take.
fn copied(indexes: &[FlatExpr], alloc: Global) -> Result<Seq<FlatExpr>, AllocError>
    ensures { IfOk result (λ copies. copies ≡ indexes.now) }
{
    let mut copies = Vec::with_capacity(alloc, indexes.len())?;
    for index in indexes {
        copies.push(copy_expression(index, alloc)?)?;
    }
    Ok(Seq::from_vec(copies))
}

/// An assignment.
pub fn assigned(
    left: &[FlatExpr],
    value: &FlatExpr,
    place: u32,
    at: u32,
    alloc: Global,
) -> Result<DefBody, AllocError>
    ensures { IfOk result (λ part. part ≡ DefBody.Assign left.now value.now place at) }
{
    let left = copied(left, alloc)?;
    let value = copy_expression(value, alloc)?;
    Ok(DefBody::Assign {
        left,
        value,
        place,
        at,
    })
}
