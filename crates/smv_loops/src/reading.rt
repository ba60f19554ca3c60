// What assignments and expressions read.
ghost use Rattle.std.specs.Prelude.{◌≡◌, ◌∷◌, ◌++◌, map, flat_map, IfOk, OnOk};
ghost use Rattle.smv_loops.specs.Held.{assigned_in, index_in, read_in, read_in_member, read_in_term, reference_of, reading_of};

use smv_core::flat::{DefBody, FlatExpr, FlatMember, FlatSigned};
use std::alloc::{AllocError, Global};

/// A reference to a signal: its family, its indexes and its offset.
#[derive(Clone, Copy)]
pub struct Read<'a> {
    pub family: u16,
    pub indexes: &'a [FlatExpr],
    pub at: u32,
}

/// An assignment: its family, its indexes, what it reads, its place in flat order and its offset.
#[derive(Drop)]
pub struct Held<'a> {
    pub family: u16,
    pub left: &'a [FlatExpr],
    pub reads: Vec<Read<'a>>,
    pub place: u32,
    pub at: u32,
}

/// The references in an expression, also those in indexes.
#[cycle(expressions)]
#[tactic(auto, using(crate::proofs::Listing::listing, crate::proofs::ExpressionLaws::equations))]
pub fn references<'a>(out: &mut Vec<Read<'a>>, x: &'a FlatExpr) -> Result<(), AllocError>
    ensures { OnOk result (map reference_of out.new.items ≡ map reference_of out.old.items ++ read_in x.now) }
{
    match x {
        FlatExpr::Number { .. } => Ok(()),
        FlatExpr::Read {
            family,
            indexes,
            at,
        } => reference(out, *family, indexes.as_slice(), *at),
        FlatExpr::Var { .. } => Ok(()),
        FlatExpr::Loop { .. } => Ok(()),
        FlatExpr::Constant { .. } => Ok(()),
        FlatExpr::Not { of, .. } => references(out, of.get()),
        FlatExpr::And { parts } => all_references(out, parts.as_slice()),
        FlatExpr::Or { parts } => all_references(out, parts.as_slice()),
        FlatExpr::Implies { parts } => all_references(out, parts.as_slice()),
        FlatExpr::Iff { left, right } => {
            references(out, left.get())?;
            references(out, right.get())
        }
        FlatExpr::Compare { left, right, .. } => {
            references(out, left.get())?;
            references(out, right.get())
        }
        FlatExpr::Within { left, set } => {
            references(out, left.get())?;
            references(out, set.get())
        }
        FlatExpr::Sum { first, more } => {
            references(out, first.get())?;
            signed_references(out, more.as_slice())
        }
        FlatExpr::Modulo { of, .. } => references(out, of.get()),
        FlatExpr::Choose { cond, yes, no } => {
            references(out, cond.get())?;
            references(out, yes.get())?;
            references(out, no.get())
        }
        FlatExpr::All { body, .. } => references(out, body.get()),
        FlatExpr::Any { body, .. } => references(out, body.get()),
        FlatExpr::List { members, .. } => member_references(out, members.as_slice()),
        FlatExpr::Each { cond, .. } => match cond {
            None => Ok(()),
            Some(cond) => references(out, cond.get()),
        },
    }
}

#[cycle(expressions)]
#[tactic(auto, using(crate::proofs::Listing::listing))]
fn reference<'a>(
    out: &mut Vec<Read<'a>>,
    family: u16,
    indexes: &'a [FlatExpr],
    at: u32,
) -> Result<(), AllocError>
    ensures { OnOk result (map reference_of out.new.items ≡ map reference_of out.old.items ++ record { family = family; indexes = map index_in indexes.now; at = at } ∷ flat_map read_in indexes.now) }
{
    out.push(Read {
        family,
        indexes,
        at,
    })?;
    all_references(out, indexes)
}

#[cycle(expressions)]
#[tactic(auto, using(crate::proofs::Listing::listing))]
fn all_references<'a>(out: &mut Vec<Read<'a>>, parts: &'a [FlatExpr]) -> Result<(), AllocError>
    ensures { OnOk result (map reference_of out.new.items ≡ map reference_of out.old.items ++ flat_map read_in parts.now) }
{
    for x in parts {
        references(out, x)?;
    }
    Ok(())
}

#[cycle(expressions)]
#[tactic(auto, using(crate::proofs::Listing::listing))]
fn signed_references<'a>(out: &mut Vec<Read<'a>>, more: &'a [FlatSigned]) -> Result<(), AllocError>
    ensures { OnOk result (map reference_of out.new.items ≡ map reference_of out.old.items ++ flat_map read_in_term more.now) }
{
    for x in more {
        references(out, &x.of)?;
    }
    Ok(())
}

#[cycle(expressions)]
#[tactic(auto, using(crate::proofs::Listing::listing))]
fn member_references<'a>(
    out: &mut Vec<Read<'a>>,
    members: &'a [FlatMember],
) -> Result<(), AllocError>
    ensures { OnOk result (map reference_of out.new.items ≡ map reference_of out.old.items ++ flat_map read_in_member members.now) }
{
    for x in members {
        match x {
            FlatMember::One { of } => references(out, of)?,
            FlatMember::Span { .. } => {}
        }
    }
    Ok(())
}

/// The assignments of a part of a family's definition, inside conditions that read this.
#[cycle(parts)]
#[tactic(auto, using(crate::proofs::Listing::listing, crate::proofs::PartLaws::equations))]
pub fn readings<'a>(
    alloc: Global,
    out: &mut Vec<Held<'a>>,
    family: u16,
    around: &[Read<'a>],
    x: &'a DefBody,
) -> Result<(), AllocError>
    ensures { OnOk result (map reading_of out.new.items ≡ map reading_of out.old.items ++ assigned_in family (map reference_of around.now) x.now) }
{
    match x {
        DefBody::Nothing => Ok(()),
        DefBody::Assign {
            left,
            value,
            place,
            at,
        } => {
            let left = left.as_slice();
            let reads = reads(alloc, around, left, value)?;
            out.push(Held {
                family,
                left,
                reads,
                place: *place,
                at: *at,
            })?;
            Ok(())
        }
        DefBody::If { cond, yes, no } => {
            let inside = inside(alloc, around, cond)?;
            readings(alloc, out, family, inside.as_slice(), yes.get())?;
            readings(alloc, out, family, inside.as_slice(), no.get())
        }
        DefBody::First { parts } => all_readings(alloc, out, family, around, parts.as_slice()),
        DefBody::Forall { body, .. } => readings(alloc, out, family, around, body.get()),
    }
}

#[cycle(parts)]
#[tactic(auto, using(crate::proofs::Listing::listing))]
fn all_readings<'a>(
    alloc: Global,
    out: &mut Vec<Held<'a>>,
    family: u16,
    around: &[Read<'a>],
    parts: &'a [DefBody],
) -> Result<(), AllocError>
    ensures { OnOk result (map reading_of out.new.items ≡ map reading_of out.old.items ++ flat_map (assigned_in family (map reference_of around.now)) parts.now) }
{
    for x in parts {
        readings(alloc, out, family, around, x)?;
    }
    Ok(())
}

// What is read inside a condition, where this is read around it.
#[tactic(auto, using(crate::proofs::Listing::listing))]
fn inside<'a>(
    alloc: Global,
    around: &[Read<'a>],
    cond: &'a FlatExpr,
) -> Result<Vec<Read<'a>>, AllocError>
    ensures { IfOk result (λ inside. map reference_of inside.items ≡ map reference_of around.now ++ read_in cond.now) }
{
    let mut inside = Vec::from_slice(alloc, around)?;
    references(&mut inside, cond)?;
    Ok(inside)
}

// What an assignment reads, where this is read around it.
#[tactic(auto, using(crate::proofs::Listing::listing))]
fn reads<'a>(
    alloc: Global,
    around: &[Read<'a>],
    left: &'a [FlatExpr],
    value: &'a FlatExpr,
) -> Result<Vec<Read<'a>>, AllocError>
    ensures { IfOk result (λ reads. map reference_of reads.items ≡ map reference_of around.now ++ flat_map read_in left.now ++ read_in value.now) }
{
    let mut reads = Vec::from_slice(alloc, around)?;
    all_references(&mut reads, left)?;
    references(&mut reads, value)?;
    Ok(reads)
}
