// The families that expressions read.
ghost use Rattle.std.specs.Prelude.{◌≡◌, ◌++◌, flat_map, slice_get, OnOk};
ghost use Rattle.law_obligations.specs.Times.{if_there};
ghost use Rattle.smv_unit_tables.specs.Reads.{read_in, read_in_member, read_in_term};

use smv_core::flat::{Family, FlatExpr, FlatMember, FlatSigned};
use std::alloc::AllocError;

/// Puts the families that an expression reads behind others, each as often as it is read.
#[cycle(expressions)]
#[tactic(auto, using(crate::proofs::ReadLaws::listing, crate::proofs::ExpressionLaws::equations))]
pub fn add_read(out: &mut Vec<usize>, families: &[Family], x: &FlatExpr) -> Result<(), AllocError>
    ensures { OnOk result (out.new.items ≡ out.old.items ++ read_in families.now x.now) }
{
    match x {
        FlatExpr::Number { .. } => Ok(()),
        FlatExpr::Read {
            family,
            indexes,
            ..
        } => {
            add_family(out, families, *family)?;
            add_all(out, families, indexes.as_slice())
        }
        FlatExpr::Var { .. } => Ok(()),
        FlatExpr::Loop { .. } => Ok(()),
        FlatExpr::Constant { .. } => Ok(()),
        FlatExpr::Not { of, .. } => add_read(out, families, of.get()),
        FlatExpr::And { parts } => add_all(out, families, parts.as_slice()),
        FlatExpr::Or { parts } => add_all(out, families, parts.as_slice()),
        FlatExpr::Implies { parts } => add_all(out, families, parts.as_slice()),
        FlatExpr::Iff { left, right } => {
            add_read(out, families, left.get())?;
            add_read(out, families, right.get())
        }
        FlatExpr::Compare { left, right, .. } => {
            add_read(out, families, left.get())?;
            add_read(out, families, right.get())
        }
        FlatExpr::Within { left, set } => {
            add_read(out, families, left.get())?;
            add_read(out, families, set.get())
        }
        FlatExpr::Sum { first, more } => {
            add_read(out, families, first.get())?;
            add_terms(out, families, more.as_slice())
        }
        FlatExpr::Modulo { of, .. } => add_read(out, families, of.get()),
        FlatExpr::Choose { cond, yes, no } => {
            add_read(out, families, cond.get())?;
            add_read(out, families, yes.get())?;
            add_read(out, families, no.get())
        }
        FlatExpr::All { body, .. } => add_read(out, families, body.get()),
        FlatExpr::Any { body, .. } => add_read(out, families, body.get()),
        FlatExpr::List { members, .. } => add_members(out, families, members.as_slice()),
        FlatExpr::Each { cond, .. } => match cond {
            None => Ok(()),
            Some(cond) => add_read(out, families, cond.get()),
        },
    }
}

// A family that is there.
fn add_family(out: &mut Vec<usize>, families: &[Family], family: u16) -> Result<(), AllocError>
    ensures { OnOk result (out.new.items ≡ out.old.items ++ if_there family (slice_get families.now family)) }
{
    if families.get(family as usize).is_some() {
        out.push(family as usize)?;
    }
    Ok(())
}

/// The families that several expressions read.
#[cycle(expressions)]
#[tactic(auto, using(crate::proofs::ReadLaws::listing))]
pub fn add_all(
    out: &mut Vec<usize>,
    families: &[Family],
    parts: &[FlatExpr],
) -> Result<(), AllocError>
    ensures { OnOk result (out.new.items ≡ out.old.items ++ flat_map (read_in families.now) parts.now) }
{
    for x in parts {
        add_read(out, families, x)?;
    }
    Ok(())
}

#[cycle(expressions)]
#[tactic(auto, using(crate::proofs::ReadLaws::listing))]
fn add_terms(
    out: &mut Vec<usize>,
    families: &[Family],
    more: &[FlatSigned],
) -> Result<(), AllocError>
    ensures { OnOk result (out.new.items ≡ out.old.items ++ flat_map (read_in_term families.now) more.now) }
{
    for x in more {
        add_read(out, families, &x.of)?;
    }
    Ok(())
}

#[cycle(expressions)]
#[tactic(auto, using(crate::proofs::ReadLaws::listing))]
fn add_members(
    out: &mut Vec<usize>,
    families: &[Family],
    members: &[FlatMember],
) -> Result<(), AllocError>
    ensures { OnOk result (out.new.items ≡ out.old.items ++ flat_map (read_in_member families.now) members.now) }
{
    for x in members {
        match x {
            FlatMember::One { of } => add_read(out, families, of)?,
            FlatMember::Span { .. } => {}
        }
    }
    Ok(())
}
