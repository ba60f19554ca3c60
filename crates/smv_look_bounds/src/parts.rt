// What is doubted of definitions.
ghost use Rattle.std.specs.Prelude.{◌≡◌, ◌++◌, flat_map, map, OnOk};
ghost use Rattle.smv_look_bounds.specs.Doubts as spec;
ghost use Rattle.smv_look_bounds.specs.Held.{given_of, member_values};

use crate::doubts::{Doubt, bound, push_doubts, push_each, push_tested, under};
use crate::narrowing::Given;
use crate::sums::{family_at, push_value};
use smv_core::flat::{Def, DefBody, Family, FlatExpr, FlatMember, Simple};
use std::alloc::{AllocError, Global};

// Notes the values that a right side may give to what has this type, and that this type does not have.
#[cycle(sides)]
#[tactic(auto, using(crate::proofs::ValueEquations::equations, crate::proofs::Listing::listing))]
fn push_values<'a>(
    out: &mut Vec<Doubt>,
    alloc: Global,
    families: &[Family],
    over: Simple,
    vars: &[Simple],
    givens: &[Given<'a>],
    x: &'a FlatExpr,
) -> Result<(), AllocError>
    ensures { OnOk result (out.new.items ≡ out.old.items ++ spec.values families.now over vars.now (map given_of givens.now) x.now) }
{
    match x {
        FlatExpr::List { members, .. } => {
            push_members(out, alloc, families, over, vars, givens, members.as_slice())
        }
        FlatExpr::Choose { cond, yes, no } => {
            push_branch(
                out,
                alloc,
                families,
                over,
                vars,
                givens,
                Given {
                    cond: cond.get(),
                    holds: true,
                },
                yes.get(),
            )?;
            push_branch(
                out,
                alloc,
                families,
                over,
                vars,
                givens,
                Given {
                    cond: cond.get(),
                    holds: false,
                },
                no.get(),
            )
        }
        FlatExpr::Number { .. }
        | FlatExpr::Read { .. }
        | FlatExpr::Var { .. }
        | FlatExpr::Loop { .. }
        | FlatExpr::Constant { .. }
        | FlatExpr::Not { .. }
        | FlatExpr::And { .. }
        | FlatExpr::Or { .. }
        | FlatExpr::Implies { .. }
        | FlatExpr::Iff { .. }
        | FlatExpr::Compare { .. }
        | FlatExpr::Within { .. }
        | FlatExpr::Sum { .. }
        | FlatExpr::Modulo { .. }
        | FlatExpr::All { .. }
        | FlatExpr::Any { .. }
        | FlatExpr::Each { .. } => push_value(out, families, vars, givens, over, x),
    }
}

// Notes those of a branch of a `?:`.
#[cycle(sides)]
fn push_branch<'a>(
    out: &mut Vec<Doubt>,
    alloc: Global,
    families: &[Family],
    over: Simple,
    vars: &[Simple],
    givens: &[Given<'a>],
    given: Given<'a>,
    x: &'a FlatExpr,
) -> Result<(), AllocError>
    ensures { OnOk result (out.new.items ≡ out.old.items ++ spec.values families.now over vars.now (spec.under (map given_of givens.now) given.entry.holds given.entry.cond.now) x.now) }
{
    let inner = under(alloc, givens, given)?;
    push_values(out, alloc, families, over, vars, inner.as_slice(), x)
}

#[cycle(sides)]
#[tactic(auto, using(crate::proofs::Listing::listing))]
fn push_members<'a>(
    out: &mut Vec<Doubt>,
    alloc: Global,
    families: &[Family],
    over: Simple,
    vars: &[Simple],
    givens: &[Given<'a>],
    members: &'a [FlatMember],
) -> Result<(), AllocError>
    ensures { OnOk result (out.new.items ≡ out.old.items ++ flat_map (member_values families.now over vars.now (map given_of givens.now)) members.now) }
{
    for member in members {
        match member {
            FlatMember::One { of } => { push_values(out, alloc, families, over, vars, givens, of)? }
            FlatMember::Span { .. } => {}
        }
    }
    Ok(())
}

// Notes what is doubted of a part of a definition of what has this type.
#[cycle(parts)]
#[tactic(auto, using(crate::proofs::PartEquations::equations, crate::proofs::Listing::listing))]
fn push_part<'a>(
    out: &mut Vec<Doubt>,
    alloc: Global,
    families: &[Family],
    over: Simple,
    vars: &[Simple],
    givens: &[Given<'a>],
    part: &'a DefBody,
) -> Result<(), AllocError>
    ensures { OnOk result (out.new.items ≡ out.old.items ++ spec.part_doubts families.now over vars.now (map given_of givens.now) part.now) }
{
    match part {
        DefBody::Nothing => Ok(()),
        DefBody::Assign { left, value, .. } => {
            push_each(out, alloc, families, vars, givens, left.as_slice())?;
            push_values(out, alloc, families, over, vars, givens, value)?;
            push_doubts(out, alloc, families, vars, givens, value)
        }
        DefBody::If { cond, yes, no } => {
            push_tested(out, alloc, families, vars, givens, cond)?;
            push_arm(
                out,
                alloc,
                families,
                over,
                vars,
                givens,
                Given { cond, holds: true },
                yes.get(),
            )?;
            push_arm(
                out,
                alloc,
                families,
                over,
                vars,
                givens,
                Given { cond, holds: false },
                no.get(),
            )
        }
        DefBody::First { parts } => push_parts(
            out,
            alloc,
            families,
            over,
            vars,
            givens,
            parts.as_slice(),
        ),
        DefBody::Forall {
            var,
            over: each,
            body,
        } => {
            let inner = bound(alloc, vars, *var, *each)?;
            push_part(
                out,
                alloc,
                families,
                over,
                inner.as_slice(),
                givens,
                body.get(),
            )
        }
    }
}

// Notes that of a part under one more condition.
#[cycle(parts)]
fn push_arm<'a>(
    out: &mut Vec<Doubt>,
    alloc: Global,
    families: &[Family],
    over: Simple,
    vars: &[Simple],
    givens: &[Given<'a>],
    given: Given<'a>,
    part: &'a DefBody,
) -> Result<(), AllocError>
    ensures { OnOk result (out.new.items ≡ out.old.items ++ spec.part_doubts families.now over vars.now (spec.under (map given_of givens.now) given.entry.holds given.entry.cond.now) part.now) }
{
    let inner = under(alloc, givens, given)?;
    push_part(out, alloc, families, over, vars, inner.as_slice(), part)
}

#[cycle(parts)]
#[tactic(auto, using(crate::proofs::Listing::listing))]
fn push_parts<'a>(
    out: &mut Vec<Doubt>,
    alloc: Global,
    families: &[Family],
    over: Simple,
    vars: &[Simple],
    givens: &[Given<'a>],
    parts: &'a [DefBody],
) -> Result<(), AllocError>
    ensures { OnOk result (out.new.items ≡ out.old.items ++ flat_map (spec.part_doubts families.now over vars.now (map given_of givens.now)) parts.now) }
{
    for part in parts {
        push_part(out, alloc, families, over, vars, givens, part)?;
    }
    Ok(())
}

// Notes what is doubted of a definition of what has this type.
#[tactic(auto, using(crate::proofs::Listing::listing), unfolding(crate::specs::Doubts::all_doubts))]
fn push_all(
    out: &mut Vec<Doubt>,
    alloc: Global,
    families: &[Family],
    over: Simple,
    def: &Def,
) -> Result<(), AllocError>
    ensures { OnOk result (out.new.items ≡ out.old.items ++ spec.all_doubts families.now over def.now) }
{
    push_part(out, alloc, families, over, &[], &[], &def.init)?;
    push_part(out, alloc, families, over, &[], &[], &def.next)?;
    push_part(out, alloc, families, over, &[], &[], &def.comb)
}

/// Notes what is doubted of a definition.
#[tactic(auto, using(crate::proofs::Listing::listing))]
pub fn push_def(
    out: &mut Vec<Doubt>,
    alloc: Global,
    families: &[Family],
    def: &Def,
) -> Result<(), AllocError>
    ensures { OnOk result (out.new.items ≡ out.old.items ++ spec.def_doubts families.now def.now) }
{
    match family_at(families, def.family) {
        None => Ok(()),
        Some(family) => push_all(out, alloc, families, family.value, def),
    }
}
