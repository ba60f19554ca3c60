// What is doubted of expressions.
ghost use Rattle.std.specs.Prelude.{◌≡◌, ◌++◌, flat_map, map, IfOk, OnOk};
ghost use Rattle.smv_look_bounds.specs.Doubts as spec;
ghost use Rattle.smv_look_bounds.specs.Held.{given_of, implied_doubts, member_doubts, term_doubts};

use crate::narrowing::Given;
use crate::numbers::Bounds;
use crate::sums::{push_condition, push_read, push_sum};
use smv_core::flat::{Family, FlatExpr, FlatMember, FlatSigned, Simple};
use std::alloc::{AllocError, Global};

/// What is doubted of an expression.
#[derive(Clone, Copy)]
pub enum What {
    /// A sum may be above 511.
    Above,
    /// A difference may be below 0.
    Below,
    /// An index has these bounds, which are not within its type.
    Index { bounds: Bounds, over: Simple },
    /// A value has these bounds, which are not within the type of what it is given to.
    Value { bounds: Bounds, over: Simple },
    /// A condition is made of constants alone.
    Always,
}

/// What is doubted, and the offset where it stands.
#[derive(Clone, Copy)]
pub struct Doubt {
    pub what: What,
    pub at: u32,
}

/// These conditions around and one more.
#[tactic(auto, using(crate::proofs::Listing::listing))]
pub(crate) fn under<'a>(
    alloc: Global,
    givens: &[Given<'a>],
    given: Given<'a>,
) -> Result<Vec<Given<'a>>, AllocError>
    ensures { IfOk result (λ inner. map given_of inner.items ≡ spec.under (map given_of givens.now) given.entry.holds given.entry.cond.now) }
{
    let mut inner = Vec::from_slice(alloc, givens)?;
    inner.push(given)?;
    Ok(inner)
}

/// The types of these variables with one more bound, and those from its number on bound no longer.
pub(crate) fn bound(
    alloc: Global,
    vars: &[Simple],
    var: u16,
    over: Simple,
) -> Result<Vec<Simple>, AllocError>
    ensures { IfOk result (λ inner. inner.items ≡ spec.bound vars.now var over) }
{
    let mut inner = Vec::from_slice(alloc, vars)?;
    inner.truncate(var as usize);
    inner.push(over)?;
    Ok(inner)
}

/// Notes what is doubted of an expression: the variables that are bound around have these types, and these conditions stand around.
#[cycle(expressions)]
#[tactic(auto, using(crate::proofs::DoubtEquations::equations, crate::proofs::Listing::listing))]
pub(crate) fn push_doubts<'a>(
    out: &mut Vec<Doubt>,
    alloc: Global,
    families: &[Family],
    vars: &[Simple],
    givens: &[Given<'a>],
    x: &'a FlatExpr,
) -> Result<(), AllocError>
    ensures { OnOk result (out.new.items ≡ out.old.items ++ spec.doubts families.now vars.now (map given_of givens.now) x.now) }
{
    match x {
        FlatExpr::Number { .. } => Ok(()),
        FlatExpr::Read {
            family,
            indexes,
            ..
        } => {
            push_read(out, families, vars, givens, *family, indexes.as_slice())?;
            push_each(out, alloc, families, vars, givens, indexes.as_slice())
        }
        FlatExpr::Var { .. } => Ok(()),
        FlatExpr::Loop { .. } => Ok(()),
        FlatExpr::Constant { .. } => Ok(()),
        FlatExpr::Not { of, .. } => push_doubts(out, alloc, families, vars, givens, of.get()),
        FlatExpr::And { parts } => {
            let inner = under(
                alloc,
                givens,
                Given {
                    cond: x,
                    holds: true,
                },
            )?;
            push_each(
                out,
                alloc,
                families,
                vars,
                inner.as_slice(),
                parts.as_slice(),
            )
        }
        FlatExpr::Or { parts } => {
            let inner = under(
                alloc,
                givens,
                Given {
                    cond: x,
                    holds: false,
                },
            )?;
            push_each(
                out,
                alloc,
                families,
                vars,
                inner.as_slice(),
                parts.as_slice(),
            )
        }
        FlatExpr::Implies { parts } => {
            push_implied(out, alloc, families, vars, givens, parts.as_slice())
        }
        FlatExpr::Iff { left, right } => {
            push_doubts(out, alloc, families, vars, givens, left.get())?;
            push_doubts(out, alloc, families, vars, givens, right.get())
        }
        FlatExpr::Compare { left, right, .. } => {
            push_doubts(out, alloc, families, vars, givens, left.get())?;
            push_doubts(out, alloc, families, vars, givens, right.get())
        }
        FlatExpr::Within { left, set } => {
            push_doubts(out, alloc, families, vars, givens, left.get())?;
            push_doubts(out, alloc, families, vars, givens, set.get())
        }
        FlatExpr::Sum { first, more } => {
            push_sum(out, families, vars, givens, first.get(), more.as_slice())?;
            push_doubts(out, alloc, families, vars, givens, first.get())?;
            push_terms(out, alloc, families, vars, givens, more.as_slice())
        }
        FlatExpr::Modulo { of, .. } => push_doubts(out, alloc, families, vars, givens, of.get()),
        FlatExpr::Choose { cond, yes, no } => {
            push_tested(out, alloc, families, vars, givens, cond.get())?;
            push_under(
                out,
                alloc,
                families,
                vars,
                givens,
                Given {
                    cond: cond.get(),
                    holds: true,
                },
                yes.get(),
            )?;
            push_under(
                out,
                alloc,
                families,
                vars,
                givens,
                Given {
                    cond: cond.get(),
                    holds: false,
                },
                no.get(),
            )
        }
        FlatExpr::All {
            body,
            var,
            over,
            ..
        } => push_inside(out, alloc, families, vars, givens, *var, *over, body.get()),
        FlatExpr::Any {
            body,
            var,
            over,
            ..
        } => push_inside(out, alloc, families, vars, givens, *var, *over, body.get()),
        FlatExpr::List { members, .. } => {
            push_members(out, alloc, families, vars, givens, members.as_slice())
        }
        FlatExpr::Each {
            var,
            over,
            cond,
            ..
        } => match cond {
            None => Ok(()),
            Some(cond) => {
                push_inside(out, alloc, families, vars, givens, *var, *over, cond.get())
            }
        },
    }
}

// Notes that of a condition, and whether it never changes.
#[cycle(expressions)]
#[tactic(auto, using(crate::proofs::Listing::listing))]
pub(crate) fn push_tested<'a>(
    out: &mut Vec<Doubt>,
    alloc: Global,
    families: &[Family],
    vars: &[Simple],
    givens: &[Given<'a>],
    cond: &'a FlatExpr,
) -> Result<(), AllocError>
    ensures { OnOk result (out.new.items ≡ out.old.items ++ spec.condition_doubt cond.now ++ spec.doubts families.now vars.now (map given_of givens.now) cond.now) }
{
    push_condition(out, cond)?;
    push_doubts(out, alloc, families, vars, givens, cond)
}

// Notes that of an expression under one more condition.
#[cycle(expressions)]
fn push_under<'a>(
    out: &mut Vec<Doubt>,
    alloc: Global,
    families: &[Family],
    vars: &[Simple],
    givens: &[Given<'a>],
    given: Given<'a>,
    x: &'a FlatExpr,
) -> Result<(), AllocError>
    ensures { OnOk result (out.new.items ≡ out.old.items ++ spec.doubts families.now vars.now (spec.under (map given_of givens.now) given.entry.holds given.entry.cond.now) x.now) }
{
    let inner = under(alloc, givens, given)?;
    push_doubts(out, alloc, families, vars, inner.as_slice(), x)
}

// Notes that of an expression with one more variable.
#[cycle(expressions)]
fn push_inside<'a>(
    out: &mut Vec<Doubt>,
    alloc: Global,
    families: &[Family],
    vars: &[Simple],
    givens: &[Given<'a>],
    var: u16,
    over: Simple,
    x: &'a FlatExpr,
) -> Result<(), AllocError>
    ensures { OnOk result (out.new.items ≡ out.old.items ++ spec.doubts families.now (spec.bound vars.now var over) (map given_of givens.now) x.now) }
{
    let inner = bound(alloc, vars, var, over)?;
    push_doubts(out, alloc, families, inner.as_slice(), givens, x)
}

// Notes that of each of some expressions.
#[cycle(expressions)]
#[tactic(auto, using(crate::proofs::Listing::listing))]
pub(crate) fn push_each<'a>(
    out: &mut Vec<Doubt>,
    alloc: Global,
    families: &[Family],
    vars: &[Simple],
    givens: &[Given<'a>],
    parts: &'a [FlatExpr],
) -> Result<(), AllocError>
    ensures { OnOk result (out.new.items ≡ out.old.items ++ flat_map (spec.doubts families.now vars.now (map given_of givens.now)) parts.now) }
{
    for x in parts {
        push_doubts(out, alloc, families, vars, givens, x)?;
    }
    Ok(())
}

// Notes that of expressions each of which stands under those before it.
#[cycle(expressions)]
#[tactic(auto, using(crate::proofs::Listing::listing))]
fn push_implied<'a>(
    out: &mut Vec<Doubt>,
    alloc: Global,
    families: &[Family],
    vars: &[Simple],
    givens: &[Given<'a>],
    parts: &'a [FlatExpr],
) -> Result<(), AllocError>
    ensures { OnOk result (out.new.items ≡ out.old.items ++ implied_doubts families.now vars.now (map given_of givens.now) parts.now) }
{
    let mut inner = Vec::from_slice(alloc, givens)?;
    for x in parts {
        push_doubts(out, alloc, families, vars, inner.as_slice(), x)?;
        inner.push(Given {
            cond: x,
            holds: true,
        })?;
    }
    Ok(())
}

#[cycle(expressions)]
#[tactic(auto, using(crate::proofs::Listing::listing))]
fn push_terms<'a>(
    out: &mut Vec<Doubt>,
    alloc: Global,
    families: &[Family],
    vars: &[Simple],
    givens: &[Given<'a>],
    more: &'a [FlatSigned],
) -> Result<(), AllocError>
    ensures { OnOk result (out.new.items ≡ out.old.items ++ flat_map (term_doubts families.now vars.now (map given_of givens.now)) more.now) }
{
    for signed in more {
        push_doubts(out, alloc, families, vars, givens, &signed.of)?;
    }
    Ok(())
}

#[cycle(expressions)]
#[tactic(auto, using(crate::proofs::Listing::listing))]
fn push_members<'a>(
    out: &mut Vec<Doubt>,
    alloc: Global,
    families: &[Family],
    vars: &[Simple],
    givens: &[Given<'a>],
    members: &'a [FlatMember],
) -> Result<(), AllocError>
    ensures { OnOk result (out.new.items ≡ out.old.items ++ flat_map (member_doubts families.now vars.now (map given_of givens.now)) members.now) }
{
    for member in members {
        match member {
            FlatMember::One { of } => push_doubts(out, alloc, families, vars, givens, of)?,
            FlatMember::Span { .. } => {}
        }
    }
    Ok(())
}
