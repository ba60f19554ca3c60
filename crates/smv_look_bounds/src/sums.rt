// Sums, indexes and values that types and conditions do not keep inside.
ghost use Rattle.std.specs.Prelude.{◌≡◌, ◌++◌, map, option_copied, slice_get, OnOk};
ghost use Rattle.smv_indexes.specs.Indexes.{index_of};
ghost use Rattle.smv_look_bounds.specs.Doubts as spec;
ghost use Rattle.smv_look_bounds.specs.Held.{given_of};

use crate::bounds::bounds;
use crate::constants::is_constant;
use crate::doubts::{Doubt, What};
use crate::narrowing::Given;
use crate::numbers::{Bounds, added};
use crate::places::first_at;
use crate::targets::index;
use smv_core::flat::{Family, FlatExpr, FlatSigned, Simple};
use smv_indexes::Index;
use std::alloc::AllocError;

// Notes what is doubted, where it is so.
fn push_if(out: &mut Vec<Doubt>, is_so: bool, at: u32, what: What) -> Result<(), AllocError>
    ensures { OnOk result (out.new.items ≡ out.old.items ++ spec.doubt_if is_so at what) }
{
    if is_so {
        out.push(Doubt { what, at })?;
    }
    Ok(())
}

// The text alone tells an index.
fn is_known(index: Index) -> bool
    ensures { result ≡ spec.is_known (index_of index) }
{
    match index {
        Index::Fixed { .. } => true,
        Index::Bare { .. } => false,
        Index::Computed => false,
    }
}

// The text alone tells a value.
fn is_fixed(x: &FlatExpr) -> bool
    ensures { result ≡ spec.is_fixed x.now }
{
    is_known(index(x))
}

// Each step of a sum is a constant.
fn are_fixed(more: &[FlatSigned]) -> bool
    ensures { result ≡ spec.are_fixed more.now }
{
    for signed in more {
        if !is_fixed(&signed.of) {
            return false;
        }
    }
    true
}

// An expression is no sum with a step that is no constant.
#[tactic(auto, using(crate::proofs::SteadyEquations::equations))]
fn is_steady(x: &FlatExpr) -> bool
    ensures { result ≡ spec.is_steady x.now }
{
    match x {
        FlatExpr::Sum { more, .. } => are_fixed(more.as_slice()),
        FlatExpr::Number { .. } => true,
        FlatExpr::Read { .. } => true,
        FlatExpr::Var { .. } => true,
        FlatExpr::Loop { .. } => true,
        FlatExpr::Constant { .. } => true,
        FlatExpr::Not { .. } => true,
        FlatExpr::And { .. } => true,
        FlatExpr::Or { .. } => true,
        FlatExpr::Implies { .. } => true,
        FlatExpr::Iff { .. } => true,
        FlatExpr::Compare { .. } => true,
        FlatExpr::Within { .. } => true,
        FlatExpr::Modulo { .. } => true,
        FlatExpr::Choose { .. } => true,
        FlatExpr::All { .. } => true,
        FlatExpr::Any { .. } => true,
        FlatExpr::List { .. } => true,
        FlatExpr::Each { .. } => true,
    }
}

// By how much an end may be passed.
fn slack(givens: &[Given], is_steady: bool) -> u8
    ensures { result ≡ spec.slack (map given_of givens.now) is_steady }
{
    match givens {
        [] => { if is_steady { 0 } else { 1 } }
        [_, ..] => 1,
    }
}

// No condition stands around.
fn stands_free(givens: &[Given]) -> bool
    ensures { result ≡ spec.stands_free (map given_of givens.now) }
{
    match givens {
        [] => true,
        [_, ..] => false,
    }
}

// Bounds pass an end of a type by more than this.
fn passes(by: u8, over: Simple, b: Bounds) -> bool
    ensures { result ≡ spec.passes by over b }
{
    match over {
        Simple::Range { low, high } => {
            u32::from(b.low) + u32::from(by) < u32::from(low)
                || u32::from(high) + u32::from(by) < u32::from(b.high)
        }
        Simple::Enum { list: _ } => false,
        Simple::Set { set: _ } => false,
    }
}

// Notes a step of a sum that may leave 0..511 by more than this.
fn push_bounded(
    out: &mut Vec<Doubt>,
    at: u32,
    by: u8,
    minus: bool,
    a: Bounds,
    b: Bounds,
) -> Result<(), AllocError>
    ensures { OnOk result (out.new.items ≡ out.old.items ++ spec.bounded_step at by minus a b) }
{
    if minus {
        let below = u32::from(a.low) + u32::from(by) < u32::from(b.high);
        push_if(out, below, at, What::Below)
    } else {
        let above = 511 + u32::from(by) < u32::from(a.high) + u32::from(b.high);
        push_if(out, above, at, What::Above)
    }
}

// The same where both sides have bounds.
fn push_step(
    out: &mut Vec<Doubt>,
    at: u32,
    by: u8,
    minus: bool,
    a: Option<Bounds>,
    b: Option<Bounds>,
) -> Result<(), AllocError>
    ensures { OnOk result (out.new.items ≡ out.old.items ++ spec.step_doubt at by minus a b) }
{
    match a {
        None => Ok(()),
        Some(a) => match b {
            None => Ok(()),
            Some(b) => push_bounded(out, at, by, minus, a, b),
        },
    }
}

// Notes the steps of a sum, from the left, after what has these bounds.
#[tactic(auto, using(crate::proofs::Listing::listing))]
fn push_steps(
    out: &mut Vec<Doubt>,
    families: &[Family],
    vars: &[Simple],
    givens: &[Given],
    at: u32,
    by: u8,
    first: Option<Bounds>,
    more: &[FlatSigned],
) -> Result<(), AllocError>
    ensures { OnOk result (out.new.items ≡ out.old.items ++ spec.steps_doubts families.now vars.now (map given_of givens.now) at by first more.now) }
{
    let mut total = first;
    for signed in more {
        let b = bounds(families, vars, givens, &signed.of);
        push_step(out, at, by, signed.minus, total, b)?;
        total = added(signed.minus, total, b);
    }
    Ok(())
}

/// Notes the steps of a sum that may leave 0..511, where it is not made of constants alone.
pub(crate) fn push_sum(
    out: &mut Vec<Doubt>,
    families: &[Family],
    vars: &[Simple],
    givens: &[Given],
    first: &FlatExpr,
    more: &[FlatSigned],
) -> Result<(), AllocError>
    ensures { OnOk result (out.new.items ≡ out.old.items ++ spec.sum_doubts families.now vars.now (map given_of givens.now) first.now more.now) }
{
    let steady = are_fixed(more);
    if is_fixed(first) && steady {
        return Ok(());
    }
    let at = first_at(first);
    let by = slack(givens, steady);
    let b = bounds(families, vars, givens, first);
    push_steps(out, families, vars, givens, at, by, b, more)
}

// Notes an index that may be outside its type by more than this.
fn push_index_outside(
    out: &mut Vec<Doubt>,
    over: Simple,
    at: u32,
    by: u8,
    b: Option<Bounds>,
) -> Result<(), AllocError>
    ensures { OnOk result (out.new.items ≡ out.old.items ++ spec.index_outside over at by b) }
{
    match b {
        None => Ok(()),
        Some(b) => push_if(
            out,
            passes(by, over, b),
            at,
            What::Index { bounds: b, over },
        ),
    }
}

// Notes a value that may be outside the type of what it is given to by more than this.
fn push_value_outside(
    out: &mut Vec<Doubt>,
    over: Simple,
    at: u32,
    by: u8,
    b: Option<Bounds>,
) -> Result<(), AllocError>
    ensures { OnOk result (out.new.items ≡ out.old.items ++ spec.value_outside over at by b) }
{
    match b {
        None => Ok(()),
        Some(b) => push_if(
            out,
            passes(by, over, b),
            at,
            What::Value { bounds: b, over },
        ),
    }
}

// Notes an index, unless it is a constant under a condition.
fn push_index(
    out: &mut Vec<Doubt>,
    families: &[Family],
    vars: &[Simple],
    givens: &[Given],
    over: Simple,
    x: &FlatExpr,
) -> Result<(), AllocError>
    ensures { OnOk result (out.new.items ≡ out.old.items ++ spec.index_doubts families.now vars.now (map given_of givens.now) over x.now) }
{
    if is_fixed(x) && !stands_free(givens) {
        return Ok(());
    }
    let by = slack(givens, is_steady(x));
    push_index_outside(
        out,
        over,
        first_at(x),
        by,
        bounds(families, vars, givens, x),
    )
}

// Notes the indexes of a reference, which have these types.
#[tactic(auto, using(crate::proofs::Listing::listing))]
fn push_indexes(
    out: &mut Vec<Doubt>,
    families: &[Family],
    vars: &[Simple],
    givens: &[Given],
    types: &[Simple],
    indexes: &[FlatExpr],
) -> Result<(), AllocError>
    ensures { OnOk result (out.new.items ≡ out.old.items ++ spec.each_index families.now vars.now (map given_of givens.now) types.now indexes.now) }
{
    match types {
        [] => Ok(()),
        [over, more_types @ ..] => match indexes {
            [] => Ok(()),
            [x, more @ ..] => {
                push_index(out, families, vars, givens, *over, x)?;
                push_indexes(out, families, vars, givens, more_types, more)
            }
        },
    }
}

/// The family of a number.
pub fn family_at(families: &[Family], family: u16) -> Option<&Family>
    ensures { option_copied result ≡ slice_get families.now family }
{
    families.get(family as usize)
}

/// Notes the indexes of a reference that may be outside their types.
#[tactic(auto, using(crate::proofs::Listing::listing))]
pub(crate) fn push_read(
    out: &mut Vec<Doubt>,
    families: &[Family],
    vars: &[Simple],
    givens: &[Given],
    family: u16,
    indexes: &[FlatExpr],
) -> Result<(), AllocError>
    ensures { OnOk result (out.new.items ≡ out.old.items ++ spec.read_doubts families.now vars.now (map given_of givens.now) family indexes.now) }
{
    match family_at(families, family) {
        None => Ok(()),
        Some(f) => push_indexes(out, families, vars, givens, f.over.as_slice(), indexes),
    }
}

/// Notes a value that an assignment gives and that may be outside the type of what it is given to, where the text alone does not tell it.
pub(crate) fn push_value(
    out: &mut Vec<Doubt>,
    families: &[Family],
    vars: &[Simple],
    givens: &[Given],
    over: Simple,
    x: &FlatExpr,
) -> Result<(), AllocError>
    ensures { OnOk result (out.new.items ≡ out.old.items ++ spec.value_doubt families.now vars.now (map given_of givens.now) over x.now) }
{
    if is_fixed(x) {
        return Ok(());
    }
    let by = slack(givens, is_steady(x));
    push_value_outside(
        out,
        over,
        first_at(x),
        by,
        bounds(families, vars, givens, x),
    )
}

/// Notes a condition that never changes.
pub(crate) fn push_condition(out: &mut Vec<Doubt>, x: &FlatExpr) -> Result<(), AllocError>
    ensures { OnOk result (out.new.items ≡ out.old.items ++ spec.condition_doubt x.now) }
{
    push_if(out, is_constant(x), first_at(x), What::Always)
}
