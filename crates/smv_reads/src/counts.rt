// Which assignments count for an element.
ghost use Rattle.std.specs.Prelude.{◌≡◌, ◌||◌, map, IfOk};
ghost use Rattle.std.specs.List.{list_any};
ghost use Rattle.smv_core.specs.FlatMeaning.{flat_index};
ghost use Rattle.law_obligations.specs.Reads as reads;
ghost use Rattle.smv_indexes.specs.Indexes.{index_of};
ghost use Rattle.smv_reads.specs.Views.{IsView, places, place_in};
ghost use Rattle.smv_reads.specs.Reading.{counts_in, counts_over};
ghost use Rattle.smv_reads.specs.Counts as spec;

use crate::bindings::{View, bound, spots_over};
use crate::indexes::is_bound_to;
use smv_core::flat::{DefBody, FlatExpr, Simple};
use smv_indexes::{Index, known};
use smv_spots::same::is_same;
use smv_spots::spots::Spot;
use std::alloc::{AllocError, Global};

// A left side's index fits an element's: a variable alone lies there, and any other may.
fn fits(view: &View, bindings: &[Spot], index: Index, q: Spot) -> bool
    ensures { result ≡ spec.fits (places view.now bindings.now) (index_of index) (place_in view.now q) }
{
    match index {
        Index::Bare { var } => is_bound_to(view, bindings, var, q),
        Index::Fixed { .. } => true,
        Index::Computed => true,
    }
}

/// A left side has an element's own indexes at its bare variables.
#[tactic(auto, using(crate::proofs::CountLaws::own_laws))]
pub fn is_own(view: &View, own: &[Spot], bindings: &[Spot], left: &[FlatExpr]) -> bool
    ensures { result ≡ reads.is_own (places view.now own.now) (map flat_index left.now) (places view.now bindings.now) }
{
    match left {
        [] => true,
        [first, left @ ..] => match own {
            [] => true,
            [q, own @ ..] => {
                fits(view, bindings, known(first), *q) && is_own(view, own, bindings, left)
            }
        },
    }
}

// The same, where a variable that is not bound yet may lie anywhere.
fn may_fit(view: &View, bindings: &[Spot], index: Index, q: Spot) -> bool
    ensures { result ≡ spec.may_fit (places view.now bindings.now) (index_of index) (place_in view.now q) }
{
    match index {
        Index::Bare { var } => match bindings.get(var as usize) {
            None => true,
            Some(p) => is_same(view.design, *p, q),
        },
        Index::Fixed { .. } => true,
        Index::Computed => true,
    }
}

fn may_be_own(view: &View, own: &[Spot], bindings: &[Spot], left: &[FlatExpr]) -> bool
    ensures { result ≡ spec.may_be_own (places view.now bindings.now) (map flat_index left.now) (places view.now own.now) }
{
    match left {
        [] => true,
        [first, left @ ..] => match own {
            [] => true,
            [q, own @ ..] => {
                may_fit(view, bindings, known(first), *q) && may_be_own(view, own, bindings, left)
            }
        },
    }
}

/// Some assignment of a part may count once the variables below are bound.
#[cycle(may_count)]
#[tactic(auto, using(crate::proofs::CountLaws::may_equations))]
pub(crate) fn may_count(view: &View, own: &[Spot], bindings: &[Spot], part: &DefBody) -> bool
    ensures { result ≡ spec.may_count (places view.now own.now) (places view.now bindings.now) part.now }
{
    match part {
        DefBody::Nothing => false,
        DefBody::Assign { left, .. } => may_be_own(view, own, bindings, left.as_slice()),
        DefBody::If { yes, no, .. } => {
            may_count(view, own, bindings, yes.get()) || may_count(view, own, bindings, no.get())
        }
        DefBody::First { parts } => some_may_count(view, own, bindings, parts.as_slice()),
        DefBody::Forall { var, body, .. } => {
            (*var as usize) < bindings.len() || may_count(view, own, bindings, body.get())
        }
    }
}

#[cycle(may_count)]
fn some_may_count(view: &View, own: &[Spot], bindings: &[Spot], parts: &[DefBody]) -> bool
    ensures { result ≡ list_any (spec.may_count (places view.now own.now) (places view.now bindings.now)) parts.now }
{
    for part in parts {
        if may_count(view, own, bindings, part) {
            return true;
        }
    }
    false
}

/// Some assignment of a part counts.
#[cycle(counts)]
#[tactic(auto, using(crate::proofs::CountLaws::equations))]
pub fn counts(
    alloc: Global,
    view: &View,
    own: &[Spot],
    bindings: &[Spot],
    part: &DefBody,
) -> Result<bool, AllocError>
    requires { IsView view.now }
    ensures { IfOk result (λ counts. counts ≡ counts_in view.now own.now bindings.now part.now) }
{
    match part {
        DefBody::Nothing => Ok(false),
        DefBody::Assign { left, .. } => Ok(is_own(view, own, bindings, left.as_slice())),
        DefBody::If { yes, no, .. } => {
            if counts(alloc, view, own, bindings, yes.get())? {
                Ok(true)
            } else {
                counts(alloc, view, own, bindings, no.get())
            }
        }
        DefBody::First { parts } => some_counts(alloc, view, own, bindings, parts.as_slice()),
        DefBody::Forall { var, over, body } => {
            counts_over(alloc, view, own, bindings, *var, *over, body.get())
        }
    }
}

/// Some assignment of one of two parts counts.
pub(crate) fn either_counts(
    alloc: Global,
    view: &View,
    own: &[Spot],
    bindings: &[Spot],
    yes: &DefBody,
    no: &DefBody,
) -> Result<bool, AllocError>
    requires { IsView view.now }
    ensures { IfOk result (λ counts. counts ≡ (counts_in view.now own.now bindings.now yes.now || counts_in view.now own.now bindings.now no.now)) }
{
    if counts(alloc, view, own, bindings, yes)? {
        Ok(true)
    } else {
        counts(alloc, view, own, bindings, no)
    }
}

#[cycle(counts)]
fn some_counts(
    alloc: Global,
    view: &View,
    own: &[Spot],
    bindings: &[Spot],
    parts: &[DefBody],
) -> Result<bool, AllocError>
    requires { IsView view.now }
    ensures { IfOk result (λ counts. counts ≡ list_any (counts_in view.now own.now bindings.now) parts.now) }
{
    for part in parts {
        if counts(alloc, view, own, bindings, part)? {
            return Ok(true);
        }
    }
    Ok(false)
}

// At some place of the variable of a `forall`.
#[cycle(counts)]
#[tactic(auto, using(crate::proofs::CountLaws::over))]
fn counts_over(
    alloc: Global,
    view: &View,
    own: &[Spot],
    bindings: &[Spot],
    var: u16,
    over: Simple,
    body: &DefBody,
) -> Result<bool, AllocError>
    requires { IsView view.now }
    ensures { IfOk result (λ counts. counts ≡ counts_over view.now own.now bindings.now var over body.now) }
{
    let spots = spots_over(alloc, view, over)?;
    for p in spots.as_slice() {
        let inner = bound(alloc, bindings, var, *p)?;
        if counts_inside(alloc, view, own, inner.as_slice(), body)? {
            return Ok(true);
        }
    }
    Ok(false)
}

// The same as `counts`, where first it is tried whether something may count.
#[cycle(counts)]
#[tactic(auto, using(crate::proofs::CountLaws::none_may))]
fn counts_inside(
    alloc: Global,
    view: &View,
    own: &[Spot],
    bindings: &[Spot],
    part: &DefBody,
) -> Result<bool, AllocError>
    requires { IsView view.now }
    ensures { IfOk result (λ counts. counts ≡ counts_in view.now own.now bindings.now part.now) }
{
    if may_count(view, own, bindings, part) {
        counts(alloc, view, own, bindings, part)
    } else {
        Ok(false)
    }
}
