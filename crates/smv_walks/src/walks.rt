// The way down a definition.
ghost use Rattle.std.specs.Prelude.{◌≡◌, IfOk, IfSome, []};
ghost use Rattle.smv_conditions.specs.Keep.{KeepsConditions};
ghost use Rattle.smv_conditions.specs.Gists.{AreGistsMade};
ghost use Rattle.smv_cells.specs.Cells.{AreCellsMade};
ghost use Rattle.smv_outcomes.specs.Remembered.{AreKnown};
ghost use Rattle.smv_targets.specs.Targets.{IsTargetMade, IsSo};
ghost use Rattle.smv_walk_parts.specs.Parts.{AllGistsMade};
ghost use Rattle.smv_walks.specs.Walks.{everything_of, right_of, gist_in, gist_assigned, IsGistsOf, IsPassedOf, IsTaken, AreGistsOf, AreGistsAlong};

use crate::bindings::bound_over;
use crate::passed::{add_some, are_passed, first_of_some, or_nothing};
use smv_cells::Cell;
use smv_conditions::chances::Chances;
use smv_conditions::conditions::Conditions;
use smv_conditions::gists::{Gists, assigned_of, if_of};
use smv_core::flat::{DefBody, FlatExpr};
use smv_core::seq::Seq;
use smv_problem::Problem;
use smv_sides::expressions::{Known, truth_of};
use smv_sides::{may_allow, must_allow};
use smv_spots::spots::Spot;
use smv_targets::Target;
use smv_walk_parts::{is_elsewhere, matched};
use std::alloc::{AllocError, Global};

/// What is asked of a result: that it may allow the element's value, or that it does not allow it for certain.
#[derive(Clone, Copy)]
pub enum Way {
    May,
    Must,
}

/// Whether every value of the type passes what is asked.
pub fn everything<S: Conditions>(s: &S, target: &Target<S::Condition>, way: Way) -> S::Condition
    requires target_made { IsTargetMade (S.IsMade s.now) target.now }
    ensures made { S.IsMade s.now result }
    ensures is { result ≡ everything_of target.now way }
{
    let _ = s;
    match way {
        Way::May => target.always,
        Way::Must => target.never,
    }
}

// Whether a right side passes what is asked.
fn right<'a, S: Conditions>(
    s: &mut S,
    alloc: Global,
    problem: &Problem,
    cells: &[Cell<S::Condition>],
    known: &mut Known<'a, Chances<S::Condition>>,
    target: &Target<S::Condition>,
    way: Way,
    value: &'a FlatExpr,
    b: &[Spot],
) -> Result<S::Condition, AllocError>
    requires cells_made { AreCellsMade (S.IsMade s.old) cells.now }
    requires known { AreKnown S.IsMade S.holds s.old problem.now cells.now known.old.entries.items }
    requires target_made { IsTargetMade (S.IsMade s.old) target.now }
    ensures keeps { KeepsConditions S.IsMade S.holds S.room s.old s.new }
    ensures made { IfOk result (λ r. S.IsMade s.new r) }
    ensures cells { IfOk result (λ r. AreCellsMade (S.IsMade s.new) cells.now) }
    ensures known { IfOk result (λ r. AreKnown S.IsMade S.holds s.new problem.entry.now cells.now known.new.entries.items) }
    ensures target { IfOk result (λ r. IsTargetMade (S.IsMade s.new) target.now) }
    ensures is { IfOk result (λ r. IsSo S.holds s.old s.new problem.entry.now cells.now target.now (right_of way b.now value.now) r) }
{
    match way {
        Way::May => {
            let r = may_allow(s, alloc, problem, cells, known, target, value, b)?;
            Ok(r)
        }
        Way::Must => {
            let c = must_allow(s, alloc, problem, cells, known, target, value, b)?;
            let r = s.opposite(alloc, c)?;
            Ok(r)
        }
    }
}

// What an assignment with this left side may give.
fn assigned<'a, S: Conditions>(
    s: &mut S,
    alloc: Global,
    problem: &Problem,
    cells: &[Cell<S::Condition>],
    known: &mut Known<'a, Chances<S::Condition>>,
    target: &Target<S::Condition>,
    way: Way,
    left: &'a [FlatExpr],
    value: &'a FlatExpr,
    b: &[Spot],
) -> Result<Gists<S::Condition>, AllocError>
    requires cells_made { AreCellsMade (S.IsMade s.old) cells.now }
    requires known { AreKnown S.IsMade S.holds s.old problem.now cells.now known.old.entries.items }
    requires target_made { IsTargetMade (S.IsMade s.old) target.now }
    ensures keeps { KeepsConditions S.IsMade S.holds S.room s.old s.new }
    ensures made { IfOk result (λ g. AreGistsMade (S.IsMade s.new) g) }
    ensures cells { IfOk result (λ g. AreCellsMade (S.IsMade s.new) cells.now) }
    ensures known { IfOk result (λ g. AreKnown S.IsMade S.holds s.new problem.entry.now cells.now known.new.entries.items) }
    ensures target { IfOk result (λ g. IsTargetMade (S.IsMade s.new) target.now) }
    ensures is { IfOk result (λ g. IsGistsOf S.holds s.old s.new problem.entry.now cells.now target.now (λ z a. gist_assigned way z a b.now left.now value.now) g) }
{
    let r = right(s, alloc, problem, cells, known, target, way, value, b)?;
    let x = matched(
        s,
        alloc,
        problem,
        cells,
        known,
        target.indexes.as_slice(),
        left,
        b,
    )?;
    let open = everything(s, target, way);
    let g = assigned_of(s, alloc, open, r, x)?;
    Ok(g)
}

// What a condition gives of two branches; it isn't looked at where both are left out.
fn taken<'a, S: Conditions>(
    s: &mut S,
    alloc: Global,
    problem: &Problem,
    cells: &[Cell<S::Condition>],
    known: &mut Known<'a, Chances<S::Condition>>,
    target: &Target<S::Condition>,
    way: Way,
    cond: &'a FlatExpr,
    g: Option<Gists<S::Condition>>,
    h: Option<Gists<S::Condition>>,
    b: &[Spot],
) -> Result<Option<Gists<S::Condition>>, AllocError>
    requires cells_made { AreCellsMade (S.IsMade s.old) cells.now }
    requires known { AreKnown S.IsMade S.holds s.old problem.now cells.now known.old.entries.items }
    requires target_made { IsTargetMade (S.IsMade s.old) target.now }
    requires g_made { IfSome g (λ g. AreGistsMade (S.IsMade s.old) g) }
    requires h_made { IfSome h (λ h. AreGistsMade (S.IsMade s.old) h) }
    ensures keeps { KeepsConditions S.IsMade S.holds S.room s.old s.new }
    ensures made { IfOk result (λ o. IfSome o (λ k. AreGistsMade (S.IsMade s.new) k)) }
    ensures cells { IfOk result (λ o. AreCellsMade (S.IsMade s.new) cells.now) }
    ensures known { IfOk result (λ o. AreKnown S.IsMade S.holds s.new problem.entry.now cells.now known.new.entries.items) }
    ensures target { IfOk result (λ o. IsTargetMade (S.IsMade s.new) target.now) }
    ensures is { IfOk result (λ o. IsTaken S.holds s.old s.new problem.entry.now cells.now target.now way b.now cond.now g h o) }
{
    if are_passed(g, h) {
        return Ok(None);
    }
    let above = or_nothing(s, g);
    let below = or_nothing(s, h);
    let x = truth_of(s, alloc, problem, cells, known, cond, b)?;
    let open = everything(s, target, way);
    let k = if_of(s, alloc, open, x, above, below)?;
    Ok(Some(k))
}

// The gist of what a part may give; none where that is nothing alone, since each of its assignments is known to be elsewhere. Their right sides and the conditions around them are not
// looked at then.
#[cycle(walks)]
fn passed<'a, S: Conditions>(
    s: &mut S,
    alloc: Global,
    problem: &Problem,
    cells: &[Cell<S::Condition>],
    known: &mut Known<'a, Chances<S::Condition>>,
    target: &Target<S::Condition>,
    way: Way,
    part: &'a DefBody,
    b: &[Spot],
) -> Result<Option<Gists<S::Condition>>, AllocError>
    requires cells_made { AreCellsMade (S.IsMade s.old) cells.now }
    requires known { AreKnown S.IsMade S.holds s.old problem.now cells.now known.old.entries.items }
    requires target_made { IsTargetMade (S.IsMade s.old) target.now }
    ensures keeps { KeepsConditions S.IsMade S.holds S.room s.old s.new }
    ensures made { IfOk result (λ o. IfSome o (λ g. AreGistsMade (S.IsMade s.new) g)) }
    ensures cells { IfOk result (λ o. AreCellsMade (S.IsMade s.new) cells.now) }
    ensures known { IfOk result (λ o. AreKnown S.IsMade S.holds s.new problem.entry.now cells.now known.new.entries.items) }
    ensures target { IfOk result (λ o. IsTargetMade (S.IsMade s.new) target.now) }
    ensures is { IfOk result (λ o. IsPassedOf S.holds s.old s.new problem.entry.now cells.now target.now (λ z a. gist_in way z a b.now part.now) o) }
{
    match part {
        DefBody::Nothing => Ok(None),
        DefBody::Assign { left, value, .. } => {
            let lefts = left.as_slice();
            let indexes = target.indexes.as_slice();
            if is_elsewhere(problem, indexes, lefts, b) {
                return Ok(None);
            }
            let g = assigned(
                s, alloc, problem, cells, known, target, way, lefts, value, b,
            )?;
            Ok(Some(g))
        }
        DefBody::If { cond, yes, no } => {
            let g = passed(s, alloc, problem, cells, known, target, way, yes.get(), b)?;
            let h = passed(s, alloc, problem, cells, known, target, way, no.get(), b)?;
            let k = taken(s, alloc, problem, cells, known, target, way, cond, g, h, b)?;
            Ok(k)
        }
        DefBody::First { parts } => {
            let all = parts.as_slice();
            let each = gists_each(s, alloc, problem, cells, known, target, way, all, b)?;
            let list = each.as_slice();
            let g = first_of_some(s, alloc, list)?;
            Ok(g)
        }
        DefBody::Forall { var, over, body } => {
            let inners = bound_over(alloc, problem, b, *var, *over)?;
            let bindings = inners.as_slice();
            let inner = body.get();
            let found = gists_along(
                s, alloc, problem, cells, known, target, way, inner, bindings,
            )?;
            let gists = found.as_slice();
            let g = first_of_some(s, alloc, gists)?;
            Ok(g)
        }
    }
}

// The gists of these parts, but for those that are nothing alone.
#[cycle(walks)]
fn gists_each<'a, S: Conditions>(
    s: &mut S,
    alloc: Global,
    problem: &Problem,
    cells: &[Cell<S::Condition>],
    known: &mut Known<'a, Chances<S::Condition>>,
    target: &Target<S::Condition>,
    way: Way,
    parts: &'a [DefBody],
    b: &[Spot],
) -> Result<Vec<Gists<S::Condition>>, AllocError>
    requires cells_made { AreCellsMade (S.IsMade s.old) cells.now }
    requires known { AreKnown S.IsMade S.holds s.old problem.now cells.now known.old.entries.items }
    requires target_made { IsTargetMade (S.IsMade s.old) target.now }
    ensures keeps { KeepsConditions S.IsMade S.holds S.room s.old s.new }
    ensures made { IfOk result (λ each. AllGistsMade (S.IsMade s.new) each.items) }
    ensures cells { IfOk result (λ each. AreCellsMade (S.IsMade s.new) cells.now) }
    ensures known { IfOk result (λ each. AreKnown S.IsMade S.holds s.new problem.entry.now cells.now known.new.entries.items) }
    ensures target { IfOk result (λ each. IsTargetMade (S.IsMade s.new) target.now) }
    ensures are { IfOk result (λ each. AreGistsOf S.holds s.old s.new problem.entry.now cells.now target.now way b.now parts.now [] each.items) }
{
    let mut each = Vec::new(alloc);
    for part in parts {
        let g = passed(s, alloc, problem, cells, known, target, way, part, b)?;
        add_some(&mut each, g)?;
    }
    Ok(each)
}

// The gists of a part under each of these bindings, but for those that are nothing alone.
#[cycle(walks)]
fn gists_along<'a, S: Conditions>(
    s: &mut S,
    alloc: Global,
    problem: &Problem,
    cells: &[Cell<S::Condition>],
    known: &mut Known<'a, Chances<S::Condition>>,
    target: &Target<S::Condition>,
    way: Way,
    body: &'a DefBody,
    bindings: &[Seq<Spot>],
) -> Result<Vec<Gists<S::Condition>>, AllocError>
    requires cells_made { AreCellsMade (S.IsMade s.old) cells.now }
    requires known { AreKnown S.IsMade S.holds s.old problem.now cells.now known.old.entries.items }
    requires target_made { IsTargetMade (S.IsMade s.old) target.now }
    ensures keeps { KeepsConditions S.IsMade S.holds S.room s.old s.new }
    ensures made { IfOk result (λ each. AllGistsMade (S.IsMade s.new) each.items) }
    ensures cells { IfOk result (λ each. AreCellsMade (S.IsMade s.new) cells.now) }
    ensures known { IfOk result (λ each. AreKnown S.IsMade S.holds s.new problem.entry.now cells.now known.new.entries.items) }
    ensures target { IfOk result (λ each. IsTargetMade (S.IsMade s.new) target.now) }
    ensures are { IfOk result (λ each. AreGistsAlong S.holds s.old s.new problem.entry.now cells.now target.now way body.now bindings.now [] each.items) }
{
    let mut each = Vec::new(alloc);
    for inner in bindings {
        let g = passed(
            s,
            alloc,
            problem,
            cells,
            known,
            target,
            way,
            body,
            inner.as_slice(),
        )?;
        add_some(&mut each, g)?;
    }
    Ok(each)
}

/// The gist of what a part of a definition may give the element of the target.
pub(crate) fn gists_of<'a, S: Conditions>(
    s: &mut S,
    alloc: Global,
    problem: &Problem,
    cells: &[Cell<S::Condition>],
    known: &mut Known<'a, Chances<S::Condition>>,
    target: &Target<S::Condition>,
    way: Way,
    part: &'a DefBody,
    b: &[Spot],
) -> Result<Gists<S::Condition>, AllocError>
    requires cells_made { AreCellsMade (S.IsMade s.old) cells.now }
    requires known { AreKnown S.IsMade S.holds s.old problem.now cells.now known.old.entries.items }
    requires target_made { IsTargetMade (S.IsMade s.old) target.now }
    ensures keeps { KeepsConditions S.IsMade S.holds S.room s.old s.new }
    ensures made { IfOk result (λ g. AreGistsMade (S.IsMade s.new) g) }
    ensures cells { IfOk result (λ g. AreCellsMade (S.IsMade s.new) cells.now) }
    ensures known { IfOk result (λ g. AreKnown S.IsMade S.holds s.new problem.entry.now cells.now known.new.entries.items) }
    ensures target { IfOk result (λ g. IsTargetMade (S.IsMade s.new) target.now) }
    ensures is { IfOk result (λ g. IsGistsOf S.holds s.old s.new problem.entry.now cells.now target.now (λ z a. gist_in way z a b.now part.now) g) }
{
    let o = passed(s, alloc, problem, cells, known, target, way, part, b)?;
    let g = or_nothing(s, o);
    Ok(g)
}
