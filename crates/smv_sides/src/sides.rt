// What right sides allow, as conditions at the target's own value.
ghost use Rattle.std.specs.Prelude.{IfOk};
ghost use Rattle.smv_conditions.specs.Keep.{KeepsConditions};
ghost use Rattle.smv_cells.specs.Cells.{AreCellsMade};
ghost use Rattle.smv_outcomes.specs.Remembered.{AreKnown};
ghost use Rattle.smv_targets.specs.Targets.{IsTargetMade, IsSo};
ghost use Rattle.smv_sides.specs.Sides.{may_allowed, must_allowed, member_allows, members_allow};

use crate::branches::surely_of;
use crate::comprehensions::{may_choose, must_choose};
use crate::members::{has_some, some_of_members};
use crate::outcomes::{only_outcome, some_number, some_outcome};
use smv_cells::Cell;
use smv_conditions::chances::Chances;
use smv_conditions::conditions::Conditions;
use smv_conditions::gists::chosen;
use smv_core::flat::{FlatExpr, FlatMember};
use smv_outcomes::{Known, truth_of};
use smv_problem::Problem;
use smv_spots::spots::Spot;
use smv_targets::targets::{Sense, Target};
use std::alloc::{AllocError, Global};

/// What a right side may allow of the target's value.
pub fn may_allow<'a, S: Conditions>(
    s: &mut S,
    alloc: Global,
    problem: &Problem,
    cells: &[Cell<S::Condition>],
    known: &mut Known<'a, Chances<S::Condition>>,
    target: &Target<S::Condition>,
    e: &'a FlatExpr,
    b: &[Spot],
) -> Result<S::Condition, AllocError>
    requires cells_made { AreCellsMade (S.IsMade s.old) cells.now }
    requires known { AreKnown S.IsMade S.holds s.old problem.now cells.now known.old.entries.items }
    requires target_made { IsTargetMade (S.IsMade s.old) target.now }
    ensures keeps { KeepsConditions S.IsMade S.holds S.room s.old s.new }
    ensures made { IfOk result (λ r. S.IsMade s.new r) }
    ensures cells { IfOk result (λ r. AreCellsMade (S.IsMade s.new) cells.now) }
    ensures known { IfOk result (λ r. AreKnown S.IsMade S.holds s.new problem.entry.now cells.now known.new.entries.items) }
    ensures target { IfOk result (λ r. IsTargetMade (S.IsMade s.new) target.now) }
    ensures is { IfOk result (λ r. IsSo S.holds s.old s.new problem.entry.now cells.now target.now (may_allowed b.now e.now) r) }
{
    match e {
        FlatExpr::Choose { cond, yes, no } => {
            let left = may_allow(s, alloc, problem, cells, known, target, yes.get(), b)?;
            let right = may_allow(s, alloc, problem, cells, known, target, no.get(), b)?;
            let x = truth_of(s, alloc, problem, cells, known, cond.get(), b)?;
            let r = chosen(s, alloc, x, right, left, target.always)?;
            Ok(r)
        }
        FlatExpr::List { members, .. } => {
            let all = members.as_slice();
            if !has_some(all) {
                return Ok(target.always);
            }
            let r = some_of_members(s, alloc, problem, cells, known, target, Sense::May, all, b)?;
            Ok(r)
        }
        FlatExpr::Each {
            var,
            over,
            cond,
            ..
        } => match cond {
            None => {
                let r = may_choose(
                    s, alloc, problem, cells, known, target, *var, *over, None, b,
                )?;
                Ok(r)
            }
            Some(cond) => {
                let met = Some(cond.get());
                let r = may_choose(s, alloc, problem, cells, known, target, *var, *over, met, b)?;
                Ok(r)
            }
        },
        _ => {
            let r = some_outcome(s, alloc, problem, cells, known, target, Sense::May, e, b)?;
            Ok(r)
        }
    }
}

/// What a right side allows for certain of the target's value.
#[cycle(sides)]
pub fn must_allow<'a, S: Conditions>(
    s: &mut S,
    alloc: Global,
    problem: &Problem,
    cells: &[Cell<S::Condition>],
    known: &mut Known<'a, Chances<S::Condition>>,
    target: &Target<S::Condition>,
    e: &'a FlatExpr,
    b: &[Spot],
) -> Result<S::Condition, AllocError>
    requires cells_made { AreCellsMade (S.IsMade s.old) cells.now }
    requires known { AreKnown S.IsMade S.holds s.old problem.now cells.now known.old.entries.items }
    requires target_made { IsTargetMade (S.IsMade s.old) target.now }
    ensures keeps { KeepsConditions S.IsMade S.holds S.room s.old s.new }
    ensures made { IfOk result (λ r. S.IsMade s.new r) }
    ensures cells { IfOk result (λ r. AreCellsMade (S.IsMade s.new) cells.now) }
    ensures known { IfOk result (λ r. AreKnown S.IsMade S.holds s.new problem.entry.now cells.now known.new.entries.items) }
    ensures target { IfOk result (λ r. IsTargetMade (S.IsMade s.new) target.now) }
    ensures is { IfOk result (λ r. IsSo S.holds s.old s.new problem.entry.now cells.now target.now (must_allowed b.now e.now) r) }
{
    match e {
        FlatExpr::Choose { cond, yes, no } => {
            let left = must_allow(s, alloc, problem, cells, known, target, yes.get(), b)?;
            let right = must_allow(s, alloc, problem, cells, known, target, no.get(), b)?;
            let x = truth_of(s, alloc, problem, cells, known, cond.get(), b)?;
            let r = surely_of(s, alloc, x, left, right)?;
            Ok(r)
        }
        FlatExpr::List { members, .. } => {
            let all = members.as_slice();
            let r = sure_of_members(s, alloc, problem, cells, known, target, all, b)?;
            Ok(r)
        }
        FlatExpr::Each {
            var,
            over,
            cond,
            ..
        } => match cond {
            None => {
                let r = must_choose(
                    s, alloc, problem, cells, known, target, *var, *over, None, b,
                )?;
                Ok(r)
            }
            Some(cond) => {
                let met = Some(cond.get());
                let r = must_choose(s, alloc, problem, cells, known, target, *var, *over, met, b)?;
                Ok(r)
            }
        },
        _ => {
            let r = only_outcome(s, alloc, problem, cells, known, target, e, b)?;
            Ok(r)
        }
    }
}

// Some member allows the value for certain, or can only be outside the type.
#[cycle(sides)]
fn sure_of_members<'a, S: Conditions>(
    s: &mut S,
    alloc: Global,
    problem: &Problem,
    cells: &[Cell<S::Condition>],
    known: &mut Known<'a, Chances<S::Condition>>,
    target: &Target<S::Condition>,
    members: &'a [FlatMember],
    b: &[Spot],
) -> Result<S::Condition, AllocError>
    requires cells_made { AreCellsMade (S.IsMade s.old) cells.now }
    requires known { AreKnown S.IsMade S.holds s.old problem.now cells.now known.old.entries.items }
    requires target_made { IsTargetMade (S.IsMade s.old) target.now }
    ensures keeps { KeepsConditions S.IsMade S.holds S.room s.old s.new }
    ensures made { IfOk result (λ r. S.IsMade s.new r) }
    ensures cells { IfOk result (λ r. AreCellsMade (S.IsMade s.new) cells.now) }
    ensures known { IfOk result (λ r. AreKnown S.IsMade S.holds s.new problem.entry.now cells.now known.new.entries.items) }
    ensures target { IfOk result (λ r. IsTargetMade (S.IsMade s.new) target.now) }
    ensures is { IfOk result (λ r. IsSo S.holds s.old s.new problem.entry.now cells.now target.now (members_allow b.now members.now) r) }
{
    let mut some = s.constant(false);
    for member in members {
        let here = sure_of_member(s, alloc, problem, cells, known, target, member, b)?;
        some = s.either(alloc, some, here)?;
    }
    Ok(some)
}

// A member allows the value for certain, or can only be outside the type.
#[cycle(sides)]
fn sure_of_member<'a, S: Conditions>(
    s: &mut S,
    alloc: Global,
    problem: &Problem,
    cells: &[Cell<S::Condition>],
    known: &mut Known<'a, Chances<S::Condition>>,
    target: &Target<S::Condition>,
    member: &'a FlatMember,
    b: &[Spot],
) -> Result<S::Condition, AllocError>
    requires cells_made { AreCellsMade (S.IsMade s.old) cells.now }
    requires known { AreKnown S.IsMade S.holds s.old problem.now cells.now known.old.entries.items }
    requires target_made { IsTargetMade (S.IsMade s.old) target.now }
    ensures keeps { KeepsConditions S.IsMade S.holds S.room s.old s.new }
    ensures made { IfOk result (λ r. S.IsMade s.new r) }
    ensures cells { IfOk result (λ r. AreCellsMade (S.IsMade s.new) cells.now) }
    ensures known { IfOk result (λ r. AreKnown S.IsMade S.holds s.new problem.entry.now cells.now known.new.entries.items) }
    ensures target { IfOk result (λ r. IsTargetMade (S.IsMade s.new) target.now) }
    ensures is { IfOk result (λ r. IsSo S.holds s.old s.new problem.entry.now cells.now target.now (member_allows b.now member.now) r) }
{
    match member {
        FlatMember::One { of } => {
            let here = must_allow(s, alloc, problem, cells, known, target, of, b)?;
            let some = some_outcome(
                s,
                alloc,
                problem,
                cells,
                known,
                target,
                Sense::Inside,
                of,
                b,
            )?;
            let none = s.opposite(alloc, some)?;
            let r = s.either(alloc, none, here)?;
            Ok(r)
        }
        FlatMember::Span { span, .. } => {
            let low = u32::from(span.low);
            let end = u32::from(span.high) + 1;
            let r = some_number(s, alloc, problem, target, Sense::Surely, low, end)?;
            Ok(r)
        }
    }
}
