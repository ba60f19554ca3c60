// Listed sets, as far as they may allow a value.
ghost use Rattle.std.specs.Prelude.{◌≡◌, IfOk};
ghost use Rattle.std.specs.List.{list_any};
ghost use Rattle.smv_conditions.specs.Keep.{KeepsConditions};
ghost use Rattle.smv_cells.specs.Cells.{AreCellsMade};
ghost use Rattle.smv_outcomes.specs.Remembered.{AreKnown};
ghost use Rattle.smv_targets.specs.Targets.{IsTargetMade, IsSo};
ghost use Rattle.smv_sides.specs.Sides.{member_means, members_mean, stands_for};

use crate::outcomes::{some_number, some_outcome};
use smv_cells::Cell;
use smv_conditions::chances::Chances;
use smv_conditions::conditions::Conditions;
use smv_core::flat::FlatMember;
use smv_outcomes::Known;
use smv_problem::Problem;
use smv_spots::spots::Spot;
use smv_targets::targets::{Sense, Target};
use std::alloc::{AllocError, Global};

// Some outcome of a member gives the value in this sense.
fn some_of_member<'a, S: Conditions>(
    s: &mut S,
    alloc: Global,
    problem: &Problem,
    cells: &[Cell<S::Condition>],
    known: &mut Known<'a, Chances<S::Condition>>,
    target: &Target<S::Condition>,
    sense: Sense,
    member: &'a FlatMember,
    b: &[Spot],
) -> Result<S::Condition, AllocError>
    requires cells_made { AreCellsMade (S.IsMade s.old) cells.now }
    requires known { AreKnown S.IsMade S.holds s.old problem.now cells.now known.old.entries.items }
    requires target_made { IsTargetMade (S.IsMade s.old) target.now }
    ensures keeps { KeepsConditions S.IsMade S.holds S.room s.old s.new }
    ensures made { IfOk result (λ r. S.IsMade s.new r) }
    ensures cells { IfOk result (λ r. AreCellsMade (S.IsMade s.new) cells.now) }
    ensures known { IfOk result (λ r. AreKnown S.IsMade S.holds s.new problem.entry.now cells.now known.new.entries.items) }
    ensures target { IfOk result (λ r. IsTargetMade (S.IsMade s.new) target.now) }
    ensures is { IfOk result (λ r. IsSo S.holds s.old s.new problem.entry.now cells.now target.now (member_means sense b.now member.now) r) }
{
    match member {
        FlatMember::One { of } => {
            let r = some_outcome(s, alloc, problem, cells, known, target, sense, of, b)?;
            Ok(r)
        }
        FlatMember::Span { span, .. } => {
            let end = u32::from(span.high) + 1;
            let r = some_number(s, alloc, problem, target, sense, u32::from(span.low), end)?;
            Ok(r)
        }
    }
}

/// Some outcome of some member gives the value in this sense: from the last member to the first, so that a long list takes no stack.
pub(crate) fn some_of_members<'a, S: Conditions>(
    s: &mut S,
    alloc: Global,
    problem: &Problem,
    cells: &[Cell<S::Condition>],
    known: &mut Known<'a, Chances<S::Condition>>,
    target: &Target<S::Condition>,
    sense: Sense,
    members: &'a [FlatMember],
    b: &[Spot],
) -> Result<S::Condition, AllocError>
    requires cells_made { AreCellsMade (S.IsMade s.old) cells.now }
    requires known { AreKnown S.IsMade S.holds s.old problem.now cells.now known.old.entries.items }
    requires target_made { IsTargetMade (S.IsMade s.old) target.now }
    ensures keeps { KeepsConditions S.IsMade S.holds S.room s.old s.new }
    ensures made { IfOk result (λ r. S.IsMade s.new r) }
    ensures cells { IfOk result (λ r. AreCellsMade (S.IsMade s.new) cells.now) }
    ensures known { IfOk result (λ r. AreKnown S.IsMade S.holds s.new problem.entry.now cells.now known.new.entries.items) }
    ensures target { IfOk result (λ r. IsTargetMade (S.IsMade s.new) target.now) }
    ensures is { IfOk result (λ r. IsSo S.holds s.old s.new problem.entry.now cells.now target.now (members_mean sense b.now members.now) r) }
{
    let mut some = s.constant(false);
    for place in (0..members.len()).rev() {
        let here = some_of_member(
            s,
            alloc,
            problem,
            cells,
            known,
            target,
            sense,
            &members[place],
            b,
        )?;
        some = s.either(alloc, here, some)?;
    }
    Ok(some)
}

// A member stands for a value.
fn stands(member: &FlatMember) -> bool
    ensures { result ≡ stands_for member.now }
{
    match member {
        FlatMember::One { .. } => true,
        FlatMember::Span { span, .. } => span.low <= span.high,
    }
}

/// Some member stands for a value: a listed set without one, which no text has, allows everything.
pub(crate) fn has_some(members: &[FlatMember]) -> bool
    ensures { result ≡ list_any stands_for members.now }
{
    members.iter().any(stands)
}
