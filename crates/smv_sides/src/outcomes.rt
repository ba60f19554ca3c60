// Right sides with outcomes of their own: no set, and no conditional.
ghost use Rattle.std.specs.Prelude.{◌≤◌, ◌-◌, IfOk};
ghost use Rattle.smv_core.specs.Values.{numbers_from};
ghost use Rattle.smv_conditions.specs.Keep.{KeepsConditions};
ghost use Rattle.smv_cells.specs.Cells.{AreCellsMade};
ghost use Rattle.smv_outcomes.specs.Remembered.{AreKnown};
ghost use Rattle.smv_targets.specs.Targets.{IsTargetMade, IsSo};
ghost use Rattle.smv_sides.specs.Sides.{IsOfTarget, some_means, only_means, numbers_mean};

use smv_cells::Cell;
use smv_conditions::chances::Chances;
use smv_conditions::conditions::Conditions;
use smv_core::flat::FlatExpr;
use smv_outcomes::{Known, offers_for};
use smv_problem::Problem;
use smv_spots::spots::Spot;
use smv_targets::offered::{several_of, some_given};
use smv_targets::targets::{Sense, Target, given};
use std::alloc::{AllocError, Global};

/// Some outcome of an expression gives the value in this sense.
pub(crate) fn some_outcome<'a, S: Conditions>(
    s: &mut S,
    alloc: Global,
    problem: &Problem,
    cells: &[Cell<S::Condition>],
    known: &mut Known<'a, Chances<S::Condition>>,
    target: &Target<S::Condition>,
    sense: Sense,
    e: &'a FlatExpr,
    b: &[Spot],
) -> Result<S::Condition, AllocError>
    requires cells_made { AreCellsMade (S.IsMade s.old) cells.now }
    requires known { AreKnown S.IsMade S.holds s.old problem.now cells.now known.old.entries.items }
    requires target_made { IsTargetMade (S.IsMade s.old) target.now }
    ensures keeps { KeepsConditions S.IsMade S.holds S.room s.old s.new }
    ensures made { IfOk result (λ r. S.IsMade s.new r) }
    ensures cells { IfOk result (λ r. AreCellsMade (S.IsMade s.new) cells.now) }
    ensures known { IfOk result (λ r. AreKnown S.IsMade S.holds s.new problem.entry.now cells.now known.new.entries.items) }
    ensures target { IfOk result (λ r. IsTargetMade (S.IsMade s.new) target.now) }
    ensures is { IfOk result (λ r. IsSo S.holds s.old s.new problem.entry.now cells.now target.now (some_means sense b.now e.now) r) }
{
    let offers = offers_for(s, alloc, problem, cells, known, e, b)?;
    let r = some_given(s, alloc, problem, target, sense, offers.as_slice())?;
    Ok(r)
}

/// The only outcome of an expression gives the value for certain.
pub(crate) fn only_outcome<'a, S: Conditions>(
    s: &mut S,
    alloc: Global,
    problem: &Problem,
    cells: &[Cell<S::Condition>],
    known: &mut Known<'a, Chances<S::Condition>>,
    target: &Target<S::Condition>,
    e: &'a FlatExpr,
    b: &[Spot],
) -> Result<S::Condition, AllocError>
    requires cells_made { AreCellsMade (S.IsMade s.old) cells.now }
    requires known { AreKnown S.IsMade S.holds s.old problem.now cells.now known.old.entries.items }
    requires target_made { IsTargetMade (S.IsMade s.old) target.now }
    ensures keeps { KeepsConditions S.IsMade S.holds S.room s.old s.new }
    ensures made { IfOk result (λ r. S.IsMade s.new r) }
    ensures cells { IfOk result (λ r. AreCellsMade (S.IsMade s.new) cells.now) }
    ensures known { IfOk result (λ r. AreKnown S.IsMade S.holds s.new problem.entry.now cells.now known.new.entries.items) }
    ensures target { IfOk result (λ r. IsTargetMade (S.IsMade s.new) target.now) }
    ensures is { IfOk result (λ r. IsSo S.holds s.old s.new problem.entry.now cells.now target.now (only_means b.now e.now) r) }
{
    let offers = offers_for(s, alloc, problem, cells, known, e, b)?;
    let all = offers.as_slice();
    let sure = some_given(s, alloc, problem, target, Sense::Surely, all)?;
    let several = several_of(s, alloc, problem, all)?;
    let one = s.opposite(alloc, several.two)?;
    let r = s.both(alloc, sure, one)?;
    Ok(r)
}

/// Some number of these, from one on and before another, gives the value in this sense.
pub(crate) fn some_number<S: Conditions>(
    s: &mut S,
    alloc: Global,
    problem: &Problem,
    target: &Target<S::Condition>,
    sense: Sense,
    low: u32,
    end: u32,
) -> Result<S::Condition, AllocError>
    requires end_small { end ≤ 65536 }
    requires target_made { IsTargetMade (S.IsMade s.old) target.now }
    ensures keeps { KeepsConditions S.IsMade S.holds S.room s.old s.new }
    ensures made { IfOk result (λ r. S.IsMade s.new r) }
    ensures target { IfOk result (λ r. IsTargetMade (S.IsMade s.new) target.now) }
    ensures is { IfOk result (λ r. IsOfTarget S.holds s.old s.new problem.entry.now target.now (numbers_mean sense (numbers_from low (end - low))) r) }
{
    let mut some = s.constant(false);
    for value in low..end {
        let number = Spot::Number {
            value: value as u16,
        };
        let gives = given(problem, target, sense, Some(number));
        some = s.either(alloc, some, gives)?;
    }
    Ok(some)
}
