// Comprehensions as right sides.
ghost use Rattle.std.specs.Prelude.{◌≡◌, ℕ, Bool, true, not, ◌||◌, IfOk, option_copied};
ghost use Rattle.smv_core.specs.FlatMeaning.{Numbered};
ghost use Rattle.smv_core.specs.declared.flat.FlatExpr.{Each};
ghost use Rattle.law_obligations.specs.Places.{World};
ghost use Rattle.smv_problem_spots.specs.Worlds.{IsWorldOf};
ghost use Rattle.smv_conditions.specs.Keep.{KeepsConditions};
ghost use Rattle.smv_cells.specs.Cells.{AreCellsMade};
ghost use Rattle.smv_outcomes.specs.Remembered.{AreKnown};
ghost use Rattle.smv_conditions.specs.Offers.{AreOffersMade, any_offer};
ghost use Rattle.smv_targets.specs.Targets.{IsTargetMade, IsSo};
ghost use Rattle.smv_targets.specs.Offered.{given_test};
ghost use Rattle.smv_sides.specs.Sides.{may_allowed, must_allowed};

use crate::choices::choices_of;
use smv_cells::Cell;
use smv_conditions::chances::Chances;
use smv_conditions::conditions::Conditions;
use smv_conditions::offers::Offer;
use smv_core::flat::{FlatExpr, Simple};
use smv_outcomes::Known;
use smv_problem::Problem;
use smv_spots::spots::Spot;
use smv_targets::offered::{some_given, some_offered};
use smv_targets::targets::{Sense, Target};
use std::alloc::{AllocError, Global};

// What was found before holds, or some outcome that is possible gives the value in this sense.
fn also_given<S: Conditions>(
    s: &mut S,
    alloc: Global,
    problem: &Problem,
    target: &Target<S::Condition>,
    sense: Sense,
    offers: &[Offer<S::Condition>],
    before: S::Condition,
) -> Result<S::Condition, AllocError>
    requires target_made { IsTargetMade (S.IsMade s.old) target.now }
    requires offers_made { AreOffersMade (S.IsMade s.old) offers.now }
    requires before_made { S.IsMade s.old before }
    ensures keeps { KeepsConditions S.IsMade S.holds S.room s.old s.new }
    ensures made { IfOk result (λ r. S.IsMade s.new r) }
    ensures target { IfOk result (λ r. IsTargetMade (S.IsMade s.new) target.now) }
    ensures holds { IfOk result (λ r. (w : World) → IsWorldOf problem.entry.now w → (a : ℕ → Bool) → S.holds s.new r a ≡ (S.holds s.old before a || any_offer w.classes S.holds s.old a (given_test S.holds s.old a w.classes target.now sense) offers.now)) }
{
    let more = some_given(s, alloc, problem, target, sense, offers)?;
    let r = s.either(alloc, before, more)?;
    Ok(r)
}

// None of these outcomes is possible.
fn none_offered<S: Conditions>(
    s: &mut S,
    alloc: Global,
    offers: &[Offer<S::Condition>],
) -> Result<S::Condition, AllocError>
    requires offers_made { AreOffersMade (S.IsMade s.old) offers.now }
    ensures keeps { KeepsConditions S.IsMade S.holds S.room s.old s.new }
    ensures made { IfOk result (λ r. S.IsMade s.new r) }
    ensures holds { IfOk result (λ r. (n : Numbered) (a : ℕ → Bool) → S.holds s.new r a ≡ not (any_offer n S.holds s.old a (λ u. true) offers.now)) }
{
    let some = some_offered(s, alloc, offers)?;
    let r = s.opposite(alloc, some)?;
    Ok(r)
}

/// What a comprehension may allow: a value that may be chosen, and everything where none is for certain.
pub(crate) fn may_choose<'a, S: Conditions>(
    s: &mut S,
    alloc: Global,
    problem: &Problem,
    cells: &[Cell<S::Condition>],
    known: &mut Known<'a, Chances<S::Condition>>,
    target: &Target<S::Condition>,
    var: u16,
    over: Simple,
    cond: Option<&'a FlatExpr>,
    b: &[Spot],
) -> Result<S::Condition, AllocError>
    requires cells_made { AreCellsMade (S.IsMade s.old) cells.now }
    requires known { AreKnown S.IsMade S.holds s.old problem.now cells.now known.old.entries.items }
    requires target_made { IsTargetMade (S.IsMade s.old) target.now }
    ensures keeps { KeepsConditions S.IsMade S.holds S.room s.old s.new }
    ensures made { IfOk result (λ r. S.IsMade s.new r) }
    ensures cells { IfOk result (λ r. AreCellsMade (S.IsMade s.new) cells.now) }
    ensures known { IfOk result (λ r. AreKnown S.IsMade S.holds s.new problem.entry.now cells.now known.new.entries.items) }
    ensures target { IfOk result (λ r. IsTargetMade (S.IsMade s.new) target.now) }
    ensures is { IfOk result (λ r. (at : ℕ) → IsSo S.holds s.old s.new problem.entry.now cells.now target.now (may_allowed b.now (Each var over (option_copied cond.entry) at)) r) }
{
    let choices = choices_of(s, alloc, problem, cells, known, var, over, cond, b)?;
    let none = none_offered(s, alloc, choices.named.as_slice())?;
    let possible = choices.possible.as_slice();
    let r = also_given(s, alloc, problem, target, Sense::May, possible, none)?;
    Ok(r)
}

/// What a comprehension allows for certain: a value that is chosen for certain, and everything where none may be chosen or one outside the type is for certain.
pub(crate) fn must_choose<'a, S: Conditions>(
    s: &mut S,
    alloc: Global,
    problem: &Problem,
    cells: &[Cell<S::Condition>],
    known: &mut Known<'a, Chances<S::Condition>>,
    target: &Target<S::Condition>,
    var: u16,
    over: Simple,
    cond: Option<&'a FlatExpr>,
    b: &[Spot],
) -> Result<S::Condition, AllocError>
    requires cells_made { AreCellsMade (S.IsMade s.old) cells.now }
    requires known { AreKnown S.IsMade S.holds s.old problem.now cells.now known.old.entries.items }
    requires target_made { IsTargetMade (S.IsMade s.old) target.now }
    ensures keeps { KeepsConditions S.IsMade S.holds S.room s.old s.new }
    ensures made { IfOk result (λ r. S.IsMade s.new r) }
    ensures cells { IfOk result (λ r. AreCellsMade (S.IsMade s.new) cells.now) }
    ensures known { IfOk result (λ r. AreKnown S.IsMade S.holds s.new problem.entry.now cells.now known.new.entries.items) }
    ensures target { IfOk result (λ r. IsTargetMade (S.IsMade s.new) target.now) }
    ensures is { IfOk result (λ r. (at : ℕ) → IsSo S.holds s.old s.new problem.entry.now cells.now target.now (must_allowed b.now (Each var over (option_copied cond.entry) at)) r) }
{
    let choices = choices_of(s, alloc, problem, cells, known, var, over, cond, b)?;
    let none = none_offered(s, alloc, choices.possible.as_slice())?;
    let named = choices.named.as_slice();
    let outside = also_given(s, alloc, problem, target, Sense::Outside, named, none)?;
    let here = also_given(s, alloc, problem, target, Sense::Exactly, named, outside)?;
    let rests = choices.rests.as_slice();
    let r = also_given(s, alloc, problem, target, Sense::Exactly, rests, here)?;
    Ok(r)
}
