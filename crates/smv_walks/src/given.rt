// What the definition of an element may give it.
ghost use Rattle.std.specs.Prelude.{◌≡◌, ℕ, Bool, IfOk, option_copied};
ghost use Rattle.law_obligations.specs.Places.{AbsOutcome};
ghost use Rattle.smv_problem_spots.specs.Worlds.{IsWorldOf};
ghost use Rattle.smv_conditions.specs.Keep.{KeepsConditions};
ghost use Rattle.smv_conditions.specs.Offers.{AreOffersMade, any_offer};
ghost use Rattle.smv_cells.specs.Cells.{AreCellsMade};
ghost use Rattle.smv_outcomes.specs.Remembered.{AreKnown};
ghost use Rattle.smv_targets.specs.Targets.{Aim, IsTarget, IsTargetMade, IsSo};
ghost use Rattle.smv_walks.specs.Demands.{AreOldMade, AreOldKnown};
ghost use Rattle.smv_walks.specs.Given.{gives_in, keeps_asked, nothing_in, next_in, now_in, IsSoOf, IsGivenAt, IsGiven, IsTargets, IsWritten};

use crate::walks::{Way, everything, gists_of};
use smv_cells::Cell;
use smv_conditions::chances::Chances;
use smv_conditions::conditions::Conditions;
use smv_conditions::offers::Offer;
use smv_core::flat::{DefBody, Element};
use smv_problem::Problem;
use smv_sides::expressions::Known;
use smv_targets::{Sense, Target, places_for, some_given, target_of, value_of};
use smv_typed_spots::index_spots;
use smv_walk_parts::concerns;
use std::alloc::{AllocError, Global};

// Whether some possible result of a part passes what is asked, where Nothing does so under a condition.
fn part_gives<'a, S: Conditions>(
    s: &mut S,
    alloc: Global,
    problem: &Problem,
    cells: &[Cell<S::Condition>],
    known: &mut Known<'a, Chances<S::Condition>>,
    target: &Target<S::Condition>,
    way: Way,
    part: &'a DefBody,
    nothing: S::Condition,
) -> Result<S::Condition, AllocError>
    requires cells_made { AreCellsMade (S.IsMade s.old) cells.now }
    requires known { AreKnown S.IsMade S.holds s.old problem.now cells.now known.old.entries.items }
    requires target_made { IsTargetMade (S.IsMade s.old) target.now }
    requires nothing_made { S.IsMade s.old nothing }
    ensures keeps { KeepsConditions S.IsMade S.holds S.room s.old s.new }
    ensures made { IfOk result (λ r. S.IsMade s.new r) }
    ensures cells { IfOk result (λ r. AreCellsMade (S.IsMade s.new) cells.now) }
    ensures known { IfOk result (λ r. AreKnown S.IsMade S.holds s.new problem.entry.now cells.now known.new.entries.items) }
    ensures is { IfOk result (λ r. IsSo S.holds s.old s.new problem.entry.now cells.now target.now (λ z a. gives_in way z a part.now (S.holds s.old nothing a)) r) }
{
    let g = gists_of(s, alloc, problem, cells, known, target, way, part, &[])?;
    let kept = s.both(alloc, g.nothing, nothing)?;
    let r = s.either(alloc, g.given, kept)?;
    Ok(r)
}

// Whether the value before passes what is asked.
fn value_passes<S: Conditions>(
    s: &mut S,
    alloc: Global,
    problem: &Problem,
    target: &Target<S::Condition>,
    way: Way,
    before: &[Offer<S::Condition>],
) -> Result<S::Condition, AllocError>
    requires target_made { IsTargetMade (S.IsMade s.old) target.now }
    requires before_made { AreOffersMade (S.IsMade s.old) before.now }
    ensures keeps { KeepsConditions S.IsMade S.holds S.room s.old s.new }
    ensures made { IfOk result (λ r. S.IsMade s.new r) }
    ensures target { IfOk result (λ r. IsTargetMade (S.IsMade s.new) target.now) }
    ensures is { IfOk result (λ r. (z : Aim) → IsWorldOf problem.entry.now z.view.world → IsTarget S.holds s.old target.now z → (a : ℕ → Bool) (u : AbsOutcome) → ((p : AbsOutcome → Bool) → any_offer z.view.world.classes S.holds s.old a p before.now ≡ p u) → S.holds s.new r a ≡ keeps_asked way z.every u (z.value a)) }
{
    match way {
        Way::May => {
            let r = some_given(s, alloc, problem, target, Sense::Exactly, before)?;
            Ok(r)
        }
        Way::Must => {
            let c = some_given(s, alloc, problem, target, Sense::Surely, before)?;
            let r = s.opposite(alloc, c)?;
            Ok(r)
        }
    }
}

// What Nothing stands for at a later time: the value before, where some assignment concerns the element, and else everything.
fn nothing_passes<S: Conditions>(
    s: &mut S,
    alloc: Global,
    problem: &Problem,
    old: &[Cell<S::Condition>],
    target: &Target<S::Condition>,
    way: Way,
    family: u16,
    next: &DefBody,
) -> Result<S::Condition, AllocError>
    requires old_made { AreCellsMade (S.IsMade s.old) old.now }
    requires target_made { IsTargetMade (S.IsMade s.old) target.now }
    ensures keeps { KeepsConditions S.IsMade S.holds S.room s.old s.new }
    ensures made { IfOk result (λ r. S.IsMade s.new r) }
    ensures old { IfOk result (λ r. AreCellsMade (S.IsMade s.new) old.now) }
    ensures target { IfOk result (λ r. IsTargetMade (S.IsMade s.new) target.now) }
    ensures is { IfOk result (λ r. IsSoOf S.holds s.old s.new problem.entry.now old.now target.now family (nothing_in way family next.now) r) }
{
    let indexes = target.indexes.as_slice();
    if concerns(next, indexes) {
        let every = places_for(alloc, problem, family)?;
        let before = value_of(s, alloc, problem, old, family, indexes, every.as_slice())?;
        let r = value_passes(s, alloc, problem, target, way, before.as_slice())?;
        return Ok(r);
    }
    Ok(everything(s, target, way))
}

// Whether some possible result of `next`, read in the state before, passes what is asked.
fn next_gives<'a, S: Conditions>(
    s: &mut S,
    alloc: Global,
    problem: &Problem,
    old: &[Cell<S::Condition>],
    known: &mut Known<'a, Chances<S::Condition>>,
    target: &Target<S::Condition>,
    way: Way,
    family: u16,
    next: &'a DefBody,
) -> Result<S::Condition, AllocError>
    requires old_made { AreCellsMade (S.IsMade s.old) old.now }
    requires known { AreKnown S.IsMade S.holds s.old problem.now old.now known.old.entries.items }
    requires target_made { IsTargetMade (S.IsMade s.old) target.now }
    ensures keeps { KeepsConditions S.IsMade S.holds S.room s.old s.new }
    ensures made { IfOk result (λ r. S.IsMade s.new r) }
    ensures known { IfOk result (λ r. AreKnown S.IsMade S.holds s.new problem.entry.now old.now known.new.entries.items) }
    ensures is { IfOk result (λ r. IsSoOf S.holds s.old s.new problem.entry.now old.now target.now family (next_in way family next.now) r) }
{
    let nothing = nothing_passes(s, alloc, problem, old, target, way, family, next)?;
    let r = part_gives(s, alloc, problem, old, known, target, way, next, nothing)?;
    Ok(r)
}

// Whether some possible result of a part, read in the state now, passes what is asked, as everything does where it is Nothing.
fn now_gives<'a, S: Conditions>(
    s: &mut S,
    alloc: Global,
    problem: &Problem,
    cells: &[Cell<S::Condition>],
    known: &mut Known<'a, Chances<S::Condition>>,
    target: &Target<S::Condition>,
    way: Way,
    part: &'a DefBody,
) -> Result<S::Condition, AllocError>
    requires cells_made { AreCellsMade (S.IsMade s.old) cells.now }
    requires known { AreKnown S.IsMade S.holds s.old problem.now cells.now known.old.entries.items }
    requires target_made { IsTargetMade (S.IsMade s.old) target.now }
    ensures keeps { KeepsConditions S.IsMade S.holds S.room s.old s.new }
    ensures made { IfOk result (λ r. S.IsMade s.new r) }
    ensures known { IfOk result (λ r. AreKnown S.IsMade S.holds s.new problem.entry.now cells.now known.new.entries.items) }
    ensures is { IfOk result (λ r. IsSo S.holds s.old s.new problem.entry.now cells.now target.now (now_in way part.now) r) }
{
    let open = everything(s, target, way);
    let r = part_gives(s, alloc, problem, cells, known, target, way, part, open)?;
    Ok(r)
}

/// Whether the definition of the target's element may allow the target's value, or doesn't allow it for certain.
pub fn target_gives<'a, S: Conditions>(
    s: &mut S,
    alloc: Global,
    problem: &Problem,
    old: Option<&[Cell<S::Condition>]>,
    past: &mut Known<'a, Chances<S::Condition>>,
    cells: &[Cell<S::Condition>],
    known: &mut Known<'a, Chances<S::Condition>>,
    target: &Target<S::Condition>,
    way: Way,
    family: u16,
    init: &'a DefBody,
    next: &'a DefBody,
    comb: &'a DefBody,
) -> Result<S::Condition, AllocError>
    requires cells_made { AreCellsMade (S.IsMade s.old) cells.now }
    requires known { AreKnown S.IsMade S.holds s.old problem.now cells.now known.old.entries.items }
    requires old_made { AreOldMade (S.IsMade s.old) (option_copied old) }
    requires past { AreOldKnown S.IsMade S.holds s.old problem.now (option_copied old) past.old.entries.items }
    requires target_made { IsTargetMade (S.IsMade s.old) target.now }
    ensures keeps { KeepsConditions S.IsMade S.holds S.room s.old s.new }
    ensures made { IfOk result (λ r. S.IsMade s.new r) }
    ensures known { IfOk result (λ r. AreKnown S.IsMade S.holds s.new problem.entry.now cells.now known.new.entries.items) }
    ensures past { IfOk result (λ r. AreOldKnown S.IsMade S.holds s.new problem.entry.now (option_copied old.entry) past.new.entries.items) }
    ensures is { IfOk result (λ r. IsGivenAt S.holds s.old s.new problem.entry.now (option_copied old.entry) cells.now way (IsTargets S.holds s.old target.now family init.now next.now comb.now) r) }
{
    if concerns(comb, target.indexes.as_slice()) {
        let r = now_gives(s, alloc, problem, cells, known, target, way, comb)?;
        return Ok(r);
    }
    match old {
        None => {
            let r = now_gives(s, alloc, problem, cells, known, target, way, init)?;
            Ok(r)
        }
        Some(before) => {
            let r = next_gives(s, alloc, problem, before, past, target, way, family, next)?;
            Ok(r)
        }
    }
}

/// Whether the definition of an element may allow the value that it has now, or doesn't allow it for certain.
pub(crate) fn element_gives<'a, S: Conditions>(
    s: &mut S,
    alloc: Global,
    problem: &Problem,
    old: Option<&[Cell<S::Condition>]>,
    past: &mut Known<'a, Chances<S::Condition>>,
    cells: &[Cell<S::Condition>],
    known: &mut Known<'a, Chances<S::Condition>>,
    way: Way,
    element: &Element,
    init: &'a DefBody,
    next: &'a DefBody,
    comb: &'a DefBody,
) -> Result<S::Condition, AllocError>
    requires cells_made { AreCellsMade (S.IsMade s.old) cells.now }
    requires known { AreKnown S.IsMade S.holds s.old problem.now cells.now known.old.entries.items }
    requires old_made { AreOldMade (S.IsMade s.old) (option_copied old) }
    requires past { AreOldKnown S.IsMade S.holds s.old problem.now (option_copied old) past.old.entries.items }
    ensures keeps { KeepsConditions S.IsMade S.holds S.room s.old s.new }
    ensures made { IfOk result (λ r. S.IsMade s.new r) }
    ensures known { IfOk result (λ r. AreKnown S.IsMade S.holds s.new problem.entry.now cells.now known.new.entries.items) }
    ensures past { IfOk result (λ r. AreOldKnown S.IsMade S.holds s.new problem.entry.now (option_copied old.entry) past.new.entries.items) }
    ensures is { IfOk result (λ r. IsGiven S.holds s.old s.new problem.entry.now (option_copied old.entry) cells.now way (IsWritten element.now init.now next.now comb.now) r) }
{
    let indexes = index_spots(alloc, problem, element)?;
    let target = target_of(s, alloc, problem, cells, element.family, indexes)?;
    let family = element.family;
    let r = target_gives(
        s, alloc, problem, old, past, cells, known, &target, way, family, init, next, comb,
    )?;
    Ok(r)
}
