// Demands, targets and guards.
ghost use Rattle.std.specs.Prelude.{◌≡◌, ℕ, List, Bool, IfOk, not, map, option_copied, slice_get};
ghost use Rattle.std.specs.List.{list_all};
ghost use Rattle.law_obligations.specs.Places.{Place, World, is_named};
ghost use Rattle.law_obligations.specs.May.{AbsState};
ghost use Rattle.law_obligations.specs.Obligations.{AbstractProblem as Case, is_met, is_broken};
ghost use Rattle.law_obligations.specs.Obligations as spec;
ghost use Rattle.smv_problem.specs.Written.{written_class};
ghost use Rattle.smv_spots.specs.Spots.{place_in, outcome_in};
ghost use Rattle.smv_problem_spots.specs.Worlds.{IsWorldOf};
ghost use Rattle.smv_conditions.specs.Keep.{KeepsConditions};
ghost use Rattle.smv_conditions.specs.Offers.{AreOffersMade, any_offer};
ghost use Rattle.smv_cells.specs.Cells.{AreCellsMade};
ghost use Rattle.smv_cells.specs.Seen.{IsSeen};
ghost use Rattle.smv_outcomes.specs.Remembered.{AreKnown};
ghost use Rattle.smv_walks.specs.Demands.{AreOldMade, AreOldKnown, IsDemand, IsTargetOf, IsGuard, view_of, IsDemanded, guard_test};
ghost use Rattle.smv_walks.specs.Given.{IsWritten, IsMapBroken};

use crate::Way;
use crate::given::element_gives;
use smv_cells::Cell;
use smv_conditions::chances::Chances;
use smv_conditions::conditions::Conditions;
use smv_conditions::offers::Offer;
use smv_core::flat::{Class, DefBody, Element, Guard, Simple};
use smv_problem::{Demand, Problem};
use smv_problem_spots::answers::equal;
use smv_problem_spots::places::is_in_type;
use smv_sides::expressions::{Known, offers_for, truth_of};
use smv_spots::spots::Spot;
use std::alloc::{AllocError, Global};

/// Where a demand is met at a time: at time 0, where there are no cells before, or at a later one.
pub fn met<'a, S: Conditions>(
    s: &mut S,
    alloc: Global,
    problem: &Problem,
    old: Option<&[Cell<S::Condition>]>,
    past: &mut Known<'a, Chances<S::Condition>>,
    cells: &[Cell<S::Condition>],
    known: &mut Known<'a, Chances<S::Condition>>,
    demand: &'a Demand,
) -> Result<S::Condition, AllocError>
    requires cells_made { AreCellsMade (S.IsMade s.old) cells.now }
    requires known { AreKnown S.IsMade S.holds s.old problem.now cells.now known.old.entries.items }
    requires old_made { AreOldMade (S.IsMade s.old) (option_copied old) }
    requires past { AreOldKnown S.IsMade S.holds s.old problem.now (option_copied old) past.old.entries.items }
    ensures keeps { KeepsConditions S.IsMade S.holds S.room s.old s.new }
    ensures made { IfOk result (λ r. S.IsMade s.new r) }
    ensures cells { IfOk result (λ r. AreCellsMade (S.IsMade s.new) cells.now) }
    ensures old { IfOk result (λ r. AreOldMade (S.IsMade s.new) (option_copied old.entry)) }
    ensures known { IfOk result (λ r. AreKnown S.IsMade S.holds s.new problem.entry.now cells.now known.new.entries.items) }
    ensures past { IfOk result (λ r. AreOldKnown S.IsMade S.holds s.new problem.entry.now (option_copied old.entry) past.new.entries.items) }
    ensures is { IfOk result (λ r. IsDemanded IsDemand S.holds s.old s.new problem.entry.now (option_copied old.entry) cells.now demand.now (λ p before now d. is_met p before now d) r) }
{
    match demand {
        Demand::Defined {
            element,
            init,
            next,
            comb,
        } => {
            let r = element_gives(
                s,
                alloc,
                problem,
                old,
                past,
                cells,
                known,
                Way::May,
                element,
                init,
                next,
                comb,
            )?;
            Ok(r)
        }
        Demand::Holds { body, bindings } => {
            let x = truth_of(s, alloc, problem, cells, known, body, bindings.as_slice())?;
            Ok(x.yes)
        }
    }
}

// Whether a class is a rest.
fn is_rest(class: Class) -> bool
    ensures { (p : Place) → class ≡ written_class p → result ≡ not (is_named p) }
{
    match class {
        Class::Number { .. } => false,
        Class::Named { .. } => false,
        Class::Rest { .. } => true,
    }
}

// Whether one of these classes is a rest.
fn some_rest(indexes: &[Class]) -> bool
    ensures { (ps : List Place) → indexes.now ≡ map written_class ps → result ≡ not (list_all is_named ps) }
{
    let Some((first, others)) = indexes.split_first() else {
        return false;
    };
    is_rest(*first) || some_rest(others)
}

// Where a refinement map is broken at an element.
fn map_broken<'a, S: Conditions>(
    s: &mut S,
    alloc: Global,
    problem: &Problem,
    old: Option<&[Cell<S::Condition>]>,
    past: &mut Known<'a, Chances<S::Condition>>,
    cells: &[Cell<S::Condition>],
    known: &mut Known<'a, Chances<S::Condition>>,
    element: &Element,
    init: &'a DefBody,
    next: &'a DefBody,
    comb: &'a DefBody,
) -> Result<S::Condition, AllocError>
    requires cells_made { AreCellsMade (S.IsMade s.old) cells.now }
    requires known { AreKnown S.IsMade S.holds s.old problem.now cells.now known.old.entries.items }
    requires old_made { AreOldMade (S.IsMade s.old) (option_copied old) }
    requires past { AreOldKnown S.IsMade S.holds s.old problem.now (option_copied old) past.old.entries.items }
    ensures keeps { KeepsConditions S.IsMade S.holds S.room s.old s.new }
    ensures made { IfOk result (λ r. S.IsMade s.new r) }
    ensures known { IfOk result (λ r. AreKnown S.IsMade S.holds s.new problem.entry.now cells.now known.new.entries.items) }
    ensures past { IfOk result (λ r. AreOldKnown S.IsMade S.holds s.new problem.entry.now (option_copied old.entry) past.new.entries.items) }
    ensures is { IfOk result (λ r. IsMapBroken S.holds s.old s.new problem.entry.now (option_copied old.entry) cells.now (IsWritten element.now init.now next.now comb.now) r) }
{
    if some_rest(element.indexes.as_slice()) {
        return Ok(s.constant(true));
    }
    let r = element_gives(
        s,
        alloc,
        problem,
        old,
        past,
        cells,
        known,
        Way::Must,
        element,
        init,
        next,
        comb,
    )?;
    Ok(r)
}

/// Where a target is broken at a time.
pub fn broken<'a, S: Conditions>(
    s: &mut S,
    alloc: Global,
    problem: &Problem,
    old: Option<&[Cell<S::Condition>]>,
    past: &mut Known<'a, Chances<S::Condition>>,
    cells: &[Cell<S::Condition>],
    known: &mut Known<'a, Chances<S::Condition>>,
    target: &'a Demand,
) -> Result<S::Condition, AllocError>
    requires cells_made { AreCellsMade (S.IsMade s.old) cells.now }
    requires known { AreKnown S.IsMade S.holds s.old problem.now cells.now known.old.entries.items }
    requires old_made { AreOldMade (S.IsMade s.old) (option_copied old) }
    requires past { AreOldKnown S.IsMade S.holds s.old problem.now (option_copied old) past.old.entries.items }
    ensures keeps { KeepsConditions S.IsMade S.holds S.room s.old s.new }
    ensures made { IfOk result (λ r. S.IsMade s.new r) }
    ensures cells { IfOk result (λ r. AreCellsMade (S.IsMade s.new) cells.now) }
    ensures old { IfOk result (λ r. AreOldMade (S.IsMade s.new) (option_copied old.entry)) }
    ensures known { IfOk result (λ r. AreKnown S.IsMade S.holds s.new problem.entry.now cells.now known.new.entries.items) }
    ensures past { IfOk result (λ r. AreOldKnown S.IsMade S.holds s.new problem.entry.now (option_copied old.entry) past.new.entries.items) }
    ensures is { IfOk result (λ r. IsDemanded IsTargetOf S.holds s.old s.new problem.entry.now (option_copied old.entry) cells.now target.now (λ p before now d. is_broken p before now d) r) }
{
    match target {
        Demand::Defined {
            element,
            init,
            next,
            comb,
        } => {
            let r = map_broken(
                s, alloc, problem, old, past, cells, known, element, init, next, comb,
            )?;
            Ok(r)
        }
        Demand::Holds { body, bindings } => {
            let x = truth_of(s, alloc, problem, cells, known, body, bindings.as_slice())?;
            let r = s.either(alloc, x.no, x.neither)?;
            Ok(r)
        }
    }
}

// Whether an outcome is outside a type, or may be equal to a place.
fn may_be_it(problem: &Problem, over: Simple, i: Spot, outcome: Option<Spot>) -> bool
    ensures { (w : World) → IsWorldOf problem.entry.now w → result ≡ guard_test w over (place_in w.classes i) (outcome_in w.classes outcome) }
{
    match outcome {
        Some(p) => !is_in_type(problem, over, p) || equal(problem, p, i).yes,
        None => true,
    }
}

// Where one of these outcomes is outside a type, or may be equal to a place.
fn some_may_be_it<S: Conditions>(
    s: &mut S,
    alloc: Global,
    problem: &Problem,
    over: Simple,
    i: Spot,
    offers: &[Offer<S::Condition>],
) -> Result<S::Condition, AllocError>
    requires offers_made { AreOffersMade (S.IsMade s.old) offers.now }
    ensures keeps { KeepsConditions S.IsMade S.holds S.room s.old s.new }
    ensures made { IfOk result (λ r. S.IsMade s.new r) }
    ensures holds { IfOk result (λ r. (w : World) → IsWorldOf problem.entry.now w → (a : ℕ → Bool) → S.holds s.new r a ≡ any_offer w.classes S.holds s.old a (guard_test w over (place_in w.classes i)) offers.now) }
{
    let Some((offer, others)) = offers.split_first() else {
        return Ok(s.constant(false));
    };
    let more = some_may_be_it(s, alloc, problem, over, i, others)?;
    if may_be_it(problem, over, i, offer.outcome) {
        let r = s.either(alloc, offer.when, more)?;
        return Ok(r);
    }
    Ok(more)
}

// The place of a variable, if it is bound.
fn variable(b: &[Spot], var: u16) -> Option<Spot>
    ensures { result ≡ slice_get b.now var }
{
    b.get(var as usize).copied()
}

/// Where a guard may hold.
pub fn may_hold<'a, S: Conditions>(
    s: &mut S,
    alloc: Global,
    problem: &Problem,
    cells: &[Cell<S::Condition>],
    known: &mut Known<'a, Chances<S::Condition>>,
    guard: &'a Guard,
) -> Result<S::Condition, AllocError>
    requires cells_made { AreCellsMade (S.IsMade s.old) cells.now }
    requires known { AreKnown S.IsMade S.holds s.old problem.now cells.now known.old.entries.items }
    ensures keeps { KeepsConditions S.IsMade S.holds S.room s.old s.new }
    ensures made { IfOk result (λ r. S.IsMade s.new r) }
    ensures cells { IfOk result (λ r. AreCellsMade (S.IsMade s.new) cells.now) }
    ensures known { IfOk result (λ r. AreKnown S.IsMade S.holds s.new problem.entry.now cells.now known.new.entries.items) }
    ensures is { IfOk result (λ r. (p : Case) (now : (ℕ → Bool) → AbsState) → IsSeen S.holds s.old problem.entry.now cells.now (view_of p now) → IsGuard p problem.entry.now.bindings guard.now → (a : ℕ → Bool) → S.holds s.new r a ≡ spec.may_hold p (now a) guard.now) }
{
    let b = problem.bindings.as_slice();
    let Some(i) = variable(b, guard.var) else {
        return Ok(s.constant(false));
    };
    let offers = offers_for(s, alloc, problem, cells, known, &guard.expr, b)?;
    let r = some_may_be_it(s, alloc, problem, guard.over, i, offers.as_slice())?;
    Ok(r)
}
