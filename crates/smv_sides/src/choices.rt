// What a comprehension may choose, and what it chooses for certain.
ghost use Rattle.std.specs.Prelude.{[], ◌∷◌, map, IfOk, OnOk, option_copied};
ghost use Rattle.law_obligations.specs.RightSides.{may_hold, must_hold};
ghost use Rattle.smv_spots.specs.Spots.{place_in};
ghost use Rattle.smv_conditions.specs.Keep.{KeepsConditions};
ghost use Rattle.smv_conditions.specs.Offers.{AreOffersMade};
ghost use Rattle.smv_cells.specs.Cells.{AreCellsMade};
ghost use Rattle.smv_cells.specs.Seen.{View, IsSeen};
ghost use Rattle.smv_outcomes.specs.Remembered.{AreKnown};
ghost use Rattle.smv_sides.specs.Choices.{IsMetMade, IsMet, AreChoicesMade, AreChoices, AddsChosen};

use smv_cells::Cell;
use smv_conditions::chances::Chances;
use smv_conditions::conditions::Conditions;
use smv_conditions::offers::Offer;
use smv_core::flat::{FlatExpr, Simple};
use smv_core::seq::Seq;
use smv_outcomes::{Known, bound_to, truth_of};
use smv_problem::Problem;
use smv_problem_spots::places::{named_over, rests_over};
use smv_spots::spots::Spot;
use std::alloc::{AllocError, Global};

/// That a condition may be 1, and that it is 1 for certain.
#[derive(Clone, Copy)]
pub struct Met<C> {
    pub may: C,
    pub must: C,
}

/// The places of a type that may be chosen, and those of its numbers, constants and classes, and of its rests, that are for certain.
#[derive(Drop)]
pub struct Choices<C> {
    pub possible: Seq<Offer<C>>,
    pub named: Seq<Offer<C>>,
    pub rests: Seq<Offer<C>>,
}

// The condition of a comprehension under these bindings; a missing one is 1.
fn met_of<'a, S: Conditions>(
    s: &mut S,
    alloc: Global,
    problem: &Problem,
    cells: &[Cell<S::Condition>],
    known: &mut Known<'a, Chances<S::Condition>>,
    cond: Option<&'a FlatExpr>,
    b: &[Spot],
) -> Result<Met<S::Condition>, AllocError>
    requires cells_made { AreCellsMade (S.IsMade s.old) cells.now }
    requires known { AreKnown S.IsMade S.holds s.old problem.now cells.now known.old.entries.items }
    ensures keeps { KeepsConditions S.IsMade S.holds S.room s.old s.new }
    ensures made { IfOk result (λ m. IsMetMade (S.IsMade s.new) m) }
    ensures cells { IfOk result (λ m. AreCellsMade (S.IsMade s.new) cells.now) }
    ensures known { IfOk result (λ m. AreKnown S.IsMade S.holds s.new problem.entry.now cells.now known.new.entries.items) }
    ensures is { IfOk result (λ m. (v : View) → IsSeen S.holds s.old problem.entry.now cells.now v → IsMet S.holds s.new v (option_copied cond.entry) b.now m) }
{
    let Some(e) = cond else {
        let always = s.constant(true);
        return Ok(Met {
            may: always,
            must: always,
        });
    };
    let x = truth_of(s, alloc, problem, cells, known, e, b)?;
    let other = s.either(alloc, x.no, x.neither)?;
    let must = s.opposite(alloc, other)?;
    Ok(Met { may: x.yes, must })
}

// The place at a spot, as one that may be chosen and as one that is for certain, behind others.
fn add_place<'a, S: Conditions>(
    s: &mut S,
    alloc: Global,
    problem: &Problem,
    cells: &[Cell<S::Condition>],
    known: &mut Known<'a, Chances<S::Condition>>,
    possible: &mut Vec<Offer<S::Condition>>,
    certain: &mut Vec<Offer<S::Condition>>,
    var: u16,
    cond: Option<&'a FlatExpr>,
    b: &[Spot],
    spot: Spot,
) -> Result<(), AllocError>
    requires cells_made { AreCellsMade (S.IsMade s.old) cells.now }
    requires known { AreKnown S.IsMade S.holds s.old problem.now cells.now known.old.entries.items }
    requires possible_made { AreOffersMade (S.IsMade s.old) possible.old.items }
    requires certain_made { AreOffersMade (S.IsMade s.old) certain.old.items }
    ensures keeps { KeepsConditions S.IsMade S.holds S.room s.old s.new }
    ensures cells { OnOk result (AreCellsMade (S.IsMade s.new) cells.now) }
    ensures known { OnOk result (AreKnown S.IsMade S.holds s.new problem.entry.now cells.now known.new.entries.items) }
    ensures possible_made { OnOk result (AreOffersMade (S.IsMade s.new) possible.new.items) }
    ensures certain_made { OnOk result (AreOffersMade (S.IsMade s.new) certain.new.items) }
    ensures possible { OnOk result ((v : View) → IsSeen S.holds s.old problem.entry.now cells.now v → AddsChosen S.holds s.old s.new v may_hold b.now var (option_copied cond.entry) (place_in v.world.classes spot ∷ []) possible.old.items possible.new.items) }
    ensures certain { OnOk result ((v : View) → IsSeen S.holds s.old problem.entry.now cells.now v → AddsChosen S.holds s.old s.new v must_hold b.now var (option_copied cond.entry) (place_in v.world.classes spot ∷ []) certain.old.items certain.new.items) }
{
    let inner = bound_to(alloc, b, var, spot)?;
    let met = met_of(s, alloc, problem, cells, known, cond, inner.as_slice())?;
    possible.push(Offer {
        outcome: Some(spot),
        when: met.may,
    })?;
    certain.push(Offer {
        outcome: Some(spot),
        when: met.must,
    })?;
    Ok(())
}

// The places at these spots that may be chosen, and those that are for certain, behind others.
fn add_chosen<'a, S: Conditions>(
    s: &mut S,
    alloc: Global,
    problem: &Problem,
    cells: &[Cell<S::Condition>],
    known: &mut Known<'a, Chances<S::Condition>>,
    possible: &mut Vec<Offer<S::Condition>>,
    certain: &mut Vec<Offer<S::Condition>>,
    var: u16,
    cond: Option<&'a FlatExpr>,
    b: &[Spot],
    spots: &[Spot],
) -> Result<(), AllocError>
    requires cells_made { AreCellsMade (S.IsMade s.old) cells.now }
    requires known { AreKnown S.IsMade S.holds s.old problem.now cells.now known.old.entries.items }
    requires possible_made { AreOffersMade (S.IsMade s.old) possible.old.items }
    requires certain_made { AreOffersMade (S.IsMade s.old) certain.old.items }
    ensures keeps { KeepsConditions S.IsMade S.holds S.room s.old s.new }
    ensures cells { OnOk result (AreCellsMade (S.IsMade s.new) cells.now) }
    ensures known { OnOk result (AreKnown S.IsMade S.holds s.new problem.entry.now cells.now known.new.entries.items) }
    ensures possible_made { OnOk result (AreOffersMade (S.IsMade s.new) possible.new.items) }
    ensures certain_made { OnOk result (AreOffersMade (S.IsMade s.new) certain.new.items) }
    ensures possible { OnOk result ((v : View) → IsSeen S.holds s.old problem.entry.now cells.now v → AddsChosen S.holds s.old s.new v may_hold b.now var (option_copied cond.entry) (map (place_in v.world.classes) spots.now) possible.old.items possible.new.items) }
    ensures certain { OnOk result ((v : View) → IsSeen S.holds s.old problem.entry.now cells.now v → AddsChosen S.holds s.old s.new v must_hold b.now var (option_copied cond.entry) (map (place_in v.world.classes) spots.now) certain.old.items certain.new.items) }
{
    let Some((spot, others)) = spots.split_first() else {
        return Ok(());
    };
    add_place(
        s, alloc, problem, cells, known, possible, certain, var, cond, b, *spot,
    )?;
    add_chosen(
        s, alloc, problem, cells, known, possible, certain, var, cond, b, others,
    )?;
    Ok(())
}

/// What a comprehension may choose, and what it chooses for certain.
pub fn choices_of<'a, S: Conditions>(
    s: &mut S,
    alloc: Global,
    problem: &Problem,
    cells: &[Cell<S::Condition>],
    known: &mut Known<'a, Chances<S::Condition>>,
    var: u16,
    over: Simple,
    cond: Option<&'a FlatExpr>,
    b: &[Spot],
) -> Result<Choices<S::Condition>, AllocError>
    requires cells_made { AreCellsMade (S.IsMade s.old) cells.now }
    requires known { AreKnown S.IsMade S.holds s.old problem.now cells.now known.old.entries.items }
    ensures keeps { KeepsConditions S.IsMade S.holds S.room s.old s.new }
    ensures made { IfOk result (λ c. AreChoicesMade (S.IsMade s.new) c) }
    ensures cells { IfOk result (λ c. AreCellsMade (S.IsMade s.new) cells.now) }
    ensures known { IfOk result (λ c. AreKnown S.IsMade S.holds s.new problem.entry.now cells.now known.new.entries.items) }
    ensures are { IfOk result (λ c. (v : View) → IsSeen S.holds s.old problem.entry.now cells.now v → AreChoices S.holds s.new v b.now var over (option_copied cond.entry) c) }
{
    let first = named_over(alloc, problem, over)?;
    let last = rests_over(alloc, problem, over)?;
    let mut possible = Vec::new(alloc);
    let mut named = Vec::new(alloc);
    let mut rests = Vec::new(alloc);
    let places = first.as_slice();
    add_chosen(
        s,
        alloc,
        problem,
        cells,
        known,
        &mut possible,
        &mut named,
        var,
        cond,
        b,
        places,
    )?;
    let places = last.as_slice();
    add_chosen(
        s,
        alloc,
        problem,
        cells,
        known,
        &mut possible,
        &mut rests,
        var,
        cond,
        b,
        places,
    )?;
    Ok(Choices {
        possible: Seq::from_vec(possible),
        named: Seq::from_vec(named),
        rests: Seq::from_vec(rests),
    })
}
