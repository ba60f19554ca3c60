// Elements at indexes that may each have several outcomes.
ghost use Rattle.std.specs.Prelude.{◌≡◌, ℕ, Bool, IfOk, OnOk, map, slice_get, [], ◌∷◌};
ghost use Rattle.std.specs.Prelude.{None};
ghost use Rattle.smv_core.specs.FlatMeaning.{Numbered};
ghost use Rattle.law_obligations.specs.Places.{AbsOutcome, World, places_in};
ghost use Rattle.law_obligations.specs.May.{place_within};
ghost use Rattle.smv_spots.specs.Spots.{place_in, outcome_in};
ghost use Rattle.smv_problem_spots.specs.Worlds.{IsWorldOf};
ghost use Rattle.smv_conditions.specs.Keep.{KeepsConditions};
ghost use Rattle.smv_conditions.specs.Offers.{AreOffersMade, any_offer};
ghost use Rattle.smv_conditions.specs.Adds.{Adds};
ghost use Rattle.smv_cells.specs.Cells.{AreCellsMade};
ghost use Rattle.smv_outcome_lists.specs.Lists.{AreListsMade};
ghost use Rattle.smv_outcome_lists.specs.Reads.{read_any, read_along, read_inside, element_any};

use crate::bindings::behind;
use smv_cells::{Cell, add_cell};
use smv_conditions::conditions::Conditions;
use smv_conditions::lists::add_offer;
use smv_conditions::offers::Offer;
use smv_core::flat::{Family, Simple};
use smv_core::seq::Seq;
use smv_problem::Problem;
use smv_problem_spots::places::{is_in_type, named_over, rests_over};
use smv_spots::spots::Spot;
use std::alloc::{AllocError, Global};

// An outcome, where it is in a type.
fn inside(problem: &Problem, over: Simple, outcome: Option<Spot>) -> Option<Spot>
    ensures { (w : World) → IsWorldOf problem.entry.now w → outcome_in w.classes result ≡ place_within (places_in w over) (outcome_in w.classes outcome) }
{
    let Some(q) = outcome else {
        return None;
    };
    if is_in_type(problem, over, q) {
        Some(q)
    } else {
        None
    }
}

// What the element of a family behind these places may be, under a condition: at an outcome of each further index, and Undefined where one is outside its type.
// `every` are the places of the family's type.
#[cycle(reads)]
fn add_read<S: Conditions>(
    s: &mut S,
    alloc: Global,
    out: &mut Vec<Offer<S::Condition>>,
    when: S::Condition,
    problem: &Problem,
    family: u16,
    every: &[Spot],
    cells: &[Cell<S::Condition>],
    places: &[Spot],
    over: &[Simple],
    uss: &[Seq<Offer<S::Condition>>],
) -> Result<(), AllocError>
    requires out_made { AreOffersMade (S.IsMade s.old) out.old.items }
    requires when_made { S.IsMade s.old when }
    requires cells_made { AreCellsMade (S.IsMade s.old) cells.now }
    requires uss_made { AreListsMade (S.IsMade s.old) uss.now }
    ensures keeps { KeepsConditions S.IsMade S.holds S.room s.old s.new }
    ensures made { OnOk result (AreOffersMade (S.IsMade s.new) out.new.items) }
    ensures adds { OnOk result ((w : World) → IsWorldOf problem.entry.now w → (p : AbsOutcome → Bool) (a : ℕ → Bool) → Adds w.classes S.holds s.old s.new a p out.old.items out.new.items (S.holds s.old when a) (read_any w S.holds s.old a p family (map (place_in w.classes) every.now) cells.now (map (place_in w.classes) places.now) over.now uss.now)) }
{
    let Some((t, others)) = over.split_first() else {
        add_cell(s, alloc, out, when, problem, family, places, every, cells)?;
        return Ok(());
    };
    add_next(
        s, alloc, out, when, problem, family, every, cells, places, *t, others, uss,
    )?;
    Ok(())
}

// The same where a type is left.
#[cycle(reads)]
fn add_next<S: Conditions>(
    s: &mut S,
    alloc: Global,
    out: &mut Vec<Offer<S::Condition>>,
    when: S::Condition,
    problem: &Problem,
    family: u16,
    every: &[Spot],
    cells: &[Cell<S::Condition>],
    places: &[Spot],
    t: Simple,
    over: &[Simple],
    uss: &[Seq<Offer<S::Condition>>],
) -> Result<(), AllocError>
    requires out_made { AreOffersMade (S.IsMade s.old) out.old.items }
    requires when_made { S.IsMade s.old when }
    requires cells_made { AreCellsMade (S.IsMade s.old) cells.now }
    requires uss_made { AreListsMade (S.IsMade s.old) uss.now }
    ensures keeps { KeepsConditions S.IsMade S.holds S.room s.old s.new }
    ensures made { OnOk result (AreOffersMade (S.IsMade s.new) out.new.items) }
    ensures adds { OnOk result ((w : World) → IsWorldOf problem.entry.now w → (p : AbsOutcome → Bool) (a : ℕ → Bool) → Adds w.classes S.holds s.old s.new a p out.old.items out.new.items (S.holds s.old when a) (read_any w S.holds s.old a p family (map (place_in w.classes) every.now) cells.now (map (place_in w.classes) places.now) (t ∷ over.now) uss.now)) }
{
    let Some((us, rest)) = uss.split_first() else {
        add_cell(s, alloc, out, when, problem, family, places, every, cells)?;
        return Ok(());
    };
    add_along(
        s,
        alloc,
        out,
        when,
        problem,
        family,
        every,
        cells,
        places,
        t,
        us.as_slice(),
        over,
        rest,
    )?;
    Ok(())
}

// The same at each of these outcomes of the next index.
#[cycle(reads)]
fn add_along<S: Conditions>(
    s: &mut S,
    alloc: Global,
    out: &mut Vec<Offer<S::Condition>>,
    when: S::Condition,
    problem: &Problem,
    family: u16,
    every: &[Spot],
    cells: &[Cell<S::Condition>],
    places: &[Spot],
    t: Simple,
    us: &[Offer<S::Condition>],
    over: &[Simple],
    uss: &[Seq<Offer<S::Condition>>],
) -> Result<(), AllocError>
    requires out_made { AreOffersMade (S.IsMade s.old) out.old.items }
    requires when_made { S.IsMade s.old when }
    requires cells_made { AreCellsMade (S.IsMade s.old) cells.now }
    requires us_made { AreOffersMade (S.IsMade s.old) us.now }
    requires uss_made { AreListsMade (S.IsMade s.old) uss.now }
    ensures keeps { KeepsConditions S.IsMade S.holds S.room s.old s.new }
    ensures made { OnOk result (AreOffersMade (S.IsMade s.new) out.new.items) }
    ensures adds { OnOk result ((w : World) → IsWorldOf problem.entry.now w → (p : AbsOutcome → Bool) (a : ℕ → Bool) → Adds w.classes S.holds s.old s.new a p out.old.items out.new.items (S.holds s.old when a) (read_along w S.holds s.old a p family (map (place_in w.classes) every.now) cells.now (map (place_in w.classes) places.now) t us.now over.now uss.now)) }
{
    let Some((u, more)) = us.split_first() else {
        return Ok(());
    };
    let here = s.both(alloc, when, u.when)?;
    let at = inside(problem, t, u.outcome);
    add_inside(
        s, alloc, out, here, problem, family, every, cells, places, at, over, uss,
    )?;
    add_along(
        s, alloc, out, when, problem, family, every, cells, places, t, more, over, uss,
    )?;
    Ok(())
}

// The same at one outcome of the next index, none where it is outside its type.
#[cycle(reads)]
fn add_inside<S: Conditions>(
    s: &mut S,
    alloc: Global,
    out: &mut Vec<Offer<S::Condition>>,
    when: S::Condition,
    problem: &Problem,
    family: u16,
    every: &[Spot],
    cells: &[Cell<S::Condition>],
    places: &[Spot],
    at: Option<Spot>,
    over: &[Simple],
    uss: &[Seq<Offer<S::Condition>>],
) -> Result<(), AllocError>
    requires out_made { AreOffersMade (S.IsMade s.old) out.old.items }
    requires when_made { S.IsMade s.old when }
    requires cells_made { AreCellsMade (S.IsMade s.old) cells.now }
    requires uss_made { AreListsMade (S.IsMade s.old) uss.now }
    ensures keeps { KeepsConditions S.IsMade S.holds S.room s.old s.new }
    ensures made { OnOk result (AreOffersMade (S.IsMade s.new) out.new.items) }
    ensures adds { OnOk result ((w : World) → IsWorldOf problem.entry.now w → (p : AbsOutcome → Bool) (a : ℕ → Bool) → Adds w.classes S.holds s.old s.new a p out.old.items out.new.items (S.holds s.old when a) (read_inside w S.holds s.old a p family (map (place_in w.classes) every.now) cells.now (map (place_in w.classes) places.now) (outcome_in w.classes at) over.now uss.now)) }
{
    match at {
        None => {
            let always = s.constant(true);
            add_offer(s, alloc, out, when, None, always)?;
            Ok(())
        }
        Some(q) => {
            let longer = behind(alloc, places, q)?;
            add_read(
                s,
                alloc,
                out,
                when,
                problem,
                family,
                every,
                cells,
                longer.as_slice(),
                over,
                uss,
            )?;
            Ok(())
        }
    }
}

// The places of a type.
fn places_over(alloc: Global, problem: &Problem, over: Simple) -> Result<Vec<Spot>, AllocError>
    ensures { IfOk result (λ spots. (w : World) → IsWorldOf problem.entry.now w → map (place_in w.classes) spots.items ≡ places_in w over) }
{
    let mut spots = named_over(alloc, problem, over)?;
    let rests = rests_over(alloc, problem, over)?;
    spots.extend_from_slice(rests.as_slice())?;
    Ok(spots)
}

// Undefined alone.
fn undefined<S: Conditions>(s: &S, alloc: Global) -> Result<Vec<Offer<S::Condition>>, AllocError>
    ensures made { IfOk result (λ offers. AreOffersMade (S.IsMade s.now) offers.items) }
    ensures any { IfOk result (λ offers. (n : Numbered) (p : AbsOutcome → Bool) (a : ℕ → Bool) → any_offer n S.holds s.now a p offers.items ≡ p None) }
{
    let mut offers = Vec::new(alloc);
    let when = s.constant(true);
    offers.push(Offer {
        outcome: None,
        when,
    })?;
    Ok(offers)
}

// What an element of a family may be: at an outcome of each index, and Undefined where one is outside its type.
fn element_of<S: Conditions>(
    s: &mut S,
    alloc: Global,
    problem: &Problem,
    cells: &[Cell<S::Condition>],
    family: u16,
    found: &Family,
    uss: &[Seq<Offer<S::Condition>>],
) -> Result<Vec<Offer<S::Condition>>, AllocError>
    requires cells_made { AreCellsMade (S.IsMade s.old) cells.now }
    requires uss_made { AreListsMade (S.IsMade s.old) uss.now }
    ensures keeps { KeepsConditions S.IsMade S.holds S.room s.old s.new }
    ensures made { IfOk result (λ offers. AreOffersMade (S.IsMade s.new) offers.items) }
    ensures any { IfOk result (λ offers. (w : World) → IsWorldOf problem.entry.now w → (p : AbsOutcome → Bool) (a : ℕ → Bool) → any_offer w.classes S.holds s.new a p offers.items ≡ read_any w S.holds s.old a p family (places_in w found.now.value) cells.now [] found.now.over uss.now) }
{
    let every = places_over(alloc, problem, found.value)?;
    let none = Vec::new(alloc);
    let mut offers = Vec::new(alloc);
    let always = s.constant(true);
    add_read(
        s,
        alloc,
        &mut offers,
        always,
        problem,
        family,
        every.as_slice(),
        cells,
        none.as_slice(),
        found.over.as_slice(),
        uss,
    )?;
    Ok(offers)
}

/// What an element of a family may be: at an outcome of each index, and Undefined where one is outside its type, or where there is no such family.
#[tactic(auto, unfolding(crate::specs::Reads::element_any))]
pub fn read_of<S: Conditions>(
    s: &mut S,
    alloc: Global,
    problem: &Problem,
    cells: &[Cell<S::Condition>],
    family: u16,
    uss: &[Seq<Offer<S::Condition>>],
) -> Result<Vec<Offer<S::Condition>>, AllocError>
    requires cells_made { AreCellsMade (S.IsMade s.old) cells.now }
    requires uss_made { AreListsMade (S.IsMade s.old) uss.now }
    ensures keeps { KeepsConditions S.IsMade S.holds S.room s.old s.new }
    ensures made { IfOk result (λ offers. AreOffersMade (S.IsMade s.new) offers.items) }
    ensures any { IfOk result (λ offers. (w : World) → IsWorldOf problem.entry.now w → (p : AbsOutcome → Bool) (a : ℕ → Bool) → any_offer w.classes S.holds s.new a p offers.items ≡ element_any w S.holds s.old a p family cells.now (slice_get problem.entry.now.families family) uss.now) }
{
    match problem.families.as_slice().get(family as usize) {
        Some(found) => {
            let offers = element_of(s, alloc, problem, cells, family, found, uss)?;
            Ok(offers)
        }
        None => {
            let offers = undefined(s, alloc)?;
            Ok(offers)
        }
    }
}
