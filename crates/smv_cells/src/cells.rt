// What the kept elements of a case may be.
ghost use Rattle.std.specs.Prelude.{◌≡◌, ℕ, Bool, OnOk, map, Some};
ghost use Rattle.std.specs.List.{list_any};
ghost use Rattle.smv_core.specs.FlatMeaning.{Numbered};
ghost use Rattle.law_obligations.specs.Places.{AbsOutcome, World};
ghost use Rattle.law_obligations.specs.Cones.{same_places};
ghost use Rattle.smv_spots.specs.Spots.{place_in};
ghost use Rattle.smv_problem_spots.specs.Worlds.{IsWorldOf};
ghost use Rattle.smv_conditions.specs.Keep.{KeepsConditions};
ghost use Rattle.smv_conditions.specs.Offers.{AreOffersMade};
ghost use Rattle.smv_conditions.specs.Adds.{Adds};
ghost use Rattle.smv_cells.specs.Cells.{is_cell_of, AreCellsMade, cell_any};

use smv_conditions::conditions::Conditions;
use smv_conditions::lists::{add_all, add_offer};
use smv_conditions::offers::Offer;
use smv_core::seq::Seq;
use smv_problem::Problem;
use smv_problem_spots::same::is_same;
use smv_spots::spots::Spot;
use std::alloc::{AllocError, Global};

/// What a kept element may be: its family, a spot for each index, and its values, each with a condition.
#[derive(Drop)]
pub struct Cell<C> {
    pub family: u16,
    pub indexes: Seq<Spot>,
    pub values: Seq<Offer<C>>,
}

// The same places, one by one.
fn are_same(problem: &Problem, ps: &[Spot], qs: &[Spot]) -> bool
    ensures { (w : World) → IsWorldOf problem.entry.now w → result ≡ same_places (map (place_in w.classes) ps.now) (map (place_in w.classes) qs.now) }
{
    let Some((p, others)) = ps.split_first() else {
        return qs.is_empty();
    };
    let Some((q, rest)) = qs.split_first() else {
        return false;
    };
    is_same(problem, *p, *q) && are_same(problem, others, rest)
}

// Whether a cell is that of an element.
fn is_of<C>(problem: &Problem, family: u16, places: &[Spot], cell: &Cell<C>) -> bool
    ensures { (w : World) → IsWorldOf problem.entry.now w → result ≡ is_cell_of w.classes family (map (place_in w.classes) places.now) cell.now }
{
    cell.family == family && are_same(problem, cell.indexes.as_slice(), places)
}

// All these places, under a condition.
fn add_places<S: Conditions>(
    s: &mut S,
    alloc: Global,
    out: &mut Vec<Offer<S::Condition>>,
    when: S::Condition,
    spots: &[Spot],
) -> Result<(), AllocError>
    requires out_made { AreOffersMade (S.IsMade s.old) out.old.items }
    requires when_made { S.IsMade s.old when }
    ensures keeps { KeepsConditions S.IsMade S.holds S.room s.old s.new }
    ensures made { OnOk result (AreOffersMade (S.IsMade s.new) out.new.items) }
    ensures adds { OnOk result ((n : Numbered) (p : AbsOutcome → Bool) (a : ℕ → Bool) → Adds n S.holds s.old s.new a p out.old.items out.new.items (S.holds s.old when a) (list_any (λ q. p (Some (place_in n q))) spots.now)) }
{
    let Some((q, others)) = spots.split_first() else {
        return Ok(());
    };
    let always = s.constant(true);
    add_offer(s, alloc, out, when, Some(*q), always)?;
    add_places(s, alloc, out, when, others)?;
    Ok(())
}

/// What the element of a family at these places may be, under a condition: the values of its cell, or every place of its type where it has none.
pub fn add_cell<S: Conditions>(
    s: &mut S,
    alloc: Global,
    out: &mut Vec<Offer<S::Condition>>,
    when: S::Condition,
    problem: &Problem,
    family: u16,
    places: &[Spot],
    every: &[Spot],
    cells: &[Cell<S::Condition>],
) -> Result<(), AllocError>
    requires out_made { AreOffersMade (S.IsMade s.old) out.old.items }
    requires when_made { S.IsMade s.old when }
    requires cells_made { AreCellsMade (S.IsMade s.old) cells.now }
    ensures keeps { KeepsConditions S.IsMade S.holds S.room s.old s.new }
    ensures made { OnOk result (AreOffersMade (S.IsMade s.new) out.new.items) }
    ensures adds { OnOk result ((w : World) → IsWorldOf problem.entry.now w → (p : AbsOutcome → Bool) (a : ℕ → Bool) → Adds w.classes S.holds s.old s.new a p out.old.items out.new.items (S.holds s.old when a) (cell_any w.classes S.holds s.old a p family (map (place_in w.classes) places.now) (map (place_in w.classes) every.now) cells.now)) }
{
    let Some((cell, others)) = cells.split_first() else {
        add_places(s, alloc, out, when, every)?;
        return Ok(());
    };
    if is_of(problem, family, places, cell) {
        add_all(s, alloc, out, when, cell.values.as_slice())?;
        return Ok(());
    }
    add_cell(s, alloc, out, when, problem, family, places, every, others)?;
    Ok(())
}
