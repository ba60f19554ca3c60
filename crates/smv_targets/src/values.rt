// Places of a family, and values of elements.
ghost use Rattle.std.specs.Prelude.{◌≡◌, ℕ, Bool, IfOk, map, option_map, slice_get};
ghost use Rattle.smv_core.specs.declared.flat.Family.{Family};
ghost use Rattle.law_obligations.specs.Places.{AbsOutcome, World};
ghost use Rattle.law_obligations.specs.May.{Kept};
ghost use Rattle.law_obligations.specs.Demands.{places_of_family};
ghost use Rattle.smv_spots.specs.Spots.{place_in};
ghost use Rattle.smv_problem_spots.specs.Worlds.{IsWorldOf};
ghost use Rattle.smv_conditions.specs.Keep.{KeepsConditions};
ghost use Rattle.smv_conditions.specs.Offers.{AreOffersMade, any_offer};
ghost use Rattle.smv_cells.specs.Cells.{AreCellsMade, cell_any};

use smv_cells::{Cell, add_cell};
use smv_conditions::conditions::Conditions;
use smv_conditions::offers::Offer;
use smv_core::flat::Simple;
use smv_problem::Problem;
use smv_problem_spots::places::{named_over, rests_over};
use smv_spots::spots::Spot;
use std::alloc::{AllocError, Global};

// The type of the values of a family.
fn value_type(problem: &Problem, family: u16) -> Option<Simple>
    ensures { result ≡ option_map (λ (f : Family). f.value) (slice_get problem.entry.now.families family) }
{
    match problem.families.as_slice().get(family as usize) {
        Some(found) => Some(found.value),
        None => None,
    }
}

/// The places of the values of a family; none where there is no such family.
pub fn places_for(alloc: Global, problem: &Problem, family: u16) -> Result<Vec<Spot>, AllocError>
    ensures { IfOk result (λ spots. (w : World) (kept : Kept) → IsWorldOf problem.entry.now w → map (place_in w.classes) spots.items ≡ places_of_family w kept (slice_get w.classes.families family)) }
{
    let Some(over) = value_type(problem, family) else {
        return Ok(Vec::new(alloc));
    };
    let mut spots = named_over(alloc, problem, over)?;
    let mut rests = rests_over(alloc, problem, over)?;
    spots.append(&mut rests)?;
    Ok(spots)
}

/// What an element may be: the values of its cell, or these places where it has none.
pub fn value_of<S: Conditions>(
    s: &mut S,
    alloc: Global,
    problem: &Problem,
    cells: &[Cell<S::Condition>],
    family: u16,
    indexes: &[Spot],
    every: &[Spot],
) -> Result<Vec<Offer<S::Condition>>, AllocError>
    requires cells_made { AreCellsMade (S.IsMade s.old) cells.now }
    ensures keeps { KeepsConditions S.IsMade S.holds S.room s.old s.new }
    ensures made { IfOk result (λ offers. AreOffersMade (S.IsMade s.new) offers.items) }
    ensures cells { IfOk result (λ offers. AreCellsMade (S.IsMade s.new) cells.now) }
    ensures any { IfOk result (λ offers. (w : World) → IsWorldOf problem.entry.now w → (p : AbsOutcome → Bool) (a : ℕ → Bool) → any_offer w.classes S.holds s.new a p offers.items ≡ cell_any w.classes S.holds s.old a p family (map (place_in w.classes) indexes.now) (map (place_in w.classes) every.now) cells.now) }
{
    let mut offers = Vec::new(alloc);
    let always = s.constant(true);
    add_cell(
        s,
        alloc,
        &mut offers,
        always,
        problem,
        family,
        indexes,
        every,
        cells,
    )?;
    Ok(offers)
}
