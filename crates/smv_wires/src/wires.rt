// The cell of an element that is tried, where it is determined.
ghost use Rattle.std.specs.Prelude.{◌≡◌, ℕ, [], ◌∷◌, ◌++◌, Bool, List, map, IfOk, IfSome, OnOk};
ghost use Rattle.bdd_store.specs.Diagram.{IsLive, Keeps, table};
ghost use Rattle.law_obligations.specs.Cones.{AbsElement};
ghost use Rattle.law_wires.specs.Tries.{IsTry, AreDetermined};
ghost use Rattle.smv_conditions.specs.Offers.{AreOffersMade};
ghost use Rattle.smv_cells.specs.Cells.{AreCellsMade};
ghost use Rattle.smv_cells.specs.Seen.{IsSeen};
ghost use Rattle.smv_problem.specs.Written.{written_element};
ghost use Rattle.smv_problem.specs.WellFormed.{OfCases};
ghost use Rattle.smv_wires.specs.Wired.{view_beside};

use crate::alone::is_alone;
use crate::ready::is_ready;
use crate::tested::tested_values;
use bdd_store::{Ref, Store};
use smv_cells::Cell;
use smv_core::flat::Element;
use smv_problem::Problem;
use smv_targets::places_for;
use smv_typed_spots::index_spots;
use std::alloc::{AllocError, Global};

// Each value is tried by itself, at both times: an element that has more than so many keeps its bits.
const MOST_VALUES: usize = 64;

/// The cell of the first of these elements, none of which has one yet, where its demands of now allow exactly one value at each assignment of the others: then it is determined by those that have
/// cells, and its cell is what its demands allow.
pub(crate) fn wire_cell(
    alloc: Global,
    problem: &Problem,
    store: &mut Store,
    tried: &[Element],
    cells: &mut Vec<Cell<Ref>>,
) -> Result<Option<Cell<Ref>>, AllocError>
    requires live { AreCellsMade (IsLive store.old) cells.old.items }
    ensures keeps { Keeps store.old store.new }
    ensures same { OnOk result (cells.new.items ≡ cells.old.items) }
    ensures made { IfOk result (λ found. IfSome found (λ cell. AreOffersMade (IsLive store.new) cell.values)) }
    ensures determined { IfOk result (λ found. IfSome found (λ cell. OfCases problem.entry.now (λ c. (order : List ℕ) (done : List AbsElement) (x : AbsElement) (left : List AbsElement) (next : Bool) → tried.now ≡ map written_element (x ∷ left) → IsTry c order done x left → IsSeen table store.old problem.entry.now cells.old.items (view_beside c order done (x ∷ left) next) → AreDetermined c (done ++ x ∷ []) left))) }
    ensures seen { IfOk result (λ found. IfSome found (λ cell. OfCases problem.entry.now (λ c. (order : List ℕ) (done : List AbsElement) (x : AbsElement) (left : List AbsElement) (next : Bool) → tried.now ≡ map written_element (x ∷ left) → IsTry c order done x left → IsSeen table store.old problem.entry.now cells.old.items (view_beside c order done (x ∷ left) next) → IsSeen table store.new problem.entry.now (cells.old.items ++ cell ∷ []) (view_beside c order (done ++ x ∷ []) left next)))) }
{
    let Some((element, _)) = tried.split_first() else {
        return Ok(None);
    };
    let ready = is_ready(alloc, problem, tried, element)?;
    if !ready {
        return Ok(None);
    }
    let places = places_for(alloc, problem, element.family)?;
    if places.len() > MOST_VALUES {
        return Ok(None);
    }
    let values = tested_values(alloc, problem, store, element, cells)?;
    let alone = is_alone(alloc, store, values.as_slice())?;
    if !alone {
        return Ok(None);
    }
    let indexes = index_spots(alloc, problem, element)?;
    Ok(Some(Cell {
        family: element.family,
        indexes,
        values,
    }))
}
