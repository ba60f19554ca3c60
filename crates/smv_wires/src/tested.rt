// For each value of an element the condition that it meets the element's demands of now.
ghost use Rattle.std.specs.Prelude.{◌≡◌, ℕ, [], ◌∷◌, Bool, true, List, map, slice_get, Some, IfOk};
ghost use Rattle.bdd_store.specs.Diagram.{IsLive, Keeps, table};
ghost use Rattle.law_obligations.specs.Places.{World};
ghost use Rattle.law_obligations.specs.Cones.{AbsElement};
ghost use Rattle.law_obligations.specs.Readings.{values_of};
ghost use Rattle.law_obligations.specs.Sets.{Has};
ghost use Rattle.smv_spots.specs.Spots.{place_in};
ghost use Rattle.smv_conditions.specs.Offers.{AreOffersMade};
ghost use Rattle.smv_cells.specs.Cells.{AreCellsMade};
ghost use Rattle.smv_cells.specs.Seen.{IsSeen};
ghost use Rattle.smv_problem.specs.WellFormed.{OfCases};
ghost use Rattle.smv_encode.specs.Parts.{AreElements};
ghost use Rattle.law_wires.specs.Tries.{IsTry};
ghost use Rattle.smv_wires.specs.Wired.{view_beside, meets_at, AreTests};

use crate::met::own_met;
use bdd_store::{Ref, Store};
use smv_cells::Cell;
use smv_conditions::offers::Offer;
use smv_core::Seq;
use smv_core::flat::Element;
use smv_problem::Problem;
use smv_spots::spots::Spot;
use smv_targets::places_for;
use smv_typed_spots::index_spots;
use std::alloc::{AllocError, Global};

// A value that an element has at each assignment.
fn only(alloc: Global, store: &Store, value: Spot) -> Result<Seq<Offer<Ref>>, AllocError>
    ensures made { IfOk result (λ offers. AreOffersMade (IsLive store.now) offers) }
    ensures only { IfOk result (λ offers. (when : Ref) × (offers ≡ record { outcome = Some value; when = when } ∷ []) × ((a : ℕ → Bool) → table store.now when a ≡ true)) }
{
    let always = store.constant(true);
    let mut offers = Seq::new(alloc);
    offers.push(Offer {
        outcome: Some(value),
        when: always,
    })?;
    Ok(offers)
}

// Where a value meets the demands of an element that has no cell yet.
fn value_met(
    alloc: Global,
    problem: &Problem,
    store: &mut Store,
    element: &Element,
    value: &Spot,
    cells: &mut Vec<Cell<Ref>>,
) -> Result<Ref, AllocError>
    requires live { AreCellsMade (IsLive store.old) cells.old.items }
    ensures keeps { Keeps store.old store.new }
    ensures live { IfOk result (λ r. IsLive store.new r) }
    ensures same { IfOk result (λ r. cells.new.items ≡ cells.old.items) }
    ensures means { IfOk result (λ r. OfCases problem.entry.now (λ c. (order : List ℕ) (done : List AbsElement) (x : AbsElement) (left : List AbsElement) (next : Bool) → AreElements c (x ∷ []) (element.now ∷ []) → IsTry c order done x left → IsSeen table store.old problem.entry.now cells.old.items (view_beside c order done (x ∷ left) next) → Has (values_of c.problem.world x) (place_in c.problem.world.classes value.now) → (a : ℕ → Bool) → table store.new r a ≡ meets_at c order done x left next a (place_in c.problem.world.classes value.now))) }
{
    let count = cells.len();
    let values = only(alloc, store, *value)?;
    let indexes = index_spots(alloc, problem, element)?;
    cells.push(Cell {
        family: element.family,
        indexes,
        values,
    })?;
    let r = own_met(alloc, problem, element, cells.as_slice(), store)?;
    cells.truncate(count);
    Ok(r)
}

/// The values of an element that has no cell yet, each under the condition that it meets the element's demands of now.
pub(crate) fn tested_values(
    alloc: Global,
    problem: &Problem,
    store: &mut Store,
    element: &Element,
    cells: &mut Vec<Cell<Ref>>,
) -> Result<Seq<Offer<Ref>>, AllocError>
    requires live { AreCellsMade (IsLive store.old) cells.old.items }
    ensures keeps { Keeps store.old store.new }
    ensures made { IfOk result (λ offers. AreOffersMade (IsLive store.new) offers) }
    ensures same { IfOk result (λ offers. cells.new.items ≡ cells.old.items) }
    ensures tests { IfOk result (λ offers. OfCases problem.entry.now (λ c. (order : List ℕ) (done : List AbsElement) (x : AbsElement) (left : List AbsElement) (next : Bool) → AreElements c (x ∷ []) (element.now ∷ []) → IsTry c order done x left → IsSeen table store.old problem.entry.now cells.old.items (view_beside c order done (x ∷ left) next) → (a : ℕ → Bool) → AreTests c.problem.world.classes store.new a (meets_at c order done x left next a) (values_of c.problem.world x) offers)) }
{
    let spots = places_for(alloc, problem, element.family)?;
    let mut offers = Seq::new(alloc);
    for spot in spots.as_slice() {
        let when = value_met(alloc, problem, store, element, spot, cells)?;
        offers.push(Offer {
            outcome: Some(*spot),
            when,
        })?;
    }
    Ok(offers)
}
