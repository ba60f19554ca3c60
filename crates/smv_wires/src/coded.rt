// The coded cells of some elements, from those of all.
ghost use Rattle.std.specs.Prelude.{◌≡◌, ℕ, [], ◌∷◌, ◌++◌, Bool, not, false, List, map, filter, Some, IfOk, OnOk, if◌then◌else◌};
ghost use Rattle.std.specs.List.{list_any};
ghost use Rattle.bdd_store.specs.Diagram.{IsLive, Keeps, table};
ghost use Rattle.law_obligations.specs.Sets.{Has};
ghost use Rattle.law_obligations.specs.Places.{AbsOutcome};
ghost use Rattle.law_obligations.specs.May.{AbsState, Kept};
ghost use Rattle.law_obligations.specs.Cones.{AbsElement, same_element};
ghost use Rattle.law_arrangements.specs.Orders.{arranged};
ghost use Rattle.smv_spots.specs.Spots.{place_in};
ghost use Rattle.smv_conditions.specs.Offers.{AreOffersMade, any_offer};
ghost use Rattle.smv_cells.specs.Cells.{AreCellsMade};
ghost use Rattle.smv_cells.specs.Seen.{IsSeen};
ghost use Rattle.smv_elements.specs.Elements as listed;
ghost use Rattle.smv_problem.specs.Written.{written_element};
ghost use Rattle.smv_problem.specs.WellFormed.{OfCases, AreApartElements};
ghost use Rattle.smv_encode.specs.Coded.{state_at, view_at, AreAmong};
ghost use Rattle.smv_encode.specs.Parts.{AreElements};
ghost use Rattle.smv_wires.specs.Tried.{KeepsOneMore, view_keeping, view_coded};

use bdd_store::{Ref, Store};
use smv_cells::Cell;
use smv_conditions::offers::Offer;
use smv_core::Seq;
use smv_core::flat::Element;
use smv_elements::order::is_same;
use smv_problem::Problem;
use smv_spots::spots::Spot;
use smv_targets::values::{places_for, value_of};
use smv_typed_spots::index_spots;
use std::alloc::{AllocError, Global};

// The values of the element of a family at these indexes, by the cells of all elements.
fn coded_values(
    alloc: Global,
    problem: &Problem,
    store: &mut Store,
    coded: &[Cell<Ref>],
    family: u16,
    indexes: &[Spot],
) -> Result<Vec<Offer<Ref>>, AllocError>
    requires coded { AreCellsMade (IsLive store.old) coded.now }
    ensures keeps { Keeps store.old store.new }
    ensures made { IfOk result (λ values. AreOffersMade (IsLive store.new) values.items) }
    ensures values { IfOk result (λ values. OfCases problem.entry.now (λ c. (order : List ℕ) (next : Bool) → IsSeen table store.old problem.entry.now coded.now (view_at c (arranged order) next) → (x : AbsElement) → Has c.elements x → x.family ≡ family → map (place_in c.problem.world.classes) indexes.now ≡ x.indexes → (a : ℕ → Bool) (q : AbsOutcome → Bool) → any_offer c.problem.world.classes table store.new a q values.items ≡ q (Some (state_at c (arranged order) next a x.family x.indexes)))) }
{
    let every = places_for(alloc, problem, family)?;
    let _ = store.vars();
    let r = value_of(
        store,
        alloc,
        problem,
        coded,
        family,
        indexes,
        every.as_slice(),
    );
    let _ = store.vars();
    r
}

/// The coded cell of an element, behind others.
pub(crate) fn add_coded(
    alloc: Global,
    problem: &Problem,
    store: &mut Store,
    coded: &[Cell<Ref>],
    element: &Element,
    cells: &mut Vec<Cell<Ref>>,
) -> Result<(), AllocError>
    requires coded { AreCellsMade (IsLive store.old) coded.now }
    requires live { AreCellsMade (IsLive store.old) cells.old.items }
    ensures keeps { Keeps store.old store.new }
    ensures live { OnOk result (AreCellsMade (IsLive store.new) cells.new.items) }
    ensures seen { OnOk result (OfCases problem.entry.now (λ c. (order : List ℕ) (next : Bool) → IsSeen table store.old problem.entry.now coded.now (view_at c (arranged order) next) → (x : AbsElement) → AreElements c (x ∷ []) (element.now ∷ []) → (keeps more : Kept) (state : (ℕ → Bool) → AbsState) → KeepsOneMore x keeps more → ((a : ℕ → Bool) → state a x.family x.indexes ≡ state_at c (arranged order) next a x.family x.indexes) → IsSeen table store.old problem.entry.now cells.old.items (view_keeping c keeps state) → IsSeen table store.new problem.entry.now cells.new.items (view_keeping c more state))) }
{
    let indexes = index_spots(alloc, problem, element)?;
    let values = coded_values(
        alloc,
        problem,
        store,
        coded,
        element.family,
        indexes.as_slice(),
    )?;
    cells.push(Cell {
        family: element.family,
        indexes,
        values: Seq::from_vec(values),
    })?;
    Ok(())
}

// One of these elements.
fn is_tried(tried: &[Element], element: &Element) -> bool
    ensures { result ≡ list_any (listed.same_element element.now) tried.now }
{
    for other in tried {
        if is_same(element, other) {
            return true;
        }
    }
    false
}

// The coded cell of an element, unless it is tried.
fn add_unless(
    alloc: Global,
    problem: &Problem,
    store: &mut Store,
    coded: &[Cell<Ref>],
    tried: &[Element],
    element: &Element,
    cells: &mut Vec<Cell<Ref>>,
) -> Result<(), AllocError>
    requires coded { AreCellsMade (IsLive store.old) coded.now }
    requires live { AreCellsMade (IsLive store.old) cells.old.items }
    ensures keeps { Keeps store.old store.new }
    ensures live { OnOk result (AreCellsMade (IsLive store.new) cells.new.items) }
    ensures seen { OnOk result (OfCases problem.entry.now (λ c. (order : List ℕ) (next : Bool) → IsSeen table store.old problem.entry.now coded.now (view_at c (arranged order) next) → (xs : List AbsElement) → AreElements c xs tried.now → (x : AbsElement) → AreElements c (x ∷ []) (element.now ∷ []) → (front : List AbsElement) → list_any (same_element x) front ≡ false → IsSeen table store.old problem.entry.now cells.old.items (view_coded c order front next) → IsSeen table store.new problem.entry.now cells.new.items (view_coded c order (if list_any (same_element x) xs then front else front ++ x ∷ []) next))) }
{
    if is_tried(tried, element) {
        return Ok(());
    }
    add_coded(alloc, problem, store, coded, element, cells)?;
    Ok(())
}

/// The coded cells of those of these elements that are not tried, behind others.
pub(crate) fn add_others(
    alloc: Global,
    problem: &Problem,
    store: &mut Store,
    coded: &[Cell<Ref>],
    tried: &[Element],
    elements: &[Element],
    cells: &mut Vec<Cell<Ref>>,
) -> Result<(), AllocError>
    requires coded { AreCellsMade (IsLive store.old) coded.now }
    requires live { AreCellsMade (IsLive store.old) cells.old.items }
    ensures keeps { Keeps store.old store.new }
    ensures live { OnOk result (AreCellsMade (IsLive store.new) cells.new.items) }
    ensures seen { OnOk result (OfCases problem.entry.now (λ c. (order : List ℕ) (next : Bool) → IsSeen table store.old problem.entry.now coded.now (view_at c (arranged order) next) → (xs : List AbsElement) → AreElements c xs tried.now → (ys : List AbsElement) → AreElements c ys elements.now → (front : List AbsElement) → AreApartElements (front ++ ys) → IsSeen table store.old problem.entry.now cells.old.items (view_coded c order front next) → IsSeen table store.new problem.entry.now cells.new.items (view_coded c order (front ++ filter (λ y. not (list_any (same_element y) xs)) ys) next))) }
{
    let _ = store.vars();
    let Some((element, others)) = elements.split_first() else {
        return Ok(());
    };
    add_unless(alloc, problem, store, coded, tried, element, cells)?;
    add_others(alloc, problem, store, coded, tried, others, cells)?;
    Ok(())
}
