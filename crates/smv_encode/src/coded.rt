// What the elements of a problem are in the current or in the next state, read off the bits: a cell for each element, with the function of each of its values.
ghost use Rattle.std.specs.Prelude.{◌≡◌, ℕ, Bool, ◌+◌, ◌≤◌, ◌++◌, List, map, length, slice_get, IfOk, OnOk};
ghost use Rattle.law_obligations.specs.Sets.{Has};
ghost use Rattle.law_obligations.specs.Places.{World, places_in};
ghost use Rattle.law_obligations.specs.Cones.{AbsElement};
ghost use Rattle.law_obligations.specs.Readings.{values_in, is_value};
ghost use Rattle.smv_problem.specs.Written.{written_element};
ghost use Rattle.smv_problem.specs.WellFormed.{IsProblem, OfCases};
ghost use Rattle.smv_readings.specs.StateBits.{count_for, bits_of_family, bits_of_elements, bits_in};
ghost use Rattle.smv_spots.specs.Spots.{place_in};
ghost use Rattle.smv_problem_spots.specs.Worlds.{IsWorldOf};
ghost use Rattle.bdd_store.specs.declared.Ref.{Ref};
ghost use Rattle.bdd_store.specs.Diagram.{IsLive, Keeps, table};
ghost use Rattle.bdd_codes.specs.Codes.{bits_at, AreWithin};
ghost use Rattle.law_arrangements.specs.Arrangements.{spread};
ghost use Rattle.law_arrangements.specs.Orders.{arranged};
ghost use Rattle.smv_conditions.specs.Offers.{AreOffersMade};
ghost use Rattle.smv_cells.specs.Cells.{AreCellsMade};
ghost use Rattle.smv_cells.specs.Seen.{IsSeen};
ghost use Rattle.smv_cells.specs.declared.cells.Cell.{Cell as CellData};
ghost use Rattle.smv_orders.specs.Places.{ArePlaces};
ghost use Rattle.smv_encode.specs.Coded.{view_at, paired, IsCoded, AreCoded, HaveValues, AreAmong};

use bdd_codes::{below, values};
use bdd_store::{Ref, Store};
use smv_cells::Cell;
use smv_conditions::offers::Offer;
use smv_core::Seq;
use smv_core::flat::{Element, Simple};
use smv_problem::Problem;
use smv_problem_spots::places::{named_over, rests_over};
use smv_readings::{family_bits, values as count_of};
use smv_spots::spots::Spot;
use smv_typed_spots::index_spots;
use std::alloc::{AllocError, Global};

// The places of a type.
fn places_over(alloc: Global, problem: &Problem, over: Simple) -> Result<Vec<Spot>, AllocError>
    ensures { IfOk result (λ spots. (w : World) → IsWorldOf problem.entry.now w → map (place_in w.classes) spots.items ≡ places_in w over) }
{
    let mut spots = named_over(alloc, problem, over)?;
    let rests = rests_over(alloc, problem, over)?;
    spots.extend_from_slice(rests.as_slice())?;
    Ok(spots)
}

// The values of a family.
fn values_over(alloc: Global, problem: &Problem, family: u16) -> Result<Vec<Spot>, AllocError>
    ensures { IfOk result (λ spots. (w : World) → IsWorldOf problem.entry.now w → map (place_in w.classes) spots.items ≡ values_in w (slice_get w.classes.families family)) }
{
    match problem.families.as_slice().get(family as usize) {
        Some(f) => {
            let spots = places_over(alloc, problem, f.value)?;
            Ok(spots)
        }
        None => Ok(Vec::new(alloc)),
    }
}

// How many values a family has.
fn count(problem: &Problem, family: u16) -> u32
    ensures { result ≡ count_for problem.entry.now.lists problem.entry.now.types (slice_get problem.entry.now.families family) }
{
    match problem.families.as_slice().get(family as usize) {
        Some(f) => count_of(problem.lists.as_slice(), problem.types.as_slice(), f.value),
        None => 0,
    }
}

/// The bits of an element of a family.
pub(crate) fn width(problem: &Problem, family: u16) -> u32
    ensures { result ≡ bits_of_family problem.entry.now.families problem.entry.now.lists problem.entry.now.types family }
{
    family_bits(
        problem.families.as_slice(),
        problem.lists.as_slice(),
        problem.types.as_slice(),
        family,
    )
}

// Values, each under its condition.
fn offers(alloc: Global, spots: &[Spot], conditions: &[Ref]) -> Result<Seq<Offer<Ref>>, AllocError>
    requires { length conditions.now ≡ length spots.now }
    ensures { IfOk result (λ offers. offers ≡ paired spots.now conditions.now) }
{
    let mut offers = Seq::new(alloc);
    for i in 0..spots.len() {
        offers.push(Offer {
            outcome: Some(spots[i]),
            when: conditions[i],
        })?;
    }
    Ok(offers)
}

// The cell of an element whose bits have these places.
fn cell_at(
    alloc: Global,
    problem: &Problem,
    store: &mut Store,
    next: bool,
    places: &[u16],
    element: &Element,
) -> Result<Cell<Ref>, AllocError>
    requires well_formed { IsProblem problem.now }
    requires some { 1 ≤ count_for problem.now.lists problem.now.types (slice_get problem.now.families element.now.family) }
    requires width { length places.now ≡ bits_of_family problem.now.families problem.now.lists problem.now.types element.now.family }
    requires places { AreWithin store.old places.now }
    ensures keeps { Keeps store.old store.new }
    ensures made { IfOk result (λ cell. AreOffersMade (IsLive store.new) cell.values) }
    ensures coded { IfOk result (λ cell. OfCases problem.entry.now (λ c. (x : AbsElement) → Has c.elements x → element.now ≡ written_element x → (order : List ℕ) (bit : ℕ) → ArePlaces order bit places.now → IsCoded c order store.new next bit x cell)) }
{
    let count = count(problem, element.family);
    let conditions = values(alloc, store, next, places, count)?;
    let spots = values_over(alloc, problem, element.family)?;
    let values = offers(alloc, spots.as_slice(), conditions.as_slice())?;
    let indexes = index_spots(alloc, problem, element)?;
    Ok(Cell {
        family: element.family,
        indexes,
        values,
    })
}

// The cells of these elements, one behind the other, whose bits have these places.
fn add_cells(
    alloc: Global,
    problem: &Problem,
    store: &mut Store,
    next: bool,
    places: &[u16],
    elements: &[Element],
    cells: &mut Vec<Cell<Ref>>,
) -> Result<(), AllocError>
    requires well_formed { IsProblem problem.now }
    requires some { HaveValues problem.now elements.now }
    requires room { bits_of_elements problem.now.families problem.now.lists problem.now.types elements.now ≤ length places.now }
    requires places { AreWithin store.old places.now }
    requires made { AreCellsMade (IsLive store.old) cells.old.items }
    ensures keeps { Keeps store.old store.new }
    ensures made { OnOk result (AreCellsMade (IsLive store.new) cells.new.items) }
    ensures coded { OnOk result ((more : List (CellData Ref)) × (cells.new.items ≡ cells.old.items ++ more) × OfCases problem.entry.now (λ c. (xs : List AbsElement) → AreAmong c.elements xs → elements.now ≡ map written_element xs → (order : List ℕ) (bit : ℕ) → ArePlaces order bit places.now → AreCoded c order store.new next bit xs more)) }
{
    let _ = store.vars();
    let Some((element, others)) = elements.split_first() else {
        return Ok(());
    };
    let (own, behind) = places.split_at(width(problem, element.family) as usize);
    let cell = cell_at(alloc, problem, store, next, own, element)?;
    cells.push(cell)?;
    add_cells(alloc, problem, store, next, behind, others, cells)?;
    Ok(())
}

/// The cells of the elements of a problem, in their order, by the places of all bits: in the state of the current bits, or in that of the next ones.
pub(crate) fn cells_at(
    alloc: Global,
    problem: &Problem,
    store: &mut Store,
    next: bool,
    places: &[u16],
) -> Result<Vec<Cell<Ref>>, AllocError>
    requires well_formed { IsProblem problem.now }
    requires room { bits_in problem.now ≤ length places.now }
    requires places { AreWithin store.old places.now }
    ensures keeps { Keeps store.old store.new }
    ensures made { IfOk result (λ cells. AreCellsMade (IsLive store.new) cells.items) }
    ensures seen { IfOk result (λ cells. OfCases problem.entry.now (λ c. (order : List ℕ) → ArePlaces order 0 places.now → IsSeen table store.new problem.entry.now cells.items (view_at c (arranged order) next))) }
    ensures coded { IfOk result (λ cells. OfCases problem.entry.now (λ c. (order : List ℕ) → ArePlaces order 0 places.now → AreCoded c order store.new next 0 c.elements cells.items)) }
{
    let mut cells = Vec::new(alloc);
    add_cells(
        alloc,
        problem,
        store,
        next,
        places,
        problem.elements.as_slice(),
        &mut cells,
    )?;
    Ok(cells)
}

/// The function "the code of an element of a family is that of a value", where its bits have these places.
pub(crate) fn value_at(
    alloc: Global,
    problem: &Problem,
    store: &mut Store,
    next: bool,
    places: &[u16],
    family: u16,
) -> Result<Ref, AllocError>
    requires width { length places.now ≡ bits_of_family problem.now.families problem.now.lists problem.now.types family }
    requires places { AreWithin store.old places.now }
    ensures keeps { Keeps store.old store.new }
    ensures live { IfOk result (λ r. IsLive store.new r) }
    ensures value { IfOk result (λ r. OfCases problem.entry.now (λ c. (x : AbsElement) → x.family ≡ family → (order : List ℕ) (bit : ℕ) → ArePlaces order bit places.now → (a : ℕ → Bool) → table store.new r a ≡ is_value c.problem.world (spread order (bits_at next a)) (record { element = x; bit = bit }))) }
{
    let count = count(problem, family);
    let r = below(alloc, store, next, places, count)?;
    Ok(r)
}
