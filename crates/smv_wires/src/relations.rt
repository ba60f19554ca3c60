// The lists of functions of a problem where some of its elements are worked out.
ghost use Rattle.std.specs.Prelude.{◌≡◌, ◌*◌, ◌≤◌, ℕ, [], List, map, length, IfOk};
ghost use Rattle.bdd_store.specs.Diagram.{Keeps};
ghost use Rattle.law_obligations.specs.Cones.{AbsElement};
ghost use Rattle.law_obligations.specs.Readings.{state_bits as bits_of_case};
ghost use Rattle.law_arrangements.specs.Arrangements.{IsArrangement};
ghost use Rattle.law_arrangements.specs.ArrangedLists.{lists_over};
ghost use Rattle.law_arrangements.specs.Orders.{IsOrder, arranged, wired};
ghost use Rattle.bdd_codes.specs.Codes.{AreWithin};
ghost use Rattle.smv_readings.specs.StateBits.{bits_in};
ghost use Rattle.smv_orders.specs.Places.{ArePlaces};
ghost use Rattle.smv_rings.specs.Lists.{IsRel, lists_of};
ghost use Rattle.smv_problem.specs.Written.{written_element};
ghost use Rattle.smv_problem.specs.WellFormed.{IsProblem, OfCases, AreApartElements};
ghost use Rattle.smv_encode.specs.Coded.{AreAmong};
ghost use Rattle.smv_encode.specs.Encoded.{AreLiveCells, AreCellsOf};
ghost use Rattle.smv_wires.specs.Tried.{AreTried};

use crate::coded::add_others;
use crate::tries::try_all;
use bdd_store::Store;
use smv_core::flat::Element;
use smv_encode::cells::{Cells, cells_of};
use smv_encode::relations_by;
use smv_orders::places_in;
use smv_problem::Problem;
use smv_rings::Rel;
use std::alloc::{AllocError, Global};

/// The elements that are worked out, and the cells of all.
#[derive(Drop)]
struct WiredCells {
    cells: Cells,
    wires: Vec<Element>,
}

/// The lists of functions of a problem, and the elements that are worked out, in the order in which this is done.
#[derive(Drop)]
pub struct Wired {
    pub rel: Rel,
    pub wires: Vec<Element>,
}

// The coded cells of all elements but those that are tried.
fn other_cells(
    alloc: Global,
    problem: &Problem,
    coded: &Cells,
    tried: &[Element],
    store: &mut Store,
) -> Result<Cells, AllocError>
    requires coded { AreLiveCells store.old coded.now }
    ensures keeps { Keeps store.old store.new }
    ensures live { IfOk result (λ cells. AreLiveCells store.new cells) }
    ensures tried { IfOk result (λ cells. OfCases problem.entry.now (λ c. (order : List ℕ) → AreCellsOf c (arranged order) store.old problem.entry.now coded.now → (xs : List AbsElement) → tried.now ≡ map written_element xs → AreAmong c.elements xs → AreApartElements xs → AreTried c order xs store.new problem.entry.now [] cells)) }
{
    let elements = problem.elements.as_slice();
    let mut current = Vec::new(alloc);
    let old = coded.current.as_slice();
    add_others(alloc, problem, store, old, tried, elements, &mut current)?;
    let mut next = Vec::new(alloc);
    let new = coded.next.as_slice();
    add_others(alloc, problem, store, new, tried, elements, &mut next)?;
    Ok(Cells { current, next })
}

// The cells of a problem, by the places of all bits, where as many of these candidates are worked out as are determined, one after the other.
fn wired_cells(
    alloc: Global,
    problem: &Problem,
    places: &[u16],
    candidates: &[Element],
    store: &mut Store,
) -> Result<WiredCells, AllocError>
    requires well_formed { IsProblem problem.now }
    requires room { bits_in problem.now ≤ length places.now }
    requires places { AreWithin store.old places.now }
    ensures keeps { Keeps store.old store.new }
    ensures live { IfOk result (λ made. AreLiveCells store.new made.cells) }
    ensures tried { IfOk result (λ made. OfCases problem.entry.now (λ c. (order : List ℕ) → IsOrder (bits_of_case c) order → ArePlaces order 0 places.now → (xs : List AbsElement) → candidates.now ≡ map written_element xs → AreAmong c.elements xs → AreApartElements xs → AreTried c order [] store.new problem.entry.now made.wires.items made.cells)) }
{
    let coded = cells_of(alloc, problem, store, places)?;
    let mut cells = other_cells(alloc, problem, &coded, candidates, store)?;
    let mut wires = Vec::new(alloc);
    try_all(
        alloc, problem, store, &coded, candidates, &mut cells, &mut wires,
    )?;
    Ok(WiredCells { cells, wires })
}

/// The lists of functions of a problem whose bits stand in this order, where as many of these candidates are worked out as are determined, each by those before it and by the elements that are no
/// candidates: they have variables, but no function.
pub fn relations_wired(
    alloc: Global,
    problem: &Problem,
    order: &[u16],
    candidates: &[Element],
    store: &mut Store,
) -> Result<Wired, AllocError>
    requires well_formed { IsProblem problem.now }
    requires order { OfCases problem.now (λ c. IsOrder (bits_of_case c) order.now) }
    requires vars { OfCases problem.now (λ c. store.old.vars ≡ 2 * bits_of_case c) }
    requires candidates { OfCases problem.now (λ c. (xs : List AbsElement) × (candidates.now ≡ map written_element xs) × AreAmong c.elements xs × AreApartElements xs) }
    ensures rel { IfOk result (λ made. IsRel store.new made.rel) }
    ensures lists { IfOk result (λ made. OfCases problem.entry.now (λ c. (done : List AbsElement) × (made.wires.items ≡ map written_element done) × IsArrangement c (wired order.now done) × (lists_of store.new made.rel ≡ lists_over c (wired order.now done)))) }
    ensures keeps { Keeps store.old store.new }
{
    let places = places_in(alloc, order)?;
    let made = wired_cells(alloc, problem, places.as_slice(), candidates, store)?;
    let WiredCells { cells, wires } = made;
    let rel = relations_by(
        alloc,
        problem,
        places.as_slice(),
        wires.as_slice(),
        &cells,
        store,
    )?;
    Ok(Wired { rel, wires })
}
