// The six lists.
ghost use Rattle.std.specs.Prelude.{◌≡◌, ◌*◌, ◌≤◌, ◌++◌, ℕ, List, length, map, false, true, IfOk};
ghost use Rattle.bdd_store.specs.Diagram.{AreLive, Keeps, table};
ghost use Rattle.law_obligations.specs.Readings.{state_bits as bits_of_case};
ghost use Rattle.law_reports.specs.CaseLists.{moving_first, claims, before_in_step, IsListsOf};
ghost use Rattle.law_obligations.specs.Cones.{AbsElement};
ghost use Rattle.law_arrangements.specs.Arrangements.{Arrangement};
ghost use Rattle.law_arrangements.specs.Orders.{arranged, wired, IsOrder};
ghost use Rattle.law_arrangements.specs.ArrangedLists.{element_first, element_step, met_first, met_step, slots_over, lists_over};
ghost use Rattle.bdd_codes.specs.Codes.{AreWithin};
ghost use Rattle.smv_readings.specs.StateBits.{bits_in};
ghost use Rattle.smv_orders.specs.Places.{ArePlaces};
ghost use Rattle.smv_rings.specs.Lists.{IsRel, lists_of};
ghost use Rattle.smv_problem.specs.WellFormed.{IsProblem, OfCases};
ghost use Rattle.smv_encode.specs.Encoded.{AreLiveCells, AreCellsOf, AreKnownOfCase};
ghost use Rattle.smv_encode.specs.Parts.{AreElements, AreWiredCells};

use crate::cells::{CaseKnown, Cells, cells_of, nothing_known_of_case};
use crate::elements::{Turn, add_all, add_before, add_claims, add_elements};
use crate::times::{broken_first_by, broken_step_by};
use bdd_store::{Ref, Store};
use smv_core::flat::Element;
use smv_orders::{declared_order, places_in};
use smv_problem::Problem;
use smv_readings::state_bits;
use smv_rings::Rel;
use std::alloc::{AllocError, Global};

// What holds now at time 0: each element has a value and its definition is met, and so is each claim.
fn now_first<'a>(
    alloc: Global,
    problem: &'a Problem,
    places: &[u16],
    wires: &[Element],
    cells: &Cells,
    known: &mut CaseKnown<'a>,
    store: &mut Store,
) -> Result<Vec<Ref>, AllocError>
    requires room { bits_in problem.now ≤ length places.now }
    requires places { AreWithin store.old places.now }
    requires cells { AreLiveCells store.old cells.now }
    requires known { AreKnownOfCase store.old problem.now cells.now known.old }
    ensures keeps { Keeps store.old store.new }
    ensures live { IfOk result (λ refs. AreLive store.new refs.items) }
    ensures known { IfOk result (λ refs. AreKnownOfCase store.new problem.entry.now cells.now known.new) }
    ensures list { IfOk result (λ refs. OfCases problem.entry.now (λ c. (o : Arrangement) → AreCellsOf c o store.old problem.entry.now cells.now → AreElements c (o.determined ++ o.idle) wires.now → ArePlaces o.order 0 places.now → map (table store.new) refs.items ≡ map (element_first c o) (slots_over c o) ++ map (met_first c o) (claims c c.problem.now))) }
{
    let elements = problem.elements.as_slice();
    let demands = problem.now.as_slice();
    let mut refs = Vec::new(alloc);
    add_elements(
        alloc,
        problem,
        cells,
        known,
        false,
        Turn::All,
        wires,
        places,
        elements,
        store,
        &mut refs,
    )?;
    add_claims(
        alloc, problem, cells, known, false, demands, store, &mut refs,
    )?;
    Ok(refs)
}

// What holds before at time 0.
fn before_first<'a>(
    alloc: Global,
    problem: &'a Problem,
    cells: &Cells,
    known: &mut CaseKnown<'a>,
    store: &mut Store,
) -> Result<Vec<Ref>, AllocError>
    requires cells { AreLiveCells store.old cells.now }
    requires known { AreKnownOfCase store.old problem.now cells.now known.old }
    ensures keeps { Keeps store.old store.new }
    ensures live { IfOk result (λ refs. AreLive store.new refs.items) }
    ensures known { IfOk result (λ refs. AreKnownOfCase store.new problem.entry.now cells.now known.new) }
    ensures list { IfOk result (λ refs. OfCases problem.entry.now (λ c. (o : Arrangement) → AreCellsOf c o store.old problem.entry.now cells.now → map (table store.new) refs.items ≡ map (met_first c o) c.problem.before)) }
{
    let demands = problem.before.as_slice();
    let mut refs = Vec::new(alloc);
    add_all(
        alloc, problem, cells, known, false, demands, store, &mut refs,
    )?;
    Ok(refs)
}

// What holds now in a step: first the elements that some definition moves.
fn now_step<'a>(
    alloc: Global,
    problem: &'a Problem,
    places: &[u16],
    wires: &[Element],
    cells: &Cells,
    known: &mut CaseKnown<'a>,
    store: &mut Store,
) -> Result<Vec<Ref>, AllocError>
    requires room { bits_in problem.now ≤ length places.now }
    requires places { AreWithin store.old places.now }
    requires cells { AreLiveCells store.old cells.now }
    requires known { AreKnownOfCase store.old problem.now cells.now known.old }
    ensures keeps { Keeps store.old store.new }
    ensures live { IfOk result (λ refs. AreLive store.new refs.items) }
    ensures known { IfOk result (λ refs. AreKnownOfCase store.new problem.entry.now cells.now known.new) }
    ensures list { IfOk result (λ refs. OfCases problem.entry.now (λ c. (o : Arrangement) → AreCellsOf c o store.old problem.entry.now cells.now → AreElements c (o.determined ++ o.idle) wires.now → ArePlaces o.order 0 places.now → map (table store.new) refs.items ≡ map (element_step c o) (moving_first c.problem.now (slots_over c o)) ++ map (met_step c o) (claims c c.problem.now))) }
{
    let elements = problem.elements.as_slice();
    let demands = problem.now.as_slice();
    let mut refs = Vec::new(alloc);
    add_elements(
        alloc,
        problem,
        cells,
        known,
        true,
        Turn::Moving,
        wires,
        places,
        elements,
        store,
        &mut refs,
    )?;
    add_elements(
        alloc,
        problem,
        cells,
        known,
        true,
        Turn::Others,
        wires,
        places,
        elements,
        store,
        &mut refs,
    )?;
    add_claims(
        alloc, problem, cells, known, true, demands, store, &mut refs,
    )?;
    Ok(refs)
}

// What holds before in a step: the definitions of these elements first.
fn before_step<'a>(
    alloc: Global,
    problem: &'a Problem,
    cells: &Cells,
    known: &mut CaseKnown<'a>,
    store: &mut Store,
) -> Result<Vec<Ref>, AllocError>
    requires cells { AreLiveCells store.old cells.now }
    requires known { AreKnownOfCase store.old problem.now cells.now known.old }
    ensures keeps { Keeps store.old store.new }
    ensures live { IfOk result (λ refs. AreLive store.new refs.items) }
    ensures known { IfOk result (λ refs. AreKnownOfCase store.new problem.entry.now cells.now known.new) }
    ensures list { IfOk result (λ refs. OfCases problem.entry.now (λ c. (o : Arrangement) → AreCellsOf c o store.old problem.entry.now cells.now → map (table store.new) refs.items ≡ map (met_step c o) (before_in_step c))) }
{
    let elements = problem.elements.as_slice();
    let demands = problem.before.as_slice();
    let mut refs = Vec::new(alloc);
    add_before(
        alloc,
        problem,
        cells,
        known,
        Turn::Moving,
        elements,
        store,
        &mut refs,
    )?;
    add_before(
        alloc,
        problem,
        cells,
        known,
        Turn::Others,
        elements,
        store,
        &mut refs,
    )?;
    add_claims(
        alloc, problem, cells, known, true, demands, store, &mut refs,
    )?;
    Ok(refs)
}

/// The lists of functions of a problem by these cells, where the bits of all elements have these places. Wires, which are worked out, have cells and no function.
pub fn relations_by(
    alloc: Global,
    problem: &Problem,
    places: &[u16],
    wires: &[Element],
    cells: &Cells,
    store: &mut Store,
) -> Result<Rel, AllocError>
    requires well_formed { IsProblem problem.now }
    requires vars { OfCases problem.now (λ c. store.old.vars ≡ 2 * bits_of_case c) }
    requires count { OfCases problem.now (λ c. length places.now ≡ bits_of_case c) }
    requires places { AreWithin store.old places.now }
    requires cells { AreLiveCells store.old cells.now }
    ensures rel { IfOk result (λ rel. OfCases problem.entry.now (λ c. (order : List ℕ) (done : List AbsElement) → AreWiredCells c order done store.old problem.entry.now places.now wires.now cells.now → IsRel store.new rel)) }
    ensures lists { IfOk result (λ rel. OfCases problem.entry.now (λ c. (order : List ℕ) (done : List AbsElement) → AreWiredCells c order done store.old problem.entry.now places.now wires.now cells.now → lists_of store.new rel ≡ lists_over c (wired order done))) }
    ensures keeps { Keeps store.old store.new }
{
    let mut known = nothing_known_of_case(alloc);
    let now_first = now_first(alloc, problem, places, wires, cells, &mut known, store)?;
    let before_first = before_first(alloc, problem, cells, &mut known, store)?;
    let current = cells.current.as_slice();
    let broken_first = broken_first_by(alloc, problem, current, &mut known.current, store)?;
    let now_step = now_step(alloc, problem, places, wires, cells, &mut known, store)?;
    let before_step = before_step(alloc, problem, cells, &mut known, store)?;
    let broken_step = broken_step_by(alloc, problem, cells, &mut known, store)?;
    let bits = state_bits(problem);
    Ok(Rel {
        now_first,
        before_first,
        broken_first,
        now_step,
        before_step,
        broken_step,
        bits,
    })
}

// The lists of functions of a problem without wires, by the places of all bits.
fn relations_at(
    alloc: Global,
    problem: &Problem,
    places: &[u16],
    store: &mut Store,
) -> Result<Rel, AllocError>
    requires well_formed { IsProblem problem.now }
    requires vars { OfCases problem.now (λ c. store.old.vars ≡ 2 * bits_of_case c) }
    requires count { OfCases problem.now (λ c. length places.now ≡ bits_of_case c) }
    requires places { AreWithin store.old places.now }
    ensures rel { IfOk result (λ rel. (order : List ℕ) → ArePlaces order 0 places.now → length order ≡ length places.now → IsRel store.new rel) }
    ensures lists { IfOk result (λ rel. OfCases problem.entry.now (λ c. (order : List ℕ) → ArePlaces order 0 places.now → length order ≡ length places.now → lists_of store.new rel ≡ lists_over c (arranged order))) }
    ensures keeps { Keeps store.old store.new }
{
    let cells = cells_of(alloc, problem, store, places)?;
    let wires = Vec::new(alloc);
    let rel = relations_by(alloc, problem, places, wires.as_slice(), &cells, store)?;
    Ok(rel)
}

/// The lists of functions of a problem whose bits stand in this order.
pub fn relations_over(
    alloc: Global,
    problem: &Problem,
    order: &[u16],
    store: &mut Store,
) -> Result<Rel, AllocError>
    requires well_formed { IsProblem problem.now }
    requires order { OfCases problem.now (λ c. IsOrder (bits_of_case c) order.now) }
    requires vars { OfCases problem.now (λ c. store.old.vars ≡ 2 * bits_of_case c) }
    ensures rel { IfOk result (λ rel. IsRel store.new rel) }
    ensures lists { IfOk result (λ rel. OfCases problem.entry.now (λ c. lists_of store.new rel ≡ lists_over c (arranged order.now))) }
    ensures keeps { Keeps store.old store.new }
{
    let places = places_in(alloc, order)?;
    let rel = relations_at(alloc, problem, places.as_slice(), store)?;
    Ok(rel)
}

/// The lists of functions of a problem whose bits stand in the order of the declarations.
pub fn relations(alloc: Global, problem: &Problem, store: &mut Store) -> Result<Rel, AllocError>
    requires well_formed { IsProblem problem.now }
    requires vars { OfCases problem.now (λ c. store.old.vars ≡ 2 * bits_of_case c) }
    ensures rel { IfOk result (λ rel. IsRel store.new rel) }
    ensures lists { IfOk result (λ rel. OfCases problem.entry.now (λ c. IsListsOf c (lists_of store.new rel))) }
    ensures keeps { Keeps store.old store.new }
{
    let order = declared_order(alloc, problem)?;
    let rel = relations_over(alloc, problem, order.as_slice(), store)?;
    Ok(rel)
}
