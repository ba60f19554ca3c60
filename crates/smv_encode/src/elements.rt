// The functions of demands and of elements, put behind a list.
ghost use Rattle.std.specs.Prelude.{◌≡◌, ◌≤◌, ◌&&◌, ◌++◌, ℕ, length, List, [], ◌∷◌, map, filter, flat_map, if◌then◌else◌, Bool, true, IfOk, OnOk};
ghost use Rattle.std.specs.List.{list_all, list_any};
ghost use Rattle.bdd_store.specs.Diagram.{IsLive, AreLive, Keeps, table};
ghost use Rattle.law_obligations.specs.Obligations.{Demanded};
ghost use Rattle.law_obligations.specs.Cones.{AbsElement};
ghost use Rattle.law_obligations.specs.Readings.{Slot, slots_from};
ghost use Rattle.law_reports.specs.CaseLists.{is_claim as is_claim_of, those_of};
ghost use Rattle.law_arrangements.specs.Arrangements.{Arrangement};
ghost use Rattle.law_arrangements.specs.ArrangedLists.{met_step};
ghost use Rattle.bdd_codes.specs.Codes.{AreWithin};
ghost use Rattle.smv_orders.specs.Places.{ArePlaces};
ghost use Rattle.smv_elements.specs.Elements.{same_element};
ghost use Rattle.smv_problem.specs.WellFormed.{OfCases};
ghost use Rattle.smv_readings.specs.StateBits.{bits_of_family, bits_of_elements};
ghost use Rattle.smv_encode.specs.Encoded.{met_at as met_function, AreLiveCells, AreCellsOf, AreKnownOfCase};
ghost use Rattle.smv_encode.specs.Parts.{AreDemands, AreElements, AddsFunctions, element_at as element_function, is_turn, has_turn};

use crate::cells::{CaseKnown, Cells};
use crate::chosen::{defines, is_claim, moves};
use crate::coded::{value_at, width};
use crate::times::met_at;
use bdd_ops::and;
use bdd_store::{Ref, Store};
use smv_core::flat::Element;
use smv_elements::order::is_same;
use smv_problem::{Demand, Problem};
use std::alloc::{AllocError, Global};

/// Which elements are taken: all, those that some demand moves, or the others.
#[derive(Clone, Copy)]
pub enum Turn {
    All,
    Moving,
    Others,
}

// The function of a demand.
fn add_met<'a>(
    alloc: Global,
    problem: &Problem,
    cells: &Cells,
    known: &mut CaseKnown<'a>,
    step: bool,
    demand: &'a Demand,
    store: &mut Store,
    out: &mut Vec<Ref>,
) -> Result<(), AllocError>
    requires cells { AreLiveCells store.old cells.now }
    requires known { AreKnownOfCase store.old problem.now cells.now known.old }
    requires out { AreLive store.old out.old.items }
    ensures keeps { Keeps store.old store.new }
    ensures out { OnOk result (AreLive store.new out.new.items) }
    ensures known { OnOk result (AreKnownOfCase store.new problem.entry.now cells.now known.new) }
    ensures adds { OnOk result (OfCases problem.entry.now (λ c. (o : Arrangement) → AreCellsOf c o store.old problem.entry.now cells.now → (d : Demanded) → AreDemands c (d ∷ []) (demand.now ∷ []) → AddsFunctions store.old store.new out.old.items out.new.items (met_function c o step d ∷ []))) }
{
    let r = met_at(alloc, problem, cells, known, step, demand, store)?;
    out.push(r)?;
    Ok(())
}

/// The functions of these demands.
pub fn add_all<'a>(
    alloc: Global,
    problem: &Problem,
    cells: &Cells,
    known: &mut CaseKnown<'a>,
    step: bool,
    demands: &'a [Demand],
    store: &mut Store,
    out: &mut Vec<Ref>,
) -> Result<(), AllocError>
    requires cells { AreLiveCells store.old cells.now }
    requires known { AreKnownOfCase store.old problem.now cells.now known.old }
    requires out { AreLive store.old out.old.items }
    ensures keeps { Keeps store.old store.new }
    ensures out { OnOk result (AreLive store.new out.new.items) }
    ensures known { OnOk result (AreKnownOfCase store.new problem.entry.now cells.now known.new) }
    ensures adds { OnOk result (OfCases problem.entry.now (λ c. (o : Arrangement) → AreCellsOf c o store.old problem.entry.now cells.now → (ds : List Demanded) → AreDemands c ds demands.now → AddsFunctions store.old store.new out.old.items out.new.items (map (met_function c o step) ds))) }
{
    for demand in demands {
        add_met(alloc, problem, cells, known, step, demand, store, out)?;
    }
    Ok(())
}

// The function of a demand, where it is taken.
fn add_met_if<'a>(
    alloc: Global,
    problem: &Problem,
    cells: &Cells,
    known: &mut CaseKnown<'a>,
    step: bool,
    taken: bool,
    demand: &'a Demand,
    store: &mut Store,
    out: &mut Vec<Ref>,
) -> Result<(), AllocError>
    requires cells { AreLiveCells store.old cells.now }
    requires known { AreKnownOfCase store.old problem.now cells.now known.old }
    requires out { AreLive store.old out.old.items }
    ensures keeps { Keeps store.old store.new }
    ensures out { OnOk result (AreLive store.new out.new.items) }
    ensures known { OnOk result (AreKnownOfCase store.new problem.entry.now cells.now known.new) }
    ensures adds { OnOk result (OfCases problem.entry.now (λ c. (o : Arrangement) → AreCellsOf c o store.old problem.entry.now cells.now → (d : Demanded) → AreDemands c (d ∷ []) (demand.now ∷ []) → AddsFunctions store.old store.new out.old.items out.new.items (if taken then met_function c o step d ∷ [] else []))) }
{
    if taken {
        add_met(alloc, problem, cells, known, step, demand, store, out)?;
        return Ok(());
    }
    Ok(())
}

/// The functions of those of claims.
pub fn add_claims<'a>(
    alloc: Global,
    problem: &Problem,
    cells: &Cells,
    known: &mut CaseKnown<'a>,
    step: bool,
    demands: &'a [Demand],
    store: &mut Store,
    out: &mut Vec<Ref>,
) -> Result<(), AllocError>
    requires cells { AreLiveCells store.old cells.now }
    requires known { AreKnownOfCase store.old problem.now cells.now known.old }
    requires out { AreLive store.old out.old.items }
    ensures keeps { Keeps store.old store.new }
    ensures out { OnOk result (AreLive store.new out.new.items) }
    ensures known { OnOk result (AreKnownOfCase store.new problem.entry.now cells.now known.new) }
    ensures adds { OnOk result (OfCases problem.entry.now (λ c. (o : Arrangement) → AreCellsOf c o store.old problem.entry.now cells.now → (ds : List Demanded) → AreDemands c ds demands.now → AddsFunctions store.old store.new out.old.items out.new.items (map (met_function c o step) (filter is_claim_of ds)))) }
{
    for demand in demands {
        let taken = is_claim(demand);
        add_met_if(
            alloc, problem, cells, known, step, taken, demand, store, out,
        )?;
    }
    Ok(())
}

// The functions of those that define an element.
fn add_own<'a>(
    alloc: Global,
    problem: &Problem,
    cells: &Cells,
    known: &mut CaseKnown<'a>,
    step: bool,
    element: &Element,
    demands: &'a [Demand],
    store: &mut Store,
    out: &mut Vec<Ref>,
) -> Result<(), AllocError>
    requires cells { AreLiveCells store.old cells.now }
    requires known { AreKnownOfCase store.old problem.now cells.now known.old }
    requires out { AreLive store.old out.old.items }
    ensures keeps { Keeps store.old store.new }
    ensures out { OnOk result (AreLive store.new out.new.items) }
    ensures known { OnOk result (AreKnownOfCase store.new problem.entry.now cells.now known.new) }
    ensures adds { OnOk result (OfCases problem.entry.now (λ c. (o : Arrangement) → AreCellsOf c o store.old problem.entry.now cells.now → (x : AbsElement) → AreElements c (x ∷ []) (element.now ∷ []) → (ds : List Demanded) → AreDemands c ds demands.now → AddsFunctions store.old store.new out.old.items out.new.items (map (met_function c o step) (those_of ds x)))) }
{
    for demand in demands {
        let taken = defines(element, demand);
        add_met_if(
            alloc, problem, cells, known, step, taken, demand, store, out,
        )?;
    }
    Ok(())
}

// Where a demand is met too, if it is taken.
fn met_too<'a>(
    alloc: Global,
    problem: &Problem,
    cells: &Cells,
    known: &mut CaseKnown<'a>,
    step: bool,
    taken: bool,
    demand: &'a Demand,
    others: Ref,
    store: &mut Store,
) -> Result<Ref, AllocError>
    requires cells { AreLiveCells store.old cells.now }
    requires known { AreKnownOfCase store.old problem.now cells.now known.old }
    requires others { IsLive store.old others }
    ensures keeps { Keeps store.old store.new }
    ensures live { IfOk result (λ r. IsLive store.new r) }
    ensures known { IfOk result (λ r. AreKnownOfCase store.new problem.entry.now cells.now known.new) }
    ensures means { IfOk result (λ r. OfCases problem.entry.now (λ c. (o : Arrangement) → AreCellsOf c o store.old problem.entry.now cells.now → (d : Demanded) → AreDemands c (d ∷ []) (demand.now ∷ []) → (a : ℕ → Bool) → table store.new r a ≡ (table store.old others a && (if taken then met_function c o step d a else true)))) }
{
    if taken {
        let met = met_at(alloc, problem, cells, known, step, demand, store)?;
        let r = and(alloc, store, others, met)?;
        return Ok(r);
    }
    Ok(others)
}

// Where all demands that define an element are met.
fn own_met<'a>(
    alloc: Global,
    problem: &Problem,
    cells: &Cells,
    known: &mut CaseKnown<'a>,
    step: bool,
    element: &Element,
    demands: &'a [Demand],
    store: &mut Store,
) -> Result<Ref, AllocError>
    requires cells { AreLiveCells store.old cells.now }
    requires known { AreKnownOfCase store.old problem.now cells.now known.old }
    ensures keeps { Keeps store.old store.new }
    ensures live { IfOk result (λ r. IsLive store.new r) }
    ensures known { IfOk result (λ r. AreKnownOfCase store.new problem.entry.now cells.now known.new) }
    ensures means { IfOk result (λ r. OfCases problem.entry.now (λ c. (o : Arrangement) → AreCellsOf c o store.old problem.entry.now cells.now → (x : AbsElement) → AreElements c (x ∷ []) (element.now ∷ []) → (ds : List Demanded) → AreDemands c ds demands.now → (a : ℕ → Bool) → table store.new r a ≡ list_all (λ d. met_function c o step d a) (those_of ds x))) }
{
    let mut r = store.constant(true);
    for demand in demands {
        let taken = defines(element, demand);
        r = met_too(alloc, problem, cells, known, step, taken, demand, r, store)?;
    }
    Ok(r)
}

// The function of an element: its code is that of a value, and its definition that holds now is met.
fn element_at<'a>(
    alloc: Global,
    problem: &'a Problem,
    cells: &Cells,
    known: &mut CaseKnown<'a>,
    step: bool,
    places: &[u16],
    element: &Element,
    store: &mut Store,
) -> Result<Ref, AllocError>
    requires cells { AreLiveCells store.old cells.now }
    requires known { AreKnownOfCase store.old problem.now cells.now known.old }
    requires width { length places.now ≡ bits_of_family problem.now.families problem.now.lists problem.now.types element.now.family }
    requires places { AreWithin store.old places.now }
    ensures keeps { Keeps store.old store.new }
    ensures live { IfOk result (λ r. IsLive store.new r) }
    ensures known { IfOk result (λ r. AreKnownOfCase store.new problem.entry.now cells.now known.new) }
    ensures means { IfOk result (λ r. OfCases problem.entry.now (λ c. (o : Arrangement) → AreCellsOf c o store.old problem.entry.now cells.now → (x : AbsElement) → AreElements c (x ∷ []) (element.now ∷ []) → (bit : ℕ) → ArePlaces o.order bit places.now → table store.new r ≡ element_function c o step (record { element = x; bit = bit }))) }
{
    let value = value_at(alloc, problem, store, step, places, element.family)?;
    let demands = problem.now.as_slice();
    let met = own_met(alloc, problem, cells, known, step, element, demands, store)?;
    let r = and(alloc, store, value, met)?;
    Ok(r)
}

// It is an element's turn.
fn is_its_turn(
    alloc: Global,
    problem: &Problem,
    demands: &[Demand],
    turn: Turn,
    element: &Element,
) -> Result<bool, AllocError>
    ensures { IfOk result (λ taken. OfCases problem.entry.now (λ c. (x : AbsElement) → AreElements c (x ∷ []) (element.now ∷ []) → (ds : List Demanded) → AreDemands c ds demands.now → (bit : ℕ) → taken ≡ is_turn ds turn (record { element = x; bit = bit }))) }
{
    match turn {
        Turn::All => Ok(true),
        Turn::Moving => {
            let moves = moves(alloc, problem, demands, element)?;
            Ok(moves)
        }
        Turn::Others => {
            let moves = moves(alloc, problem, demands, element)?;
            Ok(!moves)
        }
    }
}

// One of these elements.
fn is_among(element: &Element, wires: &[Element]) -> bool
    ensures { result ≡ list_any (same_element element.now) wires.now }
{
    for wire in wires {
        if is_same(element, wire) {
            return true;
        }
    }
    false
}

// It is an element's turn, by the demands of now, and it is no wire.
fn is_taken(
    alloc: Global,
    problem: &Problem,
    turn: Turn,
    wires: &[Element],
    element: &Element,
) -> Result<bool, AllocError>
    ensures { IfOk result (λ taken. OfCases problem.entry.now (λ c. (o : Arrangement) → AreElements c (o.determined ++ o.idle) wires.now → (x : AbsElement) → AreElements c (x ∷ []) (element.now ∷ []) → (bit : ℕ) → taken ≡ has_turn o c.problem.now turn (record { element = x; bit = bit }))) }
{
    if is_among(element, wires) {
        return Ok(false);
    }
    let taken = is_its_turn(alloc, problem, problem.now.as_slice(), turn, element)?;
    Ok(taken)
}

// The function of an element, where it is taken.
fn add_element_if<'a>(
    alloc: Global,
    problem: &'a Problem,
    cells: &Cells,
    known: &mut CaseKnown<'a>,
    step: bool,
    taken: bool,
    places: &[u16],
    element: &Element,
    store: &mut Store,
    out: &mut Vec<Ref>,
) -> Result<(), AllocError>
    requires cells { AreLiveCells store.old cells.now }
    requires known { AreKnownOfCase store.old problem.now cells.now known.old }
    requires width { length places.now ≡ bits_of_family problem.now.families problem.now.lists problem.now.types element.now.family }
    requires places { AreWithin store.old places.now }
    requires out { AreLive store.old out.old.items }
    ensures keeps { Keeps store.old store.new }
    ensures out { OnOk result (AreLive store.new out.new.items) }
    ensures known { OnOk result (AreKnownOfCase store.new problem.entry.now cells.now known.new) }
    ensures adds { OnOk result (OfCases problem.entry.now (λ c. (o : Arrangement) → AreCellsOf c o store.old problem.entry.now cells.now → (x : AbsElement) → AreElements c (x ∷ []) (element.now ∷ []) → (bit : ℕ) → ArePlaces o.order bit places.now → AddsFunctions store.old store.new out.old.items out.new.items (if taken then element_function c o step (record { element = x; bit = bit }) ∷ [] else []))) }
{
    if taken {
        let r = element_at(alloc, problem, cells, known, step, places, element, store)?;
        out.push(r)?;
        return Ok(());
    }
    Ok(())
}

/// The functions of the elements whose turn it is, by the demands of now, but for the wires, which have none. The bits of the elements have these places.
pub(crate) fn add_elements<'a>(
    alloc: Global,
    problem: &'a Problem,
    cells: &Cells,
    known: &mut CaseKnown<'a>,
    step: bool,
    turn: Turn,
    wires: &[Element],
    places: &[u16],
    elements: &[Element],
    store: &mut Store,
    out: &mut Vec<Ref>,
) -> Result<(), AllocError>
    requires cells { AreLiveCells store.old cells.now }
    requires known { AreKnownOfCase store.old problem.now cells.now known.old }
    requires room { bits_of_elements problem.now.families problem.now.lists problem.now.types elements.now ≤ length places.now }
    requires places { AreWithin store.old places.now }
    requires out { AreLive store.old out.old.items }
    ensures keeps { Keeps store.old store.new }
    ensures out { OnOk result (AreLive store.new out.new.items) }
    ensures known { OnOk result (AreKnownOfCase store.new problem.entry.now cells.now known.new) }
    ensures adds { OnOk result (OfCases problem.entry.now (λ c. (o : Arrangement) → AreCellsOf c o store.old problem.entry.now cells.now → AreElements c (o.determined ++ o.idle) wires.now → (xs : List AbsElement) → AreElements c xs elements.now → (bit : ℕ) → ArePlaces o.order bit places.now → AddsFunctions store.old store.new out.old.items out.new.items (map (element_function c o step) (filter (has_turn o c.problem.now turn) (slots_from c.problem.world bit xs))))) }
{
    let _ = store.vars();
    let Some((element, others)) = elements.split_first() else {
        return Ok(());
    };
    let taken = is_taken(alloc, problem, turn, wires, element)?;
    let (own, behind) = places.split_at(width(problem, element.family) as usize);
    add_element_if(
        alloc, problem, cells, known, step, taken, own, element, store, out,
    )?;
    add_elements(
        alloc, problem, cells, known, step, turn, wires, behind, others, store, out,
    )?;
    Ok(())
}

// The functions of the demands of before that define an element, where it is taken.
fn add_own_if<'a>(
    alloc: Global,
    problem: &'a Problem,
    cells: &Cells,
    known: &mut CaseKnown<'a>,
    taken: bool,
    element: &Element,
    store: &mut Store,
    out: &mut Vec<Ref>,
) -> Result<(), AllocError>
    requires cells { AreLiveCells store.old cells.now }
    requires known { AreKnownOfCase store.old problem.now cells.now known.old }
    requires out { AreLive store.old out.old.items }
    ensures keeps { Keeps store.old store.new }
    ensures out { OnOk result (AreLive store.new out.new.items) }
    ensures known { OnOk result (AreKnownOfCase store.new problem.entry.now cells.now known.new) }
    ensures adds { OnOk result (OfCases problem.entry.now (λ c. (o : Arrangement) → AreCellsOf c o store.old problem.entry.now cells.now → (x : AbsElement) → AreElements c (x ∷ []) (element.now ∷ []) → AddsFunctions store.old store.new out.old.items out.new.items (map (met_step c o) (if taken then those_of c.problem.before x else [])))) }
{
    if taken {
        let demands = problem.before.as_slice();
        add_own(
            alloc, problem, cells, known, true, element, demands, store, out,
        )?;
        return Ok(());
    }
    Ok(())
}

/// Those of the elements whose turn it is, by the demands of before: in a step.
pub(crate) fn add_before<'a>(
    alloc: Global,
    problem: &'a Problem,
    cells: &Cells,
    known: &mut CaseKnown<'a>,
    turn: Turn,
    elements: &[Element],
    store: &mut Store,
    out: &mut Vec<Ref>,
) -> Result<(), AllocError>
    requires cells { AreLiveCells store.old cells.now }
    requires known { AreKnownOfCase store.old problem.now cells.now known.old }
    requires out { AreLive store.old out.old.items }
    ensures keeps { Keeps store.old store.new }
    ensures out { OnOk result (AreLive store.new out.new.items) }
    ensures known { OnOk result (AreKnownOfCase store.new problem.entry.now cells.now known.new) }
    ensures adds { OnOk result (OfCases problem.entry.now (λ c. (o : Arrangement) → AreCellsOf c o store.old problem.entry.now cells.now → (xs : List AbsElement) → AreElements c xs elements.now → (bit : ℕ) → AddsFunctions store.old store.new out.old.items out.new.items (map (met_step c o) (flat_map (λ (slot : Slot). those_of c.problem.before slot.element) (filter (is_turn c.problem.before turn) (slots_from c.problem.world bit xs)))))) }
{
    let Some((element, others)) = elements.split_first() else {
        return Ok(());
    };
    let taken = is_its_turn(alloc, problem, problem.before.as_slice(), turn, element)?;
    add_own_if(alloc, problem, cells, known, taken, element, store, out)?;
    add_before(alloc, problem, cells, known, turn, others, store, out)?;
    Ok(())
}
