// Elements that are tried, one after the other: each is worked out where it is determined, or has its coded cell after all.
ghost use Rattle.std.specs.Prelude.{◌≡◌, ℕ, [], ◌∷◌, ◌++◌, Bool, true, false, List, map, IfOk, IfSome, OnOk};
ghost use Rattle.bdd_store.specs.Diagram.{IsLive, Keeps, table};
ghost use Rattle.law_obligations.specs.Cones.{AbsElement};
ghost use Rattle.law_obligations.specs.Readings.{state_bits as bits_of_case};
ghost use Rattle.law_arrangements.specs.Orders.{arranged, IsOrder};
ghost use Rattle.law_wires.specs.Tries.{IsTry, AreDetermined};
ghost use Rattle.smv_conditions.specs.Offers.{AreOffersMade};
ghost use Rattle.smv_cells.specs.Seen.{IsSeen};
ghost use Rattle.smv_problem.specs.Written.{written_element};
ghost use Rattle.smv_problem.specs.WellFormed.{OfCases};
ghost use Rattle.smv_encode.specs.Encoded.{AreLiveCells, AreCellsOf};
ghost use Rattle.smv_encode.specs.Parts.{AreElements};
ghost use Rattle.smv_wires.specs.Wired.{view_beside};
ghost use Rattle.smv_wires.specs.Tried.{IsUnderWay, AreCellsBeside, AreTried, AreFound};

use crate::coded::add_coded;
use crate::wires::wire_cell;
use bdd_store::{Ref, Store};
use smv_cells::Cell;
use smv_core::flat::Element;
use smv_elements::copied;
use smv_encode::cells::Cells;
use smv_problem::Problem;
use std::alloc::{AllocError, Global};

/// The cells of an element that is determined, of both times.
#[derive(Drop)]
struct WireCells {
    current: Cell<Ref>,
    next: Cell<Ref>,
}

// The cells of the first of these elements, where it is determined at both times.
fn wire_cells(
    alloc: Global,
    problem: &Problem,
    store: &mut Store,
    tried: &[Element],
    cells: &mut Cells,
) -> Result<Option<WireCells>, AllocError>
    requires live { AreLiveCells store.old cells.old }
    ensures keeps { Keeps store.old store.new }
    ensures current { OnOk result (cells.new.current.items ≡ cells.old.current.items) }
    ensures next { OnOk result (cells.new.next.items ≡ cells.old.next.items) }
    ensures made { IfOk result (λ found. IfSome found (λ own. AreOffersMade (IsLive store.new) own.current.values × AreOffersMade (IsLive store.new) own.next.values)) }
    ensures found { IfOk result (λ found. IfSome found (λ own. OfCases problem.entry.now (λ c. (order : List ℕ) (done : List AbsElement) (x : AbsElement) (left : List AbsElement) → tried.now ≡ map written_element (x ∷ left) → IsTry c order done x left → AreCellsBeside c order done (x ∷ left) store.old problem.entry.now cells.old → AreFound c order done x left store.new problem.entry.now (cells.old.current.items ++ own.current ∷ []) (cells.old.next.items ++ own.next ∷ [])))) }
{
    let Some(current) = wire_cell(alloc, problem, store, tried, &mut cells.current)? else {
        return Ok(None);
    };
    let Some(next) = wire_cell(alloc, problem, store, tried, &mut cells.next)? else {
        return Ok(None);
    };
    Ok(Some(WireCells { current, next }))
}

// They are put behind the others, and the element behind those worked out before it.
fn keep_wire(
    alloc: Global,
    element: &Element,
    own: WireCells,
    cells: &mut Cells,
    wires: &mut Vec<Element>,
) -> Result<(), AllocError>
    ensures current { OnOk result (cells.new.current.items ≡ cells.old.current.items ++ own.current ∷ []) }
    ensures next { OnOk result (cells.new.next.items ≡ cells.old.next.items ++ own.next ∷ []) }
    ensures wires { OnOk result (wires.new.items ≡ wires.old.items ++ element.now ∷ []) }
{
    let WireCells { current, next } = own;
    cells.current.push(current)?;
    cells.next.push(next)?;
    let copy = copied(element, alloc)?;
    wires.push(copy)?;
    Ok(())
}

// The coded cells of an element are put behind the others.
fn put_back(
    alloc: Global,
    problem: &Problem,
    store: &mut Store,
    coded: &Cells,
    element: &Element,
    cells: &mut Cells,
) -> Result<(), AllocError>
    requires coded { AreLiveCells store.old coded.now }
    requires live { AreLiveCells store.old cells.old }
    ensures keeps { Keeps store.old store.new }
    ensures live { OnOk result (AreLiveCells store.new cells.new) }
    ensures cells { OnOk result (OfCases problem.entry.now (λ c. (order : List ℕ) → IsOrder (bits_of_case c) order → AreCellsOf c (arranged order) store.old problem.entry.now coded.now → (done : List AbsElement) (x : AbsElement) (left : List AbsElement) → AreElements c (x ∷ []) (element.now ∷ []) → IsUnderWay c done (x ∷ left) → AreCellsBeside c order done (x ∷ left) store.old problem.entry.now cells.old → AreCellsBeside c order done left store.new problem.entry.now cells.new)) }
{
    let current = coded.current.as_slice();
    add_coded(alloc, problem, store, current, element, &mut cells.current)?;
    let next = coded.next.as_slice();
    add_coded(alloc, problem, store, next, element, &mut cells.next)?;
    Ok(())
}

// The first of these elements is worked out, or has its coded cells after all.
fn try_first(
    alloc: Global,
    problem: &Problem,
    store: &mut Store,
    coded: &Cells,
    tried: &[Element],
    element: &Element,
    cells: &mut Cells,
    wires: &mut Vec<Element>,
) -> Result<(), AllocError>
    requires coded { AreLiveCells store.old coded.now }
    requires live { AreLiveCells store.old cells.old }
    ensures keeps { Keeps store.old store.new }
    ensures live { OnOk result (AreLiveCells store.new cells.new) }
    ensures tried { OnOk result (OfCases problem.entry.now (λ c. (order : List ℕ) → IsOrder (bits_of_case c) order → AreCellsOf c (arranged order) store.old problem.entry.now coded.now → (x : AbsElement) (left : List AbsElement) → element.now ≡ written_element x → tried.now ≡ map written_element (x ∷ left) → AreTried c order (x ∷ left) store.old problem.entry.now wires.old.items cells.old → AreTried c order left store.new problem.entry.now wires.new.items cells.new)) }
{
    match wire_cells(alloc, problem, store, tried, cells)? {
        Some(own) => {
            keep_wire(alloc, element, own, cells, wires)?;
            Ok(())
        }
        None => {
            put_back(alloc, problem, store, coded, element, cells)?;
            Ok(())
        }
    }
}

/// Each of these elements is worked out, or has its coded cells.
pub(crate) fn try_all(
    alloc: Global,
    problem: &Problem,
    store: &mut Store,
    coded: &Cells,
    tried: &[Element],
    cells: &mut Cells,
    wires: &mut Vec<Element>,
) -> Result<(), AllocError>
    requires coded { AreLiveCells store.old coded.now }
    requires live { AreLiveCells store.old cells.old }
    ensures keeps { Keeps store.old store.new }
    ensures live { OnOk result (AreLiveCells store.new cells.new) }
    ensures tried { OnOk result (OfCases problem.entry.now (λ c. (order : List ℕ) → IsOrder (bits_of_case c) order → AreCellsOf c (arranged order) store.old problem.entry.now coded.now → (left : List AbsElement) → tried.now ≡ map written_element left → AreTried c order left store.old problem.entry.now wires.old.items cells.old → AreTried c order [] store.new problem.entry.now wires.new.items cells.new)) }
{
    let Some((element, others)) = tried.split_first() else {
        return Ok(());
    };
    try_first(alloc, problem, store, coded, tried, element, cells, wires)?;
    try_all(alloc, problem, store, coded, others, cells, wires)?;
    Ok(())
}
