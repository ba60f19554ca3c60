// The cells of both times.
ghost use Rattle.std.specs.Prelude.{◌≡◌, ◌≤◌, ℕ, List, [], length, IfOk};
ghost use Rattle.bdd_store.specs.Diagram.{Keeps};
ghost use Rattle.bdd_codes.specs.Codes.{AreWithin};
ghost use Rattle.smv_readings.specs.StateBits.{bits_in};
ghost use Rattle.smv_problem.specs.WellFormed.{IsProblem, OfCases};
ghost use Rattle.smv_orders.specs.Places.{ArePlaces};
ghost use Rattle.law_arrangements.specs.Orders.{arranged};
ghost use Rattle.smv_encode.specs.Encoded.{AreLiveCells, AreCellsOf, AreCodedCells};

use crate::coded::cells_at;
use bdd_store::{Ref, Store};
use smv_cells::Cell;
use smv_conditions::chances::Chances;
use smv_outcomes::{Known, nothing_known};
use smv_problem::Problem;
use std::alloc::{AllocError, Global};

/// What each element of a problem is in the state of the current bits, and in that of the next ones.
#[derive(Drop)]
pub struct Cells {
    pub current: Vec<Cell<Ref>>,
    pub next: Vec<Cell<Ref>>,
}

/// What is known of the expressions of a case in the state of the current bits, and in that of the next ones.
#[derive(Drop)]
pub struct CaseKnown<'a> {
    pub current: Known<'a, Chances<Ref>>,
    pub next: Known<'a, Chances<Ref>>,
}

/// Nothing yet.
pub(crate) fn nothing_known_of_case<'a>(alloc: Global) -> CaseKnown<'a>
    ensures current { result.current.entries.items ≡ [] }
    ensures next { result.next.entries.items ≡ [] }
{
    CaseKnown {
        current: nothing_known(alloc),
        next: nothing_known(alloc),
    }
}

/// The cells of a problem, by the places of all bits.
pub fn cells_of(
    alloc: Global,
    problem: &Problem,
    store: &mut Store,
    places: &[u16],
) -> Result<Cells, AllocError>
    requires well_formed { IsProblem problem.now }
    requires room { bits_in problem.now ≤ length places.now }
    requires places { AreWithin store.old places.now }
    ensures keeps { Keeps store.old store.new }
    ensures live { IfOk result (λ cells. AreLiveCells store.new cells) }
    ensures cells { IfOk result (λ cells. OfCases problem.entry.now (λ c. (order : List ℕ) → ArePlaces order 0 places.now → AreCellsOf c (arranged order) store.new problem.entry.now cells)) }
    ensures coded { IfOk result (λ cells. OfCases problem.entry.now (λ c. (order : List ℕ) → ArePlaces order 0 places.now → AreCodedCells c order store.new cells)) }
{
    let current = cells_at(alloc, problem, store, false, places)?;
    let next = cells_at(alloc, problem, store, true, places)?;
    Ok(Cells { current, next })
}
