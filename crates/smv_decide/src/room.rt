//! The functions of a problem are made in a store that is bounded meanwhile: nothing else bounds them, since they come before any search.
ghost use Rattle.std.specs.Prelude.{◌≡◌, ◌*◌, IfOk, IfSome, IsNone};
ghost use Rattle.smv_rings.specs.Lists.{IsRel, lists_of};
ghost use Rattle.law_obligations.specs.Readings.{state_bits as bits_of_case};
ghost use Rattle.law_reports.specs.CaseLists.{IsListsOf};
ghost use Rattle.law_arrangements.specs.Orders.{IsOrder};
ghost use Rattle.smv_problem.specs.WellFormed.{IsProblem, OfCases};
ghost use Rattle.smv_trace.specs.Wired.{AreWired};
ghost use Rattle.smv_decide.specs.Tries.{AreCandidates};

use bdd_store::Store;
use smv_core::flat::Element;
use smv_encode::relations;
use smv_problem::Problem;
use smv_rings::Rel;
use smv_wires::{Wired, relations_wired};
use std::alloc::{AllocError, Global};

/// The functions of a case may take so many nodes, whatever the budget is.
const ROOM: u32 = 500_000;

/// And so many times the budget of nodes besides.
const TIMES: u32 = 4;

// How many nodes a store may hold while the functions of a case are made that is decided under a budget of nodes.
fn room_for(nodes: u32) -> u32 {
    nodes.saturating_mul(TIMES).saturating_add(ROOM)
}

/// The functions of a problem whose bits stand in the order of the declarations; want of memory where there is no room for them under this budget of nodes.
pub fn relations_in_room(
    alloc: Global,
    problem: &Problem,
    store: &mut Store,
    nodes: u32,
) -> Result<Rel, AllocError>
    requires well_formed { IsProblem problem.now }
    requires vars { OfCases problem.now (λ c. store.old.vars ≡ 2 * bits_of_case c) }
    ensures rel { IfOk result (λ rel. IsRel store.new rel) }
    ensures lists { IfOk result (λ rel. OfCases problem.entry.now (λ c. IsListsOf c (lists_of store.new rel))) }
{
    store.hold_at_most(room_for(nodes));
    let rel = relations(alloc, problem, store)?;
    store.hold_at_most(u32::MAX);
    Ok(rel)
}

/// The same, or nothing where there is no room.
pub(crate) fn relations_within(
    alloc: Global,
    problem: &Problem,
    store: &mut Store,
    nodes: u32,
) -> Result<Option<Rel>, AllocError>
    requires well_formed { IsProblem problem.now }
    requires vars { OfCases problem.now (λ c. store.old.vars ≡ 2 * bits_of_case c) }
    ensures rel { IfOk result (λ rel. IfSome rel (IsRel store.new)) }
    ensures lists { IfOk result (λ rel. IfSome rel (λ rel. OfCases problem.entry.now (λ c. IsListsOf c (lists_of store.new rel)))) }
{
    let room = room_for(nodes);
    store.hold_at_most(room);
    match relations(alloc, problem, store) {
        Ok(rel) => {
            store.hold_at_most(u32::MAX);
            Ok(Some(rel))
        }
        Err(_) => {
            want_of_room(store, room)?;
            Ok(None)
        }
    }
}

/// The functions of a problem over an order of its bits, where those of these elements are worked out that can be, or nothing where there is no room for them under this budget of nodes.
pub(crate) fn wired_within(
    alloc: Global,
    problem: &Problem,
    order: &[u16],
    candidates: &[Element],
    store: &mut Store,
    nodes: u32,
) -> Result<Option<Wired>, AllocError>
    requires well_formed { IsProblem problem.now }
    requires order { OfCases problem.now (λ c. IsOrder (bits_of_case c) order.now) }
    requires candidates { OfCases problem.now (AreCandidates candidates.now) }
    requires vars { OfCases problem.now (λ c. store.old.vars ≡ 2 * bits_of_case c) }
    ensures rel { IfOk result (λ made. IfSome made (λ made. IsRel store.new made.rel)) }
    ensures lists { IfOk result (λ made. IfSome made (λ made. OfCases problem.entry.now (AreWired order.now made.wires.items (lists_of store.new made.rel)))) }
{
    let room = room_for(nodes);
    store.hold_at_most(room);
    match relations_wired(alloc, problem, order, candidates, store) {
        Ok(made) => {
            store.hold_at_most(u32::MAX);
            Ok(Some(made))
        }
        Err(_) => {
            want_of_room(store, room)?;
            Ok(None)
        }
    }
}

// Want of memory, unless the store is full.
fn want_of_room(store: &Store, room: u32) -> Result<(), AllocError> {
    if store.held() < room as usize {
        return Err(AllocError);
    }
    Ok(())
}
