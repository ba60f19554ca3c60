//! Paths of a case as abstract states: from the rings that a search found, a shortest violating path.
//!
//! For verdicts. `smv_ring_paths` goes back through the rings; the bits of each of its states are brought from their places back to the order of the declarations, and `smv_readings` reads
//! them as an abstract state of the problem, in which `smv_complete` works out those elements whose bits say nothing.
#![tactic(auto)]

ghost use Rattle.std.specs.Prelude.{◌≡◌, ℕ, ◌<◌, List, length, map, IfOk};
ghost use Rattle.std.specs.List.{All};
ghost use Rattle.std.specs.Global.{Vec};
ghost use Rattle.bdd_store.specs.declared.Ref.{Ref};
ghost use Rattle.bdd_store.specs.Diagram.{IsLive, Keeps, table};
ghost use Rattle.bdd_ops.specs.Functions.{bit_at};
ghost use Rattle.law_obligations.specs.Sets.{Has};
ghost use Rattle.smv_orders.specs.Places.{ArePlaces};
ghost use Rattle.smv_rings.specs.Lists.{State, IsRel, lists_of};
ghost use Rattle.smv_rings.specs.Paths.{IsViolating};
ghost use Rattle.smv_rings.specs.Ops.{IsOneOf};
ghost use Rattle.smv_search.specs.Runs.{rings_to};
ghost use Rattle.law_obligations.specs.May.{AbsState as Abstract};
ghost use Rattle.law_obligations.specs.CasePaths.{IsShortest};
ghost use Rattle.law_obligations.specs.Cones.{AbsElement};
ghost use Rattle.law_obligations.specs.Readings.{state_bits};
ghost use Rattle.law_arrangements.specs.Arrangements.{view};
ghost use Rattle.law_arrangements.specs.Orders.{wired, IsOrder};
ghost use Rattle.smv_problem.specs.Written.{written_element, written_state};
ghost use Rattle.smv_problem.specs.WellFormed.{IsProblem, OfCases};
ghost use Rattle.smv_ring_paths.specs.BitPaths.{state_of, HasBits};
ghost use Rattle.smv_trace.specs.Wired.{AreWired};

use bdd_store::{Ref, Store};
use smv_complete::work_out;
use smv_core::Seq;
use smv_core::flat::Element;
use smv_orders::{bits_from_places, places_in};
use smv_problem::{AbsState, Problem};
use smv_readings::read_state;
use smv_ring_paths::ring_path;
use smv_rings::Rel;
use std::alloc::{AllocError, Global};

/// A shortest violating path, from the rings that a search found over an order of the bits, with these elements worked out: ring 0 to that before the last state, in order. It has one state more than steps.
pub fn path(
    alloc: Global,
    problem: &Problem,
    rel: &Rel,
    store: &mut Store,
    order: &[u16],
    wires: &[Element],
    rings: &[Ref],
    depth: u32,
) -> Result<Seq<AbsState>, AllocError>
    requires well_formed { IsProblem problem.now }
    requires order { OfCases problem.now (λ c. IsOrder (state_bits c) order.now) }
    requires rel { IsRel store.old rel.now }
    requires lists { OfCases problem.now (AreWired order.now wires.now (lists_of store.old rel.now)) }
    requires live { (r : Ref) → IsOneOf r rings.now → IsLive store.old r }
    requires rings { map (table store.old) rings.now ≡ rings_to (lists_of store.old rel.now) depth }
    requires some { (path : ℕ → State) × IsViolating (lists_of store.old rel.now) depth path }
    requires none { (k : ℕ) → k < depth → (path : ℕ → State) → IsViolating (lists_of store.old rel.now) k path → ⊥ }
    ensures shortest { IfOk result (λ states. OfCases problem.entry.now (λ c. (path : List Abstract) × IsShortest c.problem depth path × (states ≡ map (written_state c) path))) }
    ensures keeps { Keeps store.old store.new }
{
    prove!(rings.len() == depth as usize);
    let places = places_in(alloc, order)?;
    let states = ring_path(alloc, rel, store, rings)?;
    let path = read_states(alloc, problem, places.as_slice(), wires, &states)?;
    Ok(path)
}

// The abstract state that a state over these places is read as, with these elements worked out.
fn read_at(
    alloc: Global,
    problem: &Problem,
    places: &[u16],
    wires: &[Element],
    state: &[bool],
) -> Result<AbsState, AllocError>
    requires well_formed { IsProblem problem.now }
    requires count { OfCases problem.now (λ c. length places.now ≡ state_bits c) }
    requires within { (p : ℕ) → Has places.now p → p < length state.now }
    ensures { IfOk result (λ read. OfCases problem.entry.now (λ c. (order : List ℕ) → ArePlaces order 0 places.now → (xs : List AbsElement) → ((x : AbsElement) → Has xs x → Has c.elements x) → wires.now ≡ map written_element xs → read ≡ written_state c (view c (wired order xs) (bit_at state.now)))) }
{
    let bits = bits_from_places(alloc, places, state)?;
    let mut read = read_state(alloc, problem, bits.as_slice())?;
    work_out(alloc, problem, wires, &mut read)?;
    Ok(read)
}

// The abstract states that states over these places are read as, with these elements worked out.
fn read_states(
    alloc: Global,
    problem: &Problem,
    places: &[u16],
    wires: &[Element],
    states: &[Vec<bool>],
) -> Result<Seq<AbsState>, AllocError>
    requires well_formed { IsProblem problem.now }
    requires count { OfCases problem.now (λ c. length places.now ≡ state_bits c) }
    requires within { (p : ℕ) → Has places.now p → p < length places.now }
    requires have_bits { All (HasBits (length places.now)) states.now }
    ensures { IfOk result (λ path. OfCases problem.entry.now (λ c. (order : List ℕ) → ArePlaces order 0 places.now → (xs : List AbsElement) → ((x : AbsElement) → Has xs x → Has c.elements x) → wires.now ≡ map written_element xs → path ≡ map (λ (state : Vec _). written_state c (view c (wired order xs) (state_of state))) states.now)) }
{
    let mut path = Seq::new(alloc);
    for state in states {
        path.push(read_at(alloc, problem, places, wires, state.as_slice())?)?;
    }
    Ok(path)
}
