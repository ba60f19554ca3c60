// The circuit of a case: a frame is a step, and the first one the first state.
ghost use Rattle.std.specs.Prelude.{◌≡◌, ◌*◌, ◌<◌, ◌&&◌, ℕ, Bool, IfOk, map};
ghost use Rattle.bdd_store.specs.Diagram.{AreLive, IsLive, table};
ghost use Rattle.smv_rings.specs.Lists.{IsRel, lists_of, all_of as all_of_list};
ghost use Rattle.smv_circuits.specs.Circuits.{IsCircuit, IsIn, value};
ghost use Rattle.smv_circuits.specs.Readings.{first_gate, read_by};
ghost use Rattle.smv_circuits.specs.Frames.{Becomes, IsFrames, Tells};

use crate::circuit::{Circuit, Frames, Literal};
use crate::gates::{Reading, all_of, input, latch, literal_of};
use bdd_store::{Ref, Store};
use smv_rings::Rel;
use std::alloc::{AllocError, Global};
use std::collections::HashMap;

// What holds of a new state, a first one or that of a step: that it is kept, and that it violates the target.
#[derive(Clone, Copy)]
struct NewState {
    goes: Literal,
    breaks: Literal,
}

// The literals of what holds of a new state, by functions that are read alike.
fn told(
    alloc: Global,
    store: &Store,
    circuit: &mut Circuit,
    reading: Reading,
    now: &[Ref],
    before: &[Ref],
    target: Ref,
) -> Result<NewState, AllocError>
    requires now { AreLive store.now now.now }
    requires before { AreLive store.now before.now }
    requires target { IsLive store.now target }
    requires bits { reading.bits < 65536 }
    requires vars { store.now.vars ≡ 2 * reading.bits }
    requires first { circuit.old.first ≡ first_gate reading.bits }
    requires circuit { IsCircuit circuit.old.first circuit.old.gates.items }
    ensures { IfOk result (λ told. Tells circuit.old.first circuit.old.gates.items circuit.new.first circuit.new.gates.items told.goes told.breaks (λ a. all_of_list (map (table store.now) now.now) (read_by reading.bits reading.step a) && all_of_list (map (table store.now) before.now) (read_by reading.bits reading.step a)) (λ a. all_of_list (map (table store.now) now.now) (read_by reading.bits reading.step a) && table store.now target (read_by reading.bits reading.step a))) }
{
    let mut known = HashMap::new(alloc);
    let met = all_of(store, circuit, reading, &mut known, now)?;
    let kept = all_of(store, circuit, reading, &mut known, before)?;
    let violated = literal_of(store, circuit, reading, &mut known, target)?;
    let goes = circuit.and(met, kept)?;
    let breaks = circuit.and(met, violated)?;
    Ok(NewState { goes, breaks })
}

// A circuit without gates, for states of so many bits.
fn without_gates(alloc: Global, bits: u32) -> Circuit
    requires { bits < 65536 }
    ensures first { result.first ≡ first_gate bits }
    ensures circuit { IsCircuit result.first result.gates.items }
{
    Circuit::new(alloc, 2 * bits + 2)
}

// What the latches become: the new state under a test, and else 0.
fn becomes(
    alloc: Global,
    circuit: &mut Circuit,
    bits: u32,
    test: Literal,
) -> Result<Vec<Literal>, AllocError>
    requires bits { bits < 65536 }
    requires first { circuit.old.first ≡ first_gate bits }
    requires circuit { IsCircuit circuit.old.first circuit.old.gates.items }
    requires test { IsIn circuit.old.first circuit.old.gates.items test }
    ensures { IfOk result (λ next. Becomes circuit.old.first circuit.old.gates.items circuit.new.first circuit.new.gates.items (λ a. value circuit.old.first circuit.old.gates.items a test) bits next.items) }
{
    let mut next = Vec::new(alloc);
    for bit in 0..bits {
        let literal = circuit.and(test, input(bit))?;
        next.push(literal)?;
    }
    Ok(next)
}

/// The circuit of the lists of a case. Where the new state keeps all demands it becomes the old one; else all begins anew. It shows that the target is violated in a new state that keeps the demands of now.
pub(crate) fn frames_of(alloc: Global, rel: &Rel, store: &Store) -> Result<Frames, AllocError>
    requires { IsRel store.now rel.now }
    ensures bits { IfOk result (λ f. f.bits ≡ rel.now.bits) }
    ensures few { IfOk result (λ f. f.bits < 65536) }
    ensures frames { IfOk result (λ f. IsFrames (lists_of store.now rel.now) f.gates.items f.next.items f.started f.broken) }
{
    let bits = u32::from(rel.bits);
    let is_started = latch(bits, bits);
    let mut circuit = without_gates(alloc, bits);
    let first = told(
        alloc,
        store,
        &mut circuit,
        Reading { bits, step: false },
        rel.now_first.as_slice(),
        rel.before_first.as_slice(),
        rel.broken_first,
    )?;
    let step = told(
        alloc,
        store,
        &mut circuit,
        Reading { bits, step: true },
        rel.now_step.as_slice(),
        rel.before_step.as_slice(),
        rel.broken_step,
    )?;
    let started = circuit.choice(is_started, step.goes, first.goes)?;
    let broken = circuit.choice(is_started, step.breaks, first.breaks)?;
    let next = becomes(alloc, &mut circuit, bits, started)?;
    Ok(Frames {
        bits,
        gates: circuit.gates,
        next,
        started,
        broken,
    })
}
