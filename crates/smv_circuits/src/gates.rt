// Gates of functions: each bead of a diagram is a choice by its variable.
ghost use Rattle.std.specs.Prelude.{◌≡◌, ◌+◌, ◌*◌, ◌<◌, ◌≤◌, ℕ, Bool, false, IfOk, OnOk, map};
ghost use Rattle.std.specs.HashMap.{get};
ghost use Rattle.bdd_store.specs.Diagram.{AreLive, IsLive, table};
ghost use Rattle.bdd_ops.specs.Memo.{same_one};
ghost use Rattle.smv_rings.specs.Lists.{all_of as all_of_list};
ghost use Rattle.smv_circuits.specs.Circuits.{Adds, IsCircuit};
ghost use Rattle.smv_circuits.specs.Readings.{AreKnown, first_gate, place_of, read_by};

use crate::circuit::{Circuit, Literal, constant, positive};
use bdd_store::{Ref, Store};
use std::alloc::AllocError;
use std::collections::HashMap;

/// How the variables of functions are read: those of a step, where each state has so many bits, or those of a first state, which is the new one.
#[derive(Clone, Copy)]
pub(crate) struct Reading {
    pub bits: u32,
    pub step: bool,
}

/// The input of a bit of the new state.
pub(crate) fn input(bit: u32) -> Literal
    requires { bit < 65536 }
    ensures variable { result.variable ≡ bit + 1 }
    ensures inverted { result.inverted ≡ false }
{
    positive(bit + 1)
}

/// The latch of a bit of the old state, where a state has so many; behind the last one stands the latch of `started`.
pub(crate) fn latch(bits: u32, bit: u32) -> Literal
    requires bits { bits < 65536 }
    requires bit { bit < 65536 }
    ensures variable { result.variable ≡ bits + 1 + bit }
    ensures inverted { result.inverted ≡ false }
{
    positive(bits + 1 + bit)
}

// The literal of a variable.
fn literal_at(reading: Reading, var: u32) -> Literal
    requires bits { reading.bits < 65536 }
    requires var { var < 2 * reading.bits }
    ensures variable { result.variable ≡ place_of reading.bits reading.step var }
    ensures inverted { result.inverted ≡ false }
{
    if reading.step && var % 2 == 0 {
        latch(reading.bits, var / 2)
    } else {
        input(var / 2)
    }
}

// The literal of a function that was walked.
fn literal_in(known: &HashMap<Ref, Literal>, f: Ref) -> Option<Literal>
    ensures { result ≡ get same_one known.now f }
{
    known.get(&f).copied()
}

/// The literal of a function, whose gates are put behind those that stand. A function that has its literal is not walked again.
pub(crate) fn literal_of(
    store: &Store,
    circuit: &mut Circuit,
    reading: Reading,
    known: &mut HashMap<Ref, Literal>,
    f: Ref,
) -> Result<Literal, AllocError>
    requires live { IsLive store.now f }
    requires bits { reading.bits < 65536 }
    requires vars { store.now.vars ≡ 2 * reading.bits }
    requires first { circuit.old.first ≡ first_gate reading.bits }
    requires circuit { IsCircuit circuit.old.first circuit.old.gates.items }
    requires known { AreKnown store.now reading.bits reading.step circuit.old.first circuit.old.gates.items known.old }
    ensures adds { IfOk result (λ made. Adds circuit.old.first circuit.old.gates.items circuit.new.first circuit.new.gates.items made (λ a. table store.now f (read_by reading.bits reading.step a))) }
    ensures known { OnOk result (AreKnown store.now reading.bits reading.step circuit.new.first circuit.new.gates.items known.new) }
{
    if let Some(value) = store.is_constant(f) {
        return Ok(constant(value));
    }
    if let Some(literal) = literal_in(known, f) {
        return Ok(literal);
    }
    let low = literal_of(store, circuit, reading, known, store.low(f))?;
    let high = literal_of(store, circuit, reading, known, store.high(f))?;
    let test = literal_at(reading, store.var(f));
    let literal = circuit.choice(test, high, low)?;
    known.insert(f, literal)?;
    Ok(literal)
}

/// The literal of the conjunction of functions.
pub(crate) fn all_of(
    store: &Store,
    circuit: &mut Circuit,
    reading: Reading,
    known: &mut HashMap<Ref, Literal>,
    functions: &[Ref],
) -> Result<Literal, AllocError>
    requires live { AreLive store.now functions.now }
    requires bits { reading.bits < 65536 }
    requires vars { store.now.vars ≡ 2 * reading.bits }
    requires first { circuit.old.first ≡ first_gate reading.bits }
    requires circuit { IsCircuit circuit.old.first circuit.old.gates.items }
    requires known { AreKnown store.now reading.bits reading.step circuit.old.first circuit.old.gates.items known.old }
    ensures adds { IfOk result (λ made. Adds circuit.old.first circuit.old.gates.items circuit.new.first circuit.new.gates.items made (λ a. all_of_list (map (table store.now) functions.now) (read_by reading.bits reading.step a))) }
    ensures known { OnOk result (AreKnown store.now reading.bits reading.step circuit.new.first circuit.new.gates.items known.new) }
{
    let Some((f, others)) = functions.split_first() else {
        return Ok(constant(true));
    };
    let product = all_of(store, circuit, reading, known, others)?;
    let literal = literal_of(store, circuit, reading, known, *f)?;
    let made = circuit.and(literal, product)?;
    Ok(made)
}
