// Sets of states and of steps, and one state of a set.
ghost use Rattle.std.specs.Prelude.{◌≡◌, ◌↔◌, ℕ, ◌+◌, ◌*◌, ◌<◌, ◌≤◌, true, ◌&&◌, IfOk, [], map, length};
ghost use Rattle.bdd_store.specs.declared.Ref.{Ref};
ghost use Rattle.bdd_store.specs.Diagram.{IsLive, AreLive, Keeps, table, first_var};
ghost use Rattle.bdd_ops.specs.Functions.{bit_at};
ghost use Rattle.smv_rings.specs.Lists.{State, both, at, all_of, IsCurrent, IsRel};
ghost use Rattle.smv_rings.specs.Schedule.{left_by, after};
ghost use Rattle.smv_rings.specs.Ops.{IsOneOf, act_of, acts_of, refs_in, refs_in_all, FitsAct, FitsActs};
ghost use Rattle.smv_ring_paths.specs.Steps.{IsStep};

use bdd_ops::{and, pick};
use bdd_store::{Ref, Store};
use smv_rings::{Op, Rel, apply, plan};
use std::alloc::{AllocError, Global};

/// The conjunction of a function with those of a list.
pub(crate) fn all_with(
    alloc: Global,
    store: &mut Store,
    f: Ref,
    fs: &[Ref],
) -> Result<Ref, AllocError>
    requires f { IsLive store.old f }
    requires fs { AreLive store.old fs.now }
    ensures live { IfOk result (λ r. IsLive store.new r) }
    ensures table { IfOk result (λ r. (a : _) → table store.new r a ≡ (table store.old f a && all_of (map (table store.old) fs.now) a)) }
    ensures keeps { Keeps store.old store.new }
{
    let mut all = f;
    for f in fs {
        all = and(alloc, store, all, *f)?;
    }
    Ok(all)
}

// The steps to the state of these bits.
fn steps_to(store: &mut Store, next: &[bool]) -> Result<Ref, AllocError>
    requires vars { store.old.vars ≡ 2 * length next.now }
    ensures live { IfOk result (λ r. IsLive store.new r) }
    ensures table { IfOk result (λ r. (a : ℕ → _) → (table store.new r a ≡ true) ↔ ((b : ℕ) → b < length next.now → a (2 * b + 1) ≡ bit_at next.now b)) }
    ensures keeps { Keeps store.old store.new }
{
    let mut steps = store.constant(true);
    let mut left = store.vars() / 2;
    while left > 0 {
        left -= 1;
        steps = with_bit(store, 2 * left + 1, next[left as usize], steps)?;
    }
    Ok(steps)
}

// The function where the variable has this value, and 0 elsewhere.
fn with_bit(store: &mut Store, var: u32, value: bool, f: Ref) -> Result<Ref, AllocError>
    requires var_in { var < store.old.vars }
    requires live { IsLive store.old f }
    requires later { var < first_var store.old f }
    ensures live { IfOk result (λ r. IsLive store.new r) }
    ensures first { IfOk result (λ r. var ≤ first_var store.new r) }
    ensures table { IfOk result (λ r. (a : ℕ → _) → (table store.new r a ≡ true) ↔ ((a var ≡ value) × (table store.old f a ≡ true))) }
    ensures keeps { Keeps store.old store.new }
{
    let none = store.constant(false);
    if value {
        return store.node(var, none, f);
    }
    store.node(var, f, none)
}

// The current bits of a step in a set of steps that is not empty.
fn one_of(alloc: Global, store: &Store, steps: Ref, bits: usize) -> Result<Vec<bool>, AllocError>
    requires live { IsLive store.now steps }
    requires vars { store.now.vars ≡ 2 * bits }
    requires some { (a : ℕ → _) × (table store.now steps a ≡ true) }
    ensures length { IfOk result (λ state. length state.items ≡ bits) }
    ensures value { IfOk result (λ state. (next : State) × (table store.now steps (both (bit_at state.items) next) ≡ true)) }
{
    let values = pick(alloc, store, steps)?.unwrap();
    let mut state = Vec::new(alloc);
    for bit in 0..bits {
        state.push(values[2 * bit])?;
    }
    Ok(state)
}

// What an operation leaves of a set.
fn leave(alloc: Global, store: &mut Store, p: Ref, op: Op) -> Result<Ref, AllocError>
    requires live { IsLive store.old p }
    requires refs { (r : Ref) → IsOneOf r (refs_in op) → IsLive store.old r }
    requires fits { FitsAct store.old.vars (table store.old p) (act_of store.old 1 op) }
    ensures live { IfOk result (λ r. IsLive store.new r) }
    ensures table { IfOk result (λ r. table store.new r ≡ left_by (act_of store.old 1 op) (table store.old p)) }
    ensures keeps { Keeps store.old store.new }
{
    if let Op::Look(_) = op {
        return Ok(p);
    }
    apply(alloc, store, p, op)
}

// What operations leave of a set, one after the other.
fn leave_all(alloc: Global, store: &mut Store, start: Ref, ops: &[Op]) -> Result<Ref, AllocError>
    requires start { IsLive store.old start }
    requires refs { (r : Ref) → IsOneOf r (refs_in_all ops.now) → IsLive store.old r }
    requires fits { FitsActs store.old.vars (table store.old start) (acts_of store.old 1 ops.now) }
    ensures live { IfOk result (λ r. IsLive store.new r) }
    ensures table { IfOk result (λ r. table store.new r ≡ after (table store.old start) (acts_of store.old 1 ops.now)) }
    ensures keeps { Keeps store.old store.new }
{
    let mut p = start;
    for op in ops {
        p = leave(alloc, store, p, *op)?;
    }
    Ok(p)
}

// The lists in which these functions alone hold in a step.
fn steps_alone(alloc: Global, store: &Store, fs: &[Ref], bits: u16) -> Result<Rel, AllocError>
    requires live { AreLive store.now fs.now }
    requires vars { store.now.vars ≡ 2 * bits }
    ensures rel { IfOk result (IsRel store.now) }
    ensures now { IfOk result (λ rel. rel.now_step.items ≡ fs.now) }
    ensures before { IfOk result (λ rel. rel.before_step.items ≡ []) }
    ensures bits { IfOk result (λ rel. rel.bits ≡ bits) }
{
    let always = store.constant(true);
    let mut now_step = Vec::new(alloc);
    now_step.extend_from_slice(fs)?;
    Ok(Rel {
        now_first: Vec::new(alloc),
        before_first: Vec::new(alloc),
        broken_first: always,
        now_step,
        before_step: Vec::new(alloc),
        broken_step: always,
        bits,
    })
}

// The states to which a step leads from a state of the set, in which all these functions hold.
fn image(
    alloc: Global,
    store: &mut Store,
    set: Ref,
    fs: &[Ref],
    bits: u16,
) -> Result<Ref, AllocError>
    requires set { IsLive store.old set }
    requires current { IsCurrent (table store.old set) }
    requires fs { AreLive store.old fs.now }
    requires vars { store.old.vars ≡ 2 * bits }
    ensures live { IfOk result (λ r. IsLive store.new r) }
    ensures current { IfOk result (λ r. IsCurrent (table store.new r)) }
    ensures means { IfOk result (λ r. (s : State) → (table store.new r (at s) ≡ true) ↔ ((old : State) × IsStep (table store.old set) (map (table store.old) fs.now) old s)) }
    ensures keeps { Keeps store.old store.new }
{
    let rel = steps_alone(alloc, store, fs, bits)?;
    let turn = plan(alloc, &rel, store)?;
    leave_all(alloc, store, set, &turn)
}

/// A state of a set of states that is not empty.
pub(crate) fn one_state(
    alloc: Global,
    store: &Store,
    set: Ref,
    bits: u16,
) -> Result<Vec<bool>, AllocError>
    requires live { IsLive store.now set }
    requires current { IsCurrent (table store.now set) }
    requires vars { store.now.vars ≡ 2 * bits }
    requires some { (s : State) × (table store.now set (at s) ≡ true) }
    ensures length { IfOk result (λ state. length state.items ≡ bits) }
    ensures value { IfOk result (λ state. table store.now set (at (bit_at state.items)) ≡ true) }
{
    one_of(alloc, store, set, bits as usize)
}

/// A state to which a step leads from a state of the set, in which all these functions hold.
pub(crate) fn state_after(
    alloc: Global,
    store: &mut Store,
    set: Ref,
    fs: &[Ref],
    bits: u16,
) -> Result<Vec<bool>, AllocError>
    requires set { IsLive store.old set }
    requires current { IsCurrent (table store.old set) }
    requires fs { AreLive store.old fs.now }
    requires vars { store.old.vars ≡ 2 * bits }
    requires some { (old : State) × (s : State) × IsStep (table store.old set) (map (table store.old) fs.now) old s }
    ensures length { IfOk result (λ state. length state.items ≡ bits) }
    ensures step { IfOk result (λ state. (old : State) × IsStep (table store.old set) (map (table store.old) fs.now) old (bit_at state.items)) }
    ensures keeps { Keeps store.old store.new }
{
    let states = image(alloc, store, set, fs, bits)?;
    one_state(alloc, store, states, bits)
}

/// A state of the set from which a step leads to this one, in which all these functions hold.
pub(crate) fn state_before(
    alloc: Global,
    store: &mut Store,
    set: Ref,
    fs: &[Ref],
    next: &[bool],
) -> Result<Vec<bool>, AllocError>
    requires set { IsLive store.old set }
    requires current { IsCurrent (table store.old set) }
    requires fs { AreLive store.old fs.now }
    requires vars { store.old.vars ≡ 2 * length next.now }
    requires some { (old : State) × IsStep (table store.old set) (map (table store.old) fs.now) old (bit_at next.now) }
    ensures length { IfOk result (λ state. length state.items ≡ length next.now) }
    ensures step { IfOk result (λ state. IsStep (table store.old set) (map (table store.old) fs.now) (bit_at state.items) (bit_at next.now)) }
    ensures keeps { Keeps store.old store.new }
{
    let to_next = steps_to(store, next)?;
    let from_set = and(alloc, store, to_next, set)?;
    let steps = all_with(alloc, store, from_set, fs)?;
    one_of(alloc, store, steps, next.len())
}
