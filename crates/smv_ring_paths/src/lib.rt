//! A shortest violating path as assignments of the state bits, from the rings that a search found.
//!
//! For traces. It goes from the last state back, ring by ring: the next state fixes half of the variables before any function is joined, so that what is made stays small.
//! A reader begins with `specs/BitPaths`.
#![tactic(auto)]

ghost use Rattle.std.specs.Prelude.{◌≡◌, ℕ, ◌+◌, ◌<◌, true, IfOk, OnOk, ◌∷◌, ◌++◌, [], length, reverse};
ghost use Rattle.std.specs.List.{All};
ghost use Rattle.std.specs.Global.{Vec};
ghost use Rattle.bdd_store.specs.declared.Ref.{Ref};
ghost use Rattle.bdd_store.specs.Diagram.{IsLive, AreLive, Keeps, table};
ghost use Rattle.smv_rings.specs.Lists.{State, at, IsRel, lists_of};
ghost use Rattle.smv_rings.specs.Paths.{Starts, Ends, Violates, IsViolating};
ghost use Rattle.smv_rings.specs.Schedule.{ring};
ghost use Rattle.smv_ring_paths.specs.Steps.{GoesOn};
ghost use Rattle.smv_ring_paths.specs.BitPaths.{AreRings, state_of, states_of, HasBits, IsBitPath};

use bdd_store::{Ref, Store};
use smv_rings::Rel;
use std::alloc::{AllocError, Global};

mod sets;

use sets::{all_with, one_state, state_after, state_before};

/// The states of a shortest violating path in order, each as the values of its bits. Its steps are as many as the rings.
pub fn ring_path(
    alloc: Global,
    rel: &Rel,
    store: &mut Store,
    rings: &[Ref],
) -> Result<Vec<Vec<bool>>, AllocError>
    requires rel { IsRel store.old rel.now }
    requires live { AreLive store.old rings.now }
    requires rings { AreRings store.old (lists_of store.old rel.now) rings.now }
    requires some { (path : ℕ → State) × IsViolating (lists_of store.old rel.now) (length rings.now) path }
    requires none { (k : ℕ) → k < length rings.now → (path : ℕ → State) → IsViolating (lists_of store.old rel.now) k path → ⊥ }
    ensures path { IfOk result (λ states. IsBitPath (lists_of store.old rel.now) (length rings.now) states.items) }
    ensures keeps { Keeps store.old store.new }
{
    let mut states = Vec::new(alloc);
    if rings.is_empty() {
        let only = broken_at_once(alloc, rel, store)?;
        states.push(only)?;
        return Ok(states);
    }
    let last = rings.len() - 1;
    let (old, end) = last_step(alloc, rel, store, rings[last])?;
    states.push(end)?;
    let first = walk_back(alloc, rel, store, &rings[..last], old, &mut states)?;
    states.push(first)?;
    states.reverse();
    Ok(states)
}

// A broken state at time 0.
fn broken_at_once(alloc: Global, rel: &Rel, store: &mut Store) -> Result<Vec<bool>, AllocError>
    requires rel { IsRel store.old rel.now }
    requires some { (s : State) × Violates (lists_of store.old rel.now) 0 s }
    ensures bits { IfOk result (HasBits rel.now.bits) }
    ensures violates { IfOk result (λ state. Violates (lists_of store.old rel.now) 0 (state_of state)) }
    ensures keeps { Keeps store.old store.new }
{
    let states = all_with(alloc, store, rel.broken_first, &rel.now_first)?;
    one_state(alloc, store, states, rel.bits)
}

// The functions of a list, and then those of another one.
fn joined(alloc: Global, first: &[Ref], second: &[Ref]) -> Result<Vec<Ref>, AllocError>
    ensures { IfOk result (λ all. all.items ≡ first.now ++ second.now) }
{
    let mut all = Vec::new(alloc);
    all.extend_from_slice(first)?;
    all.extend_from_slice(second)?;
    Ok(all)
}

// The last step of a violating path, from a state of this ring.
fn last_step(
    alloc: Global,
    rel: &Rel,
    store: &mut Store,
    last: Ref,
) -> Result<(Vec<bool>, Vec<bool>), AllocError>
    requires rel { IsRel store.old rel.now }
    requires live { IsLive store.old last }
    requires ring { (k : ℕ) × (table store.old last ≡ ring (lists_of store.old rel.now) k) }
    requires some { (old : State) × (s : State) × (table store.old last (at old) ≡ true) × GoesOn (lists_of store.old rel.now) old (s ∷ []) }
    ensures old_bits { IfOk result (λ step. HasBits rel.now.bits step.0) }
    ensures end_bits { IfOk result (λ step. HasBits rel.now.bits step.1) }
    ensures in_ring { IfOk result (λ step. table store.old last (at (state_of step.0)) ≡ true) }
    ensures goes_on { IfOk result (λ step. GoesOn (lists_of store.old rel.now) (state_of step.0) (state_of step.1 ∷ [])) }
    ensures keeps { Keeps store.old store.new }
{
    let broken = joined(alloc, &rel.now_step, &[rel.broken_step])?;
    let end = state_after(alloc, store, last, &broken, rel.bits)?;
    let old = state_before(alloc, store, last, &broken, &end)?;
    Ok((old, end))
}

// The first state of a path that goes through the rings to this state and on, and puts the states behind the first one before the later ones, which stand last first.
fn walk_back(
    alloc: Global,
    rel: &Rel,
    store: &mut Store,
    rings: &[Ref],
    last: Vec<bool>,
    states: &mut Vec<Vec<bool>>,
) -> Result<Vec<bool>, AllocError>
    requires rel { IsRel store.old rel.now }
    requires live { AreLive store.old rings.now }
    requires rings { AreRings store.old (lists_of store.old rel.now) rings.now }
    requires bits { HasBits rel.now.bits last }
    requires have_bits { All (HasBits rel.now.bits) states.old.items }
    requires ends { Ends (lists_of store.old rel.now) (length rings.now) (state_of last) }
    requires goes_on { GoesOn (lists_of store.old rel.now) (state_of last) (states_of (reverse states.old.items)) }
    requires none { (k : ℕ) → k < length rings.now + length states.old.items → (s : State) → Violates (lists_of store.old rel.now) k s → ⊥ }
    ensures bits { IfOk result (HasBits rel.now.bits) }
    ensures have_bits { OnOk result (All (HasBits rel.now.bits) states.new.items) }
    ensures starts { IfOk result (λ first. Starts (lists_of store.old rel.now) (state_of first)) }
    ensures goes_on { IfOk result (λ first. GoesOn (lists_of store.old rel.now) (state_of first) (states_of (reverse states.new.items))) }
    ensures count { OnOk result (length states.new.items ≡ length rings.now + length states.old.items) }
    ensures keeps { Keeps store.old store.new }
{
    let steps = joined(alloc, &rel.now_step, &rel.before_step)?;
    let mut state = last;
    let mut left = rings.len();
    while left > 0 {
        left -= 1;
        let old = state_before(alloc, store, rings[left], &steps, &state)?;
        states.push(state)?;
        state = old;
    }
    Ok(state)
}
