//! What no clause says: that calls succeed where there is memory, and what they answer on functions worked out by hand.

ghost use Rattle.std.specs.Prelude.{◌≡◌, ℕ, ◌<◌, ◌≤◌, IfOk, vec_len};
ghost use Rattle.bdd_store.specs.Diagram.{IsLive, AreLive, first_var, ref_at};

use crate::functions::{is_so, literal, opposite};
use bdd_store::{Ref, Store};
use std::alloc::{AllocError, Global};
use std::test::Fail;

// Which two of `len` functions the `i`-th pair has: one of those from `start` on, and any.
fn pair(i: usize, start: usize, len: usize) -> (usize, usize)
    requires some { start < len }
    ensures low { result.0 < len }
    ensures high { result.1 < len }
{
    let width = len - start;
    (start + i % width, i / width % len)
}

// Adds the function of `var` with these branches, where they differ.
fn add_node(
    store: &mut Store,
    all: &mut Vec<Ref>,
    var: u32,
    low: Ref,
    high: Ref,
) -> Result<(), AllocError>
    requires var_in { var < store.old.vars }
    requires low_live { IsLive store.old low }
    requires high_live { IsLive store.old high }
    requires low_later { var < first_var store.old low }
    requires high_later { var < first_var store.old high }
    requires live { AreLive store.old all.old.items }
    requires later { (i : ℕ) → i < vec_len all.old → var ≤ first_var store.old (ref_at all.old.items i) }
    ensures vars { store.new.vars ≡ store.old.vars }
    ensures live { AreLive store.new all.new.items }
    ensures later { (i : ℕ) → i < vec_len all.new → var ≤ first_var store.new (ref_at all.new.items i) }
    ensures earlier { (i : ℕ) → i < vec_len all.old → var < first_var store.old (ref_at all.old.items i) → var < first_var store.new (ref_at all.new.items i) }
    ensures longer { vec_len all.old ≤ vec_len all.new }
{
    if low == high {
        return Ok(());
    }
    let function = store.node(var, low, high)?;
    all.push(function)?;
    Ok(())
}

// Adds functions that depend on `var`: at 0 one of those from `start` on, at 1 any.
fn add_layer(
    store: &mut Store,
    all: &mut Vec<Ref>,
    start: usize,
    var: u32,
    limit: usize,
) -> Result<(), AllocError>
    requires var_in { var < store.old.vars }
    requires live { AreLive store.old all.old.items }
    requires later { (i : ℕ) → i < vec_len all.old → var < first_var store.old (ref_at all.old.items i) }
    ensures vars { store.new.vars ≡ store.old.vars }
    ensures live { AreLive store.new all.new.items }
    ensures later { (i : ℕ) → i < vec_len all.new → var ≤ first_var store.new (ref_at all.new.items i) }
{
    let len = all.len();
    if start >= len {
        return Ok(());
    }
    for i in 0..limit {
        let (low, high) = pair(i, start, len);
        add_node(store, all, var, all[low], all[high])?;
    }
    Ok(())
}

// Functions of all variables from each one on: two of the last, six of the last two, and so on.
fn build(store: &mut Store, alloc: Global, limit: usize) -> Result<Vec<Ref>, AllocError>
    ensures live { IfOk result (λ all. AreLive store.new all.items) }
{
    let mut all = Vec::new(alloc);
    all.push(store.constant(false))?;
    all.push(store.constant(true))?;
    let vars = store.vars();
    let mut start = 0;
    for step in 0..vars {
        let len = all.len();
        let pairs = match step {
            0 => 4,
            1 => 8,
            2 => 60,
            _ => limit,
        };
        add_layer(store, &mut all, start, vars - 1 - step, pairs)?;
        start = len;
    }
    Ok(all)
}

// A function whose branches at 0 have one variable after the other.
fn has_all(store: &Store, r: Ref) -> bool
    requires { IsLive store.now r }
{
    let mut at = r;
    for var in 0..store.vars() {
        if store.is_constant(at).is_some() || store.var(at) != var {
            return false;
        }
        at = store.low(at);
    }
    true
}

// How many of these functions have branches at 0 with one variable after the other.
fn count_whole(store: &Store, functions: &[Ref]) -> u64
    requires { AreLive store.now functions.now }
{
    let mut whole: u64 = 0;
    for i in 0..functions.len() {
        if has_all(store, functions[i]) {
            whole = whole.saturating_add(1);
        }
    }
    whole
}

// Whether the same functions are built once more, and no node is made then.
fn is_built_again(
    store: &mut Store,
    alloc: Global,
    limit: usize,
    functions: &[Ref],
) -> Result<bool, AllocError> {
    let held = store.held();
    let again = build(store, alloc, limit)?;
    Ok(again.as_slice() == functions && store.held() == held)
}

// Whether at least 100,000 nodes and 1,000 functions of all variables are made, and found again.
fn is_each_found(store: &mut Store, alloc: Global) -> Result<bool, AllocError> {
    let first = build(store, alloc, 2740)?;
    let is_large = store.held() >= 100_000 && count_whole(store, first.as_slice()) >= 1_000;
    Ok(is_large && is_built_again(store, alloc, 2740, first.as_slice())?)
}

#[test]
fn finds_each_of_many(rt: HostRuntime) -> Result<(), Fail> {
    let mut store = Store::new(rt.alloc(), 40)?;
    is_so(is_each_found(&mut store, rt.alloc()))
}

// Whether a sweep leaves as many nodes as these functions have, which are not all.
fn is_swept(store: &mut Store, roots: &[Ref]) -> Result<bool, AllocError>
    requires { AreLive store.old roots.now }
{
    let held = store.held();
    let kept = store.count(roots)?;
    store.sweep(roots);
    Ok(store.held() == kept && kept < held)
}

// Whether some of many functions outlive a sweep, and the others can be built again.
fn are_roots_kept(store: &mut Store, alloc: Global) -> Result<bool, AllocError> {
    build(store, alloc, 90)?;
    let roots = build(store, alloc, 20)?;
    let held = store.held();
    let is_swept = is_swept(store, roots.as_slice())?;
    let is_kept = is_built_again(store, alloc, 20, roots.as_slice())?;
    build(store, alloc, 90)?;
    Ok(is_swept && is_kept && store.held() == held)
}

#[test]
fn keeps_what_roots_reach(rt: HostRuntime) -> Result<(), Fail> {
    let mut store = Store::new(rt.alloc(), 7)?;
    is_so(are_roots_kept(&mut store, rt.alloc()))
}

// Whether the exclusive or of two variables has three beads, of which the second variable has one.
fn are_beads_counted(store: &mut Store) -> Result<bool, AllocError>
    requires two { 2 ≤ store.old.vars }
{
    let same = literal(store, 1)?;
    let one = store.mark(same);
    let not = opposite(store, 1)?;
    let differ = store.node(0, same, not)?;
    let told = (one, store.held(), store.calls());
    let count = store.count(&[differ])?;
    Ok(told == (1, 3, 3) && count == 3 && store.mark(differ) == 3)
}

// The exclusive or of two variables has three beads: 0110, 01 and 10.
#[test]
fn counts_beads(rt: HostRuntime) -> Result<(), Fail> {
    let mut store = Store::new(rt.alloc(), 2)?;
    is_so(are_beads_counted(&mut store))
}
