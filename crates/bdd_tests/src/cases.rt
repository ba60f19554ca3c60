//! Cases built by hand from truth tables, what a search finds of them, and which sets are inductive in them.

ghost use Rattle.std.specs.Prelude.{◌≡◌, ◌*◌, ◌≤◌, ◌<◌, true, IsTrue, IfOk, IfSome, map};
ghost use Rattle.bdd_store.specs.declared.Ref.{Ref};
ghost use Rattle.bdd_store.specs.Diagram.{IsLive, AreLive, Keeps, first_var, table};
ghost use Rattle.smv_rings.specs.Lists.{IsCurrent, AllCurrent, IsRel};

use bdd_ops::support;
use bdd_store::{Ref, Store};
use smv_inductive::inductive;
use smv_rings::Rel;
use smv_search::{Outcome, search};
use std::alloc::{AllocError, Global};

/// What a function says of the number in the state, and of the number in the next one. The highest bit comes first.
#[derive(Clone, Copy)]
pub enum Law {
    Is(u32),
    BecomesNot(u32),
    Becomes(u32),
    /// It becomes one more, and 0 behind this number.
    Counts(u32),
    Always,
    Never,
}

/// The numbers of a step, as far as their bits were read.
#[derive(Clone, Copy)]
struct Numbers {
    old: u32,
    new: u32,
}

/// The laws at time 0, or those of a step.
#[derive(Clone, Copy)]
pub struct Laws<'a> {
    pub now: &'a [Law],
    pub before: &'a [Law],
    pub broken: Law,
}

/// What a search finds, without Refs.
#[derive(Clone, Copy, PartialEq)]
pub enum Answer {
    Closed,
    /// The depth, and the number of rings.
    Reaches(u32, usize),
    OutOfNodes(usize),
    OutOfSteps,
}

/// What a search finds of a case, or none where a law at time 0 reads the next state or no step is allowed.
pub fn decide(
    alloc: Global,
    bits: u16,
    first: Laws<'_>,
    step: Laws<'_>,
    nodes: u32,
    steps: u32,
) -> Result<Option<Answer>, AllocError> {
    if steps == 0 {
        return Ok(None);
    }
    let mut store = Store::new(alloc, 2 * bits as u32)?;
    let Some(rel) = build_rel(alloc, &mut store, bits, first, step)? else {
        return Ok(None);
    };
    let outcome = search(alloc, &rel, &mut store, nodes, steps)?;
    Ok(Some(match outcome {
        Outcome::Closed { set: _ } => Answer::Closed,
        Outcome::Reaches { depth, rings } => Answer::Reaches(depth, rings.len()),
        Outcome::OutOfNodes { count } => Answer::OutOfNodes(count),
        Outcome::OutOfSteps => Answer::OutOfSteps,
    }))
}

/// Whether a set is inductive in a case, or none where the set or a law at time 0 reads the next state.
pub fn is_inductive(
    alloc: Global,
    bits: u16,
    first: Laws<'_>,
    step: Laws<'_>,
    set: Law,
) -> Result<Option<bool>, AllocError> {
    let mut store = Store::new(alloc, 2 * bits as u32)?;
    let Some(rel) = build_rel(alloc, &mut store, bits, first, step)? else {
        return Ok(None);
    };
    let set = build(&mut store, set, 0, Numbers { old: 0, new: 0 })?;
    if !is_current(alloc, &store, rel.bits, set)? {
        return Ok(None);
    }
    Ok(Some(inductive(alloc, &rel, &mut store, set)?))
}

// The lists of a case, or none where a law at time 0 reads the next state.
fn build_rel(
    alloc: Global,
    store: &mut Store,
    bits: u16,
    first: Laws<'_>,
    step: Laws<'_>,
) -> Result<Option<Rel>, AllocError>
    requires vars { store.old.vars ≡ 2 * bits }
    ensures rel { IfOk result (λ o. IfSome o (IsRel store.new)) }
{
    let first = build_part(alloc, store, first)?;
    let step = build_part(alloc, store, step)?;
    if !is_current_part(alloc, store, bits, &first)? {
        return Ok(None);
    }
    Ok(Some(Rel {
        now_first: first.nows,
        before_first: first.befores,
        broken_first: first.broken,
        now_step: step.nows,
        before_step: step.befores,
        broken_step: step.broken,
        bits,
    }))
}

// The functions of laws.
#[derive(Drop)]
struct Part {
    nows: Vec<Ref>,
    befores: Vec<Ref>,
    broken: Ref,
}

fn build_part(alloc: Global, store: &mut Store, laws: Laws<'_>) -> Result<Part, AllocError>
    ensures nows { IfOk result (λ part. AreLive store.new part.nows.items) }
    ensures befores { IfOk result (λ part. AreLive store.new part.befores.items) }
    ensures broken { IfOk result (λ part. IsLive store.new part.broken) }
    ensures keeps { Keeps store.old store.new }
{
    let nows = build_all(alloc, store, laws.now)?;
    let befores = build_all(alloc, store, laws.before)?;
    let broken = build(store, laws.broken, 0, Numbers { old: 0, new: 0 })?;
    Ok(Part {
        nows,
        befores,
        broken,
    })
}

fn is_current_part(alloc: Global, store: &Store, bits: u16, part: &Part) -> Result<bool, AllocError>
    requires vars { store.now.vars ≡ 2 * bits }
    requires nows { AreLive store.now part.now.nows.items }
    requires befores { AreLive store.now part.now.befores.items }
    requires broken { IsLive store.now part.now.broken }
    ensures nows { IfOk result (λ x. IsTrue x → AllCurrent (map (table store.now) part.now.nows.items)) }
    ensures befores { IfOk result (λ x. IsTrue x → AllCurrent (map (table store.now) part.now.befores.items)) }
    ensures broken { IfOk result (λ x. IsTrue x → IsCurrent (table store.now part.now.broken)) }
{
    let now = are_current(alloc, store, bits, &part.nows)?;
    let before = are_current(alloc, store, bits, &part.befores)?;
    let broken = is_current(alloc, store, bits, part.broken)?;
    Ok(now && before && broken)
}

fn are_current(alloc: Global, store: &Store, bits: u16, fs: &[Ref]) -> Result<bool, AllocError>
    requires vars { store.now.vars ≡ 2 * bits }
    requires live { AreLive store.now fs.now }
    ensures { IfOk result (λ x. IsTrue x → AllCurrent (map (table store.now) fs.now)) }
{
    for f in fs {
        if !is_current(alloc, store, bits, *f)? {
            return Ok(false);
        }
    }
    Ok(true)
}

// The function reads current variables alone.
fn is_current(alloc: Global, store: &Store, bits: u16, f: Ref) -> Result<bool, AllocError>
    requires vars { store.now.vars ≡ 2 * bits }
    requires live { IsLive store.now f }
    ensures { IfOk result (λ x. IsTrue x → IsCurrent (table store.now f)) }
{
    let reads = support(alloc, store, f)?;
    for b in 0..bits {
        if reads[2 * b as usize + 1] {
            return Ok(false);
        }
    }
    Ok(true)
}

fn build_all(alloc: Global, store: &mut Store, laws: &[Law]) -> Result<Vec<Ref>, AllocError>
    ensures live { IfOk result (λ v. AreLive store.new v.items) }
    ensures keeps { Keeps store.old store.new }
{
    let mut all = Vec::new(alloc);
    let _ = store.vars();
    for law in laws {
        let f = build(store, *law, 0, Numbers { old: 0, new: 0 })?;
        all.push(f)?;
    }
    Ok(all)
}

// The function of a law, where the variables before this one have these values.
fn build(store: &mut Store, law: Law, var: u32, numbers: Numbers) -> Result<Ref, AllocError>
    requires within { var ≤ store.old.vars }
    ensures live { IfOk result (λ r. IsLive store.new r) }
    ensures first { IfOk result (λ r. var ≤ first_var store.new r) }
    ensures keeps { Keeps store.old store.new }
{
    if var == store.vars() {
        return Ok(store.constant(holds(law, numbers)));
    }
    let low = build(store, law, var + 1, with_bit(numbers, var, 0))?;
    let high = build(store, law, var + 1, with_bit(numbers, var, 1))?;
    store.node(var, low, high)
}

fn with_bit(numbers: Numbers, var: u32, bit: u32) -> Numbers {
    if var % 2 == 0 {
        Numbers {
            old: numbers.old.saturating_mul(2).saturating_add(bit),
            new: numbers.new,
        }
    } else {
        Numbers {
            old: numbers.old,
            new: numbers.new.saturating_mul(2).saturating_add(bit),
        }
    }
}

fn holds(law: Law, numbers: Numbers) -> bool {
    match law {
        Law::Is(n) => numbers.old == n,
        Law::Becomes(n) => numbers.new == n,
        Law::BecomesNot(n) => numbers.new != n,
        Law::Counts(last) => {
            if numbers.old == last {
                numbers.new == 0
            } else {
                numbers.new == numbers.old.saturating_add(1)
            }
        }
        Law::Always => true,
        Law::Never => false,
    }
}
