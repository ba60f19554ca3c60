// The order in which a turn takes the laws of the next state. It changes no answer, and much of what an image costs.
ghost use Rattle.std.specs.Prelude.{◌≡◌, ◌<◌, ◌↔◌, IfOk, length, map};
ghost use Rattle.bdd_store.specs.declared.Ref.{Ref};
ghost use Rattle.bdd_store.specs.Diagram.{IsLive, AreLive};
ghost use Rattle.smv_rings.specs.Ops.{IsOneOf};
ghost use Rattle.smv_inductive.specs.Order.{functions_of};

use bdd_ops::support;
use bdd_store::{Ref, Store};
use std::alloc::{AllocError, Global};

// A law, and the variables that it reads.
#[derive(Drop)]
struct Law {
    function: Ref,
    reads: Vec<usize>,
}

// For each variable whether the set or a law so far reads it, and how many of the laws that are left do.
#[derive(Drop)]
struct Readers {
    seen: Vec<bool>,
    left: Vec<u32>,
}

// The same functions, in an order in which current variables can be quantified out early: next comes each time one that is the last to read
// many of them, and reads few variables that were not read before.
pub fn by_support(
    alloc: Global,
    store: &Store,
    set: Ref,
    fs: &[Ref],
) -> Result<Vec<Ref>, AllocError>
    requires set { IsLive store.now set }
    requires live { AreLive store.now fs.now }
    ensures { IfOk result (λ order. (r : Ref) → IsOneOf r order.items ↔ IsOneOf r fs.now) }
{
    let mut laws = laws_of(alloc, store, fs)?;
    let mut readers = readers_of(alloc, store, set, &laws)?;
    let mut order = Vec::new(alloc);
    while laws.len() > 0 {
        let at = best(&laws, &readers);
        let law = laws.remove(at);
        take_away(&law, &mut readers);
        order.push(law.function)?;
    }
    Ok(order)
}

// Functions, each with the variables that it reads.
fn laws_of(alloc: Global, store: &Store, fs: &[Ref]) -> Result<Vec<Law>, AllocError>
    requires { AreLive store.now fs.now }
    ensures { IfOk result (λ laws. functions_of laws.items ≡ fs.now) }
{
    let mut laws = Vec::new(alloc);
    for i in 0..fs.len() {
        let function = fs[i];
        let reads = variables_of(alloc, store, function)?;
        laws.push(Law { function, reads })?;
    }
    Ok(laws)
}

// The variables that a function reads.
fn variables_of(alloc: Global, store: &Store, f: Ref) -> Result<Vec<usize>, AllocError>
    requires { IsLive store.now f }
{
    let flags = support(alloc, store, f)?;
    let mut reads = Vec::new(alloc);
    for var in 0..flags.len() {
        if flags[var] {
            reads.push(var)?;
        }
    }
    Ok(reads)
}

// What the set reads, and what all laws do.
fn readers_of(alloc: Global, store: &Store, set: Ref, laws: &[Law]) -> Result<Readers, AllocError>
    requires { IsLive store.now set }
{
    let seen = support(alloc, store, set)?;
    let mut left = vec![in alloc; 0; seen.len()]?;
    for law in laws {
        for var in &law.reads {
            add_reader(&mut left, *var);
        }
    }
    Ok(Readers { seen, left })
}

// One more law reads a variable.
fn add_reader(left: &mut [u32], var: usize) {
    if var < left.len() {
        left[var] = left[var].wrapping_add(1);
    }
}

// The place of the law that is to come next, the first of the best.
fn best(laws: &[Law], readers: &Readers) -> usize
    requires { 0 < length laws.now }
    ensures { result < length laws.now }
{
    let mut best = 0;
    let mut most = gain(&laws[0], readers);
    for i in 1..laws.len() {
        let gained = gain(&laws[i], readers);
        if gained > most {
            best = i;
            most = gained;
        }
    }
    best
}

// How many current variables a law is the last to read, less how many variables it is the first to read; counted from the number of all variables.
fn gain(law: &Law, readers: &Readers) -> usize {
    let mut gain = readers.seen.len();
    for var in &law.reads {
        if *var % 2 == 0 && readers_left(readers, *var) == 1 {
            gain = gain.saturating_add(1);
        }
        if !is_seen(readers, *var) {
            gain = gain.saturating_sub(1);
        }
    }
    gain
}

// How many of the laws that are left read a variable.
fn readers_left(readers: &Readers, var: usize) -> u32 {
    if var < readers.left.len() {
        return readers.left[var];
    }
    0
}

// Whether the set or a law so far reads a variable.
fn is_seen(readers: &Readers, var: usize) -> bool {
    if var < readers.seen.len() {
        return readers.seen[var];
    }
    false
}

// A law comes next: it is left no more, and what it reads is read.
fn take_away(law: &Law, readers: &mut Readers) {
    for var in &law.reads {
        if *var < readers.left.len() {
            readers.left[*var] = readers.left[*var].saturating_sub(1);
        }
        if *var < readers.seen.len() {
            readers.seen[*var] = true;
        }
    }
}
