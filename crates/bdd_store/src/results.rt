//! The results of operations: a table in which a later result takes the place of an earlier one.

ghost use Rattle.std.specs.Prelude.{◌≡◌, ℕ, ◌<◌, ◌≤◌, IfSome, IfNone, IsTrue, vec_len};
ghost use Rattle.bdd_store.specs.Diagram.{Diagram, IsReduced};
ghost use Rattle.bdd_store.specs.Results.{IsResult, AreResults};
ghost use Rattle.bdd_store.specs.Sure.{slot_of, IsSure};

use crate::chains::bucket_of;
use crate::{Operation, Ref};
use std::marker::Model;

/// An operation and its result, with the number of the turn that put it there.
#[derive(Clone, Copy)]
pub struct Entry {
    pub operation: Operation,
    pub answer: Ref,
    pub turn: u32,
}

// The places of a table with which it begins: what a processor keeps close by; and the most.
const FEW: usize = 0x2000;

const MOST: usize = 0x40_0000;

/// The results of operations that a store knows, lent to a call.
#[derive(Drop)]
pub struct Known {
    pub(crate) results: Vec<Entry>,
    pub(crate) hits: u64,
}

impl Model for Known {
    ghost use Rattle.std.specs.Prelude.{List};
    ghost use Rattle.bdd_store.specs.declared.results.Entry.{Entry};

    ghost Value = { List Entry };

    ghost view = { λ k. k.results.items };
}

impl Known {
    /// The result of an operation, if it is there.
    #[inline(always)]
    pub fn recall(&self, operation: Operation) -> Option<Ref>
        ensures some { (d : Diagram) → AreResults d self.now → IfSome result (IsResult d operation) }
        ensures none { IfNone result ((turn : ℕ) → IsSure self.now turn operation → ⊥) }
    {
        find(&self.results, operation)
    }

    /// Notes that a result was of use.
    #[inline(always)]
    pub fn note_hit(&mut self)
        ensures { self.new ≡ self.old }
    {
        self.hits = self.hits.wrapping_add(1);
    }

    /// Puts the result of an operation in the place of one of another turn. True means that it stays for this turn.
    #[inline(always)]
    pub fn remember(&mut self, operation: Operation, answer: Ref, turn: u32) -> bool
        ensures right { (d : Diagram) → AreResults d self.old → IsResult d operation answer → AreResults d self.new }
        ensures keeps { (o : Operation) → IsSure self.old turn o → IsSure self.new turn o }
        ensures sure { IsTrue result → IsSure self.new turn operation }
    {
        put(&mut self.results, operation, answer, turn)
    }
}

/// How many places a table is to have: more where as many results were put as it has, one look in four was of use, and there are twice as many chains of nodes.
pub(crate) fn wanted(has: usize, puts: u64, hits: u64, chains: usize) -> usize {
    if has < FEW {
        return chains.min(FEW);
    }
    if puts >= has as u64 && hits >= puts / 3 && has < MOST && has <= chains / 2 {
        return 4 * has;
    }
    has
}

/// The calls up to which results were counted, and the hits since, which begin again after as many as there are places.
pub(crate) fn counted(has: usize, calls: u64, before: u64, hits: u64) -> (u64, u64) {
    if calls.saturating_sub(before) >= has as u64 {
        return (calls, 0);
    }
    (before, hits)
}

// An entry that is right in every store: the conjunction of the constant 0 with itself.
fn never() -> Entry
    ensures { (d : Diagram) → IsReduced d → IsResult d result.operation result.answer }
{
    let zero = Ref { place: 0 };
    Entry {
        operation: Operation::And(zero, zero),
        answer: zero,
        turn: u32::MAX,
    }
}

// The place of an operation among `len`.
#[tactic(auto, unfolding(crate::specs::Sure::slot_of))]
#[inline(always)]
fn slot(operation: Operation, len: usize) -> usize
    requires { 0 < len }
    ensures slot { result ≡ slot_of len operation }
    ensures within { result < len }
{
    match operation {
        Operation::And(f, g) => bucket_of(1, f.place, g.place, len),
        Operation::Or(f, g) => bucket_of(2, f.place, g.place, len),
        Operation::Not(f) => bucket_of(3, f.place, 0, len),
        Operation::Rename(f) => bucket_of(4, f.place, 0, len),
        Operation::Exists(f, var) => bucket_of(5, f.place, var, len),
    }
}

// The result of an operation, if it is there.
#[inline(always)]
fn find(results: &[Entry], operation: Operation) -> Option<Ref>
    ensures some { (d : Diagram) → AreResults d results.now → IfSome result (IsResult d operation) }
    ensures none { IfNone result ((turn : ℕ) → IsSure results.now turn operation → ⊥) }
{
    if results.is_empty() {
        return None;
    }
    let entry = &results[slot(operation, results.len())];
    if entry.operation == operation {
        return Some(entry.answer);
    }
    None
}

// Puts the result of an operation, unless its place has one of this turn.
#[inline(always)]
fn put(results: &mut Vec<Entry>, operation: Operation, answer: Ref, turn: u32) -> bool
    ensures right { (d : Diagram) → AreResults d results.old.items → IsResult d operation answer → AreResults d results.new.items }
    ensures keeps { (o : Operation) → IsSure results.old.items turn o → IsSure results.new.items turn o }
    ensures sure { IsTrue result → IsSure results.new.items turn operation }
{
    if results.is_empty() {
        return false;
    }
    let place = slot(operation, results.len());
    if results[place].turn == turn {
        return false;
    }
    results[place] = Entry {
        operation,
        answer,
        turn,
    };
    true
}

// Puts the first results of a table at their places.
fn spread(results: &mut Vec<Entry>, has: usize)
    requires { has ≤ vec_len results.old }
    ensures { (d : Diagram) → IsReduced d → AreResults d results.old.items → AreResults d results.new.items }
{
    let never = never();
    for at in 0..has {
        let entry = results[at];
        let place = slot(entry.operation, results.len());
        results[at] = never;
        results[place] = entry;
    }
}

/// Makes so many places, where there is memory for that.
pub fn widen(results: &mut Vec<Entry>, places: usize)
    ensures { (d : Diagram) → IsReduced d → AreResults d results.old.items → AreResults d results.new.items }
{
    let has = results.len();
    if places > has && results.resize(places, never()).is_ok() {
        spread(results, has);
    }
}

/// Forgets all results.
pub fn forget(results: &mut Vec<Entry>)
    ensures { (d : Diagram) → IsReduced d → AreResults d results.new.items }
{
    let never = never();
    for entry in results.iter_mut() {
        *entry = never;
    }
}
