// Counting, and giving back.
ghost use Rattle.std.specs.Prelude.{◌≡◌, ℕ, ◌+◌, ◌≤◌, OnOk, [], ◌∷◌, ◌++◌, map};
ghost use Rattle.bdd_store.specs.declared.Ref.{Ref};
ghost use Rattle.bdd_store.specs.Diagram.{IsLive, AreLive, table};
ghost use Rattle.smv_search.specs.declared.counts.Stop.TheVariants.{OutOfMemory};
ghost use Rattle.smv_search.specs.Keeping.{AllHeld, KeepsRefs, beads_of, IsTally};
ghost use Rattle.smv_search.specs.Runs.{TakesIn};
ghost use Rattle.law_events.specs.Events.{margin};

use super::pace::Pace;
use bdd_store::{Ref, Store};
use std::alloc::{AllocError, AllocFailed};

/// Why a search ends before its verdict.
#[derive(Drop)]
pub enum Stop {
    /// There are more beads than the budget of nodes: how many is told.
    TooMany(usize),
    OutOfMemory,
}

impl From<AllocError> for Stop {
    ghost from_gives = { λ _ e. e ≡ OutOfMemory };

    fn from(_e: AllocError) -> Stop {
        Stop::OutOfMemory
    }
}

impl<T: Drop> From<AllocFailed<T>> for Stop {
    ghost from_gives = { λ _ e. e ≡ OutOfMemory };

    fn from(_e: AllocFailed<T>) -> Stop {
        Stop::OutOfMemory
    }
}

// How far past the budget counts are told.
const MARGIN: usize = 1_000_000;

// The most that is told of a count, and the most nodes that one operation makes.
#[inline(always)]
pub(crate) fn most_told(nodes: u32) -> usize
    ensures { result ≡ nodes + margin }
{
    nodes as usize + MARGIN
}

// The functions of the lists are appended one by one. None is given back, since later ones are not counted yet.
pub(crate) fn take_in(store: &Store, all: &[Ref], nodes: u32) -> Result<(), Stop>
    requires live { AreLive store.now all.now }
    ensures takes { (images : ℕ) → TakesIn (record { vars = store.now.vars; nodes = nodes; images = images }) (map (table store.now) all.now) result }
    ensures within { OnOk result (beads_of store.now all.now ≤ nodes) }
{
    for i in 0..all.len() {
        count_front(store, &all[..i + 1], nodes)?;
    }
    Ok(())
}

// Counts the functions.
fn count_front(store: &Store, front: &[Ref], nodes: u32) -> Result<(), Stop>
    requires live { AreLive store.now front.now }
    ensures count { IsTally (beads_of store.now front.now) nodes result }
{
    if store.held() <= nodes as usize {
        return Ok(());
    }
    let count = store.count(front)?;
    if count > nodes as usize {
        let told = count.min(most_told(nodes));
        return Err(Stop::TooMany(told));
    }
    Ok(())
}

// A function was appended that was made from another.
pub fn append(
    store: &mut Store,
    live: &mut Vec<Ref>,
    pace: &mut Pace,
    source: Ref,
    made: Ref,
    nodes: u32,
) -> Result<(), Stop>
    requires live { AllHeld store.old live.old.items }
    requires source { IsLive store.old source }
    requires made { IsLive store.old made }
    ensures same { OnOk result (live.new.items ≡ live.old.items) }
    ensures keeps { KeepsRefs store.old store.new (live.old.items ++ (source ∷ made ∷ [])) }
    ensures count { IsTally (beads_of store.old (live.old.items ++ (source ∷ made ∷ []))) nodes result }
{
    live.push(source)?;
    live.push(made)?;
    let answer = tally(store, live, pace, nodes);
    live.pop();
    live.pop();
    answer
}

// Counts the functions. Where a sweep is due, all others are given back.
fn tally(store: &mut Store, roots: &[Ref], pace: &mut Pace, nodes: u32) -> Result<(), Stop>
    requires held { AllHeld store.old roots.now }
    ensures keeps { KeepsRefs store.old store.new roots.now }
    ensures count { IsTally (beads_of store.old roots.now) nodes result }
{
    if !pace.is_due(store, nodes) {
        return count_front(store, roots, nodes);
    }
    // What is known is let go first: to forget it in the store would be to overwrite it all.
    let _ = store.lend();
    store.sweep(roots);
    pace.swept(store);
    let count = store.held();
    if count > nodes as usize {
        let told = count.min(most_told(nodes));
        return Err(Stop::TooMany(told));
    }
    Ok(())
}
