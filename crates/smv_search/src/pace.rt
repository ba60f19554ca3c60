// When to sweep.
use bdd_store::Store;

// A sweep may come where so many times as many nodes are held as the last one left, and so many more.
const TIMES: usize = 3;

const MORE: usize = 60_000;

// And where so many turns, one after another, took about as many calls as the one before.
const LEVEL: u32 = 3;

/// What the last sweep left and what the last turns took, by which the next sweep is timed. Nothing that is answered depends on it.
#[derive(Drop)]
pub(crate) struct Pace {
    // How many nodes the last sweep left.
    kept: usize,
    // How many calls there were when the turn began, and how many the last turn took.
    began: u64,
    took: u64,
    // How many turns, up to the last one, took about as many calls as the one before.
    level: u32,
    // A sweep came in this turn, behind level ones.
    was_swept: bool,
    // A turn with such a sweep took more than a quarter more calls: what was forgotten had been of use.
    is_dear: bool,
}

impl Pace {
    /// Nothing was swept yet, and no turn was made.
    pub(crate) fn new(store: &Store) -> Pace {
        Pace {
            kept: store.held(),
            began: store.calls(),
            took: 0,
            level: 0,
            was_swept: false,
            is_dear: false,
        }
    }

    /// A sweep is due: more nodes than the budget are held, or many more than the last sweep left while turn after turn takes about as many calls.
    pub(crate) fn is_due(&self, store: &Store, nodes: u32) -> bool {
        let held = store.held();
        held > nodes as usize || self.level >= LEVEL && self.is_grown(held)
    }

    // Many more nodes are held than the last sweep left, and it took few turns to make them.
    fn is_grown(&self, held: usize) -> bool {
        held > self.kept.saturating_mul(TIMES).saturating_add(MORE)
            && self.took >= (held.saturating_sub(self.kept) / 4) as u64
    }

    /// The store was swept.
    pub(crate) fn swept(&mut self, store: &Store) {
        self.kept = store.held();
        self.was_swept = self.level >= LEVEL;
    }

    /// A turn was made.
    pub(crate) fn turned(&mut self, store: &Store) {
        let took = store.calls().saturating_sub(self.began);
        let is_more = took > self.took.saturating_add(self.took / 4);
        self.is_dear = self.is_dear || self.was_swept && is_more;
        if self.is_dear || is_more || took < self.took.saturating_sub(self.took / 8) {
            self.level = 0;
        } else {
            self.level = self.level.saturating_add(1);
        }
        self.was_swept = false;
        self.took = took;
        self.began = store.calls();
    }
}
