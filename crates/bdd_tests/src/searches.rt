//! What no clause says: that searches succeed where there is memory, and what they find of cases that were worked out by hand; and which sets are inductive there.

use crate::cases::{Answer, Law, Laws, decide, is_inductive};
use std::alloc::Global;
use std::test::Fail;

// No law, and nothing is broken.
const NOTHING: Laws<'static> = Laws {
    now: &[],
    before: &[],
    broken: Law::Never,
};

// The number is 0 at time 0; with a claim that is broken at a number.
const AT_ZERO: Laws<'static> = Laws {
    now: &[Law::Is(0)],
    before: &[],
    broken: Law::Never,
};

const BROKEN_AT_0: Laws<'static> = Laws {
    now: &[Law::Is(0)],
    before: &[],
    broken: Law::Is(0),
};

const BROKEN_AT_5: Laws<'static> = Laws {
    now: &[Law::Is(0)],
    before: &[],
    broken: Law::Is(5),
};

// A bit that flips in each step.
const FLIPS: Laws<'static> = Laws {
    now: &[Law::Counts(1)],
    before: &[],
    broken: Law::Never,
};

// The number counts up to 7 and begins anew; with such a claim, and with a demand for the time before.
const COUNTS: Laws<'static> = Laws {
    now: &[Law::Counts(7)],
    before: &[],
    broken: Law::Never,
};

const COUNTS_TO_0: Laws<'static> = Laws {
    now: &[Law::Counts(7)],
    before: &[],
    broken: Law::Becomes(0),
};

const COUNTS_TO_5: Laws<'static> = Laws {
    now: &[Law::Counts(7)],
    before: &[],
    broken: Law::Becomes(5),
};

const HELD_AT_3: Laws<'static> = Laws {
    now: &[Law::Counts(7)],
    before: &[Law::BecomesNot(3)],
    broken: Law::Becomes(5),
};

const HELD_AT_5: Laws<'static> = Laws {
    now: &[Law::Counts(7)],
    before: &[Law::BecomesNot(5)],
    broken: Law::Becomes(5),
};

// The bits of a case, its laws at time 0 and in a step, how many nodes and steps there may be, and what is found.
type Row = (u16, Laws<'static>, Laws<'static>, u32, u32, Answer);

const SEARCHES: &[Row] = &[
    // The beads of a toggle, under budgets of nodes below what it takes and at it.
    (1, AT_ZERO, FLIPS, 1, 10, Answer::OutOfNodes(4)),
    (1, AT_ZERO, FLIPS, 3, 10, Answer::OutOfNodes(4)),
    (1, AT_ZERO, FLIPS, 4, 10, Answer::OutOfNodes(5)),
    (1, AT_ZERO, FLIPS, 5, 10, Answer::Closed),
    // A counter of eight states is closed after eight steps.
    (3, AT_ZERO, COUNTS, 1000, 8, Answer::Closed),
    (3, AT_ZERO, COUNTS, 1000, 7, Answer::OutOfSteps),
    // A claim that is broken at a number.
    (
        3,
        BROKEN_AT_0,
        COUNTS_TO_0,
        1000,
        100,
        Answer::Reaches(0, 0),
    ),
    (
        3,
        BROKEN_AT_5,
        COUNTS_TO_5,
        1000,
        100,
        Answer::Reaches(5, 5),
    ),
    // Empty lists.
    (2, NOTHING, NOTHING, 1000, 1, Answer::Closed),
    (0, NOTHING, NOTHING, 1000, 1, Answer::Closed),
    // A demand for the time before holds back what is behind it, and not what is at it.
    (3, BROKEN_AT_5, HELD_AT_3, 1000, 100, Answer::Closed),
    (3, BROKEN_AT_5, HELD_AT_5, 1000, 100, Answer::Reaches(5, 5)),
];

// Fails with the number of the first case in which something else is found.
fn are_found(alloc: Global, rows: &[Row]) -> Result<(), Fail> {
    for (at, row) in rows.iter().enumerate() {
        let (bits, first, step, nodes, steps, want) = *row;
        if decide(alloc, bits, first, step, nodes, steps)? != Some(want) {
            return Err(Fail::new(at));
        }
    }
    Ok(())
}

#[test]
fn searches_find_what_is_there(rt: HostRuntime) -> Result<(), Fail> {
    are_found(rt.alloc(), SEARCHES)
}

// Of a bit that is 0 at first and flips in each step: a set, what is broken in a step, and whether the set is inductive. No
// step may leave it or be broken, and the first state is in it.
const SETS: &[(Law, Law, bool)] = &[
    (Law::Always, Law::Never, true),
    (Law::Never, Law::Never, false),
    (Law::Is(0), Law::Never, false),
    (Law::Always, Law::Always, false),
];

// Fails with the number of the first set that is told otherwise.
fn are_told(alloc: Global, rows: &[(Law, Law, bool)]) -> Result<(), Fail> {
    for (at, (set, broken, want)) in rows.iter().enumerate() {
        let step = Laws {
            now: &[Law::Counts(1)],
            before: &[],
            broken: *broken,
        };
        if is_inductive(alloc, 1, AT_ZERO, step, *set)? != Some(*want) {
            return Err(Fail::new(at));
        }
    }
    Ok(())
}

#[test]
fn inductive_sets_are_told(rt: HostRuntime) -> Result<(), Fail> {
    are_told(rt.alloc(), SETS)
}
