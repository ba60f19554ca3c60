//! What a search over the relations of a case finds under budgets.

ghost use Rattle.smv_rings.specs.Lists.{IsRel};
ghost use Rattle.smv_problem.specs.WellFormed.{IsProblem};

use crate::questions::{Question, hold};
use smv_posed::functions::{Functions, functions_of};
use smv_posed::texts::{
    ALL, ALONE, CLAIMS, EACH, GROWS, GUARDED, INDEX, LASTING, MARKED, MUTEX, OUTSIDE, PARTED,
    RESTS, RISING, SPLIT, STEPPED, TOTAL,
};
use smv_problem::Problem;
use smv_search::{Outcome, search};
use std::alloc::{AllocError, Global};
use std::test::Fail;

/// What is found, without diagrams.
#[derive(Clone, Copy)]
pub enum Found {
    Closed,
    Reaches(u32),
    OutOfNodes(usize),
    OutOfSteps,
}

// Whether this is what was found.
fn is_outcome(outcome: &Outcome, found: Found) -> bool {
    match (outcome, found) {
        (Outcome::Closed { set: _ }, Found::Closed) => true,
        (Outcome::Reaches { depth, rings: _ }, Found::Reaches(want)) => *depth == want,
        (Outcome::OutOfNodes { count }, Found::OutOfNodes(want)) => *count == want,
        (Outcome::OutOfSteps, Found::OutOfSteps) => true,
        _ => false,
    }
}

// Whether a search over these functions finds this.
fn is_found_in(
    alloc: Global,
    functions: &mut Functions,
    nodes: u32,
    steps: u32,
    found: Found,
) -> Result<bool, AllocError>
    requires { IsRel functions.old.store functions.old.rel }
{
    let steps = steps.max(1);
    let outcome = search(alloc, &functions.rel, &mut functions.store, nodes, steps)?;
    Ok(is_outcome(&outcome, found))
}

/// Whether a search of a case finds this.
pub fn is_found(
    alloc: Global,
    problem: &Problem,
    nodes: u32,
    steps: u32,
    found: Found,
) -> Result<bool, AllocError>
    requires { IsProblem problem.now }
{
    let mut functions = functions_of(alloc, problem)?;
    is_found_in(alloc, &mut functions, nodes, steps, found)
}

const TOGGLE: &str =
    "module main() { x : boolean; init(x) := 0; next(x) := ~x; p : assert G (x | ~x); }";

const RISES: &str = "module main() { x : boolean; init(x) := 0; next(x) := ~x; p : assert G ~x; }";

const COUNTER: &str =
    "module main() { x : 0..7; init(x) := 0; next(x) := (x + 1) mod 8; p : assert G (x <= 7); }";

const BELOW: &str =
    "module main() { x : 0..7; init(x) := 0; next(x) := (x + 1) mod 8; p : assert G (x < 6); }";

// The text, the unit, the case, the budgets of nodes and steps, and what is found.
const ROWS: &[(&str, usize, usize, u32, u32, Found)] = &[
    // Its eight values are reached one after the other, so the ring behind the eighth step is that of the seventh.
    (COUNTER, 0, 0, 1000, 8, Found::Closed),
    (COUNTER, 0, 0, 1000, 7, Found::OutOfSteps),
    (BELOW, 0, 0, 1000, 100, Found::Reaches(6)),
    // The functions of a toggle have four beads, with those of its rings five.
    (TOGGLE, 0, 0, 1, 100, Found::OutOfNodes(4)),
    (TOGGLE, 0, 0, 4, 100, Found::OutOfNodes(5)),
    (TOGGLE, 0, 0, 5, 100, Found::Closed),
    (RISES, 0, 0, 1000, 100, Found::Reaches(1)),
    // A sum or a member outside the type allows everything, an index outside is no index.
    (GROWS, 0, 0, 1000, 100, Found::Reaches(1)),
    (OUTSIDE, 0, 0, 1000, 100, Found::Reaches(0)),
    (INDEX, 0, 0, 1000, 100, Found::Reaches(0)),
    // A map that is used up to the time before says nothing at time 0; the map of the other signal is never broken.
    (STEPPED, 0, 0, 1000, 100, Found::Reaches(0)),
    (STEPPED, 1, 0, 1000, 100, Found::Closed),
    // Nor does a claim, and one that is used at once says all.
    (CLAIMS, 0, 0, 1000, 100, Found::Reaches(0)),
    (CLAIMS, 1, 0, 1000, 100, Found::Closed),
    // Two values at the rest may differ, unless a split has one of them at a class.
    (RESTS, 0, 0, 1000, 100, Found::Reaches(0)),
    (SPLIT, 0, 0, 1000, 100, Found::Closed),
    (GUARDED, 0, 0, 1000, 100, Found::Reaches(0)),
    (MUTEX, 0, 0, 1000, 100, Found::Closed),
    (MUTEX, 0, 1, 1000, 100, Found::Closed),
    (ALONE, 0, 0, 1000, 100, Found::Closed),
    (LASTING, 0, 0, 1000, 100, Found::Closed),
    // At the rest there may be any values, or none.
    (ALL, 0, 0, 1000, 100, Found::Reaches(0)),
    (EACH, 0, 0, 1000, 100, Found::Closed),
    (MARKED, 0, 0, 1000, 100, Found::Reaches(1)),
    // One gap may be below itself, unless a split has two of three values at classes.
    (TOTAL, 0, 0, 1000, 100, Found::Closed),
    (TOTAL, 0, 1, 1000, 100, Found::Closed),
    (TOTAL, 0, 2, 1000, 100, Found::Closed),
    (RISING, 0, 0, 1000, 100, Found::Reaches(0)),
    (PARTED, 0, 0, 1000, 100, Found::Closed),
    (PARTED, 0, 1, 1000, 100, Found::Closed),
    (PARTED, 0, 2, 1000, 100, Found::Closed),
];

// Fails with the first text of which a search finds something else.
fn all_are_found(alloc: Global) -> Result<(), Fail> {
    for (text, unit, case, nodes, steps, found) in ROWS {
        let question = Question::Finds {
            nodes: *nodes,
            steps: *steps,
            found: *found,
        };
        hold(alloc, text, *unit, *case, question)?;
    }
    Ok(())
}

// By counting values, rings and beads by hand, and for the others by the verdicts that their rules give.
#[test]
fn searches_find_what_was_counted(rt: HostRuntime) -> Result<(), Fail> {
    all_are_found(rt.alloc())
}
