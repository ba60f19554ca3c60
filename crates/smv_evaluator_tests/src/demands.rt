//! What is met, broken and certain in one state or two, and what the body of a claim may be there.

ghost use Rattle.smv_problem.specs.WellFormed.{IsProblem};

use crate::questions::{Question, hold};
use crate::states::{are_values, state_of};
use smv_eval::{broken, is_state, may, met, must};
use smv_posed::texts::{
    ALL, ALONE, AT_ONCE, CLAIMS, COPIED, EACH, GROWS, GUARDED, INDEX, LASTING, MARKED, MUTEX, OPEN,
    OUTSIDE, PARTED, PLACED, REDUCED, RESTS, RISING, SOMETIMES, SPLIT, STAYS, STEPPED, TOTAL,
    UNKNOWN,
};
use smv_problem::{AbsState, Demand, Problem};
use std::alloc::{AllocError, Global};
use std::test::Fail;

/// Which demands of a problem are asked about: those that hold at each time, or those that hold up to the time before the last.
#[derive(Clone, Copy)]
pub enum When {
    Now,
    Before,
}

/// What is asked of a state, and the answer.
#[derive(Clone, Copy)]
pub enum Asked {
    /// The values that the body of the target, a claim, may have.
    MayBe { values: &'static str },
    /// Whether the demand at a place is met.
    IsMet { when: When, place: usize, met: bool },
    /// Whether the target is broken.
    IsBroken { broken: bool },
    /// The values that the target, a map, is certain to allow.
    IsCertain { values: &'static str },
}

// Whether these are states of a problem.
fn are_states(problem: &Problem, old: Option<&AbsState>, new: &AbsState) -> bool {
    is_state(problem, new)
        && match old {
            Some(old) => is_state(problem, old),
            None => true,
        }
}

// The demand at a place.
fn demand_at(problem: &Problem, when: When, place: usize) -> Option<&Demand> {
    match when {
        When::Now => problem.now.as_slice().get(place),
        When::Before => problem.before.as_slice().get(place),
    }
}

// Whether these are the values that the body of a claim may have in a state.
fn may_be(
    alloc: Global,
    problem: &Problem,
    new: &AbsState,
    values: &str,
) -> Result<bool, AllocError>
    requires { IsProblem problem.now }
{
    let Demand::Holds { body, bindings } = &problem.target else {
        return Ok(false);
    };
    let found = may(alloc, problem, body, bindings.as_slice(), new)?;
    Ok(are_values(found.as_slice(), values))
}

// Whether the demand at a place is there, and is met or not.
fn is_met(
    alloc: Global,
    problem: &Problem,
    demand: Option<&Demand>,
    old: Option<&AbsState>,
    new: &AbsState,
    want: bool,
) -> Result<bool, AllocError>
    requires { IsProblem problem.now }
{
    let Some(demand) = demand else {
        return Ok(false);
    };
    let met = met(alloc, problem, demand, old, new)?;
    Ok(met == want)
}

// Whether the target is broken or not.
fn is_broken(
    alloc: Global,
    problem: &Problem,
    old: Option<&AbsState>,
    new: &AbsState,
    want: bool,
) -> Result<bool, AllocError>
    requires { IsProblem problem.now }
{
    let broken = broken(alloc, problem, old, new)?;
    Ok(broken == want)
}

// Whether these are the values that the target is certain to allow.
fn is_certain(
    alloc: Global,
    problem: &Problem,
    old: Option<&AbsState>,
    new: &AbsState,
    values: &str,
) -> Result<bool, AllocError>
    requires { IsProblem problem.now }
{
    let found = must(alloc, problem, &problem.target, old, new)?;
    Ok(are_values(found.as_slice(), values))
}

// Whether these are states of a problem, and the answer to a question about them is right.
fn is_answered_in(
    alloc: Global,
    problem: &Problem,
    old: Option<&AbsState>,
    new: &AbsState,
    asked: Asked,
) -> Result<bool, AllocError>
    requires { IsProblem problem.now }
{
    if !are_states(problem, old, new) {
        return Ok(false);
    }
    match asked {
        Asked::MayBe { values } => may_be(alloc, problem, new, values),
        Asked::IsMet { when, place, met } => {
            let demand = demand_at(problem, when, place);
            is_met(alloc, problem, demand, old, new, met)
        }
        Asked::IsBroken { broken } => is_broken(alloc, problem, old, new, broken),
        Asked::IsCertain { values } => is_certain(alloc, problem, old, new, values),
    }
}

// The same behind the state with the values of these words.
fn is_answered_behind(
    alloc: Global,
    problem: &Problem,
    old: &str,
    new: &AbsState,
    asked: Asked,
) -> Result<bool, AllocError>
    requires { IsProblem problem.now }
{
    let old = state_of(alloc, old)?;
    is_answered_in(alloc, problem, Some(&old), new, asked)
}

/// The same of the states with the values of these words.
pub fn is_answered(
    alloc: Global,
    problem: &Problem,
    old: Option<&str>,
    new: &str,
    asked: Asked,
) -> Result<bool, AllocError>
    requires { IsProblem problem.now }
{
    let new = state_of(alloc, new)?;
    match old {
        Some(old) => is_answered_behind(alloc, problem, old, &new, asked),
        None => is_answered_in(alloc, problem, None, &new, asked),
    }
}

// The text, the unit, which demand of its first case, the states before and now, and whether it is met.
const MET: &[(&str, usize, When, usize, Option<&str>, &str, bool)] = &[
    // At time 0 by `init`; from 1 on the sum is outside the type, so any value will do.
    (GROWS, 0, When::Now, 0, None, "1", true),
    (GROWS, 0, When::Now, 0, None, "0", false),
    (GROWS, 0, When::Now, 0, Some("0"), "1", true),
    (GROWS, 0, When::Now, 0, Some("0"), "0", false),
    (GROWS, 0, When::Now, 0, Some("1"), "0", true),
    (GROWS, 0, When::Now, 0, Some("1"), "1", true),
    // Where no `next` gives a value, the value stays; where there is none, it is free.
    (SOMETIMES, 0, When::Now, 0, Some("0"), "0", true),
    (SOMETIMES, 0, When::Now, 0, Some("0"), "1", false),
    (SOMETIMES, 0, When::Now, 0, Some("1"), "0", true),
    (SOMETIMES, 0, When::Now, 0, Some("1"), "1", false),
    (OPEN, 0, When::Now, 0, Some("0"), "1", true),
    (OPEN, 0, When::Now, 0, Some("1"), "0", true),
    (OPEN, 0, When::Now, 0, None, "1", false),
    // `next` reads the state before, other definitions the state now.
    (COPIED, 0, When::Now, 0, Some("0 1"), "1 0", true),
    (COPIED, 0, When::Now, 0, Some("0 0"), "1 1", false),
    (AT_ONCE, 0, When::Now, 0, Some("0 1"), "1 0", true),
    (AT_ONCE, 0, When::Now, 0, Some("0 1"), "1 1", false),
    // A value at the rest may stay there; an element at the rest may change, whatever its definition says.
    (STAYS, 0, When::Now, 0, Some("*0 0"), "*0 1", true),
    (STAYS, 0, When::Now, 1, Some("*0 0"), "*0 1", true),
    (STAYS, 0, When::Now, 1, Some("*0 0"), "*0 0", true),
    // A left side whose index is a signal gives its element alone a value.
    (MARKED, 0, When::Now, 0, Some("#0 0"), "#0 1", true),
    (MARKED, 0, When::Now, 0, Some("#0 0"), "#0 0", false),
    (MARKED, 0, When::Now, 0, Some("*0 0"), "#0 0", true),
    (MARKED, 0, When::Now, 0, Some("*0 0"), "#0 1", false),
    // Members outside the type allow everything.
    (OUTSIDE, 0, When::Now, 0, None, "0", true),
    (OUTSIDE, 0, When::Now, 0, None, "1", true),
    // A claim that is used at once, and one that is used up to the time before; a signal that is assigned nowhere has no demand.
    (CLAIMS, 1, When::Now, 0, None, "0", false),
    (CLAIMS, 1, When::Now, 0, None, "1", true),
    (CLAIMS, 0, When::Before, 0, None, "0", false),
    (CLAIMS, 0, When::Before, 0, None, "1", true),
    (CLAIMS, 0, When::Before, 0, Some("0"), "1", true),
    (CLAIMS, 0, When::Before, 0, Some("1"), "0", false),
    // What steps keeps its own definition, and the map that is used holds up to the time before.
    (STEPPED, 0, When::Now, 0, None, "1 1", true),
    (STEPPED, 0, When::Now, 0, None, "0 0", false),
    (STEPPED, 0, When::Now, 0, Some("1 0"), "0 1", true),
    (STEPPED, 0, When::Now, 0, Some("1 0"), "1 0", false),
    (STEPPED, 0, When::Now, 0, Some("0 1"), "1 0", true),
    (STEPPED, 0, When::Before, 0, None, "1 0", true),
    (STEPPED, 0, When::Before, 0, None, "1 1", false),
    (STEPPED, 0, When::Before, 0, Some("1 1"), "1 0", true),
    (STEPPED, 0, When::Before, 0, Some("1 1"), "0 1", false),
    (STEPPED, 1, When::Now, 0, None, "1 0", true),
    (STEPPED, 1, When::Now, 0, None, "1 1", false),
    (STEPPED, 1, When::Now, 0, Some("1 0"), "0 1", true),
    (STEPPED, 1, When::Now, 0, Some("1 0"), "0 0", false),
    (STEPPED, 1, When::Before, 0, None, "1 0", false),
    (STEPPED, 1, When::Before, 0, None, "0 1", true),
    // A place has the token where its class has it, and not where the token is at the rest; the one place of a declared type has it always.
    (MUTEX, 0, When::Now, 0, None, "#0 1", true),
    (MUTEX, 0, When::Now, 0, None, "#0 0", false),
    (MUTEX, 0, When::Now, 0, None, "*0 0", true),
    (MUTEX, 0, When::Now, 0, None, "*0 1", false),
    (ALONE, 0, When::Now, 0, None, "#0 1", true),
    (ALONE, 0, When::Now, 0, None, "#0 0", false),
    // One of four places is a class, and its element keeps its value.
    (LASTING, 0, When::Now, 0, None, "1", true),
    (LASTING, 0, When::Now, 0, None, "0", false),
    (LASTING, 0, When::Now, 0, Some("1"), "1", true),
    (LASTING, 0, When::Now, 0, Some("1"), "0", false),
    (LASTING, 0, When::Now, 0, Some("0"), "1", false),
];

// Fails with the first text of which a demand is otherwise.
fn all_are_met_so(alloc: Global) -> Result<(), Fail> {
    for (text, unit, when, place, old, new, met) in MET {
        let asked = Asked::IsMet {
            when: *when,
            place: *place,
            met: *met,
        };
        let question = Question::InState {
            old: *old,
            new,
            asked,
        };
        hold(alloc, text, *unit, 0, question)?;
    }
    Ok(())
}

// By the rules of definitions: at time 0, after a state, and where nothing is given.
#[test]
fn demands_are_met_where_their_rules_say(rt: HostRuntime) -> Result<(), Fail> {
    all_are_met_so(rt.alloc())
}

// The text, the unit, the case, the states before and now, and whether the target is broken.
const BROKEN: &[(&str, usize, usize, Option<&str>, &str, bool)] = &[
    (GROWS, 0, 0, None, "1", false),
    (GROWS, 0, 0, Some("1"), "0", true),
    (OUTSIDE, 0, 0, None, "0", true),
    (OUTSIDE, 0, 0, None, "1", false),
    // A map with one value, also where the map of the other signal is broken.
    (STEPPED, 0, 0, None, "1 0", true),
    (STEPPED, 0, 0, None, "0 0", false),
    (STEPPED, 0, 0, None, "1 1", true),
    (STEPPED, 1, 0, None, "1 0", false),
    (STEPPED, 1, 0, None, "1 1", true),
    (STEPPED, 1, 0, Some("1 0"), "0 1", true),
    // A claim, whatever is used for it.
    (CLAIMS, 0, 0, None, "0", true),
    (CLAIMS, 0, 0, None, "1", false),
    (CLAIMS, 1, 0, None, "0", true),
    (CLAIMS, 1, 0, None, "1", false),
    // Two places, which may be one; the one place of a declared type.
    (MUTEX, 0, 0, None, "*0 1", false),
    (MUTEX, 0, 1, None, "#0 1 1", true),
    (MUTEX, 0, 1, None, "#0 1 0", false),
    (MUTEX, 0, 1, None, "#1 0 1", false),
    (ALONE, 0, 0, None, "#0 1", false),
    (LASTING, 0, 0, None, "1", false),
    (LASTING, 0, 0, None, "0", true),
    // A claim that may be 0, and the same where the parameter of a split tells the two apart, or its guard cannot hold.
    (RESTS, 0, 0, None, "*0 *0", true),
    (SPLIT, 0, 0, None, "#0 *0", false),
    (SPLIT, 0, 0, None, "#0 #0", false),
    (SPLIT, 0, 0, None, "*0 *0", false),
    (GUARDED, 0, 0, None, "#0 0", true),
    (GUARDED, 0, 0, None, "#0 1", false),
    (GUARDED, 0, 0, None, "*0 0", false),
    // A claim that is neither 0 nor 1.
    (INDEX, 0, 0, None, "0 0 2", true),
    (INDEX, 0, 0, None, "0 0 1", false),
    // One class, then two in each order: no elements.
    (TOTAL, 0, 0, None, "", false),
    (TOTAL, 0, 1, None, "", false),
    (TOTAL, 0, 2, None, "", false),
    (RISING, 0, 0, None, "*0 *0 *0", true),
    // The same where two of its values are split off: equal ones, rising ones with the third above both, between them or at the lower, falling ones; and where no guard can hold.
    (PARTED, 0, 0, None, "#0 #0 *1", false),
    (PARTED, 0, 1, None, "#0 #1 *2", false),
    (PARTED, 0, 1, None, "#0 #1 *1", false),
    (PARTED, 0, 1, None, "#0 #1 #0", false),
    (PARTED, 0, 1, None, "*1 *1 *1", false),
    (PARTED, 0, 2, None, "#1 #0 *2", false),
    // Quantifiers where there is no class: any values, or none. With a class its own value is among them.
    (ALL, 0, 0, None, "", true),
    (EACH, 0, 0, None, "0", false),
    (EACH, 0, 0, None, "1", false),
    // The element that was marked.
    (MARKED, 0, 0, None, "#0 0", false),
    (MARKED, 0, 0, Some("#0 0"), "*0 1", true),
    // A map whose right side may be the value, but is not certain to be.
    (UNKNOWN, 0, 0, None, "*0 0", true),
    (UNKNOWN, 0, 0, None, "*0 1", true),
    // A value at the rest is never certain.
    (PLACED, 0, 0, None, "*0 *0", true),
    // An element of a map at the rest is broken, whatever its definition says.
    (REDUCED, 0, 0, None, "1", false),
    (REDUCED, 0, 0, None, "0", true),
    (REDUCED, 0, 1, None, "", true),
];

// Fails with the first text whose target is otherwise.
fn all_are_broken_so(alloc: Global) -> Result<(), Fail> {
    for (text, unit, case, old, new, broken) in BROKEN {
        let question = Question::InState {
            old: *old,
            new,
            asked: Asked::IsBroken { broken: *broken },
        };
        hold(alloc, text, *unit, *case, question)?;
    }
    Ok(())
}

// By the rules of claims, maps and guards.
#[test]
fn targets_are_broken_where_their_rules_say(rt: HostRuntime) -> Result<(), Fail> {
    all_are_broken_so(rt.alloc())
}

const MEMBERS: &str = "module main() { x : 0..2; layer L : { x := {0, 2}; } }";

const BEYOND: &str = "module main() { x : 0..2; layer L : { x := 3; } }";

const FILTERED: &str = "module main() { x : 0..5; layer L : { x := {i : i in 0..5, i >= 4}; } }";

const BRANCHES: &str =
    "scalarset P undefined; module main() { a : P; x : array P of boolean; y : 0..2; layer L : { y := x[a] ? {0, 1} : {1, 2}; } }";

const NEITHER: &str =
    "module main() { x : array 0..1 of boolean; n : 0..2; y : 0..2; layer L : { y := x[n] ? 0 : 1; } }";

const STEPS: &str =
    "module main() { x : 0..2; y : boolean; layer L : { init(x) := 1; if (y) next(x) := 2; } }";

const KEPT: &str =
    "scalarset P undefined; module main() { v : P; y : boolean; layer L : { if (y) next(v) := v; } }";

// The text, whose first unit is a map; the states before and now, and the values that the map is certain to allow.
const MUST: &[(&str, Option<&str>, &str, &str)] = &[
    // Each member of a set; everything, where a value is outside the type.
    (MEMBERS, None, "1", "0 2"),
    (FILTERED, None, "1", "4 5"),
    (BEYOND, None, "1", "0 1 2"),
    // Nothing of what may have several values; what both branches share, where the condition may be 0 or 1; one branch where it is certain.
    (UNKNOWN, None, "*0 0", ""),
    (BRANCHES, None, "*0 0", "1"),
    (NEITHER, None, "1 0 0 0", "0"),
    (NEITHER, None, "1 0 1 0", "1"),
    // Everything, where a condition can only be neither.
    (NEITHER, None, "1 0 2 0", "0 1 2"),
    // At time 0 by `init`; then by `next`, and where that gives nothing the value before.
    (STEPS, None, "0 1", "1"),
    (STEPS, Some("0 1"), "0 0", "2"),
    (STEPS, Some("0 0"), "2 1", "0"),
    // A rest is never certain, neither by a right side nor where the value stays.
    (PLACED, None, "*0 *0", ""),
    (KEPT, None, "*0 0", "*0"),
    (KEPT, Some("*0 0"), "*0 0", ""),
    (KEPT, Some("*0 1"), "*0 0", ""),
];

// Fails with the first text whose map is certain to allow other values.
fn all_are_certain_so(alloc: Global) -> Result<(), Fail> {
    for (text, old, new, values) in MUST {
        let question = Question::InState {
            old: *old,
            new,
            asked: Asked::IsCertain { values },
        };
        hold(alloc, text, 0, 0, question)?;
    }
    Ok(())
}

// By the rules of what is certain.
#[test]
fn values_are_certain_where_their_rules_say(rt: HostRuntime) -> Result<(), Fail> {
    all_are_certain_so(rt.alloc())
}
