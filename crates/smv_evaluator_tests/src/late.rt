//! A machine whose stations take what they did not wait for, and a path that shows it.

ghost use Rattle.smv_rings.specs.Lists.{IsRel};
ghost use Rattle.smv_problem.specs.WellFormed.{IsProblem};

use crate::functions::{NO_TALLY, Seen, Time, look};
use crate::machine::marks;
use crate::questions::{Question, holds};
use smv_core::Refusal;
use smv_posed::bits::{Bits, spelled};
use smv_posed::functions::Functions;
use smv_posed::texts::MACHINE;
use smv_problem::Problem;
use std::alloc::{AllocError, Global};
use std::test::Fail;

// What a station looks at before it takes a result.
const TEST: &str = " & st[i].ta = bt";

// The machine, without a station's test of the tag on the bus or with it.
fn machine(alloc: Global, is_late: bool) -> Result<String, AllocError> {
    match MACHINE.split_once(TEST) {
        Some((before, behind)) if is_late => format!(in alloc; "{before}{behind}"),
        _ => String::from_str(alloc, MACHINE),
    }
}

// The elements of the case in which a station waits for another one; those that move have a mark.
const ELEMENTS: &str =
    "issue slot bt src dst iss bv opa res bw ir.resvd#0' ir.tag#0' ir.val#0 st.valid#0' st.valid#1' st.ga#0' st.ta#0' st.va#0' r#0' aux.a#0' aux.res#0' aux.res#1' aux.src#0'";

// Codes of the elements at the times 0 to 3. A class and the rest are 0 and 1; of stations #0, #1 and the rest are 00, 01 and 10.
const PATH: &[&str] = &[
    // Into #1, whose result register #0 waits for.
    "1 01 10 1 0 1 0 1 0 1 0 10 0 0 0 0 10 1 0 1 1 1 1",
    // Into #0, which reads register #0 and so waits for #1.
    "1 00 10 0 1 1 0 0 1 1 1 01 1 0 1 0 10 1 0 1 1 0 1",
    // A result of the rest is on the bus: any word. Station #0 takes it.
    "0 10 10 1 1 0 1 1 1 1 1 01 1 1 1 0 01 1 0 0 1 0 0",
    // It has an operand that is not word #0, which register #0 had.
    "0 10 10 1 1 0 0 1 1 1 1 01 1 1 1 1 01 1 0 0 1 0 0",
];

// The bits of the step from a place of the path.
fn bits_from(alloc: Global, place: usize) -> Result<Bits, AllocError> {
    let current = PATH.get(place).unwrap_or(&"");
    let next = PATH.get(place.saturating_add(1)).unwrap_or(&"");
    Ok(Bits {
        current: spelled(alloc, current)?,
        next: spelled(alloc, next)?,
    })
}

/// How many functions are met and unmet of what holds now, of what held before, and how many targets are broken and not; and how many of these are otherwise than the evaluator finds.
pub type Counts = ((u32, u32), (u32, u32), (u32, u32), u32);

// Whether so many were met and so many were not.
fn is_seen(seen: Seen, (met, unmet): (u32, u32)) -> bool {
    seen.met == met && seen.unmet == unmet
}

// Whether this was counted at a time.
fn is_counted(time: Time, (now, before, broken, otherwise): Counts) -> bool {
    let others = time
        .now
        .otherwise
        .saturating_add(time.before.otherwise)
        .saturating_add(time.broken.otherwise);
    is_seen(time.now, now)
        && is_seen(time.before, before)
        && is_seen(time.broken, broken)
        && others == otherwise
}

// Whether this is counted in the step from a place of the path, and that at its first time.
fn is_counted_from(
    alloc: Global,
    problem: &Problem,
    functions: &Functions,
    moves: &[bool],
    place: usize,
    first: Counts,
    step: Counts,
) -> Result<bool, AllocError>
    requires well_formed { IsProblem problem.now }
    requires rel { IsRel functions.now.store functions.now.rel }
{
    let bits = bits_from(alloc, place)?;
    let mut tally = NO_TALLY;
    look(alloc, problem, moves, functions, &bits, &mut tally)?;
    Ok(is_counted(tally.step, step) && (place > 0 || is_counted(tally.first, first)))
}

// The same of each step of the path.
fn is_counted_along(
    alloc: Global,
    problem: &Problem,
    functions: &Functions,
    moves: &[bool],
    first: Counts,
    steps: &[Counts],
) -> Result<bool, AllocError>
    requires well_formed { IsProblem problem.now }
    requires rel { IsRel functions.now.store functions.now.rel }
{
    for place in 0..steps.len() {
        let step = steps[place];
        if !is_counted_from(alloc, problem, functions, moves, place, first, step)? {
            return Ok(false);
        }
    }
    Ok(true)
}

/// Whether this is counted at time 0 and in each step of the path.
pub fn is_along(
    alloc: Global,
    problem: &Problem,
    functions: &Functions,
    counts: &[Counts],
) -> Result<bool, AllocError>
    requires well_formed { IsProblem problem.now }
    requires rel { IsRel functions.now.store functions.now.rel }
{
    let Some((first, steps)) = counts.split_first() else {
        return Ok(false);
    };
    let moves = marks(alloc, ELEMENTS)?;
    is_counted_along(alloc, problem, functions, moves.as_slice(), *first, steps)
}

// All 23 elements and both definitions that hold up to the time before are as they should be, and the target is broken or not.
const ALL: Counts = ((23, 0), (2, 0), (0, 1), 0);

const BROKEN: Counts = ((23, 0), (2, 0), (1, 0), 0);

// With its test a station takes nothing: that it has its operand is not met.
const NOT_TAKEN: Counts = ((22, 1), (2, 0), (1, 0), 0);

// Whether the station's test is left out, and what is counted at time 0 and in each step of the path.
const ROWS: &[(bool, &[Counts])] = &[
    (true, &[ALL, ALL, ALL, BROKEN]),
    (false, &[ALL, ALL, ALL, NOT_TAKEN]),
];

// Whether this is counted of the machine's case in which a station waits for another one.
fn is_counted_of(alloc: Global, is_late: bool, counts: &'static [Counts]) -> Result<bool, Refusal> {
    let text = machine(alloc, is_late)?;
    holds(alloc, text.as_str(), 1, 1, Question::IsAlong { counts })
}

// Fails, with whether the test is left out, where something else is counted.
fn all_are_counted(alloc: Global) -> Result<(), Fail> {
    for (is_late, counts) in ROWS {
        if !is_counted_of(alloc, *is_late, counts)? {
            return Err(Fail::new(*is_late));
        }
    }
    Ok(())
}

// Derived state by state from the machine's text: what moves, what is kept and what the map of a station's operand says.
#[test]
fn a_station_takes_what_it_did_not_wait_for(rt: HostRuntime) -> Result<(), Fail> {
    all_are_counted(rt.alloc())
}
