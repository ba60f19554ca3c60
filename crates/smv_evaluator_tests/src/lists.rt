//! The lists of functions of small texts, value by value.

ghost use Rattle.bdd_store.specs.Diagram.{IsLive, AreLive};
ghost use Rattle.smv_rings.specs.Lists.{IsRel};

use crate::questions::{Question, hold};
use bdd_store::{Ref, Store};
use smv_posed::bits::{Bits, bits_of, value_at};
use smv_posed::functions::Functions;
use smv_posed::texts::{
    ALL, ALONE, AT_ONCE, CLAIMS, COPIED, EACH, GROWS, GUARDED, INDEX, LASTING, MARKED, MUTEX, OPEN,
    ORDER, OUTSIDE, PARTED, PLACED, REDUCED, RESTS, RISING, SOMETIMES, SPLIT, STAYS, STEPPED,
    TOTAL, UNKNOWN,
};
use std::alloc::{AllocError, Global};
use std::test::Fail;

// The bits at which functions of so many state bits are looked at: those of the first time alone, the others turned, or those of both times of a step.
fn assignment(alloc: Global, number: u32, count: u32, step: bool) -> Result<Bits, AllocError> {
    let (old, new) = if step {
        (number >> (count % 32), number)
    } else {
        (number, !number)
    };
    Ok(Bits {
        current: bits_of(alloc, old, count)?,
        next: bits_of(alloc, new, count)?,
    })
}

// Whether a function has these values, one behind the other and again from the first.
fn has_values(
    alloc: Global,
    store: &Store,
    f: Ref,
    count: u32,
    step: bool,
    values: &[u8],
) -> Result<bool, AllocError>
    requires { IsLive store.now f }
{
    if values.is_empty() {
        return Ok(false);
    }
    let width = if step { count.saturating_mul(2) } else { count };
    for number in 0..(1u32 << (width % 32)) {
        let bits = assignment(alloc, number, count, step)?;
        let want = values.get(number as usize % values.len()) == Some(&b'1');
        if value_at(store, f, &bits) != want {
            return Ok(false);
        }
    }
    Ok(true)
}

// Whether the functions of a list have these values, a word for each.
fn have_values(
    alloc: Global,
    store: &Store,
    functions: &[Ref],
    count: u32,
    step: bool,
    values: &str,
) -> Result<bool, AllocError>
    requires { AreLive store.now functions.now }
{
    let mut words = values.split_ascii_whitespace();
    for i in 0..functions.len() {
        let Some(word) = words.next() else {
            return Ok(false);
        };
        if !has_values(alloc, store, functions[i], count, step, word.as_bytes())? {
            return Ok(false);
        }
    }
    Ok(words.next().is_none())
}

/// What holds now, what held before, and where the target is broken.
pub type Lists = (&'static str, &'static str, &'static str);

// Whether the lists of a time are these.
fn are_values(
    alloc: Global,
    store: &Store,
    now: &[Ref],
    before: &[Ref],
    broken: Ref,
    count: u32,
    step: bool,
    lists: Lists,
) -> Result<bool, AllocError>
    requires now { AreLive store.now now.now }
    requires before { AreLive store.now before.now }
    requires broken { IsLive store.now broken }
{
    if !have_values(alloc, store, now, count, step, lists.0)? {
        return Ok(false);
    }
    if !have_values(alloc, store, before, count, step, lists.1)? {
        return Ok(false);
    }
    has_values(alloc, store, broken, count, step, lists.2.as_bytes())
}

// Whether the lists of time 0 are these.
#[tactic(auto, using(smv_posed::proofs::LiveFunctions::now_first_live, smv_posed::proofs::LiveFunctions::before_first_live, smv_posed::proofs::LiveFunctions::broken_first_live))]
fn are_first(alloc: Global, functions: &Functions, lists: Lists) -> Result<bool, AllocError>
    requires { IsRel functions.now.store functions.now.rel }
{
    let rel = &functions.rel;
    let count = u32::from(rel.bits);
    let now = rel.now_first.as_slice();
    let before = rel.before_first.as_slice();
    let store = &functions.store;
    are_values(
        alloc,
        store,
        now,
        before,
        rel.broken_first,
        count,
        false,
        lists,
    )
}

// Whether those of a step are these.
#[tactic(auto, using(smv_posed::proofs::LiveFunctions::now_step_live, smv_posed::proofs::LiveFunctions::before_step_live, smv_posed::proofs::LiveFunctions::broken_step_live))]
fn are_step(alloc: Global, functions: &Functions, lists: Lists) -> Result<bool, AllocError>
    requires { IsRel functions.now.store functions.now.rel }
{
    let rel = &functions.rel;
    let count = u32::from(rel.bits);
    let now = rel.now_step.as_slice();
    let before = rel.before_step.as_slice();
    let store = &functions.store;
    are_values(
        alloc,
        store,
        now,
        before,
        rel.broken_step,
        count,
        true,
        lists,
    )
}

/// Whether the lists of a case are these, those of time 0 and those of a step.
pub fn are_lists(
    alloc: Global,
    functions: &Functions,
    first: Lists,
    step: Lists,
) -> Result<bool, AllocError>
    requires { IsRel functions.now.store functions.now.rel }
{
    if !are_first(alloc, functions, first)? {
        return Ok(false);
    }
    are_step(alloc, functions, step)
}

const GAPS: &str =
    "ordset I undefined; module main() { a, b : I; forall (i in I) p[i] : assert G (a < b); }";

// The text, the unit and the case; the lists of time 0, whose values stand in the order of the bits as a number, the first element's highest bit first, and those of a step, the bits of the old state before
// those of the new one. Where values begin anew, they are left out.
const ROWS: &[(&str, usize, usize, Lists, Lists)] = &[
    // At time 0 by `init`; 1 + 1 is outside the type, so behind 1 there may be any value.
    (GROWS, 0, 0, ("01", "", "10"), ("0111", "", "10")),
    // A value stays where `next` gives nothing, and is free where no `next` assigns it.
    (SOMETIMES, 0, 0, ("10", "", "10"), ("10", "", "10")),
    (OPEN, 0, 0, ("10", "", "10"), ("1", "", "10")),
    // What `next` gives is read before; what moves comes first. What `:=` gives is read at once.
    (
        COPIED,
        0,
        0,
        ("1 1", "", "1100"),
        ("11000011 1", "", "1100"),
    ),
    (
        AT_ONCE,
        0,
        0,
        ("0110 1", "", "1100"),
        ("0110 1", "", "1100"),
    ),
    // A member outside the type.
    (OUTSIDE, 0, 0, ("1", "", "10"), ("1", "", "10")),
    // Maps that are used up to the time before: their families are free now.
    (
        STEPPED,
        0,
        0,
        ("0011 1", "10", "0011"),
        ("1100001111000011 1", "10", "0011"),
    ),
    (
        STEPPED,
        1,
        0,
        ("1 10", "1100", "01"),
        ("1010101001010101 1", "1100", "01"),
    ),
    // A claim that is used up to the time before, and one that is used at once.
    (CLAIMS, 0, 0, ("1", "01", "10"), ("1", "01", "10")),
    (CLAIMS, 1, 0, ("1 01", "", "10"), ("1 01", "", "10")),
    // A token at the class or at the rest; at one of two classes or at the rest, whose code is 10, and the code 11 is read as it.
    (MUTEX, 0, 0, ("1 0110", "", "0"), ("1 0110", "", "0")),
    (
        MUTEX,
        0,
        1,
        (
            "1111111111110000 0011110011001100 1010010110101010",
            "",
            "0001",
        ),
        (
            "1111111111110000 0011110011001100 1010010110101010",
            "",
            "0001",
        ),
    ),
    // One value needs a bit.
    (ALONE, 0, 0, ("1100 01", "", "0"), ("1100 01", "", "0")),
    // An element of a class keeps its value.
    (LASTING, 0, 0, ("01", "", "10"), ("1001", "", "10")),
    // Two values at the rest may differ; a class and the rest do, and a guard holds at its class alone.
    (RESTS, 0, 0, ("1100 10", "", "1"), ("1100 10", "", "1")),
    (SPLIT, 0, 0, ("1 1", "", "0"), ("1 1", "", "0")),
    (GUARDED, 0, 0, ("1 1", "", "1000"), ("1 1", "", "1000")),
    // An index outside its type.
    (
        INDEX,
        0,
        0,
        ("1111111100000000 11110000 1110", "", "0011"),
        ("1111111100000000 11110000 1110", "", "0011"),
    ),
    // Classes are in order, and so are a class and a gap and two gaps; one gap and itself are not. The gap below the class has the code 01, that above it 10.
    (TOTAL, 0, 0, ("", "", "0"), ("", "", "0")),
    (TOTAL, 0, 1, ("", "", "0"), ("", "", "0")),
    (TOTAL, 0, 2, ("", "", "0"), ("", "", "0")),
    (
        RISING,
        0,
        0,
        ("11110000 1100 10", "", "1"),
        ("11110000 1100 10", "", "1"),
    ),
    // Three values of a class and two gaps; where the guards hold, two are the class.
    (
        PARTED,
        0,
        0,
        (
            "1111111111111111111111111111111111111111111111110000000000000000 1111111111110000 1110",
            "",
            "0",
        ),
        (
            "1111111111111111111111111111111111111111111111110000000000000000 1111111111110000 1110",
            "",
            "0",
        ),
    ),
    (ORDER, 0, 0, ("1110", "", "1011"), ("1110", "", "1011")),
    (
        GAPS,
        0,
        0,
        ("1111111111110000 1110", "", "1100010011111111"),
        ("1111111111110000 1110", "", "1100010011111111"),
    ),
    // An index that is a signal: the element's own class, or the rest.
    (
        MARKED,
        0,
        0,
        ("1 10", "", "01"),
        ("0101010110100101 1", "", "01"),
    ),
    // An element at the rest may have any value, at each time another.
    (STAYS, 0, 0, ("1100 1", "", "10"), ("1100 1", "", "10")),
    // At the rest there may be any values, or none.
    (ALL, 0, 0, ("", "", "1"), ("", "", "1")),
    (EACH, 0, 0, ("1", "", "0"), ("1", "", "0")),
    // A map is broken where it does not allow the value for certain, at a rest always.
    (UNKNOWN, 0, 0, ("1100 1", "", "1"), ("1100 1", "", "1")),
    (PLACED, 0, 0, ("1100 10", "", "1"), ("1100 10", "", "1")),
    (REDUCED, 0, 0, ("1", "", "10"), ("1", "", "10")),
    (REDUCED, 0, 1, ("", "", "1"), ("", "", "1")),
];

// Fails with the first text of which a case has other lists.
fn all_have_lists(alloc: Global) -> Result<(), Fail> {
    for (text, unit, case, first, step) in ROWS {
        let question = Question::Has {
            first: *first,
            step: *step,
        };
        hold(alloc, text, *unit, *case, question)?;
    }
    Ok(())
}

// By the rules of definitions, claims and codes: what stands above each row.
#[test]
fn lists_are_what_the_rules_say(rt: HostRuntime) -> Result<(), Fail> {
    all_have_lists(rt.alloc())
}
