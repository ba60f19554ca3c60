//! The Tomasulo machine: the cones of its six cases, and each of their functions beside the evaluator.

ghost use Rattle.smv_rings.specs.Lists.{IsRel};
ghost use Rattle.smv_problem.specs.WellFormed.{IsProblem};

use crate::cones::is_cone;
use crate::functions::{NO_TALLY, Seen, Tally, Time, look};
use crate::questions::{Question, hold};
use rand_core::utils::NextWord;
use rand_pcg::Pcg32;
use smv_core::flat::Design;
use smv_posed::bits::Bits;
use smv_posed::functions::Functions;
use smv_posed::texts::MACHINE;
use smv_problem::Problem;
use smv_spots::spots::Spot;
use std::alloc::{AllocError, Global};
use std::test::Fail;

// A case of the machine: its unit and its place among the cases of the unit's leaf, the classes of the leaf's parameters, its elements with their bits, how many bits they have together, and how many
// definitions hold up to the time before. An element that a `next` moves has a mark.
type Case = (usize, usize, &'static str, &'static str, u16, u32);

// Worked out from the rules of cones. Each word by which an index is computed leads to all classes of its type, a variable of the element's own definition to its own index.
const CASES: &[Case] = &[
    // What is read out: its register, by what the map says of the register that is read.
    (
        0,
        0,
        "#0#0",
        "rd:1 dout:1 ir.resvd#0:1 ir.val#0:1 r#0:1",
        5,
        0,
    ),
    // The operand of a station, where it waits for itself and where it waits for another one.
    (
        1,
        0,
        "#0#0#0#0",
        "issue:1 slot:1 bt:1 src:1 dst:1 iss:1 bv:1 opa:1 res:1 bw:1 ir.resvd#0:1' ir.tag#0:1' ir.val#0:1 st.valid#0:1' st.ga#0:1' st.ta#0:1' st.va#0:1' r#0:1' aux.a#0:1' aux.res#0:1' aux.src#0:1'",
        21,
        2,
    ),
    (
        1,
        1,
        "#0#1#0#0",
        "issue:1 slot:2 bt:2 src:1 dst:1 iss:1 bv:1 opa:1 res:1 bw:1 ir.resvd#0:1' ir.tag#0:2' ir.val#0:1 st.valid#0:1' st.valid#1:1' st.ga#0:1' st.ta#0:2' st.va#0:1' r#0:1' aux.a#0:1' aux.res#0:1' aux.res#1:1' aux.src#0:1'",
        27,
        2,
    ),
    // What is on the bus, where operand and result are the same word and where they differ.
    (
        2,
        0,
        "#0#0#0",
        "issue:1 go:1 slot:1 bt:1 iss:1 bv:1 opa:1 res:1 bw:1 st.valid#0:1' st.ga#0:1 st.va#0:1 aux.a#0:1' aux.res#0:1' f#0:1'",
        15,
        0,
    ),
    (
        2,
        1,
        "#0#0#1",
        "issue:1 go:1 slot:1 bt:1 iss:1 bv:1 opa:2 res:2 bw:2 st.valid#0:1' st.ga#0:1 st.va#0:2 aux.a#0:2' aux.res#0:2' f#0:2' f#1:2'",
        24,
        0,
    ),
    // The value of a register that waits for none.
    (
        3,
        0,
        "#0#0#0",
        "issue:1 slot:1 bt:1 dst:1 iss:1 bv:1 res:1 bw:1 ir.resvd#0:1' ir.tag#0:1' ir.val#0:1' st.valid#0:1' r#0:1' aux.res#0:1'",
        14,
        1,
    ),
];

/// Which words have a mark.
pub fn marks(alloc: Global, words: &str) -> Result<Vec<bool>, AllocError> {
    let mut marks = Vec::new(alloc);
    for word in words.split_ascii_whitespace() {
        marks.push(word.ends_with('\''))?;
    }
    Ok(marks)
}

// Whether the parameters of a case stand for these classes.
fn are_classes(problem: &Problem, classes: &str) -> bool {
    let mut rest = classes.as_bytes().iter();
    for spot in problem.bindings.as_slice() {
        let Spot::Class { class, .. } = spot else {
            return false;
        };
        let digit = b'0' + (*class % 10) as u8;
        if rest.next() != Some(&b'#') || rest.next() != Some(&digit) {
            return false;
        }
    }
    rest.next().is_none()
}

/// Whether the parameters of a case stand for these classes, it has these elements with their bits and so many bits together, and so many definitions hold up to the time before.
pub fn is_told(
    alloc: Global,
    design: &Design,
    problem: &Problem,
    classes: &str,
    elements: &str,
    bits: u16,
    before: u32,
) -> Result<bool, AllocError>
    requires { IsProblem problem.now }
{
    if !are_classes(problem, classes) || problem.before.len() != before as usize {
        return Ok(false);
    }
    is_cone(alloc, design, problem, elements, bits)
}

// Fails where a case has other elements.
fn all_are_told(alloc: Global) -> Result<(), Fail> {
    for (unit, case, classes, elements, bits, before) in CASES {
        let question = Question::Told {
            classes,
            elements,
            bits: *bits,
            before: *before,
        };
        hold(alloc, MACHINE, *unit, *case, question)?;
    }
    Ok(())
}

#[test]
fn cones_of_the_machine_are_what_the_rules_say(rt: HostRuntime) -> Result<(), Fail> {
    all_are_told(rt.alloc())
}

const ROUNDS: u32 = 1000;

// So many bits of each state that look random.
fn random(alloc: Global, numbers: &mut Pcg32, count: u16) -> Result<Bits, AllocError> {
    let mut bits = Bits {
        current: Vec::new(alloc),
        next: Vec::new(alloc),
    };
    for _ in 0..count {
        bits.current.push(numbers.next_word() & 1 == 1)?;
        bits.next.push(numbers.next_word() & 1 == 1)?;
    }
    Ok(bits)
}

// What is seen of functions at so many assignments.
fn tally_in(
    alloc: Global,
    problem: &Problem,
    moves: &[bool],
    functions: &Functions,
) -> Result<Tally, AllocError>
    requires well_formed { IsProblem problem.now }
    requires rel { IsRel functions.now.store functions.now.rel }
{
    let count = functions.rel.bits;
    let mut numbers = Pcg32::new(u64::from(count), 1);
    let mut tally = NO_TALLY;
    for _ in 0..ROUNDS {
        let bits = random(alloc, &mut numbers, count)?;
        look(alloc, problem, moves, functions, &bits, &mut tally)?;
    }
    Ok(tally)
}

// So many functions were looked at in each round, all of them as the evaluator finds, and if there are any, some were met and some were not.
fn is_whole(seen: Seen, functions: u32) -> bool {
    let looks = functions.saturating_mul(ROUNDS);
    let some = seen.met > 0 && seen.unmet > 0;
    seen.otherwise == 0 && seen.met.saturating_add(seen.unmet) == looks && (functions == 0 || some)
}

// The same of so many elements' functions, of so many definitions', and of the target's.
fn is_whole_time(time: Time, elements: u32, before: u32) -> bool {
    is_whole(time.now, elements) && is_whole(time.before, before) && is_whole(time.broken, 1)
}

/// Whether each function of a case with these elements, and so many definitions that hold up to the time before, has the value that the evaluator finds, wherever it is looked at.
pub fn are_as_found(
    alloc: Global,
    problem: &Problem,
    functions: &Functions,
    elements: &str,
    before: u32,
) -> Result<bool, AllocError>
    requires well_formed { IsProblem problem.now }
    requires rel { IsRel functions.now.store functions.now.rel }
{
    let moves = marks(alloc, elements)?;
    let tally = tally_in(alloc, problem, moves.as_slice(), functions)?;
    let count = u32::try_from(moves.len()).unwrap_or(0);
    Ok(is_whole_time(tally.first, count, before) && is_whole_time(tally.step, count, before))
}

// Fails where a function of a case is otherwise.
fn all_are_as_found(alloc: Global) -> Result<(), Fail> {
    for (unit, case, _, elements, _, before) in CASES {
        let question = Question::IsAsFound {
            elements,
            before: *before,
        };
        hold(alloc, MACHINE, *unit, *case, question)?;
    }
    Ok(())
}

// Both sides have the same definitions; here both are built and run. Whatever an assignment spells, each function has the value that the evaluator finds in its states.
#[test]
fn functions_of_the_machine_are_what_the_evaluator_finds(rt: HostRuntime) -> Result<(), Fail> {
    all_are_as_found(rt.alloc())
}
