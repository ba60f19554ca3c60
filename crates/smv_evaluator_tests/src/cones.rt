//! The elements of cases, and how many bits they have.

ghost use Rattle.smv_problem.specs.WellFormed.{IsProblem};

use crate::questions::{Question, hold};
use smv_core::flat::Design;
use smv_posed::elements::tell_element;
use smv_posed::texts::{ALONE, LASTING, MUTEX, PARTED, REDUCED, RESTS, SPLIT, TOTAL};
use smv_problem::Problem;
use smv_readings::{family_bits, state_bits};
use std::alloc::{AllocError, Global};
use std::test::Fail;

// The digit of the bits of a family's element, of which no element has ten.
fn bits_digit(problem: &Problem, family: u16) -> u8 {
    let bits = family_bits(
        problem.families.as_slice(),
        problem.lists.as_slice(),
        problem.types.as_slice(),
        family,
    );
    b'0' + (bits % 10) as u8
}

// The elements of a problem, if wanted with their bits.
fn told(
    alloc: Global,
    design: &Design,
    problem: &Problem,
    has_bits: bool,
) -> Result<Vec<u8>, AllocError> {
    let mut line = Vec::new(alloc);
    for x in problem.elements.as_slice() {
        if !line.is_empty() {
            line.push(b' ')?;
        }
        tell_element(&mut line, design, x)?;
        if has_bits {
            line.extend_from_slice(&[b':', bits_digit(problem, x.family)])?;
        }
    }
    Ok(line)
}

// Whether a line has these words without their marks.
fn is_unmarked(line: &[u8], words: &str) -> bool {
    let mut rest = line.iter();
    for byte in words.as_bytes() {
        if *byte != b'\'' && rest.next() != Some(byte) {
            return false;
        }
    }
    rest.next().is_none()
}

/// Whether a problem has these elements, in their words with their bits or without, and so many bits.
pub fn is_cone(
    alloc: Global,
    design: &Design,
    problem: &Problem,
    elements: &str,
    bits: u16,
) -> Result<bool, AllocError>
    requires { IsProblem problem.now }
{
    let line = told(alloc, design, problem, elements.contains(':'))?;
    Ok(is_unmarked(line.as_slice(), elements) && state_bits(problem) == bits)
}

const AT_REST: &str =
    "scalarset P undefined; module main() { a : P; x : array P of boolean; p : assert G x[a]; }";

const BARE: &str =
    "scalarset P undefined; module main() { x, y : array P of boolean; forall (i in P) x[i] := y[i]; forall (i in P) forall (j in P) p[i][j] : assert G x[i]; }";

const COMPUTED: &str =
    "scalarset P undefined; module main() { a : P; x, y : array P of boolean; forall (i in P) x[i] := y[a]; forall (i in P) forall (j in P) p[i][j] : assert G x[i]; }";

const GUARDED: &str =
    "scalarset P undefined; module main() { a, b : P; p : assert G 1; forall (i in P) subcase s[i] of p for a = i; }";

const GAPS: &str =
    "ordset I undefined; module main() { a : I; x : 0..4; forall (i in I) p[i] : assert G (a < i & x = 0); }";

const THREE: &str =
    "scalarset P undefined; module main() { a : P; forall (i in P) forall (j in P) forall (k in P) p[i][j][k] : assert G (a = i | i = j | j = k); }";

// The text, the unit, the case, the elements in the order of families and then of indexes, and how many bits they have.
const CONES: &[(&str, usize, usize, &str, u16)] = &[
    // An element at a rest is not kept, and one value needs a bit.
    (AT_REST, 0, 0, "a", 1),
    // A variable alone leads to one element, anything else to each of a class.
    (BARE, 0, 0, "x#0 y#0", 2),
    (BARE, 0, 1, "x#0 y#0", 2),
    (COMPUTED, 0, 0, "a x#0 y#0", 3),
    (COMPUTED, 0, 1, "a x#0 y#0 y#1", 5),
    // A map's own element is kept at classes alone.
    (REDUCED, 0, 0, "y#0#0", 1),
    (REDUCED, 0, 1, "", 0),
    // What a guard reads is kept.
    (GUARDED, 0, 0, "a", 1),
    // A class and two gaps, and five numbers.
    (GAPS, 0, 0, "a x", 5),
    // A class and the rest, two classes and the rest, the one value of a declared type, and the rest alone.
    (MUTEX, 0, 0, "tok crit#0", 2),
    (MUTEX, 0, 1, "tok crit#0 crit#1", 4),
    (ALONE, 0, 0, "tok crit#0", 2),
    (RESTS, 0, 0, "a b", 2),
    (SPLIT, 0, 0, "a b", 2),
    (TOTAL, 0, 0, "", 0),
    (TOTAL, 0, 2, "", 0),
    // One class of a declared type, and the rest; and three values of an order with a class and two gaps, and with two classes and three gaps.
    (LASTING, 0, 0, "x#0", 1),
    (PARTED, 0, 0, "a b c", 6),
    (PARTED, 0, 1, "a b c", 9),
    (PARTED, 0, 2, "a b c", 9),
    // The five cases of three parameters, of one class to three and the rest.
    (THREE, 0, 0, "a", 1),
    (THREE, 0, 1, "a", 2),
    (THREE, 0, 2, "a", 2),
    (THREE, 0, 3, "a", 2),
    (THREE, 0, 4, "a", 2),
];

// Fails with the first text of which a case has other elements.
fn all_have_cones(alloc: Global) -> Result<(), Fail> {
    for (text, unit, case, elements, bits) in CONES {
        let question = Question::Cone {
            elements,
            bits: *bits,
        };
        hold(alloc, text, *unit, *case, question)?;
    }
    Ok(())
}

// By the rules of cones and codes: what stands above each row.
#[test]
fn cones_are_what_the_rules_say(rt: HostRuntime) -> Result<(), Fail> {
    all_have_cones(rt.alloc())
}
