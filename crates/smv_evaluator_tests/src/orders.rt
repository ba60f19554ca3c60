//! The orders in which bits stand near those that they meet.

ghost use Rattle.smv_problem.specs.WellFormed.{IsProblem};

use crate::questions::{Question, hold};
use smv_bit_order::near_order;
use smv_core::flat::{Design, Element};
use smv_posed::elements::tell_element;
use smv_problem::Problem;
use smv_readings::family_bits;
use std::alloc::{AllocError, Global};
use std::test::Fail;

// An element and a weight, if a bit is its.
fn tell_in(
    line: &mut Vec<u8>,
    design: &Design,
    element: &Element,
    width: u32,
    lowest: u32,
    bit: u32,
) -> Result<(), AllocError> {
    if let Some(weight) = lowest.checked_sub(bit) {
        if weight < width {
            tell_element(line, design, element)?;
            line.push(b'.')?;
            line.push(b'0' + (weight % 10) as u8)?;
        }
    }
    Ok(())
}

// A bit as its element and its weight, 0 that of the lowest.
fn tell_bit(
    line: &mut Vec<u8>,
    design: &Design,
    problem: &Problem,
    bit: u16,
) -> Result<(), AllocError> {
    let mut end: u32 = 0;
    for element in problem.elements.as_slice() {
        let width = family_bits(
            problem.families.as_slice(),
            problem.lists.as_slice(),
            problem.types.as_slice(),
            element.family,
        );
        end = end.saturating_add(width);
        tell_in(
            line,
            design,
            element,
            width,
            end.saturating_sub(1),
            u32::from(bit),
        )?;
    }
    Ok(())
}

// The near order in words.
fn told(alloc: Global, design: &Design, problem: &Problem) -> Result<Vec<u8>, AllocError>
    requires { IsProblem problem.now }
{
    let order = near_order(alloc, problem)?;
    let mut line = Vec::new(alloc);
    for bit in order.as_slice() {
        if !line.is_empty() {
            line.push(b' ')?;
        }
        tell_bit(&mut line, design, problem, *bit)?;
    }
    Ok(line)
}

/// Whether the near order of a problem is this one.
pub fn is_near(
    alloc: Global,
    design: &Design,
    problem: &Problem,
    bits: &str,
) -> Result<bool, AllocError>
    requires { IsProblem problem.now }
{
    let line = told(alloc, design, problem)?;
    Ok(line.as_slice() == bits.as_bytes())
}

const WIRE: &str = "module main() { b, a : 0..3; b := a; p : assert G (b = a); }";

const CHOSEN: &str = "module main() { a, b, c, x : boolean; x := c ? a : b; p : assert G x; }";

const STEPPED: &str =
    "module main() { a, b, c, x : boolean; next(x) := c ? a : b; p : assert G x; }";

const WEIGHED: &str =
    "module main() { b : array 0..1 of boolean; n : 0..3; p : assert G (n = (b[0] ? 1 : 0) + (b[1] ? 2 : 0)); }";

const CHAINS: &str =
    "module main() { i : boolean; x, y : array 0..2 of boolean; for (k = 0; k <= 2; k = k + 1) { init(x[k]) := 0; init(y[k]) := 0; } next(x[0]) := i; next(y[0]) := i; for (k = 0; k < 2; k = k + 1) { next(x[k + 1]) := x[k]; next(y[k + 1]) := y[k]; } p : assert G (x[2] = y[2]); }";

const BESIDE: &str =
    "module main() { a, c : boolean; z : array 0..1 of boolean; z[0] := a; z[1] := c; p : assert G z[0]; }";

const LOOKED_UP: &str =
    "module main() { z : array 0..1 of 0..3; i : 0..1; o : 0..3; o := z[i]; p : assert G (o = 3); }";

const OWN: &str =
    "scalarset P undefined; module main() { x, y : array P of boolean; forall (i in P) x[i] := y[i]; forall (i in P) p[i] : assert G x[i]; }";

const MAPPED: &str = "module main() { x, c, a : boolean; x := c; layer L : { x := a; } }";

// The text, the unit, the case, and the bits in order, each by its element and its weight.
const ORDERS: &[(&str, usize, usize, &str)] = &[
    // Numbers that meet stand bit by bit, the lowest first, and a wire behind what it is.
    (WIRE, 0, 0, "a.0 b.0 a.1 b.1"),
    // What decides stands first; a wire behind, and what has a next value before, all that it is given.
    (CHOSEN, 0, 0, "c.0 a.0 b.0 x.0"),
    (STEPPED, 0, 0, "x.0 c.0 a.0 b.0"),
    // A boolean that is chosen between a power of two and 0 is the bit of that weight.
    (WEIGHED, 0, 0, "n.0 b=0.0 n.1 b=1.0"),
    // Two chains that are compared go in step.
    (CHAINS, 0, 0, "x=2.0 y=2.0 x=1.0 y=1.0 x=0.0 y=0.0 i.0"),
    // What is not reached comes last: the definition of another element is passed over.
    (BESIDE, 0, 0, "a.0 z=0.0 c.0"),
    // An index decides, and each element that it may lead to is met bit by bit.
    (LOOKED_UP, 0, 0, "i.0 z=0.1 z=0.0 z=1.1 z=1.0 o.1 o.0"),
    // A variable alone in a left side has the element's own index.
    (OWN, 0, 0, "y#0.0 x#0.0"),
    // What a map says meets the signal of which it says it, and that is a wire behind what it is.
    (MAPPED, 0, 0, "a.0 c.0 x.0"),
];

// Fails with the first text of which a case has another order.
fn all_have_orders(alloc: Global) -> Result<(), Fail> {
    for (text, unit, case, bits) in ORDERS {
        let question = Question::Near { bits };
        hold(alloc, text, *unit, *case, question)?;
    }
    Ok(())
}

// By the rules of the near order: what stands above each row.
#[test]
fn bits_stand_near_what_they_meet(rt: HostRuntime) -> Result<(), Fail> {
    all_have_orders(rt.alloc())
}
