//! What expressions may be in a state.

use crate::demands::Asked;
use crate::questions::{Question, hold};
use smv_posed::texts::{ALL, INDEX, ORDER};
use std::alloc::Global;
use std::test::Fail;

const SUM: &str = "module main() { x : 0..255; p : assert G (x + x + 2 = 0); }";

const RESTS: &str = "scalarset P undefined; module main() { a, b : P; p : assert G (a = b); }";

const CLASS: &str =
    "scalarset P undefined; module main() { a : P; forall (i in P) p[i] : assert G (a = i); }";

const GAPS: &str = "ordset I undefined; module main() { a, b : I; p : assert G (a < b); }";

const ELEMENT: &str =
    "scalarset P undefined; module main() { a : P; x : array P of boolean; forall (i in P) p[i] : assert G x[a]; }";

const AMONG: &str =
    "scalarset P undefined; module main() { a : P; x : array P of boolean; p : assert G (x[a] in {0, 1}); }";

const TWICE: &str =
    "scalarset P undefined; module main() { a : P; x : array P of boolean; p : assert G (x[a] = x[a]); }";

const EACH: &str =
    "scalarset P undefined; module main() { x : array P of boolean; forall (i in P) p[i] : assert G (&[x[j] : j in P]); }";

const SOME: &str =
    "scalarset P undefined; module main() { x : array P of boolean; forall (i in P) p[i] : assert G (|[x[j] : j in P]); }";

const BRANCH: &str =
    "module main() { x : array 0..1 of boolean; n : 0..2; p : assert G (x[n] ? 1 : 0); }";

const MODULO: &str = "module main() { x : 0..7; p : assert G ((x + 1) mod 8 = 0); }";

const COLOUR: &str = "module main() { c, d : {red, green, blue}; p : assert G (c = d); }";

// The text, the case of its first claim, a state of the case and what the claim's body may be there.
const ROWS: &[(&str, usize, &str, &str)] = &[
    // 510 + 2 is above the greatest number, so it is Undefined, and so is what compares it.
    (SUM, 0, "254", "0"),
    (SUM, 0, "255", "-"),
    (MODULO, 0, "7", "1"),
    (MODULO, 0, "6", "0"),
    // An index outside its type reads as Undefined, and not as the last element.
    (INDEX, 0, "0 0 1", "1"),
    (INDEX, 0, "0 0 2", "-"),
    (BRANCH, 0, "1 0 0", "1"),
    (BRANCH, 0, "1 0 2", "-"),
    (COLOUR, 0, "=1 =1", "1"),
    (COLOUR, 0, "=1 =2", "0"),
    // Two rests may be equal or not; a rest is no class.
    (RESTS, 0, "*0 *0", "0 1"),
    (CLASS, 0, "#0", "1"),
    (CLASS, 0, "*0", "0"),
    // One gap may be less than itself or not; gaps and classes are in order.
    (GAPS, 0, "*0 *0", "0 1"),
    (ORDER, 0, "*0", "1"),
    (ORDER, 0, "#0", "0"),
    (ORDER, 0, "*1", "0"),
    // An element at the rest may have each value.
    (ELEMENT, 0, "#0 1", "1"),
    (ELEMENT, 0, "#0 0", "0"),
    (ELEMENT, 0, "*0 1", "0 1"),
    // What stands on the left of `in` has one value for all members; what stands twice may have two.
    (AMONG, 0, "*0", "1"),
    (TWICE, 0, "*0", "0 1"),
    // Values at the rest count too: there may be some, of any value, or none.
    (EACH, 0, "1", "0 1"),
    (EACH, 0, "0", "0"),
    (SOME, 0, "1", "1"),
    (SOME, 0, "0", "0 1"),
    (ALL, 0, "", "0 1"),
];

// Fails with the first text whose claim may have other values.
fn all_may_be_so(alloc: Global) -> Result<(), Fail> {
    for (text, case, state, values) in ROWS {
        let question = Question::InState {
            old: None,
            new: state,
            asked: Asked::MayBe { values },
        };
        hold(alloc, text, 0, *case, question)?;
    }
    Ok(())
}

// The answers follow from the rules by which outcomes are formed, each row by that which stands above it.
#[test]
fn expressions_may_be_what_their_rules_say(rt: HostRuntime) -> Result<(), Fail> {
    all_may_be_so(rt.alloc())
}
