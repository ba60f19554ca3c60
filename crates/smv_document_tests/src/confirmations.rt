//! Units at given sizes: what holds, what is real and when, and each refusal.

use crate::calls::{Row, all_are_answered};
use std::test::Fail;

const CONFIRMED: &[Row] = &[
    // Two values of a set type are the same where there is one, and not where there are two.
    (
        "confirm p 1",
        "scalarset P undefined; module main() { a, b : P; p : assert G (a = b); }",
        10,
        "p: holds\n",
    ),
    (
        "confirm p 2",
        "scalarset P undefined; module main() { a, b : P; p : assert G (a = b); }",
        11,
        "p: real at 0\n time 0: a = #0, b = #1\n",
    ),
    // What the abstraction does not see holds.
    (
        "confirm p 3",
        "scalarset P undefined; module main() { a, b : P; p : assert G (a = b -> a = b); }",
        10,
        "p: holds\n",
    ),
    // The name, then the number of sizes.
    (
        "confirm q 2",
        "scalarset P undefined; module main() { a, b : P; p : assert G (a = b); }",
        3,
        "fault 26 at line 1 column 1\n",
    ),
    (
        "confirm q",
        "scalarset P undefined; module main() { a, b : P; p : assert G (a = b); }",
        3,
        "fault 26 at line 1 column 1\n",
    ),
    (
        "confirm p",
        "scalarset P undefined; module main() { a, b : P; p : assert G (a = b); }",
        3,
        "fault 34 at line 1 column 1\n",
    ),
    (
        "confirm p 1 1",
        "scalarset P undefined; module main() { a, b : P; p : assert G (a = b); }",
        3,
        "fault 34 at line 1 column 1\n",
    ),
    (
        "confirm p",
        "module main() { x : boolean; p : assert G (x | ~x); }",
        10,
        "p: holds\n",
    ),
    (
        "confirm p 2",
        "module main() { x : boolean; p : assert G (x | ~x); }",
        3,
        "fault 34 at line 1 column 1\n",
    ),
    // The first fault of the text comes before all.
    (
        "confirm q",
        "module main() { x : boolean; x := y; }",
        3,
        "fault 7 at line 1 column 35\n",
    ),
    (
        "confirm p 2",
        "module main() { p : assert G 1 }",
        3,
        "fault 5 at line 1 column 32\n",
    ),
    // Words: sizes from 1 to 256, as numbers are read.
    (
        "confirm p 0",
        "scalarset P undefined; module main() { a, b : P; p : assert G (a = b); }",
        4,
        "usage: smv prove|only|print|generated\n",
    ),
    (
        "confirm p 257",
        "scalarset P undefined; module main() { a, b : P; p : assert G (a = b); }",
        4,
        "usage: smv prove|only|print|generated\n",
    ),
    (
        "confirm p two",
        "scalarset P undefined; module main() { a, b : P; p : assert G (a = b); }",
        4,
        "usage: smv prove|only|print|generated\n",
    ),
    (
        "confirm",
        "scalarset P undefined; module main() { a, b : P; p : assert G (a = b); }",
        4,
        "usage: smv prove|only|print|generated\n",
    ),
    (
        "confirm p -1",
        "scalarset P undefined; module main() { a, b : P; p : assert G (a = b); }",
        4,
        "usage: smv prove|only|print|generated\n",
    ),
    (
        "confirm p +1",
        "scalarset P undefined; module main() { a, b : P; p : assert G (a = b); }",
        10,
        "p: holds\n",
    ),
    (
        "confirm p 01",
        "scalarset P undefined; module main() { a, b : P; p : assert G (a = b); }",
        10,
        "p: holds\n",
    ),
    (
        "confirm --steps 5 p 1 --nodes 9",
        "scalarset P undefined; module main() { a, b : P; p : assert G (a = b); }",
        10,
        "p: holds\n",
    ),
    (
        "confirm p 1 --steps 0",
        "scalarset P undefined; module main() { a, b : P; p : assert G (a = b); }",
        4,
        "usage: smv prove|only|print|generated\n",
    ),
    // Sizes are those of the undeclared types in order; a declared one keeps its own, and an ordset has its order.
    (
        "confirm p 1 2",
        "scalarset P undefined; scalarset R 0..1; ordset I undefined; module main() { a, b : P; c, d : R; e, f : I; p : assert G (a = b); q : assert G (c = d); r : assert G (e <= f); }",
        10,
        "p: holds\n",
    ),
    (
        "confirm p 2 1",
        "scalarset P undefined; scalarset R 0..1; ordset I undefined; module main() { a, b : P; c, d : R; e, f : I; p : assert G (a = b); q : assert G (c = d); r : assert G (e <= f); }",
        11,
        "p: real at 0\n time 0: a = #0, b = #1\n",
    ),
    (
        "confirm q 1 1",
        "scalarset P undefined; scalarset R 0..1; ordset I undefined; module main() { a, b : P; c, d : R; e, f : I; p : assert G (a = b); q : assert G (c = d); r : assert G (e <= f); }",
        11,
        "q: real at 0\n time 0: c = #0, d = #1\n",
    ),
    (
        "confirm r 2 1",
        "scalarset P undefined; scalarset R 0..1; ordset I undefined; module main() { a, b : P; c, d : R; e, f : I; p : assert G (a = b); q : assert G (c = d); r : assert G (e <= f); }",
        10,
        "r: holds\n",
    ),
    (
        "confirm r 1 2",
        "scalarset P undefined; scalarset R 0..1; ordset I undefined; module main() { a, b : P; c, d : R; e, f : I; p : assert G (a = b); q : assert G (c = d); r : assert G (e <= f); }",
        11,
        "r: real at 0\n time 0: e = #1, f = #0\n",
    ),
    (
        "confirm r 1 2 2",
        "scalarset P undefined; scalarset R 0..1; ordset I undefined; module main() { a, b : P; c, d : R; e, f : I; p : assert G (a = b); q : assert G (c = d); r : assert G (e <= f); }",
        3,
        "fault 34 at line 1 column 1\n",
    ),
    // Nothing is used: of two claims that rest on each other both are broken.
    (
        "confirm p",
        "module main() { x : boolean; p : assert G x; q : assert G x; using q prove p; using p prove q; }",
        11,
        "p: real at 0\n time 0: x = 0\n",
    ),
    (
        "confirm q",
        "module main() { x : boolean; p : assert G x; q : assert G x; using q prove p; using p prove q; }",
        11,
        "q: real at 0\n time 0: x = 0\n",
    ),
    // A split unit is decided itself, without the parameters of its split; a case shows the unit's own, in order.
    (
        "confirm p 2",
        "scalarset P undefined; module main() { a, b : P; p : assert G (a = b); forall (i in P) subcase s[i] of p for a = i; forall (i in P) forall (j in P) e[i][j] : assert G (i = j | a ~= i | b ~= j); }",
        11,
        "p: real at 0\n time 0: a = #0, b = #1\n",
    ),
    (
        "confirm e 1",
        "scalarset P undefined; module main() { a, b : P; p : assert G (a = b); forall (i in P) subcase s[i] of p for a = i; forall (i in P) forall (j in P) e[i][j] : assert G (i = j | a ~= i | b ~= j); }",
        10,
        "e: holds\n",
    ),
    (
        "confirm e 3",
        "scalarset P undefined; module main() { a, b : P; p : assert G (a = b); forall (i in P) subcase s[i] of p for a = i; forall (i in P) forall (j in P) e[i][j] : assert G (i = j | a ~= i | b ~= j); }",
        11,
        "e: real at 0\n case #0, #1\n time 0: a = #0, b = #1\n",
    ),
    // The name of a split is no unit.
    (
        "confirm s 2",
        "scalarset P undefined; module main() { a, b : P; p : assert G (a = b); forall (i in P) subcase s[i] of p for a = i; forall (i in P) forall (j in P) e[i][j] : assert G (i = j | a ~= i | b ~= j); }",
        3,
        "fault 26 at line 1 column 1\n",
    ),
    // Time and path, of the elements that are looked at.
    (
        "confirm p 2",
        "scalarset P undefined; module main() { x : array P of boolean; forall (i in P) { init(x[i]) := 0; next(x[i]) := 1; } forall (i in P) p[i] : assert G ~x[i]; q : assert G &[ x[i] : i in P ]; }",
        11,
        "p: real at 1\n case #0\n time 0: x[#0] = 0\n time 1: x[#0] = 1\n",
    ),
    (
        "confirm q 2",
        "scalarset P undefined; module main() { x : array P of boolean; forall (i in P) { init(x[i]) := 0; next(x[i]) := 1; } forall (i in P) p[i] : assert G ~x[i]; q : assert G &[ x[i] : i in P ]; }",
        11,
        "q: real at 0\n time 0: x[#0] = 0, x[#1] = 0\n",
    ),
    // Maps, of a signal of the machine and of an abstract one, over base definitions.
    (
        "confirm x//L 1",
        "scalarset P undefined; module main() { a : P; x : boolean; init(x) := 0; next(x) := ~x; abstract y : boolean; layer L : { init(y) := 0; next(y) := y; x := y; } layer M : { y := x; } using x//L prove y//M; }",
        11,
        "x//L: real at 1\n time 0: x = 0, y = 0\n time 1: x = 1, y = 0\n",
    ),
    (
        "confirm y//M 1",
        "scalarset P undefined; module main() { a : P; x : boolean; init(x) := 0; next(x) := ~x; abstract y : boolean; layer L : { init(y) := 0; next(y) := y; x := y; } layer M : { y := x; } using x//L prove y//M; }",
        11,
        "y//M: real at 1\n time 0: x = 0, y = 0\n time 1: x = 1, y = 0\n",
    ),
    // Budgets.
    (
        "confirm p --steps 8",
        "module main() { x : 0..7; init(x) := 0; next(x) := (x + 1) mod 8; p : assert G (x <= 7); }",
        10,
        "p: holds\n",
    ),
    (
        "confirm p --steps 7",
        "module main() { x : 0..7; init(x) := 0; next(x) := (x + 1) mod 8; p : assert G (x <= 7); }",
        2,
        "p: unknown steps\n",
    ),
    (
        "confirm p --nodes 1",
        "module main() { x : boolean; init(x) := 0; next(x) := ~x; p : assert G (x | ~x); }",
        2,
        "p: unknown nodes 4\n",
    ),
    (
        "confirm p 2 --steps 1",
        "scalarset P undefined; module main() { c : array P of 0..3; forall (i in P) { init(c[i]) := 0; next(c[i]) := (c[i] + 1) mod 4; } forall (i in P) p[i] : assert G (c[i] <= 3); }",
        2,
        "p: unknown steps\n case #0\n",
    ),
    // Bits: those of wires stand apart where they are declared, and near one another without the word.
    (
        "confirm p 16 --nodes 20000",
        "scalarset P undefined; module main() { a, b : array P of boolean; forall (i in P) b[i] := a[i]; p : assert G &[ b[i] = a[i] : i in P ]; }",
        10,
        "p: holds\n",
    ),
    (
        "confirm p 2 --bits near",
        "scalarset P undefined; module main() { a, b : array P of boolean; forall (i in P) b[i] := a[i]; p : assert G &[ b[i] = a[i] : i in P ]; }",
        10,
        "p: holds\n",
    ),
    (
        "confirm p --bits=declared --nodes 1",
        "module main() { x : boolean; init(x) := 0; next(x) := ~x; p : assert G (x | ~x); }",
        2,
        "p: unknown nodes 4\n",
    ),
    (
        "confirm p --bits far",
        "module main() { x : boolean; init(x) := 0; next(x) := ~x; p : assert G (x | ~x); }",
        4,
        "usage: smv prove|only|print|generated\n",
    ),
    // Fault 35: a family with more than 256 elements, also one that nothing reads.
    (
        "confirm p 16",
        "scalarset P undefined; module main() { x : array P of array P of boolean; p : assert G 1; }",
        10,
        "p: holds\n",
    ),
    (
        "confirm p 17",
        "scalarset P undefined; module main() { x : array P of array P of boolean; p : assert G 1; }",
        3,
        "fault 35 at line 1 column 75\n",
    ),
    (
        "confirm p 64",
        "scalarset P undefined; module main() { x : array 0..3 of array P of boolean; p : assert G 1; }",
        10,
        "p: holds\n",
    ),
    (
        "confirm p 65",
        "scalarset P undefined; module main() { x : array 0..3 of array P of boolean; p : assert G 1; }",
        3,
        "fault 35 at line 1 column 78\n",
    ),
    // Fault 29: more than 4,096 cases.
    (
        "confirm p 64",
        "scalarset P undefined; module main() { forall (i in P) forall (j in P) p[i][j] : assert G 1; }",
        10,
        "p: holds\n",
    ),
    (
        "confirm p 65",
        "scalarset P undefined; module main() { forall (i in P) forall (j in P) p[i][j] : assert G 1; }",
        3,
        "fault 29 at line 1 column 72\n",
    ),
    // Fault 30: a case with more than 1,024 state bits.
    (
        "confirm p 12",
        "scalarset P undefined; module main() { x : array P of array P of 0..255; p : assert G &[ &[ x[i][j] <= 255 : j in P ] : i in P ]; }",
        3,
        "fault 30 at line 1 column 74\n",
    ),
    (
        "confirm p 17",
        "scalarset P undefined; module main() { x : array P of array P of 0..255; p : assert G &[ &[ x[i][j] <= 255 : j in P ] : i in P ]; }",
        3,
        "fault 35 at line 1 column 74\n",
    ),
];

#[test]
fn units_are_confirmed(rt: HostRuntime) -> Result<(), Fail> {
    all_are_answered(rt.alloc(), CONFIRMED)
}
