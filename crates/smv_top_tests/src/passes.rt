//! Each pass finds its first fault in turn.

use crate::calls::{all_are_refused, answered};
use std::alloc::Global;
use std::test::Fail;

const TOO_LARGE: &str = "fault 25 at line 1 column 8\n";

// Texts whose first fault is of kinds or of the size, with its line and its column.
const KINDS: &[(&'static str, &'static str)] = &[
    (
        "module main() { x : boolean; c : {red}; p : assert G (x = red); }",
        "fault 12 at line 1 column 59\n",
    ),
    (
        "module main() { x : 3..2; }",
        "fault 13 at line 1 column 21\n",
    ),
    (
        "module main() { x : boolean; p : assert G (x = {0, 1}); }",
        "fault 14 at line 1 column 48\n",
    ),
    (
        "module main() { x : boolean; c : {red}; switch (x) { 0, red : x := 1; } }",
        "fault 12 at line 1 column 57\n",
    ),
    (
        "scalarset P undefined; module main() { a : P; y : array 0..1 of boolean; p : assert G y[a]; }",
        "fault 12 at line 1 column 89\n",
    ),
    (
        "module main() { y : array 0..1 of boolean; c : {red}; p : assert G y[{red}]; }",
        "fault 14 at line 1 column 70\n",
    ),
    // The first by its place.
    (
        "module main() { x : boolean; p : assert G (x = {0, 1}); y : 3..2; }",
        "fault 14 at line 1 column 48\n",
    ),
    // Names come first, and then the size.
    (
        "module main() { x : 3..2; x := z; }",
        "fault 7 at line 1 column 32\n",
    ),
    (
        "module main() { x : 3..2; y : array 0..255 of array 0..1 of boolean; }",
        TOO_LARGE,
    ),
    (
        "scalarset P undefined; module main() { a : P; y : array P of boolean; y[0] := 0; y[a] := 1; next(y[1 + 1]) := 0; }",
        "fault 15 at line 1 column 82\n",
    ),
    (
        "module main() { x : array 0..255 of array 0..1 of boolean; }",
        TOO_LARGE,
    ),
];

// Texts whose first fault is of single assignment, loops or layers, with its line and its column.
const FLAT: &[(&'static str, &'static str)] = &[
    (
        "module main() { x : boolean; x := 0; x := 1; }",
        "fault 15 at line 1 column 38\n",
    ),
    (
        "module main() { x : boolean; x := 0; init(x) := 0; }",
        "fault 16 at line 1 column 38\n",
    ),
    (
        "module main() { x : boolean; forall (i in 0..1) x := 0; }",
        "fault 17 at line 1 column 49\n",
    ),
    (
        "module main() { a, b : boolean; a := b; b := a; }",
        "fault 18 at line 1 column 41\n",
    ),
    (
        "module main() { abstract s : boolean; x : boolean; layer L : { s := 0; } x := s; }",
        "fault 19 at line 1 column 79\n",
    ),
    (
        "module main() { abstract s : boolean; s := 0; }",
        "fault 20 at line 1 column 39\n",
    ),
    // Each variable that is bound around both has to stand bare at one index of both.
    (
        "scalarset P undefined; module main() { x : array P of array P of boolean; forall (i in P) default { forall (j in P) x[i][j] := 0; } in { forall (j in P) x[j][i] := 1; } forall (i in P) forall (j in P) p[i][j] : assert G (i = j | x[i][j] = 0); }",
        "fault 15 at line 1 column 154\n",
    ),
    (
        "module main() { i : 0..1; x : array 0..1 of 0..1; i := x[0]; x[0] := x[i]; }",
        "fault 18 at line 1 column 62\n",
    ),
    (
        "module main() { a, b : boolean; if (b) a := 1; b := a; }",
        "fault 18 at line 1 column 48\n",
    ),
    (
        "module m(a, b) { input a : boolean; output b : boolean; b := a; } module main() { x, y : boolean; n : m(x, y); x := y; }",
        "fault 18 at line 1 column 112\n",
    ),
    // Single assignment is looked at before loops, and loops before layers.
    (
        "module main() { a : boolean; a := a; init(a) := 0; }",
        "fault 16 at line 1 column 38\n",
    ),
    (
        "module main() { abstract s : boolean; a : boolean; layer L : { s := 0; } next(a) := s; a := a; }",
        "fault 16 at line 1 column 88\n",
    ),
    (
        "module main() { abstract s : boolean; a, b : boolean; layer L : { s := 0; } b := s; a := a; }",
        "fault 18 at line 1 column 85\n",
    ),
];

// Texts in which no pass finds a fault.
const SOUND: &[&'static str] = &[
    "module main() { x : array 0..255 of boolean; }",
    "module main() { x : array 0..1 of array 0..1 of array 0..1 of array 0..1 of boolean; }",
    "module inverter(a, b) { input a : boolean; output b : boolean; b := ~a; } module main() { x, y : boolean; n : inverter(x, y); }",
    "scalarset P undefined; module main() { c, e : boolean; d : P; x : array P of array P of array P of boolean; forall (i in P) if (c) x[i][i][d] := 0; else if (e) x[i][d][i] := 1; else x[d][i][i] := 0; }",
    // Two cells that constants keep apart, and a step in time.
    "module main() { x : array 0..1 of boolean; x[0] := x[1]; x[1] := 0; }",
    "module main() { a, b : boolean; next(a) := b; b := a; }",
];

// Fails with the first text that is refused.
fn none_is_refused(alloc: Global, texts: &[&'static str]) -> Result<(), Fail> {
    for text in texts {
        let (status, _) = answered(alloc, "prove", text.as_bytes())?;
        if status == 3 {
            return Err(Fail::new(*text));
        }
    }
    Ok(())
}

#[test]
fn kinds_and_size_are_looked_at_in_turn(rt: HostRuntime) -> Result<(), Fail> {
    all_are_refused(rt.alloc(), KINDS)
}

#[test]
fn assignments_loops_and_layers_are_looked_at_in_turn(rt: HostRuntime) -> Result<(), Fail> {
    all_are_refused(rt.alloc(), FLAT)
}

#[test]
fn sound_texts_pass(rt: HostRuntime) -> Result<(), Fail> {
    none_is_refused(rt.alloc(), SOUND)
}
