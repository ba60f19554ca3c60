//! A text for each fault, with its place.

use crate::calls::all_are_refused;
use std::test::Fail;

const FAULTS: &[(&'static str, &'static str)] = &[
    (
        "module main() { x : boolean; @ }",
        "fault 1 at line 1 column 30\n",
    ),
    (
        "module main() { x : 0..512; }",
        "fault 2 at line 1 column 24\n",
    ),
    (
        "module main() { abcdefghijklmnopqrstuvwxyzabcdefghijklmnopqrstuvwxyzabcdefghijklm : boolean; }",
        "fault 3 at line 1 column 17\n",
    ),
    ("module main() { /* }", "fault 4 at line 1 column 17\n"),
    (
        "module main() { x boolean; }",
        "fault 5 at line 1 column 19\n",
    ),
    (
        "module main() { p : assert G ((((((((((((((((((((((((((((((((((((((((((((((((((((((((((((((((",
        "fault 6 at line 1 column 93\n",
    ),
    (
        "module main() { x : boolean; x := y; }",
        "fault 7 at line 1 column 35\n",
    ),
    (
        "module main() { x : boolean; x : boolean; }",
        "fault 8 at line 1 column 30\n",
    ),
    ("", "fault 9 at line 1 column 1\n"),
    (
        "module main() { a : main(); }",
        "fault 10 at line 1 column 21\n",
    ),
    (
        "module m(a) { input a : boolean; } module main() { x : m(); }",
        "fault 11 at line 1 column 56\n",
    ),
    (
        "module main() { x : boolean; c : {red}; p : assert G (x = red); }",
        "fault 12 at line 1 column 59\n",
    ),
    (
        "module main() { x : 3..2; }",
        "fault 13 at line 1 column 21\n",
    ),
    (
        "module main() { x : boolean; p : assert G (x = {0, 1}); }",
        "fault 14 at line 1 column 48\n",
    ),
    (
        "module main() { x : boolean; x := 0; x := 1; }",
        "fault 15 at line 1 column 38\n",
    ),
    (
        "module main() { x : boolean; x := 0; init(x) := 0; }",
        "fault 16 at line 1 column 38\n",
    ),
    (
        "module main() { x : boolean; forall (i in 0..1) x := 0; }",
        "fault 17 at line 1 column 49\n",
    ),
    (
        "module main() { a, b : boolean; a := b; b := a; }",
        "fault 18 at line 1 column 41\n",
    ),
    (
        "module main() { abstract s : boolean; x : boolean; layer L : { s := 0; } x := s; }",
        "fault 19 at line 1 column 79\n",
    ),
    (
        "module main() { abstract s : boolean; s := 0; }",
        "fault 20 at line 1 column 39\n",
    ),
    (
        "scalarset P undefined; module main() { a : P; p : assert G (a = 0); }",
        "fault 21 at line 1 column 65\n",
    ),
    (
        "scalarset P undefined; module main() { x : array P of boolean; for (n = 0; n < 2; n = n + 1) x[n] := 0; }",
        "fault 22 at line 1 column 96\n",
    ),
    (
        "module main() { x : boolean; forall (i in 0..1) subcase s[i] of q for x = i; }",
        "fault 23 at line 1 column 65\n",
    ),
    (
        "module main() { x : {red}; p : assert G 1; forall (i in 0..1) subcase s[i] of p for x = i; }",
        "fault 24 at line 1 column 89\n",
    ),
    (
        "module main() { x : array 0..1 of array 0..1 of array 0..1 of array 0..1 of array 0..1 of boolean; }",
        "fault 25 at line 1 column 8\n",
    ),
    (
        "module main() { p : assert G 1; using q prove p; }",
        "fault 26 at line 1 column 39\n",
    ),
    (
        "module main() { p : assert G 1; using p prove p; using p prove p; }",
        "fault 27 at line 1 column 64\n",
    ),
    (
        "scalarset P undefined; module main() { p : assert G 1; using P->{i} prove p; }",
        "fault 28 at line 1 column 66\n",
    ),
    (
        "module main() { forall (a in 0..255) forall (b in 0..255) p[a][b] : assert G 1; }",
        "fault 29 at line 1 column 59\n",
    ),
    (
        "module main() { x : array 0..255 of 0..255; n : 0..255; p : assert G (x[n] = 0); }",
        "fault 30 at line 1 column 57\n",
    ),
];

#[test]
fn each_fault_and_its_place(rt: HostRuntime) -> Result<(), Fail> {
    all_are_refused(rt.alloc(), FAULTS)
}
