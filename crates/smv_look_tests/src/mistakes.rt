//! The texts of `docs/FAULTS.md`, which have a fault each, with what `explain` says of it. Written by `tools/pages.py --tests`.

use crate::rows::{Row, all_are_answered};
use std::test::Fail;

const ROWS_1: &[Row] = &[
    (
        "explain",
        "module main() {\n  x : boolean;\n  x := !x;\n}\n",
        3,
        "fault 1 at line 3 column 8\n  |   x := !x;\n  |        ^ a byte begins no token\n",
    ),
    (
        "explain",
        "module main() {\n  x : 0..7;\n  next(x) := (x + 1000) mod 8;\n}\n",
        3,
        "fault 2 at line 3 column 19\n  |   next(x) := (x + 1000) mod 8;\n  |                   ^ a number is above 511\n",
    ),
    (
        "explain",
        "module main() {\n  the_signal_that_says_that_the_first_of_the_two_requests_was_granted : boolean;\n}\n",
        3,
        "fault 3 at line 2 column 3\n  |   the_signal_that_says_that_the_first_of_the_two_requests_was_granted : boolean;\n  |   ^ a word has more than 64 bytes\n",
    ),
    (
        "explain",
        "module main() {\n  x : boolean;   /* the request\n}\n",
        3,
        "fault 4 at line 2 column 18\n  |   x : boolean;   /* the request\n  |                  ^ a `/*` is not closed\n",
    ),
    (
        "explain",
        "module main() {\n  x : boolean;\n  p : assert G ~~~~~~~~~~~~~~~~~~~~~~~~~~~~~~~~~~~~~~~~~~~~~~~~~~~~~~~~~~~~~~~~~~x;\n}\n",
        3,
        "fault 6 at line 3 column 79\n  |   p : assert G ~~~~~~~~~~~~~~~~~~~~~~~~~~~~~~~~~~~~~~~~~~~~~~~~~~~~~~~~~~~~~~~~~~x;\n  |                                                                               ^ a 65th level is opened\n",
    ),
    (
        "explain",
        "module main() {\n  ready : boolean;\n  ready := raedy;\n}\n",
        3,
        "fault 7 at line 3 column 12\n  |   ready := raedy;\n  |            ^ a name or a field is not declared\n",
    ),
    (
        "explain",
        "module main() { x : bool; }\n",
        3,
        "fault 7 at line 1 column 21\n  | module main() { x : bool; }\n  |                     ^ a name or a field is not declared\n",
    ),
    (
        "explain",
        "module main() { x : 0..7; x := {0, 1, many}; }\n",
        3,
        "fault 7 at line 1 column 39\n  | module main() { x : 0..7; x := {0, 1, many}; }\n  |                                       ^ a name or a field is not declared\n",
    ),
    (
        "explain",
        "module main() { e : struct { full : boolean; }; x : boolean; x := e.empty; }\n",
        3,
        "fault 7 at line 1 column 69\n  | module main() { e : struct { full : boolean; }; x : boolean; x := e.empty; }\n  |                                                                     ^ a name or a field is not declared\n",
    ),
    (
        "explain",
        "module main() { x : array 0..3 of boolean; p : assert G x[i]; }\n",
        3,
        "fault 7 at line 1 column 59\n  | module main() { x : array 0..3 of boolean; p : assert G x[i]; }\n  |                                                           ^ a name or a field is not declared\n",
    ),
    (
        "explain",
        "module inverter(a, b) { input a : boolean; output b : boolean; b := ~a; }\nmodule main() { x : boolean; n : inverter(x); }\n",
        3,
        "fault 11 at line 2 column 34\n  | module main() { x : boolean; n : inverter(x); }\n  |                                  ^ an instance has too many or too few arguments\n",
    ),
    (
        "explain",
        "module main() {\n  memory : array 0..255 of array 0..1 of boolean;\n}\n",
        3,
        "fault 25 at line 1 column 8\n  | module main() {\n  |        ^ the design passes a limit\n",
    ),
    (
        "explain",
        "module main() {\n  state : {idle, busy};\n  ready : boolean;\n  ready := state;\n}\n",
        3,
        "fault 12 at line 4 column 12\n  |   ready := state;\n  |            ^ kinds do not fit\n",
    ),
    (
        "explain",
        "module main() { mode : {idle, busy}; init(mode) := 0; }\n",
        3,
        "fault 12 at line 1 column 52\n  | module main() { mode : {idle, busy}; init(mode) := 0; }\n  |                                                    ^ kinds do not fit\n",
    ),
    (
        "explain",
        "module main() { mode : {idle, busy}; x : boolean; x := mode < busy; }\n",
        3,
        "fault 12 at line 1 column 56\n  | module main() { mode : {idle, busy}; x : boolean; x := mode < busy; }\n  |                                                        ^ kinds do not fit\n",
    ),
    (
        "explain",
        "module main() { a, b : array 0..3 of boolean; b := a; }\n",
        3,
        "fault 12 at line 1 column 47\n  | module main() { a, b : array 0..3 of boolean; b := a; }\n  |                                               ^ kinds do not fit\n",
    ),
    (
        "explain",
        "module main() { e, f : struct { full : boolean; }; f := e; }\n",
        3,
        "fault 12 at line 1 column 52\n  | module main() { e, f : struct { full : boolean; }; f := e; }\n  |                                                    ^ kinds do not fit\n",
    ),
    (
        "explain",
        "scalarset P undefined; module main() { p : P; next(p) := p + 1; }\n",
        3,
        "fault 12 at line 1 column 58\n  | scalarset P undefined; module main() { p : P; next(p) := p + 1; }\n  |                                                          ^ kinds do not fit\n",
    ),
    (
        "explain",
        "module main() {\n  x : 7..0;\n}\n",
        3,
        "fault 13 at line 2 column 7\n  |   x : 7..0;\n  |       ^ a range begins above its end, or ends above 255\n",
    ),
    (
        "explain",
        "module main() {\n  x : 0..3;\n  p : assert G x = {0, 1};\n}\n",
        3,
        "fault 14 at line 3 column 20\n  |   p : assert G x = {0, 1};\n  |                    ^ a set stands where none may\n",
    ),
    (
        "explain",
        "module main() { a, x : boolean; next(x) := 0; if (a) next(x) := 1; }\n",
        3,
        "fault 15 at line 1 column 54\n  | module main() { a, x : boolean; next(x) := 0; if (a) next(x) := 1; }\n  |                                                      ^ two assignments of one signal conflict\n  | module main() { a, x : boolean; next(x) := 0; if (a) next(x) := 1; }\n  |                                 ^ the other assignment is here, at line 1 column 33\n",
    ),
    (
        "explain",
        "module main() { x : array 0..3 of boolean; i : 0..3; init(x[0]) := 1; init(x[i]) := 0; }\n",
        3,
        "fault 15 at line 1 column 71\n  | module main() { x : array 0..3 of boolean; i : 0..3; init(x[0]) := 1; init(x[i]) := 0; }\n  |                                                                       ^ two assignments of one signal conflict\n  | module main() { x : array 0..3 of boolean; i : 0..3; init(x[0]) := 1; init(x[i]) := 0; }\n  |                                                      ^ the other assignment is here, at line 1 column 54\n",
    ),
    (
        "explain",
        "scalarset P undefined; module main() { x : array P of boolean; q : P; forall (i in P) next(x[i]) := 0; next(x[q]) := 1; }\n",
        3,
        "fault 15 at line 1 column 104\n  | scalarset P undefined; module main() { x : array P of boolean; q : P; forall (i in P) next(x[i]) := 0; next(x[q]) := 1; }\n  |                                                                                                        ^ two assignments of one signal conflict\n  | scalarset P undefined; module main() { x : array P of boolean; q : P; forall (i in P) next(x[i]) := 0; next(x[q]) := 1; }\n  |                                                                                       ^ the other assignment is here, at line 1 column 87\n",
    ),
    (
        "explain",
        "module set(x) { output x : boolean; x := 1; } module main() { y : boolean; a : set(y); b : set(y); }\n",
        3,
        "fault 15 at line 1 column 96\n  | module set(x) { output x : boolean; x := 1; } module main() { y : boolean; a : set(y); b : set(y); }\n  |                                                                                                ^ two assignments of one signal conflict\n  | module set(x) { output x : boolean; x := 1; } module main() { y : boolean; a : set(y); b : set(y); }\n  |                                                                                    ^ the other assignment is here, at line 1 column 84\n",
    ),
    (
        "explain",
        "scalarset P undefined;\nmodule main() {\n  busy : array P of boolean;\n  any : boolean;\n  forall (i in P) any := busy[i];\n}\n",
        3,
        "fault 17 at line 5 column 19\n  |   forall (i in P) any := busy[i];\n  |                   ^ a left side or a claim lacks the variables around it\n",
    ),
    (
        "explain",
        "scalarset P undefined; module main() { q, last : P; forall (i in P) if (q = i) next(last) := i; }\n",
        3,
        "fault 17 at line 1 column 80\n  | scalarset P undefined; module main() { q, last : P; forall (i in P) if (q = i) next(last) := i; }\n  |                                                                                ^ a left side or a claim lacks the variables around it\n",
    ),
];

#[test]
fn mistakes_are_explained_1(rt: HostRuntime) -> Result<(), Fail> {
    all_are_answered(rt.alloc(), ROWS_1)
}

const ROWS_2: &[Row] = &[
    (
        "explain",
        "scalarset P undefined; module main() { busy : array P of boolean; forall (i in P) p : assert G busy[i]; }\n",
        3,
        "fault 17 at line 1 column 83\n  | scalarset P undefined; module main() { busy : array P of boolean; forall (i in P) p : assert G busy[i]; }\n  |                                                                                   ^ a left side or a claim lacks the variables around it\n",
    ),
    (
        "explain",
        "module main() {\n  abstract wanted : boolean;\n  x : boolean;\n  layer spec : { wanted := 0; }\n  x := wanted;\n}\n",
        3,
        "fault 19 at line 5 column 8\n  |   x := wanted;\n  |        ^ the implementation reads an abstract signal\n",
    ),
    (
        "explain",
        "module main() {\n  abstract wanted : boolean;\n  wanted := 0;\n}\n",
        3,
        "fault 20 at line 3 column 3\n  |   wanted := 0;\n  |   ^ an abstract signal is assigned outside layers\n",
    ),
    (
        "explain",
        "scalarset CLIENT undefined;\nmodule main() {\n  owner : CLIENT;\n  init(owner) := 0;\n}\n",
        3,
        "fault 21 at line 4 column 18\n  |   init(owner) := 0;\n  |                  ^ a number meets a value of a set type, or a scalarset is compared by its order\n",
    ),
    (
        "explain",
        "scalarset P undefined; module main() { q, p : P; x : boolean; x := p < q; }\n",
        3,
        "fault 21 at line 1 column 68\n  | scalarset P undefined; module main() { q, p : P; x : boolean; x := p < q; }\n  |                                                                    ^ a number meets a value of a set type, or a scalarset is compared by its order\n",
    ),
    (
        "explain",
        "scalarset P undefined; module main() { a : array P of boolean; n : 0..3; x : boolean; x := a[n]; }\n",
        3,
        "fault 21 at line 1 column 94\n  | scalarset P undefined; module main() { a : array P of boolean; n : 0..3; x : boolean; x := a[n]; }\n  |                                                                                              ^ a number meets a value of a set type, or a scalarset is compared by its order\n",
    ),
    (
        "explain",
        "scalarset CLIENT 0..3;\nmodule main() {\n  busy : array CLIENT of boolean;\n  for (i = 0; i <= 3; i = i + 1) init(busy[i]) := 0;\n}\n",
        3,
        "fault 22 at line 4 column 44\n  |   for (i = 0; i <= 3; i = i + 1) init(busy[i]) := 0;\n  |                                            ^ the variable of a `for` meets a value of a set type\n",
    ),
    (
        "explain",
        "module main() {\n  x : 0..1;\n  p : assert G x < 2;\n  forall (i in 0..1) subcase s[i] of p for x = i;\n  forall (i in 0..1) subcase t[i] of p for x = i;\n}\n",
        3,
        "fault 23 at line 5 column 38\n  |   forall (i in 0..1) subcase t[i] of p for x = i;\n  |                                      ^ what is split is nothing that can be split\n",
    ),
    (
        "explain",
        "scalarset P undefined;\nmodule main() {\n  x : P;\n  busy : array P of boolean;\n  forall (i in P) p[i] : assert G (busy[i] -> busy[x] | x ~= i);\n  forall (j in P) subcase s[j] of p[i] for x = j;\n}\n",
        3,
        "fault 24 at line 6 column 37\n  |   forall (j in P) subcase s[j] of p[i] for x = j;\n  |                                     ^ the names of a split do not fit\n",
    ),
    (
        "explain",
        "module main() {\n  x, y : boolean;\n  x := 1;\n  y := x;\n  layer spec : { y := 1; }\n  using x//spec prove y//spec;\n}\n",
        3,
        "fault 26 at line 6 column 9\n  |   using x//spec prove y//spec;\n  |         ^ what is used, or proved, is not there\n",
    ),
    (
        "explain",
        "scalarset P undefined;\nmodule main() {\n  busy : array P of boolean;\n  forall (i in P) p[i] : assert G (busy[i] | ~busy[i]);\n  forall (i in P) using P->{j} prove p[i];\n}\n",
        3,
        "fault 28 at line 5 column 29\n  |   forall (i in P) using P->{j} prove p[i];\n  |                             ^ names after `prove` or in the braces of a use do not fit\n",
    ),
    (
        "explain",
        "module main() {\n  x : array 0..63 of array 0..3 of boolean;\n  forall (a in 0..63) forall (b in 0..63) forall (c in 0..3)\n    p[a][b][c] : assert G (a = b -> x[a][c] = x[b][c]);\n}\n",
        3,
        "fault 29 at line 4 column 5\n  |     p[a][b][c] : assert G (a = b -> x[a][c] = x[b][c]);\n  |     ^ a unit has too many parameters or too many cases\n",
    ),
    (
        "explain",
        "module main() {\n  table : array 0..255 of 0..255;\n  n : 0..255;\n  p : assert G (table[n] <= 255);\n}\n",
        3,
        "fault 30 at line 4 column 3\n  |   p : assert G (table[n] <= 255);\n  |   ^ a case has more than 1,024 state bits\n",
    ),
];

#[test]
fn mistakes_are_explained_2(rt: HostRuntime) -> Result<(), Fail> {
    all_are_answered(rt.alloc(), ROWS_2)
}
