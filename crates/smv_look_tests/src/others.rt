//! Texts with a fault of which more is told than its line: its other place, or what could stand there. The answers were written by hand.

use crate::rows::{Row, all_are_answered};
use std::test::Fail;

const ROWS: &[Row] = &[
    // Two signals.
    (
        "explain",
        "module main() {\n  x : boolean;\n  x : 0..3;\n}\n",
        3,
        "fault 8 at line 3 column 3\n  |   x : 0..3;\n  |   ^ a name is declared twice\n  |   x : boolean;\n  |   ^ declared first here, at line 2 column 3\n",
    ),
    // A type and a module.
    (
        "explain",
        "scalarset P undefined;\nmodule P() { x : boolean; }\nmodule main() { y : boolean; }\n",
        3,
        "fault 8 at line 2 column 8\n  | module P() { x : boolean; }\n  |        ^ a name is declared twice\n  | scalarset P undefined;\n  |           ^ declared first here, at line 1 column 11\n",
    ),
    // Two fields of a struct.
    (
        "explain",
        "module main() {\n  s : struct { a : boolean; a : boolean; };\n}\n",
        3,
        "fault 8 at line 2 column 29\n  |   s : struct { a : boolean; a : boolean; };\n  |                             ^ a name is declared twice\n  |   s : struct { a : boolean; a : boolean; };\n  |                ^ declared first here, at line 2 column 16\n",
    ),
    // Two formals; the first of three counts.
    (
        "explain",
        "module m(a, a, a) { input a : boolean; }\nmodule main() { x : boolean; y : m(x, x, x); }\n",
        3,
        "fault 8 at line 1 column 13\n  | module m(a, a, a) { input a : boolean; }\n  |             ^ a name is declared twice\n  | module m(a, a, a) { input a : boolean; }\n  |          ^ declared first here, at line 1 column 10\n",
    ),
    // A variable inside one of its name.
    (
        "explain",
        "module main() {\n  x : array 0..1 of boolean;\n  forall (i in 0..1) forall (i in 0..1) init(x[i]) := 0;\n}\n",
        3,
        "fault 8 at line 3 column 30\n  |   forall (i in 0..1) forall (i in 0..1) init(x[i]) := 0;\n  |                              ^ a name is declared twice\n  |   forall (i in 0..1) forall (i in 0..1) init(x[i]) := 0;\n  |           ^ declared first here, at line 3 column 11\n",
    ),
    // A constant that is a signal of the module, which stands before it.
    (
        "explain",
        "module main() {\n  busy : boolean;\n  y : {idle, busy};\n}\n",
        3,
        "fault 8 at line 3 column 14\n  |   y : {idle, busy};\n  |              ^ a name is declared twice\n  |   busy : boolean;\n  |   ^ declared first here, at line 2 column 3\n",
    ),
    // A constant that is listed in another module.
    (
        "explain",
        "module m() { y : {idle, busy}; }\nmodule main() {\n  a : m();\n  z : {idle, done};\n}\n",
        3,
        "fault 8 at line 4 column 8\n  |   z : {idle, done};\n  |        ^ a name is declared twice\n  | module m() { y : {idle, busy}; }\n  |                   ^ declared first here, at line 1 column 19\n",
    ),
    // A variable that is a name of its module, which is declared behind it.
    (
        "explain",
        "module main() {\n  x : array 0..1 of boolean;\n  forall (j in 0..1) init(x[j]) := 0;\n  j : boolean;\n}\n",
        3,
        "fault 8 at line 4 column 3\n  |   j : boolean;\n  |   ^ a name is declared twice\n  |   forall (j in 0..1) init(x[j]) := 0;\n  |           ^ declared first here, at line 3 column 11\n",
    ),
    // The module that holds all others, whatever its name.
    (
        "explain",
        "module a() { x : boolean; }\nmodule top() { y : a(); }\n",
        3,
        "fault 9 at line 1 column 1\n  | module a() { x : boolean; }\n  | ^ there is no module `main`\n  | module top() { y : a(); }\n  |        ^ no module has an instance of this one, at line 2 column 8\n",
    ),
    // No module that is in no other.
    (
        "explain",
        "module a() { y : b(); }\nmodule b() { x : a(); }\n",
        3,
        "fault 9 at line 1 column 1\n  | module a() { y : b(); }\n  | ^ there is no module `main`\n",
    ),
    // Two modules that contain each other.
    (
        "explain",
        "module a() { x : b(); }\nmodule b() { y : a(); }\nmodule main() { z : a(); }\n",
        3,
        "fault 10 at line 1 column 18\n  | module a() { x : b(); }\n  |                  ^ a module contains itself\n  | module a() { x : b(); }\n  |        ^ in which the instance stands, at line 1 column 8\n",
    ),
    // Of three assignments to one signal the first is told.
    (
        "explain",
        "module main() {\n  x : 0..3;\n  next(x) := 0;\n  default next(x) := 1; in next(x) := 2;\n}\n",
        3,
        "fault 15 at line 4 column 11\n  |   default next(x) := 1; in next(x) := 2;\n  |           ^ two assignments of one signal conflict\n  |   next(x) := 0;\n  |   ^ the other assignment is here, at line 3 column 3\n",
    ),
    // Constant indexes tell elements apart.
    (
        "explain",
        "module main() {\n  x : array 0..3 of boolean;\n  init(x[0]) := 0;\n  init(x[1]) := 0;\n  init(x[1]) := 1;\n}\n",
        3,
        "fault 15 at line 5 column 3\n  |   init(x[1]) := 1;\n  |   ^ two assignments of one signal conflict\n  |   init(x[1]) := 0;\n  |   ^ the other assignment is here, at line 4 column 3\n",
    ),
    // In a layer.
    (
        "explain",
        "module main() {\n  x : boolean;\n  abstract y : boolean;\n  layer old : {\n    y := x;\n    y := ~x;\n  }\n}\n",
        3,
        "fault 15 at line 6 column 5\n  |     y := ~x;\n  |     ^ two assignments of one signal conflict\n  |     y := x;\n  |     ^ the other assignment is here, at line 5 column 5\n",
    ),
    // A value of now, behind both others.
    (
        "explain",
        "module main() {\n  x : boolean;\n  init(x) := 0;\n  next(x) := x;\n  x := 1;\n}\n",
        3,
        "fault 16 at line 5 column 3\n  |   x := 1;\n  |   ^ a signal has a value of now and `init` or `next` besides\n  |   init(x) := 0;\n  |   ^ the other assignment is here, at line 3 column 3\n",
    ),
    // Of layers each has its own.
    (
        "explain",
        "module main() {\n  x : boolean;\n  abstract y : boolean;\n  layer one : { y := x; }\n  layer two : { init(y) := 0; y := x; }\n}\n",
        3,
        "fault 16 at line 5 column 31\n  |   layer two : { init(y) := 0; y := x; }\n  |                               ^ a signal has a value of now and `init` or `next` besides\n  |   layer two : { init(y) := 0; y := x; }\n  |                 ^ the other assignment is here, at line 5 column 17\n",
    ),
    // One map twice.
    (
        "explain",
        "module main() {\n  x, y : boolean;\n  y := x;\n  layer L : { y := x; }\n  p : assert G y;\n  using y//L, y//L prove p;\n}\n",
        3,
        "fault 27 at line 6 column 15\n  |   using y//L, y//L prove p;\n  |               ^ something is chosen twice\n  |   using y//L, y//L prove p;\n  |         ^ chosen first here, at line 6 column 9\n",
    ),
    // Two choices of one signal.
    (
        "explain",
        "module main() {\n  x, y : boolean;\n  y := x;\n  layer L : { y := x; }\n  p : assert G y;\n  using y//L, y//free prove p;\n}\n",
        3,
        "fault 27 at line 6 column 15\n  |   using y//L, y//free prove p;\n  |               ^ something is chosen twice\n  |   using y//L, y//free prove p;\n  |         ^ chosen first here, at line 6 column 9\n",
    ),
    // One claim twice.
    (
        "explain",
        "module main() {\n  x : boolean;\n  p : assert G x;\n  q : assert G x;\n  using q, (q) prove p;\n}\n",
        3,
        "fault 27 at line 5 column 13\n  |   using q, (q) prove p;\n  |             ^ something is chosen twice\n  |   using q, (q) prove p;\n  |         ^ chosen first here, at line 5 column 9\n",
    ),
    // Braces twice.
    (
        "explain",
        "scalarset P undefined;\nmodule main() {\n  x : array P of boolean;\n  forall (i in P) p[i] : assert G x[i];\n  forall (i in P) using P->{i}, P->{i} prove p[i];\n}\n",
        3,
        "fault 27 at line 5 column 33\n  |   forall (i in P) using P->{i}, P->{i} prove p[i];\n  |                                 ^ something is chosen twice\n  |   forall (i in P) using P->{i}, P->{i} prove p[i];\n  |                         ^ chosen first here, at line 5 column 25\n",
    ),
    // A signal that reads itself alone.
    (
        "explain",
        "module main() {\n  x : boolean;\n  x := ~x;\n}\n",
        3,
        "fault 18 at line 3 column 3\n  |   x := ~x;\n  |   ^ a signal reads itself without a delay\n  |   x := ~x;\n  |         ^ which reads this, at line 3 column 9\n",
    ),
    // By way of a condition.
    (
        "explain",
        "module main() {\n  x, y : boolean;\n  if (y) x := 1;\n  y := x;\n}\n",
        3,
        "fault 18 at line 4 column 3\n  |   y := x;\n  |   ^ a signal reads itself without a delay\n  |   y := x;\n  |        ^ which reads this, at line 4 column 8\n  |   if (y) x := 1;\n  |       ^ which reads this, at line 3 column 7\n",
    ),
    // An element that may be the same one.
    (
        "explain",
        "module main() {\n  x : array 0..2 of boolean;\n  i : 0..2;\n  x[0] := x[1];\n  x[1] := x[i];\n  x[2] := 0;\n}\n",
        3,
        "fault 18 at line 5 column 3\n  |   x[1] := x[i];\n  |   ^ a signal reads itself without a delay\n  |   x[1] := x[i];\n  |           ^ which reads this, at line 5 column 11\n",
    ),
    // One sign alone.
    (
        "explain",
        "module main { x : boolean; }\n",
        3,
        "fault 5 at line 1 column 13\n  | module main { x : boolean; }\n  |             ^ after this token no text can go on\n  | here may stand: (\n",
    ),
    // A number.
    (
        "explain",
        "module main() { x : 0..N; }\n",
        3,
        "fault 5 at line 1 column 24\n  | module main() { x : 0..N; }\n  |                        ^ after this token no text can go on\n  | here may stand: NUMBER\n",
    ),
    // Words with which a text may begin.
    (
        "explain",
        "x : boolean;\n",
        3,
        "fault 5 at line 1 column 1\n  | x : boolean;\n  | ^ after this token no text can go on\n  | here may stand: module ordset scalarset typedef\n",
    ),
];

#[test]
fn more_is_told_of_faults(rt: HostRuntime) -> Result<(), Fail> {
    all_are_answered(rt.alloc(), ROWS)
}
