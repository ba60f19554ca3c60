//! The commands of `README.md` and `docs/FAULTS.md` and `docs/COMING-FROM.md`, with their texts, exit statuses and answers. Written by `tools/pages.py --tests`.

use crate::calls::{Row, all_are_answered, blanks_are_answered};
use std::test::Fail;

const ROWS_1: &[Row] = &[
    (
        "print",
        "module main(){x:boolean;p:assert G (x|(~x));}",
        0,
        "module main ( ) { x : boolean ;\np : assert G x | ~ x ;\n}\n",
    ),
    (
        "prove",
        "module main() {\n  x : boolean;\n  x := !x;\n}\n",
        3,
        "fault 1 at line 3 column 8\n",
    ),
    (
        "prove",
        "module main() {\n  x : 0..7;\n  next(x) := (x + 1000) mod 8;\n}\n",
        3,
        "fault 2 at line 3 column 19\n",
    ),
    (
        "prove",
        "module main() {\n  the_signal_that_says_that_the_first_of_the_two_requests_was_granted : boolean;\n}\n",
        3,
        "fault 3 at line 2 column 3\n",
    ),
    (
        "prove",
        "module main() {\n  x : boolean;   /* the request\n}\n",
        3,
        "fault 4 at line 2 column 18\n",
    ),
    (
        "prove",
        "module main() {\n  x : boolean;\n  next(x) = ~x;\n}\n",
        3,
        "fault 5 at line 3 column 11\n",
    ),
    (
        "prove",
        "module main() {\n  x : boolean;\n  p : assert G ~~~~~~~~~~~~~~~~~~~~~~~~~~~~~~~~~~~~~~~~~~~~~~~~~~~~~~~~~~~~~~~~~~x;\n}\n",
        3,
        "fault 6 at line 3 column 79\n",
    ),
    (
        "prove",
        "module main() {\n  ready : boolean;\n  ready := raedy;\n}\n",
        3,
        "fault 7 at line 3 column 12\n",
    ),
    (
        "prove",
        "module main() {\n  x : {idle, busy};\n  y : {busy, done};\n}\n",
        3,
        "fault 8 at line 3 column 8\n",
    ),
    (
        "prove",
        "module Main() { x : boolean; }\n",
        3,
        "fault 9 at line 1 column 1\n",
    ),
    (
        "prove",
        "module stage(a) { input a : boolean; next_stage : stage(a); }\nmodule main() { x : boolean; s : stage(x); }\n",
        3,
        "fault 10 at line 1 column 51\n",
    ),
    (
        "prove",
        "module inverter(a, b) { input a : boolean; output b : boolean; b := ~a; }\nmodule main() { x : boolean; n : inverter(x); }\n",
        3,
        "fault 11 at line 2 column 34\n",
    ),
    (
        "prove",
        "module main() {\n  memory : array 0..255 of array 0..1 of boolean;\n}\n",
        3,
        "fault 25 at line 1 column 8\n",
    ),
    (
        "prove",
        "module main() {\n  state : {idle, busy};\n  ready : boolean;\n  ready := state;\n}\n",
        3,
        "fault 12 at line 4 column 12\n",
    ),
    (
        "prove",
        "module main() {\n  x : 7..0;\n}\n",
        3,
        "fault 13 at line 2 column 7\n",
    ),
    (
        "prove",
        "module main() {\n  x : 0..3;\n  p : assert G x = {0, 1};\n}\n",
        3,
        "fault 14 at line 3 column 20\n",
    ),
    (
        "prove",
        "module main() {\n  a, b : boolean;\n  x : 0..2;\n  if (a) next(x) := 1;\n  if (b) next(x) := 2;\n}\n",
        3,
        "fault 15 at line 5 column 10\n",
    ),
    (
        "prove",
        "module main() {\n  x : boolean;\n  init(x) := 0;\n  x := ~x;\n}\n",
        3,
        "fault 16 at line 4 column 3\n",
    ),
    (
        "prove",
        "scalarset P undefined;\nmodule main() {\n  busy : array P of boolean;\n  any : boolean;\n  forall (i in P) any := busy[i];\n}\n",
        3,
        "fault 17 at line 5 column 19\n",
    ),
    (
        "prove",
        "module main() {\n  a, b : boolean;\n  a := ~b;\n  b := a;\n}\n",
        3,
        "fault 18 at line 4 column 3\n",
    ),
    (
        "prove",
        "module main() {\n  abstract wanted : boolean;\n  x : boolean;\n  layer spec : { wanted := 0; }\n  x := wanted;\n}\n",
        3,
        "fault 19 at line 5 column 8\n",
    ),
    (
        "prove",
        "module main() {\n  abstract wanted : boolean;\n  wanted := 0;\n}\n",
        3,
        "fault 20 at line 3 column 3\n",
    ),
    (
        "prove",
        "scalarset CLIENT undefined;\nmodule main() {\n  owner : CLIENT;\n  init(owner) := 0;\n}\n",
        3,
        "fault 21 at line 4 column 18\n",
    ),
    (
        "prove",
        "scalarset CLIENT 0..3;\nmodule main() {\n  busy : array CLIENT of boolean;\n  for (i = 0; i <= 3; i = i + 1) init(busy[i]) := 0;\n}\n",
        3,
        "fault 22 at line 4 column 44\n",
    ),
    (
        "prove",
        "module main() {\n  x : 0..1;\n  p : assert G x < 2;\n  forall (i in 0..1) subcase s[i] of p for x = i;\n  forall (i in 0..1) subcase t[i] of p for x = i;\n}\n",
        3,
        "fault 23 at line 5 column 38\n",
    ),
    (
        "prove",
        "scalarset P undefined;\nmodule main() {\n  x : P;\n  busy : array P of boolean;\n  forall (i in P) p[i] : assert G (busy[i] -> busy[x] | x ~= i);\n  forall (j in P) subcase s[j] of p[i] for x = j;\n}\n",
        3,
        "fault 24 at line 6 column 37\n",
    ),
    (
        "prove",
        "module main() {\n  x, y : boolean;\n  x := 1;\n  y := x;\n  layer spec : { y := 1; }\n  using x//spec prove y//spec;\n}\n",
        3,
        "fault 26 at line 6 column 9\n",
    ),
    (
        "prove",
        "module main() {\n  x : boolean;\n  p : assert G x;\n  q : assert G x;\n  using q prove p;\n  using (q) prove p;\n}\n",
        3,
        "fault 27 at line 6 column 19\n",
    ),
    (
        "prove",
        "scalarset P undefined;\nmodule main() {\n  busy : array P of boolean;\n  forall (i in P) p[i] : assert G (busy[i] | ~busy[i]);\n  forall (i in P) using P->{j} prove p[i];\n}\n",
        3,
        "fault 28 at line 5 column 29\n",
    ),
    (
        "prove",
        "module main() {\n  x : array 0..63 of array 0..3 of boolean;\n  forall (a in 0..63) forall (b in 0..63) forall (c in 0..3)\n    p[a][b][c] : assert G (a = b -> x[a][c] = x[b][c]);\n}\n",
        3,
        "fault 29 at line 4 column 5\n",
    ),
    (
        "prove",
        "module main() {\n  table : array 0..255 of 0..255;\n  n : 0..255;\n  p : assert G (table[n] <= 255);\n}\n",
        3,
        "fault 30 at line 4 column 3\n",
    ),
    (
        "prove",
        "scalarset WORD undefined; scalarset ADDR undefined; typedef LANE 0..3; typedef entry struct { full : boolean; data : WORD; }; module inverter(a, b) { input a : boolean; output b : boolean; b := ~a; } module main() { start : boolean; ready : boolean; count : 0..15; mask : array LANE of boolean; mode : {idle, busy}; din : WORD; buffer : array LANE of entry; memory : array ADDR of WORD; u : inverter(start, ready); opposite : assert G (ready <-> ~start); }",
        0,
        "opposite: true\nproved 1 of 1\n",
    ),
    (
        "prove",
        "module main() { go, stop, last, any : boolean; count : 0..15; mode : {idle, busy, done}; led : {red, green}; mask : array 0..3 of boolean; last := count = 15; init(count) := 0; if (go & ~last) next(count) := count + 1; else if (stop) next(count) := 0; init(mode) := idle; switch (mode) { idle : if (go) next(mode) := busy; busy : { if (last) next(mode) := done; } default : next(mode) := {idle, done}; } default led := red; in if (mode = busy) led := green; forall (i in 0..3) mask[i] := i < count; any := |[ mask[i] : i in 0..3 ]; lit : assert G (led = green <-> mode = busy); some : assert G (any <-> count > 0); }",
        0,
        "lit: true\nsome: true\nproved 2 of 2\n",
    ),
    (
        "prove",
        "module main() { a, b, c : boolean; n : 0..15; v : array 0..3 of boolean; both : assert G (~a | ~b <-> ~(a & b)); odd : assert G (n mod 2 = 1 | n mod 2 = 0); unlike : assert G ((a ~= b) = (a & ~b | b & ~a)); wrapped : assert G ((n + 1) mod 16 ~= n); within : assert G (n in {1, 4..6} -> n ~= 2); all : assert G (&[ v[i] : i in 0..3 ] <-> v[0] + v[1] + v[2] + v[3] = 4); chosen : assert G (c -> (c ? n : 0) = n); }",
        0,
        "both: true\nodd: true\nunlike: true\nwrapped: true\nwithin: true\nall: true\nchosen: true\nproved 7 of 7\n",
    ),
    (
        "prove",
        "module main() { request, grant : boolean; init(grant) := 0; next(grant) := request; abstract asked : boolean; abstract waited : 0..2; layer watch : { init(asked) := 0; next(asked) := request; init(waited) := 0; next(waited) := request & ~grant ? (waited < 2 ? waited + 1 : 2) : 0; } answered : assert G (asked -> grant); wanted : assert G (grant -> asked); soon : assert G (waited < 2); never : assert G ~grant; }",
        1,
        "answered: true\nwanted: true\nsoon: true\nnever: false at 1\n time 0: request = 1, grant = 0\n time 1: request = 0, grant = 1\nproved 3 of 4\n",
    ),
    (
        "prove",
        "module main() { n, old : 0..3; go, was, latch, lamp, some : boolean; v : array 0..2 of boolean; init(n) := 2; next(n) := n + 1; init(old) := 1; next(old) := n; wraps : assert G (old = 3 -> n = 0); if (go) latch := 1; init(was) := 0; next(was) := latch; stays : assert G (was -> latch); init(lamp) := 0; off : assert G ~lamp; if (n) some := 1; else some := 0; positive : assert G (n > 0 -> some); either : assert G (v[n] | ~v[n]); }",
        1,
        "wraps: false at 2\n time 0: n = 2, old = 1\n time 1: n = 3, old = 2\n time 2: n = 1, old = 3\nstays: false at 1\n time 0: go = 0, was = 0, latch = 1\n time 1: go = 0, was = 1, latch = 0\noff: false at 1\n time 0: lamp = 0\n time 1: lamp = 1\npositive: false at 0\n time 0: n = 2, some = 0\neither: false at 1\n time 0: n = 2, v[0] = 0, v[1] = 0, v[2] = 0\n time 1: n = 3, v[0] = 0, v[1] = 0, v[2] = 0\nproved 0 of 5\n",
    ),
];

#[test]
fn answers_1(rt: HostRuntime) -> Result<(), Fail> {
    all_are_answered(rt.alloc(), ROWS_1)
}

#[test]
fn answers_to_blanks_1(rt: HostRuntime) -> Result<(), Fail> {
    blanks_are_answered(
        rt.alloc(),
        "prove",
        1_048_577,
        3,
        "fault 31 at line 1 column 1\n",
    )
}
