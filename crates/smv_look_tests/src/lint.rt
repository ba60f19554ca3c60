//! Texts with what is warned of in them. The answers were written by hand.

use crate::rows::{Row, all_are_answered};
use std::test::Fail;

const ROWS: &[Row] = &[
    (
        "lint",
        "module main() {\n  x : 0..5;\n  y : 2..3;\n  init(x) := 7;\n  next(x) := y = 2 ? {0, 6} : x;\n  next(y) := {1..2, 3};\n  small : assert G x < 6;\n}\n",
        1,
        "x at line 4 column 14: 7 is not in 0..5, so nothing is ruled out here\nx at line 5 column 26: 6 is not in 0..5, so nothing is ruled out here\ny at line 6 column 15: 1..2 is not within 2..3, so nothing is ruled out here\n",
    ),
    (
        "lint",
        "module main() {\n  t : array 0..3 of 0..4;\n  for (i = 0; i <= 3; i = i + 1) init(t[i]) := i + 2;\n  u : 0..3;\n  next(u) := 1 - 2;\n  ok : assert G (t[0] < 5 & u < 4);\n}\n",
        1,
        "t at line 3 column 48: 5 is not in 0..4, so nothing is ruled out here\nu at line 5 column 14: this is below 0 or above 511, so nothing is ruled out here\n",
    ),
    (
        "lint",
        "module main() {\n  x : 0..7;\n  init(x) := 0;\n  next(x) := x = 9 ? {0, 7, 2..3, 300 mod 8} : x + 1;\n  ok : assert G (x + 300 < 308);\n}\n",
        0,
        "",
    ),
    (
        "lint",
        "module main(request, grant) {\n  input request : boolean;\n  output grant : boolean;\n  ready, idle : boolean;\n  grant := request & ready;\n  next(idle) := ~idle;\n}\n",
        1,
        "main at line 1 column 1: there is no claim and no map, so nothing is proved\nready at line 4 column 3: nothing outside layers assigns it, so it is free; declare it as an input if that is meant\nidle at line 4 column 10: nothing reads it and no map is about it; declare it as an output if that is meant\n",
    ),
    (
        "lint",
        "module main() {\n  x : boolean;\n  abstract want, old : boolean;\n  init(x) := 0;\n  next(x) := ~x;\n  layer spec : { x := want; }\n}\n",
        1,
        "x at line 2 column 3: nothing reads it and no proof uses its maps; declare it as an output if that is meant\nwant at line 3 column 12: no layer defines it, so it is free\nold at line 3 column 18: no layer defines it, so it is free\nold at line 3 column 18: nothing reads it and no map is about it\n",
    ),
    (
        "lint",
        "scalarset P undefined;\nmodule main() {\n  q : P;\n  a : array P of 0..9;\n  next(q) := q;\n  forall (i in P) next(a[i]) := 10;\n  forall (i in P) p[i] : assert G a[i] < 10;\n  forall (i in P) forall (j in P) subcase s[j] of p[i] for q = j;\n}\n",
        1,
        "a at line 6 column 33: 10 is not in 0..9, so nothing is ruled out here\n",
    ),
    (
        "lint",
        "module half(a, b) {\n  input a : boolean;\n  output b : boolean;\n  c : boolean;\n  b := c;\n}\nmodule main() {\n  x, y : boolean;\n  h : half(x, y);\n  next(x) := y;\n  p : assert G x;\n}\n",
        1,
        "h.a at line 2 column 9: nothing reads it and no map is about it\nh.c at line 4 column 3: nothing outside layers assigns it, so it is free; declare it as an input if that is meant\n",
    ),
    (
        "lint",
        "module main(go, y) {\n  input go : boolean;\n  input y : 0..255;\n  x : array 0..2 of 0..7;\n  next(x[0]) := x[0] + 1;\n  if (go) next(x[1]) := x[1] + 1;\n  next(x[2]) := y < 8 ? y : go ? {0, y} : (y + 1) mod 8;\n  ok : assert G (x[0] + x[1] + x[2] < 22);\n}\n",
        1,
        "x at line 5 column 17: by types and conditions this is within 1..8; where it is outside 0..7, nothing is ruled out\nx at line 7 column 38: by types and conditions this is within 8..255; where it is outside 0..7, nothing is ruled out\n",
    ),
    (
        "lint",
        "module main(a, b, c) {\n  input a, b, c : 0..255;\n  s, t : boolean;\n  d : 0..255;\n  s := a + b > 500;\n  t := a + b + c > 500 | a + b + (c > 3 ? 1 : 0) > 500;\n  d := a > 0 & 3 <= b ? (b - 3) + (a - 1) - c : 0;\n  ok : assert G (s -> t & d > 0);\n}\n",
        1,
        "t at line 6 column 8: types and conditions do not keep this sum up to 511; above that it is Undefined\nd at line 7 column 26: by types and conditions this is within 0..506; where it is outside 0..255, nothing is ruled out\n",
    ),
    (
        "lint",
        "module main(n, m) {\n  input n : 0..7;\n  input m : 0..4;\n  v : array 0..3 of boolean;\n  x, y : boolean; z : array 0..3 of boolean;\n  forall (i in 0..3) next(v[i]) := i < 3 & v[i + 1];\n  x := v[m] & (n > 3 | v[n]) & ~(n >= 4 | ~v[n]);\n  y := |[ v[i] : i in 0..5 ] | v[n - 4];\n  for (i = 0; i < 4; i = i + 1) if (i < 2) z[i] := v[i + 2];\n  ok : assert G (x & y -> z[0] & v[n]);\n}\n",
        1,
        "y at line 8 column 13: by types and conditions this is within 0..5; as an index outside 0..3 it makes what is read Undefined\ny at line 8 column 34: types and conditions do not keep this difference from going below 0; there it is Undefined\n",
    ),
    (
        "lint",
        "module main(go) {\n  input go : boolean;\n  x, y : 0..3;\n  z : array 0..3 of boolean;\n  if (1 = 2) { next(x) := 1; next(y) := x; }\n  for (i = 0; i < 4; i = i + 1) if (i = 2) next(z[i]) := go; else next(z[i]) := 0 ? go : z[i];\n  ok : assert G (1 = 1 & x = y & z[0]);\n}\n",
        1,
        "x at line 5 column 7: this condition is made of constants alone, so it is the same at each time\nz at line 6 column 81: this condition is made of constants alone, so it is the same at each time\n",
    ),
    (
        "lint",
        "module main(n, m) {\n  input n : 0..7;\n  input m : 0..9;\n  v : array 0..3 of boolean;\n  x, y, z, u : boolean;\n  forall (i in 0..3) next(v[i]) := ~v[i];\n  x := n < 4 -> v[n];\n  y := v[n] -> n < 4;\n  z := n > 0 -> n < 5 -> v[n - 1];\n  u := ~(n >= 4) -> v[n] & v[m];\n  ok : assert G (x & y & z & u);\n}\n",
        1,
        "y at line 8 column 10: by types and conditions this is within 0..7; as an index outside 0..3 it makes what is read Undefined\nu at line 10 column 30: by types and conditions this is within 0..9; as an index outside 0..3 it makes what is read Undefined\n",
    ),
];

#[test]
fn texts_are_warned_of(rt: HostRuntime) -> Result<(), Fail> {
    all_are_answered(rt.alloc(), ROWS)
}
