//! Claims over several times: what is proved of them and what is shown of a false one, each refusal, and faults of the translated text at their places in the text that was read.

use crate::calls::{Row, all_are_answered};
use std::test::Fail;

const TOGGLE: &'static str =
    "module main() { x : boolean; init(x) := 0; next(x) := ~x; p : assert G if (x) X (~x); }";

const FORMULAS: &[Row] = &[
    ("ltl", TOGGLE, 0, "p: true\nproved 1 of 1\n"),
    (
        "ltl --bits declared --nodes 9999 --steps 99",
        TOGGLE,
        0,
        "p: true\nproved 1 of 1\n",
    ),
    // The monitor tells of time 2 that `x` was 1 a step ago.
    (
        "ltl",
        "module main() { x : boolean; init(x) := 0; next(x) := ~x; p : assert G if (x) X (x); }",
        1,
        "p: false at 2\n time 0: x = 0, m0 = 0\n time 1: x = 1, m0 = 0\n time 2: x = 0, m0 = 1\nproved 0 of 1\n",
    ),
    (
        "ltl",
        "module main() { x : boolean; init(x) := 0; next(x) := ~x; p : assert G W (x, 0); }",
        1,
        "p: false at 0\n time 0: x = 0, m0 = 0\nproved 0 of 1\n",
    ),
    // What the second part of a W has met once need not hold again.
    (
        "ltl",
        "module main() { x, y : boolean; init(x) := 1; next(x) := x & ~y; p : assert G if (x) W (x, y); }",
        0,
        "p: true\nproved 1 of 1\n",
    ),
    // A text without formulas is proved as it is.
    (
        "ltl",
        "module main() { x : boolean; p : assert G (x | ~x); }",
        0,
        "p: true\nproved 1 of 1\n",
    ),
    // A monitor for each value of a claim's parameter, and names that the text has already.
    (
        "ltl",
        "scalarset I undefined; module main() { m0 : array I of boolean; forall (i in I) p[i] : assert G if (m0[i]) X (m0[i]); }",
        1,
        "p: false at 1\n case #0\n time 0: m0[#0] = 1, m1[#0] = 0\n time 1: m0[#0] = 0, m1[#0] = 1\nproved 0 of 1\n",
    ),
    // Each instance of a module has its monitors; those of `main` have the next names.
    (
        "ltl",
        "module m(e) { input e : boolean; p : assert G if (e) X (e); } module main() { x : boolean; one : m(x); two : m(1); q : assert G X (x); }",
        1,
        "one.p: false at 1\n time 0: x = 1, one.e = 1, one.m0 = 0\n time 1: x = 0, one.e = 0, one.m0 = 1\ntwo.p: true\nq: false at 1\n time 0: x = 0, m1 = 0\n time 1: x = 0, m1 = 1\nproved 1 of 3\n",
    ),
    // A formula is split as any claim: by the time at which its last part is due.
    (
        "ltl",
        "module main() { x : 0..2; init(x) := 0; next(x) := (x + 1) mod 3; p : assert G if (x = 0) X (x = 2); forall (k in 0..2) subcase s[k] of p for x = k; }",
        1,
        "p: false at 1\n case 1\n time 0: x = 0, m0 = 0\n time 1: x = 1, m0 = 1\nproved 0 of 1\n",
    ),
    // What is Undefined puts no condition out.
    (
        "ltl",
        "module main() { x : boolean; p : assert G if (1 - 2) X (x | ~x); q : assert G if (1 - 2) X (x); }",
        1,
        "p: true\nq: false at 1\n time 0: x = 0, m1 = 0\n time 1: x = 0, m1 = 1\nproved 1 of 2\n",
    ),
    // Budgets.
    (
        "ltl --steps 1",
        TOGGLE,
        2,
        "p: unknown steps\nproved 0 of 1\n",
    ),
    (
        "ltl --nodes 1",
        TOGGLE,
        2,
        "p: unknown nodes 2\nproved 0 of 1\n",
    ),
    // Eight X are as many as a formula may have.
    (
        "ltl",
        "module main() { x : boolean; p : assert G X (X (X (X (X (X (X (X (x | ~x)))))))); }",
        0,
        "p: true\nproved 1 of 1\n",
    ),
    (
        "ltl",
        "module main() { x : boolean; p : assert G X (X (X (X (X (X (X (X (X (x))))))))); }",
        3,
        "fault 37 at line 1 column 67\n",
    ),
    // Form: no command but this one reads formulas, and these forms alone.
    ("prove", TOGGLE, 3, "fault 5 at line 1 column 72\n"),
    ("print", TOGGLE, 3, "fault 5 at line 1 column 72\n"),
    (
        "ltl",
        "module main() { x : boolean; p : assert G X x; }",
        3,
        "fault 5 at line 1 column 45\n",
    ),
    (
        "ltl",
        "module main() { x : boolean; p : assert G X (x) & x; }",
        3,
        "fault 5 at line 1 column 49\n",
    ),
    (
        "ltl",
        "module main() { x : boolean; p : assert G U (x, x); }",
        3,
        "fault 5 at line 1 column 43\n",
    ),
    // A fault within a formula is told at the claim's name, any other where it stands.
    (
        "ltl",
        "module main() { x : boolean; p : assert G if (x) X (y); }",
        3,
        "fault 7 at line 1 column 30\n",
    ),
    (
        "ltl",
        "module main() { x : boolean; p : assert G X (x); y := 1; }",
        3,
        "fault 7 at line 1 column 50\n",
    ),
    // Lines, columns and comments are those of the text that was read, also behind what is written for formulas.
    (
        "ltl",
        "module main() {\r\n  x : boolean; -- } X (\r\n  p : assert /* ; */ G if (x) X (y);\r\n}",
        3,
        "fault 7 at line 3 column 3\n",
    ),
    (
        "ltl",
        "module main() { x : boolean; p : assert G X (x); n : m(x); } module m(e) { input e : boolean; z := 1; }",
        3,
        "fault 7 at line 1 column 95\n",
    ),
    // Faults of the translated text alone: a monitor is an array over the parameters of its claim, and a condition stands deeper in it.
    (
        "ltl",
        "typedef T 0..1; module main() { forall (i in T) forall (j in T) forall (k in T) forall (l in T) forall (n in T) p[i][j][k][l][n] : assert G X (1); }",
        3,
        "fault 25 at line 1 column 24\n",
    ),
    (
        "ltl",
        "module main() { p : assert G if (((((((((((((((((((((((((((((((((((((((((((((((((((((((((((((1))))))))))))))))))))))))))))))))))))))))))))))))))))))))))))) X (1); }",
        3,
        "fault 6 at line 1 column 17\n",
    ),
    // Words.
    (
        "ltl p",
        TOGGLE,
        4,
        "usage: smv prove|only|print|generated\n",
    ),
    (
        "ltl --bits far",
        TOGGLE,
        4,
        "usage: smv prove|only|print|generated\n",
    ),
];

#[test]
fn claims_over_several_times_are_proved(rt: HostRuntime) -> Result<(), Fail> {
    all_are_answered(rt.alloc(), FORMULAS)
}
