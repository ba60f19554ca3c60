//! Claims by induction: what is proved so and not otherwise, each refusal, and faults of the strengthened text at their places in the text that was read.

use crate::calls::{Row, all_are_answered, is_answered};
use std::test::Fail;

const CHAIN: &'static str =
    "ordset I undefined;\nmodule main() {\n  w : array I of I;\n  x : array I of boolean;\n  forall (i in I) { init(x[i]) := 1; next(x[i]) := 1; }\n  layer L : { forall (i in I) x[i] := w[i] < i ? x[w[i]] : 1; }\n  forall (i in I) p[i] : assert G x[i];\n  forall (i in I) forall (j in I) subcase s[j] of p[i] for w[i] = j;\n  forall (i in I) forall (j in I) subcase m[j] of x[i]//L for w[i] = j;\n  using x//L prove s;\n}\n";

const INDUCTIONS: &[Row] = &[
    // Each value of the chain is that of a smaller one.
    (
        "induct p i",
        CHAIN,
        0,
        "x//L: true\np: true\nproved 2 of 2\n",
    ),
    (
        "prove",
        CHAIN,
        1,
        "x//L: true\np: false at 0\n case #1, #0\n time 0: w[#0] = *0, w[#1] = #0, x[#0] = 0, x[#1] = 0\nproved 1 of 2\n",
    ),
    // The variable's name as a field's and in comments.
    (
        "induct p i",
        "ordset I undefined; module main() { s : struct { i : boolean; }; x : array I of boolean; init(s.i) := 1; next(s.i) := 1; forall (i in I) { init(x[i]) := 1; next(x[i]) := 1; p[i] : assert G /* i */ (x[i] & s.i) /* i */; } }",
        0,
        "p: true\nproved 1 of 1\n",
    ),
    // A claim that is false of the least value is false.
    (
        "induct fresh t",
        "ordset TIME undefined; scalarset WORD undefined; module main() { seen : array TIME of array WORD of boolean; forall (t in TIME) forall (w in WORD) fresh[t][w] : assert G ~seen[t][w]; }",
        1,
        "fresh: false at 0\n case #0, #0\n time 0: seen[#0][#0] = 1\nproved 0 of 1\n",
    ),
    (
        "induct p i --steps 1",
        "ordset I undefined; module main() { n : 0..3; init(n) := 0; next(n) := n < 2 ? n + 1 : n; forall (i in I) p[i] : assert G (n < 3); }",
        2,
        "p: unknown steps\n case #0\nproved 0 of 1\n",
    ),
    // The text's own fault comes first.
    (
        "induct q j",
        "ordset I undefined; module main() { forall (i in I) p[i] : assert G x[i]; }",
        3,
        "fault 7 at line 1 column 69\n",
    ),
    (
        "induct q i",
        "module main() { p : assert G 1 }",
        3,
        "fault 5 at line 1 column 32\n",
    ),
    // No such claim, or none of `main`.
    (
        "induct q i",
        "ordset I undefined; module main() { x : array I of boolean; forall (i in I) p[i] : assert G x[i]; }",
        3,
        "fault 36 at line 1 column 1\n",
    ),
    (
        "induct p i",
        "ordset I undefined; module sub() { x : array I of boolean; forall (i in I) p[i] : assert G x[i]; } module main() { a : sub(); }",
        3,
        "fault 36 at line 1 column 1\n",
    ),
    // No such parameter, or none over the name of an ordset.
    ("induct p j", CHAIN, 3, "fault 36 at line 1 column 1\n"),
    (
        "induct p w",
        "ordset I undefined; scalarset P undefined; module main() { x : array P of boolean; forall (w in P) p[w] : assert G x[w]; }",
        3,
        "fault 36 at line 1 column 1\n",
    ),
    (
        "induct p i",
        "ordset I undefined; typedef J I; module main() { x : array I of boolean; forall (i in J) p[i] : assert G x[i]; }",
        3,
        "fault 36 at line 1 column 1\n",
    ),
    (
        "induct p k",
        "module main() { x : array 0..3 of boolean; forall (k in 0..3) p[k] : assert G x[k]; }",
        3,
        "fault 36 at line 1 column 1\n",
    ),
    // A variable may have a type's name. Without the fault of the strengthened text, `x in below0`, the claim would be proved, and it is false where there are two values.
    (
        "induct p J",
        "ordset I undefined; typedef J boolean; module main() { forall (J in I) p[J] : assert G (~(&[ 0 : x in J ]) & ~(|[ y < J : y in I ])); }",
        3,
        "fault 7 at line 1 column 72\n",
    ),
    // The strengthened text passes a limit: levels, state bits.
    (
        "induct p i",
        "ordset I undefined; module main() { x : array I of boolean; forall (i in I) p[i] : assert G ((((((((((((((((((((((((((((((((((((((((((((((((((((((((((x[i] | ~x[i])))))))))))))))))))))))))))))))))))))))))))))))))))))))))); }",
        0,
        "p: true\nproved 1 of 1\n",
    ),
    (
        "induct p i",
        "ordset I undefined; module main() { x : array I of boolean; forall (i in I) p[i] : assert G (((((((((((((((((((((((((((((((((((((((((((((((((((((((((((x[i] | ~x[i]))))))))))))))))))))))))))))))))))))))))))))))))))))))))))); }",
        3,
        "fault 6 at line 1 column 77\n",
    ),
    (
        "induct p i",
        "ordset I undefined; module main() { x : array I of array 0..70 of 0..255; forall (i in I) forall (j in I) p[i][j] : assert G &[ x[i][k] <= 255 : k in 0..70 ]; }",
        3,
        "fault 30 at line 1 column 107\n",
    ),
    // Words.
    (
        "induct --steps 9 p i",
        CHAIN,
        0,
        "x//L: true\np: true\nproved 2 of 2\n",
    ),
    (
        "induct p",
        CHAIN,
        4,
        "usage: smv prove|only|print|generated\n",
    ),
    (
        "induct p i j",
        CHAIN,
        4,
        "usage: smv prove|only|print|generated\n",
    ),
    (
        "induct p i --bits near",
        CHAIN,
        4,
        "usage: smv prove|only|print|generated\n",
    ),
    (
        "induct p i --nodes 0",
        CHAIN,
        4,
        "usage: smv prove|only|print|generated\n",
    ),
];

#[test]
fn claims_are_proved_by_induction(rt: HostRuntime) -> Result<(), Fail> {
    all_are_answered(rt.alloc(), INDUCTIONS)
}

// A comment of so many blanks stands in the claim's expression, so it stands twice in the strengthened text.
#[test]
fn a_strengthened_text_may_be_too_long(rt: HostRuntime) -> Result<(), Fail> {
    let mut text =
        b"ordset I undefined; module main() { x : array I of boolean; forall (i in I) p[i] : assert G (x[i] /*".to_vec(
            rt.alloc(),
        )?;
    text.resize(600_000, b' ')?;
    text.extend_from_slice(b"*/ | ~x[i]); }")?;
    let fault = "fault 31 at line 1 column 1\n";
    let is_refused = is_answered(rt.alloc(), "induct p i", text.as_slice(), 3, fault)?;
    let is_true = is_answered(
        rt.alloc(),
        "only p",
        text.as_slice(),
        8,
        "p: true\nproved 1 of 1\n",
    )?;
    if is_refused && is_true {
        Ok(())
    } else {
        Err(Fail::new(fault))
    }
}
