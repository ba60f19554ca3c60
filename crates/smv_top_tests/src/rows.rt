//! Worked designs with their reports, and commands with their answers.

use crate::calls::{Row, USAGE, all_are_answered, answered};
use std::alloc::{AllocError, Global};
use std::test::Fail;

const ROWS: &[Row] = &[
    (
        "prove",
        "module main() { x : boolean; init(x) := 0; next(x) := ~x; p : assert G (x | ~x); }",
        0,
        "p: true\nproved 1 of 1\n",
    ),
    (
        "prove",
        "module main() { x : boolean; init(x) := 0; next(x) := ~x; p : assert G ~x; }",
        1,
        "p: false at 1\n time 0: x = 0\n time 1: x = 1\nproved 0 of 1\n",
    ),
    (
        "prove --steps 8",
        "module main() { x : 0..7; init(x) := 0; next(x) := (x + 1) mod 8; p : assert G (x <= 7); }",
        0,
        "p: true\nproved 1 of 1\n",
    ),
    (
        "prove --steps 7",
        "module main() { x : 0..7; init(x) := 0; next(x) := (x + 1) mod 8; p : assert G (x <= 7); }",
        2,
        "p: unknown steps\nproved 0 of 1\n",
    ),
    (
        "prove --nodes 1",
        "module main() { x : boolean; init(x) := 0; next(x) := ~x; p : assert G (x | ~x); }",
        2,
        "p: unknown nodes 4\nproved 0 of 1\n",
    ),
    (
        "prove --nodes 4",
        "module main() { x : boolean; init(x) := 0; next(x) := ~x; p : assert G (x | ~x); }",
        2,
        "p: unknown nodes 5\nproved 0 of 1\n",
    ),
    (
        "prove --nodes 5",
        "module main() { x : boolean; init(x) := 0; next(x) := ~x; p : assert G (x | ~x); }",
        0,
        "p: true\nproved 1 of 1\n",
    ),
    // The sum 2 is outside the type, so every value is allowed.
    (
        "prove",
        "module main() { x : 0..1; init(x) := 1; next(x) := x + 1; p : assert G (x = 1); }",
        1,
        "p: false at 1\n time 0: x = 1\n time 1: x = 0\nproved 0 of 1\n",
    ),
    // Both uses are of the time before.
    (
        "prove",
        "module main() { a, b : boolean; init(a) := 0; init(b) := 0; next(a) := b; next(b) := a; layer spec : { a := 0; b := 0; } using b//spec prove a//spec; using a//spec prove b//spec; }",
        0,
        "a//spec: true\nb//spec: true\nproved 2 of 2\n",
    ),
    // The use of q is of the time before, that of p of the same time.
    (
        "prove",
        "module main() { x : boolean; p : assert G x; q : assert G x; using q prove p; using p prove q; }",
        1,
        "p: false at 0\n time 0: x = 0\nq: true\nproved 1 of 2\n",
    ),
    (
        "only q",
        "module main() { x : boolean; p : assert G x; q : assert G x; using q prove p; using p prove q; }",
        8,
        "q: true\nproved 1 of 1\n",
    ),
    (
        "only p",
        "module main() { x : boolean; p : assert G x; q : assert G x; using q prove p; using p prove q; }",
        1,
        "p: false at 0\n time 0: x = 0\nproved 0 of 1\n",
    ),
    (
        "only z",
        "module main() { x : boolean; p : assert G x; q : assert G x; using q prove p; using p prove q; }",
        3,
        "fault 26 at line 1 column 1\n",
    ),
    // Two cases of an undeclared scalarset, and one of a declared one.
    (
        "prove",
        "scalarset P undefined; module main() { tok : P; crit : array P of boolean; forall (i in P) crit[i] := tok = i; forall (i in P) forall (j in P) mutex[i][j] : assert G (crit[i] & crit[j] -> i = j); }",
        0,
        "mutex: true\nproved 1 of 1\n",
    ),
    (
        "prove",
        "scalarset P 0..0; module main() { tok : P; crit : array P of boolean; forall (i in P) crit[i] := tok = i; forall (i in P) forall (j in P) mutex[i][j] : assert G (crit[i] & crit[j] -> i = j); }",
        0,
        "mutex: true\nproved 1 of 1\n",
    ),
    // True in every run, which the reduction without a split cannot see.
    (
        "prove",
        "scalarset P undefined; module main() { a, b : P; p : assert G (a = b -> a = b); }",
        1,
        "p: false at 0\n time 0: a = *, b = *\nproved 0 of 1\n",
    ),
    (
        "prove",
        "scalarset P undefined; module main() { a, b : P; p : assert G (a = b -> a = b); forall (i in P) subcase s[i] of p for a = i; }",
        0,
        "p: true\nproved 1 of 1\n",
    ),
    // An index outside its range is Undefined.
    (
        "prove",
        "module main() { x : array 0..1 of 0..0; n : 0..2; p : assert G (x[n] = 0); }",
        1,
        "p: false at 0\n time 0: x[0] = 0, x[1] = 0, n = 2\nproved 0 of 1\n",
    ),
    (
        "prove",
        "ordset I undefined; module main() { forall (i in I) forall (j in I) p[i][j] : assert G (i < j | i = j | j < i); }",
        0,
        "p: true\nproved 1 of 1\n",
    ),
    ("prove", "module main() { }", 0, "proved 0 of 0\n"),
    // A class and a rest of a declared scalarset.
    (
        "prove",
        "scalarset Q 0..3; module main() { x : array Q of boolean; forall (i in Q) { init(x[i]) := 1; next(x[i]) := x[i]; } forall (i in Q) p[i] : assert G x[i]; forall (i in Q) using Q->{i} prove p[i]; }",
        0,
        "p: true\nproved 1 of 1\n",
    ),
    // No value is named, and at the rest any outcomes, also none, are taken.
    (
        "prove",
        "scalarset P undefined; module main() { v : array P of boolean; p : assert G (&[v[i] : i in P] -> |[v[i] : i in P]); }",
        1,
        "p: false at 0\n time 0:\nproved 0 of 1\n",
    ),
    (
        "prove",
        "scalarset P undefined; module main() { v : array P of boolean; forall (k in P) p[k] : assert G (&[v[i] : i in P] -> v[k]); }",
        0,
        "p: true\nproved 1 of 1\n",
    ),
    // The members 4 and 5 are outside the type, so every value is allowed.
    (
        "prove",
        "module main() { x : 0..1; x := {i : i in 0..5, i >= 4}; p : assert G (x = 1); }",
        1,
        "p: false at 0\n time 0: x = 0\nproved 0 of 1\n",
    ),
    (
        "prove",
        "ordset I undefined; module main() { a, b, c : I; p : assert G (a < b & b < c -> a < c); forall (i in I) forall (j in I) subcase s[i][j] of p for a = i, b = j; }",
        0,
        "p: true\nproved 1 of 1\n",
    ),
    (
        "prove",
        "ordset I undefined; module main() { a, b, c : I; p : assert G (a < b & b < c -> a < c); }",
        1,
        "p: false at 0\n time 0: a = *0, b = *0, c = *0\nproved 0 of 1\n",
    ),
    // Two ranges of many values: they overlap from 20 to 40. What each comparison says is true of them.
    (
        "prove",
        "module main() { x : 0..40; y : 20..90; less : assert G (x < y | x >= 20); most : assert G (x <= y | x > 20); more : assert G (x > y -> y < 40); least : assert G (x >= y -> y <= 40); same : assert G (x = y -> x >= 20 & y <= 40); other : assert G (x ~= y | x in {20..40}); }",
        0,
        "less: true\nmost: true\nmore: true\nleast: true\nsame: true\nother: true\nproved 6 of 6\n",
    ),
    // Each fails for one pair of values alone, at the end of one of the ranges.
    (
        "prove",
        "module main() { x : 0..40; y : 20..90; less : assert G (x < y | x < 40 | y < 40); most : assert G (x <= y | x < 40 | y < 39); more : assert G (x > y | x < 40 | y > 40); least : assert G (x >= y | x < 40 | y > 41); same : assert G (x = y | x < 20 | x > 20 | y > 21); other : assert G (x ~= y | x > 20); }",
        1,
        "less: false at 0\n time 0: x = 40, y = 40\nmost: false at 0\n time 0: x = 40, y = 39\nmore: false at 0\n time 0: x = 40, y = 40\nleast: false at 0\n time 0: x = 40, y = 41\nsame: false at 0\n time 0: x = 20, y = 21\nother: false at 0\n time 0: x = 20, y = 20\nproved 0 of 6\n",
    ),
    // Two that share no value.
    (
        "prove",
        "module main() { x : 0..40; y : 50..90; less : assert G (x < y); most : assert G (x <= y); more : assert G (x > y | x > 0 | y < 90); least : assert G (x >= y | x < 40 | y > 50); same : assert G (x = y | x > 0 | y > 50); other : assert G (x ~= y); }",
        1,
        "less: true\nmost: true\nmore: false at 0\n time 0: x = 0, y = 90\nleast: false at 0\n time 0: x = 40, y = 50\nsame: false at 0\n time 0: x = 0, y = 50\nother: true\nproved 3 of 6\n",
    ),
    // Two that are the same.
    (
        "prove",
        "module main() { x, y : 3..60; less : assert G (x < y -> x < 60 & y > 3); most : assert G (x <= y | y < x); more : assert G (x > y -> x > 3 & y < 60); least : assert G (x >= y | y > x); same : assert G (x = y -> x < 60); other : assert G (x ~= y | x > 3); }",
        1,
        "less: true\nmost: true\nmore: true\nleast: true\nsame: false at 0\n time 0: x = 60, y = 60\nother: false at 0\n time 0: x = 3, y = 3\nproved 4 of 6\n",
    ),
    (
        "print",
        "module main(){x:boolean;p:assert G (x|(~x));}",
        0,
        "module main ( ) { x : boolean ;\np : assert G x | ~ x ;\n}\n",
    ),
    ("generated 2", "", 0, "generated 2\nproved 3 of 3\n"),
    ("generated 200", "", 0, "generated 200\nproved 201 of 201\n"),
    ("print", "", 0, ""),
    (
        "prove",
        "module main() { /* x",
        3,
        "fault 4 at line 1 column 17\n",
    ),
    (
        "prove --steps=8",
        "module main() { x : 0..7; init(x) := 0; next(x) := (x + 1) mod 8; p : assert G (x <= 7); }",
        0,
        "p: true\nproved 1 of 1\n",
    ),
    ("", "", 4, USAGE),
    (
        "prove --nodes 0",
        "module main() { x : boolean; init(x) := 0; next(x) := ~x; p : assert G (x | ~x); }",
        4,
        USAGE,
    ),
    (
        "prove --nodes 5 --nodes 5",
        "module main() { x : boolean; init(x) := 0; next(x) := ~x; p : assert G (x | ~x); }",
        4,
        USAGE,
    ),
    // Over the declared bits a count is theirs; over near ones too where each arrangement passes the budget.
    (
        "prove --bits declared --nodes 4",
        "module main() { x : boolean; init(x) := 0; next(x) := ~x; p : assert G (x | ~x); }",
        2,
        "p: unknown nodes 5\nproved 0 of 1\n",
    ),
    (
        "only p --bits=declared",
        "module main() { x : boolean; init(x) := 0; next(x) := ~x; p : assert G ~x; }",
        1,
        "p: false at 1\n time 0: x = 0\n time 1: x = 1\nproved 0 of 1\n",
    ),
    (
        "prove --bits near --steps 7",
        "module main() { x : 0..7; init(x) := 0; next(x) := (x + 1) mod 8; p : assert G (x <= 7); }",
        2,
        "p: unknown steps\nproved 0 of 1\n",
    ),
    (
        "prove --bits far",
        "module main() { x : boolean; init(x) := 0; next(x) := ~x; p : assert G (x | ~x); }",
        4,
        USAGE,
    ),
    (
        "proof --bits declared",
        "module main() { x : boolean; init(x) := 0; next(x) := ~x; p : assert G (x | ~x); }",
        4,
        USAGE,
    ),
    ("generated 201", "", 4, USAGE),
    (
        "only",
        "module main() { x : boolean; p : assert G x; q : assert G x; using q prove p; using p prove q; }",
        4,
        USAGE,
    ),
    (
        "prove print",
        "module main() { x : boolean; init(x) := 0; next(x) := ~x; p : assert G (x | ~x); }",
        4,
        USAGE,
    ),
];

// A report of which a part is open, since there are several shortest paths: the text, the exit status, how the report begins and how it ends.
type OpenRow = (&'static str, u8, &'static str, &'static str);

const OPEN_ROWS: &[OpenRow] = &[
    // At time 0 a use of the time before says nothing.
    (
        "module main() { a, b : boolean; init(a) := 1; init(b) := 0; next(a) := b; next(b) := a; layer spec : { a := 0; b := 0; } using b//spec prove a//spec; using a//spec prove b//spec; }",
        1,
        "a//spec: false at 0\n time 0: a = 1, b = ",
        "\nb//spec: true\nproved 1 of 2\n",
    ),
    (
        "scalarset P undefined; module main() { d : P; v : array P of boolean; forall (i in P) init(v[i]) := 0; next(v[d]) := 1; forall (k in P) p[k] : assert G ~v[k]; }",
        1,
        "p: false at 1\n case #0\n time 0: d = #0, v[#0] = 0\n time 1: d = ",
        ", v[#0] = 1\nproved 0 of 1\n",
    ),
];

// A machine with register renaming, of any number of registers, stations and words (after K. L. McMillan), as it stands in `examples`.
pub const TOMASULO: &str =
    "scalarset WORD undefined;\nscalarset REG undefined;\nscalarset TAG undefined;\nmodule main() {\n  issue, go : boolean;\n  slot, bt : TAG;\n  src, dst, rd : REG;\n  iss, bv : boolean;\n  abstract opa, res : WORD;\n  bw, dout : WORD;\n  ir : array REG of struct { resvd : boolean; tag : TAG; val : WORD; };\n  st : array TAG of struct { valid, ga : boolean; ta : TAG; va : WORD; };\n  abstract r : array REG of WORD;\n  abstract aux : array TAG of struct { a, res : WORD; src : REG; };\n  f : array WORD of WORD;\n\n  iss := issue & ~st[slot].valid;\n  bv := go & st[bt].valid & st[bt].ga;\n  bw := f[st[bt].va];\n  dout := ir[rd].val;\n  forall (x in WORD) next(f[x]) := f[x];\n  forall (k in REG) {\n    init(ir[k].resvd) := 0;\n    default\n      if (bv & ir[k].resvd & ir[k].tag = bt) {\n        next(ir[k].resvd) := 0;\n        next(ir[k].val) := bw;\n      }\n    in if (iss & dst = k) {\n      next(ir[k].resvd) := 1;\n      next(ir[k].tag) := slot;\n    }\n  }\n  forall (i in TAG) {\n    init(st[i].valid) := 0;\n    default {\n      if (bv & bt = i) next(st[i].valid) := 0;\n      if (bv & ~st[i].ga & st[i].ta = bt) {\n        next(st[i].ga) := 1;\n        next(st[i].va) := bw;\n      }\n    } in if (iss & slot = i) {\n      next(st[i].valid) := 1;\n      next(st[i].ga) := ~ir[src].resvd | bv & ir[src].tag = bt;\n      next(st[i].ta) := ir[src].tag;\n      next(st[i].va) := ir[src].resvd ? bw : ir[src].val;\n    }\n  }\n  layer arch : {\n    opa := r[src];\n    res := f[opa];\n    forall (k in REG) init(r[k]) := ir[k].val;\n    if (iss) next(r[dst]) := res;\n    forall (i in TAG) if (iss & slot = i) {\n      next(aux[i].a) := opa;\n      next(aux[i].res) := res;\n      next(aux[i].src) := src;\n    }\n    if (~ir[rd].resvd) dout := r[rd];\n  }\n  layer lem : {\n    forall (i in TAG) if (st[i].valid & st[i].ga) st[i].va := aux[i].a;\n    if (bv) bw := aux[bt].res;\n    forall (k in REG) if (~ir[k].resvd) ir[k].val := r[k];\n  }\n  forall (k in REG) forall (c in WORD)\n    subcase rd1[k][c] of dout//arch for rd = k, r[rd] = c;\n  using ir.val//lem, r//free, ir.resvd//free prove rd1;\n  forall (k in TAG) forall (i in TAG) forall (j in REG) forall (c in WORD)\n    subcase va1[i][j][c] of st[k].va//lem\n      for st[k].ta = i, aux[k].src = j, aux[k].a = c;\n  using bw//lem, ir.val//lem, res//free, bv//free prove va1;\n  forall (i in TAG) forall (a in WORD) forall (c in WORD)\n    subcase bw1[i][a][c] of bw//lem\n      for bt = i, aux[bt].a = a, aux[bt].res = c;\n  using st.va//lem, opa//free, st.ga//free prove bw1;\n  forall (k in REG) forall (i in TAG) forall (c in WORD)\n    subcase val1[i][c] of ir[k].val//lem for ir[k].tag = i, r[k] = c;\n  using bw//lem, res//free, bv//free prove val1;\n}\n";

const MACHINE: &[Row] = &[(
    "prove --nodes 16777216",
    TOMASULO,
    0,
    "dout//arch: true\nst.va//lem: true\nbw//lem: true\nir.val//lem: true\nproved 4 of 4\n",
)];

#[test]
fn reports_and_answers(rt: HostRuntime) -> Result<(), Fail> {
    all_are_answered(rt.alloc(), ROWS)
}

// Whether the report of a text begins and ends so.
fn is_told(
    alloc: Global,
    text: &str,
    want: u8,
    begins: &str,
    ends: &str,
) -> Result<bool, AllocError> {
    let (status, written) = answered(alloc, "prove", text.as_bytes())?;
    let report = written.as_slice();
    Ok(status == want && report.starts_with(begins.as_bytes()) && report.ends_with(ends.as_bytes()))
}

// Fails with the first text whose report begins or ends otherwise.
fn all_are_told(alloc: Global, rows: &[OpenRow]) -> Result<(), Fail> {
    for (text, want, begins, ends) in rows {
        if !is_told(alloc, text, *want, begins, ends)? {
            return Err(Fail::new(*text));
        }
    }
    Ok(())
}

#[test]
fn reports_with_one_of_several_paths(rt: HostRuntime) -> Result<(), Fail> {
    all_are_told(rt.alloc(), OPEN_ROWS)
}

#[test]
fn the_machine_is_proved(rt: HostRuntime) -> Result<(), Fail> {
    all_are_answered(rt.alloc(), MACHINE)
}
