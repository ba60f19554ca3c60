//! Plans of small texts and of the Tomasulo machine.

use crate::plans::told;
use std::alloc::Global;
use std::test::Fail;

// Each text with its plan: each unit's leaf, its cases, and its uses, `!` where they hold up to the present time and `?` where they hold up to the time before.
const PLANS: &[(&'static str, &'static str)] = &[
    // A later claim on a cycle is used up to the time before, an earlier one at once.
    (
        "module main() { x : boolean; p : assert G x; q : assert G x; using q prove p; using p prove q; }",
        "p - q?; q - p!; ",
    ),
    // Maps of signals that step each other.
    (
        "module main() { a, b : boolean; init(a) := 0; init(b) := 0; next(a) := b; next(b) := a; layer spec : { a := 0; b := 0; } using b//spec prove a//spec; using a//spec prove b//spec; }",
        "a//spec - b//spec?; b//spec - a//spec?; ",
    ),
    // Each of three orders of two values.
    (
        "ordset I undefined; module main() { forall (i in I) forall (j in I) p[i][j] : assert G (i < j | i = j | j < i); }",
        "p #0#0 #0#1 #1#0; ",
    ),
    // Values of a scalarset are alike.
    (
        "scalarset P undefined; module main() { forall (i in P) forall (j in P) forall (k in P) p[i][j][k] : assert G 1; }",
        "p #0#0#0 #0#0#1 #0#1#0 #0#1#1 #0#1#2; ",
    ),
    (
        "scalarset P undefined; module main() { tok : P; crit : array P of boolean; forall (i in P) crit[i] := tok = i; forall (i in P) forall (j in P) mutex[i][j] : assert G (crit[i] & crit[j] -> i = j); }",
        "mutex #0#0 #0#1; ",
    ),
    (
        "scalarset P 0..0; module main() { tok : P; crit : array P of boolean; forall (i in P) crit[i] := tok = i; forall (i in P) forall (j in P) mutex[i][j] : assert G (crit[i] & crit[j] -> i = j); }",
        "mutex #0#0; ",
    ),
    // A claim without parameters has one case, and its split one for each class of the new one.
    (
        "scalarset P undefined; module main() { a, b : P; p : assert G (a = b -> a = b); }",
        "p -; ",
    ),
    (
        "scalarset P undefined; module main() { a, b : P; p : assert G (a = b -> a = b); forall (i in P) subcase s[i] of p for a = i; }",
        "s #0; ",
    ),
    // A parameter that does not stay has the classes of those that do, and then the rest.
    (
        "scalarset P undefined; module main() { forall (i in P) forall (j in P) p[i][j] : assert G 1; forall (i in P) forall (j in P) using P->{i} prove p[i][j]; }",
        "p #0#0 #0*0; ",
    ),
    (
        "module main() { forall (i in 0..1) forall (j in 2..3) p[i][j] : assert G 1; }",
        "p =0=2 =0=3 =1=2 =1=3; ",
    ),
    // A ring of claims, and one in front of it.
    (
        "module main() { o : assert G 1; p : assert G 1; q : assert G 1; r : assert G 1; using p, q, r prove o; using q prove p; using r prove q; using p prove r; }",
        "o - p! q! r!; p - q?; q - r?; r - p!; ",
    ),
    // Itself, and in parentheses.
    (
        "module main() { p : assert G 1; q : assert G 1; using p, (q) prove p; using p prove q; }",
        "p - p? q?; q - p!; ",
    ),
    // A map of a family that is not read at the same time.
    (
        "module main() { a, b, c : boolean; layer L : { a := b; b := 0; c := 0; } using b//L, c//L prove a//L; }",
        "a//L - b//L! c//L?; b//L -; c//L -; ",
    ),
    ("module main() { }", ""),
];

// Fails with the first text that has another plan.
fn all_have_plans(alloc: Global, rows: &[(&'static str, &'static str)]) -> Result<(), Fail> {
    for (text, plan) in rows {
        if told(alloc, text.as_bytes())?.as_slice() != plan.as_bytes() {
            return Err(Fail::new(*text));
        }
    }
    Ok(())
}

#[test]
fn each_text_has_its_plan(rt: HostRuntime) -> Result<(), Fail> {
    all_have_plans(rt.alloc(), PLANS)
}

// A reduced Tomasulo machine.
const MACHINE: &str = "scalarset WORD undefined;
scalarset REG undefined;
scalarset TAG undefined;
module main() {
  issue, go : boolean;
  slot, bt : TAG;
  src, dst, rd : REG;
  iss, bv : boolean;
  abstract opa, res : WORD;
  bw, dout : WORD;
  ir : array REG of struct { resvd : boolean; tag : TAG; val : WORD; };
  st : array TAG of struct { valid, ga : boolean; ta : TAG; va : WORD; };
  abstract r : array REG of WORD;
  abstract aux : array TAG of struct { a, res : WORD; src : REG; };
  f : array WORD of WORD;

  iss := issue & ~st[slot].valid;
  bv := go & st[bt].valid & st[bt].ga;
  bw := f[st[bt].va];
  dout := ir[rd].val;
  forall (x in WORD) next(f[x]) := f[x];
  forall (k in REG) {
    init(ir[k].resvd) := 0;
    default
      if (bv & ir[k].resvd & ir[k].tag = bt) {
        next(ir[k].resvd) := 0;
        next(ir[k].val) := bw;
      }
    in if (iss & dst = k) {
      next(ir[k].resvd) := 1;
      next(ir[k].tag) := slot;
    }
  }
  forall (i in TAG) {
    init(st[i].valid) := 0;
    default {
      if (bv & bt = i) next(st[i].valid) := 0;
      if (bv & ~st[i].ga & st[i].ta = bt) {
        next(st[i].ga) := 1;
        next(st[i].va) := bw;
      }
    } in if (iss & slot = i) {
      next(st[i].valid) := 1;
      next(st[i].ga) := ~ir[src].resvd | bv & ir[src].tag = bt;
      next(st[i].ta) := ir[src].tag;
      next(st[i].va) := ir[src].resvd ? bw : ir[src].val;
    }
  }
  layer arch : {
    opa := r[src];
    res := f[opa];
    forall (k in REG) init(r[k]) := ir[k].val;
    if (iss) next(r[dst]) := res;
    forall (i in TAG) if (iss & slot = i) {
      next(aux[i].a) := opa;
      next(aux[i].res) := res;
      next(aux[i].src) := src;
    }
    if (~ir[rd].resvd) dout := r[rd];
  }
  layer lem : {
    forall (i in TAG) if (st[i].valid & st[i].ga) st[i].va := aux[i].a;
    if (bv) bw := aux[bt].res;
    forall (k in REG) if (~ir[k].resvd) ir[k].val := r[k];
  }
  forall (k in REG) forall (c in WORD)
    subcase rd1[k][c] of dout//arch for rd = k, r[rd] = c;
  using ir.val//lem, r//free, ir.resvd//free prove rd1;
  forall (k in TAG) forall (i in TAG) forall (j in REG) forall (c in WORD)
    subcase va1[i][j][c] of st[k].va//lem
      for st[k].ta = i, aux[k].src = j, aux[k].a = c;
  using bw//lem, ir.val//lem, res//free, bv//free prove va1;
  forall (i in TAG) forall (a in WORD) forall (c in WORD)
    subcase bw1[i][a][c] of bw//lem
      for bt = i, aux[bt].a = a, aux[bt].res = c;
  using st.va//lem, opa//free, st.ga//free prove bw1;
  forall (k in REG) forall (i in TAG) forall (c in WORD)
    subcase val1[i][c] of ir[k].val//lem for ir[k].tag = i, r[k] = c;
  using bw//lem, res//free, bv//free prove val1;
}
";

// The map of the words that are read, that of the stations' operands, that of the bus, and that of the registers, each by its last split.
const MACHINE_PLAN: &[(&'static str, &'static str)] = &[(
    MACHINE,
    "rd1 #0#0 ir.val//lem! r//free! ir.resvd//free!; va1 #0#0#0#0 #0#1#0#0 bw//lem? ir.val//lem? res//free! bv//free!; bw1 #0#0#0 #0#0#1 st.va//lem! opa//free! st.ga//free!; val1 #0#0#0 bw//lem? res//free! bv//free!; ",
)];

#[test]
fn the_machine_has_its_plan(rt: HostRuntime) -> Result<(), Fail> {
    all_have_plans(rt.alloc(), MACHINE_PLAN)
}
