//! Small texts that several tests look at.

/// A sum that leaves its type.
pub const GROWS: &str =
    "module main() { x : 0..1; init(x) := 1; next(x) := x + 1; p : assert G (x = 1); }";

/// A `next` under a condition.
pub const SOMETIMES: &str =
    "module main() { x : boolean; init(x) := 0; if (x) next(x) := 0; p : assert G x; }";

/// An `init` and no `next`.
pub const OPEN: &str = "module main() { x : boolean; init(x) := 0; p : assert G x; }";

/// What was read before.
pub const COPIED: &str = "module main() { x, y : boolean; next(x) := y; p : assert G x; }";

/// What is read at once.
pub const AT_ONCE: &str = "module main() { x, y : boolean; x := ~y; p : assert G x; }";

/// Members outside their type.
pub const OUTSIDE: &str =
    "module main() { x : 0..1; x := {i : i in 0..5, i >= 4}; p : assert G (x = 1); }";

/// Two signals that step each other, and two maps that are used for each other; the first is false.
pub const STEPPED: &str =
    "module main() { a, b : boolean; init(a) := 1; init(b) := 0; next(a) := b; next(b) := a; layer spec : { a := 0; b := 0; } using b//spec prove a//spec; using a//spec prove b//spec; }";

/// Two claims that are used for each other.
pub const CLAIMS: &str =
    "module main() { x : boolean; p : assert G x; q : assert G x; using q prove p; using p prove q; }";

/// One token for any number of places.
pub const MUTEX: &str =
    "scalarset P undefined; module main() { tok : P; crit : array P of boolean; forall (i in P) crit[i] := tok = i; forall (i in P) forall (j in P) mutex[i][j] : assert G (crit[i] & crit[j] -> i = j); }";

/// One token for one place.
pub const ALONE: &str =
    "scalarset P 0..0; module main() { tok : P; crit : array P of boolean; forall (i in P) crit[i] := tok = i; forall (i in P) forall (j in P) mutex[i][j] : assert G (crit[i] & crit[j] -> i = j); }";

/// One of four places, whose element keeps the value that it began with.
pub const LASTING: &str =
    "scalarset Q 0..3; module main() { x : array Q of boolean; forall (i in Q) { init(x[i]) := 1; next(x[i]) := x[i]; } forall (i in Q) p[i] : assert G x[i]; forall (i in Q) using Q->{i} prove p[i]; }";

/// A claim that is true, which nothing is split for.
pub const RESTS: &str =
    "scalarset P undefined; module main() { a, b : P; p : assert G (a = b -> a = b); }";

/// The same, split by one of the values.
pub const SPLIT: &str =
    "scalarset P undefined; module main() { a, b : P; p : assert G (a = b -> a = b); forall (i in P) subcase s[i] of p for a = i; }";

/// A claim that may be false, split by a value that it does not read.
pub const GUARDED: &str =
    "scalarset P undefined; module main() { a : P; x : boolean; p : assert G x; forall (i in P) subcase s[i] of p for a = i; }";

/// An index that may lie outside its type.
pub const INDEX: &str =
    "module main() { x : array 0..1 of 0..0; n : 0..2; p : assert G (x[n] = 0); }";

/// An order has each two values in it.
pub const TOTAL: &str =
    "ordset I undefined; module main() { forall (i in I) forall (j in I) p[i][j] : assert G (i < j | i = j | j < i); }";

/// What is between two values in an order.
pub const RISING: &str =
    "ordset I undefined; module main() { a, b, c : I; p : assert G (a < b & b < c -> a < c); }";

/// The same, split by two of the values.
pub const PARTED: &str =
    "ordset I undefined; module main() { a, b, c : I; p : assert G (a < b & b < c -> a < c); forall (i in I) forall (j in I) subcase s[i][j] of p for a = i, b = j; }";

/// A value below each value of an order.
pub const ORDER: &str =
    "ordset I undefined; module main() { a : I; forall (i in I) p[i] : assert G (a < i); }";

/// One element a step is given a value.
pub const MARKED: &str =
    "scalarset P undefined; module main() { d : P; v : array P of boolean; forall (i in P) init(v[i]) := 0; next(v[d]) := 1; forall (k in P) p[k] : assert G ~v[k]; }";

/// What stays, and an element that is read by an index.
pub const STAYS: &str =
    "scalarset P undefined; module main() { a : P; x : array P of boolean; y : boolean; next(a) := a; forall (i in P) next(x[i]) := x[i]; y := x[a]; p : assert G y; }";

/// A quantifier where there may be no value.
pub const ALL: &str =
    "scalarset P undefined; module main() { v : array P of boolean; p : assert G (&[v[i] : i in P] -> |[v[i] : i in P]); }";

/// A quantifier and one of its values.
pub const EACH: &str =
    "scalarset P undefined; module main() { v : array P of boolean; forall (k in P) p[k] : assert G (&[v[i] : i in P] -> v[k]); }";

/// A map that reads an element by an index.
pub const UNKNOWN: &str =
    "scalarset P undefined; module main() { a : P; x : array P of boolean; y : boolean; layer L : { y := x[a]; } }";

/// A map by a value of a set type.
pub const PLACED: &str = "scalarset P undefined; module main() { v, w : P; layer L : { v := w; } }";

/// A map of an array of which one index is not listed.
pub const REDUCED: &str =
    "scalarset P undefined; module main() { y : array P of array P of boolean; layer L : { forall (i in P) forall (j in P) y[i][j] := 1; } forall (i in P) forall (j in P) using P->{i} prove y[i][j]//L; }";

/// A reduced Tomasulo machine: one source operand, one result bus, any number of registers, stations and words.
pub const MACHINE: &str = "scalarset WORD undefined;
scalarset REG undefined;
scalarset TAG undefined;
module main() {
  issue, go : boolean;
  slot, bt : TAG;
  src, dst, rd : REG;
  iss, bv : boolean;
  abstract opa, res : WORD;
  bw, dout : WORD;
  ir : array REG of struct { resvd : boolean; tag : TAG; val : WORD; };
  st : array TAG of struct { valid, ga : boolean; ta : TAG; va : WORD; };
  abstract r : array REG of WORD;
  abstract aux : array TAG of struct { a, res : WORD; src : REG; };
  f : array WORD of WORD;

  iss := issue & ~st[slot].valid;
  bv := go & st[bt].valid & st[bt].ga;
  bw := f[st[bt].va];
  dout := ir[rd].val;
  forall (x in WORD) next(f[x]) := f[x];
  forall (k in REG) {
    init(ir[k].resvd) := 0;
    default
      if (bv & ir[k].resvd & ir[k].tag = bt) {
        next(ir[k].resvd) := 0;
        next(ir[k].val) := bw;
      }
    in if (iss & dst = k) {
      next(ir[k].resvd) := 1;
      next(ir[k].tag) := slot;
    }
  }
  forall (i in TAG) {
    init(st[i].valid) := 0;
    default {
      if (bv & bt = i) next(st[i].valid) := 0;
      if (bv & ~st[i].ga & st[i].ta = bt) {
        next(st[i].ga) := 1;
        next(st[i].va) := bw;
      }
    } in if (iss & slot = i) {
      next(st[i].valid) := 1;
      next(st[i].ga) := ~ir[src].resvd | bv & ir[src].tag = bt;
      next(st[i].ta) := ir[src].tag;
      next(st[i].va) := ir[src].resvd ? bw : ir[src].val;
    }
  }
  layer arch : {
    opa := r[src];
    res := f[opa];
    forall (k in REG) init(r[k]) := ir[k].val;
    if (iss) next(r[dst]) := res;
    forall (i in TAG) if (iss & slot = i) {
      next(aux[i].a) := opa;
      next(aux[i].res) := res;
      next(aux[i].src) := src;
    }
    if (~ir[rd].resvd) dout := r[rd];
  }
  layer lem : {
    forall (i in TAG) if (st[i].valid & st[i].ga) st[i].va := aux[i].a;
    if (bv) bw := aux[bt].res;
    forall (k in REG) if (~ir[k].resvd) ir[k].val := r[k];
  }
  forall (k in REG) forall (c in WORD)
    subcase rd1[k][c] of dout//arch for rd = k, r[rd] = c;
  using ir.val//lem, r//free, ir.resvd//free prove rd1;
  forall (k in TAG) forall (i in TAG) forall (j in REG) forall (c in WORD)
    subcase va1[i][j][c] of st[k].va//lem
      for st[k].ta = i, aux[k].src = j, aux[k].a = c;
  using bw//lem, ir.val//lem, res//free, bv//free prove va1;
  forall (i in TAG) forall (a in WORD) forall (c in WORD)
    subcase bw1[i][a][c] of bw//lem
      for bt = i, aux[bt].a = a, aux[bt].res = c;
  using st.va//lem, opa//free, st.ga//free prove bw1;
  forall (k in REG) forall (i in TAG) forall (c in WORD)
    subcase val1[i][c] of ir[k].val//lem for ir[k].tag = i, r[k] = c;
  using bw//lem, res//free, bv//free prove val1;
}
";
