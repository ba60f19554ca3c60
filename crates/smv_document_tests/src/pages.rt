//! What the pages show of documents and of units at given sizes, with the texts. Written by `tools/pages.py --tests`.

use crate::calls::{Row, all_are_answered};
use std::test::Fail;

const ROWS_1: &[Row] = &[
    (
        "confirm opa//arch 2 2",
        "scalarset WORD undefined; scalarset REG undefined; module main() { issue : boolean; src, dst : REG; reg : array REG of WORD; f : array WORD of WORD; opa, alu : WORD; ex, wb : struct { valid : boolean; dst : REG; val : WORD; }; forall (w in WORD) next(f[w]) := f[w]; opa := ex.valid & ex.dst = src ? alu : reg[src]; init(ex.valid) := 0; next(ex.valid) := issue; next(ex.dst) := dst; next(ex.val) := opa; alu := f[ex.val]; init(wb.valid) := 0; next(wb.valid) := ex.valid; next(wb.dst) := ex.dst; next(wb.val) := alu; if (wb.valid) next(reg[wb.dst]) := wb.val; abstract r : array REG of WORD; abstract operand, result, a, res : WORD; layer arch : { operand := r[src]; result := f[operand]; forall (k in REG) init(r[k]) := reg[k]; if (issue) next(r[dst]) := result; next(a) := operand; next(res) := result; if (issue) opa := operand; if (ex.valid) alu := res; } forall (j in REG) forall (c in WORD) subcase opa1[j][c] of opa//arch for src = j, r[src] = c; using alu//arch, result//free prove opa1; forall (v in WORD) forall (c in WORD) subcase alu1[v][c] of alu//arch for a = v, res = c; using opa//arch, operand//free prove alu1; }",
        11,
        "opa//arch: real at 2\n time 0: issue = 1, src = #0, dst = #0, reg[#0] = #0, reg[#1] = #0, f[#0] = #1, f[#1] = #0, opa = #0, alu = #0, ex.valid = 0, ex.dst = #0, ex.val = #1, wb.valid = 0, wb.dst = #0, wb.val = #0, r[#0] = #0, r[#1] = #0, operand = #0, result = #1\n time 1: issue = 0, src = #0, dst = #0, reg[#0] = #0, reg[#1] = #0, f[#0] = #1, f[#1] = #0, opa = #1, alu = #1, ex.valid = 1, ex.dst = #0, ex.val = #0, wb.valid = 0, wb.dst = #0, wb.val = #0, r[#0] = #1, r[#1] = #0, operand = #1, result = #0\n time 2: issue = 1, src = #0, dst = #0, reg[#0] = #0, reg[#1] = #0, f[#0] = #1, f[#1] = #0, opa = #0, alu = #0, ex.valid = 0, ex.dst = #0, ex.val = #1, wb.valid = 1, wb.dst = #0, wb.val = #1, r[#0] = #1, r[#1] = #0, operand = #1, result = #0\n",
    ),
    (
        "induct all i",
        "ordset AGE undefined; module main() { add, hang : boolean; n, behind : AGE; used, good : array AGE of boolean; on : array AGE of AGE; hang := used[behind] & behind < n; forall (i in AGE) { init(used[i]) := 0; init(good[i]) := 1; init(on[i]) := i; } if (add & ~used[n]) { next(used[n]) := 1; if (hang) { next(on[n]) := behind; next(good[n]) := good[behind]; } } layer chain : { forall (i in AGE) good[i] := on[i] < i ? good[on[i]] : 1; } forall (i in AGE) held[i] : assert G (on[i] < i -> used[i] & used[on[i]]); forall (i in AGE) all[i] : assert G good[i]; forall (i in AGE) forall (j in AGE) { subcase hangs[j] of held[i] for on[i] = j; subcase as_its[j] of good[i]//chain for on[i] = j; subcase good_as[j] of all[i] for on[i] = j; } using held prove as_its; using good//chain prove good_as; }",
        0,
        "good//chain: true\nheld: true\nall: true\nproved 3 of 3\n",
    ),
    (
        "ltl",
        "module main() { ask, grant : boolean; turn : 0..2; init(turn) := 0; next(turn) := (turn + 1) mod 3; grant := ask & turn = 2; served : assert G if (ask & ~grant) X (if (~grant) X (grant)); once : assert G if (grant) X (W (~grant, ask)); }",
        1,
        "served: false at 2\n time 0: ask = 1, grant = 0, turn = 0, m0 = 0, m1 = 0\n time 1: ask = 0, grant = 0, turn = 1, m0 = 1, m1 = 0\n time 2: ask = 0, grant = 0, turn = 2, m0 = 0, m1 = 1\nonce: true\nproved 1 of 2\n",
    ),
    (
        "ltl",
        "module main() { ask, grant : boolean; turn : 0..2; init(turn) := 0; next(turn) := (turn + 1) mod 3; grant := ask & turn = 2; served : assert G if (ask & ~grant) X (if (ask & ~grant) X (if (ask) grant)); once : assert G if (grant) X (W (~grant, ask)); }",
        0,
        "served: true\nonce: true\nproved 2 of 2\n",
    ),
    (
        "confirm opa//arch 1 1",
        "scalarset WORD undefined; scalarset REG undefined; module main() { issue : boolean; src, dst : REG; reg : array REG of WORD; f : array WORD of WORD; opa, alu : WORD; ex : struct { valid : boolean; dst : REG; val : WORD; }; forall (w in WORD) next(f[w]) := f[w]; opa := reg[src]; init(ex.valid) := 0; next(ex.valid) := issue; next(ex.dst) := dst; next(ex.val) := opa; alu := f[ex.val]; if (ex.valid) next(reg[ex.dst]) := alu; abstract r : array REG of WORD; abstract operand, result : WORD; layer arch : { operand := r[src]; result := f[operand]; forall (k in REG) init(r[k]) := reg[k]; if (issue) next(r[dst]) := result; if (issue) opa := operand; } }",
        10,
        "opa//arch: holds\n",
    ),
    (
        "confirm opa//arch 2 2",
        "scalarset WORD undefined; scalarset REG undefined; module main() { issue : boolean; src, dst : REG; reg : array REG of WORD; f : array WORD of WORD; opa, alu : WORD; ex : struct { valid : boolean; dst : REG; val : WORD; }; forall (w in WORD) next(f[w]) := f[w]; opa := reg[src]; init(ex.valid) := 0; next(ex.valid) := issue; next(ex.dst) := dst; next(ex.val) := opa; alu := f[ex.val]; if (ex.valid) next(reg[ex.dst]) := alu; abstract r : array REG of WORD; abstract operand, result : WORD; layer arch : { operand := r[src]; result := f[operand]; forall (k in REG) init(r[k]) := reg[k]; if (issue) next(r[dst]) := result; if (issue) opa := operand; } }",
        11,
        "opa//arch: real at 1\n time 0: issue = 1, src = #0, dst = #0, reg[#0] = #0, reg[#1] = #0, f[#0] = #1, f[#1] = #0, opa = #0, alu = #0, ex.valid = 0, ex.dst = #0, ex.val = #1, r[#0] = #0, r[#1] = #0, operand = #0, result = #1\n time 1: issue = 1, src = #0, dst = #0, reg[#0] = #0, reg[#1] = #0, f[#0] = #1, f[#1] = #0, opa = #0, alu = #1, ex.valid = 1, ex.dst = #0, ex.val = #0, r[#0] = #1, r[#1] = #0, operand = #1, result = #0\n",
    ),
    (
        "confirm opa//arch 2 2",
        "scalarset WORD undefined; scalarset REG undefined; module main() { issue : boolean; src, dst : REG; reg : array REG of WORD; f : array WORD of WORD; opa, alu : WORD; ex : struct { valid : boolean; dst : REG; val : WORD; }; forall (w in WORD) next(f[w]) := f[w]; opa := ex.valid & ex.dst = src ? alu : reg[src]; init(ex.valid) := 0; next(ex.valid) := issue; next(ex.dst) := dst; next(ex.val) := opa; alu := f[ex.val]; if (ex.valid) next(reg[ex.dst]) := alu; abstract r : array REG of WORD; abstract operand, result, a, res : WORD; layer arch : { operand := r[src]; result := f[operand]; forall (k in REG) init(r[k]) := reg[k]; if (issue) next(r[dst]) := result; next(a) := operand; next(res) := result; if (issue) opa := operand; if (ex.valid) alu := res; } forall (j in REG) forall (c in WORD) subcase opa1[j][c] of opa//arch for src = j, r[src] = c; using alu//arch prove opa1; }",
        10,
        "opa//arch: holds\n",
    ),
    (
        "confirm alu//arch 2 2",
        "scalarset WORD undefined; scalarset REG undefined; module main() { issue : boolean; src, dst : REG; reg : array REG of WORD; f : array WORD of WORD; opa, alu : WORD; ex : struct { valid : boolean; dst : REG; val : WORD; }; forall (w in WORD) next(f[w]) := f[w]; opa := ex.valid & ex.dst = src ? alu : reg[src]; init(ex.valid) := 0; next(ex.valid) := issue; next(ex.dst) := dst; next(ex.val) := opa; alu := f[ex.val]; if (ex.valid) next(reg[ex.dst]) := alu; abstract r : array REG of WORD; abstract operand, result, a, res : WORD; layer arch : { operand := r[src]; result := f[operand]; forall (k in REG) init(r[k]) := reg[k]; if (issue) next(r[dst]) := result; next(a) := operand; next(res) := result; if (issue) opa := operand; if (ex.valid) alu := res; } forall (j in REG) forall (c in WORD) subcase opa1[j][c] of opa//arch for src = j, r[src] = c; using alu//arch prove opa1; }",
        10,
        "alu//arch: holds\n",
    ),
    (
        "confirm alu//arch 3 2",
        "scalarset WORD undefined; scalarset REG undefined; module main() { issue : boolean; src, dst : REG; reg : array REG of WORD; f : array WORD of WORD; opa, alu : WORD; ex : struct { valid : boolean; dst : REG; val : WORD; }; forall (w in WORD) next(f[w]) := f[w]; opa := ex.valid & ex.dst = src ? alu : reg[src]; init(ex.valid) := 0; next(ex.valid) := issue; next(ex.dst) := dst; next(ex.val) := opa; alu := f[ex.val]; if (ex.valid) next(reg[ex.dst]) := alu; abstract r : array REG of WORD; abstract operand, result, a, res : WORD; layer arch : { operand := r[src]; result := f[operand]; forall (k in REG) init(r[k]) := reg[k]; if (issue) next(r[dst]) := result; next(a) := operand; next(res) := result; if (issue) opa := operand; if (ex.valid) alu := res; } forall (j in REG) forall (c in WORD) subcase opa1[j][c] of opa//arch for src = j, r[src] = c; using alu//arch prove opa1; }",
        10,
        "alu//arch: holds\n",
    ),
];

#[test]
fn answers_of_the_pages_1(rt: HostRuntime) -> Result<(), Fail> {
    all_are_answered(rt.alloc(), ROWS_1)
}

const ROWS_2: &[Row] = &[
    (
        "confirm st.va//lem 2 2 2",
        "scalarset WORD undefined; scalarset REG undefined; scalarset TAG undefined; module main() { issue, go : boolean; slot, bt : TAG; src, dst, rd : REG; iss, bv : boolean; abstract opa, res : WORD; bw, dout : WORD; ir : array REG of struct { resvd : boolean; tag : TAG; val : WORD; }; st : array TAG of struct { valid, ga : boolean; ta : TAG; va : WORD; }; abstract r : array REG of WORD; abstract aux : array TAG of struct { a, res : WORD; src : REG; }; f : array WORD of WORD; iss := issue & ~st[slot].valid; bv := go & st[bt].valid & st[bt].ga; bw := f[st[bt].va]; dout := ir[rd].val; forall (x in WORD) next(f[x]) := f[x]; forall (k in REG) { init(ir[k].resvd) := 0; default if (bv & ir[k].resvd & ir[k].tag = bt) { next(ir[k].resvd) := 0; next(ir[k].val) := bw; } in if (iss & dst = k) { next(ir[k].resvd) := 1; next(ir[k].tag) := slot; } } forall (i in TAG) { init(st[i].valid) := 0; default { if (bv & bt = i) next(st[i].valid) := 0; if (bv & ~st[i].ga) { next(st[i].ga) := 1; next(st[i].va) := bw; } } in if (iss & slot = i) { next(st[i].valid) := 1; next(st[i].ga) := ~ir[src].resvd | bv & ir[src].tag = bt; next(st[i].ta) := ir[src].tag; next(st[i].va) := ir[src].resvd ? bw : ir[src].val; } } layer arch : { opa := r[src]; res := f[opa]; forall (k in REG) init(r[k]) := ir[k].val; if (iss) next(r[dst]) := res; forall (i in TAG) if (iss & slot = i) { next(aux[i].a) := opa; next(aux[i].res) := res; next(aux[i].src) := src; } if (~ir[rd].resvd) dout := r[rd]; } layer lem : { forall (i in TAG) if (st[i].valid & st[i].ga) st[i].va := aux[i].a; if (bv) bw := aux[bt].res; forall (k in REG) if (~ir[k].resvd) ir[k].val := r[k]; } forall (k in REG) forall (c in WORD) subcase rd1[k][c] of dout//arch for rd = k, r[rd] = c; using ir.val//lem, r//free, ir.resvd//free prove rd1; forall (k in TAG) forall (i in TAG) forall (j in REG) forall (c in WORD) subcase va1[i][j][c] of st[k].va//lem for st[k].ta = i, aux[k].src = j, aux[k].a = c; using bw//lem, ir.val//lem, res//free, bv//free prove va1; forall (i in TAG) forall (a in WORD) forall (c in WORD) subcase bw1[i][a][c] of bw//lem for bt = i, aux[bt].a = a, aux[bt].res = c; using st.va//lem, opa//free, st.ga//free prove bw1; forall (k in REG) forall (i in TAG) forall (c in WORD) subcase val1[i][c] of ir[k].val//lem for ir[k].tag = i, r[k] = c; using bw//lem, res//free, bv//free prove val1; }",
        10,
        "st.va//lem: holds\n",
    ),
    (
        "confirm in_order 1 1 3",
        "scalarset WORD undefined; scalarset REG undefined; ordset TIME undefined; module main() { ask, issue : boolean; at, last : TIME; src, dst : REG; reg : array REG of WORD; f : array WORD of WORD; opa, alu : WORD; ex, wb : struct { valid : boolean; dst : REG; val : WORD; at : TIME; }; issue := ask & last < at; if (issue) next(last) := at; next(ex.at) := at; next(wb.at) := ex.at; forall (w in WORD) next(f[w]) := f[w]; opa := ex.valid & ex.dst = src ? alu : wb.valid & wb.dst = src ? wb.val : reg[src]; init(ex.valid) := 0; next(ex.valid) := issue; next(ex.dst) := dst; next(ex.val) := opa; alu := f[ex.val]; init(wb.valid) := 0; next(wb.valid) := ex.valid; next(wb.dst) := ex.dst; next(wb.val) := alu; if (wb.valid) next(reg[wb.dst]) := wb.val; abstract r : array REG of WORD; abstract operand, result, a, res : WORD; layer arch : { operand := r[src]; result := f[operand]; forall (k in REG) init(r[k]) := reg[k]; if (issue) next(r[dst]) := result; next(a) := operand; next(res) := result; if (issue) opa := operand; if (ex.valid) alu := res; forall (k in REG) if (~(ex.valid & ex.dst = k) & ~(wb.valid & wb.dst = k)) reg[k] := r[k]; } forall (j in REG) forall (c in WORD) subcase opa1[j][c] of opa//arch for src = j, r[src] = c; using alu//arch, result//free prove opa1; forall (v in WORD) forall (c in WORD) subcase alu1[v][c] of alu//arch for a = v, res = c; using opa//arch, operand//free prove alu1; forall (k in REG) forall (c in WORD) subcase reg1[c] of reg[k]//arch for r[k] = c; using alu//arch, result//free prove reg1; in_order : assert G (ex.valid & wb.valid -> wb.at < ex.at); }",
        10,
        "in_order: holds\n",
    ),
    (
        "confirm in_order 1 1 1",
        "scalarset WORD undefined; scalarset REG undefined; ordset TIME undefined; module main() { ask, issue : boolean; at, last : TIME; src, dst : REG; reg : array REG of WORD; f : array WORD of WORD; opa, alu : WORD; ex, wb : struct { valid : boolean; dst : REG; val : WORD; at : TIME; }; issue := ask & last <= at; if (issue) next(last) := at; next(ex.at) := at; next(wb.at) := ex.at; forall (w in WORD) next(f[w]) := f[w]; opa := ex.valid & ex.dst = src ? alu : wb.valid & wb.dst = src ? wb.val : reg[src]; init(ex.valid) := 0; next(ex.valid) := issue; next(ex.dst) := dst; next(ex.val) := opa; alu := f[ex.val]; init(wb.valid) := 0; next(wb.valid) := ex.valid; next(wb.dst) := ex.dst; next(wb.val) := alu; if (wb.valid) next(reg[wb.dst]) := wb.val; abstract r : array REG of WORD; abstract operand, result, a, res : WORD; layer arch : { operand := r[src]; result := f[operand]; forall (k in REG) init(r[k]) := reg[k]; if (issue) next(r[dst]) := result; next(a) := operand; next(res) := result; if (issue) opa := operand; if (ex.valid) alu := res; forall (k in REG) if (~(ex.valid & ex.dst = k) & ~(wb.valid & wb.dst = k)) reg[k] := r[k]; } forall (j in REG) forall (c in WORD) subcase opa1[j][c] of opa//arch for src = j, r[src] = c; using alu//arch, result//free prove opa1; forall (v in WORD) forall (c in WORD) subcase alu1[v][c] of alu//arch for a = v, res = c; using opa//arch, operand//free prove alu1; forall (k in REG) forall (c in WORD) subcase reg1[c] of reg[k]//arch for r[k] = c; using alu//arch, result//free prove reg1; in_order : assert G (ex.valid & wb.valid -> wb.at < ex.at); forall (s in TIME) forall (t in TIME) subcase order[s][t] of in_order for wb.at = s, ex.at = t; }",
        11,
        "in_order: real at 2\n time 0: ask = 1, issue = 1, at = #0, last = #0, ex.valid = 0, ex.at = #0, wb.valid = 0, wb.at = #0\n time 1: ask = 1, issue = 1, at = #0, last = #0, ex.valid = 1, ex.at = #0, wb.valid = 0, wb.at = #0\n time 2: ask = 0, issue = 0, at = #0, last = #0, ex.valid = 1, ex.at = #0, wb.valid = 1, wb.at = #0\n",
    ),
    (
        "confirm same 2",
        "scalarset BANK 0..3;\nscalarset WORD undefined;\nordset TIME undefined;\nmodule main() {\n  now, then : TIME;\n  kept : array BANK of WORD;\n  same : assert G (now = then);\n}\n",
        3,
        "fault 34 at line 1 column 1\n",
    ),
    (
        "confirm same 1 2",
        "scalarset BANK 0..3; scalarset WORD undefined; ordset TIME undefined; module main() { now, then : TIME; kept : array BANK of WORD; same : assert G (now = then); }",
        11,
        "same: real at 0\n time 0: now = #0, then = #1\n",
    ),
    (
        "confirm fresh 17",
        "scalarset TAG undefined;\nmodule main() {\n  older : array TAG of array TAG of boolean;\n  next_tag : TAG;\n  fresh : assert G ~older[next_tag][next_tag];\n}\n",
        3,
        "fault 35 at line 5 column 3\n",
    ),
    (
        "confirm fresh 1",
        "scalarset TAG undefined; module main() { older : array TAG of array TAG of boolean; next_tag : TAG; fresh : assert G ~older[next_tag][next_tag]; }",
        11,
        "fresh: real at 0\n time 0: older[#0][#0] = 1, next_tag = #0\n",
    ),
    (
        "induct fresh w",
        "ordset TIME undefined;\nscalarset WORD undefined;\nmodule main() {\n  seen : array TIME of array WORD of boolean;\n  forall (t in TIME) forall (w in WORD) fresh[t][w] : assert G ~seen[t][w];\n}\n",
        3,
        "fault 36 at line 1 column 1\n",
    ),
    (
        "induct fresh t",
        "ordset TIME undefined; scalarset WORD undefined; module main() { seen : array TIME of array WORD of boolean; forall (t in TIME) forall (w in WORD) fresh[t][w] : assert G ~seen[t][w]; }",
        1,
        "fresh: false at 0\n case #0, #0\n time 0: seen[#0][#0] = 1\nproved 0 of 1\n",
    ),
    (
        "ltl",
        "module main() {\n  ask, answer : boolean;\n  late : assert G if (ask) X (X (X (X (X (X (X (X (X (answer)))))))));\n}\n",
        3,
        "fault 37 at line 3 column 52\n",
    ),
    (
        "ltl",
        "module main() { request, grant : boolean; init(grant) := 0; next(grant) := request; granted : assert G if (request) X (grant); unasked : assert G if (~request) X (W (~grant, request)); }",
        0,
        "granted: true\nunasked: true\nproved 2 of 2\n",
    ),
    (
        "ltl",
        "scalarset WORD undefined; module main() { ask, answer : boolean; word, offered : WORD; delay : 0..3; init(ask) := 0; next(ask) := ask & ~answer ? 1 : {0, 1}; if (~ask | answer) next(word) := offered; next(delay) := ask & ~answer ? delay - 1 : {0, 1, 2, 3}; answer := ask & delay = 0; answered : assert G if (ask & ~answer) X (if (~answer) X (if (~answer) X (answer))); stands : assert G if (ask & ~answer) X (ask); forall (w in WORD) held[w] : assert G if (ask & ~answer & word = w) X (word = w); once : assert G if (answer) X (W (~answer, ask)); }",
        0,
        "answered: true\nstands: true\nheld: true\nonce: true\nproved 4 of 4\n",
    ),
];

#[test]
fn answers_of_the_pages_2(rt: HostRuntime) -> Result<(), Fail> {
    all_are_answered(rt.alloc(), ROWS_2)
}
