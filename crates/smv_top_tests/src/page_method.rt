//! The commands of `docs/METHOD.md`, with their texts, exit statuses and answers. Written by `tools/pages.py --tests`.

use crate::calls::{Row, all_are_answered};
use std::test::Fail;

const ROWS_1: &[Row] = &[
    (
        "prove",
        "scalarset WORD undefined; scalarset REG undefined; module main() { issue : boolean; src, dst : REG; reg : array REG of WORD; f : array WORD of WORD; opa, alu : WORD; ex : struct { valid : boolean; dst : REG; val : WORD; }; forall (w in WORD) next(f[w]) := f[w]; opa := reg[src]; init(ex.valid) := 0; next(ex.valid) := issue; next(ex.dst) := dst; next(ex.val) := opa; alu := f[ex.val]; if (ex.valid) next(reg[ex.dst]) := alu; }",
        0,
        "proved 0 of 0\n",
    ),
    (
        "prove",
        "scalarset WORD undefined; scalarset REG undefined; module main() { issue : boolean; src, dst : REG; reg : array REG of WORD; f : array WORD of WORD; opa, alu : WORD; ex : struct { valid : boolean; dst : REG; val : WORD; }; forall (w in WORD) next(f[w]) := f[w]; opa := reg[src]; init(ex.valid) := 0; next(ex.valid) := issue; next(ex.dst) := dst; next(ex.val) := opa; alu := f[ex.val]; if (ex.valid) next(reg[ex.dst]) := alu; abstract r : array REG of WORD; abstract operand, result : WORD; layer arch : { operand := r[src]; result := f[operand]; forall (k in REG) init(r[k]) := reg[k]; if (issue) next(r[dst]) := result; if (issue) opa := operand; } }",
        1,
        "opa//arch: false at 0\n time 0: issue = 1, src = *, opa = *, operand = *\nproved 0 of 1\n",
    ),
    (
        "prove",
        "scalarset WORD undefined; scalarset REG undefined; module main() { issue : boolean; src, dst : REG; reg : array REG of WORD; f : array WORD of WORD; opa, alu : WORD; ex : struct { valid : boolean; dst : REG; val : WORD; }; forall (w in WORD) next(f[w]) := f[w]; opa := reg[src]; init(ex.valid) := 0; next(ex.valid) := issue; next(ex.dst) := dst; next(ex.val) := opa; alu := f[ex.val]; if (ex.valid) next(reg[ex.dst]) := alu; abstract r : array REG of WORD; abstract operand, result : WORD; layer arch : { operand := r[src]; result := f[operand]; forall (k in REG) init(r[k]) := reg[k]; if (issue) next(r[dst]) := result; if (issue) opa := operand; } forall (j in REG) forall (c in WORD) subcase opa1[j][c] of opa//arch for src = j, r[src] = c; }",
        1,
        "opa//arch: false at 1\n case #0, #0\n time 0: issue = 1, src = *, dst = #0, reg[#0] = *, f[#0] = #0, opa = #0, alu = #0, ex.valid = 0, ex.dst = #0, ex.val = #0, r[#0] = *, operand = #0, result = #0\n time 1: issue = 1, src = #0, dst = #0, reg[#0] = *, f[#0] = #0, opa = *, alu = #0, ex.valid = 1, ex.dst = #0, ex.val = #0, r[#0] = #0, operand = #0, result = #0\nproved 0 of 1\n",
    ),
    (
        "prove",
        "scalarset WORD undefined; scalarset REG undefined; module main() { issue : boolean; src, dst : REG; reg : array REG of WORD; f : array WORD of WORD; opa, alu : WORD; ex : struct { valid : boolean; dst : REG; val : WORD; }; forall (w in WORD) next(f[w]) := f[w]; opa := ex.valid & ex.dst = src ? alu : reg[src]; init(ex.valid) := 0; next(ex.valid) := issue; next(ex.dst) := dst; next(ex.val) := opa; alu := f[ex.val]; if (ex.valid) next(reg[ex.dst]) := alu; abstract r : array REG of WORD; abstract operand, result : WORD; layer arch : { operand := r[src]; result := f[operand]; forall (k in REG) init(r[k]) := reg[k]; if (issue) next(r[dst]) := result; if (issue) opa := operand; } forall (j in REG) forall (c in WORD) subcase opa1[j][c] of opa//arch for src = j, r[src] = c; }",
        1,
        "opa//arch: false at 1\n case #0, #0\n time 0: issue = 1, src = *, dst = #0, reg[#0] = #0, f[#0] = #0, opa = *, alu = #0, ex.valid = 0, ex.dst = #0, ex.val = #0, r[#0] = #0, operand = #0, result = #0\n time 1: issue = 1, src = #0, dst = #0, reg[#0] = #0, f[#0] = #0, opa = *, alu = *, ex.valid = 1, ex.dst = #0, ex.val = *, r[#0] = #0, operand = #0, result = #0\nproved 0 of 1\n",
    ),
    (
        "prove",
        "scalarset WORD undefined; scalarset REG undefined; module main() { issue : boolean; src, dst : REG; reg : array REG of WORD; f : array WORD of WORD; opa, alu : WORD; ex : struct { valid : boolean; dst : REG; val : WORD; }; forall (w in WORD) next(f[w]) := f[w]; opa := ex.valid & ex.dst = src ? alu : reg[src]; init(ex.valid) := 0; next(ex.valid) := issue; next(ex.dst) := dst; next(ex.val) := opa; alu := f[ex.val]; if (ex.valid) next(reg[ex.dst]) := alu; abstract r : array REG of WORD; abstract operand, result, a, res : WORD; layer arch : { operand := r[src]; result := f[operand]; forall (k in REG) init(r[k]) := reg[k]; if (issue) next(r[dst]) := result; next(a) := operand; next(res) := result; if (issue) opa := operand; if (ex.valid) alu := res; } forall (j in REG) forall (c in WORD) subcase opa1[j][c] of opa//arch for src = j, r[src] = c; using alu//arch prove opa1; }",
        1,
        "opa//arch: true\nalu//arch: false at 1\n time 0: issue = 1, src = *, dst = *, opa = *, alu = *, ex.valid = 0, ex.dst = *, ex.val = *, operand = *, result = *, res = *\n time 1: issue = 0, src = *, dst = *, opa = *, alu = *, ex.valid = 1, ex.dst = *, ex.val = *, operand = *, result = *, res = *\nproved 1 of 2\n",
    ),
    (
        "prove",
        "scalarset WORD undefined; scalarset REG undefined; module main() { issue : boolean; src, dst : REG; reg : array REG of WORD; f : array WORD of WORD; opa, alu : WORD; ex : struct { valid : boolean; dst : REG; val : WORD; }; forall (w in WORD) next(f[w]) := f[w]; opa := ex.valid & ex.dst = src ? alu : reg[src]; init(ex.valid) := 0; next(ex.valid) := issue; next(ex.dst) := dst; next(ex.val) := opa; alu := f[ex.val]; if (ex.valid) next(reg[ex.dst]) := alu; abstract r : array REG of WORD; abstract operand, result, a, res : WORD; layer arch : { operand := r[src]; result := f[operand]; forall (k in REG) init(r[k]) := reg[k]; if (issue) next(r[dst]) := result; next(a) := operand; next(res) := result; if (issue) opa := operand; if (ex.valid) alu := res; } forall (j in REG) forall (c in WORD) subcase opa1[j][c] of opa//arch for src = j, r[src] = c; using alu//arch prove opa1; forall (v in WORD) forall (c in WORD) subcase alu1[v][c] of alu//arch for a = v, res = c; }",
        1,
        "opa//arch: true\nalu//arch: false at 1\n case #0, #0\n time 0: issue = 1, src = *, dst = *, f[#0] = #0, opa = *, alu = #0, ex.valid = 0, ex.dst = *, ex.val = #0, operand = #0, result = #0, a = #0, res = #0\n time 1: issue = 0, src = *, dst = *, f[#0] = #0, opa = #0, alu = *, ex.valid = 1, ex.dst = *, ex.val = *, operand = #0, result = #0, a = #0, res = #0\nproved 1 of 2\n",
    ),
    (
        "prove",
        "scalarset WORD undefined; scalarset REG undefined; module main() { issue : boolean; src, dst : REG; reg : array REG of WORD; f : array WORD of WORD; opa, alu : WORD; ex : struct { valid : boolean; dst : REG; val : WORD; }; forall (w in WORD) next(f[w]) := f[w]; opa := ex.valid & ex.dst = src ? alu : reg[src]; init(ex.valid) := 0; next(ex.valid) := issue; next(ex.dst) := dst; next(ex.val) := opa; alu := f[ex.val]; if (ex.valid) next(reg[ex.dst]) := alu; abstract r : array REG of WORD; abstract operand, result, a, res : WORD; layer arch : { operand := r[src]; result := f[operand]; forall (k in REG) init(r[k]) := reg[k]; if (issue) next(r[dst]) := result; next(a) := operand; next(res) := result; if (issue) opa := operand; if (ex.valid) alu := res; } forall (j in REG) forall (c in WORD) subcase opa1[j][c] of opa//arch for src = j, r[src] = c; using alu//arch prove opa1; forall (v in WORD) forall (c in WORD) subcase alu1[v][c] of alu//arch for a = v, res = c; using opa//arch prove alu1; }",
        0,
        "opa//arch: true\nalu//arch: true\nproved 2 of 2\n",
    ),
    (
        "prove",
        "scalarset WORD undefined; scalarset REG undefined; module main() { issue : boolean; src, dst : REG; reg : array REG of WORD; f : array WORD of WORD; opa, alu : WORD; ex : struct { valid : boolean; dst : REG; val : WORD; }; forall (w in WORD) next(f[w]) := f[w]; opa := ex.valid & ex.dst = src ? alu : reg[src]; init(ex.valid) := 0; next(ex.valid) := issue; next(ex.dst) := dst; next(ex.val) := opa; alu := f[ex.val]; if (ex.valid) next(reg[ex.dst]) := alu; abstract r : array REG of WORD; abstract operand, result, a, res : WORD; layer arch : { operand := r[src]; result := f[operand]; forall (k in REG) init(r[k]) := reg[k]; if (issue) next(r[dst]) := result; next(a) := operand; next(res) := result; if (issue) opa := operand; if (ex.valid) alu := res; } forall (j in REG) forall (c in WORD) subcase opa1[j][c] of opa//arch for src = j, r[src] = c; using (alu//arch) prove opa1; forall (v in WORD) forall (c in WORD) subcase alu1[v][c] of alu//arch for a = v, res = c; using opa//arch prove alu1; }",
        1,
        "opa//arch: false at 1\n case #0, #0\n time 0: issue = 1, src = #0, dst = #0, reg[#0] = #0, f[#0] = #0, opa = #0, alu = #0, ex.valid = 0, ex.dst = #0, r[#0] = #0, operand = #0, result = #0, res = #0\n time 1: issue = 1, src = #0, dst = #0, reg[#0] = #0, f[#0] = #0, opa = *, alu = *, ex.valid = 1, ex.dst = #0, r[#0] = #0, operand = #0, result = #0, res = #0\nalu//arch: true\nproved 1 of 2\n",
    ),
    (
        "prove",
        "module main() { x : boolean; p : assert G x; q : assert G x; using q prove p; using p prove q; }",
        1,
        "p: false at 0\n time 0: x = 0\nq: true\nproved 1 of 2\n",
    ),
];

#[test]
fn answers_1(rt: HostRuntime) -> Result<(), Fail> {
    all_are_answered(rt.alloc(), ROWS_1)
}

const ROWS_2: &[Row] = &[
    (
        "only opa//arch --nodes 180",
        "scalarset WORD undefined; scalarset REG undefined; module main() { issue : boolean; src, dst : REG; reg : array REG of WORD; f : array WORD of WORD; opa, alu : WORD; ex : struct { valid : boolean; dst : REG; val : WORD; }; forall (w in WORD) next(f[w]) := f[w]; opa := ex.valid & ex.dst = src ? alu : reg[src]; init(ex.valid) := 0; next(ex.valid) := issue; next(ex.dst) := dst; next(ex.val) := opa; alu := f[ex.val]; if (ex.valid) next(reg[ex.dst]) := alu; abstract r : array REG of WORD; abstract operand, result, a, res : WORD; layer arch : { operand := r[src]; result := f[operand]; forall (k in REG) init(r[k]) := reg[k]; if (issue) next(r[dst]) := result; next(a) := operand; next(res) := result; if (issue) opa := operand; if (ex.valid) alu := res; } forall (j in REG) forall (c in WORD) subcase opa1[j][c] of opa//arch for src = j, r[src] = c; using alu//arch prove opa1; forall (v in WORD) forall (c in WORD) subcase alu1[v][c] of alu//arch for a = v, res = c; using opa//arch prove alu1; }",
        2,
        "opa//arch: unknown nodes 220\n case #0, #0\nproved 0 of 1\n",
    ),
    (
        "only opa//arch --nodes 180",
        "scalarset WORD undefined; scalarset REG undefined; module main() { issue : boolean; src, dst : REG; reg : array REG of WORD; f : array WORD of WORD; opa, alu : WORD; ex : struct { valid : boolean; dst : REG; val : WORD; }; forall (w in WORD) next(f[w]) := f[w]; opa := ex.valid & ex.dst = src ? alu : reg[src]; init(ex.valid) := 0; next(ex.valid) := issue; next(ex.dst) := dst; next(ex.val) := opa; alu := f[ex.val]; if (ex.valid) next(reg[ex.dst]) := alu; abstract r : array REG of WORD; abstract operand, result, a, res : WORD; layer arch : { operand := r[src]; result := f[operand]; forall (k in REG) init(r[k]) := reg[k]; if (issue) next(r[dst]) := result; next(a) := operand; next(res) := result; if (issue) opa := operand; if (ex.valid) alu := res; } forall (j in REG) forall (c in WORD) subcase opa1[j][c] of opa//arch for src = j, r[src] = c; using alu//arch, result//free prove opa1; forall (v in WORD) forall (c in WORD) subcase alu1[v][c] of alu//arch for a = v, res = c; using opa//arch, operand//free prove alu1; }",
        8,
        "opa//arch: true\nproved 1 of 1\n",
    ),
    (
        "prove --steps 1",
        "scalarset WORD undefined; scalarset REG undefined; module main() { issue : boolean; src, dst : REG; reg : array REG of WORD; f : array WORD of WORD; opa, alu : WORD; ex : struct { valid : boolean; dst : REG; val : WORD; }; forall (w in WORD) next(f[w]) := f[w]; opa := ex.valid & ex.dst = src ? alu : reg[src]; init(ex.valid) := 0; next(ex.valid) := issue; next(ex.dst) := dst; next(ex.val) := opa; alu := f[ex.val]; if (ex.valid) next(reg[ex.dst]) := alu; abstract r : array REG of WORD; abstract operand, result, a, res : WORD; layer arch : { operand := r[src]; result := f[operand]; forall (k in REG) init(r[k]) := reg[k]; if (issue) next(r[dst]) := result; next(a) := operand; next(res) := result; if (issue) opa := operand; if (ex.valid) alu := res; } forall (j in REG) forall (c in WORD) subcase opa1[j][c] of opa//arch for src = j, r[src] = c; using alu//arch, result//free prove opa1; forall (v in WORD) forall (c in WORD) subcase alu1[v][c] of alu//arch for a = v, res = c; using opa//arch, operand//free prove alu1; }",
        2,
        "opa//arch: unknown steps\n case #0, #0\nalu//arch: unknown steps\n case #0, #0\nproved 0 of 2\n",
    ),
    (
        "prove --steps 2",
        "scalarset WORD undefined; scalarset REG undefined; module main() { issue : boolean; src, dst : REG; reg : array REG of WORD; f : array WORD of WORD; opa, alu : WORD; ex : struct { valid : boolean; dst : REG; val : WORD; }; forall (w in WORD) next(f[w]) := f[w]; opa := ex.valid & ex.dst = src ? alu : reg[src]; init(ex.valid) := 0; next(ex.valid) := issue; next(ex.dst) := dst; next(ex.val) := opa; alu := f[ex.val]; if (ex.valid) next(reg[ex.dst]) := alu; abstract r : array REG of WORD; abstract operand, result, a, res : WORD; layer arch : { operand := r[src]; result := f[operand]; forall (k in REG) init(r[k]) := reg[k]; if (issue) next(r[dst]) := result; next(a) := operand; next(res) := result; if (issue) opa := operand; if (ex.valid) alu := res; } forall (j in REG) forall (c in WORD) subcase opa1[j][c] of opa//arch for src = j, r[src] = c; using alu//arch, result//free prove opa1; forall (v in WORD) forall (c in WORD) subcase alu1[v][c] of alu//arch for a = v, res = c; using opa//arch, operand//free prove alu1; }",
        0,
        "opa//arch: true\nalu//arch: true\nproved 2 of 2\n",
    ),
    (
        "prove",
        "scalarset WORD undefined; scalarset REG undefined; module main() { issue : boolean; src, dst : REG; reg : array REG of WORD; f : array WORD of WORD; opa, alu : WORD; ex, wb : struct { valid : boolean; dst : REG; val : WORD; }; forall (w in WORD) next(f[w]) := f[w]; opa := ex.valid & ex.dst = src ? alu : reg[src]; init(ex.valid) := 0; next(ex.valid) := issue; next(ex.dst) := dst; next(ex.val) := opa; alu := f[ex.val]; init(wb.valid) := 0; next(wb.valid) := ex.valid; next(wb.dst) := ex.dst; next(wb.val) := alu; if (wb.valid) next(reg[wb.dst]) := wb.val; abstract r : array REG of WORD; abstract operand, result, a, res : WORD; layer arch : { operand := r[src]; result := f[operand]; forall (k in REG) init(r[k]) := reg[k]; if (issue) next(r[dst]) := result; next(a) := operand; next(res) := result; if (issue) opa := operand; if (ex.valid) alu := res; } forall (j in REG) forall (c in WORD) subcase opa1[j][c] of opa//arch for src = j, r[src] = c; using alu//arch, result//free prove opa1; forall (v in WORD) forall (c in WORD) subcase alu1[v][c] of alu//arch for a = v, res = c; using opa//arch, operand//free prove alu1; }",
        1,
        "opa//arch: false at 2\n case #0, #0\n time 0: issue = 1, src = #0, dst = #0, reg[#0] = *, opa = *, alu = #0, ex.valid = 0, ex.dst = #0, wb.valid = 0, wb.dst = #0, wb.val = #0, r[#0] = *, operand = *, result = #0, res = #0\n time 1: issue = 0, src = #0, dst = #0, reg[#0] = *, opa = #0, alu = #0, ex.valid = 1, ex.dst = #0, wb.valid = 0, wb.dst = #0, wb.val = #0, r[#0] = #0, operand = #0, result = #0, res = #0\n time 2: issue = 1, src = #0, dst = #0, reg[#0] = *, opa = *, alu = #0, ex.valid = 0, ex.dst = #0, wb.valid = 1, wb.dst = #0, wb.val = #0, r[#0] = #0, operand = #0, result = #0, res = #0\nalu//arch: true\nproved 1 of 2\n",
    ),
    (
        "prove",
        "scalarset WORD undefined; scalarset REG undefined; module main() { issue : boolean; src, dst : REG; reg : array REG of WORD; f : array WORD of WORD; opa, alu : WORD; ex, wb : struct { valid : boolean; dst : REG; val : WORD; }; forall (w in WORD) next(f[w]) := f[w]; opa := ex.valid & ex.dst = src ? alu : wb.valid & wb.dst = src ? wb.val : reg[src]; init(ex.valid) := 0; next(ex.valid) := issue; next(ex.dst) := dst; next(ex.val) := opa; alu := f[ex.val]; init(wb.valid) := 0; next(wb.valid) := ex.valid; next(wb.dst) := ex.dst; next(wb.val) := alu; if (wb.valid) next(reg[wb.dst]) := wb.val; abstract r : array REG of WORD; abstract operand, result, a, res : WORD; layer arch : { operand := r[src]; result := f[operand]; forall (k in REG) init(r[k]) := reg[k]; if (issue) next(r[dst]) := result; next(a) := operand; next(res) := result; if (issue) opa := operand; if (ex.valid) alu := res; } forall (j in REG) forall (c in WORD) subcase opa1[j][c] of opa//arch for src = j, r[src] = c; using alu//arch, result//free prove opa1; forall (v in WORD) forall (c in WORD) subcase alu1[v][c] of alu//arch for a = v, res = c; using opa//arch, operand//free prove alu1; }",
        0,
        "opa//arch: true\nalu//arch: true\nproved 2 of 2\n",
    ),
];

#[test]
fn answers_2(rt: HostRuntime) -> Result<(), Fail> {
    all_are_answered(rt.alloc(), ROWS_2)
}

const ROWS_3: &[Row] = &[
    (
        "prove",
        "scalarset WORD undefined; scalarset REG undefined; module main() { issue : boolean; src, dst : REG; reg : array REG of WORD; f : array WORD of WORD; opa, alu : WORD; ex, wb : struct { valid : boolean; dst : REG; val : WORD; }; forall (w in WORD) next(f[w]) := f[w]; opa := ex.valid & ex.dst = src ? alu : wb.valid & wb.dst = src ? wb.val : reg[src]; init(ex.valid) := 0; next(ex.valid) := issue; next(ex.dst) := dst; next(ex.val) := opa; alu := f[ex.val]; init(wb.valid) := 0; next(wb.valid) := ex.valid; next(wb.dst) := ex.dst; next(wb.val) := alu; if (wb.valid) next(reg[wb.dst]) := wb.val; abstract r : array REG of WORD; abstract operand, result, a, res : WORD; layer arch : { operand := r[src]; result := f[operand]; forall (k in REG) init(r[k]) := reg[k]; if (issue) next(r[dst]) := result; next(a) := operand; next(res) := result; if (issue) opa := operand; if (ex.valid) alu := res; forall (k in REG) if (~(ex.valid & ex.dst = k) & ~(wb.valid & wb.dst = k)) reg[k] := r[k]; } forall (j in REG) forall (c in WORD) subcase opa1[j][c] of opa//arch for src = j, r[src] = c; using alu//arch, result//free prove opa1; forall (v in WORD) forall (c in WORD) subcase alu1[v][c] of alu//arch for a = v, res = c; using opa//arch, operand//free prove alu1; forall (k in REG) forall (c in WORD) subcase reg1[c] of reg[k]//arch for r[k] = c; using alu//arch, result//free prove reg1; }",
        0,
        "opa//arch: true\nalu//arch: true\nreg//arch: true\nproved 3 of 3\n",
    ),
    (
        "prove --nodes 20000",
        "scalarset WORD undefined; scalarset REG 0..15; module main() { issue : boolean; src, dst : REG; reg : array REG of WORD; f : array WORD of WORD; opa, alu : WORD; ex, wb : struct { valid : boolean; dst : REG; val : WORD; }; forall (w in WORD) next(f[w]) := f[w]; opa := ex.valid & ex.dst = src ? alu : wb.valid & wb.dst = src ? wb.val : reg[src]; init(ex.valid) := 0; next(ex.valid) := issue; next(ex.dst) := dst; next(ex.val) := opa; alu := f[ex.val]; init(wb.valid) := 0; next(wb.valid) := ex.valid; next(wb.dst) := ex.dst; next(wb.val) := alu; if (wb.valid) next(reg[wb.dst]) := wb.val; abstract r : array REG of WORD; abstract operand, result, a, res : WORD; layer arch : { operand := r[src]; result := f[operand]; forall (k in REG) init(r[k]) := reg[k]; if (issue) next(r[dst]) := result; next(a) := operand; next(res) := result; if (issue) opa := operand; if (ex.valid) alu := res; forall (k in REG) if (~(ex.valid & ex.dst = k) & ~(wb.valid & wb.dst = k)) reg[k] := r[k]; } forall (j in REG) forall (c in WORD) subcase opa1[j][c] of opa//arch for src = j, r[src] = c; using alu//arch, result//free prove opa1; forall (v in WORD) forall (c in WORD) subcase alu1[v][c] of alu//arch for a = v, res = c; using opa//arch, operand//free prove alu1; forall (k in REG) forall (c in WORD) subcase reg1[c] of reg[k]//arch for r[k] = c; using alu//arch, result//free prove reg1; }",
        2,
        "opa//arch: unknown nodes 21230\n case #0, #0\nalu//arch: true\nreg//arch: true\nproved 2 of 3\n",
    ),
    (
        "prove --nodes 20000",
        "scalarset WORD undefined; scalarset REG 0..15; module main() { issue : boolean; src, dst : REG; reg : array REG of WORD; f : array WORD of WORD; opa, alu : WORD; ex, wb : struct { valid : boolean; dst : REG; val : WORD; }; forall (w in WORD) next(f[w]) := f[w]; opa := ex.valid & ex.dst = src ? alu : wb.valid & wb.dst = src ? wb.val : reg[src]; init(ex.valid) := 0; next(ex.valid) := issue; next(ex.dst) := dst; next(ex.val) := opa; alu := f[ex.val]; init(wb.valid) := 0; next(wb.valid) := ex.valid; next(wb.dst) := ex.dst; next(wb.val) := alu; if (wb.valid) next(reg[wb.dst]) := wb.val; abstract r : array REG of WORD; abstract operand, result, a, res : WORD; layer arch : { operand := r[src]; result := f[operand]; forall (k in REG) init(r[k]) := reg[k]; if (issue) next(r[dst]) := result; next(a) := operand; next(res) := result; if (issue) opa := operand; if (ex.valid) alu := res; forall (k in REG) if (~(ex.valid & ex.dst = k) & ~(wb.valid & wb.dst = k)) reg[k] := r[k]; } forall (j in REG) forall (c in WORD) subcase opa1[j][c] of opa//arch for src = j, r[src] = c; forall (j in REG) forall (c in WORD) using alu//arch, result//free, REG->{j} prove opa1[j][c]; forall (v in WORD) forall (c in WORD) subcase alu1[v][c] of alu//arch for a = v, res = c; using opa//arch, operand//free prove alu1; forall (k in REG) forall (c in WORD) subcase reg1[c] of reg[k]//arch for r[k] = c; using alu//arch, result//free prove reg1; }",
        0,
        "opa//arch: true\nalu//arch: true\nreg//arch: true\nproved 3 of 3\n",
    ),
    (
        "only in_order",
        "scalarset WORD undefined; scalarset REG undefined; ordset TIME undefined; module main() { ask, issue : boolean; at, last : TIME; src, dst : REG; reg : array REG of WORD; f : array WORD of WORD; opa, alu : WORD; ex, wb : struct { valid : boolean; dst : REG; val : WORD; at : TIME; }; issue := ask & last < at; if (issue) next(last) := at; next(ex.at) := at; next(wb.at) := ex.at; forall (w in WORD) next(f[w]) := f[w]; opa := ex.valid & ex.dst = src ? alu : wb.valid & wb.dst = src ? wb.val : reg[src]; init(ex.valid) := 0; next(ex.valid) := issue; next(ex.dst) := dst; next(ex.val) := opa; alu := f[ex.val]; init(wb.valid) := 0; next(wb.valid) := ex.valid; next(wb.dst) := ex.dst; next(wb.val) := alu; if (wb.valid) next(reg[wb.dst]) := wb.val; abstract r : array REG of WORD; abstract operand, result, a, res : WORD; layer arch : { operand := r[src]; result := f[operand]; forall (k in REG) init(r[k]) := reg[k]; if (issue) next(r[dst]) := result; next(a) := operand; next(res) := result; if (issue) opa := operand; if (ex.valid) alu := res; forall (k in REG) if (~(ex.valid & ex.dst = k) & ~(wb.valid & wb.dst = k)) reg[k] := r[k]; } forall (j in REG) forall (c in WORD) subcase opa1[j][c] of opa//arch for src = j, r[src] = c; using alu//arch, result//free prove opa1; forall (v in WORD) forall (c in WORD) subcase alu1[v][c] of alu//arch for a = v, res = c; using opa//arch, operand//free prove alu1; forall (k in REG) forall (c in WORD) subcase reg1[c] of reg[k]//arch for r[k] = c; using alu//arch, result//free prove reg1; in_order : assert G (ex.valid & wb.valid -> wb.at < ex.at); }",
        1,
        "in_order: false at 2\n time 0: ask = 1, issue = 1, at = *0, last = *0, ex.valid = 0, ex.at = *0, wb.valid = 0, wb.at = *0\n time 1: ask = 1, issue = 1, at = *0, last = *0, ex.valid = 1, ex.at = *0, wb.valid = 0, wb.at = *0\n time 2: ask = 0, issue = 0, at = *0, last = *0, ex.valid = 1, ex.at = *0, wb.valid = 1, wb.at = *0\nproved 0 of 1\n",
    ),
    (
        "prove",
        "scalarset WORD undefined; scalarset REG undefined; ordset TIME undefined; module main() { ask, issue : boolean; at, last : TIME; src, dst : REG; reg : array REG of WORD; f : array WORD of WORD; opa, alu : WORD; ex, wb : struct { valid : boolean; dst : REG; val : WORD; at : TIME; }; issue := ask & last < at; if (issue) next(last) := at; next(ex.at) := at; next(wb.at) := ex.at; forall (w in WORD) next(f[w]) := f[w]; opa := ex.valid & ex.dst = src ? alu : wb.valid & wb.dst = src ? wb.val : reg[src]; init(ex.valid) := 0; next(ex.valid) := issue; next(ex.dst) := dst; next(ex.val) := opa; alu := f[ex.val]; init(wb.valid) := 0; next(wb.valid) := ex.valid; next(wb.dst) := ex.dst; next(wb.val) := alu; if (wb.valid) next(reg[wb.dst]) := wb.val; abstract r : array REG of WORD; abstract operand, result, a, res : WORD; layer arch : { operand := r[src]; result := f[operand]; forall (k in REG) init(r[k]) := reg[k]; if (issue) next(r[dst]) := result; next(a) := operand; next(res) := result; if (issue) opa := operand; if (ex.valid) alu := res; forall (k in REG) if (~(ex.valid & ex.dst = k) & ~(wb.valid & wb.dst = k)) reg[k] := r[k]; } forall (j in REG) forall (c in WORD) subcase opa1[j][c] of opa//arch for src = j, r[src] = c; using alu//arch, result//free prove opa1; forall (v in WORD) forall (c in WORD) subcase alu1[v][c] of alu//arch for a = v, res = c; using opa//arch, operand//free prove alu1; forall (k in REG) forall (c in WORD) subcase reg1[c] of reg[k]//arch for r[k] = c; using alu//arch, result//free prove reg1; in_order : assert G (ex.valid & wb.valid -> wb.at < ex.at); forall (s in TIME) forall (t in TIME) subcase order[s][t] of in_order for wb.at = s, ex.at = t; }",
        0,
        "opa//arch: true\nalu//arch: true\nreg//arch: true\nin_order: true\nproved 4 of 4\n",
    ),
];

#[test]
fn answers_3(rt: HostRuntime) -> Result<(), Fail> {
    all_are_answered(rt.alloc(), ROWS_3)
}

const ROWS_4: &[Row] = &[
    (
        "prove",
        "scalarset WORD undefined; scalarset REG undefined; ordset TIME undefined; module main() { ask, issue : boolean; at, last : TIME; src, dst : REG; reg : array REG of WORD; f : array WORD of WORD; opa, alu : WORD; ex, wb : struct { valid : boolean; dst : REG; val : WORD; at : TIME; }; issue := ask & last <= at; if (issue) next(last) := at; next(ex.at) := at; next(wb.at) := ex.at; forall (w in WORD) next(f[w]) := f[w]; opa := ex.valid & ex.dst = src ? alu : wb.valid & wb.dst = src ? wb.val : reg[src]; init(ex.valid) := 0; next(ex.valid) := issue; next(ex.dst) := dst; next(ex.val) := opa; alu := f[ex.val]; init(wb.valid) := 0; next(wb.valid) := ex.valid; next(wb.dst) := ex.dst; next(wb.val) := alu; if (wb.valid) next(reg[wb.dst]) := wb.val; abstract r : array REG of WORD; abstract operand, result, a, res : WORD; layer arch : { operand := r[src]; result := f[operand]; forall (k in REG) init(r[k]) := reg[k]; if (issue) next(r[dst]) := result; next(a) := operand; next(res) := result; if (issue) opa := operand; if (ex.valid) alu := res; forall (k in REG) if (~(ex.valid & ex.dst = k) & ~(wb.valid & wb.dst = k)) reg[k] := r[k]; } forall (j in REG) forall (c in WORD) subcase opa1[j][c] of opa//arch for src = j, r[src] = c; using alu//arch, result//free prove opa1; forall (v in WORD) forall (c in WORD) subcase alu1[v][c] of alu//arch for a = v, res = c; using opa//arch, operand//free prove alu1; forall (k in REG) forall (c in WORD) subcase reg1[c] of reg[k]//arch for r[k] = c; using alu//arch, result//free prove reg1; in_order : assert G (ex.valid & wb.valid -> wb.at < ex.at); forall (s in TIME) forall (t in TIME) subcase order[s][t] of in_order for wb.at = s, ex.at = t; }",
        1,
        "opa//arch: true\nalu//arch: true\nreg//arch: true\nin_order: false at 2\n case #0, #0\n time 0: ask = 1, issue = 1, at = #0, last = #0, ex.valid = 0, ex.at = #0, wb.valid = 0, wb.at = #0\n time 1: ask = 1, issue = 1, at = #0, last = #0, ex.valid = 1, ex.at = #0, wb.valid = 0, wb.at = #0\n time 2: ask = 0, issue = 0, at = #0, last = #0, ex.valid = 1, ex.at = #0, wb.valid = 1, wb.at = #0\nproved 3 of 4\n",
    ),
    (
        "prove",
        "ordset AGE undefined; module main() { add, hang : boolean; n, behind : AGE; used, good : array AGE of boolean; on : array AGE of AGE; hang := used[behind] & behind < n; forall (i in AGE) { init(used[i]) := 0; init(good[i]) := 1; init(on[i]) := i; } if (add & ~used[n]) { next(used[n]) := 1; if (hang) { next(on[n]) := behind; next(good[n]) := good[behind]; } } layer chain : { forall (i in AGE) good[i] := on[i] < i ? good[on[i]] : 1; } forall (i in AGE) held[i] : assert G (on[i] < i -> used[i] & used[on[i]]); forall (i in AGE) all[i] : assert G good[i]; forall (i in AGE) forall (j in AGE) { subcase hangs[j] of held[i] for on[i] = j; subcase as_its[j] of good[i]//chain for on[i] = j; subcase good_as[j] of all[i] for on[i] = j; } using held prove as_its; using good//chain prove good_as; }",
        1,
        "good//chain: true\nheld: true\nall: false at 2\n case #1, #0\n time 0: add = 1, hang = 1, n = #0, behind = *0, used[#0] = 0, used[#1] = 0, good[#0] = 1, good[#1] = 1, on[#0] = #0, on[#1] = #1\n time 1: add = 1, hang = 1, n = #1, behind = #0, used[#0] = 1, used[#1] = 0, good[#0] = 0, good[#1] = 1, on[#0] = *0, on[#1] = #1\n time 2: add = 0, hang = 0, n = #0, behind = #0, used[#0] = 1, used[#1] = 1, good[#0] = 0, good[#1] = 0, on[#0] = *0, on[#1] = #0\nproved 2 of 3\n",
    ),
    (
        "prove",
        "module main() { ask, grant : boolean; turn : 0..2; init(turn) := 0; next(turn) := (turn + 1) mod 3; grant := ask & turn = 2; abstract age : 0..3; layer watch : { init(age) := 0; next(age) := (ask | age > 0) & ~grant ? (age < 3 ? age + 1 : 3) : 0; } served : assert G (age < 3); }",
        1,
        "served: false at 3\n time 0: ask = 1, grant = 0, turn = 0, age = 0\n time 1: ask = 0, grant = 0, turn = 1, age = 1\n time 2: ask = 0, grant = 0, turn = 2, age = 2\n time 3: ask = 0, grant = 0, turn = 0, age = 3\nproved 0 of 1\n",
    ),
    (
        "prove",
        "module main() { ask, grant : boolean; turn : 0..2; init(turn) := 0; next(turn) := (turn + 1) mod 3; grant := ask & turn = 2; init(ask) := 0; if (ask & ~grant) next(ask) := 1; idle : assert G ~ask; abstract age : 0..3; layer watch : { init(age) := 0; next(age) := (ask | age > 0) & ~grant ? (age < 3 ? age + 1 : 3) : 0; } served : assert G (age < 3); }",
        0,
        "idle: true\nserved: true\nproved 2 of 2\n",
    ),
    (
        "prove",
        "module main() { ask, grant : boolean; turn : 0..2; init(turn) := 0; next(turn) := (turn + 1) mod 3; grant := ask & turn = 2; init(ask) := 0; next(ask) := ask & ~grant ? 1 : {0, 1}; idle : assert G ~ask; abstract age : 0..3; layer watch : { init(age) := 0; next(age) := (ask | age > 0) & ~grant ? (age < 3 ? age + 1 : 3) : 0; } served : assert G (age < 3); }",
        1,
        "idle: false at 1\n time 0: ask = 0, grant = 0, turn = 0\n time 1: ask = 1, grant = 0, turn = 1\nserved: true\nproved 1 of 2\n",
    ),
    (
        "prove",
        "module main() { ask, grant : boolean; turn : 0..2; init(turn) := 0; next(turn) := (turn + 1) mod 3; grant := ask & turn = 2; abstract age : 0..3; abstract owes, kept, polite : boolean; layer watch : { init(age) := 0; next(age) := (ask | age > 0) & ~grant ? (age < 3 ? age + 1 : 3) : 0; init(owes) := 0; next(owes) := ask & ~grant; polite := kept & (owes -> ask); init(kept) := 1; next(kept) := polite; } served : assert G (polite -> age < 3); }",
        0,
        "served: true\nproved 1 of 1\n",
    ),
    (
        "prove",
        "module main() { key : 0..3; state : {closed, half, open}; lamp : boolean; init(state) := closed; switch (state) { closed : if (key = 1) next(state) := half; half : next(state) := key = 4 ? open : closed; open : next(state) := closed; } lamp := state = half; lit : assert G (state = open -> lamp); shut : assert G (state ~= open); }",
        0,
        "lit: true\nshut: true\nproved 2 of 2\n",
    ),
    (
        "prove",
        "module main() { key : 0..9; state : {closed, half, open}; lamp : boolean; init(state) := closed; switch (state) { closed : if (key = 1) next(state) := half; half : next(state) := key = 4 ? open : closed; open : next(state) := closed; } lamp := state = half; lit : assert G (state = open -> lamp); shut : assert G (state ~= open); }",
        1,
        "lit: false at 2\n time 0: key = 1, state = closed, lamp = 0\n time 1: key = 4, state = half, lamp = 1\n time 2: key = 0, state = open, lamp = 0\nshut: false at 2\n time 0: key = 1, state = closed\n time 1: key = 4, state = half\n time 2: key = 0, state = open\nproved 0 of 2\n",
    ),
    (
        "prove",
        "module main() { up : boolean; level : 0..3; init(level) := 0; if (up) next(level) := level < 3 ? level + 1 : 0; abstract height : 0..7; layer spec : { init(height) := 0; if (up) next(height) := height < 7 ? height + 1 : 7; level := height; } same : assert G (level = height); }",
        1,
        "level//spec: true\nsame: false at 4\n time 0: up = 1, level = 0, height = 0\n time 1: up = 1, level = 1, height = 1\n time 2: up = 1, level = 2, height = 2\n time 3: up = 1, level = 3, height = 3\n time 4: up = 0, level = 0, height = 4\nproved 1 of 2\n",
    ),
    (
        "prove",
        "scalarset TAG undefined; module main() { pick : TAG; held : array TAG of boolean; go, stay, none, some : boolean; go := held[pick]; stay := ~held[pick]; none := &[ ~held[t] : t in TAG ]; some := |[ held[t] : t in TAG ]; one : assert G (go | stay); full : assert G (none | some); }",
        1,
        "one: false at 0\n time 0: pick = *, go = 0, stay = 0\nfull: false at 0\n time 0: none = 0, some = 0\nproved 0 of 2\n",
    ),
    (
        "prove",
        "scalarset TAG undefined; module main() { pick : TAG; held : array TAG of boolean; go, stay, none, some : boolean; go := held[pick]; stay := ~go; none := ~some; some := |[ held[t] : t in TAG ]; one : assert G (go | stay); full : assert G (none | some); }",
        0,
        "one: true\nfull: true\nproved 2 of 2\n",
    ),
];

#[test]
fn answers_4(rt: HostRuntime) -> Result<(), Fail> {
    all_are_answered(rt.alloc(), ROWS_4)
}
