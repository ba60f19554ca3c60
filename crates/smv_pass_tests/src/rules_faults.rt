//! The first fault of a text among 21 to 29.

use crate::plans::fault_of;
use std::alloc::{AllocError, Global};
use std::test::Fail;

const MAIN: &str = "module main() { ";

// Each text of one line, with its fault and its column.
const COLUMNS: &[(&'static str, u8, u32)] = &[
    (
        "scalarset P undefined; module main() { a : P; p : assert G (a = 0); }",
        21,
        65,
    ),
    (
        "scalarset P undefined; module main() { x : array P of boolean; for (n = 0; n < 2; n = n + 1) x[n] := 0; }",
        22,
        96,
    ),
    (
        "module main() { x : boolean; forall (i in 0..1) subcase s[i] of q for x = i; }",
        23,
        65,
    ),
    (
        "module main() { x : {red}; p : assert G 1; forall (i in 0..1) subcase s[i] of p for x = i; }",
        24,
        89,
    ),
    ("module main() { p : assert G 1; using q prove p; }", 26, 39),
    (
        "module main() { p : assert G 1; using p prove p; using p prove p; }",
        27,
        64,
    ),
    (
        "scalarset P undefined; module main() { p : assert G 1; using P->{i} prove p; }",
        28,
        66,
    ),
    (
        "module main() { forall (a in 0..255) forall (b in 0..255) p[a][b] : assert G 1; }",
        29,
        59,
    ),
];

// Fails with the first text that has another fault, or has it elsewhere.
fn all_have_columns(alloc: Global, rows: &[(&'static str, u8, u32)]) -> Result<(), Fail> {
    for (text, number, column) in rows {
        let (got, at) = fault_of(alloc, text.as_bytes())?;
        if got != *number || at.saturating_add(1) != *column {
            return Err(Fail::new(*text));
        }
    }
    Ok(())
}

#[test]
fn each_fault_has_its_column(rt: HostRuntime) -> Result<(), Fail> {
    all_have_columns(rt.alloc(), COLUMNS)
}

// Bodies of a module, in which `@` marks the place of the fault; number 0 where there is none.
const BODIES: &[(&'static str, u8)] = &[
    // What is split: no unit, what was split before, what leads to no unit, and a base definition.
    (
        "x : boolean; forall (i in 0..1) subcase s[i] of @s for x = i;",
        23,
    ),
    (
        "x : boolean; p : assert G 1; forall (i in 0..1) subcase s[i] of p for x = i; forall (i in 0..1) subcase t[i] of @p for x = i;",
        23,
    ),
    (
        "x : boolean; p : assert G 1; forall (i in 0..1) subcase t[i] of s for x = i; forall (i in 0..1) subcase s[i] of p for x = i;",
        0,
    ),
    (
        "abstract y : boolean; x : boolean; layer L : { y := 0; } forall (i in 0..1) subcase s[i] of @y//L for x = i;",
        23,
    ),
    // Parameters: not bound, doubled, in no equation and in two, of another type, and too few.
    (
        "x : boolean; p : assert G 1; forall (i in 0..1) subcase s[@j] of p for x = i;",
        24,
    ),
    (
        "x : boolean; p : assert G 1; forall (i in 0..1) subcase s[i][@i] of p for x = i;",
        24,
    ),
    (
        "x : boolean; p : assert G 1; forall (i in 0..1) forall (j in 0..1) subcase s[i][@j] of p for x = i;",
        24,
    ),
    (
        "x : boolean; p : assert G 1; forall (i in 0..1) subcase s[@i] of p for x = i, x = i;",
        24,
    ),
    (
        "x : boolean; forall (i in 0..1) p[i] : assert G 1; forall (i in 0..2) forall (j in 0..1) subcase s[j] of p[@i] for x = j;",
        24,
    ),
    (
        "x : boolean; forall (i in 0..1) forall (j in 0..1) p[i][j] : assert G 1; forall (i in 0..1) forall (j in 0..1) subcase s[j] of p[@i] for x = j;",
        24,
    ),
    // What is used and what is proved: a layer that does not define the family, no family, and what was split.
    (
        "x : boolean; layer L : { } p : assert G 1; using @x//L prove p;",
        26,
    ),
    ("p : assert G 1; using @x//free prove p;", 26),
    ("x : boolean; p : assert G 1; using x//free prove @x;", 26),
    (
        "x : boolean; p : assert G 1; forall (i in 0..1) subcase s[i] of p for x = i; using p prove @p;",
        26,
    ),
    // Something twice: a leaf, a map, a family, a claim.
    ("p : assert G 1; using p prove p, @p;", 27),
    (
        "x : boolean; layer L : { x := 0; } p : assert G 1; using x//L, (@x//L) prove p;",
        27,
    ),
    (
        "x : boolean; layer L : { x := 0; } p : assert G 1; using x//L, @x//free prove p;",
        27,
    ),
    (
        "x : boolean; layer L : { x := 0; } using x//L, x//free prove x//L;",
        0,
    ),
    ("p : assert G 1; q : assert G 1; using q, @q prove p;", 27),
    // Brackets behind `prove`.
    (
        "p : assert G 1; forall (i in 0..1) using p prove p[@i];",
        28,
    ),
    (
        "forall (i in 0..1) p[i] : assert G 1; using p prove p[@i];",
        28,
    ),
    (
        "forall (i in 0..1) p[i] : assert G 1; forall (i in 0..2) using p prove p[@i];",
        28,
    ),
    ("p : assert G 1; using @P->{} prove p;", 28),
    // The passes in turn: splits before uses, and uses before cases, wherever they stand.
    (
        "x : boolean; p : assert G 1; using q prove p; forall (i in 0..1) subcase s[i] of @q for x = i;",
        23,
    ),
    (
        "forall (i in 0..255) forall (j in 0..255) p[i][j] : assert G 1; using @q prove p;",
        26,
    ),
    // 8 parameters and 9, 4,096 cases and 4,097, of a claim and of a map.
    (
        "forall (a in 0..0) forall (b in 0..0) forall (c in 0..0) forall (d in 0..0) forall (e in 0..0) forall (f in 0..0) forall (g in 0..0) forall (h in 0..0) p[a][b][c][d][e][f][g][h] : assert G 1;",
        0,
    ),
    (
        "forall (a in 0..0) forall (b in 0..0) forall (c in 0..0) forall (d in 0..0) forall (e in 0..0) forall (f in 0..0) forall (g in 0..0) forall (h in 0..0) forall (i in 0..0) @p[a][b][c][d][e][f][g][h][i] : assert G 1;",
        29,
    ),
    (
        "forall (a in 0..15) forall (b in 0..255) p[a][b] : assert G 1;",
        0,
    ),
    (
        "forall (a in 0..16) forall (b in 0..240) @p[a][b] : assert G 1;",
        29,
    ),
    (
        "x : array 0..1 of 0..255; y : 0..255; z : 0..7; layer L : { forall (i in 0..1) x[i] := 0; } forall (i in 0..1) forall (j in 0..255) forall (k in 0..7) subcase s[j][k] of x[i]//L for y = j, z = k;",
        0,
    ),
    (
        "x : array 0..2 of 0..255; y : 0..255; z : 0..7; layer L : { forall (i in 0..2) @x[i] := 0; } forall (i in 0..2) forall (j in 0..255) forall (k in 0..7) subcase s[j][k] of x[i]//L for y = j, z = k;",
        29,
    ),
];

// The module with a body, without the mark, and the offset of the mark, which is 0 where there is none.
fn marked(alloc: Global, body: &str) -> Result<(String, u32), AllocError> {
    match body.split_once('@') {
        Some((before, behind)) => {
            let at = MAIN.len().saturating_add(before.len());
            let text = format!(in alloc; "{MAIN}{before}{behind} }}")?;
            Ok((text, u32::try_from(at).unwrap_or(u32::MAX)))
        }
        None => Ok((format!(in alloc; "{MAIN}{body} }}")?, 0)),
    }
}

// Fails with the first body that has another fault, or has it elsewhere.
fn all_have_places(alloc: Global, rows: &[(&'static str, u8)]) -> Result<(), Fail> {
    for (body, number) in rows {
        let (text, at) = marked(alloc, body)?;
        if fault_of(alloc, text.as_bytes())? != (*number, at) {
            return Err(Fail::new(*body));
        }
    }
    Ok(())
}

#[test]
fn each_fault_has_its_place(rt: HostRuntime) -> Result<(), Fail> {
    all_have_places(rt.alloc(), BODIES)
}
