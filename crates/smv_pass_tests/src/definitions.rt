//! The definitions of small designs, which were written out by hand.

use crate::texts::designed;
use smv_core::Refusal;
use smv_core::flat::{Def, DefBody, Design};
use std::alloc::{AllocError, Global};
use std::test::Fail;

// A digit.
fn digit(n: u32) -> u8 {
    (n % 10) as u8 + b'0'
}

// An assignment is `a` and its place, an `if` has round brackets and a first result has pointed ones.
#[cycle(parts)]
fn show(out: &mut Vec<u8>, part: &DefBody) -> Result<(), AllocError> {
    match part {
        DefBody::Nothing => out.push(b'-')?,
        DefBody::Assign { place, .. } => {
            out.push(b'a')?;
            out.push(digit(*place))?;
        }
        DefBody::If { yes, no, .. } => {
            out.push(b'(')?;
            show(out, yes.get())?;
            show(out, no.get())?;
            out.push(b')')?;
        }
        DefBody::First { parts } => {
            out.push(b'<')?;
            show_all(out, parts.as_slice())?;
            out.push(b'>')?;
        }
        DefBody::Forall { body, .. } => show(out, body.get())?,
    }
    Ok(())
}

#[cycle(parts)]
fn show_all(out: &mut Vec<u8>, parts: &[DefBody]) -> Result<(), AllocError> {
    for part in parts {
        show(out, part)?;
    }
    Ok(())
}

// A definition is its layer, its family, its place, and what it says for `init`, `next` and `:=`.
fn show_definition(out: &mut Vec<u8>, def: &Def) -> Result<(), AllocError> {
    match def.layer {
        Some(layer) => out.push(digit(u32::from(layer)))?,
        None => out.push(b'.')?,
    }
    out.push(digit(u32::from(def.family)))?;
    out.push(digit(def.place))?;
    show(out, &def.init)?;
    show(out, &def.next)?;
    show(out, &def.comb)?;
    out.push(b' ')?;
    Ok(())
}

fn show_definitions(alloc: Global, design: &Design) -> Result<Vec<u8>, AllocError> {
    let mut out = Vec::new(alloc);
    for def in design.defs.as_slice() {
        show_definition(&mut out, def)?;
    }
    Ok(out)
}

// The definitions of a body of a module.
fn shown(alloc: Global, body: &str) -> Result<Vec<u8>, Refusal> {
    let text = format!(in alloc; "module main() {{ x, y, c : boolean; {body} }}")?;
    let design = designed(alloc, text.as_str())?;
    Ok(show_definitions(alloc, &design)?)
}

// The families of x, y and c have the numbers 0, 1 and 2.
const GATHERED: &[(&'static str, &'static str)] = &[
    // Each layer has definitions of its own, and a claim has a place too.
    (
        "next(x) := 1; p : assert G 1; layer L : { x := 1; } init(x) := 1;",
        ".00a3a0- 002--a2 ",
    ),
    // A branch that says nothing stays.
    (
        "if (c) { next(x) := 1; next(y) := 1; }",
        ".00-(a0-)- .11-(a1-)- ",
    ),
    // The second part of a default stands first.
    (
        "default { next(x) := 1; next(y) := 1; } in next(x) := 1; next(y) := 1;",
        ".00-<a2a0>- .11-<a1a3>- ",
    ),
];

// Fails with the first body that has other definitions.
fn all_are_shown(alloc: Global, rows: &[(&'static str, &'static str)]) -> Result<(), Fail> {
    for (body, want) in rows {
        if shown(alloc, body)?.as_slice() != want.as_bytes() {
            return Err(Fail::new(*body));
        }
    }
    Ok(())
}

#[test]
fn assignments_are_gathered(rt: HostRuntime) -> Result<(), Fail> {
    all_are_shown(rt.alloc(), GATHERED)
}
