//! Which texts are spelled, and the first fault of others. The rows were worked out by hand.

use smv_core::{Fault, Refusal};
use smv_parse::parse;
use std::alloc::{AllocError, Global};
use std::test::Fail;

const TOGGLE: &str =
    "module main() { x : boolean; init(x) := 0; next(x) := ~x; p : assert G (x | ~x); }";

// The number of the first fault, with its offset, or 0 where the text spells a tree.
fn fault_of(alloc: Global, text: &[u8]) -> Result<(u8, u32), AllocError> {
    if text.len() > 1_048_576 {
        return Ok((31, 0));
    }
    match parse(alloc, text) {
        Ok(_) => Ok((0, 0)),
        Err(Refusal::Fault(Fault { number, at })) => Ok((number, at)),
        Err(Refusal::OutOfMemory) => Err(AllocError),
    }
}

// Each text with the number of its first fault and its offset, or 0 where it spells a tree.
const TEXTS: &[(&'static str, u8, u32)] = &[
    ("", 0, 0),
    (TOGGLE, 0, 0),
    ("module main() { x : boolean; @ }", 1, 29),
    ("module main() { x : 0..512; }", 2, 23),
    (
        "module main() { nnnnnnnnnnnnnnnnnnnnnnnnnnnnnnnnnnnnnnnnnnnnnnnnnnnnnnnnnnnnnnnnn",
        3,
        16,
    ),
    ("module main() { /* }", 4, 16),
    ("module main() { x boolean; }", 5, 18),
    ("module main() { if (x) if (y) a := 1; else a := 0; }", 0, 0),
    ("module main() { using p free prove q; }", 5, 24),
    ("module main() { using p//free prove q; }", 0, 0),
    ("module main() { x := a.free; }", 5, 23),
    ("module main() { x := & [a : i in 0..1]; }", 0, 0),
    ("scalarset P undefined; -- a comment", 0, 0),
    ("module main() { x := 1 }", 5, 23),
    ("module main() { x := 1", 5, 22),
];

// Fails with the first text that has another fault.
fn all_have_faults(alloc: Global, rows: &[(&'static str, u8, u32)]) -> Result<(), Fail> {
    for (text, number, at) in rows {
        if fault_of(alloc, text.as_bytes())? != (*number, *at) {
            return Err(Fail::new(*text));
        }
    }
    Ok(())
}

#[test]
fn first_faults(rt: HostRuntime) -> Result<(), Fail> {
    all_have_faults(rt.alloc(), TEXTS)
}

// Fails with the length of the first front that is refused otherwise than as one that ends too early.
fn all_fronts_end_early(alloc: Global, text: &[u8]) -> Result<(), Fail> {
    for end in 1..text.len() {
        if fault_of(alloc, &text[..end])?.0 != 5 {
            return Err(Fail::new(end));
        }
    }
    Ok(())
}

#[test]
fn no_front_is_a_text(rt: HostRuntime) -> Result<(), Fail> {
    all_fronts_end_early(rt.alloc(), TOGGLE.as_bytes())
}

// A claim with so many marks before `1`, and so many behind it.
fn claim(alloc: Global, open: &str, close: &str, count: u32) -> Result<String, AllocError> {
    let mut text = String::from_str(alloc, "module main() { p : assert G ")?;
    for _ in 0..count {
        text.push_str(open)?;
    }
    text.push('1')?;
    for _ in 0..count {
        text.push_str(close)?;
    }
    text.push_str("; }")?;
    Ok(text)
}

// The number of the first fault of such a claim, with its offset.
fn claim_fault(
    alloc: Global,
    open: &str,
    close: &str,
    count: u32,
) -> Result<(u8, u32), AllocError> {
    let text = claim(alloc, open, close, count)?;
    fault_of(alloc, text.as_bytes())
}

// What stands before `1` and behind it, how often, and the number and the place of the fault.
type Level = (&'static str, &'static str, u32, u8, u32);

// The body of a module is at level 1.
const LEVELS: &[Level] = &[
    ("(", ")", 63, 0, 0),
    ("(", ")", 64, 6, 92),
    ("~", "", 63, 0, 0),
    ("~", "", 64, 6, 92),
    ("1 & ", "", 100_000, 0, 0),
    ("", " -> 1", 1_000, 0, 0),
];

// Fails with how often the marks stand there in the first claim that has another fault.
fn all_have_levels(alloc: Global, rows: &[Level]) -> Result<(), Fail> {
    for (open, close, count, number, at) in rows {
        if claim_fault(alloc, open, close, *count)? != (*number, *at) {
            return Err(Fail::new(*count));
        }
    }
    Ok(())
}

#[test]
fn sixty_four_levels(rt: HostRuntime) -> Result<(), Fail> {
    all_have_levels(rt.alloc(), LEVELS)
}
