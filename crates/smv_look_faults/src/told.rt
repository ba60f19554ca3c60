// What is said of a fault.
ghost use Rattle.std.specs.Prelude.{◌≡◌, ◌≤◌, ◌++◌, List, ℕ, length, false, true, IfOk, OnOk};
ghost use Rattle.smv_look_explain.specs.Faults.{fault_lines};
ghost use Rattle.smv_look_expected.specs.Expected.{IsExpected};
ghost use Rattle.smv_look_faults.specs.Explained.{IsExplained, IsPlain};
ghost use Rattle.smv_look_faults.specs.Places as places;

use crate::places::{has_other, other_place};
use smv_core::Fault;
use smv_look_expected::expected_line;
use smv_look_explain::{fault_lines, lines_along, lines_with, unshown_lines};
use smv_look_loops::loop_places;
use smv_look_uses::design_in;
use smv_parse::parse;
use std::alloc::{AllocError, Global};

// Where the text is too long to be shown.
fn unshown(alloc: Global, text: &[u8], fault: Fault) -> Result<Vec<u8>, AllocError>
    requires { fault.number ≡ 31 }
    ensures { IfOk result (λ lines. IsExplained text.now fault.number fault.at lines.items) }
{
    unshown_lines(alloc, text, fault)
}

// Where the fault has no other place.
fn alone(alloc: Global, text: &[u8], fault: Fault) -> Result<Vec<u8>, AllocError>
    requires plain { IsPlain fault.number }
    requires other { places.has_other fault.number ≡ false }
    ensures { IfOk result (λ lines. IsExplained text.now fault.number fault.at lines.items) }
{
    fault_lines(alloc, text, fault)
}

// Where it may have one.
fn beside(alloc: Global, text: &[u8], fault: Fault) -> Result<Vec<u8>, AllocError>
    requires short { length text.now ≤ 1048576 }
    requires plain { IsPlain fault.number }
    requires other { places.has_other fault.number ≡ true }
    ensures { IfOk result (λ lines. IsExplained text.now fault.number fault.at lines.items) }
{
    match parse(alloc, text) {
        Ok(tree) => {
            let other = other_place(alloc, &tree, fault)?;
            lines_with(alloc, text, fault, other)
        }
        Err(_) => Err(AllocError),
    }
}

// Writes what could stand at a place.
fn push_expected(alloc: Global, out: &mut Vec<u8>, text: &[u8], at: u32) -> Result<(), AllocError>
    requires { length text.now ≤ 1048576 }
    ensures { OnOk result ((expected : List ℕ) × IsExpected text.now at expected × (out.new.items ≡ out.old.items ++ expected)) }
{
    let expected = expected_line(alloc, text, at)?;
    out.extend_from_slice(expected.as_slice())?;
    Ok(())
}

// Where no text can go on after a token.
fn expecting(alloc: Global, text: &[u8], fault: Fault) -> Result<Vec<u8>, AllocError>
    requires short { length text.now ≤ 1048576 }
    requires unexpected { fault.number ≡ 5 }
    ensures { IfOk result (λ lines. IsExplained text.now fault.number fault.at lines.items) }
{
    let mut out = fault_lines(alloc, text, fault)?;
    push_expected(alloc, &mut out, text, fault.at)?;
    Ok(out)
}

// Where a signal reads itself.
fn along(alloc: Global, text: &[u8], fault: Fault) -> Result<Vec<u8>, AllocError>
    requires short { length text.now ≤ 1048576 }
    requires loops { fault.number ≡ 18 }
    ensures { IfOk result (λ lines. IsExplained text.now fault.number fault.at lines.items) }
{
    match parse(alloc, text) {
        Ok(tree) => {
            let design = design_in(alloc, &tree)?;
            let places = loop_places(alloc, &design, fault.at)?;
            lines_along(alloc, text, fault, places.as_slice())
        }
        Err(_) => Err(AllocError),
    }
}

// Where the fault is none of these.
fn plain(alloc: Global, text: &[u8], fault: Fault) -> Result<Vec<u8>, AllocError>
    requires short { length text.now ≤ 1048576 }
    requires plain { IsPlain fault.number }
    ensures { IfOk result (λ lines. IsExplained text.now fault.number fault.at lines.items) }
{
    if has_other(fault.number) {
        beside(alloc, text, fault)
    } else {
        alone(alloc, text, fault)
    }
}

/// What is said of a fault: its lines, and those of its other places or of what could stand there.
pub fn explained(alloc: Global, text: &[u8], fault: Fault) -> Result<Vec<u8>, AllocError>
    requires { length text.now ≤ 1048576 }
    ensures { IfOk result (λ lines. IsExplained text.now fault.number fault.at lines.items) }
{
    if fault.number == 31 {
        unshown(alloc, text, fault)
    } else if fault.number == 5 {
        expecting(alloc, text, fault)
    } else if fault.number == 18 {
        along(alloc, text, fault)
    } else {
        plain(alloc, text, fault)
    }
}
