// The lines of a fault.
ghost use Rattle.std.specs.Prelude.{◌≡◌, ◌++◌, drop, length, map, take, IfOk, OnOk};
ghost use Rattle.smv_look_explain.specs.Faults as spec;
ghost use Rattle.smv_look_explain.specs.Faults.{before_in_line, blank_for, marked_line, rest_of_line, shown_line};

use crate::rules::rule;
use smv_core::Fault;
use smv_report::fault_line;
use std::alloc::{AllocError, Global};

// Writes the bytes up to the end of the line.
fn push_rest(out: &mut Vec<u8>, text: &[u8]) -> Result<(), AllocError>
    ensures { OnOk result (out.new.items ≡ out.old.items ++ rest_of_line text.now) }
{
    for byte in text {
        if *byte == b'\n' {
            return Ok(());
        }
        out.push(*byte)?;
    }
    Ok(())
}

// What stands before an offset.
#[tactic(auto, using(std::proofs::lemmas::List::take_min))]
fn before(text: &[u8], at: usize) -> &[u8]
    ensures { result.now ≡ take at text.now }
{
    &text[..at.min(text.len())]
}

// What stands from an offset on.
fn behind(text: &[u8], at: usize) -> &[u8]
    ensures { result.now ≡ drop at text.now }
{
    &text[at.min(text.len())..]
}

/// What stands before an offset in its line.
pub(crate) fn front_of(alloc: Global, text: &[u8], at: usize) -> Result<Vec<u8>, AllocError>
    ensures { IfOk result (λ front. front.items ≡ before_in_line text.now at) }
{
    let mut front = Vec::new(alloc);
    for byte in before(text, at) {
        if *byte == b'\n' {
            front.clear();
        } else {
            front.push(*byte)?;
        }
    }
    Ok(front)
}

// A blank in the place of a byte.
fn blank_for(byte: u8) -> u8
    ensures { result ≡ blank_for byte }
{
    if byte == b'\t' { b'\t' } else { b' ' }
}

/// Writes a blank in the place of each byte.
pub(crate) fn push_blanks(out: &mut Vec<u8>, front: &[u8]) -> Result<(), AllocError>
    ensures { OnOk result (out.new.items ≡ out.old.items ++ map blank_for front.now) }
{
    for byte in front {
        out.push(blank_for(*byte))?;
    }
    Ok(())
}

/// Writes the line of the text, which begins with this front.
pub(crate) fn push_shown(
    out: &mut Vec<u8>,
    text: &[u8],
    at: usize,
    front: &[u8],
) -> Result<(), AllocError>
    requires { front.now ≡ before_in_line text.now at }
    ensures { OnOk result (out.new.items ≡ out.old.items ++ shown_line text.now at) }
{
    out.extend_from_slice(b"  | ")?;
    out.extend_from_slice(front)?;
    push_rest(out, behind(text, at))?;
    out.push(b'\n')?;
    Ok(())
}

// Writes the mark below that line, and the rule.
fn push_marked(out: &mut Vec<u8>, text: &[u8], fault: Fault, front: &[u8]) -> Result<(), AllocError>
    requires { front.now ≡ before_in_line text.now fault.at }
    ensures { OnOk result (out.new.items ≡ out.old.items ++ marked_line text.now fault.number fault.at) }
{
    out.extend_from_slice(b"  | ")?;
    push_blanks(out, front)?;
    out.extend_from_slice(b"^ ")?;
    out.extend_from_slice(rule(fault.number))?;
    out.push(b'\n')?;
    Ok(())
}

/// The lines of a fault: that of `prove`, the line of the text where it stands, and a mark at its place with the rule.
pub fn fault_lines(alloc: Global, text: &[u8], fault: Fault) -> Result<Vec<u8>, AllocError>
    ensures { IfOk result (λ lines. lines.items ≡ spec.fault_lines text.now fault.number fault.at) }
{
    let at = fault.at as usize;
    let front = front_of(alloc, text, at)?;
    let mut out = fault_line(alloc, text, fault)?;
    push_shown(&mut out, text, at, front.as_slice())?;
    push_marked(&mut out, text, fault, front.as_slice())?;
    Ok(out)
}

/// The lines of a fault of which the text is not shown: that of `prove`, and the rule.
pub fn unshown_lines(alloc: Global, text: &[u8], fault: Fault) -> Result<Vec<u8>, AllocError>
    ensures { IfOk result (λ lines. lines.items ≡ spec.unshown_lines text.now fault.number fault.at) }
{
    let mut out = fault_line(alloc, text, fault)?;
    out.extend_from_slice(b"  | ")?;
    out.extend_from_slice(rule(fault.number))?;
    out.push(b'\n')?;
    Ok(out)
}
