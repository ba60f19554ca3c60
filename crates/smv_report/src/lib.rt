//! The line that the program writes of a fault: its number and its place.
//!
//! For `smv_answers`. It meets `specs/Lines`, byte by byte.
#![tactic(auto)]

ghost use Rattle.std.specs.Prelude.{◌≡◌, ◌++◌, take, decimal, IfOk, OnOk};
ghost use Rattle.smv_report.specs.Lines.{line_at, column_at, fault_text};

use itoa::Buffer;
use smv_core::Fault;
use std::alloc::{AllocError, Global};

// Writes a number in decimal.
fn push_number(out: &mut Vec<u8>, number: usize) -> Result<(), AllocError>
    ensures { OnOk result (out.new.items ≡ out.old.items ++ decimal number) }
{
    let mut buffer = Buffer::new();
    out.extend_from_slice(buffer.format(number).as_bytes())
}

// What stands before an offset.
#[tactic(auto, using(std::proofs::lemmas::List::take_min))]
fn before(text: &[u8], at: usize) -> &[u8]
    ensures { result.now ≡ take at text.now }
{
    &text[..at.min(text.len())]
}

/// The line of an offset, from 1.
pub fn line_of(text: &[u8], at: usize) -> usize
    ensures { result ≡ line_at text.now at }
{
    let front = before(text, at);
    front.iter().filter(|b| **b == b'\n').count() + 1
}

/// The column of an offset, from 1, in bytes.
pub fn column_of(text: &[u8], at: usize) -> usize
    ensures { result ≡ column_at text.now at }
{
    let mut column = 1;
    for byte in before(text, at) {
        column = if *byte == b'\n' { 1 } else { column + 1 };
    }
    column
}

/// The line `fault N at line L column C` of a fault of the text. Lines and columns count from 1, and a column counts bytes. A place behind the
/// text is read as its end.
pub fn fault_line(alloc: Global, text: &[u8], fault: Fault) -> Result<Vec<u8>, AllocError>
    ensures { IfOk result (λ line. line.items ≡ fault_text text.now fault.number fault.at) }
{
    let at = fault.at as usize;
    let mut line = Vec::from_slice(alloc, b"fault ")?;
    push_number(&mut line, usize::from(fault.number))?;
    line.extend_from_slice(b" at line ")?;
    push_number(&mut line, line_of(text, at))?;
    line.extend_from_slice(b" column ")?;
    push_number(&mut line, column_of(text, at))?;
    line.push(b'\n')?;
    Ok(line)
}
