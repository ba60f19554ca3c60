// The lines of the other place of a fault.
ghost use Rattle.std.specs.Prelude.{◌≡◌, ◌++◌, decimal, map, IfOk, OnOk};
ghost use Rattle.smv_look_explain.specs.Faults.{before_in_line, blank_for};
ghost use Rattle.smv_look_explain.specs.Others as spec;

use crate::faults::{fault_lines, front_of, push_blanks, push_shown};
use itoa::Buffer;
use smv_core::Fault;
use smv_report::{column_of, line_of};
use std::alloc::{AllocError, Global};

// What stands at the other place of a fault of this number.
fn other_rule(number: u8) -> &'static [u8]
    ensures { result.now ≡ spec.other_rule number }
{
    if number == 8 {
        b"declared first here"
    } else if number == 9 {
        b"no module has an instance of this one"
    } else if number == 10 {
        b"in which the instance stands"
    } else if number == 15 {
        b"the other assignment is here"
    } else if number == 16 {
        b"the other assignment is here"
    } else if number == 18 {
        b"which reads this"
    } else if number == 27 {
        b"chosen first here"
    } else {
        b""
    }
}

// Writes a number in decimal.
fn push_number(out: &mut Vec<u8>, number: usize) -> Result<(), AllocError>
    ensures { OnOk result (out.new.items ≡ out.old.items ++ decimal number) }
{
    let mut buffer = Buffer::new();
    out.extend_from_slice(buffer.format(number).as_bytes())
}

// Writes what stands at the other place, behind the mark, in the line that begins with this front.
fn push_said(
    out: &mut Vec<u8>,
    text: &[u8],
    number: u8,
    at: usize,
    front: &[u8],
) -> Result<(), AllocError>
    requires { front.now ≡ before_in_line text.now at }
    ensures { OnOk result (out.new.items ≡ out.old.items ++ spec.other_said text.now number at) }
{
    out.extend_from_slice(b"  | ")?;
    push_blanks(out, front)?;
    out.extend_from_slice(b"^ ")?;
    out.extend_from_slice(other_rule(number))?;
    Ok(())
}

// Writes where that is.
fn push_stands(out: &mut Vec<u8>, text: &[u8], at: usize) -> Result<(), AllocError>
    ensures { OnOk result (out.new.items ≡ out.old.items ++ spec.other_stands text.now at) }
{
    out.extend_from_slice(b", at line ")?;
    push_number(out, line_of(text, at))?;
    out.extend_from_slice(b" column ")?;
    push_number(out, column_of(text, at))
}

// Writes the line with the mark at the other place.
fn push_mark(
    out: &mut Vec<u8>,
    text: &[u8],
    number: u8,
    at: usize,
    front: &[u8],
) -> Result<(), AllocError>
    requires { front.now ≡ before_in_line text.now at }
    ensures { OnOk result (out.new.items ≡ out.old.items ++ spec.other_mark text.now number at) }
{
    push_said(out, text, number, at, front)?;
    push_stands(out, text, at)?;
    out.push(b'\n')?;
    Ok(())
}

// Writes the lines of the other place of a fault of this number.
fn push_other(
    alloc: Global,
    out: &mut Vec<u8>,
    text: &[u8],
    number: u8,
    at: u32,
) -> Result<(), AllocError>
    ensures { OnOk result (out.new.items ≡ out.old.items ++ spec.other_lines text.now number at) }
{
    let at = at as usize;
    let front = front_of(alloc, text, at)?;
    push_shown(out, text, at, front.as_slice())?;
    push_mark(out, text, number, at, front.as_slice())
}

/// The lines of a fault, and below them those of its other place, if it has one: the line of the text where that stands, and a mark with what stands there.
pub fn lines_with(
    alloc: Global,
    text: &[u8],
    fault: Fault,
    other: Option<u32>,
) -> Result<Vec<u8>, AllocError>
    ensures { IfOk result (λ lines. lines.items ≡ spec.lines_with text.now fault.number fault.at other) }
{
    let mut out = fault_lines(alloc, text, fault)?;
    match other {
        None => Ok(out),
        Some(at) => {
            push_other(alloc, &mut out, text, fault.number, at)?;
            Ok(out)
        }
    }
}

/// The lines of a fault, and below them those of each of its other places, one behind another.
#[tactic(auto, using(std::proofs::lemmas::List::append_assoc))]
pub fn lines_along(
    alloc: Global,
    text: &[u8],
    fault: Fault,
    places: &[u32],
) -> Result<Vec<u8>, AllocError>
    ensures { IfOk result (λ lines. lines.items ≡ spec.lines_along text.now fault.number fault.at places.now) }
{
    let mut out = fault_lines(alloc, text, fault)?;
    for at in places {
        push_other(alloc, &mut out, text, fault.number, *at)?;
    }
    Ok(out)
}
