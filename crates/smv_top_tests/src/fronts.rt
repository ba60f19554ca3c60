//! The fronts of the machine's text, cut behind each byte.

use crate::calls::answered;
use crate::rows::TOMASULO;
use smv_core::Fault;
use smv_report::fault_line;
use std::alloc::{AllocError, Global};
use std::test::Fail;

// What stands above the machine in its file.
const NOTE: &str =
    "/* Tomasulo's algorithm with one source operand and one result bus, for any number of registers, stations and words and any function\n   of the unit, against the machine that does each instruction at once. Registers wait for the station that will write them;\n   stations wait for their operand. Four maps, proved of each other: the register that is read out, the operand of a\n   station, the result on the bus, and the value of a register that waits for none.\n   (After K. L. McMillan, \"Verification of an implementation of Tomasulo's algorithm by compositional model checking\".) */\n";

// The first length of some fronts, the length behind their last, and the number of their fault. The note is open up to its
// end; declarations without a module are a text that lacks `main`; every other front ends too early. The last one that is
// refused lacks the last bracket.
const FRONTS: &[(usize, usize, u8)] = &[
    (1, 2, 1),
    (2, 581, 4),
    (581, 583, 9),
    (583, 607, 5),
    (607, 609, 9),
    (609, 632, 5),
    (632, 634, 9),
    (634, 657, 5),
    (657, 659, 9),
    (659, 3231, 5),
];

// Whether a byte may stand in a word or a number.
fn is_of_word(byte: u8) -> bool {
    byte == b'_' || byte.is_ascii_alphanumeric()
}

// Where the last word, number or sign of a front begins.
fn last_of(front: &[u8]) -> usize {
    match front.iter().rposition(|byte| !is_of_word(*byte)) {
        None => 0,
        Some(at) if at + 1 == front.len() => at,
        Some(at) => at + 1,
    }
}

// Whether a line tells this fault at this place.
fn is_told(
    alloc: Global,
    line: &[u8],
    front: &[u8],
    number: u8,
    at: usize,
) -> Result<bool, AllocError> {
    match u32::try_from(at) {
        Ok(at) => Ok(fault_line(alloc, front, Fault { number, at })?.as_slice() == line),
        Err(_) => Ok(false),
    }
}

// Whether a front ends in one stroke, which is no sign: only two are.
fn ends_in_a_stroke(front: &[u8]) -> bool {
    front.ends_with(b"/") && !front.ends_with(b"//")
}

// The number of the fault of a front, and the two places at one of which it stands. One that ends too early is refused at
// its end, or at its last word or sign where that was cut; every other one at its beginning.
fn fault_of(front: &[u8], number: u8) -> (u8, usize, usize) {
    let last = last_of(front);
    if number != 5 {
        (number, 0, 0)
    } else if ends_in_a_stroke(front) {
        (1, last, last)
    } else {
        (5, front.len(), last)
    }
}

// Whether a front is refused so.
fn is_refused(alloc: Global, front: &[u8], number: u8) -> Result<bool, AllocError> {
    let (status, line) = answered(alloc, "prove", front)?;
    let (number, first, second) = fault_of(front, number);
    let is_first = is_told(alloc, line.as_slice(), front, number, first)?;
    let is_second = is_told(alloc, line.as_slice(), front, number, second)?;
    Ok(status == 3 && (is_first || is_second))
}

// Fails with the length of the first front that is answered otherwise.
fn all_are_refused(alloc: Global, text: &[u8], rows: &[(usize, usize, u8)]) -> Result<(), Fail> {
    for (first, behind, number) in rows {
        for end in *first..*behind {
            if !is_refused(alloc, &text[..end.min(text.len())], *number)? {
                return Err(Fail::new(end));
            }
        }
    }
    Ok(())
}

// The machine's text with the note above it.
fn whole_text(alloc: Global) -> Result<String, AllocError> {
    let mut text = String::from_str(alloc, NOTE)?;
    text.push_str(TOMASULO)?;
    Ok(text)
}

#[test]
fn each_front_of_the_machine_is_refused(rt: HostRuntime) -> Result<(), Fail> {
    let text = whole_text(rt.alloc())?;
    all_are_refused(rt.alloc(), text.as_bytes(), FRONTS)
}
