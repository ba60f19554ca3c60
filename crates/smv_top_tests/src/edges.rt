//! Texts of a few words at a limit and past it, and the fronts of a text.

use crate::calls::{TOGGLE, answered};
use std::alloc::{AllocError, Global};
use std::test::Fail;

const PROVED: &str = "p: true\nproved 1 of 1\n";

const NO_UNITS: &str = "proved 0 of 0\n";

// What stands before a part that is repeated, the part, how often it stands there, and what stands behind.
type Repeated = (&'static str, &'static str, u32, &'static str);

// A text's parts, its exit status, and what its answer begins with.
type Row = (Repeated, Repeated, u8, &'static str);

const NOTHING: Repeated = ("", "", 0, "");

const WORDS: &[Row] = &[
    (
        (
            "module main() { x : 0..255; p : assert G (x < 511); }",
            "",
            0,
            "",
        ),
        NOTHING,
        0,
        PROVED,
    ),
    (
        (
            "module main() { x : 0..255; p : assert G (x < 512); }",
            "",
            0,
            "",
        ),
        NOTHING,
        3,
        "fault 2 at line 1 column 47\n",
    ),
    (
        ("module main() { ", "n", 64, " : boolean; }"),
        NOTHING,
        0,
        NO_UNITS,
    ),
    (
        ("module main() { ", "n", 65, " : boolean; }"),
        NOTHING,
        3,
        "fault 3 at line 1 column 17\n",
    ),
    (
        ("module main() { p : assert G ", "(", 63, "1"),
        ("", ")", 63, "; }"),
        0,
        PROVED,
    ),
    (
        ("module main() { p : assert G ", "(", 64, "1"),
        ("", ")", 64, "; }"),
        3,
        "fault 6 at line 1 column 93\n",
    ),
];

const TYPES: &[Row] = &[
    (
        ("module main() { x : ", "array 0..1 of ", 4, "boolean; }"),
        NOTHING,
        0,
        NO_UNITS,
    ),
    (
        ("module main() { x : ", "array 0..1 of ", 5, "boolean; }"),
        NOTHING,
        3,
        "fault 25 at line 1 column 8\n",
    ),
    (
        ("module main() { x : array 0..255 of boolean; }", "", 0, ""),
        NOTHING,
        0,
        NO_UNITS,
    ),
    (
        (
            "module main() { x : array 0..255 of array 0..1 of boolean; }",
            "",
            0,
            "",
        ),
        NOTHING,
        3,
        "fault 25 at line 1 column 8\n",
    ),
];

const BITS: &[Row] = &[
    (
        (
            "module main() { n : 0..126; y : 0..1; x : array 0..126 of 0..255; p : assert G (x[n] = 0 | y = 0); }",
            "",
            0,
            "",
        ),
        NOTHING,
        1,
        "p: false at 0\n time 0: ",
    ),
    (
        (
            "module main() { n : 0..126; y : 0..3; x : array 0..126 of 0..255; p : assert G (x[n] = 0 | y = 0); }",
            "",
            0,
            "",
        ),
        NOTHING,
        3,
        "fault 30 at line 1 column 67\n",
    ),
];

fn part_of(alloc: Global, form: &Repeated) -> Result<String, AllocError> {
    let mut text = String::from_str(alloc, form.0)?;
    for _ in 0..form.2 {
        text.push_str(form.1)?;
    }
    text.push_str(form.3)?;
    Ok(text)
}

// Fails with the first text that is answered otherwise.
fn all_begin_so(alloc: Global, rows: &[Row]) -> Result<(), Fail> {
    for (front, back, want, answer) in rows {
        let mut text = part_of(alloc, front)?;
        let behind = part_of(alloc, back)?;
        text.push_str(behind.as_str())?;
        let (status, written) = answered(alloc, "prove", text.as_bytes())?;
        if status != *want || !written.as_slice().starts_with(answer.as_bytes()) {
            return Err(Fail::new(text));
        }
    }
    Ok(())
}

// A number of 511, a name of 64 letters, and signs of opening 63 deep.
#[test]
fn numbers_names_and_nests(rt: HostRuntime) -> Result<(), Fail> {
    all_begin_so(rt.alloc(), WORDS)
}

// Four index types and 256 elements.
#[test]
fn indexes_and_elements(rt: HostRuntime) -> Result<(), Fail> {
    all_begin_so(rt.alloc(), TYPES)
}

// 1,024 state bits.
#[test]
fn state_bits(rt: HostRuntime) -> Result<(), Fail> {
    all_begin_so(rt.alloc(), BITS)
}

// Fails with the length of the first front of a text that is not refused as one that ends too early.
fn all_fronts_end_early(alloc: Global, text: &[u8]) -> Result<(), Fail> {
    for end in 1..text.len() {
        let (status, written) = answered(alloc, "prove", &text[..end])?;
        if status != 3 || !written.as_slice().starts_with(b"fault 5 ") {
            return Err(Fail::new(end));
        }
    }
    Ok(())
}

#[test]
fn each_front_of_a_text_is_refused(rt: HostRuntime) -> Result<(), Fail> {
    all_fronts_end_early(rt.alloc(), TOGGLE.as_bytes())
}
