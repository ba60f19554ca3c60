//! Small texts are printed. The expected bytes were written by hand, by the rules of the spelling.

use smv_core::Refusal;
use smv_parse::parse;
use smv_print::print;
use std::alloc::Global;
use std::test::Fail;

fn printed(alloc: Global, text: &str) -> Result<Vec<u8>, Refusal> {
    if text.len() > 1_048_576 {
        return Err(Refusal::OutOfMemory);
    }
    let tree = parse(alloc, text.as_bytes())?;
    Ok(print(alloc, &tree)?)
}

const DECLARATIONS: &[(&'static str, &'static str)] = &[
    ("", ""),
    ("typedef t boolean;", "typedef t boolean ;\n"),
    ("scalarset s 0..0511;", "scalarset s 0 .. 511 ;\n"),
];

// Fails with the first text that is printed otherwise.
fn all_are_printed(alloc: Global, rows: &[(&'static str, &'static str)]) -> Result<(), Fail> {
    for (text, want) in rows {
        if printed(alloc, text)?.as_slice() != want.as_bytes() {
            return Err(Fail::new(*text));
        }
    }
    Ok(())
}

#[test]
fn each_declaration_is_one_line(rt: HostRuntime) -> Result<(), Fail> {
    all_are_printed(rt.alloc(), DECLARATIONS)
}
