//! Faults, as they are written.

use smv_core::Fault;
use smv_report::fault_line;
use std::alloc::Global;
use std::test::Fail;

// A place in `a\n\nbc`, and its line.
const LINES: &[(u32, &'static str)] = &[
    (0, "fault 5 at line 1 column 1\n"),
    (1, "fault 5 at line 1 column 2\n"),
    (2, "fault 5 at line 2 column 1\n"),
    (3, "fault 5 at line 3 column 1\n"),
    (5, "fault 5 at line 3 column 3\n"),
];

// Fails with the first place whose line is another one.
fn all_are_told(alloc: Global, rows: &[(u32, &'static str)]) -> Result<(), Fail> {
    for (at, want) in rows {
        let fault = Fault { number: 5, at: *at };
        if fault_line(alloc, b"a\n\nbc", fault)?.as_slice() != want.as_bytes() {
            return Err(Fail::new(*at));
        }
    }
    Ok(())
}

#[test]
fn a_fault_stands_at_its_line_and_column(rt: HostRuntime) -> Result<(), Fail> {
    all_are_told(rt.alloc(), LINES)
}
