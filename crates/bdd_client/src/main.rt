//! The program `bdd_client`: a list of operations on functions of boolean variables on standard input, and on standard output the numbers of nodes that the list asks for, a line for each.
//!
//! For measurements beside other packages of decision diagrams: `tools/diagrams.py` makes the lists, `tools/buddy.c` runs the same ones on BuDDy. A list is a row of numbers of 32 bits, the low byte first.
//! The first is how many variables there are; behind it each operation has three, its code and two operands, of which the second may be unused. `lines.rt` has the codes. An operation that makes a function gives
//! it the next number from 0 on, by which later operations name it. The exit status is 0, or 3 where the bytes are no list or an operation names what is not there, 5 and 6 where a stream failed, 7 where memory ran out;
//! then nothing more is written.
//!
//! Proved are the parts: what each code means (`line_of`), that an operation makes exactly the function that it says of those made before (`made_by`), that a count writes exactly the number of beads (`write_count`), and that
//! an operation which names only what is there is not refused. That `run_line` and `counts` do this once for each operation, in their order, is not stated: of a whole list it is proved only that each function made is live and that no fault occurs.
#![tactic(auto)]

mod lines;
mod machine;

use crate::machine::{Failure, counts};
use smv_io::{FromRead, ReadError, ToWrite, read_all, write_all};
use std::io;
use std::process::ExitCode;

const NO_LIST: u8 = 3;

const READ_FAULT: u8 = 5;

const WRITE_FAULT: u8 = 6;

const OUT_OF_MEMORY: u8 = 7;

fn main(rt: HostRuntime) -> ExitCode {
    let mut source = FromRead::new(rt.reader());
    let bytes = match read_all(rt.alloc(), &mut source, usize::MAX) {
        Ok(bytes) => bytes,
        Err(ReadError::ReadFault) => return ExitCode::from(READ_FAULT),
        Err(_) => return ExitCode::from(OUT_OF_MEMORY),
    };
    let answer = match counts(rt.alloc(), &bytes) {
        Ok(answer) => answer,
        Err(Failure::NoList) => return ExitCode::from(NO_LIST),
        Err(Failure::OutOfMemory) => return ExitCode::from(OUT_OF_MEMORY),
    };
    let mut sink = ToWrite::new(io::writer(&rt));
    match write_all(&mut sink, &answer) {
        Ok(()) => ExitCode::from(0),
        Err(_) => ExitCode::from(WRITE_FAULT),
    }
}
