//! The program `smv_look`: a text on standard input, and what the words ask of it on standard output.
//!
//! It hands the words and the two streams to `smv_look_run::run`; what is proved of a run is said there.
#![tactic(auto)]

use smv_io::{FromRead, ToWrite};
use smv_look_run::{Status, run};
use std::process::ExitCode;
use std::{env, io};

// The exit status where the words of the command could not be had, for another cause than want of memory.
const NO_WORDS: u8 = 12;

fn main(rt: HostRuntime) -> ExitCode {
    match words(&rt) {
        Ok(words) => {
            let mut source = FromRead::new(rt.reader());
            let mut sink = ToWrite::new(io::writer(&rt));
            let status = run(rt.alloc(), &words, &mut source, &mut sink);
            ExitCode::from(status.number())
        }
        Err(e) if e.kind() == io::ErrorKind::OutOfMemory => ExitCode::from(
            Status::OutOfMemory.number(),
        ),
        Err(_) => ExitCode::from(NO_WORDS),
    }
}

// The words of the command, without the program's name.
fn words(rt: &HostRuntime) -> io::Result<Vec<String>> {
    let mut words = Vec::new(rt.alloc());
    for word in env::args(rt)?.skip(1) {
        words.push(word)?;
    }
    Ok(words)
}
