//! The program `smv_wave`: a report of `prove` on standard input, and on standard output a value change dump of its false units, or by `table` their paths as tables; a note on standard error where there is none.
//!
//! It hands the words and the streams to `smv_wave_run::run`; what is proved of a run is said there.
#![tactic(auto)]

use smv_io::{FromRead, ToWrite};
use smv_wave_run::{Status, run};
use std::process::ExitCode;
use std::{env, io};

// The exit status where the words of the command could not be had, for another cause than want of memory.
const NO_WORDS: u8 = 12;

fn main(rt: HostRuntime) -> ExitCode {
    match words(&rt) {
        Ok(words) => {
            let mut source = FromRead::new(rt.reader());
            let mut dump = ToWrite::new(io::writer(&rt));
            let errors = rt.stderr();
            let mut notes = ToWrite::new(io::writer(&errors));
            let status = run(rt.alloc(), &words, &mut source, &mut dump, &mut notes);
            ExitCode::from(status.number())
        }
        Err(e) if e.kind() == io::ErrorKind::OutOfMemory => ExitCode::from(
            Status::OutOfMemory.number(),
        ),
        Err(_) => ExitCode::from(NO_WORDS),
    }
}

// The words of the command, without the program's name.
fn words(rt: &HostRuntime) -> io::Result<Vec<String>> {
    let mut words = Vec::new(rt.alloc());
    for word in env::args(rt)?.skip(1) {
        words.push(word)?;
    }
    Ok(words)
}
