//! A call of the program over sources and sinks in memory.

use smv_io::{Never, Sink, Source, Taken};
use smv_top::run;
use std::alloc::{AllocError, Global};
use std::test::Fail;

pub const USAGE: &str = "usage: smv prove|only|print|generated\n";

pub const TOGGLE: &str =
    "module main() { x : boolean; init(x) := 0; next(x) := ~x; p : assert G (x | ~x); }";

pub const TOGGLE_FALSE: &str =
    "module main() { x : boolean; init(x) := 0; next(x) := ~x; p : assert G ~x; }";

// The longest answer has fewer bytes.
const ROOM: usize = 20_000;

// The words, parted by blanks.
fn words(alloc: Global, line: &str) -> Result<Vec<String>, AllocError> {
    let mut words = Vec::new(alloc);
    for word in line.split_ascii_whitespace() {
        words.push(String::from_str(alloc, word)?)?;
    }
    Ok(words)
}

// The exit status of a call.
pub fn status_of<S: Source, K: Sink>(
    alloc: Global,
    line: &str,
    source: &mut S,
    sink: &mut K,
) -> Result<u8, AllocError> {
    let words = words(alloc, line)?;
    Ok(run(alloc, &words, source, sink).number())
}

// The exit status and what was written, over a source and a sink that do not fail.
pub fn answered(alloc: Global, line: &str, text: &[u8]) -> Result<(u8, Vec<u8>), AllocError> {
    let mut source = Never::new(text.to_vec(alloc)?);
    let mut sink = Taken::with_room(alloc, ROOM, Vec::new(alloc))?;
    let status = status_of(alloc, line, &mut source, &mut sink)?;
    Ok((status, sink.taken().to_vec(alloc)?))
}

// The words, the text, the exit status and what is written.
pub type Row = (&'static str, &'static str, u8, &'static str);

// Whether a call has this exit status and writes this.
pub fn is_answered(
    alloc: Global,
    line: &str,
    text: &[u8],
    want: u8,
    answer: &str,
) -> Result<bool, AllocError> {
    let (status, written) = answered(alloc, line, text)?;
    Ok(status == want && written.as_slice() == answer.as_bytes())
}

// Fails with the text of the first row that is answered otherwise.
pub fn all_are_answered(alloc: Global, rows: &[Row]) -> Result<(), Fail> {
    for (line, text, want, answer) in rows {
        if !is_answered(alloc, line, text.as_bytes(), *want, answer)? {
            return Err(Fail::new(*text));
        }
    }
    Ok(())
}

// Fails with the first text that is refused otherwise, or not at all.
pub fn all_are_refused(alloc: Global, rows: &[(&'static str, &'static str)]) -> Result<(), Fail> {
    for (text, answer) in rows {
        if !is_answered(alloc, "prove", text.as_bytes(), 3, answer)? {
            return Err(Fail::new(*text));
        }
    }
    Ok(())
}

// Fails where a text of so many blanks is answered otherwise.
pub fn blanks_are_answered(
    alloc: Global,
    line: &str,
    count: usize,
    want: u8,
    answer: &'static str,
) -> Result<(), Fail> {
    let mut blanks = Vec::new(alloc);
    blanks.resize(count, b' ')?;
    if is_answered(alloc, line, blanks.as_slice(), want, answer)? {
        Ok(())
    } else {
        Err(Fail::new(answer))
    }
}

// Fails where it is not so. The test's name says what.
pub fn is_so(it: Result<bool, AllocError>) -> Result<(), Fail> {
    if it? {
        Ok(())
    } else {
        Err(Fail::new("it is not so"))
    }
}
