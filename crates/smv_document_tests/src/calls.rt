//! A call of the program over a source and a sink in memory.

use smv_io::{Never, Taken};
use smv_top::run;
use std::alloc::{AllocError, Global};
use std::test::Fail;

// The longest answer has fewer bytes.
const ROOM: usize = 20_000;

// The words, parted by blanks.
fn words(alloc: Global, line: &str) -> Result<Vec<String>, AllocError> {
    let mut words = Vec::new(alloc);
    for word in line.split_ascii_whitespace() {
        words.push(String::from_str(alloc, word)?)?;
    }
    Ok(words)
}

// The words, the bytes that are read, the exit status and what is written.
pub type Row = (&'static str, &'static str, u8, &'static str);

/// Whether a call has this exit status and writes this.
pub fn is_answered(
    alloc: Global,
    line: &str,
    bytes: &[u8],
    want: u8,
    answer: &str,
) -> Result<bool, AllocError> {
    let words = words(alloc, line)?;
    let mut source = Never::new(bytes.to_vec(alloc)?);
    let mut sink = Taken::with_room(alloc, ROOM, Vec::new(alloc))?;
    let status = run(alloc, &words, &mut source, &mut sink).number();
    Ok(status == want && sink.taken() == answer.as_bytes())
}

// Fails with the bytes of the first row that is answered otherwise.
pub fn all_are_answered(alloc: Global, rows: &[Row]) -> Result<(), Fail> {
    for (line, bytes, want, answer) in rows {
        if !is_answered(alloc, line, bytes.as_bytes(), *want, answer)? {
            return Err(Fail::new(*bytes));
        }
    }
    Ok(())
}

// The sets behind a design, the exit status and what is written.
pub type Judged = (&'static str, u8, &'static str);

// Fails with the first sets behind a design that are judged otherwise.
pub fn all_are_judged(alloc: Global, design: &str, rows: &[Judged]) -> Result<(), Fail> {
    for (sets, want, answer) in rows {
        let mut document = design.as_bytes().to_vec(alloc)?;
        document.extend_from_slice(sets.as_bytes())?;
        if !is_answered(alloc, "check", &document, *want, answer)? {
            return Err(Fail::new(*sets));
        }
    }
    Ok(())
}
