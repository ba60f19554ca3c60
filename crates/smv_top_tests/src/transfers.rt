//! What happens where a source or a sink fails.

use crate::calls::{TOGGLE, TOGGLE_FALSE, USAGE, is_so, status_of};
use smv_io::{Bytes, Never, NeverSink, Taken};
use std::alloc::{AllocError, Global};
use std::test::Fail;

// No call fails.
const NONE: &[u64] = &[];

const PROVED: &str = "p: true\nproved 1 of 1\n";

const FALSIFIED: &str = "p: false at 1\n time 0: x = 0\n time 1: x = 1\nproved 0 of 1\n";

// The exit status and what was taken, where the source's calls of these numbers fail and the sink has so much room.
fn transferred(
    alloc: Global,
    line: &str,
    text: &str,
    failing: &[u64],
    room: usize,
) -> Result<(u8, Vec<u8>), AllocError> {
    let mut source = Bytes::new(text.as_bytes().to_vec(alloc)?, failing.to_vec(alloc)?);
    let mut sink = Taken::with_room(alloc, room, Vec::new(alloc))?;
    let status = status_of(alloc, line, &mut source, &mut sink)?;
    Ok((status, sink.taken().to_vec(alloc)?))
}

// Whether this call has this exit status and this is taken.
fn is_taken(
    alloc: Global,
    call: (&str, &str),
    failing: &[u64],
    room: usize,
    want: u8,
    answer: &[u8],
) -> Result<bool, AllocError> {
    let (status, taken) = transferred(alloc, call.0, call.1, failing, room)?;
    Ok(status == want && taken.as_slice() == answer)
}

// The words and the text of a call, its exit status where there is room, and its answer.
type Call = (&'static str, &'static str, u8, &'static str);

const CALLS: &[Call] = &[
    ("prove", TOGGLE, 0, PROVED),
    ("prove", TOGGLE_FALSE, 1, FALSIFIED),
    ("", TOGGLE, 4, USAGE),
];

// The first room smaller than the answer in which something else was taken than a front of it, or the answer's length where
// all of it was not taken there.
fn first_other(alloc: Global, call: Call) -> Result<Option<usize>, AllocError> {
    let (line, text, want, answer) = call;
    let bytes = answer.as_bytes();
    for room in 0..bytes.len() {
        if !is_taken(alloc, (line, text), NONE, room, 6, &bytes[..room])? {
            return Ok(Some(room));
        }
    }
    if !is_taken(alloc, (line, text), NONE, bytes.len(), want, bytes)? {
        return Ok(Some(bytes.len()));
    }
    Ok(None)
}

// Fails with the first room of a call in which something else was taken.
fn all_fronts_are_taken(alloc: Global, calls: &[Call]) -> Result<(), Fail> {
    for call in calls {
        if let Some(room) = first_other(alloc, *call)? {
            return Err(Fail::new(room));
        }
    }
    Ok(())
}

// All is taken where there is room, and a front where the room ends.
#[test]
fn a_front_is_taken_where_the_room_ends(rt: HostRuntime) -> Result<(), Fail> {
    all_fronts_are_taken(rt.alloc(), CALLS)
}

// The words, the call of the source that fails, the exit status and what is taken.
type FailingCall = (&'static str, u64, u8, &'static str);

const FAILING_CALLS: &[FailingCall] = &[
    ("prove", 0, 5, ""),
    ("prove", 1, 5, ""),
    ("only p", 0, 5, ""),
    ("print", 1, 5, ""),
    // Words that are no command, and a text that is generated, ask the source for nothing.
    ("proves", 0, 4, USAGE),
    ("generated 2", 0, 0, "generated 2\nproved 3 of 3\n"),
];

// Fails with the words of the first call that ends otherwise or of which something else is taken.
fn all_failing_calls_are_told(alloc: Global, rows: &[FailingCall]) -> Result<(), Fail> {
    for (line, failing, want, answer) in rows {
        if !is_taken(
            alloc,
            (*line, TOGGLE),
            &[*failing],
            200,
            *want,
            answer.as_bytes(),
        )? {
            return Err(Fail::new(*line));
        }
    }
    Ok(())
}

#[test]
fn a_source_that_fails_is_told(rt: HostRuntime) -> Result<(), Fail> {
    all_failing_calls_are_told(rt.alloc(), FAILING_CALLS)
}

// Whether status 6 is told and no byte is taken where the first write of a command fails.
fn is_unwritten(alloc: Global, line: &str) -> Result<bool, AllocError> {
    let mut source = Never::new(TOGGLE.as_bytes().to_vec(alloc)?);
    let mut sink = Taken::with_room(alloc, 8000, [0].to_vec(alloc)?)?;
    let status = status_of(alloc, line, &mut source, &mut sink)?;
    Ok(status == 6 && sink.taken().is_empty())
}

// Fails with the first command that is told otherwise.
fn all_are_unwritten(alloc: Global, lines: &[&'static str]) -> Result<(), Fail> {
    for line in lines {
        if !is_unwritten(alloc, line)? {
            return Err(Fail::new(*line));
        }
    }
    Ok(())
}

const COMMANDS: &[&'static str] = &["prove", "only p", "print", "generated 2", "proves"];

#[test]
fn a_sink_that_fails_is_told(rt: HostRuntime) -> Result<(), Fail> {
    all_are_unwritten(rt.alloc(), COMMANDS)
}

fn is_proved(alloc: Global) -> Result<bool, AllocError> {
    let mut source = Never::new(TOGGLE.as_bytes().to_vec(alloc)?);
    let mut sink = NeverSink::new();
    Ok(status_of(alloc, "prove", &mut source, &mut sink)? == 0)
}

#[test]
fn what_never_fails_is_proved(rt: HostRuntime) -> Result<(), Fail> {
    is_so(is_proved(rt.alloc()))
}
