//! Sources are read and sinks are written, with each call failing in turn.

use crate::told::is_so;
use smv_io::{
    Bytes, FromRead, Never, NeverSink, ReadError, Source, Taken, ToWrite, WriteError, read_all,
    write_all,
};
use std::alloc::{AllocError, Global};
use std::fmt::Display;
use std::io;
use std::io::{ErrorKind, Read, Write};
use std::test::Fail;

// Whether these bytes are read up to a limit; without bytes, whether there are more.
fn is_read<S: Source>(alloc: Global, source: &mut S, limit: usize, wanted: Option<&str>) -> bool {
    match read_all(alloc, source, limit) {
        Ok(bytes) => match wanted {
            Some(wanted) => bytes.as_slice() == wanted.as_bytes(),
            None => false,
        },
        Err(ReadError::TooLong) => wanted.is_none(),
        Err(_) => false,
    }
}

// The same of a source whose calls are counted and of one that never fails.
fn are_read(
    alloc: Global,
    bytes: &[u8],
    limit: usize,
    wanted: Option<&str>,
) -> Result<bool, AllocError> {
    let mut counted = Bytes::new(bytes.to_vec(alloc)?, Vec::new(alloc));
    let first = is_read(alloc, &mut counted, limit, wanted);
    let mut never = Never::new(bytes.to_vec(alloc)?);
    Ok(first && is_read(alloc, &mut never, limit, wanted))
}

// What a source has, a limit, and what is read, if not too much is there.
type Reading = (&'static str, usize, Option<&'static str>);

const READINGS: &[Reading] = &[
    ("", 0, Some("")),
    ("a", 0, None),
    ("abc", 2, None),
    ("abc", 3, Some("abc")),
    ("abc", 4, Some("abc")),
];

// Fails with the first text that is read otherwise.
fn all_are_read(alloc: Global, rows: &[Reading]) -> Result<(), Fail> {
    for (text, limit, wanted) in rows {
        if !are_read(alloc, text.as_bytes(), *limit, *wanted)? {
            return Err(Fail::new(*text));
        }
    }
    Ok(())
}

#[test]
fn a_source_is_read_up_to_the_limit(rt: HostRuntime) -> Result<(), Fail> {
    all_are_read(rt.alloc(), READINGS)
}

// How many of 6,000 bytes are read by a first call, unless it fails, and how many are left behind it then.
fn read_in_two(alloc: Global, failing: u64) -> Result<(Option<usize>, usize), ReadError> {
    let bytes = vec![in alloc; 7u8; 6000]?;
    let mut source = Bytes::new(bytes, [failing].to_vec(alloc)?);
    match read_all(alloc, &mut source, 6000) {
        Ok(read) => Ok((Some(read.len()), 0)),
        Err(ReadError::ReadFault) => Ok((None, read_all(alloc, &mut source, 6000)?.len())),
        Err(error) => Err(error),
    }
}

// The call that fails, how many bytes are read first, unless it fails, and how many are left then.
const FAILING_READS: &[(u64, Option<usize>, usize)] = &[
    (0, None, 6000),
    (1, None, 1904),
    (2, None, 0),
    (3, Some(6000), 0),
];

// Fails with the number of the first failing call behind which something else is read.
fn all_are_read_in_two(alloc: Global, rows: &[(u64, Option<usize>, usize)]) -> Result<(), Fail> {
    for (failing, read, left) in rows {
        if read_in_two(alloc, *failing)? != (*read, *left) {
            return Err(Fail::new(*failing));
        }
    }
    Ok(())
}

#[test]
fn a_failing_call_ends_reading_and_loses_no_byte(rt: HostRuntime) -> Result<(), Fail> {
    all_are_read_in_two(rt.alloc(), FAILING_READS)
}

#[test]
fn a_short_read_is_not_the_end(rt: HostRuntime) -> Result<(), Fail> {
    let parts = b"ab".as_slice().chain(b"cd".as_slice());
    let mut source = FromRead::new(parts);
    is_so(is_read(rt.alloc(), &mut source, 4, Some("abcd")))
}

// Whether all of these bytes fit into a sink with so much room, and this front of them was taken.
fn is_front(alloc: Global, room: usize, fits: bool, front: &str) -> Result<bool, AllocError> {
    let mut sink = Taken::with_room(alloc, room, Vec::new(alloc))?;
    let written = write_all(&mut sink, b"abc").is_ok();
    Ok(written == fits && sink.taken() == front.as_bytes())
}

// The room of a sink, whether three bytes fit, and what is taken of them.
const ROOMS: &[(usize, bool, &'static str)] = &[
    (0, false, ""),
    (2, false, "ab"),
    (3, true, "abc"),
    (4, true, "abc"),
];

// Fails with the first room in which something else is taken.
fn all_are_fronts(alloc: Global, rows: &[(usize, bool, &'static str)]) -> Result<(), Fail> {
    for (room, fits, front) in rows {
        if !is_front(alloc, *room, *fits, front)? {
            return Err(Fail::new(*room));
        }
    }
    Ok(())
}

#[test]
fn a_full_sink_took_a_front(rt: HostRuntime) -> Result<(), Fail> {
    all_are_fronts(rt.alloc(), ROOMS)
}

// Whether of three writes the one of this number fails, and this was taken of the others.
fn is_taken(alloc: Global, failing: u64, taken: &str) -> Result<bool, AllocError> {
    let mut sink = Taken::with_room(alloc, 6, [failing].to_vec(alloc)?)?;
    let first = write_all(&mut sink, b"ab").is_ok();
    let second = write_all(&mut sink, b"cd").is_ok();
    let third = write_all(&mut sink, b"ef").is_ok();
    let wanted = (failing != 0, failing != 1, failing != 2);
    Ok((first, second, third) == wanted && sink.taken() == taken.as_bytes())
}

// The write that fails, and what is taken of three.
const FAILING_WRITES: &[(u64, &'static str)] = &[
    (0, "cdef"),
    (1, "abef"),
    (2, "abcd"),
    (3, "abcdef"),
];

// Fails with the number of the first failing write beside which something else is taken.
fn all_are_taken(alloc: Global, rows: &[(u64, &'static str)]) -> Result<(), Fail> {
    for (failing, taken) in rows {
        if !is_taken(alloc, *failing, taken)? {
            return Err(Fail::new(*failing));
        }
    }
    Ok(())
}

#[test]
fn a_failing_write_takes_nothing(rt: HostRuntime) -> Result<(), Fail> {
    all_are_taken(rt.alloc(), FAILING_WRITES)
}

#[test]
fn nothing_is_written_to_a_sink_without_room(rt: HostRuntime) -> Result<(), Fail> {
    let mut full = Taken::with_room(rt.alloc(), 0, [0].to_vec(rt.alloc())?)?;
    is_so(write_all(&mut full, b"").is_ok())
}

#[test]
fn all_is_written_to_a_sink_that_never_fails() -> Result<(), Fail> {
    let mut never = NeverSink::new();
    let nothing = write_all(&mut never, b"").is_ok();
    is_so(nothing && write_all(&mut never, b"abc").is_ok())
}

// A stream that always fails.
#[derive(Drop)]
struct Broken;

impl Read for Broken {
    fn read(&mut self, _buf: &mut [u8]) -> io::Result<usize> {
        Err(ErrorKind::Other.into())
    }
}

impl Write for Broken {
    fn write(&mut self, _buf: &[u8]) -> io::Result<usize> {
        Err(ErrorKind::Other.into())
    }

    fn flush(&mut self) -> io::Result<()> {
        Ok(())
    }
}

// Nothing is written to a stream that fails, and something is not.
#[test]
fn a_stream_of_std_fails_where_it_has_an_error(rt: HostRuntime) -> Result<(), Fail> {
    let mut broken = FromRead::new(Broken);
    let read = read_all(rt.alloc(), &mut broken, 4);
    let is_fault = matches!(read, Err(ReadError::ReadFault));
    let mut broken = ToWrite::new(Broken);
    let nothing = write_all(&mut broken, b"").is_ok();
    is_so(is_fault && nothing && write_all(&mut broken, b"a").is_err())
}

#[test]
fn a_slice_of_std_takes_a_front() -> Result<(), Fail> {
    let mut room = [0; 2];
    let mut full = ToWrite::new(room.as_mut_slice());
    let is_refused = write_all(&mut full, b"abc").is_err();
    is_so(is_refused && room.as_slice() == b"ab".as_slice())
}

#[test]
fn a_list_of_std_takes_all(rt: HostRuntime) -> Result<(), Fail> {
    let mut kept = Vec::new(rt.alloc());
    let mut sink = ToWrite::new(&mut kept);
    let is_taken = write_all(&mut sink, b"abc").is_ok();
    is_so(is_taken && kept.as_slice() == b"abc".as_slice())
}

// Fails with the first message that is another one.
fn are_spelt<E: Display>(alloc: Global, rows: &[(E, &'static str)]) -> Result<(), Fail> {
    for (error, message) in rows {
        if format!(in alloc; "{error}")?.as_str() != *message {
            return Err(Fail::new(*message));
        }
    }
    Ok(())
}

#[test]
fn each_error_of_a_source_has_its_message(rt: HostRuntime) -> Result<(), Fail> {
    let rows = [
        (ReadError::ReadFault, "the source failed"),
        (ReadError::TooLong, "there are more bytes than the limit"),
        (ReadError::OutOfMemory, "out of memory"),
    ];
    are_spelt(rt.alloc(), rows.as_slice())
}

#[test]
fn each_error_of_a_sink_has_its_message(rt: HostRuntime) -> Result<(), Fail> {
    let rows = [(WriteError::WriteFault, "the sink failed")];
    are_spelt(rt.alloc(), rows.as_slice())
}
