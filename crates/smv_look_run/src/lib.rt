//! The call of the program `smv_look`: from its words and the bytes of a text to the lines that the words ask for, and a status.
//!
//! For the program, which hands over its streams. `specs/Dues` says which answer is due and how a call ends, `specs/Cases` what is shown of a case, `specs/Sets` and `specs/Models` what is answered of sets and circuits; the lines are those of `smv_look_lines` and of the crates beside it. `answers`, `sets`, `models` and `reports` make them, the last where units are decided.
#![tactic(auto)]

ghost use Rattle.std.specs.Prelude.{◌≡◌, ◌≢◌, ◌⊎◌, List, ℕ, map, None, Some};
ghost use Rattle.std.specs.Io.KnownBytes.{Appends};
ghost use Rattle.std.specs.String.{string_bytes};
ghost use Rattle.smv_io.specs.Causes.{Rose};
ghost use Rattle.smv_io.specs.Transfers.{TookFront};
ghost use Rattle.smv_look_command.specs.Queries.{IsInRange, query_of};
ghost use Rattle.smv_look_run.specs.Dues.{Ends, Gave, IsRefusal, number_of};

mod answers;
mod models;
mod reports;
mod sets;

use answers::answer_to;
use smv_io::{ReadError, Sink, Source, read_all, write_all};
use smv_look_command::words_laws::numbers_are_in_range;
use smv_look_command::{Query, query_of};
use std::alloc::Global;

/// How a call ended.
#[derive(Clone, Copy, Debug, PartialEq, Eq)]
pub enum Status {
    /// The lines were written.
    Written,
    /// The lines were written, and they warn of something: of what `lint` finds, or of a unit that is not true.
    Warned,
    /// The unit has no case of the number that is asked for.
    NoCase,
    /// A case that is asked for is false.
    SomeFalse,
    /// The first case that is asked for and is not true is unknown.
    SomeUnknown,
    /// The text has a fault, or no unit has the name that was asked for.
    Refused,
    /// The words are no query.
    Usage,
    /// The source failed in this call.
    ReadFault,
    /// The sink failed in this call.
    WriteFault,
    /// Memory ran out.
    OutOfMemory,
}

impl Status {
    /// The exit status of the program.
    pub fn number(self) -> u8
        ensures { result ≡ number_of self }
    {
        match self {
            Status::Written => 0,
            Status::Warned => 1,
            Status::NoCase => 1,
            Status::SomeFalse => 1,
            Status::SomeUnknown => 2,
            Status::Refused => 3,
            Status::Usage => 4,
            Status::ReadFault => 5,
            Status::WriteFault => 6,
            Status::OutOfMemory => 7,
        }
    }
}

// The most bytes that a text has.
const LIMIT: usize = 1_048_576;

const TOO_LONG: &[u8] = b"fault 31 at line 1 column 1\n";

const TOO_LONG_EXPLAINED: &[u8] =
    b"fault 31 at line 1 column 1\n  | the text has more than 1,048,576 bytes\n";

const USAGE: &[u8] =
    b"usage: smv_look list|cone NAME [CASE]|lint|explain|sets NAME [CASE]|front|aiger NAME [CASE] < TEXT\n";

/// Reads a text from the source, and writes what the words ask of it to the sink.
///
/// The words are those behind the program's name. Under `ReadFault` and `OutOfMemory` nothing is written, and under `WriteFault` a front of the answer.
pub fn run<S: Source, K: Sink>(
    alloc: Global,
    words: &[String],
    source: &mut S,
    sink: &mut K,
) -> Status
    // The status is the one to which the answer is due, and the sink took that answer.
    ensures ends { (text : List ℕ) × Gave (S.left source.old) text × Ends result (query_of (map string_bytes words.now)) text (K.taken sink.old) (K.taken sink.new) }

    // A fault comes only where the count rose in this call.
    ensures read_fault { result ≡ Status.ReadFault → Rose (S.faults source.old) (S.faults source.new) }
    ensures write_fault { result ≡ Status.WriteFault → Rose (K.faults sink.old) (K.faults sink.new) }

    // Words that are no query leave the source alone. Without an answer the sink is left alone.
    ensures unread { query_of (map string_bytes words.now) ≡ None → source.new ≡ source.old }
    ensures unwritten { (result ≡ Status.ReadFault) ⊎ (result ≡ Status.OutOfMemory) → sink.new ≡ sink.old }
{
    numbers_are_in_range();
    let Ok(found) = query_of(alloc, words) else {
        return Status::OutOfMemory;
    };
    match &found {
        Some(query) => asked(alloc, query, source, sink),
        None => finish(sink, USAGE, Status::Usage),
    }
}

// The call under a query.
fn asked<S: Source, K: Sink>(alloc: Global, query: &Query, source: &mut S, sink: &mut K) -> Status
    requires { IsInRange query.now }
    ensures ends { (text : List ℕ) × Gave (S.left source.old) text × Ends result (Some query.now) text (K.taken sink.old) (K.taken sink.new) }
    ensures read_fault { result ≡ Status.ReadFault → Rose (S.faults source.old) (S.faults source.new) }
    ensures write_fault { result ≡ Status.WriteFault → Rose (K.faults sink.old) (K.faults sink.new) }
    ensures unwritten { (result ≡ Status.ReadFault) ⊎ (result ≡ Status.OutOfMemory) → sink.new ≡ sink.old }
{
    match read_all(alloc, source, LIMIT) {
        Err(ReadError::ReadFault) => Status::ReadFault,
        Err(ReadError::OutOfMemory) => Status::OutOfMemory,
        Err(ReadError::TooLong) => finish(sink, too_long(query), Status::Refused),
        Ok(text) => match answer_to(alloc, query, &text) {
            Ok(due) => finish(sink, &due.bytes, due.status),
            Err(_) => Status::OutOfMemory,
        },
    }
}

/// The answer to a text that is too long.
pub(crate) fn too_long(query: &Query) -> &'static [u8]
    ensures { (text : List ℕ) → IsRefusal query.now text 31 0 result.now }
{
    match query {
        Query::List => TOO_LONG,
        Query::Cone { name: _, case: _ } => TOO_LONG,
        Query::Lint => TOO_LONG,
        Query::Sets {
            name: _,
            case: _,
            budgets: _,
        } => TOO_LONG,
        Query::Front => TOO_LONG,
        Query::Aiger { name: _, case: _ } => TOO_LONG,
        Query::Explain => TOO_LONG_EXPLAINED,
    }
}

// Writes the whole answer, and gives its status where the sink took it.
fn finish<K: Sink>(sink: &mut K, answer: &[u8], status: Status) -> Status
    requires { status ≢ Status.WriteFault }
    ensures taken { result ≡ status → Appends (K.taken sink.old) (K.taken sink.new) answer.now }
    ensures front { result ≡ Status.WriteFault → TookFront (K.taken sink.old) (K.taken sink.new) answer.now }
    ensures cause { result ≡ Status.WriteFault → Rose (K.faults sink.old) (K.faults sink.new) }
    ensures either { (result ≡ status) ⊎ (result ≡ Status.WriteFault) }
{
    match write_all(sink, answer) {
        Ok(()) => status,
        Err(_) => Status::WriteFault,
    }
}
