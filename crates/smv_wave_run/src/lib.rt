//! The call of the program `smv_wave`: from the bytes of a source, a report of `prove`, to the dump of its false units, or to the tables of their paths, or to a note that says why there is none.
//!
//! For the program, which hands over its streams. `specs/Dues` says which answer is due, to which sink it goes, and how a call ends; the dump is that of `smv_waveforms`' `specs/Vcd`, a table that of
//! `smv_path_tables`' `specs/Tables`, and what a report is, `smv_read_report`'s `specs/Reports` says.
#![tactic(auto)]

ghost use Rattle.std.specs.Prelude.{◌≡◌, ◌≢◌, ◌⊎◌, ◌++◌, List, ℕ, map, None, Ok, Some, IfOk, OnOk};
ghost use Rattle.std.specs.Fmt.{decimal};
ghost use Rattle.std.specs.String.{string_bytes};
ghost use Rattle.std.specs.Io.KnownBytes.{Appends};
ghost use Rattle.smv_io.specs.Causes.{Rose};
ghost use Rattle.smv_io.specs.Transfers.{TookFront};
ghost use Rattle.smv_read_report.specs.Reports.{report_of};
ghost use Rattle.smv_wave_run.specs.Dues.{Ends, Gave, Goes, LeavesAlone, answer_in, fault_line, form_of, number_of, status_for, written_as};

use itoa::Buffer;
use smv_io::{ReadError, Sink, Source, read_all, write_all};
use smv_path_tables::path_tables;
use smv_read_report::{FalseUnit, ReadFailure, ReportFault, false_units};
use smv_waveforms::vcd;
use std::alloc::{AllocError, Global};

/// How the paths of a report are written.
#[derive(Clone, Copy)]
enum Form {
    /// As waveforms.
    Dump,
    /// As tables.
    Table,
}

/// How a call ended.
#[derive(Clone, Copy, Debug, PartialEq, Eq)]
pub enum Status {
    /// The dump or the tables were written.
    Written,
    /// The text is a report, and none of its units is false.
    NoFalseUnit,
    /// The text is no report.
    Refused,
    /// The words are none that are taken.
    Usage,
    /// The source failed in this call.
    ReadFault,
    /// A sink failed in this call.
    WriteFault,
    /// Memory ran out.
    OutOfMemory,
}

impl Status {
    /// The exit status of the program.
    pub fn number(self) -> u8
        ensures { result ≡ number_of self }
    {
        match self {
            Status::Written => 0,
            Status::NoFalseUnit => 1,
            Status::Refused => 3,
            Status::Usage => 4,
            Status::ReadFault => 5,
            Status::WriteFault => 6,
            Status::OutOfMemory => 7,
        }
    }
}

// The most bytes that a report has: no more have an address.
const LIMIT: usize = usize::MAX;

const NONE: &[u8] = b"no false unit\n";

const USAGE: &[u8] = b"usage: smv_wave [table] < REPORT > FILE\n";

// A status with the bytes that are written under it.
#[derive(Drop)]
struct Answer {
    status: Status,
    bytes: Vec<u8>,
}

/// Reads a report from the source, and then writes the dump of its false units to the one sink, under the word `table` the tables of their paths, or a note of one line to the other.
///
/// The words are those behind the program's name. Under `ReadFault` and `OutOfMemory` nothing is written, and under `WriteFault` a front of the answer.
pub fn run<S: Source, K: Sink, N: Sink>(
    alloc: Global,
    words: &[String],
    source: &mut S,
    dump: &mut K,
    notes: &mut N,
) -> Status
    // The status is the one to which the answer is due, and its sink took that answer.
    ensures ends { (text : List ℕ) × Gave (S.left source.old) text × Ends result (form_of (map string_bytes words.now)) text (record { dump_old = K.taken dump.old; dump_new = K.taken dump.new; note_old = N.taken notes.old; note_new = N.taken notes.new }) }

    // A fault comes only where a count rose in this call.
    ensures read_fault { result ≡ Status.ReadFault → Rose (S.faults source.old) (S.faults source.new) }
    ensures write_fault { result ≡ Status.WriteFault → Rose (K.faults dump.old) (K.faults dump.new) ⊎ Rose (N.faults notes.old) (N.faults notes.new) }

    // Other words leave the source alone, an answer the sink to which it does not go, and a call without an answer both sinks.
    ensures unread { form_of (map string_bytes words.now) ≡ None → source.new ≡ source.old }
    ensures alone { LeavesAlone result dump.old dump.new notes.old notes.new }
{
    match form_of(words) {
        Some(form) => of_source(alloc, form, source, dump, notes),
        None => finish(dump, notes, USAGE, Status::Usage),
    }
}

// What the words ask for.
fn form_of(words: &[String]) -> Option<Form>
    ensures { result ≡ form_of (map string_bytes words.now) }
{
    match words {
        [] => Some(Form::Dump),
        [word] => {
            if word.as_bytes() == b"table".as_slice() {
                Some(Form::Table)
            } else {
                None
            }
        }
        _ => None,
    }
}

// The call in one form.
fn of_source<S: Source, K: Sink, N: Sink>(
    alloc: Global,
    form: Form,
    source: &mut S,
    dump: &mut K,
    notes: &mut N,
) -> Status
    ensures ends { (text : List ℕ) × Gave (S.left source.old) text × Ends result (Some form) text (record { dump_old = K.taken dump.old; dump_new = K.taken dump.new; note_old = N.taken notes.old; note_new = N.taken notes.new }) }
    ensures read_fault { result ≡ Status.ReadFault → Rose (S.faults source.old) (S.faults source.new) }
    ensures write_fault { result ≡ Status.WriteFault → Rose (K.faults dump.old) (K.faults dump.new) ⊎ Rose (N.faults notes.old) (N.faults notes.new) }
    ensures alone { LeavesAlone result dump.old dump.new notes.old notes.new }
{
    match read_all(alloc, source, LIMIT) {
        Err(ReadError::ReadFault) => Status::ReadFault,
        Err(ReadError::OutOfMemory) => Status::OutOfMemory,
        Err(ReadError::TooLong) => Status::OutOfMemory,
        Ok(text) => match answer_to(alloc, form, &text) {
            Ok(due) => finish(dump, notes, &due.bytes, due.status),
            Err(_) => Status::OutOfMemory,
        },
    }
}

// The answer to a text.
fn answer_to(alloc: Global, form: Form, text: &[u8]) -> Result<Answer, AllocError>
    ensures status { IfOk result (λ answer. answer.status ≡ status_for (report_of text.now)) }
    ensures bytes { IfOk result (λ answer. answer.bytes.items ≡ answer_in form (report_of text.now)) }
{
    match false_units(alloc, text) {
        Ok(units) => answer_of(alloc, form, units.as_slice()),
        Err(ReadFailure::Fault(fault)) => refused(alloc, fault),
        Err(ReadFailure::OutOfMemory) => Err(AllocError),
    }
}

// The answer to a report with these false units.
#[tactic(auto, using(crate::proofs::Endings::none_status, crate::proofs::Endings::none_answer, crate::proofs::Endings::some_status, crate::proofs::Endings::some_answer))]
fn answer_of(alloc: Global, form: Form, units: &[FalseUnit]) -> Result<Answer, AllocError>
    ensures status { IfOk result (λ answer. answer.status ≡ status_for (Ok units.now)) }
    ensures bytes { IfOk result (λ answer. answer.bytes.items ≡ answer_in form (Ok units.now)) }
{
    if units.is_empty() {
        let bytes = Vec::from_slice(alloc, NONE)?;
        let status = Status::NoFalseUnit;
        return Ok(Answer { status, bytes });
    }
    let bytes = written_as(alloc, form, units)?;
    let status = Status::Written;
    Ok(Answer { status, bytes })
}

// False units in a form.
fn written_as(alloc: Global, form: Form, units: &[FalseUnit]) -> Result<Vec<u8>, AllocError>
    ensures { IfOk result (λ bytes. bytes.items ≡ written_as form units.now) }
{
    match form {
        Form::Dump => vcd(alloc, units),
        Form::Table => path_tables(alloc, units),
    }
}

// The answer to a text that is no report.
fn refused(alloc: Global, fault: ReportFault) -> Result<Answer, AllocError>
    ensures status { IfOk result (λ answer. answer.status ≡ Status.Refused) }
    ensures bytes { IfOk result (λ answer. answer.bytes.items ≡ fault_line fault) }
{
    let mut bytes = Vec::from_slice(alloc, b"fault ")?;
    push_number(&mut bytes, usize::from(fault.number))?;
    bytes.extend_from_slice(b" at line ")?;
    push_number(&mut bytes, fault.line)?;
    bytes.push(b'\n')?;
    let status = Status::Refused;
    Ok(Answer { status, bytes })
}

// Writes a number in decimal.
fn push_number(out: &mut Vec<u8>, number: usize) -> Result<(), AllocError>
    ensures { OnOk result (out.new.items ≡ out.old.items ++ decimal number) }
{
    let mut buffer = Buffer::new();
    out.extend_from_slice(buffer.format(number).as_bytes())
}

// Writes the whole answer to the sink to which it goes, and gives its status where the sink took it.
fn finish<K: Sink, N: Sink>(dump: &mut K, notes: &mut N, answer: &[u8], status: Status) -> Status
    requires { status ≢ Status.WriteFault }
    ensures taken { result ≡ status → Goes status Appends (record { dump_old = K.taken dump.old; dump_new = K.taken dump.new; note_old = N.taken notes.old; note_new = N.taken notes.new }) answer.now }
    ensures front { result ≡ Status.WriteFault → Goes status TookFront (record { dump_old = K.taken dump.old; dump_new = K.taken dump.new; note_old = N.taken notes.old; note_new = N.taken notes.new }) answer.now }
    ensures cause { result ≡ Status.WriteFault → Rose (K.faults dump.old) (K.faults dump.new) ⊎ Rose (N.faults notes.old) (N.faults notes.new) }
    ensures either { (result ≡ status) ⊎ (result ≡ Status.WriteFault) }
    ensures dumped { status ≡ Status.Written → notes.new ≡ notes.old }
    ensures noted { status ≢ Status.Written → dump.new ≡ dump.old }
{
    match status {
        Status::Written => put(dump, answer, Status::Written),
        Status::NoFalseUnit => put(notes, answer, Status::NoFalseUnit),
        Status::Refused => put(notes, answer, Status::Refused),
        Status::Usage => put(notes, answer, Status::Usage),
        Status::ReadFault => put(notes, answer, Status::ReadFault),
        Status::WriteFault => put(notes, answer, Status::WriteFault),
        Status::OutOfMemory => put(notes, answer, Status::OutOfMemory),
    }
}

// Writes the whole answer, and gives its status where the sink took it.
fn put<K: Sink>(sink: &mut K, answer: &[u8], status: Status) -> Status
    requires { status ≢ Status.WriteFault }
    ensures taken { result ≡ status → Appends (K.taken sink.old) (K.taken sink.new) answer.now }
    ensures front { result ≡ Status.WriteFault → TookFront (K.taken sink.old) (K.taken sink.new) answer.now }
    ensures cause { result ≡ Status.WriteFault → Rose (K.faults sink.old) (K.faults sink.new) }
    ensures either { (result ≡ status) ⊎ (result ≡ Status.WriteFault) }
{
    match write_all(sink, answer) {
        Ok(()) => status,
        Err(_) => Status::WriteFault,
    }
}
