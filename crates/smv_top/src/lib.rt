//! The top call: from the words of the command and the bytes of a source to a status and the bytes of a sink.
//!
//! For the program: `run` carries the headline. What a call owes is said once, for all commands, in `law_answers`; each clause of `run` is one of the sentences of `specs/Clauses` over it.
#![tactic(auto)]

ghost use Rattle.std.specs.Prelude.{◌≡◌, ◌≢◌, ◌⊎◌, List, [], ℕ, map, IfSome, Some, None, false, true};
ghost use Rattle.std.specs.String.{string_bytes};
ghost use Rattle.std.specs.Io.KnownBytes.{Appends};
ghost use Rattle.smv_io.specs.Causes.{Rose};
ghost use Rattle.smv_io.specs.Transfers.{TookFront};
ghost use Rattle.smv_command.specs.Ranges.{IsInRange};
ghost use Rattle.smv_command.specs.declared.commands.Command.TheVariants as variant;
ghost use Rattle.smv_command.specs.Commands.{command_of};
ghost use Rattle.smv_answers.specs.Reports.{IsSoundDesign};
ghost use Rattle.smv_answers.specs.Laws.{AreSoundFormulas, HoldsAsAsked, HoldsSound, RenewsSound};
ghost use Rattle.smv_answers.specs.Dues.{Gave, Ends, length_fault, limit_for, reads, text_for};
ghost use Rattle.smv_report.specs.Lines.{fault_text};
ghost use Rattle.smv_top.specs.Clauses.{Completes, ShowsReal};

mod answers;
mod confirmations;
mod documents;
mod formulas;
mod inductions;
mod limits;
mod refusals;

use answers::answer_to;
use limits::{CHECK_LIMIT, LIMIT, RESUME_LIMIT};
use smv_answers::laws::{
    confirmed_is_so, documents_are_sound, formulas_are_sound, induction_is_sound, one_status,
    proved_is_sound,
};
use smv_answers::usage;
use smv_command::words_laws::numbers_are_in_range;
use smv_command::{Command, Status, command_of};
use smv_gen::generate;
use smv_io::{ReadError, Sink, Source, read_all, write_all};
use std::alloc::Global;

// What is written where there are more bytes than a command reads.
const TEXT_TOO_LONG: &[u8] = b"fault 31 at line 1 column 1\n";

const DOCUMENT_TOO_LONG: &[u8] = b"fault 33 at line 1 column 1\n";

/// Reads a text from the source as the command asks, or makes one, decides its units or spells it anew, and then writes the whole answer.
///
/// The words are those behind the program's name. Under `ReadFault` and `OutOfMemory` nothing is written, and under `WriteFault` a front of
/// the answer.
pub fn run<S: Source, K: Sink>(
    alloc: Global,
    words: &[String],
    source: &mut S,
    sink: &mut K,
) -> Status
    // The headline: where all is proved, every unit holds at every time of every run, for all sizes.
    ensures sound { result ≡ Status.AllProved → IfSome (S.left source.old) IsSoundDesign }

    // The same where a proof document is written, of the text; where one is checked, of the design in it; and where one is resumed, of the new design.
    ensures documented { result ≡ Status.Documented → IfSome (S.left source.old) IsSoundDesign }
    ensures checked { result ≡ Status.Checked → IfSome (S.left source.old) HoldsSound }
    ensures resumed { result ≡ Status.Resumed → IfSome (S.left source.old) RenewsSound }

    // And of the text where a claim that may assume itself for smaller values of a parameter proves it.
    ensures inducted { result ≡ Status.Inducted → IfSome (S.left source.old) IsSoundDesign }

    // And, where claims are formulas over several times: the text spells a tree with its formulas, and each of these too holds at every time of every run, for all sizes.
    ensures formulas { result ≡ Status.AllFormulas → IfSome (S.left source.old) AreSoundFormulas }

    // At the sizes that the words give: no run breaks an instance of the unit, or what was written shows one that does, and none is shorter.
    ensures holds_here { result ≡ Status.HoldsHere → IfSome (S.left source.old) (HoldsAsAsked (command_of (map string_bytes words.now))) }
    ensures real { result ≡ Status.Real → IfSome (S.left source.old) (ShowsReal (command_of (map string_bytes words.now)) (K.taken sink.old) (K.taken sink.new)) }

    // The status is the one to which the answer is due, and the sink took that answer.
    ensures ends { (text : List ℕ) × Gave (S.left source.old) text × Ends result (command_of (map string_bytes words.now)) text (K.taken sink.old) (K.taken sink.new) }

    // A fault comes only where the count rose in this call.
    ensures read_fault { result ≡ Status.ReadFault → Rose (S.faults source.old) (S.faults source.new) }
    ensures write_fault { result ≡ Status.WriteFault → Rose (K.faults sink.old) (K.faults sink.new) }

    // Without faults the status is that to which the words and the text call for, or memory ran out; over near bits it may also leave it open.
    ensures complete { ¬ Rose (S.faults source.old) (S.faults source.new) → ¬ Rose (K.faults sink.old) (K.faults sink.new) →
        IfSome (S.left source.old) (Completes result (command_of (map string_bytes words.now))) }

    // Words that are no command, and those that ask for no text, leave the source alone. Without an answer the sink is left alone.
    ensures unread { reads (command_of (map string_bytes words.now)) ≡ false → source.new ≡ source.old }
    ensures unwritten { (result ≡ Status.ReadFault) ⊎ (result ≡ Status.OutOfMemory) → sink.new ≡ sink.old }
{
    one_status();
    proved_is_sound();
    documents_are_sound();
    induction_is_sound();
    formulas_are_sound();
    confirmed_is_so();
    numbers_are_in_range();
    answered(alloc, words, source, sink)
}

// The same, by its causes alone.
fn answered<S: Source, K: Sink>(
    alloc: Global,
    words: &[String],
    source: &mut S,
    sink: &mut K,
) -> Status
    ensures ends { (text : List ℕ) × Gave (S.left source.old) text × Ends result (command_of (map string_bytes words.now)) text (K.taken sink.old) (K.taken sink.new) }
    ensures read_fault { result ≡ Status.ReadFault → Rose (S.faults source.old) (S.faults source.new) }
    ensures write_fault { result ≡ Status.WriteFault → Rose (K.faults sink.old) (K.faults sink.new) }
    ensures unread { reads (command_of (map string_bytes words.now)) ≡ false → source.new ≡ source.old }
    ensures unwritten { (result ≡ Status.ReadFault) ⊎ (result ≡ Status.OutOfMemory) → sink.new ≡ sink.old }
{
    numbers_are_in_range();
    let Ok(found) = command_of(alloc, words) else {
        return Status::OutOfMemory;
    };
    match &found {
        Some(command) => asked(alloc, command, source, sink),
        None => finish(sink, usage(), Status::Usage),
    }
}

// The call under a command.
fn asked<S: Source, K: Sink>(
    alloc: Global,
    command: &Command,
    source: &mut S,
    sink: &mut K,
) -> Status
    requires { IsInRange command.now }
    ensures ends { (text : List ℕ) × Gave (S.left source.old) text × Ends result (Some command.now) text (K.taken sink.old) (K.taken sink.new) }
    ensures read_fault { result ≡ Status.ReadFault → Rose (S.faults source.old) (S.faults source.new) }
    ensures write_fault { result ≡ Status.WriteFault → Rose (K.faults sink.old) (K.faults sink.new) }
    ensures unread { reads (Some command.now) ≡ false → source.new ≡ source.old }
    ensures unwritten { (result ≡ Status.ReadFault) ⊎ (result ≡ Status.OutOfMemory) → sink.new ≡ sink.old }
{
    match command {
        Command::Prove {
            bits: _,
            budgets: _,
        } => of_source(alloc, command, source, sink),
        Command::Only {
            name: _,
            bits: _,
            budgets: _,
        } => of_source(alloc, command, source, sink),
        Command::Print => of_source(alloc, command, source, sink),
        Command::Generated { copies } => of_copies(alloc, command, *copies, sink),
        Command::Proof { budgets: _ } => of_source(alloc, command, source, sink),
        Command::Check => of_source(alloc, command, source, sink),
        Command::Resume { budgets: _ } => of_source(alloc, command, source, sink),
        Command::Confirm {
            name: _,
            sizes: _,
            bits: _,
            budgets: _,
        } => of_source(alloc, command, source, sink),
        Command::Induct {
            name: _,
            var: _,
            budgets: _,
        } => of_source(alloc, command, source, sink),
        Command::Ltl {
            bits: _,
            budgets: _,
        } => of_source(alloc, command, source, sink),
    }
}

// The call under a command that reads a text.
fn of_source<S: Source, K: Sink>(
    alloc: Global,
    command: &Command,
    source: &mut S,
    sink: &mut K,
) -> Status
    requires in_range { IsInRange command.now }
    requires reads { reads (Some command.now) ≡ true }
    requires own { (text : List ℕ) → text_for command.now text ≡ text }
    ensures ends { (text : List ℕ) × Gave (S.left source.old) text × Ends result (Some command.now) text (K.taken sink.old) (K.taken sink.new) }
    ensures read_fault { result ≡ Status.ReadFault → Rose (S.faults source.old) (S.faults source.new) }
    ensures write_fault { result ≡ Status.WriteFault → Rose (K.faults sink.old) (K.faults sink.new) }
    ensures unwritten { (result ≡ Status.ReadFault) ⊎ (result ≡ Status.OutOfMemory) → sink.new ≡ sink.old }
{
    match read_all(alloc, source, limit_for(command)) {
        Err(ReadError::ReadFault) => Status::ReadFault,
        Err(ReadError::OutOfMemory) => Status::OutOfMemory,
        Err(ReadError::TooLong) => finish(sink, too_long(command), Status::Refused),
        Ok(text) => match answer_to(alloc, command, &text) {
            Ok(due) => finish(sink, &due.bytes, due.status),
            Err(_) => Status::OutOfMemory,
        },
    }
}

// The most bytes that a command reads.
fn limit_for(command: &Command) -> usize
    ensures { result ≡ limit_for command.now }
{
    match command {
        Command::Check => CHECK_LIMIT,
        Command::Resume { budgets: _ } => RESUME_LIMIT,
        Command::Prove {
            bits: _,
            budgets: _,
        } => LIMIT,
        Command::Only {
            name: _,
            bits: _,
            budgets: _,
        } => LIMIT,
        Command::Print => LIMIT,
        Command::Generated { copies: _ } => LIMIT,
        Command::Proof { budgets: _ } => LIMIT,
        Command::Confirm {
            name: _,
            sizes: _,
            bits: _,
            budgets: _,
        } => LIMIT,
        Command::Induct {
            name: _,
            var: _,
            budgets: _,
        } => LIMIT,
        Command::Ltl {
            bits: _,
            budgets: _,
        } => LIMIT,
    }
}

// What is written where there are more.
fn too_long(command: &Command) -> &'static [u8]
    ensures { result.now ≡ fault_text [] (length_fault command.now) 0 }
{
    match command {
        Command::Check => DOCUMENT_TOO_LONG,
        Command::Resume { budgets: _ } => DOCUMENT_TOO_LONG,
        Command::Prove {
            bits: _,
            budgets: _,
        } => TEXT_TOO_LONG,
        Command::Only {
            name: _,
            bits: _,
            budgets: _,
        } => TEXT_TOO_LONG,
        Command::Print => TEXT_TOO_LONG,
        Command::Generated { copies: _ } => TEXT_TOO_LONG,
        Command::Proof { budgets: _ } => TEXT_TOO_LONG,
        Command::Confirm {
            name: _,
            sizes: _,
            bits: _,
            budgets: _,
        } => TEXT_TOO_LONG,
        Command::Induct {
            name: _,
            var: _,
            budgets: _,
        } => TEXT_TOO_LONG,
        Command::Ltl {
            bits: _,
            budgets: _,
        } => TEXT_TOO_LONG,
    }
}

// The call under a command that asks for a generated text.
fn of_copies<K: Sink>(alloc: Global, command: &Command, copies: u16, sink: &mut K) -> Status
    requires in_range { IsInRange command.now }
    requires asks { command.now ≡ variant.Generated copies }
    ensures ends { (text : List ℕ) → Ends result (Some command.now) text (K.taken sink.old) (K.taken sink.new) }
    ensures read { result ≢ Status.ReadFault }
    ensures write_fault { result ≡ Status.WriteFault → Rose (K.faults sink.old) (K.faults sink.new) }
    ensures unwritten { result ≡ Status.OutOfMemory → sink.new ≡ sink.old }
{
    let Ok(text) = generate(alloc, copies) else {
        return Status::OutOfMemory;
    };
    match answer_to(alloc, command, &text) {
        Ok(due) => finish(sink, &due.bytes, due.status),
        Err(_) => Status::OutOfMemory,
    }
}

// Writes the whole answer, and gives its status where the sink took it.
fn finish<K: Sink>(sink: &mut K, answer: &[u8], status: Status) -> Status
    requires { status ≢ Status.WriteFault }
    ensures taken { result ≡ status → Appends (K.taken sink.old) (K.taken sink.new) answer.now }
    ensures front { result ≡ Status.WriteFault → TookFront (K.taken sink.old) (K.taken sink.new) answer.now }
    ensures cause { result ≡ Status.WriteFault → Rose (K.faults sink.old) (K.faults sink.new) }
    ensures either { (result ≡ status) ⊎ (result ≡ Status.WriteFault) }
{
    match write_all(sink, answer) {
        Ok(()) => status,
        Err(_) => Status::WriteFault,
    }
}
