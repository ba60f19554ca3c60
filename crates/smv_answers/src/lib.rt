//! The answers of the program, each by what was found: a report, a tree, a fault, or words that are no command.
//!
//! For the top call, which decides what a command asks and then writes one of these. `law_answers` says which answer is due; each call here gives a status and bytes as its `specs/Dues` names them.
#![tactic(auto)]

ghost use Rattle.std.specs.Prelude.{◌≡◌, ◌++◌, Some, IfOk, OnOk};
ghost use Rattle.std.specs.List.{list_any};
ghost use Rattle.smv_print.specs.Canonical.{canonical};
ghost use Rattle.smv_report.specs.Lines.{fault_text};
ghost use Rattle.smv_report_lines.specs.Parts.{details};
ghost use Rattle.smv_proof.specs.Documents.{document};
ghost use Rattle.law_judgements.specs.Judgements.Judgement.{form, set, yes};
ghost use Rattle.law_document_answers.specs.Dues.{judged_text, status_by};
ghost use Rattle.law_answers.specs.Confirmations.{confirmed_heading, confirmed_status};
ghost use Rattle.law_answers.specs.Dues.{is_false, is_unknown, lines_for, proved_by, reads, status_of, usage_line};

pub use law_answers::laws;
use smv_command::{Command, Status};
use smv_core::Fault;
use smv_core::flat::{Design, Param};
use smv_core::tree::Text;
use smv_print::print;
use smv_problem::{Report, UnitResult, Verdict};
use smv_proof::{Proof, write_proof};
use smv_report::fault_line;
use smv_report_lines::{generated_lines, lines, push_details, push_heading, push_number};
use std::alloc::{AllocError, Global};

const USAGE: &[u8] = b"usage: smv prove|only|print|generated\n";

/// A status with the bytes that are written under it.
#[derive(Drop)]
pub struct Answer {
    pub status: Status,
    pub bytes: Vec<u8>,
}

/// The answer to a command by a report of what it asks to decide.
pub fn reported(alloc: Global, command: &Command, report: &Report) -> Result<Answer, AllocError>
    ensures status { IfOk result (λ answer. answer.status ≡ status_of (proved_by command.now) report.now) }
    ensures bytes { IfOk result (λ answer. answer.bytes.items ≡ lines_for command.now report.now) }
{
    let bytes = written(alloc, command, report)?;
    let status = status_of(report, proved_by(command));
    Ok(Answer { status, bytes })
}

/// The answer by a tree that is to be written.
pub fn printed(alloc: Global, tree: &Text) -> Result<Answer, AllocError>
    ensures status { IfOk result (λ answer. answer.status ≡ Status.Printed) }
    ensures bytes { IfOk result (λ answer. answer.bytes.items ≡ canonical tree.now) }
{
    let bytes = print(alloc, tree)?;
    let status = Status::Printed;
    Ok(Answer { status, bytes })
}

/// The answer by a fault of a text.
pub fn refused(alloc: Global, text: &[u8], fault: Fault) -> Result<Answer, AllocError>
    ensures status { IfOk result (λ answer. answer.status ≡ Status.Refused) }
    ensures bytes { IfOk result (λ answer. answer.bytes.items ≡ fault_text text.now fault.number fault.at) }
{
    let bytes = fault_line(alloc, text, fault)?;
    let status = Status::Refused;
    Ok(Answer { status, bytes })
}

/// The answer by a proof document that is to be written, under this status.
pub fn documented(alloc: Global, proof: &Proof, status: Status) -> Result<Answer, AllocError>
    ensures status { IfOk result (λ answer. answer.status ≡ status) }
    ensures bytes { IfOk result (λ answer. answer.bytes.items ≡ document proof.now) }
{
    let bytes = write_proof(alloc, proof)?;
    Ok(Answer { status, bytes })
}

/// The answer by a document that is a checked one, with so many sets.
pub fn checked(alloc: Global, sets: u32) -> Result<Answer, AllocError>
    ensures status { IfOk result (λ answer. answer.status ≡ status_by (yes sets)) }
    ensures bytes { IfOk result (λ answer. answer.bytes.items ≡ judged_text (yes sets)) }
{
    let mut bytes = Vec::from_slice(alloc, b"checked ")?;
    push_number(&mut bytes, sets as usize)?;
    bytes.push(b'\n')?;
    let status = Status::Checked;
    Ok(Answer { status, bytes })
}

/// The answer by bytes that are not of the form of a document for their design.
pub fn rejected_form(alloc: Global) -> Result<Answer, AllocError>
    ensures status { IfOk result (λ answer. answer.status ≡ status_by form) }
    ensures bytes { IfOk result (λ answer. answer.bytes.items ≡ judged_text form) }
{
    let bytes = Vec::from_slice(alloc, b"rejected form\n")?;
    let status = Status::Rejected;
    Ok(Answer { status, bytes })
}

/// The answer by a document whose set of this number, from 1, fails.
pub fn rejected_set(alloc: Global, number: u32) -> Result<Answer, AllocError>
    ensures status { IfOk result (λ answer. answer.status ≡ status_by (set number)) }
    ensures bytes { IfOk result (λ answer. answer.bytes.items ≡ judged_text (set number)) }
{
    let mut bytes = Vec::from_slice(alloc, b"rejected set ")?;
    push_number(&mut bytes, number as usize)?;
    bytes.push(b'\n')?;
    let status = Status::Rejected;
    Ok(Answer { status, bytes })
}

/// The answer by what is told of the unit of this name, with these parameters, at given sizes.
pub fn confirmed(
    alloc: Global,
    name: &[u8],
    design: &Design,
    params: &[Param],
    verdict: &Verdict,
) -> Result<Answer, AllocError>
    ensures status { IfOk result (λ answer. answer.status ≡ confirmed_status verdict.now) }
    ensures bytes { IfOk result (λ answer. answer.bytes.items ≡ confirmed_heading name.now verdict.now ++ details design.now params.now verdict.now) }
{
    let mut bytes = Vec::new(alloc);
    push_confirmed(&mut bytes, name, verdict)?;
    push_details(&mut bytes, design, params, verdict)?;
    let status = confirmed_status(verdict);
    Ok(Answer { status, bytes })
}

// Writes the line of a unit that says what is told of it at given sizes.
fn push_confirmed(out: &mut Vec<u8>, name: &[u8], verdict: &Verdict) -> Result<(), AllocError>
    ensures { OnOk result (out.new.items ≡ out.old.items ++ confirmed_heading name.now verdict.now) }
{
    match verdict {
        Verdict::True => {
            out.extend_from_slice(name)?;
            out.extend_from_slice(b": holds\n")
        }
        Verdict::False {
            case: _,
            elements: _,
            path,
        } => {
            out.extend_from_slice(name)?;
            out.extend_from_slice(b": real at ")?;
            push_number(out, path.len().saturating_sub(1))?;
            out.push(b'\n')?;
            Ok(())
        }
        Verdict::UnknownNodes { case: _, count: _ } => push_heading(out, name, verdict),
        Verdict::UnknownSteps { case: _ } => push_heading(out, name, verdict),
    }
}

// The status by what is told of a unit at given sizes.
fn confirmed_status(verdict: &Verdict) -> Status
    ensures { result ≡ confirmed_status verdict.now }
{
    match verdict {
        Verdict::True => Status::HoldsHere,
        Verdict::False {
            case: _,
            elements: _,
            path: _,
        } => Status::Real,
        Verdict::UnknownNodes { case: _, count: _ } => Status::SomeUnknown,
        Verdict::UnknownSteps { case: _ } => Status::SomeUnknown,
    }
}

/// The line that is written where the words are no command. It takes no memory.
pub fn usage() -> &'static [u8]
    ensures { result.now ≡ usage_line }
{
    USAGE
}

/// Whether a command asks for a text.
pub fn reads(command: &Command) -> bool
    ensures { result ≡ reads (Some command.now) }
{
    match command {
        Command::Prove {
            bits: _,
            budgets: _,
        } => true,
        Command::Only {
            name: _,
            bits: _,
            budgets: _,
        } => true,
        Command::Print => true,
        Command::Generated { copies: _ } => false,
        Command::Proof { budgets: _ } => true,
        Command::Check => true,
        Command::Resume { budgets: _ } => true,
        Command::Confirm {
            name: _,
            sizes: _,
            bits: _,
            budgets: _,
        } => true,
        Command::Induct {
            name: _,
            var: _,
            budgets: _,
        } => true,
        Command::Ltl {
            bits: _,
            budgets: _,
        } => true,
    }
}

// The lines of a report under a command.
fn written(alloc: Global, command: &Command, report: &Report) -> Result<Vec<u8>, AllocError>
    ensures { IfOk result (λ bytes. bytes.items ≡ lines_for command.now report.now) }
{
    match command {
        Command::Prove {
            bits: _,
            budgets: _,
        } => lines(alloc, report),
        Command::Only {
            name: _,
            bits: _,
            budgets: _,
        } => lines(alloc, report),
        Command::Print => lines(alloc, report),
        Command::Generated { copies } => generated_lines(alloc, *copies, report),
        Command::Proof { budgets: _ } => lines(alloc, report),
        Command::Check => lines(alloc, report),
        Command::Resume { budgets: _ } => lines(alloc, report),
        Command::Confirm {
            name: _,
            sizes: _,
            bits: _,
            budgets: _,
        } => lines(alloc, report),
        Command::Induct {
            name: _,
            var: _,
            budgets: _,
        } => lines(alloc, report),
        Command::Ltl {
            bits: _,
            budgets: _,
        } => lines(alloc, report),
    }
}

// The status where all that a command asks to decide is true.
fn proved_by(command: &Command) -> Status
    ensures { result ≡ proved_by command.now }
{
    match command {
        Command::Prove {
            bits: _,
            budgets: _,
        } => Status::AllProved,
        Command::Only {
            name: _,
            bits: _,
            budgets: _,
        } => Status::PartProved,
        Command::Print => Status::Printed,
        Command::Generated { copies: _ } => Status::Generated,
        Command::Proof { budgets: _ } => Status::Documented,
        Command::Check => Status::Checked,
        Command::Resume { budgets: _ } => Status::Resumed,
        Command::Confirm {
            name: _,
            sizes: _,
            bits: _,
            budgets: _,
        } => Status::HoldsHere,
        Command::Induct {
            name: _,
            var: _,
            budgets: _,
        } => Status::Inducted,
        Command::Ltl {
            bits: _,
            budgets: _,
        } => Status::AllFormulas,
    }
}

// The status of a report: `proved` where each unit is true.
fn status_of(report: &Report, proved: Status) -> Status
    ensures { result ≡ status_of proved report.now }
{
    if has_false(report) {
        Status::SomeFalse
    } else if has_unknown(report) {
        Status::SomeUnknown
    } else {
        proved
    }
}

// Whether a unit is false.
fn has_false(report: &Report) -> bool
    ensures { result ≡ list_any (λ unit. is_false unit.verdict) report.now.units }
{
    report.units.as_slice().iter().any(is_false)
}

// Whether a unit is unknown.
fn has_unknown(report: &Report) -> bool
    ensures { result ≡ list_any (λ unit. is_unknown unit.verdict) report.now.units }
{
    report.units.as_slice().iter().any(is_unknown)
}

fn is_false(unit: &UnitResult) -> bool
    ensures { result ≡ is_false unit.now.verdict }
{
    match &unit.verdict {
        Verdict::False {
            case: _,
            elements: _,
            path: _,
        } => true,
        Verdict::True => false,
        Verdict::UnknownNodes { case: _, count: _ } => false,
        Verdict::UnknownSteps { case: _ } => false,
    }
}

fn is_unknown(unit: &UnitResult) -> bool
    ensures { result ≡ is_unknown unit.now.verdict }
{
    match &unit.verdict {
        Verdict::UnknownNodes { case: _, count: _ } => true,
        Verdict::UnknownSteps { case: _ } => true,
        Verdict::True => false,
        Verdict::False {
            case: _,
            elements: _,
            path: _,
        } => false,
    }
}
