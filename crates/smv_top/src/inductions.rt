// The answer to the command that proves by induction.
ghost use Rattle.std.specs.Prelude.{◌≡◌, ◌≤◌, IfOk, length};
ghost use Rattle.smv_core.specs.declared.tree.Text.{Text};
ghost use Rattle.smv_command.specs.Ranges.{AreInRange};
ghost use Rattle.smv_command.specs.declared.commands.Command.TheVariants as variant;
ghost use Rattle.smv_command.specs.declared.exit.Status.TheVariants.{Refused};
ghost use Rattle.smv_report.specs.Lines.{fault_text};
ghost use Rattle.smv_answers.specs.Dues.{IsDue, limit};
ghost use Rattle.smv_answers.specs.Reports.{IsValid};
ghost use Rattle.law_strengthened_texts.specs.Stronger as texts;
ghost use Rattle.law_strengthened_texts.specs.Stronger.{IsStrengthened};
ghost use Rattle.smv_strengthen.specs.Answers.{shown, IsWithin};

use crate::limits::{LIMIT, TOO_LONG};
use crate::refusals::refused_by;
use law_fault_places::texts::faults_are_within;
use smv_answers::{Answer, refused, reported};
use smv_bits::Bits;
use smv_command::Command;
use smv_core::{Fault, Name, Refusal};
use smv_parse::one_answer;
use smv_problem::Budgets;
use smv_prove::prove;
use smv_read_design::read_design;
use smv_strengthen::{Stronger, back, strengthen};
use std::alloc::{AllocError, Global};

/// The answer to a command that proves by induction: the text that was read is refused first, then the induction, then the strengthened text.
pub fn inducted(
    alloc: Global,
    command: &Command,
    text: &[u8],
    name: &Name,
    var: &Name,
    budgets: Budgets,
) -> Result<Answer, AllocError>
    requires asks { command.now ≡ variant.Induct name.now var.now budgets }
    requires in_range { AreInRange budgets }
    ensures { IfOk result (λ answer. IsDue (variant.Induct name.now var.now budgets) text.now answer.status answer.bytes.items) }
{
    if text.len() > LIMIT {
        return refused(alloc, text, TOO_LONG);
    }
    match read_design(alloc, text) {
        Ok(_plan) => of_valid(alloc, command, text, name, var, budgets),
        Err(refusal) => refused_by(alloc, text, refusal),
    }
}

// The same of a valid text.
fn of_valid(
    alloc: Global,
    command: &Command,
    text: &[u8],
    name: &Name,
    var: &Name,
    budgets: Budgets,
) -> Result<Answer, AllocError>
    requires asks { command.now ≡ variant.Induct name.now var.now budgets }
    requires in_range { AreInRange budgets }
    requires within { length text.now ≤ limit }
    requires valid { (tree : Text) × IsValid text.now tree }
    ensures { IfOk result (λ answer. IsDue (variant.Induct name.now var.now budgets) text.now answer.status answer.bytes.items) }
{
    one_answer();
    match strengthen(alloc, text, name, var) {
        Ok(stronger) => of_stronger(alloc, command, text, name, var, &stronger, budgets),
        Err(refusal) => refused_by(alloc, text, refusal),
    }
}

// The same by the strengthened text.
fn of_stronger(
    alloc: Global,
    command: &Command,
    text: &[u8],
    name: &Name,
    var: &Name,
    stronger: &Stronger,
    budgets: Budgets,
) -> Result<Answer, AllocError>
    requires asks { command.now ≡ variant.Induct name.now var.now budgets }
    requires in_range { AreInRange budgets }
    requires within { length text.now ≤ limit }
    requires valid { (tree : Text) × IsValid text.now tree }
    requires stronger { IsStrengthened text.now name.now var.now (shown stronger.now) }
    requires lengths { IsWithin text.now stronger.now }
    ensures { IfOk result (λ answer. IsDue (variant.Induct name.now var.now budgets) text.now answer.status answer.bytes.items) }
{
    faults_are_within();
    let bytes = stronger.text.as_slice();
    if bytes.len() > LIMIT {
        return refused_back(alloc, text, stronger, TOO_LONG);
    }
    match prove(alloc, bytes, Bits::Declared, budgets) {
        Ok(report) => reported(alloc, command, &report),
        Err(Refusal::Fault(fault)) => refused_back(alloc, text, stronger, fault),
        Err(Refusal::OutOfMemory) => Err(AllocError),
    }
}

// The answer by a fault of the strengthened text, at its place in the text that was read.
fn refused_back(
    alloc: Global,
    text: &[u8],
    stronger: &Stronger,
    fault: Fault,
) -> Result<Answer, AllocError>
    requires within { length text.now ≤ limit }
    requires lengths { IsWithin text.now stronger.now }
    requires place { fault.at ≤ length stronger.now.text }
    ensures status { IfOk result (λ answer. answer.status ≡ Refused) }
    ensures bytes { IfOk result (λ answer. answer.bytes.items ≡ fault_text text.now fault.number (texts.back (shown stronger.now) fault.at)) }
{
    let at = back(stronger, fault.at);
    let number = fault.number;
    refused(alloc, text, Fault { number, at })
}
