// The answer to the command that proves formulas over several times.
ghost use Rattle.std.specs.Prelude.{◌≡◌, ◌≤◌, ◌+◌, IfOk, length};
ghost use Rattle.smv_command.specs.Ranges.{AreInRange};
ghost use Rattle.smv_command.specs.declared.commands.Command.TheVariants as variant;
ghost use Rattle.smv_command.specs.declared.exit.Status.TheVariants.{Refused};
ghost use Rattle.smv_report.specs.Lines.{fault_text};
ghost use Rattle.smv_answers.specs.Dues.{IsDue};
ghost use Rattle.law_translated_texts.specs.Answers.{IsTranslated};
ghost use Rattle.law_translated_texts.specs.Translation as texts;
ghost use Rattle.smv_ltl.specs.Answers.{shown};

use crate::refusals::refused_by;
use law_fault_places::texts::faults_are_within;
use smv_answers::{Answer, refused, reported};
use smv_bits::Bits;
use smv_command::Command;
use smv_core::{Fault, Refusal};
use smv_ltl::{Translated, back, translate};
use smv_problem::Budgets;
use smv_prove::prove;
use std::alloc::{AllocError, Global};

/// The answer to a command that proves formulas over several times: why the text is not translated, or the first fault of its translation, or else the report of the translation.
pub fn translated(
    alloc: Global,
    command: &Command,
    text: &[u8],
    bits: Bits,
    budgets: Budgets,
) -> Result<Answer, AllocError>
    requires asks { command.now ≡ variant.Ltl bits budgets }
    requires in_range { AreInRange budgets }
    ensures { IfOk result (λ answer. IsDue (variant.Ltl bits budgets) text.now answer.status answer.bytes.items) }
{
    match translate(alloc, text) {
        Ok(translation) => of_translation(alloc, command, text, &translation, bits, budgets),
        Err(refusal) => refused_by(alloc, text, refusal),
    }
}

// The same by the translated text.
fn of_translation(
    alloc: Global,
    command: &Command,
    text: &[u8],
    translation: &Translated,
    bits: Bits,
    budgets: Budgets,
) -> Result<Answer, AllocError>
    requires asks { command.now ≡ variant.Ltl bits budgets }
    requires in_range { AreInRange budgets }
    requires translated { IsTranslated text.now (shown translation.now) }
    requires lengths { length translation.now.map ≡ length translation.now.text + 1 }
    ensures { IfOk result (λ answer. IsDue (variant.Ltl bits budgets) text.now answer.status answer.bytes.items) }
{
    faults_are_within();
    let bytes = translation.text.as_slice();
    match prove(alloc, bytes, bits, budgets) {
        Ok(report) => reported(alloc, command, &report),
        Err(Refusal::Fault(fault)) => refused_back(alloc, text, translation, fault),
        Err(Refusal::OutOfMemory) => Err(AllocError),
    }
}

// The answer by a fault of the translated text, at the place to which it belongs in the text that was read.
fn refused_back(
    alloc: Global,
    text: &[u8],
    translation: &Translated,
    fault: Fault,
) -> Result<Answer, AllocError>
    requires lengths { length translation.now.map ≡ length translation.now.text + 1 }
    requires place { fault.at ≤ length translation.now.text }
    ensures status { IfOk result (λ answer. answer.status ≡ Refused) }
    ensures bytes { IfOk result (λ answer. answer.bytes.items ≡ fault_text text.now fault.number (texts.back (shown translation.now) fault.at)) }
{
    let at = back(translation, fault.at);
    let number = fault.number;
    refused(alloc, text, Fault { number, at })
}
