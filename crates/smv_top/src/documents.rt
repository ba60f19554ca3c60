// The answers to the commands that write, check and resume proof documents.
ghost use Rattle.std.specs.Prelude.{◌≡◌, ◌≤◌, true, length, IfOk};
ghost use Rattle.smv_proof.specs.Documents.{document, is_proof, Spells};
ghost use Rattle.smv_proof.specs.Olds.{IsOld};
ghost use Rattle.smv_command.specs.Ranges.{AreInRange};
ghost use Rattle.smv_command.specs.declared.commands.Command.TheVariants as variant;
ghost use Rattle.smv_answers.specs.Dues.{IsDue};
ghost use Rattle.law_document_answers.specs.Dues.{check_limit, resume_limit};

use crate::limits::{CHECK_LIMIT, DOCUMENT_TOO_LONG, LIMIT, RESUME_LIMIT, TOO_LONG};
use crate::refusals::refused_by;
use law_checked_proofs::resumed::resumed_proofs_are_checked;
use smv_answers::{
    Answer, checked as accepted, documented as written, refused, rejected_form, rejected_set,
    reported,
};
use smv_check::{CheckError, check_proof};
use smv_command::{Command, Status};
use smv_problem::Budgets;
use smv_proof::laws::readings_are_spelled;
use smv_proof::{Proof, ProofError};
use smv_proof_read::olds::old_of;
use smv_proof_read::read_proof;
use smv_resume::{Kept, keep, resume};
use std::alloc::{AllocError, Global};

/// The answer to a command that asks for the proof document of a text.
pub fn documented(alloc: Global, text: &[u8], budgets: Budgets) -> Result<Answer, AllocError>
    requires { AreInRange budgets }
    ensures { IfOk result (λ answer. IsDue (variant.Proof budgets) text.now answer.status answer.bytes.items) }
{
    if text.len() > LIMIT {
        return refused(alloc, text, TOO_LONG);
    }
    resumed_proofs_are_checked();
    match keep(alloc, text, budgets) {
        Ok(Kept::All { proof }) => written(alloc, &proof, Status::Documented),
        Ok(Kept::Open { report }) => {
            let command = Command::Proof { budgets };
            reported(alloc, &command, &report)
        }
        Err(refusal) => refused_by(alloc, text, refusal),
    }
}

/// The answer to a command that asks whether bytes are a checked document.
pub fn checked(alloc: Global, bytes: &[u8]) -> Result<Answer, AllocError>
    ensures { IfOk result (λ answer. IsDue variant.Check bytes.now answer.status answer.bytes.items) }
{
    if bytes.len() > CHECK_LIMIT {
        return refused(alloc, bytes, DOCUMENT_TOO_LONG);
    }
    match read_proof(alloc, bytes) {
        Ok(proof) => judged(alloc, bytes, &proof),
        Err(ProofError::NotSpelled) => rejected_form(alloc),
        Err(ProofError::OutOfMemory) => Err(AllocError),
    }
}

// The answer to the document that bytes spell.
fn judged(alloc: Global, bytes: &[u8], proof: &Proof) -> Result<Answer, AllocError>
    requires within { length bytes.now ≤ check_limit }
    requires spells { Spells bytes.now proof.now }
    ensures { IfOk result (λ answer. IsDue variant.Check bytes.now answer.status answer.bytes.items) }
{
    readings_are_spelled();
    match check_proof(alloc, proof) {
        Ok(sets) => accepted(alloc, sets),
        Err(CheckError::Form) => rejected_form(alloc),
        Err(CheckError::Design { fault }) => refused(alloc, proof.design.as_slice(), fault),
        Err(CheckError::Set { number }) => rejected_set(alloc, number),
        Err(CheckError::OutOfMemory) => Err(AllocError),
    }
}

/// The answer to a command that asks to prove a design that stands behind an old document.
pub fn resumed(alloc: Global, bytes: &[u8], budgets: Budgets) -> Result<Answer, AllocError>
    requires { AreInRange budgets }
    ensures { IfOk result (λ answer. IsDue (variant.Resume budgets) bytes.now answer.status answer.bytes.items) }
{
    if bytes.len() > RESUME_LIMIT {
        return refused(alloc, bytes, DOCUMENT_TOO_LONG);
    }
    let Some((old, text)) = old_of(bytes) else {
        return rejected_form(alloc);
    };
    match read_proof(alloc, old) {
        Ok(proof) => renewed(alloc, bytes, old, &proof, text, budgets),
        Err(ProofError::NotSpelled) => rejected_form(alloc),
        Err(ProofError::OutOfMemory) => Err(AllocError),
    }
}

// The answer to a design behind the old document that is read.
fn renewed(
    alloc: Global,
    bytes: &[u8],
    old: &[u8],
    proof: &Proof,
    text: &[u8],
    budgets: Budgets,
) -> Result<Answer, AllocError>
    requires within { length bytes.now ≤ resume_limit }
    requires held { IsOld bytes.now old.now text.now }
    requires spells { Spells old.now proof.now }
    requires in_range { AreInRange budgets }
    ensures { IfOk result (λ answer. IsDue (variant.Resume budgets) bytes.now answer.status answer.bytes.items) }
{
    if text.len() > LIMIT {
        return refused(alloc, text, TOO_LONG);
    }
    match resume(alloc, proof, text, budgets) {
        Ok(Kept::All { proof }) => written(alloc, &proof, Status::Resumed),
        Ok(Kept::Open { report }) => {
            let command = Command::Resume { budgets };
            reported(alloc, &command, &report)
        }
        Err(refusal) => refused_by(alloc, text, refusal),
    }
}
