//! The check of a proof document: its design has no fault, and the sets that it has are those of all cases of all units, in order, each of which meets the four conditions of induction.
//!
//! For the top call. What is answered of which bytes is said in `law_judgements`, that a yes makes the design sound is proved there; `specs/Answers` turns an answer into a judgement. `units` goes through the units of
//! the design's plan and `cases` through the cases of each, with the sets beside them; `specs/Progress` says how far they came. Nothing here searches, so no budget is taken.
#![tactic(auto)]

ghost use Rattle.std.specs.Prelude.{◌≡◌, ◌≤◌, true, length, IfSome};
ghost use Rattle.smv_proof.specs.Documents.{most, is_proof, document};
ghost use Rattle.law_judgements.specs.Judgements.{IsJudged};
ghost use Rattle.smv_check.specs.Answers.{judgement_of};

mod answers;
mod cases;
mod errors;
mod units;

use answers::answer;
pub use errors::CheckError;
use smv_core::{Fault, Refusal};
use smv_proof::{Proof, ProofError};
use smv_proof_read::read_proof;
use smv_read_design::{plans_of_valid_texts_are_whole, read_design};
use std::alloc::Global;

/// How many sets a proof document has that is a checked one, or why it is none.
pub fn check(alloc: Global, bytes: &[u8]) -> Result<u32, CheckError>
    requires { length bytes.now ≤ most }
    ensures { IfSome (judgement_of result) (IsJudged bytes.now) }
{
    match read_proof(alloc, bytes) {
        Ok(proof) => check_proof(alloc, &proof),
        Err(ProofError::NotSpelled) => Err(CheckError::Form),
        Err(ProofError::OutOfMemory) => Err(CheckError::OutOfMemory),
    }
}

/// The same of a document that is read already.
pub fn check_proof(alloc: Global, proof: &Proof) -> Result<u32, CheckError>
    requires proof { is_proof proof.now ≡ true }
    requires few { length proof.now.sets ≤ most }
    ensures { IfSome (judgement_of result) (IsJudged (document proof.now)) }
{
    plans_of_valid_texts_are_whole();
    let design = proof.design.as_slice();
    if design.len() > 1_048_576 {
        return Err(CheckError::Design {
            fault: Fault { number: 31, at: 0 },
        });
    }
    match read_design(alloc, design) {
        Ok(plan) => answer(alloc, &plan, proof.sets.as_slice()),
        Err(Refusal::Fault(fault)) => Err(CheckError::Design { fault }),
        Err(Refusal::OutOfMemory) => Err(CheckError::OutOfMemory),
    }
}
