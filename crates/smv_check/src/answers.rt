// What is answered of sets beside the cases of a plan.
ghost use Rattle.std.specs.Prelude.{◌≡◌, ◌≤◌, true, List, length};
ghost use Rattle.std.specs.List.{list_all};
ghost use Rattle.law_obligations.specs.Units.{script_of};
ghost use Rattle.law_valid_texts.specs.Rooms.{IsWholePlan};
ghost use Rattle.smv_proof.specs.Documents.{most, is_set};
ghost use Rattle.law_checked_proofs.specs.Cases.{UnitCase, unit_cases};
ghost use Rattle.smv_check.specs.Progress.{HasPassed};
ghost use Rattle.smv_check.specs.Answers.{IsAnswer};

use crate::errors::CheckError;
use crate::units::{Progress, look_at_units};
use smv_problem::Plan;
use smv_proof::KeptSet;
use std::alloc::Global;

/// How many sets there are, if each case of the plan has one that meets the four conditions of induction, or why they do not stand.
pub(crate) fn answer(alloc: Global, plan: &Plan, sets: &[KeptSet]) -> Result<u32, CheckError>
    requires plan { IsWholePlan plan.now }
    requires sets { list_all is_set sets.now ≡ true }
    requires few { length sets.now ≤ most }
    ensures { IsAnswer (unit_cases (script_of plan.now.design plan.now.leaves plan.now.choices)) sets.now result }
{
    let looked = look_at_units(alloc, plan, sets)?;
    match looked {
        Some(progress) => at_end(progress, sets),
        None => Err(CheckError::Form),
    }
}

// What is answered where all cases are looked at.
fn at_end(progress: Progress, sets: &[KeptSet]) -> Result<u32, CheckError>
    ensures { (cases : List UnitCase) → HasPassed cases sets.now progress → IsAnswer cases sets.now result }
{
    if (progress.looked as usize) < sets.len() {
        return Err(CheckError::Form);
    }
    match progress.failed {
        Some(number) => Err(CheckError::Set { number }),
        None => Ok(progress.looked),
    }
}
