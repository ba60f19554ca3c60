//! The plan of a design, which is all that is proved of its text: `plan`, or its first fault of the rules of proof.
//!
//! For `smv_front`. Each part is made by a crate of its own; here only their order is decided. A reader begins with `specs/Plans`.
#![tactic(auto)]

ghost use Rattle.std.specs.Prelude.{◌≡◌, None, length, IfOk};
ghost use Rattle.law_obligations.specs.Units.{units_of};
ghost use Rattle.smv_mentions.specs.FirstFault.{first_of};
ghost use Rattle.smv_cases.specs.Faults.{cases_fault, Refuses};
ghost use Rattle.smv_plans.specs.Plans.{faults_of_cases, plan_fault, IsPlan};

pub mod units;

use crate::units::units;
use smv_cases::calls::cases;
use smv_choices::choices;
use smv_core::flat::{Choice, Design, Leaf, Unit};
use smv_core::{Fault, Refusal};
use smv_first_fault::faults::earlier;
use smv_problem::Plan;
use smv_split_faults::leaves;
use smv_use_times::order;
use std::alloc::{AllocError, Global};

// The fault of a leaf with too many parameters or cases.
fn case_fault(
    alloc: Global,
    design: &Design,
    units: &[Unit],
    leaf: &Leaf,
    choice: &Choice,
) -> Result<Option<Fault>, AllocError>
    requires { units.now ≡ units_of design.now }
    ensures { IfOk result (λ fault. fault ≡ cases_fault design.now leaf.now choice.now) }
{
    match cases(alloc, design, units, leaf, choice) {
        Ok(_) => Ok(None),
        Err(Refusal::Fault(fault)) => Ok(Some(fault)),
        Err(Refusal::OutOfMemory) => Err(AllocError),
    }
}

// The first of such faults.
fn first_case_fault(
    alloc: Global,
    design: &Design,
    units: &[Unit],
    leaves: &[Leaf],
    choices: &[Choice],
) -> Result<Option<Fault>, AllocError>
    requires units { units.now ≡ units_of design.now }
    requires choices { length choices.now ≡ length leaves.now }
    ensures { IfOk result (λ fault. fault ≡ first_of (faults_of_cases design.now leaves.now choices.now)) }
{
    let mut found = None;
    for place in 0..leaves.len() {
        let fault = case_fault(alloc, design, units, &leaves[place], &choices[place])?;
        found = earlier(found, fault);
    }
    Ok(found)
}

/// The plan of a design, or its first fault among 23 to 29: of its splits, or else of its uses, or else of the cases of its leaves.
#[tactic(auto, using(crate::proofs::PlanLaws::answers))]
pub fn plan(alloc: Global, design: Design) -> Result<Plan, Refusal>
    ensures plan { IfOk result (IsPlan design) }
    ensures refuses { Refuses (plan_fault design) result }
{
    let units = units(alloc, &design)?;
    let leaves = leaves(alloc, &design, units.as_slice())?;
    let choices = choices(alloc, &design, units.as_slice(), leaves.as_slice())?;
    let fault = first_case_fault(
        alloc,
        &design,
        units.as_slice(),
        leaves.as_slice(),
        choices.as_slice(),
    )?;
    if let Some(fault) = fault {
        return Err(Refusal::Fault(fault));
    }
    let timed = order(
        alloc,
        &design,
        units.as_slice(),
        leaves.as_slice(),
        choices.as_slice(),
    )?;
    Ok(Plan {
        design,
        units,
        leaves,
        choices,
        timed,
    })
}
