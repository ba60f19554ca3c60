// The plan of a text, from its bytes on, or its first fault of all passes.
ghost use Rattle.std.specs.Prelude.{◌≡◌, ◌≤◌, IfOk, length};
ghost use Rattle.smv_lex.specs.Answers.{IfFault};
ghost use Rattle.smv_typing.specs.Answers.{IsSpelled};
ghost use Rattle.smv_cases.specs.Faults.{Refuses};
ghost use Rattle.smv_front.specs.Plans.{IsPlan};
ghost use Rattle.smv_front.specs.TextFault.{text_fault};
ghost use Rattle.law_valid_texts.specs.Joined.{flat_design};
ghost use Rattle.law_valid_texts.specs.Faults.{pass_fault};
ghost use Rattle.law_answers.specs.Dues.{limit};
ghost use Rattle.smv_read_design.specs.Answers.{HasPlan, IsFaultOf};

use crate::read_plans::{plans_are_of_texts, read_texts_are_faultless, widths_are_last};
use crate::width_fault;
use law_valid_texts::parts_of_texts::{leaves_are_parts, leaves_have_few_cases};
use smv_core::tree::Text;
use smv_core::{Fault, Refusal};
use smv_front::read_plan;
use smv_parse::parse;
use smv_problem::Plan;
use std::alloc::{AllocError, Global};

// The first case with too many state bits of a plan.
#[tactic(auto, using(crate::proofs::ReadLaws::of_plans))]
fn plan_fault(alloc: Global, text: &Text, plan: &Plan) -> Result<Option<Fault>, AllocError>
    requires spelled { IsSpelled text.now }
    requires faultless { text_fault text.now ≡ None }
    requires plan { IsPlan (flat_design text.now) plan.now }
    ensures { IfOk result (λ fault. fault ≡ pass_fault text.now) }
{
    widths_are_last();
    read_texts_are_faultless();
    plans_are_of_texts();
    leaves_are_parts();
    leaves_have_few_cases();
    width_fault(
        alloc,
        &plan.design,
        plan.units.as_slice(),
        plan.leaves.as_slice(),
        plan.choices.as_slice(),
    )
}

// The plan of a text that is spelled, or its first fault.
#[tactic(auto, using(crate::proofs::ReadLaws::earlier_refuses))]
fn spelled_plan(alloc: Global, text: &Text) -> Result<Plan, Refusal>
    requires { IsSpelled text.now }
    ensures plan { IfOk result (IsPlan (flat_design text.now)) }
    ensures refuses { Refuses (pass_fault text.now) result }
{
    widths_are_last();
    match read_plan(alloc, text) {
        Ok(plan) => match plan_fault(alloc, text, &plan)? {
            Some(fault) => Err(Refusal::Fault(fault)),
            None => Ok(plan),
        },
        Err(refusal) => Err(refusal),
    }
}

/// What the passes make of a text of at most 2^20 bytes, or its first fault: of its form, or else that of the earliest pass that finds one.
#[tactic(auto, using(crate::proofs::ReadLaws::of_texts))]
pub fn read_design(alloc: Global, text: &[u8]) -> Result<Plan, Refusal>
    requires { length text.now ≤ limit }
    ensures plan { IfOk result (HasPlan text.now) }
    ensures fault { IfFault result (IsFaultOf text.now) }
{
    match parse(alloc, text) {
        Ok(tree) => spelled_plan(alloc, &tree),
        Err(refusal) => Err(refusal),
    }
}
