//! The plan of a text that is spelled, which is all that is proved of it, or its first fault, pass by pass.
//!
//! For `smv_top`. Each pass is a crate of its own; here only their order is decided, and the depths that the stack bears. A reader begins with `specs/TextFault`.
#![tactic(auto)]

ghost use Rattle.std.specs.Prelude.{◌≡◌, true, IfOk};
ghost use Rattle.law_designs.specs.FlatKinds.{is_kinded};
ghost use Rattle.law_designs.specs.FirstFault.{first_fault_of_design};
ghost use Rattle.law_designs.specs.Flattening.{flatten};
ghost use Rattle.law_designs.specs.Definitions.{design_of_flat_text};
ghost use Rattle.smv_typing.specs.Answers.{IsSpelled};
ghost use Rattle.smv_cases.specs.Faults.{Refuses};
ghost use Rattle.smv_mentions.specs.FirstFault.{or_else};
ghost use Rattle.smv_plans.specs.Plans.{plan_fault, IsPlan};
ghost use Rattle.smv_front.specs.TextFault as spec;

use crate::types::are_too_deep;
use smv_core::flat::{Design, FlatText};
use smv_core::tree::Text;
use smv_core::{Fault, Refusal};
use smv_design::design;
use smv_layers::layers::layer_fault;
use smv_loops::loops::loop_fault;
use smv_mentions::pieces::pieces;
use smv_names::first_fault;
use smv_plans::plan;
use smv_problem::Plan;
use smv_single_assignment::single_fault;
use smv_symmetric::symmetric_fault;
use smv_typing::kinds;
use std::alloc::{AllocError, Global};

mod types;

// The first fault of a design: of its loops, or else of its layers.
fn design_fault(alloc: Global, design: &Design) -> Result<Option<Fault>, AllocError>
    ensures { IfOk result (λ fault. fault ≡ first_fault_of_design design.now) }
{
    match loop_fault(alloc, design)? {
        Some(fault) => Ok(Some(fault)),
        None => Ok(layer_fault(design)),
    }
}

// The plan of a design, where its set types have no fault.
fn set_plan(alloc: Global, design: Design, of_sets: Option<Fault>) -> Result<Plan, Refusal>
    ensures plan { IfOk result (IsPlan design) }
    ensures refuses { Refuses (or_else of_sets (plan_fault design)) result }
{
    match of_sets {
        Some(fault) => Err(Refusal::Fault(fault)),
        None => plan(alloc, design),
    }
}

// The plan of a flattened text without a fault of single assignment, or its first fault: of its design, or else of its set types, or else of the rules of proof.
fn design_plan(alloc: Global, flat_text: FlatText) -> Result<Plan, Refusal>
    requires { is_kinded flat_text ≡ true }
    ensures plan { IfOk result (IsPlan (design_of_flat_text flat_text)) }
    ensures refuses { Refuses (spec.design_fault flat_text) result }
{
    let of_sets = symmetric_fault(alloc, &flat_text)?;
    let design = design(alloc, flat_text)?;
    match design_fault(alloc, &design)? {
        Some(fault) => Err(Refusal::Fault(fault)),
        None => set_plan(alloc, design, of_sets),
    }
}

// The plan of a flattened text, or its first fault: of single assignment, or else a later one.
fn flat_text_plan(alloc: Global, flat_text: FlatText) -> Result<Plan, Refusal>
    requires { is_kinded flat_text ≡ true }
    ensures plan { IfOk result (IsPlan (design_of_flat_text flat_text)) }
    ensures refuses { Refuses (spec.flat_text_fault flat_text) result }
{
    match single_fault(alloc, &flat_text)? {
        Some(fault) => Err(Refusal::Fault(fault)),
        None => design_plan(alloc, flat_text),
    }
}

/// The plan of a text that is spelled, or its first fault: of its names and then of its size, or else of its kinds, or else of its flattened text. A later pass
/// looks only at what the earlier ones found no fault in, and nothing is made twice. Want of memory also where statements stand more than 1,000 deep inside one
/// another, each arm of a `switch` inside the one before, or where a chain of types, each inside the one before and each name around what it names, is longer than
/// 10,000: the walks over them would want more stack than there may be.
#[tactic(auto, using(crate::proofs::FaultLaws::text_answers))]
pub fn read_plan(alloc: Global, text: &Text) -> Result<Plan, Refusal>
    requires { IsSpelled text.now }
    ensures plan { IfOk result (IsPlan (design_of_flat_text (flatten text.now))) }
    ensures refuses { Refuses (spec.text_fault text.now) result }
{
    if are_too_deep(alloc, text)? {
        return Err(Refusal::OutOfMemory);
    }
    let pieces = pieces(alloc, text)?;
    match first_fault(alloc, text, &pieces)? {
        Some(fault) => Err(Refusal::Fault(fault)),
        None => {
            let typed = kinds(alloc, text, &pieces)?;
            flat_text_plan(alloc, typed.into_raw())
        }
    }
}
