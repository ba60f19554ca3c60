// The answers to what is asked of circuits.
ghost use Rattle.std.specs.Prelude.{◌≡◌, ◌<◌, ◌≤◌, length, IfOk};
ghost use Rattle.law_answers.specs.Dues.{limit};
ghost use Rattle.law_valid_texts.specs.Rooms.{IsWholePlan};
ghost use Rattle.smv_look_command.specs.declared.queries.Query.TheVariants as variant;
ghost use Rattle.smv_read_design.specs.Answers.{HasPlan};
ghost use Rattle.smv_look_run.specs.Dues.{IsDue};
ghost use Rattle.smv_look_run.specs.Models.{IsModelledAt, model_status, model_text};

use crate::Status;
use crate::answers::{Answer, refused};
use smv_core::flat::{Design, Unit};
use smv_core::{Fault, Name};
use smv_look_aiger::{Model, model_at};
use smv_look_command::Query;
use smv_look_lines::count_line;
use smv_problem::Plan;
use smv_read_design::place_named;
use std::alloc::{AllocError, Global};

/// The circuit of the case of a number of the unit of a name.
pub(crate) fn modelled(
    alloc: Global,
    query: &Query,
    text: &[u8],
    plan: &Plan,
    name: &Name,
    case: usize,
) -> Result<Answer, AllocError>
    requires short { length text.now ≤ limit }
    requires asks { query.now ≡ variant.Aiger name.now case }
    requires plan { HasPlan text.now plan.now }
    requires whole { IsWholePlan plan.now }
    ensures { IfOk result (λ answer. IsDue query.now text.now answer.status answer.bytes.items) }
{
    let place = place_named(alloc, &plan.design, plan.units.as_slice(), name.as_bytes())?;
    match place {
        Some(u) => modelled_at(alloc, plan, u, case),
        None => refused(alloc, query, text, Fault { number: 26, at: 0 }),
    }
}

// That of the unit at a place of a plan.
fn modelled_at(alloc: Global, plan: &Plan, u: usize, number: usize) -> Result<Answer, AllocError>
    requires whole { IsWholePlan plan.now }
    requires there { u < length plan.now.units }
    ensures { IfOk result (λ answer. IsModelledAt plan.now u number answer.status answer.bytes.items) }
{
    let unit = plan.units.as_slice()[u];
    let model = model_at(alloc, plan, u, number)?;
    let answer = told_of(alloc, &plan.design, unit, model)?;
    Ok(answer)
}

// What is told of a circuit.
fn told_of(alloc: Global, design: &Design, unit: Unit, model: Model) -> Result<Answer, AllocError>
    ensures status { IfOk result (λ answer. answer.status ≡ model_status model) }
    ensures bytes { IfOk result (λ answer. answer.bytes.items ≡ model_text design.now unit model) }
{
    match model {
        Model::File { bytes } => {
            let status = Status::Written;
            Ok(Answer { status, bytes })
        }
        Model::NoCase { count } => {
            let bytes = count_line(alloc, design, unit, count)?;
            let status = Status::NoCase;
            Ok(Answer { status, bytes })
        }
    }
}
