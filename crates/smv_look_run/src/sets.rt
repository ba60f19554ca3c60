// The answers to what is asked of sets, and of what stands before them in a document.
ghost use Rattle.std.specs.Prelude.{◌≡◌, ◌<◌, ◌≤◌, length, IfOk};
ghost use Rattle.law_answers.specs.Dues.{limit};
ghost use Rattle.law_valid_texts.specs.Rooms.{IsWholePlan};
ghost use Rattle.smv_look_command.specs.declared.queries.Query.TheVariants as variant;
ghost use Rattle.smv_read_design.specs.Answers.{HasPlan};
ghost use Rattle.smv_look_run.specs.Dues.{IsDue};
ghost use Rattle.smv_look_run.specs.Sets.{AreSetsAt, sought_status, verdict_status};

use crate::Status;
use crate::answers::{Answer, refused};
use smv_core::{Fault, Name};
use smv_look_command::Query;
use smv_look_sets::{Sought, front_lines, sets_at, sought_lines};
use smv_problem::{Budgets, Plan, Verdict};
use smv_read_design::place_named;
use std::alloc::{AllocError, Global};

/// The sets of the unit of a name, or of its case of a number.
pub(crate) fn sought(
    alloc: Global,
    query: &Query,
    text: &[u8],
    plan: &Plan,
    name: &Name,
    case: Option<usize>,
    budgets: Budgets,
) -> Result<Answer, AllocError>
    requires short { length text.now ≤ limit }
    requires asks { query.now ≡ variant.Sets name.now case budgets }
    requires plan { HasPlan text.now plan.now }
    requires whole { IsWholePlan plan.now }
    requires steps { 1 ≤ budgets.steps }
    ensures { IfOk result (λ answer. IsDue query.now text.now answer.status answer.bytes.items) }
{
    let place = place_named(alloc, &plan.design, plan.units.as_slice(), name.as_bytes())?;
    match place {
        Some(u) => sought_at(alloc, plan, u, case, budgets),
        None => refused(alloc, query, text, Fault { number: 26, at: 0 }),
    }
}

// The sets of the unit at a place of a plan, or of its case of a number.
fn sought_at(
    alloc: Global,
    plan: &Plan,
    u: usize,
    case: Option<usize>,
    budgets: Budgets,
) -> Result<Answer, AllocError>
    requires whole { IsWholePlan plan.now }
    requires there { u < length plan.now.units }
    requires steps { 1 ≤ budgets.steps }
    ensures { IfOk result (λ answer. AreSetsAt plan.now u case budgets answer.status answer.bytes.items) }
{
    let sought = sets_at(alloc, plan, u, case, budgets)?;
    let status = sought_status(&sought);
    let bytes = sought_lines(alloc, plan, u, sought)?;
    Ok(Answer { status, bytes })
}

// The status under which it is told what is found.
fn sought_status(sought: &Sought) -> Status
    ensures { result ≡ sought_status sought.now }
{
    match sought {
        Sought::Sets { sets: _ } => Status::Written,
        Sought::Open { verdict } => verdict_status(verdict),
        Sought::NoCase { count: _ } => Status::NoCase,
    }
}

// That of a verdict.
fn verdict_status(verdict: &Verdict) -> Status
    ensures { result ≡ verdict_status verdict.now }
{
    match verdict {
        Verdict::True => Status::Written,
        Verdict::False {
            case: _,
            elements: _,
            path: _,
        } => Status::SomeFalse,
        Verdict::UnknownNodes { case: _, count: _ } => Status::SomeUnknown,
        Verdict::UnknownSteps { case: _ } => Status::SomeUnknown,
    }
}

/// What stands before the sets in the document of a text.
pub(crate) fn fronted(
    alloc: Global,
    query: &Query,
    text: &[u8],
    plan: &Plan,
) -> Result<Answer, AllocError>
    requires asks { query.now ≡ variant.Front }
    requires plan { HasPlan text.now plan.now }
    ensures { IfOk result (λ answer. IsDue query.now text.now answer.status answer.bytes.items) }
{
    let _ = plan;
    let bytes = front_lines(alloc, text)?;
    let status = Status::Written;
    Ok(Answer { status, bytes })
}
