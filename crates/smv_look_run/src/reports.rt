// What is decided of a text without a fault.
ghost use Rattle.std.specs.Prelude.{◌≡◌, IfOk};
ghost use Rattle.law_valid_texts.specs.Rooms.{IsWholePlan};
ghost use Rattle.smv_look_command.specs.declared.queries.Query.TheVariants as variant;
ghost use Rattle.smv_read_design.specs.Answers.{HasPlan};
ghost use Rattle.smv_look_run.specs.Dues.{IsDue, report_status};

use crate::Status;
use crate::answers::Answer;
use smv_bits::Bits;
use smv_look_command::Query;
use smv_look_reports::{allowed_by_all, are_all_true, explain_lines, right_results_have_cases};
use smv_plan_reports::units::results;
use smv_problem::{Budgets, Plan};
use std::alloc::{AllocError, Global};

// The status under which the lines of a report are written.
fn report_status(are_all_true: bool) -> Status
    ensures { result ≡ report_status are_all_true }
{
    if are_all_true {
        Status::Written
    } else {
        Status::Warned
    }
}

/// What is decided of the units of a text without a fault, and what each verdict is about.
pub(crate) fn reported(
    alloc: Global,
    query: &Query,
    text: &[u8],
    plan: &Plan,
) -> Result<Answer, AllocError>
    requires asks { query.now ≡ variant.Explain }
    requires plan { HasPlan text.now plan.now }
    requires whole { IsWholePlan plan.now }
    ensures { IfOk result (λ answer. IsDue query.now text.now answer.status answer.bytes.items) }
{
    right_results_have_cases();
    // Those of `prove`, where its words name none.
    let budgets = Budgets {
        nodes: 1_000_000,
        steps: 1_000,
    };
    let decided = results(alloc, plan, Bits::Near, budgets)?;
    let told = decided.as_slice();
    let allowed = allowed_by_all(alloc, plan, told)?;
    let bytes = explain_lines(alloc, plan, told, allowed.as_slice())?;
    let status = report_status(are_all_true(told));
    Ok(Answer { status, bytes })
}
