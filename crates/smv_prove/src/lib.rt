//! What is decided of a text: `prove` reports all its units, `prove_one` the unit of a name. A text with a fault is refused with its first one.
//!
//! For the top call. What is right to report is said in `law_valid_texts/specs/Reports`, which fault is due in `law_answers/specs/Dues`. Here a plan is only handed on from the calls that read a text to those
//! that decide plans: `specs/Ready` says what it must be between them.
#![tactic(auto)]

ghost use Rattle.std.specs.Prelude.{◌≡◌, ◌≤◌, true, IfOk, Some, None, length};
ghost use Rattle.smv_read_design.specs.Dues.{IsFault, decides, limit};
ghost use Rattle.smv_plan_reports.specs.Reports.{IsRightReport, IsUnitReport, HasNoUnit};
ghost use Rattle.smv_command.specs.declared.commands.Command.{Command};
ghost use Rattle.smv_problem.specs.declared.report.Report.{Report};
ghost use Rattle.smv_lex.specs.Answers.{IfFault};
ghost use Rattle.smv_prove.specs.Ready.{IsReady};

use smv_bits::Bits;
use smv_core::Refusal;
use smv_plan_reports::{prove_plan, prove_unit};
use smv_problem::{Budgets, Plan, Report};
use smv_read_design::{place_named, plans_of_valid_texts_are_whole, read_design};
use std::alloc::Global;

/// A report of all units of a text, in flat order, or the text's first fault.
pub fn prove(alloc: Global, text: &[u8], bits: Bits, budgets: Budgets) -> Result<Report, Refusal>
    requires within { length text.now ≤ limit }
    requires steps { 1 ≤ budgets.steps }
    ensures report { IfOk result (IsRightReport text.now bits budgets.nodes budgets.steps) }
    ensures fault { IfFault result (λ fault. (command : Command) → decides command ≡ true → IsFault command text.now fault.number fault.at) }
{
    let plan = plan_of(alloc, text)?;
    let report = prove_plan(alloc, plan, bits, budgets)?;
    Ok(report)
}

/// A report of the first unit of this name alone, or none where the text has no such unit; or the text's first fault.
pub fn prove_one(
    alloc: Global,
    text: &[u8],
    name: &[u8],
    bits: Bits,
    budgets: Budgets,
) -> Result<Option<Report>, Refusal>
    requires within { length text.now ≤ limit }
    requires steps { 1 ≤ budgets.steps }
    ensures report { IfOk result (λ found. (report : Report) → found ≡ Some report → IsUnitReport text.now name.now bits budgets.nodes budgets.steps report) }
    ensures none { IfOk result (λ found. found ≡ None → HasNoUnit text.now name.now) }
    ensures fault { IfFault result (λ fault. (command : Command) → decides command ≡ true → IsFault command text.now fault.number fault.at) }
{
    let plan = plan_of(alloc, text)?;
    let place = place_named(alloc, &plan.design, plan.units.as_slice(), name)?;
    match place {
        Some(u) => {
            let report = prove_unit(alloc, plan, u, bits, budgets)?;
            Ok(Some(report))
        }
        None => Ok(None),
    }
}

/// The plan of a text, whole, or the text's first fault.
pub fn plan_of(alloc: Global, text: &[u8]) -> Result<Plan, Refusal>
    requires { length text.now ≤ limit }
    ensures plan { IfOk result (IsReady text.now) }
    ensures fault { IfFault result (λ fault. (command : Command) → decides command ≡ true → IsFault command text.now fault.number fault.at) }
{
    plans_of_valid_texts_are_whole();
    read_design(alloc, text)
}
