//! The problem of a case of a unit of a text.

ghost use Rattle.std.specs.Prelude.{◌<◌, IfOk, IfSome};
ghost use Rattle.smv_problem.specs.WellFormed.{IsProblem};
ghost use Rattle.smv_plan_reports.specs.Rooms.{IsWholePlan};

use smv_cases::calls::cases;
use smv_chosen_table::chosen_defs;
use smv_core::Refusal;
use smv_obligations::problem;
use smv_plan_reports::units::numbers_of;
use smv_problem::{Plan, Problem};
use smv_read_design::{plans_of_valid_texts_are_whole, read_design};
use std::alloc::Global;

/// The plan of a text that is no longer than texts may be.
pub fn plan_of(alloc: Global, text: &str) -> Result<Plan, Refusal>
    ensures { IfOk result IsWholePlan }
{
    plans_of_valid_texts_are_whole();
    if text.len() > 1_048_576 {
        return Err(Refusal::OutOfMemory);
    }
    read_design(alloc, text.as_bytes())
}

/// The problem of a case of a unit, both by their places, or none where there is no such unit or case.
pub fn problem_at(
    alloc: Global,
    plan: &Plan,
    unit: usize,
    case: usize,
) -> Result<Option<Problem>, Refusal>
    requires { IsWholePlan plan.now }
    ensures { IfOk result (λ found. IfSome found IsProblem) }
{
    if unit >= plan.units.len() {
        return Ok(None);
    }
    let units = plan.units.as_slice();
    let leaf = &plan.leaves.as_slice()[unit];
    let choice = &plan.choices.as_slice()[unit];
    let timed = &plan.timed.as_slice()[unit];
    let numbers = numbers_of(alloc, &plan.design)?;
    let table = chosen_defs(alloc, &plan.design, units, choice.picks.as_slice())?;
    let cases = cases(alloc, &plan.design, units, leaf, choice)?;
    let Some(case) = cases.as_slice().get(case) else {
        return Ok(None);
    };
    let made = problem(
        alloc,
        &plan.design,
        units,
        numbers.names.as_slice(),
        numbers.set_names.as_slice(),
        leaf,
        case,
        choice,
        timed,
        table.as_slice(),
    )?;
    Ok(Some(made))
}

/// The same of a text.
pub fn posed(
    alloc: Global,
    text: &str,
    unit: usize,
    case: usize,
) -> Result<Option<Problem>, Refusal>
    ensures { IfOk result (λ found. IfSome found IsProblem) }
{
    let plan = plan_of(alloc, text)?;
    problem_at(alloc, &plan, unit, case)
}
