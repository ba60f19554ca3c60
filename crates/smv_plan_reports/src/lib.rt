//! What is decided of the units of a plan, leaf by leaf: `prove_plan` gives a result for each unit in flat order, `prove_unit` that of one unit alone.
//!
//! For the calls that prove a text. `leaf` decides one leaf by its cases, `units` makes a unit's result. What a plan must be is said in `law_valid_texts` (`specs/Rooms`), that a report is right in
//! `law_reports`. What is made once for a design (what its problems have in common, the table of its base definitions) goes from unit to unit, so a unit costs what its own cases and picks are.
#![tactic(auto)]

ghost use Rattle.std.specs.Prelude.{◌≡◌, ◌≤◌, ◌<◌, Some, length, slice_get, IfOk};
ghost use Rattle.law_obligations.specs.Outlines.{Entry};
ghost use Rattle.law_obligations.specs.Units.{script_of};
ghost use Rattle.law_reports.specs.Reports.{IsReportOf};
ghost use Rattle.law_valid_texts.specs.Reports.{IsReportOfUnit};
ghost use Rattle.law_valid_texts.specs.Rooms.{IsWholePlan};

pub mod leaf;
pub mod units;

use smv_bits::Bits;
use smv_core::Seq;
pub use smv_decide::relations;
use smv_problem::{Budgets, Plan, Report};
use std::alloc::{AllocError, Global};
use units::{result_alone, results};

/// What is decided of the units of a plan: one result for each, in flat order, with the verdict over bits that stand so, under these budgets.
pub fn prove_plan(
    alloc: Global,
    plan: Plan,
    bits: Bits,
    budgets: Budgets,
) -> Result<Report, AllocError>
    requires plan { IsWholePlan plan }
    requires steps { 1 ≤ budgets.steps }
    ensures { IfOk result (λ report. IsReportOf (script_of plan.design plan.leaves plan.choices) bits budgets.nodes budgets.steps report) }
{
    let units = results(alloc, &plan, bits, budgets)?;
    Ok(Report {
        design: plan.design,
        units,
    })
}

/// What is decided of the unit at a place of a plan, alone.
pub fn prove_unit(
    alloc: Global,
    plan: Plan,
    u: usize,
    bits: Bits,
    budgets: Budgets,
) -> Result<Report, AllocError>
    requires plan { IsWholePlan plan }
    requires there { u < length plan.units }
    requires steps { 1 ≤ budgets.steps }
    ensures { IfOk result (λ report. (entry : Entry) → slice_get (script_of plan.design plan.leaves plan.choices).entries u ≡ Some entry → IsReportOfUnit (script_of plan.design plan.leaves plan.choices) bits budgets.nodes budgets.steps u entry report) }
{
    let unit = result_alone(alloc, &plan, u, bits, budgets)?;
    let mut units = Seq::new(alloc);
    units.push(unit)?;
    Ok(Report {
        design: plan.design,
        units,
    })
}
