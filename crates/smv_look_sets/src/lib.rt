//! The sets of the cases of one unit, or of one case of it, that a proof document has: of each case that is asked for the set that closes its search, or what is told of the cases where not all of them are true.
//!
//! For the look at a design. `sets_at` seeks the sets, from a plan and the place of a unit in it; `sought_lines` writes them as a document has them. `specs/Sought` says what is found, by the cases and the sets of
//! `law_checked_proofs`; `cases` has the cases that are asked for tried, `lines` writes.
#![tactic(auto)]

ghost use Rattle.std.specs.Prelude.{◌≡◌, ◌≤◌, ◌<◌, Some, length, slice_get, IfOk};
ghost use Rattle.law_obligations.specs.Outlines.{Entry};
ghost use Rattle.law_obligations.specs.Units.{script_of};
ghost use Rattle.law_valid_texts.specs.Rooms.{IsWholePlan};
ghost use Rattle.law_checked_proofs.specs.Cases.{cases_at};
ghost use Rattle.smv_look_sets.specs.Sought.{IsSought};

mod cases;
mod lines;
mod sought;

use cases::seek;
pub use lines::{front_lines, sought_lines};
use smv_chosen_table::chosen_defs;
use smv_decide::tasks::Task;
use smv_plan_reports::units::common_of;
use smv_problem::{Budgets, Plan};
use smv_splits::names::unit_name;
pub use sought::Sought;
use std::alloc::{AllocError, Global};

/// What is found of the cases of the unit at a place of a plan, or of its case of this number, from 1 on, under budgets of nodes and of images: over the declared bits, as in a document.
pub fn sets_at(
    alloc: Global,
    plan: &Plan,
    u: usize,
    case: Option<usize>,
    budgets: Budgets,
) -> Result<Sought, AllocError>
    requires plan { IsWholePlan plan.now }
    requires there { u < length plan.now.units }
    requires steps { 1 ≤ budgets.steps }
    ensures { IfOk result (λ sought. (entry : Entry) → slice_get (script_of plan.now.design plan.now.leaves plan.now.choices).entries u ≡ Some entry → IsSought budgets.nodes budgets.steps (cases_at (script_of plan.now.design plan.now.leaves plan.now.choices) u entry) case sought) }
{
    let units = plan.units.as_slice();
    let leaf = &plan.leaves.as_slice()[u];
    let choice = &plan.choices.as_slice()[u];
    let timed = &plan.timed.as_slice()[u];
    let name = unit_name(alloc, &plan.design, units[u])?;
    let table = chosen_defs(alloc, &plan.design, units, choice.picks.as_slice())?;
    let common = common_of(alloc, &plan.design)?;
    let task = Task {
        design: &plan.design,
        units,
        leaf,
        choice,
        timed,
        table: table.as_slice(),
    };
    let sought = seek(alloc, common, &task, &name, case, budgets)?;
    Ok(sought)
}
