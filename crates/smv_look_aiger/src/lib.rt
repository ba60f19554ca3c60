//! A case of a unit as a circuit, in the binary form of AIGER, for model checkers that know nothing of this language.
//!
//! For the look at a design. `model_at` makes the file of a case's lists, from a plan and the place of the unit in it (`specs/Models`; `smv_circuits` has the circuit), with a comment that says what the codes of the
//! bits mean. Nothing here is trusted: a set that another engine finds is judged by whoever checks documents. `tasks` has the case, `codes` the comment.
#![tactic(auto)]

ghost use Rattle.std.specs.Prelude.{◌<◌, length, IfOk};
ghost use Rattle.law_valid_texts.specs.Rooms.{IsWholePlan};
ghost use Rattle.smv_look_aiger.specs.Models.{IsModelAt};

mod codes;
mod models;
mod tasks;

pub use models::Model;
use smv_chosen_table::chosen_defs;
use smv_decide::tasks::Task;
use smv_plan_reports::units::common_of;
use smv_problem::Plan;
use std::alloc::{AllocError, Global};
use tasks::model_of;

/// The circuit of the case of a number, from 1 on, of the unit at a place of a plan.
pub fn model_at(alloc: Global, plan: &Plan, u: usize, number: usize) -> Result<Model, AllocError>
    requires plan { IsWholePlan plan.now }
    requires there { u < length plan.now.units }
    ensures { IfOk result (IsModelAt plan.now u number) }
{
    let units = plan.units.as_slice();
    let leaf = &plan.leaves.as_slice()[u];
    let choice = &plan.choices.as_slice()[u];
    let timed = &plan.timed.as_slice()[u];
    let table = chosen_defs(alloc, &plan.design, units, choice.picks.as_slice())?;
    let common = common_of(alloc, &plan.design)?;
    let task = Task {
        design: &plan.design,
        units,
        leaf,
        choice,
        timed,
        table: table.as_slice(),
    };
    let model = model_of(alloc, common, &task, number)?;
    Ok(model)
}
