// The circuit of a case of a task.
ghost use Rattle.std.specs.Prelude.{◌≡◌, None, IfOk};
ghost use Rattle.law_obligations.specs.LeafCases.{leaf_cases};
ghost use Rattle.law_problems.specs.Parts.{IsCaseOf, width_fault};
ghost use Rattle.law_valid_texts.specs.Rooms.{HasRoom};
ghost use Rattle.smv_obligations.specs.Shared.{IsShared};
ghost use Rattle.smv_problem.specs.WellFormed.{IsProblem, OfCases};
ghost use Rattle.smv_decide.specs.Leaves.{AreCases, classes_in};
ghost use Rattle.smv_decide.specs.Tasks.{IsTask, case_in};
ghost use Rattle.smv_look_aiger.specs.Models.{IsCircuitOf, IsFileOfCase, IsModel};

use crate::Model;
use crate::codes::push_codes;
use bdd_store::Store;
use smv_cases::calls::cases;
use smv_circuits::circuit_file;
use smv_core::flat::Case;
use smv_decide::tasks::Task;
use smv_decide::{problem_of, relations};
use smv_obligations::Shared;
use smv_problem::Problem;
use smv_readings::state_bits;
use std::alloc::{AllocError, Global};

/// The circuit of the case of a number of a leaf that has room.
pub(crate) fn model_of(
    alloc: Global,
    shared: Shared,
    task: &Task,
    number: usize,
) -> Result<Model, AllocError>
    requires shared { IsShared task.now.design.now shared }
    requires task { IsTask task.now }
    requires room { HasRoom task.now.design.now task.now.leaf.now task.now.choice.now }
    ensures { IfOk result (IsModel (case_in task.now) (leaf_cases task.now.design.now.sets task.now.leaf.now.params task.now.choice.now.keeps) number) }
{
    match cases(alloc, task.design, task.units, task.leaf, task.choice) {
        Ok(cases) => {
            let model = among(alloc, shared, task, cases.as_slice(), number)?;
            Ok(model)
        }
        Err(_) => Err(AllocError),
    }
}

// The same, among the cases of the leaf.
fn among(
    alloc: Global,
    shared: Shared,
    task: &Task,
    cases: &[Case],
    number: usize,
) -> Result<Model, AllocError>
    requires shared { IsShared task.now.design.now shared }
    requires task { IsTask task.now }
    requires cases { AreCases task.now.design.now task.now.leaf.now task.now.choice.now cases.now }
    ensures { IfOk result (IsModel (case_in task.now) (classes_in cases.now) number) }
{
    let place = number.saturating_sub(1);
    let count = cases.len();
    if place >= count {
        return Ok(Model::NoCase { count });
    }
    let bytes = file(alloc, shared, task, &cases[place])?;
    Ok(Model::File { bytes })
}

// The file of a case, with its comment.
fn file(alloc: Global, shared: Shared, task: &Task, case: &Case) -> Result<Vec<u8>, AllocError>
    requires shared { IsShared task.now.design.now shared }
    requires task { IsTask task.now }
    requires case { IsCaseOf task.now.design.now task.now.leaf.now task.now.choice.now case.now.classes }
    requires width { width_fault task.now.design.now task.now.leaf.now task.now.choice.now case.now.classes ≡ None }
    ensures { IfOk result (λ bytes. IsFileOfCase (case_in task.now case.now.classes) bytes.items) }
{
    let problem = problem_of(alloc, shared, task, case)?;
    let mut bytes = circuit_of(alloc, &problem)?;
    let params = task.leaf.params.as_slice();
    push_codes(alloc, &mut bytes, task.design, params, case, problem)?;
    Ok(bytes)
}

// The circuit of the lists of a problem.
fn circuit_of(alloc: Global, problem: &Problem) -> Result<Vec<u8>, AllocError>
    requires { IsProblem problem.now }
    ensures { IfOk result (λ bytes. OfCases problem.entry.now (λ c. IsCircuitOf c bytes.items)) }
{
    let bits = state_bits(problem);
    let mut store = Store::new(alloc, 2 * u32::from(bits))?;
    let rel = relations(alloc, problem, &mut store)?;
    let bytes = circuit_file(alloc, &rel, &store)?;
    Ok(bytes)
}
