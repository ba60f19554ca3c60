// The cases of a leaf, in order.
ghost use Rattle.std.specs.Prelude.{◌≡◌, ◌≤◌, IfOk};
ghost use Rattle.law_reports.specs.Told.{IsToldBy};
ghost use Rattle.smv_obligations.specs.Shared.{IsShared};
ghost use Rattle.smv_decide.specs.Leaves.{AreCases, classes_in, verdict_at};
ghost use Rattle.smv_decide.specs.Tasks.{IsTask, case_in};

use crate::tasks::Task;
use crate::{Decision, decide_case};
use smv_bits::Bits;
use smv_core::Seq;
use smv_core::flat::Case;
use smv_obligations::Shared;
use smv_problem::{Budgets, Verdict};
use std::alloc::{AllocError, Global};

/// The verdict of a leaf. What the problems of all cases of the design have in common is given back with it.
#[derive(Drop)]
pub struct Told {
    pub verdict: Verdict,
    pub shared: Shared,
}

/// Decides cases of a leaf in order, up to the first that is not true. The store of each is given back before the next one's is made; what all cases of the design
/// have in common is moved in, from case to case, and given back.
pub fn decide_cases(
    alloc: Global,
    shared: Shared,
    task: &Task,
    cases: &[Case],
    bits: Bits,
    budgets: Budgets,
) -> Result<Told, AllocError>
    requires shared { IsShared task.now.design.now shared }
    requires task { IsTask task.now }
    requires cases { AreCases task.now.design.now task.now.leaf.now task.now.choice.now cases.now }
    requires steps { 1 ≤ budgets.steps }
    ensures told { IfOk result (λ told. IsToldBy (case_in task.now) bits budgets.nodes budgets.steps (classes_in cases.now) told.verdict) }
    ensures shared { IfOk result (λ told. IsShared task.now.design.now told.shared) }
{
    let mut common = shared;
    for case in cases {
        let decided = decide_case(alloc, common, task, case, bits, budgets)?;
        common = decided.shared;
        let verdict = verdict_at(alloc, case, decided.decision)?;
        match verdict {
            None => {}
            Some(verdict) => {
                return Ok(Told {
                    verdict,
                    shared: common,
                });
            }
        }
    }
    Ok(Told {
        verdict: Verdict::True,
        shared: common,
    })
}

/// The verdict of a leaf whose first case that is not true is this one, by its decision; none where the case is true.
pub fn verdict_at(
    alloc: Global,
    case: &Case,
    decision: Decision,
) -> Result<Option<Verdict>, AllocError>
    ensures { IfOk result (λ verdict. verdict ≡ verdict_at case.now decision) }
{
    match decision {
        Decision::True => Ok(None),
        Decision::False { elements, path } => {
            let case = copied(alloc, case)?;
            Ok(Some(Verdict::False {
                case,
                elements,
                path,
            }))
        }
        Decision::UnknownNodes { count } => {
            let case = copied(alloc, case)?;
            Ok(Some(Verdict::UnknownNodes { case, count }))
        }
        Decision::UnknownSteps => {
            let case = copied(alloc, case)?;
            Ok(Some(Verdict::UnknownSteps { case }))
        }
    }
}

// The same case.
fn copied(alloc: Global, case: &Case) -> Result<Case, AllocError>
    ensures { IfOk result (λ copy. copy ≡ case.now) }
{
    let classes = Vec::from_slice(alloc, case.classes.as_slice())?;
    Ok(Case {
        classes: Seq::from_vec(classes),
    })
}
