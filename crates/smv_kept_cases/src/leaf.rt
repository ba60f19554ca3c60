// The cases of a leaf, in order.
ghost use Rattle.std.specs.Prelude.{◌≡◌, ◌≤◌, length, IfOk};
ghost use Rattle.smv_obligations.specs.Shared.{IsShared};
ghost use Rattle.smv_decide.specs.Leaves.{AreCases, classes_in};
ghost use Rattle.smv_decide.specs.Tasks.{IsTask, case_in};
ghost use Rattle.law_checked_proofs.specs.Cases.{cases_from};
ghost use Rattle.smv_kept_cases.specs.OldSets.{IsOld};
ghost use Rattle.smv_kept_cases.specs.Tried.{IsLeafTried};

use crate::cases::{Place, Tried, try_case};
use crate::old_sets::OldSets;
use smv_core::flat::Case;
use smv_core::{Name, Seq};
use smv_decide::tasks::Task;
use smv_obligations::Shared;
use smv_problem::{Budgets, Verdict};
use smv_proof::KeptSet;
use std::alloc::{AllocError, Global};

/// The verdict of a leaf, and the sets that are kept of its cases, in order, up to the first that is not true. What the problems of all cases of the design have in common
/// is given back with it.
#[derive(Drop)]
pub struct TriedLeaf {
    pub verdict: Verdict,
    pub sets: Seq<KeptSet>,
    pub shared: Shared,
}

/// What the cases of a leaf come to, in order, up to the first that is not true. What the problems of all cases of the design have in common is moved in, and given back.
pub fn try_cases(
    alloc: Global,
    shared: Shared,
    task: &Task,
    unit: &Name,
    cases: &[Case],
    old: &OldSets,
    budgets: Budgets,
) -> Result<TriedLeaf, AllocError>
    requires shared { IsShared task.now.design.now shared }
    requires task { IsTask task.now }
    requires cases { AreCases task.now.design.now task.now.leaf.now task.now.choice.now cases.now }
    requires few { length cases.now ≤ 4096 }
    requires old { IsOld old.now }
    requires steps { 1 ≤ budgets.steps }
    ensures tried { IfOk result (λ done. IsLeafTried old.now.sets.now budgets.nodes budgets.steps (cases_from unit.now (case_in task.now) 0 (classes_in cases.now)) done.verdict done.sets) }
    ensures shared { IfOk result (λ done. IsShared task.now.design.now done.shared) }
{
    let mut common = shared;
    let mut sets = Seq::new(alloc);
    for k in 0..cases.len() {
        let place = Place {
            unit,
            number: k as u32,
            case: &cases[k],
        };
        let found = old.find(unit, place.number);
        let done = try_case(alloc, common, task, place, found, budgets)?;
        common = done.shared;
        let tried = done.tried;
        match tried {
            Tried::True { set } => sets.push(set)?,
            Tried::Open { verdict } => {
                return Ok(TriedLeaf {
                    verdict,
                    sets,
                    shared: common,
                });
            }
        }
    }
    Ok(TriedLeaf {
        verdict: Verdict::True,
        sets,
        shared: common,
    })
}
