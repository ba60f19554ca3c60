// One case: by its old set where that still serves, and else by a search.
ghost use Rattle.std.specs.Prelude.{◌≡◌, ◌≤◌, ◌↔◌, true, Some, None, IfOk, IsTrue, option_copied};
ghost use Rattle.smv_rings.specs.Lists.{IsRel, lists_of};
ghost use Rattle.law_reports.specs.CaseLists.{IsListsOf};
ghost use Rattle.smv_problem.specs.WellFormed.{IsProblem, OfCases};
ghost use Rattle.law_problems.specs.Parts.{IsCaseOf, width_fault};
ghost use Rattle.smv_obligations.specs.Shared.{IsShared, shared_in};
ghost use Rattle.smv_decide.specs.Tasks.{IsTask, case_in};
ghost use Rattle.smv_proof.specs.Documents.{is_set};
ghost use Rattle.smv_proof.specs.declared.proof.KeptSet.{KeptSet};
ghost use Rattle.smv_kept_cases.specs.Tried.{ServesFor, closed_in, IsSearched, IsTried, case_at_place};

use bdd_store::{Ref, Store};
use smv_copies::copy_name;
use smv_core::flat::Case;
use smv_core::{Name, Seq};
use smv_decide::leaves::verdict_at;
use smv_decide::room::relations_in_room;
use smv_decide::tasks::Task;
use smv_decide::{problem_of, tell};
use smv_meets::{is_over, meets};
use smv_obligations::{Shared, taken_back};
use smv_problem::{Budgets, Problem, Verdict};
use smv_proof::KeptSet;
use smv_proof_take::take;
use smv_readings::state_bits;
use smv_rings::Rel;
use smv_search::{Outcome, search};
use std::alloc::{AllocError, Global};

/// A case of a unit, with the name of the unit and the number of the case.
#[derive(Clone, Copy)]
pub(crate) struct Place<'a> {
    pub unit: &'a Name,
    pub number: u32,
    pub case: &'a Case,
}

/// What a case comes to: it is true, and this set is kept of it; or it is not, and this is what is told of its unit.
#[derive(Drop)]
pub(crate) enum Tried {
    True { set: KeptSet },
    Open { verdict: Verdict },
}

/// What a case comes to. What the problems of all cases of the design have in common is given back with it.
#[derive(Drop)]
pub(crate) struct TriedCase {
    pub tried: Tried,
    pub shared: Shared,
}

// Whether a set still serves.
fn serves(alloc: Global, problem: &Problem, set: &KeptSet) -> Result<bool, AllocError>
    requires problem { IsProblem problem.now }
    requires set { is_set set.now ≡ true }
    ensures { IfOk result (λ x. OfCases problem.entry.now (λ c. IsTrue x ↔ ServesFor c set.now)) }
{
    if !is_over(problem, set) {
        return Ok(false);
    }
    let holds = meets(alloc, problem, set)?;
    Ok(holds)
}

// A copy of a set.
fn copy_set(alloc: Global, set: &KeptSet) -> Result<KeptSet, AllocError>
    ensures { IfOk result (λ copy. copy ≡ set.now) }
{
    let unit = copy_name(alloc, &set.unit)?;
    let nodes = Vec::from_slice(alloc, set.nodes.as_slice())?;
    Ok(KeptSet {
        unit,
        number: set.number,
        root: set.root,
        nodes: Seq::from_vec(nodes),
    })
}

// A copy of the old set of a case, if there is one and it still serves.
fn kept_of_old(
    alloc: Global,
    problem: &Problem,
    old: Option<&KeptSet>,
) -> Result<Option<KeptSet>, AllocError>
    requires problem { IsProblem problem.now }
    requires set { (set : KeptSet) → option_copied old ≡ Some set → is_set set ≡ true }
    ensures some { IfOk result (λ kept. (set : KeptSet) → kept ≡ Some set → (option_copied old.entry ≡ Some set) × OfCases problem.entry.now (λ c. ServesFor c set)) }
    ensures none { IfOk result (λ kept. kept ≡ None → (set : KeptSet) → option_copied old.entry ≡ Some set → OfCases problem.entry.now (λ c. ServesFor c set → ⊥)) }
{
    match old {
        Some(set) => {
            let holds = serves(alloc, problem, set)?;
            if holds {
                let copy = copy_set(alloc, set)?;
                Ok(Some(copy))
            } else {
                Ok(None)
            }
        }
        None => Ok(None),
    }
}

// The set that closed a search.
fn closed_by(outcome: &Outcome) -> Option<Ref>
    ensures { result ≡ closed_in outcome.now }
{
    match outcome {
        Outcome::Closed { set } => Some(*set),
        _ => None,
    }
}

// Searches a problem. Where it is true the set that closed the search is kept.
fn search_problem(
    alloc: Global,
    problem: Problem,
    rel: &Rel,
    store: &mut Store,
    place: Place,
    budgets: Budgets,
) -> Result<TriedCase, AllocError>
    requires problem { IsProblem problem }
    requires rel { IsRel store.old rel.now }
    requires lists { OfCases problem (λ c. IsListsOf c (lists_of store.old rel.now)) }
    requires steps { 1 ≤ budgets.steps }
    ensures searched { IfOk result (λ done. OfCases problem (λ c. IsSearched budgets.nodes budgets.steps (case_at_place place.entry c) done.tried)) }
    ensures shared { IfOk result (λ done. done.shared ≡ shared_in problem) }
{
    let outcome = search(alloc, rel, store, budgets.nodes, budgets.steps)?;
    match closed_by(&outcome) {
        Some(set) => {
            let kept = take(alloc, store, set, place.unit, place.number)?;
            Ok(TriedCase {
                tried: Tried::True { set: kept },
                shared: taken_back(problem),
            })
        }
        None => {
            let decided = tell(alloc, problem, rel, store, outcome, budgets)?;
            let told = verdict_at(alloc, place.case, decided.decision)?;
            match told {
                Some(verdict) => Ok(TriedCase {
                    tried: Tried::Open { verdict },
                    shared: decided.shared,
                }),
                // Only a closed search is true.
                None => Err(AllocError),
            }
        }
    }
}

// What a problem comes to.
fn try_problem(
    alloc: Global,
    problem: Problem,
    place: Place,
    old: Option<&KeptSet>,
    budgets: Budgets,
) -> Result<TriedCase, AllocError>
    requires problem { IsProblem problem }
    requires set { (set : KeptSet) → option_copied old ≡ Some set → is_set set ≡ true }
    requires steps { 1 ≤ budgets.steps }
    ensures tried { IfOk result (λ done. OfCases problem (λ c. IsTried budgets.nodes budgets.steps (option_copied old.entry) (case_at_place place.entry c) done.tried)) }
    ensures shared { IfOk result (λ done. done.shared ≡ shared_in problem) }
{
    let kept = kept_of_old(alloc, &problem, old)?;
    match kept {
        Some(set) => Ok(TriedCase {
            tried: Tried::True { set },
            shared: taken_back(problem),
        }),
        None => {
            let bits = state_bits(&problem);
            let mut store = Store::new(alloc, 2 * u32::from(bits))?;
            let rel = relations_in_room(alloc, &problem, &mut store, budgets.nodes)?;
            let done = search_problem(alloc, problem, &rel, &mut store, place, budgets)?;
            Ok(done)
        }
    }
}

/// What a case comes to, by its old set where there is one that serves, and else by a search under budgets of nodes and of images. What the problems of all cases
/// of the design have in common is moved in, and given back.
pub(crate) fn try_case(
    alloc: Global,
    shared: Shared,
    task: &Task,
    place: Place,
    old: Option<&KeptSet>,
    budgets: Budgets,
) -> Result<TriedCase, AllocError>
    requires shared { IsShared task.now.design.now shared }
    requires task { IsTask task.now }
    requires case { IsCaseOf task.now.design.now task.now.leaf.now task.now.choice.now place.case.now.classes }
    requires width { width_fault task.now.design.now task.now.leaf.now task.now.choice.now place.case.now.classes ≡ None }
    requires set { (set : KeptSet) → option_copied old ≡ Some set → is_set set ≡ true }
    requires steps { 1 ≤ budgets.steps }
    ensures tried { IfOk result (λ done. IsTried budgets.nodes budgets.steps (option_copied old.entry) (case_at_place place.entry (case_in task.now place.entry.case.now.classes)) done.tried) }
    ensures shared { IfOk result (λ done. IsShared task.now.design.now done.shared) }
{
    let made = problem_of(alloc, shared, task, place.case)?;
    let done = try_problem(alloc, made, place, old, budgets)?;
    Ok(done)
}
