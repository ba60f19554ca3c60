// The cases that are asked for are tried.
ghost use Rattle.std.specs.Prelude.{◌≡◌, ◌≤◌, ◌<◌, ◌∷◌, [], length, option_map, slice_get, Some, IfOk};
ghost use Rattle.smv_core.specs.declared.flat.Case.{Case as CaseData};
ghost use Rattle.law_obligations.specs.LeafCases.{leaf_cases};
ghost use Rattle.law_valid_texts.specs.Rooms.{HasRoom};
ghost use Rattle.smv_obligations.specs.Shared.{IsShared};
ghost use Rattle.smv_decide.specs.Leaves.{AreCases, classes_in};
ghost use Rattle.smv_decide.specs.Tasks.{IsTask, case_in};
ghost use Rattle.law_checked_proofs.specs.Cases.{cases_from};
ghost use Rattle.smv_kept_cases.specs.Tried.{IsLeafTried};
ghost use Rattle.smv_proof.specs.declared.proof.KeptSet.{KeptSet};
ghost use Rattle.smv_look_sets.specs.Sought.{IsFoundOf, IsSought, found_in, numbered};

use crate::Sought;
use smv_cases::calls::cases;
use smv_core::flat::Case;
use smv_core::{Name, Seq};
use smv_decide::tasks::Task;
use smv_kept_cases::leaf::{TriedLeaf, try_cases};
use smv_kept_cases::old_sets::OldSets;
use smv_obligations::Shared;
use smv_problem::{Budgets, Verdict};
use smv_proof::KeptSet;
use std::alloc::{AllocError, Global};

/// What is found of all cases of a leaf that has room, or of that of a number.
pub(crate) fn seek(
    alloc: Global,
    shared: Shared,
    task: &Task,
    unit: &Name,
    case: Option<usize>,
    budgets: Budgets,
) -> Result<Sought, AllocError>
    requires shared { IsShared task.now.design.now shared }
    requires task { IsTask task.now }
    requires room { HasRoom task.now.design.now task.now.leaf.now task.now.choice.now }
    requires steps { 1 ≤ budgets.steps }
    ensures { IfOk result (IsSought budgets.nodes budgets.steps (cases_from unit.now (case_in task.now) 0 (leaf_cases task.now.design.now.sets task.now.leaf.now.params task.now.choice.now.keeps)) case) }
{
    match cases(alloc, task.design, task.units, task.leaf, task.choice) {
        Ok(cases) => {
            let sought = among(alloc, shared, task, unit, cases.as_slice(), case, budgets)?;
            Ok(sought)
        }
        Err(_) => Err(AllocError),
    }
}

// The same, among the cases of the leaf.
fn among(
    alloc: Global,
    shared: Shared,
    task: &Task,
    unit: &Name,
    cases: &[Case],
    case: Option<usize>,
    budgets: Budgets,
) -> Result<Sought, AllocError>
    requires shared { IsShared task.now.design.now shared }
    requires task { IsTask task.now }
    requires cases { AreCases task.now.design.now task.now.leaf.now task.now.choice.now cases.now }
    requires few { length cases.now ≤ 4096 }
    requires steps { 1 ≤ budgets.steps }
    ensures { IfOk result (IsSought budgets.nodes budgets.steps (cases_from unit.now (case_in task.now) 0 (classes_in cases.now)) case) }
{
    match case {
        None => {
            let tried = tried(alloc, shared, task, unit, cases, budgets)?;
            Ok(found(tried.verdict, tried.sets))
        }
        Some(number) => {
            let sought = at_number(alloc, shared, task, unit, cases, number, budgets)?;
            Ok(sought)
        }
    }
}

// The case of a number from 1 on.
fn at_number(
    alloc: Global,
    shared: Shared,
    task: &Task,
    unit: &Name,
    cases: &[Case],
    number: usize,
    budgets: Budgets,
) -> Result<Sought, AllocError>
    requires shared { IsShared task.now.design.now shared }
    requires task { IsTask task.now }
    requires cases { AreCases task.now.design.now task.now.leaf.now task.now.choice.now cases.now }
    requires few { length cases.now ≤ 4096 }
    requires steps { 1 ≤ budgets.steps }
    ensures { IfOk result (IsSought budgets.nodes budgets.steps (cases_from unit.now (case_in task.now) 0 (classes_in cases.now)) (Some number)) }
{
    let place = number.saturating_sub(1);
    let count = cases.len();
    if place >= count {
        return Ok(Sought::NoCase { count });
    }
    let sought = alone(alloc, shared, task, unit, cases, place, budgets)?;
    Ok(sought)
}

// What these cases come to, from no old sets.
fn tried(
    alloc: Global,
    shared: Shared,
    task: &Task,
    unit: &Name,
    cases: &[Case],
    budgets: Budgets,
) -> Result<TriedLeaf, AllocError>
    requires shared { IsShared task.now.design.now shared }
    requires task { IsTask task.now }
    requires cases { AreCases task.now.design.now task.now.leaf.now task.now.choice.now cases.now }
    requires few { length cases.now ≤ 4096 }
    requires steps { 1 ≤ budgets.steps }
    ensures { IfOk result (λ done. IsLeafTried [] budgets.nodes budgets.steps (cases_from unit.now (case_in task.now) 0 (classes_in cases.now)) done.verdict done.sets) }
{
    let nothing = Seq::new(alloc);
    let old = OldSets::of(alloc, nothing.as_slice())?;
    let done = try_cases(alloc, shared, task, unit, cases, &old, budgets)?;
    Ok(done)
}

// The case at a place. It is tried as the first of a list of its own, so its set gets its number behind.
fn alone(
    alloc: Global,
    shared: Shared,
    task: &Task,
    unit: &Name,
    cases: &[Case],
    place: usize,
    budgets: Budgets,
) -> Result<Sought, AllocError>
    requires shared { IsShared task.now.design.now shared }
    requires task { IsTask task.now }
    requires cases { AreCases task.now.design.now task.now.leaf.now task.now.choice.now cases.now }
    requires few { length cases.now ≤ 4096 }
    requires there { place < length cases.now }
    requires steps { 1 ≤ budgets.steps }
    ensures { IfOk result (λ sought. IsFoundOf budgets.nodes budgets.steps (length cases.now) (option_map (λ c. c ∷ []) (slice_get (cases_from unit.now (case_in task.now) 0 (classes_in cases.now)) place)) sought) }
{
    let own = one_case(cases, place);
    let tried = tried(alloc, shared, task, unit, own, budgets)?;
    let sets = renumbered(alloc, tried.sets, place as u32)?;
    Ok(found(tried.verdict, sets))
}

// The case at a place, as a list.
fn one_case(cases: &[Case], place: usize) -> &[Case]
    requires { place < length cases.now }
    ensures { (case : CaseData) → slice_get cases.now place ≡ Some case → result.now ≡ case ∷ [] }
{
    &cases[place..place + 1]
}

// The set of a case alone, with its number.
fn renumbered(alloc: Global, sets: Seq<KeptSet>, number: u32) -> Result<Seq<KeptSet>, AllocError>
    ensures { IfOk result (λ made. (set : KeptSet) → sets ≡ set ∷ [] → made ≡ numbered number set ∷ []) }
{
    let mut made = Seq::new(alloc);
    let mut sets = sets.into_vec();
    if let Some(set) = sets.pop() {
        made.push(with_number(set, number))?;
    }
    Ok(made)
}

// A set with another number.
fn with_number(set: KeptSet, number: u32) -> KeptSet
    ensures { result ≡ numbered number set }
{
    KeptSet {
        unit: set.unit,
        number,
        root: set.root,
        nodes: set.nodes,
    }
}

// What is found by this verdict and these sets.
fn found(verdict: Verdict, sets: Seq<KeptSet>) -> Sought
    ensures { result ≡ found_in verdict sets }
{
    match verdict {
        Verdict::True => Sought::Sets { sets },
        verdict => Sought::Open { verdict },
    }
}
