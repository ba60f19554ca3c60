// The sets of a document beside the cases of a leaf.
ghost use Rattle.std.specs.Prelude.{◌≡◌, ◌<◌, ◌*◌, ◌++◌, [], ◌∷◌, ◌&&◌, nat_eq, true, List, None, IfOk};
ghost use Rattle.std.specs.Str.{bytes_eq};
ghost use Rattle.law_obligations.specs.LeafCases.{leaf_cases};
ghost use Rattle.law_obligations.specs.Readings.{state_bits as bits_of_case};
ghost use Rattle.smv_problem.specs.WellFormed.{IsProblem, IsProblemOf, OfCases};
ghost use Rattle.law_problems.specs.Parts.{IsCaseOf, width_fault};
ghost use Rattle.law_valid_texts.specs.Rooms.{HasRoom};
ghost use Rattle.smv_cases.specs.Slots.{classes_of};
ghost use Rattle.smv_obligations.specs.Shared.{IsShared, shared_in};
ghost use Rattle.smv_proof.specs.Documents.{most, is_set};
ghost use Rattle.smv_proof.specs.Meanings.{is_below};
ghost use Rattle.law_checked_proofs.specs.Cases.{UnitCase, cases_from};
ghost use Rattle.law_checked_proofs.specs.Checked.{Meets};
ghost use Rattle.smv_check.specs.Tasks.{IsTask, case_in, unit_case};
ghost use Rattle.smv_check.specs.Progress.{HasPassed, IsLooked, IsNext, IsNextOf, Follows, GivesBack};

use crate::units::{Looked, Progress};
use smv_cases::calls::cases;
use smv_core::Name;
use smv_core::flat::{Case, Choice, Def, Design, Leaf, Timed, Unit};
use smv_meets::{is_over, meets};
use smv_obligations::{Shared, problem_with, taken_back};
use smv_problem::Problem;
use smv_proof::KeptSet;
use std::alloc::{AllocError, Global};

/// A leaf with its name, its choice and the times of its uses. With it come the units of its design, for each family the definition that its proof uses, and the sets of the document.
#[derive(Clone, Copy)]
pub struct Task<'a> {
    pub design: &'a Design,
    pub units: &'a [Unit],
    pub name: &'a Name,
    pub leaf: &'a Leaf,
    pub choice: &'a Choice,
    pub timed: &'a Timed,
    pub table: &'a [Option<&'a Def>],
    pub sets: &'a [KeptSet],
}

/// Looks at the sets of all cases of a leaf that has room. What the problems of all cases of the design have in common is moved in, and given back.
pub(crate) fn look_at_leaf(
    alloc: Global,
    shared: Shared,
    task: &Task,
    progress: Progress,
) -> Result<Looked, AllocError>
    requires shared { IsShared task.now.design.now shared }
    requires task { IsTask task.now }
    requires room { HasRoom task.now.design.now task.now.leaf.now task.now.choice.now }
    ensures looked { IfOk result (λ looked. (done : List UnitCase) → HasPassed done task.now.sets.now progress → IsLooked (done ++ cases_from task.now.name.now (case_in task.now) 0 (leaf_cases task.now.design.now.sets task.now.leaf.now.params task.now.choice.now.keeps)) task.now.sets.now looked) }
    ensures shared { IfOk result (GivesBack task.now.design.now) }
{
    match cases(alloc, task.design, task.units, task.leaf, task.choice) {
        Ok(cases) => {
            let looked = look_at_cases(alloc, shared, task, cases.as_slice(), progress)?;
            Ok(looked)
        }
        Err(_) => Err(AllocError),
    }
}

// Looks at the sets of these cases of a leaf, in order.
fn look_at_cases(
    alloc: Global,
    shared: Shared,
    task: &Task,
    cases: &[Case],
    progress: Progress,
) -> Result<Looked, AllocError>
    requires shared { IsShared task.now.design.now shared }
    requires task { IsTask task.now }
    requires room { HasRoom task.now.design.now task.now.leaf.now task.now.choice.now }
    requires cases { classes_of cases.now ≡ leaf_cases task.now.design.now.sets task.now.leaf.now.params task.now.choice.now.keeps }
    ensures looked { IfOk result (λ looked. (done : List UnitCase) → HasPassed done task.now.sets.now progress → IsLooked (done ++ cases_from task.now.name.now (case_in task.now) 0 (classes_of cases.now)) task.now.sets.now looked) }
    ensures shared { IfOk result (GivesBack task.now.design.now) }
{
    let mut so_far = progress;
    let mut common = shared;
    for number in 0..cases.len() {
        let looked = look_at_case(alloc, common, task, number, &cases[number], so_far)?;
        match looked {
            Looked::Misfit => return Ok(Looked::Misfit),
            Looked::Fits {
                progress: next,
                shared,
            } => {
                so_far = next;
                common = shared;
            }
        }
    }
    Ok(Looked::Fits {
        progress: so_far,
        shared: common,
    })
}

// Looks at the set of a case.
fn look_at_case(
    alloc: Global,
    shared: Shared,
    task: &Task,
    number: usize,
    case: &Case,
    progress: Progress,
) -> Result<Looked, AllocError>
    requires shared { IsShared task.now.design.now shared }
    requires task { IsTask task.now }
    requires case { IsCaseOf task.now.design.now task.now.leaf.now task.now.choice.now case.now.classes }
    requires width { width_fault task.now.design.now task.now.leaf.now task.now.choice.now case.now.classes ≡ None }
    ensures looked { IfOk result (λ looked. (done : List UnitCase) → HasPassed done task.now.sets.now progress → IsLooked (done ++ unit_case task.now number case.now.classes ∷ []) task.now.sets.now looked) }
    ensures shared { IfOk result (GivesBack task.now.design.now) }
{
    let place = progress.looked as usize;
    if place >= task.sets.len() {
        return Ok(Looked::Misfit);
    }
    let set = &task.sets[place];
    if !is_for(task.name, number, set) {
        return Ok(Looked::Misfit);
    }
    let looked = look_at_set(alloc, shared, task, case, set, progress)?;
    Ok(looked)
}

// Whether a set is of the case of this number of a unit.
fn is_for(name: &Name, number: usize, set: &KeptSet) -> bool
    ensures { result ≡ bytes_eq set.now.unit name.now && nat_eq set.now.number number }
{
    let same_unit = set.unit.as_bytes() == name.as_bytes();
    let same_number = set.number as usize == number;
    same_unit && same_number
}

// Looks at a set that is of this case.
fn look_at_set(
    alloc: Global,
    shared: Shared,
    task: &Task,
    case: &Case,
    set: &KeptSet,
    progress: Progress,
) -> Result<Looked, AllocError>
    requires shared { IsShared task.now.design.now shared }
    requires task { IsTask task.now }
    requires case { IsCaseOf task.now.design.now task.now.leaf.now task.now.choice.now case.now.classes }
    requires width { width_fault task.now.design.now task.now.leaf.now task.now.choice.now case.now.classes ≡ None }
    requires set { is_set set.now ≡ true }
    requires looked { progress.looked < most }
    ensures looked { IfOk result (IsNextOf (case_in task.now case.now.classes) set.now progress) }
    ensures shared { IfOk result (GivesBack task.now.design.now) }
{
    let problem = problem_of(alloc, shared, task, case)?;
    let next = judge(alloc, &problem, set, progress)?;
    match next {
        Some(next) => Ok(Looked::Fits {
            progress: next,
            shared: taken_back(problem),
        }),
        None => Ok(Looked::Misfit),
    }
}

// The problem of a case that has not too many state bits. What the problems of all cases of the design have in common is moved in.
fn problem_of(
    alloc: Global,
    shared: Shared,
    task: &Task,
    case: &Case,
) -> Result<Problem, AllocError>
    requires shared { IsShared task.now.design.now shared }
    requires task { IsTask task.now }
    requires case { IsCaseOf task.now.design.now task.now.leaf.now task.now.choice.now case.now.classes }
    requires width { width_fault task.now.design.now task.now.leaf.now task.now.choice.now case.now.classes ≡ None }
    ensures problem { IfOk result (λ p. IsProblemOf (case_in task.now case.now.classes) p) }
    ensures shared { IfOk result (λ p. IsShared task.now.design.now (shared_in p)) }
{
    match problem_with(
        alloc,
        shared,
        task.design,
        task.units,
        task.leaf,
        case,
        task.choice,
        task.timed,
        task.table,
    ) {
        Ok(made) => Ok(made),
        Err(_) => Err(AllocError),
    }
}

// How far it comes with a set of a case that is posed as this problem; none where the set is not over the state bits.
fn judge(
    alloc: Global,
    problem: &Problem,
    set: &KeptSet,
    progress: Progress,
) -> Result<Option<Progress>, AllocError>
    requires problem { IsProblem problem.now }
    requires set { is_set set.now ≡ true }
    requires looked { progress.looked < most }
    ensures { IfOk result (λ next. OfCases problem.entry.now (λ c. IsNext c set.now progress next)) }
{
    if !is_over(problem, set) {
        return Ok(None);
    }
    let failed = failed_by(alloc, problem, set, progress)?;
    Ok(Some(Progress {
        looked: progress.looked + 1,
        failed,
    }))
}

// The first failure behind a set over the state bits: an earlier one, or else the set's own, where it fails a condition of induction.
fn failed_by(
    alloc: Global,
    problem: &Problem,
    set: &KeptSet,
    progress: Progress,
) -> Result<Option<u32>, AllocError>
    requires problem { IsProblem problem.now }
    requires set { is_set set.now ≡ true }
    requires below { OfCases problem.now (λ c. is_below (2 * bits_of_case c) set.now ≡ true) }
    requires looked { progress.looked < most }
    ensures { IfOk result (λ failed. OfCases problem.entry.now (λ c. Follows (Meets c set.now) progress.looked progress.failed failed)) }
{
    if progress.failed.is_some() {
        return Ok(progress.failed);
    }
    let holds = meets(alloc, problem, set)?;
    if holds {
        return Ok(None);
    }
    Ok(Some(progress.looked + 1))
}
