// The cases of a unit at given sizes, in order.
ghost use Rattle.std.specs.Prelude.{◌≡◌, ◌≤◌, IfOk, None};
ghost use Rattle.law_obligations.specs.Sets.{Has};
ghost use Rattle.law_concrete.specs.Sizes.{case_fault};
ghost use Rattle.law_reports.specs.Told.{IsToldBy};
ghost use Rattle.smv_obligations.specs.Shared.{IsShared, shared_in};
ghost use Rattle.smv_problem.specs.WellFormed.{IsProblemOf};
ghost use Rattle.smv_decide.specs.Decisions.{IsDecided};
ghost use Rattle.smv_decide.specs.Leaves.{classes_in};
ghost use Rattle.smv_concrete.specs.Subjects.{IsSized, IsSubject, case_in, cases_in, unit_of};
ghost use Rattle.smv_confirm.specs.Cases.{AreNarrow};

use smv_bits::Bits;
use smv_concrete::concrete;
use smv_concrete::subjects::Subject;
use smv_core::flat::Case;
use smv_decide::leaves::verdict_at;
use smv_decide::{Decided, decide_problem};
use smv_obligations::Shared;
use smv_problem::{Budgets, Problem, Verdict};
use std::alloc::{AllocError, Global};

// The problem of a case that has not too many state bits.
fn problem_of(
    alloc: Global,
    subject: &Subject,
    shared: Shared,
    case: &Case,
) -> Result<Problem, AllocError>
    requires sized { IsSized subject.now.design.now subject.now.sizes.now }
    requires subject { IsSubject subject.now }
    requires shared { IsShared subject.now.design.now shared }
    requires case { Has (cases_in subject.now) case.now.classes }
    requires width { case_fault subject.now.design.now (unit_of subject.now) subject.now.sizes.now case.now.classes ≡ None }
    ensures problem { IfOk result (λ p. IsProblemOf (case_in subject.now case.now.classes) p) }
    ensures shared { IfOk result (λ p. IsShared subject.now.design.now (shared_in p)) }
{
    match concrete(alloc, subject, shared, case) {
        Ok(made) => Ok(made),
        Err(_) => Err(AllocError),
    }
}

// Decides a case that has not too many state bits, over bits that stand so.
fn decide_case(
    alloc: Global,
    subject: &Subject,
    shared: Shared,
    case: &Case,
    bits: Bits,
    budgets: Budgets,
) -> Result<Decided, AllocError>
    requires sized { IsSized subject.now.design.now subject.now.sizes.now }
    requires subject { IsSubject subject.now }
    requires shared { IsShared subject.now.design.now shared }
    requires case { Has (cases_in subject.now) case.now.classes }
    requires width { case_fault subject.now.design.now (unit_of subject.now) subject.now.sizes.now case.now.classes ≡ None }
    requires steps { 1 ≤ budgets.steps }
    ensures decided { IfOk result (λ decided. IsDecided bits budgets.nodes budgets.steps (case_in subject.now case.now.classes) decided.decision) }
    ensures shared { IfOk result (λ decided. IsShared subject.now.design.now decided.shared) }
{
    let made = problem_of(alloc, subject, shared, case)?;
    let decided = decide_problem(alloc, made, bits, budgets)?;
    Ok(decided)
}

/// Decides cases of a unit in order, over bits that stand so, up to the first that is not true.
pub(crate) fn decide_cases(
    alloc: Global,
    subject: &Subject,
    shared: Shared,
    cases: &[Case],
    bits: Bits,
    budgets: Budgets,
) -> Result<Verdict, AllocError>
    requires sized { IsSized subject.now.design.now subject.now.sizes.now }
    requires subject { IsSubject subject.now }
    requires shared { IsShared subject.now.design.now shared }
    requires cases { AreNarrow subject.now cases.now }
    requires steps { 1 ≤ budgets.steps }
    ensures { IfOk result (IsToldBy (case_in subject.now) bits budgets.nodes budgets.steps (classes_in cases.now)) }
{
    let mut common = shared;
    for case in cases {
        let decided = decide_case(alloc, subject, common, case, bits, budgets)?;
        common = decided.shared;
        let verdict = verdict_at(alloc, case, decided.decision)?;
        match verdict {
            None => {}
            Some(verdict) => return Ok(verdict),
        }
    }
    Ok(Verdict::True)
}
