// The problem of a case at given sizes.
ghost use Rattle.std.specs.Prelude.{◌≡◌, ◌≤◌, ◌<◌, List, map, length, IfOk, nat_lt};
ghost use Rattle.smv_core.specs.declared.flat.Class.{Class};
ghost use Rattle.law_obligations.specs.Sets.{Has};
ghost use Rattle.law_concrete.specs.Concrete.{concrete_case};
ghost use Rattle.law_concrete.specs.Sizes.{case_bits, case_fault, sizes_at, width_fault_of};
ghost use Rattle.law_problems.specs.Parts.{Refuses};
ghost use Rattle.smv_problem.specs.WellFormed.{IsProblemOf};
ghost use Rattle.smv_cone.specs.Parts.{entry_of};
ghost use Rattle.smv_cases.specs.Slots.{classes_of};
ghost use Rattle.smv_obligations.specs.Shared.{IsShared, shared_in};
ghost use Rattle.smv_concrete.specs.Subjects.{IsSized, IsSubject, case_in, cases_in, no_times, unit_of};
ghost use Rattle.smv_concrete.specs.Parts.{IsLone};

use crate::subjects::Subject;
use law_concrete::problems::concrete_problems_are_well_formed;
use smv_cases::fault_at_unit;
use smv_cone::calls::cone_of;
use smv_cone::parts::{Part, parameter_spots};
use smv_core::flat::{Case, Timed};
use smv_core::{Fault, Refusal};
use smv_obligations::{Shared, assembled};
use smv_problem::Problem;
use smv_reads::bindings::View;
use std::alloc::{AllocError, Global};

// The problem of a part, or the fault.
fn problem_of(
    alloc: Global,
    part: &Part,
    sizes: &[u16],
    shared: Shared,
    timed: &Timed,
) -> Result<Problem, Refusal>
    requires sized { IsSized part.now.view.design.now sizes.now }
    requires part { IsLone sizes.now part.now }
    requires shared { IsShared part.now.view.design.now shared }
    requires timed { timed.now ≡ no_times }
    ensures problem { IfOk result (λ p. IsProblemOf (concrete_case part.now.view.design.now (sizes_at part.now.view.design.now.sets sizes.now) (entry_of part.now).unit part.now.classes.now) p) }
    ensures shared { IfOk result (λ p. IsShared part.now.view.design.now (shared_in p)) }
    ensures refuses { Refuses (case_fault part.now.view.design.now (entry_of part.now).unit sizes.now part.now.classes.now) result }
{
    concrete_problems_are_well_formed();
    let cone = cone_of(alloc, part)?;
    match cone {
        Some(elements) => {
            let problem = assembled(alloc, part, shared, timed, elements)?;
            Ok(problem)
        }
        None => {
            let fault = fault_at_unit(30, part.view.design, part.units, part.leaf);
            Err(Refusal::Fault(fault))
        }
    }
}

/// The problem of a case of a unit at given sizes, or fault 30 at the unit where its elements have more than 1,024 bits. What all problems of the design have in common is moved into the problem: `taken_back` gives it for the next case.
pub fn concrete(
    alloc: Global,
    subject: &Subject,
    shared: Shared,
    case: &Case,
) -> Result<Problem, Refusal>
    requires sized { IsSized subject.now.design.now subject.now.sizes.now }
    requires subject { IsSubject subject.now }
    requires shared { IsShared subject.now.design.now shared }
    requires case { Has (cases_in subject.now) case.now.classes }
    ensures problem { IfOk result (λ p. IsProblemOf (case_in subject.now case.now.classes) p) }
    ensures shared { IfOk result (λ p. IsShared subject.now.design.now (shared_in p)) }
    ensures refuses { Refuses (case_fault subject.now.design.now (unit_of subject.now) subject.now.sizes.now case.now.classes) result }
{
    let over = subject.leaf.params.as_slice();
    let classes = case.classes.as_slice();
    let params = parameter_spots(alloc, over, classes)?;
    let spots = params.as_slice();
    let part = Part {
        view: View {
            design: subject.design,
            types: subject.types,
        },
        units: subject.units,
        leaf: subject.leaf,
        choice: subject.choice,
        classes,
        params: spots,
        table: subject.table,
    };
    problem_of(alloc, &part, subject.sizes, shared, subject.timed)
}

// Whether the cone of a part has too many bits.
fn is_wide_part(alloc: Global, part: &Part, sizes: &[u16]) -> Result<bool, AllocError>
    requires sized { IsSized part.now.view.design.now sizes.now }
    requires part { IsLone sizes.now part.now }
    ensures { IfOk result (λ wide. wide ≡ nat_lt 1024 (case_bits part.now.view.design.now (entry_of part.now).unit sizes.now part.now.classes.now)) }
{
    let cone = cone_of(alloc, part)?;
    Ok(cone.is_none())
}

// Whether a case has too many state bits.
fn is_wide(alloc: Global, subject: &Subject, case: &Case) -> Result<bool, AllocError>
    requires sized { IsSized subject.now.design.now subject.now.sizes.now }
    requires subject { IsSubject subject.now }
    requires case { Has (cases_in subject.now) case.now.classes }
    ensures { IfOk result (λ wide. wide ≡ nat_lt 1024 (case_bits subject.now.design.now (unit_of subject.now) subject.now.sizes.now case.now.classes)) }
{
    let over = subject.leaf.params.as_slice();
    let classes = case.classes.as_slice();
    let params = parameter_spots(alloc, over, classes)?;
    let spots = params.as_slice();
    let part = Part {
        view: View {
            design: subject.design,
            types: subject.types,
        },
        units: subject.units,
        leaf: subject.leaf,
        choice: subject.choice,
        classes,
        params: spots,
        table: subject.table,
    };
    is_wide_part(alloc, &part, subject.sizes)
}

/// Fault 30 at the unit where one of its cases has more than 1,024 state bits.
pub fn width_fault(
    alloc: Global,
    subject: &Subject,
    cases: &[Case],
) -> Result<Option<Fault>, AllocError>
    requires sized { IsSized subject.now.design.now subject.now.sizes.now }
    requires subject { IsSubject subject.now }
    requires cases { (classes : List Class) → Has (classes_of cases.now) classes → Has (cases_in subject.now) classes }
    ensures { IfOk result (λ fault. fault ≡ width_fault_of subject.now.design.now (unit_of subject.now) subject.now.sizes.now (classes_of cases.now)) }
{
    for case in cases {
        let wide = is_wide(alloc, subject, case)?;
        if wide {
            let fault = fault_at_unit(30, subject.design, subject.units, subject.leaf);
            return Ok(Some(fault));
        }
    }
    Ok(None)
}
