// The problem of a case.
ghost use Rattle.std.specs.Prelude.{◌≡◌, map, IfOk};
ghost use Rattle.law_obligations.specs.Units.{units_of};
ghost use Rattle.law_problems.specs.Parts.{outlined, IsPart, IsCaseOf, case_with, width_fault, Refuses};
ghost use Rattle.smv_problem.specs.Written.{written, name_number, set_numbers_of};
ghost use Rattle.smv_problem.specs.WellFormed.{IsWellFormed};
ghost use Rattle.smv_chosen_table.specs.Tables.{IsTable};
ghost use Rattle.smv_cone.specs.Parts.{IsPartView, IsPartOf};
ghost use Rattle.smv_obligations.specs.Shared.{IsShared, shared_in};
ghost use Rattle.smv_obligations.specs.Demands as spec;

use crate::demands::demands;
use crate::shared::{Shared, in_common};
use crate::targets::target;
use smv_cases::abs_types;
use smv_cone::calls::cone_in;
use smv_cone::parts::{Part, parameter_spots};
use smv_copies::copy_guards;
use smv_core::abstract_type::AbsType;
use smv_core::flat::{Case, Choice, Def, Design, Element, Leaf, Timed, Timing, Unit};
use smv_core::{Refusal, Seq};
use smv_problem::Problem;
use smv_reads::bindings::View;
use smv_spots::spots::Spot;
use std::alloc::{AllocError, Global};

// A copy of some abstract types, and of some spots.
fn copy_types(alloc: Global, types: &[AbsType]) -> Result<Seq<AbsType>, AllocError>
    ensures { IfOk result (λ copy. copy ≡ types.now) }
{
    let copy = Vec::from_slice(alloc, types)?;
    Ok(Seq::from_vec(copy))
}

fn copy_spots(alloc: Global, spots: &[Spot]) -> Result<Seq<Spot>, AllocError>
    ensures { IfOk result (λ copy. copy ≡ spots.now) }
{
    let copy = Vec::from_slice(alloc, spots)?;
    Ok(Seq::from_vec(copy))
}

/// The problem of a part with these elements, and with what the problems of all cases of its design have in common.
pub fn assembled(
    alloc: Global,
    part: &Part,
    shared: Shared,
    timed: &Timed,
    elements: Seq<Element>,
) -> Result<Problem, AllocError>
    requires { IsPartView part.now }
    ensures { IfOk result (λ p. p ≡ spec.problem_in part.now timed.now shared elements) }
{
    let now = demands(alloc, part, timed, Timing::Now, elements.as_slice())?;
    let before = demands(alloc, part, timed, Timing::Before, elements.as_slice())?;
    let target = target(alloc, part)?;
    let types = copy_types(alloc, part.view.types)?;
    let guards = copy_guards(alloc, part.leaf.guards.as_slice())?;
    let bindings = copy_spots(alloc, part.params)?;
    let Shared {
        families,
        lists,
        names,
        set_names,
        ordered,
    } = shared;
    Ok(Problem {
        elements,
        families,
        lists,
        names,
        set_names,
        ordered,
        types,
        now,
        before,
        target,
        guards,
        bindings,
    })
}

// The problem of a case, or the fault.
fn problem_in(alloc: Global, part: &Part, shared: Shared, timed: &Timed) -> Result<Problem, Refusal>
    requires part { IsPartOf part.now }
    requires shared { IsShared part.now.view.design.now shared }
    ensures problem { IfOk result (λ p. p ≡ written (case_with part.now.view.design.now part.now.leaf.now part.now.choice.now timed.now part.now.classes.now)) }
    ensures well_formed { IfOk result (λ p. IsWellFormed (case_with part.now.view.design.now part.now.leaf.now part.now.choice.now timed.now part.now.classes.now)) }
    ensures shared { IfOk result (λ p. IsShared part.now.view.design.now (shared_in p)) }
    ensures refuses { Refuses (width_fault part.now.view.design.now part.now.leaf.now part.now.choice.now part.now.classes.now) result }
{
    let elements = cone_in(alloc, part)?;
    let problem = assembled(alloc, part, shared, timed, elements)?;
    Ok(problem)
}

/// The problem of a case, or fault 30 at the unit of the leaf where its elements have more than 1,024 bits. The units are those of the design, the table has what the leaf's proof uses, and what all
/// problems of the design have in common is moved into the problem: `taken_back` gives it for the next case. So a case costs what its cone has.
pub fn problem_with(
    alloc: Global,
    shared: Shared,
    design: &Design,
    units: &[Unit],
    leaf: &Leaf,
    case: &Case,
    choice: &Choice,
    timed: &Timed,
    table: &[Option<&Def>],
) -> Result<Problem, Refusal>
    requires shared { IsShared design.now shared }
    requires units { units.now ≡ units_of design.now }
    requires part { IsPart design.now leaf.now choice.now }
    requires case { IsCaseOf design.now leaf.now choice.now case.now.classes }
    requires table { IsTable (outlined design.now) choice.now.picks table.now }
    ensures problem { IfOk result (λ p. p ≡ written (case_with design.now leaf.now choice.now timed.now case.now.classes)) }
    ensures well_formed { IfOk result (λ p. IsWellFormed (case_with design.now leaf.now choice.now timed.now case.now.classes)) }
    ensures shared { IfOk result (λ p. IsShared design.now (shared_in p)) }
    ensures refuses { Refuses (width_fault design.now leaf.now choice.now case.now.classes) result }
{
    let types = abs_types(alloc, design, case, choice, leaf)?;
    let forms = types.as_slice();
    let classes = case.classes.as_slice();
    let over = leaf.params.as_slice();
    let params = parameter_spots(alloc, over, classes)?;
    let spots = params.as_slice();
    let part = Part {
        view: View {
            design,
            types: forms,
        },
        units,
        leaf,
        choice,
        classes,
        params: spots,
        table,
    };
    problem_in(alloc, &part, shared, timed)
}

/// The same, where what all problems of the design have in common is copied: the numbers of names are those of its constants and set types.
pub fn problem(
    alloc: Global,
    design: &Design,
    units: &[Unit],
    names: &[Seq<usize>],
    set_names: &[usize],
    leaf: &Leaf,
    case: &Case,
    choice: &Choice,
    timed: &Timed,
    table: &[Option<&Def>],
) -> Result<Problem, Refusal>
    requires units { units.now ≡ units_of design.now }
    requires names { names.now ≡ map (map (name_number design.now.enums)) design.now.enums }
    requires set_names { set_names.now ≡ set_numbers_of design.now.sets }
    requires part { IsPart design.now leaf.now choice.now }
    requires case { IsCaseOf design.now leaf.now choice.now case.now.classes }
    requires table { IsTable (outlined design.now) choice.now.picks table.now }
    ensures problem { IfOk result (λ p. p ≡ written (case_with design.now leaf.now choice.now timed.now case.now.classes)) }
    ensures well_formed { IfOk result (λ p. IsWellFormed (case_with design.now leaf.now choice.now timed.now case.now.classes)) }
    ensures refuses { Refuses (width_fault design.now leaf.now choice.now case.now.classes) result }
{
    let shared = in_common(alloc, design, names, set_names)?;
    problem_with(
        alloc, shared, design, units, leaf, case, choice, timed, table,
    )
}
