//! What the map of a unit that is false allows at the last time of its path.
//!
//! For the look at a design. `allowed_values` has the values, from the parts of a unit in a plan, and the case and the path of its verdict. `specs/Allowed` says which they are. `targets` has those of a problem in two states; the problem of a case
//! is that of `smv_obligations`, and what a definition allows for certain that of `smv_eval`.
#![tactic(auto)]

ghost use Rattle.std.specs.Prelude.{◌≡◌, IfOk};
ghost use Rattle.law_obligations.specs.Units.{units_of};
ghost use Rattle.law_problems.specs.Parts.{IsCaseOf, IsPart, case_with};
ghost use Rattle.smv_problem.specs.WellFormed.{IsProblem, OfCases};
ghost use Rattle.smv_look_allowed.specs.Allowed.{AreAllowed};

mod targets;

use smv_chosen_table::chosen_defs;
use smv_core::Seq;
use smv_core::flat::{Case, Choice, Design, Leaf, Timed, Unit};
use smv_name_numbers::{name_numbers, set_numbers};
use smv_obligations::problem;
use smv_problem::{AbsState, AbsValue, Problem};
use std::alloc::{AllocError, Global};
use targets::target_values;

// What the target of a problem allows at the last time of a path.
fn values_at_end(
    alloc: Global,
    problem: &Problem,
    path: &[AbsState],
) -> Result<Seq<AbsValue>, AllocError>
    requires { IsProblem problem.now }
    ensures { IfOk result (λ values. OfCases problem.entry.now (λ c. AreAllowed c path.now values)) }
{
    let Some((last, front)) = path.split_last() else {
        return Ok(Seq::new(alloc));
    };
    let values = target_values(alloc, problem, front.last(), last)?;
    Ok(values)
}

/// The values that the map of a unit allows its element for certain at the last time of this path of a case, in the order of the type; of a claim none.
pub fn allowed_values(
    alloc: Global,
    design: &Design,
    units: &[Unit],
    leaf: &Leaf,
    choice: &Choice,
    timed: &Timed,
    case: &Case,
    path: &[AbsState],
) -> Result<Seq<AbsValue>, AllocError>
    requires units { units.now ≡ units_of design.now }
    requires part { IsPart design.now leaf.now choice.now }
    requires case { IsCaseOf design.now leaf.now choice.now case.now.classes }
    ensures { IfOk result (λ values. AreAllowed (case_with design.now leaf.now choice.now timed.now case.now.classes) path.now values) }
{
    let names = name_numbers(alloc, design.enums.as_slice())?;
    let set_names = set_numbers(alloc, design.sets.as_slice())?;
    let table = chosen_defs(alloc, design, units, choice.picks.as_slice())?;
    let made = problem(
        alloc,
        design,
        units,
        names.as_slice(),
        set_names.as_slice(),
        leaf,
        case,
        choice,
        timed,
        table.as_slice(),
    );
    match made {
        Ok(problem) => {
            let values = values_at_end(alloc, &problem, path)?;
            Ok(values)
        }
        Err(_) => Err(AllocError),
    }
}
