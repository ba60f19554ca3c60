// The lines of `list`.
ghost use Rattle.std.specs.Prelude.{◌≡◌, ◌++◌, length, None, IfOk, OnOk};
ghost use Rattle.law_obligations.specs.LeafCases.{leaf_cases};
ghost use Rattle.law_obligations.specs.Units.{units_of};
ghost use Rattle.smv_cases.specs.Faults.{cases_fault};
ghost use Rattle.smv_look_lines.specs.Lists.{HaveFewCases, leaf_lines, list_lines, param_line, param_lines, unit_line, unit_lines};

use crate::choices::push_choice;
use crate::parts::{place_of_unit, push_kind, push_name, push_place, push_type};
use smv_cases::calls::cases;
use smv_core::Refusal;
use smv_core::flat::{Choice, Design, Leaf, Param, Timed, Unit};
use smv_problem::Plan;
use smv_report_lines::push_number;
use smv_splits::names::unit_name;
use std::alloc::{AllocError, Global};

// Writes the line of a parameter.
fn push_param(out: &mut Vec<u8>, design: &Design, param: &Param) -> Result<(), AllocError>
    ensures { OnOk result (out.new.items ≡ out.old.items ++ param_line design.now param.now) }
{
    out.extend_from_slice(b" parameter ")?;
    push_number(out, usize::from(param.var) + 1)?;
    out.push(b' ')?;
    push_type(out, design, param.over)?;
    push_name(out, param.name.as_bytes())?;
    out.push(b'\n')?;
    Ok(())
}

// Writes the lines of all parameters.
fn push_params(out: &mut Vec<u8>, design: &Design, params: &[Param]) -> Result<(), AllocError>
    ensures { OnOk result (out.new.items ≡ out.old.items ++ param_lines design.now params.now) }
{
    for param in params {
        push_param(out, design, param)?;
    }
    Ok(())
}

// How many cases a leaf has.
fn count_of_cases(
    alloc: Global,
    design: &Design,
    units: &[Unit],
    leaf: &Leaf,
    choice: &Choice,
) -> Result<usize, AllocError>
    requires units { units.now ≡ units_of design.now }
    requires few { cases_fault design.now leaf.now choice.now ≡ None }
    ensures { IfOk result (λ count. count ≡ length (leaf_cases design.now.sets leaf.now.params choice.now.keeps)) }
{
    match cases(alloc, design, units, leaf, choice) {
        Ok(cases) => Ok(cases.len()),
        Err(Refusal::Fault(_)) => unreachable!(),
        Err(Refusal::OutOfMemory) => Err(AllocError),
    }
}

// Writes what is proved of a unit.
fn push_leaf(
    out: &mut Vec<u8>,
    alloc: Global,
    design: &Design,
    units: &[Unit],
    leaf: &Leaf,
    choice: &Choice,
) -> Result<(), AllocError>
    requires units { units.now ≡ units_of design.now }
    requires few { cases_fault design.now leaf.now choice.now ≡ None }
    ensures { OnOk result (out.new.items ≡ out.old.items ++ leaf_lines design.now leaf.now choice.now) }
{
    let count = count_of_cases(alloc, design, units, leaf, choice)?;
    out.extend_from_slice(b" leaf ")?;
    out.extend_from_slice(leaf.name.as_bytes())?;
    out.push(b'\n')?;
    push_params(out, design, leaf.params.as_slice())?;
    out.extend_from_slice(b" cases ")?;
    push_number(out, count)?;
    out.push(b'\n')?;
    Ok(())
}

// Writes the line of a unit.
fn push_unit(
    out: &mut Vec<u8>,
    alloc: Global,
    text: &[u8],
    design: &Design,
    unit: Unit,
) -> Result<(), AllocError>
    ensures { OnOk result (out.new.items ≡ out.old.items ++ unit_line design.now text.now unit) }
{
    let name = unit_name(alloc, design, unit)?;
    out.extend_from_slice(name.as_bytes())?;
    out.extend_from_slice(b": ")?;
    push_kind(out, unit)?;
    push_place(out, text, place_of_unit(design, unit))?;
    out.push(b'\n')?;
    Ok(())
}

// Writes the lines of a unit, and those of its leaf and its choice.
fn push_entry(
    out: &mut Vec<u8>,
    alloc: Global,
    text: &[u8],
    design: &Design,
    units: &[Unit],
    unit: Unit,
    leaf: &Leaf,
    choice: &Choice,
    times: &Timed,
) -> Result<(), AllocError>
    requires units { units.now ≡ units_of design.now }
    requires few { cases_fault design.now leaf.now choice.now ≡ None }
    ensures { OnOk result (out.new.items ≡ out.old.items ++ unit_lines design.now text.now unit leaf.now choice.now times.now) }
{
    push_unit(out, alloc, text, design, unit)?;
    push_leaf(out, alloc, design, units, leaf, choice)?;
    push_choice(out, design, choice, times)
}

/// The lines of `list`: the units of a text's plan in flat order, each with its place in the text, what is proved of it, and what its proof uses. The plan has a leaf, a choice and times for each unit.
pub fn list_lines(alloc: Global, text: &[u8], plan: &Plan) -> Result<Vec<u8>, AllocError>
    requires units { plan.now.units ≡ units_of plan.now.design }
    requires leaves { length plan.now.leaves ≡ length plan.now.units }
    requires choices { length plan.now.choices ≡ length plan.now.units }
    requires timed { length plan.now.timed ≡ length plan.now.units }
    requires few { HaveFewCases plan.now }
    ensures { IfOk result (λ lines. lines.items ≡ list_lines text.now plan.now) }
{
    let units = plan.units.as_slice();
    let leaves = plan.leaves.as_slice();
    let choices = plan.choices.as_slice();
    let timed = plan.timed.as_slice();
    let mut out = Vec::new(alloc);
    for u in 0..units.len() {
        push_entry(
            &mut out,
            alloc,
            text,
            &plan.design,
            units,
            units[u],
            &leaves[u],
            &choices[u],
            &timed[u],
        )?;
    }
    Ok(out)
}
