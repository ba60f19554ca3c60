// What is shown of an unknown unit.
ghost use Rattle.std.specs.Prelude.{◌≡◌, ◌++◌, length, map, option_copied, take, IfOk, OnOk};
ghost use Rattle.law_obligations.specs.Units.{units_of};
ghost use Rattle.law_problems.specs.Parts.{IsCaseOf, IsPart};
ghost use Rattle.smv_look_reports.specs.Cones as spec;
ghost use Rattle.smv_look_reports.specs.Cones.{bits_line, bits_lines, cone_bits_lines, dearest_lines, more_line, unknown_lines};

use crate::dearest::by_bits;
use smv_cases::abs_types;
use smv_chosen_table::chosen_defs;
use smv_cone::bits::list_lengths;
use smv_cone::cone;
use smv_core::flat::{Case, Choice, Design, Element, Leaf, Unit};
use smv_look_lines::{Look, push_lines, target_of, total};
use smv_problem::UnitResult;
use smv_report_lines::{push_case, push_heading, push_number};
use std::alloc::{AllocError, Global};

// So many elements are shown at most.
const MOST_SHOWN: usize = 8;

// Writes how many bits there are.
fn push_bits(out: &mut Vec<u8>, bits: usize) -> Result<(), AllocError>
    ensures { OnOk result (out.new.items ≡ out.old.items ++ bits_line bits) }
{
    out.extend_from_slice(b" bits ")?;
    push_number(out, bits)?;
    out.push(b'\n')?;
    Ok(())
}

// Writes how many elements are not shown, if there are any.
fn push_more(out: &mut Vec<u8>, count: usize) -> Result<(), AllocError>
    ensures { OnOk result (out.new.items ≡ out.old.items ++ more_line count) }
{
    if count == 0 {
        return Ok(());
    }
    out.extend_from_slice(b" and ")?;
    push_number(out, count)?;
    out.extend_from_slice(b" more\n")
}

// So many elements from the front.
fn first_elements(elements: &[Element], count: usize) -> &[Element]
    ensures { result.now ≡ take count elements.now }
{
    &elements[..count.min(elements.len())]
}

// Writes the elements that have most bits.
fn push_dearest(
    out: &mut Vec<u8>,
    alloc: Global,
    look: &Look,
    target: Option<&Element>,
    elements: &[Element],
) -> Result<(), AllocError>
    requires { look.now.lists.now ≡ map length look.now.design.now.enums }
    ensures { OnOk result (out.new.items ≡ out.old.items ++ dearest_lines (record { design = look.now.design.now; units = look.now.units.now }) look.now.choice.now look.now.types.now (option_copied target.entry) elements.now) }
{
    let ordered = by_bits(alloc, look, elements)?;
    let shown = first_elements(ordered.as_slice(), MOST_SHOWN);
    push_lines(out, look, target, shown)?;
    push_more(out, elements.len().saturating_sub(MOST_SHOWN))
}

// Writes the bits of these elements together, and those that have most.
fn push_elements(
    out: &mut Vec<u8>,
    alloc: Global,
    look: &Look,
    target: Option<&Element>,
    elements: &[Element],
) -> Result<(), AllocError>
    requires { look.now.lists.now ≡ map length look.now.design.now.enums }
    ensures { OnOk result (out.new.items ≡ out.old.items ++ bits_lines (record { design = look.now.design.now; units = look.now.units.now }) look.now.choice.now look.now.types.now (option_copied target.entry) elements.now) }
{
    let bits = total(look, elements)?;
    push_bits(out, bits)?;
    push_dearest(out, alloc, look, target, elements)
}

// Writes the same of the cone of a case.
fn push_cone(
    out: &mut Vec<u8>,
    alloc: Global,
    design: &Design,
    units: &[Unit],
    unit: Unit,
    leaf: &Leaf,
    choice: &Choice,
    case: &Case,
) -> Result<(), AllocError>
    requires units { units.now ≡ units_of design.now }
    requires part { IsPart design.now leaf.now choice.now }
    requires case { IsCaseOf design.now leaf.now choice.now case.now.classes }
    ensures { OnOk result (out.new.items ≡ out.old.items ++ cone_bits_lines (record { design = design.now; units = units.now }) unit leaf.now choice.now case.now) }
{
    let lists = list_lengths(alloc, design)?;
    let types = abs_types(alloc, design, case, choice, leaf)?;
    let table = chosen_defs(alloc, design, units, choice.picks.as_slice())?;
    let target = target_of(alloc, design, case.classes.as_slice(), unit)?;
    match cone(alloc, design, units, leaf, case, choice, table.as_slice()) {
        Ok(elements) => {
            let look = Look {
                design,
                units,
                lists: lists.as_slice(),
                unit,
                leaf,
                choice,
                case,
                number: 1,
                count: 1,
                types: types.as_slice(),
            };
            push_elements(out, alloc, &look, target.as_ref(), elements.as_slice())
        }
        Err(_) => Err(AllocError),
    }
}

/// Writes what is shown of a unit that is unknown by this case: its lines in the report, and the bits of the case's cone.
pub(crate) fn push_unknown(
    out: &mut Vec<u8>,
    alloc: Global,
    design: &Design,
    units: &[Unit],
    unit: Unit,
    leaf: &Leaf,
    choice: &Choice,
    told: &UnitResult,
    case: &Case,
) -> Result<(), AllocError>
    requires units { units.now ≡ units_of design.now }
    requires part { IsPart design.now leaf.now choice.now }
    requires case { IsCaseOf design.now leaf.now choice.now case.now.classes }
    ensures { OnOk result (out.new.items ≡ out.old.items ++ unknown_lines (record { design = design.now; units = units.now }) unit leaf.now choice.now told.now case.now) }
{
    push_heading(out, told.name.as_bytes(), &told.verdict)?;
    push_case(out, design, told.params.as_slice(), case)?;
    push_cone(out, alloc, design, units, unit, leaf, choice, case)
}
