// The lines below that of a unit: its case, and the states of a path.
ghost use Rattle.std.specs.Prelude.{◌≡◌, ◌++◌, OnOk};
ghost use Rattle.law_reports.specs.Lines.{case_line, classes_text, state_text, time_lines, values_text, with_commas};

use crate::values::{push_assignment, push_class, push_number};
use smv_core::flat::{Case, Class, Design, Element, Param};
use smv_problem::{AbsState, AbsValue};
use std::alloc::AllocError;

const COMMA: &[u8] = b", ";

/// Writes the line of a case, where there are parameters.
pub fn push_case(
    out: &mut Vec<u8>,
    design: &Design,
    params: &[Param],
    case: &Case,
) -> Result<(), AllocError>
    ensures { OnOk result (out.new.items ≡ out.old.items ++ case_line design.now params.now case.now) }
{
    if params.is_empty() {
        return Ok(());
    }
    out.extend_from_slice(b" case ")?;
    push_classes(out, design, params, case.classes.as_slice())?;
    out.push(b'\n')?;
    Ok(())
}

// Writes the class of each parameter, with commas between them.
#[tactic(auto, using(crate::proofs::Parts::one_more, crate::proofs::Parts::without))]
fn push_classes(
    out: &mut Vec<u8>,
    design: &Design,
    params: &[Param],
    classes: &[Class],
) -> Result<(), AllocError>
    ensures { OnOk result (out.new.items ≡ out.old.items ++ with_commas (classes_text design.now params.now classes.now)) }
{
    let mut params = params;
    let mut classes = classes;
    let mut separator: &[u8] = b"";
    while let ([param, other_params @ ..], [class, other_classes @ ..]) = (params, classes) {
        out.extend_from_slice(separator)?;
        push_class(out, design, param.over, *class)?;
        params = other_params;
        classes = other_classes;
        separator = COMMA;
    }
    Ok(())
}

// Writes a line for each state of a path.
pub(crate) fn push_times(
    out: &mut Vec<u8>,
    design: &Design,
    elements: &[Element],
    path: &[AbsState],
) -> Result<(), AllocError>
    ensures { OnOk result (out.new.items ≡ out.old.items ++ time_lines design.now elements.now 0 path.now) }
{
    for (time, state) in path.iter().enumerate() {
        out.extend_from_slice(b" time ")?;
        push_number(out, time)?;
        out.push(b':')?;
        push_state(out, design, elements, state.values.as_slice())?;
        out.push(b'\n')?;
    }
    Ok(())
}

// Writes the value of each element, with commas between them.
#[tactic(auto, using(crate::proofs::Parts::one_more, crate::proofs::Parts::of_state))]
fn push_state(
    out: &mut Vec<u8>,
    design: &Design,
    elements: &[Element],
    values: &[AbsValue],
) -> Result<(), AllocError>
    ensures { OnOk result (out.new.items ≡ out.old.items ++ state_text design.now (values_text design.now elements.now values.now)) }
{
    let mut elements = elements;
    let mut values = values;
    let mut separator: &[u8] = b" ";
    while let ([element, other_elements @ ..], [value, other_values @ ..]) = (elements, values) {
        out.extend_from_slice(separator)?;
        push_assignment(out, design, element, *value)?;
        elements = other_elements;
        values = other_values;
        separator = COMMA;
    }
    Ok(())
}
