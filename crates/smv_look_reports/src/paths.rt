// The path of a false unit.
ghost use Rattle.std.specs.Prelude.{◌≡◌, ◌∷◌, ◌++◌, [], map, option_copied, slice_get, IfOk, OnOk};
ghost use Rattle.law_read_reports.specs.Shown.{shown, value_names};
ghost use Rattle.law_reports.specs.Lines.{classes_text};
ghost use Rattle.smv_look_reports.specs.Paths as spec;
ghost use Rattle.smv_look_reports.specs.Paths.{marked, path_lines, sort_mark, target_mark};
ghost use Rattle.smv_problem.specs.declared.report.Verdict.TheVariants.{False};

use crate::values::{class_name, value_name};
use smv_core::flat::{Case, Class, Design, Element, Param};
use smv_core::{Name, Seq};
use smv_look_lines::is_target;
use smv_path_tables::path_tables;
use smv_problem::{AbsState, AbsValue};
use smv_read_report::FalseUnit;
use smv_report_lines::push_element;
use std::alloc::{AllocError, Global};

// Writes the mark of the element of which a map is proved.
fn push_target_mark(out: &mut Vec<u8>, is_target: bool) -> Result<(), AllocError>
    ensures { OnOk result (out.new.items ≡ out.old.items ++ target_mark is_target) }
{
    if is_target {
        out.extend_from_slice(b" target")
    } else {
        Ok(())
    }
}

// Whether the elements of a family are those of an abstract signal.
fn is_abstract(design: &Design, family: u16) -> bool
    ensures { result ≡ spec.is_abstract (slice_get design.now.families family) }
{
    match design.families.as_slice().get(family as usize) {
        Some(f) => f.is_abstract,
        None => false,
    }
}

// Writes the mark of an element of an abstract signal.
fn push_sort_mark(out: &mut Vec<u8>, is_abstract: bool) -> Result<(), AllocError>
    ensures { OnOk result (out.new.items ≡ out.old.items ++ sort_mark is_abstract) }
{
    if is_abstract {
        out.extend_from_slice(b" abstract")
    } else {
        Ok(())
    }
}

// An element by its name with its marks.
fn marked_name(
    alloc: Global,
    design: &Design,
    target: Option<&Element>,
    x: &Element,
) -> Result<Name, AllocError>
    ensures { IfOk result (λ name. name ≡ spec.marked_name design.now (option_copied target.entry) x.now) }
{
    let mut bytes = Vec::new(alloc);
    push_element(&mut bytes, design, x)?;
    push_target_mark(&mut bytes, is_target(target, x))?;
    push_sort_mark(&mut bytes, is_abstract(design, x.family))?;
    Ok(Name::from_vec(bytes))
}

// Elements by their names with their marks.
fn marked_names(
    alloc: Global,
    design: &Design,
    target: Option<&Element>,
    elements: &[Element],
) -> Result<Seq<Name>, AllocError>
    ensures { IfOk result (λ names. names ≡ map (spec.marked_name design.now (option_copied target.entry)) elements.now) }
{
    let mut names = Seq::new(alloc);
    for x in elements {
        let name = marked_name(alloc, design, target, x)?;
        names.push(name)?;
    }
    Ok(names)
}

// The classes of a case, one for each parameter.
fn class_names(
    alloc: Global,
    design: &Design,
    params: &[Param],
    classes: &[Class],
) -> Result<Seq<Name>, AllocError>
    ensures { IfOk result (λ names. names ≡ classes_text design.now params.now classes.now) }
{
    let mut names = Seq::new(alloc);
    let mut params = params;
    let mut classes = classes;
    while let ([param, other_params @ ..], [class, other_classes @ ..]) = (params, classes) {
        let name = class_name(alloc, design, param.over, *class)?;
        names.push(name)?;
        params = other_params;
        classes = other_classes;
    }
    Ok(names)
}

// The values of a state, one for each element.
fn state_names(
    alloc: Global,
    design: &Design,
    elements: &[Element],
    values: &[AbsValue],
) -> Result<Seq<Name>, AllocError>
    ensures { IfOk result (λ names. names ≡ value_names design.now elements.now values.now) }
{
    let mut names = Seq::new(alloc);
    let mut elements = elements;
    let mut values = values;
    while let ([x, other_elements @ ..], [value, other_values @ ..]) = (elements, values) {
        let name = value_name(alloc, design, x, *value)?;
        names.push(name)?;
        elements = other_elements;
        values = other_values;
    }
    Ok(names)
}

// The values of all states of a path.
fn path_names(
    alloc: Global,
    design: &Design,
    elements: &[Element],
    path: &[AbsState],
) -> Result<Seq<Seq<Name>>, AllocError>
    ensures { IfOk result (λ states. states ≡ map (λ state. value_names design.now elements.now state.values) path.now) }
{
    let mut states = Seq::new(alloc);
    for state in path {
        let names = state_names(alloc, design, elements, state.values.as_slice())?;
        states.push(names)?;
    }
    Ok(states)
}

// A unit that is false with this path.
fn false_unit(
    alloc: Global,
    design: &Design,
    target: Option<&Element>,
    name: &[u8],
    params: &[Param],
    case: &Case,
    elements: &[Element],
    path: &[AbsState],
) -> Result<FalseUnit, AllocError>
    ensures { IfOk result (λ unit. unit ∷ [] ≡ map (marked design.now (option_copied target.entry) elements.now) (shown design.now name.now params.now (False case.now elements.now path.now))) }
{
    let classes = class_names(alloc, design, params, case.classes.as_slice())?;
    let names = marked_names(alloc, design, target, elements)?;
    let states = path_names(alloc, design, elements, path)?;
    let name = Name::from_vec(Vec::from_slice(alloc, name)?);
    Ok(FalseUnit {
        name,
        case: classes,
        elements: names,
        states,
    })
}

/// Writes the table of a unit that is false with this path.
pub(crate) fn push_path(
    out: &mut Vec<u8>,
    alloc: Global,
    design: &Design,
    target: Option<&Element>,
    name: &[u8],
    params: &[Param],
    case: &Case,
    elements: &[Element],
    path: &[AbsState],
) -> Result<(), AllocError>
    ensures { OnOk result (out.new.items ≡ out.old.items ++ path_lines design.now (option_copied target.entry) name.now params.now case.now elements.now path.now) }
{
    let unit = false_unit(alloc, design, target, name, params, case, elements, path)?;
    let mut units = Vec::new(alloc);
    units.push(unit)?;
    let table = path_tables(alloc, units.as_slice())?;
    out.extend_from_slice(table.as_slice())
}
