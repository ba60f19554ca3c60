// Classes, values and elements, as they are written.
ghost use Rattle.std.specs.Prelude.{◌≡◌, ◌++◌, codes, decimal, get_or, slice_get, [], Some, OnOk};
ghost use Rattle.law_reports.specs.Lines.{class_text, constant_text, element_text, indexes_text, rest_text, value_text};
ghost use Rattle.smv_report_lines.specs.Parts.{assignment_text, is_ordered};
ghost use Rattle.smv_core.specs.declared.flat.Simple.TheVariants.{Range};

use itoa::Buffer;
use smv_core::flat::{Class, Design, Element, Family, Simple};
use smv_problem::AbsValue;
use std::alloc::AllocError;

/// Writes a number in decimal.
pub fn push_number(out: &mut Vec<u8>, number: usize) -> Result<(), AllocError>
    ensures { OnOk result (out.new.items ≡ out.old.items ++ decimal number) }
{
    let mut buffer = Buffer::new();
    out.extend_from_slice(buffer.format(number).as_bytes())
}

/// Writes a class of a type, as it is spelled.
pub fn push_class(
    out: &mut Vec<u8>,
    design: &Design,
    over: Simple,
    class: Class,
) -> Result<(), AllocError>
    ensures { OnOk result (out.new.items ≡ out.old.items ++ class_text design.now over class) }
{
    match class {
        Class::Number { value } => push_number(out, usize::from(value)),
        Class::Named { class } => push_named(out, class),
        Class::Rest { gap } => push_rest(out, design, over, gap),
    }
}

// Writes a named class.
fn push_named(out: &mut Vec<u8>, class: u8) -> Result<(), AllocError>
    ensures { OnOk result (out.new.items ≡ out.old.items ++ (codes "#" ++ decimal class)) }
{
    out.push(b'#')?;
    push_number(out, usize::from(class))
}

// Writes the rest of a scalarset, or a gap of an ordset.
fn push_rest(out: &mut Vec<u8>, design: &Design, over: Simple, gap: u8) -> Result<(), AllocError>
    ensures { OnOk result (out.new.items ≡ out.old.items ++ rest_text design.now over gap) }
{
    out.push(b'*')?;
    if is_ordered(design, over) {
        push_number(out, usize::from(gap))
    } else {
        Ok(())
    }
}

// Whether a type is an ordset.
fn is_ordered(design: &Design, over: Simple) -> bool
    ensures { result ≡ is_ordered design.now over }
{
    match over {
        Simple::Set { set } => match design.sets.as_slice().get(set as usize) {
            Some(info) => info.ordered,
            None => false,
        },
        Simple::Range { low: _, high: _ } => false,
        Simple::Enum { list: _ } => false,
    }
}

/// Writes a value of a type, as it is spelled; Undefined is nothing.
pub fn push_value(
    out: &mut Vec<u8>,
    design: &Design,
    over: Simple,
    value: AbsValue,
) -> Result<(), AllocError>
    ensures { OnOk result (out.new.items ≡ out.old.items ++ value_text design.now over value) }
{
    match value {
        AbsValue::Number { value } => push_number(out, usize::from(value)),
        AbsValue::Constant { place } => push_constant(out, design, over, place),
        AbsValue::Named { class } => push_named(out, class),
        AbsValue::Rest { gap } => push_rest(out, design, over, gap),
        AbsValue::Undefined => Ok(()),
    }
}

// Writes the name of a constant.
fn push_constant(
    out: &mut Vec<u8>,
    design: &Design,
    over: Simple,
    place: u16,
) -> Result<(), AllocError>
    ensures { OnOk result (out.new.items ≡ out.old.items ++ constant_text design.now over place) }
{
    match over {
        Simple::Enum { list } => out.extend_from_slice(constant_name(design, list, place)),
        Simple::Range { low: _, high: _ } => push_number(out, usize::from(place)),
        Simple::Set { set: _ } => push_number(out, usize::from(place)),
    }
}

// The name of the constant at this place of an enumeration.
fn constant_name(design: &Design, list: u16, place: u16) -> &[u8]
    ensures { result.now ≡ get_or (get_or design.now.enums list []) place [] }
{
    match design.enums.as_slice().get(list as usize) {
        Some(names) => match names.as_slice().get(place as usize) {
            Some(name) => name.as_bytes(),
            None => b"",
        },
        None => b"",
    }
}

// Writes an element with its value.
pub(crate) fn push_assignment(
    out: &mut Vec<u8>,
    design: &Design,
    element: &Element,
    value: AbsValue,
) -> Result<(), AllocError>
    ensures { OnOk result (out.new.items ≡ out.old.items ++ assignment_text design.now (slice_get design.now.families element.now.family) element.now value) }
{
    match design.families.as_slice().get(element.family as usize) {
        Some(family) => push_in_family(out, design, family, element, value),
        None => push_in_none(out, design, value),
    }
}

// Writes an element of this family with its value.
fn push_in_family(
    out: &mut Vec<u8>,
    design: &Design,
    family: &Family,
    element: &Element,
    value: AbsValue,
) -> Result<(), AllocError>
    ensures { OnOk result (out.new.items ≡ out.old.items ++ assignment_text design.now (Some family.now) element.now value) }
{
    push_of_family(out, design, family, element)?;
    out.extend_from_slice(b" = ")?;
    push_value(out, design, family.value, value)
}

// Writes an element of this family.
fn push_of_family(
    out: &mut Vec<u8>,
    design: &Design,
    family: &Family,
    element: &Element,
) -> Result<(), AllocError>
    ensures { OnOk result (out.new.items ≡ out.old.items ++ element_text design.now (Some family.now) element.now) }
{
    out.extend_from_slice(family.name.as_bytes())?;
    push_indexes(
        out,
        design,
        family.over.as_slice(),
        element.indexes.as_slice(),
    )
}

/// Writes an element; one that leads to no family is nothing.
pub fn push_element(out: &mut Vec<u8>, design: &Design, element: &Element) -> Result<(), AllocError>
    ensures { OnOk result (out.new.items ≡ out.old.items ++ element_text design.now (slice_get design.now.families element.now.family) element.now) }
{
    match design.families.as_slice().get(element.family as usize) {
        Some(family) => push_of_family(out, design, family, element),
        None => Ok(()),
    }
}

// Writes a value where an element leads to no family.
fn push_in_none(out: &mut Vec<u8>, design: &Design, value: AbsValue) -> Result<(), AllocError>
    ensures { OnOk result (out.new.items ≡ out.old.items ++ (codes " = " ++ value_text design.now (Range 0 0) value)) }
{
    out.extend_from_slice(b" = ")?;
    push_value(out, design, Simple::Range { low: 0, high: 0 }, value)
}

// Writes each index in brackets.
fn push_indexes(
    out: &mut Vec<u8>,
    design: &Design,
    types: &[Simple],
    indexes: &[Class],
) -> Result<(), AllocError>
    ensures { OnOk result (out.new.items ≡ out.old.items ++ indexes_text design.now types.now indexes.now) }
{
    let mut types = types;
    let mut indexes = indexes;
    while let ([over, other_types @ ..], [index, other_indexes @ ..]) = (types, indexes) {
        out.push(b'[')?;
        push_class(out, design, *over, *index)?;
        out.push(b']')?;
        types = other_types;
        indexes = other_indexes;
    }
    Ok(())
}
