// Classes and values by themselves, as the lines of a report have them.
ghost use Rattle.std.specs.Prelude.{◌≡◌, ◌++◌, slice_get, IfOk, OnOk};
ghost use Rattle.law_reports.specs.Lines.{class_text, type_of_family};
ghost use Rattle.law_read_reports.specs.Shown as shown;

use smv_core::Name;
use smv_core::flat::{Class, Design, Element, Simple};
use smv_problem::AbsValue;
use smv_report_lines::{push_class, push_value};
use std::alloc::{AllocError, Global};

// The type of the values of a family.
fn value_type(design: &Design, family: u16) -> Simple
    ensures { result ≡ type_of_family design.now (slice_get design.now.families family) }
{
    match design.families.as_slice().get(family as usize) {
        Some(f) => f.value,
        None => Simple::Range { low: 0, high: 0 },
    }
}

/// A class of a type, as it is spelled.
pub(crate) fn class_name(
    alloc: Global,
    design: &Design,
    over: Simple,
    class: Class,
) -> Result<Name, AllocError>
    ensures { IfOk result (λ name. name ≡ class_text design.now over class) }
{
    let mut bytes = Vec::new(alloc);
    push_class(&mut bytes, design, over, class)?;
    Ok(Name::from_vec(bytes))
}

/// Writes a value of an element, as it is spelled.
pub(crate) fn push_value_of(
    out: &mut Vec<u8>,
    design: &Design,
    x: &Element,
    value: AbsValue,
) -> Result<(), AllocError>
    ensures { OnOk result (out.new.items ≡ out.old.items ++ shown.value_name design.now x.now value) }
{
    push_value(out, design, value_type(design, x.family), value)
}

/// A value of an element, as it is spelled.
pub(crate) fn value_name(
    alloc: Global,
    design: &Design,
    x: &Element,
    value: AbsValue,
) -> Result<Name, AllocError>
    ensures { IfOk result (λ name. name ≡ shown.value_name design.now x.now value) }
{
    let mut bytes = Vec::new(alloc);
    push_value_of(&mut bytes, design, x, value)?;
    Ok(Name::from_vec(bytes))
}
