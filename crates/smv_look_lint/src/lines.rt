// The lines of `lint`.
ghost use Rattle.std.specs.Prelude.{◌≡◌, ◌++◌, codes, slice_get, option_copied, IfOk, OnOk};
ghost use Rattle.law_splits.specs.Leaves.{name_of_family};
ghost use Rattle.smv_look_bounds.specs.declared.doubts.What.TheVariants as what;
ghost use Rattle.smv_look_lint.specs.declared.warnings.Flaw.TheVariants as flaw;
ghost use Rattle.smv_look_lint.specs.Lines.{bounds_text, doubt_text, family_line, flaw_text, lint_lines, nothing_proved, value_text, warning_line, within_text};

use crate::lint::warnings_of;
use crate::warnings::{Flaw, Warning};
use smv_core::flat::{Design, Family, Simple, Unit};
use smv_core::tree::{Span, Text};
use smv_look_bounds::{Bounds, What};
use smv_look_lines::{push_place, push_type};
use smv_problem::Plan;
use smv_report_lines::push_number;
use std::alloc::{AllocError, Global};

const SO_FREE: &[u8] = b", so nothing is ruled out here";

const NO_VALUE: &[u8] = b"this is below 0 or above 511, so nothing is ruled out here";

const ABOVE: &[u8] =
    b"types and conditions do not keep this sum up to 511; above that it is Undefined";

const BELOW: &[u8] =
    b"types and conditions do not keep this difference from going below 0; there it is Undefined";

const ALWAYS: &[u8] = b"this condition is made of constants alone, so it is the same at each time";

const UNASSIGNED: &[u8] =
    b"nothing outside layers assigns it, so it is free; declare it as an input if that is meant";

const UNDEFINED: &[u8] = b"no layer defines it, so it is free";

const UNREAD: &[u8] =
    b"nothing reads it and no map is about it; declare it as an output if that is meant";

const UNUSED: &[u8] = b"nothing reads it and no map is about it";

const UNAPPLIED: &[u8] =
    b"nothing reads it and no proof uses its maps; declare it as an output if that is meant";

// Writes the type of a family's values.
fn push_values(
    out: &mut Vec<u8>,
    design: &Design,
    family: Option<&Family>,
) -> Result<(), AllocError>
    ensures { OnOk result (out.new.items ≡ out.old.items ++ value_text design.now (option_copied family.entry)) }
{
    match family {
        None => Ok(()),
        Some(family) => push_type(out, design, family.value),
    }
}

// Writes that a value is not one of its type.
fn push_stray(
    out: &mut Vec<u8>,
    design: &Design,
    family: Option<&Family>,
    value: Option<u16>,
) -> Result<(), AllocError>
    ensures { OnOk result (out.new.items ≡ out.old.items ++ flaw_text design.now (option_copied family.entry) (flaw.Stray value)) }
{
    match value {
        None => out.extend_from_slice(NO_VALUE),
        Some(k) => {
            push_number(out, usize::from(k))?;
            out.extend_from_slice(b" is not in ")?;
            push_values(out, design, family)?;
            out.extend_from_slice(SO_FREE)
        }
    }
}

// Writes that a span is not within a type.
fn push_span(
    out: &mut Vec<u8>,
    design: &Design,
    family: Option<&Family>,
    span: Span,
) -> Result<(), AllocError>
    ensures { OnOk result (out.new.items ≡ out.old.items ++ flaw_text design.now (option_copied family.entry) (flaw.StraySpan span)) }
{
    push_number(out, usize::from(span.low))?;
    out.extend_from_slice(b"..")?;
    push_number(out, usize::from(span.high))?;
    out.extend_from_slice(b" is not within ")?;
    push_values(out, design, family)?;
    out.extend_from_slice(SO_FREE)
}

// Writes bounds.
fn push_bounds(out: &mut Vec<u8>, bounds: Bounds) -> Result<(), AllocError>
    ensures { OnOk result (out.new.items ≡ out.old.items ++ bounds_text bounds) }
{
    push_number(out, usize::from(bounds.low))?;
    out.extend_from_slice(b"..")?;
    push_number(out, usize::from(bounds.high))?;
    Ok(())
}

// Writes that something has these bounds.
fn push_within(out: &mut Vec<u8>, bounds: Bounds) -> Result<(), AllocError>
    ensures { OnOk result (out.new.items ≡ out.old.items ++ within_text bounds) }
{
    out.extend_from_slice(b"by types and conditions this is within ")?;
    push_bounds(out, bounds)?;
    Ok(())
}

// Writes that an index has bounds which are not within its type.
fn push_index(
    out: &mut Vec<u8>,
    design: &Design,
    bounds: Bounds,
    over: Simple,
) -> Result<(), AllocError>
    ensures { OnOk result (out.new.items ≡ out.old.items ++ doubt_text design.now (what.Index bounds over)) }
{
    push_within(out, bounds)?;
    out.extend_from_slice(b"; as an index outside ")?;
    push_type(out, design, over)?;
    out.extend_from_slice(b" it makes what is read Undefined")
}

// Writes that a value has bounds which are not within the type of what it is given to.
fn push_value(
    out: &mut Vec<u8>,
    design: &Design,
    bounds: Bounds,
    over: Simple,
) -> Result<(), AllocError>
    ensures { OnOk result (out.new.items ≡ out.old.items ++ doubt_text design.now (what.Value bounds over)) }
{
    push_within(out, bounds)?;
    out.extend_from_slice(b"; where it is outside ")?;
    push_type(out, design, over)?;
    out.extend_from_slice(b", nothing is ruled out")
}

// Writes what is doubted of a definition.
fn push_doubt(out: &mut Vec<u8>, design: &Design, what: What) -> Result<(), AllocError>
    ensures { OnOk result (out.new.items ≡ out.old.items ++ doubt_text design.now what) }
{
    match what {
        What::Above => out.extend_from_slice(ABOVE),
        What::Below => out.extend_from_slice(BELOW),
        What::Index { bounds, over } => push_index(out, design, bounds, over),
        What::Value { bounds, over } => push_value(out, design, bounds, over),
        What::Always => out.extend_from_slice(ALWAYS),
    }
}

// Writes what is wrong with a family.
fn push_flaw(
    out: &mut Vec<u8>,
    design: &Design,
    family: Option<&Family>,
    flaw: Flaw,
) -> Result<(), AllocError>
    ensures { OnOk result (out.new.items ≡ out.old.items ++ flaw_text design.now (option_copied family.entry) flaw) }
{
    match flaw {
        Flaw::Stray { value } => push_stray(out, design, family, value),
        Flaw::StraySpan { span } => push_span(out, design, family, span),
        Flaw::Doubted { what } => push_doubt(out, design, what),
        Flaw::Unassigned => out.extend_from_slice(UNASSIGNED),
        Flaw::Undefined => out.extend_from_slice(UNDEFINED),
        Flaw::Unread => out.extend_from_slice(UNREAD),
        Flaw::Unused => out.extend_from_slice(UNUSED),
        Flaw::Unapplied => out.extend_from_slice(UNAPPLIED),
    }
}

// The name of a family.
fn name_of(family: Option<&Family>) -> &[u8]
    ensures { result.now ≡ name_of_family (option_copied family.entry) }
{
    match family {
        Some(family) => family.name.as_bytes(),
        None => b"",
    }
}

// The family of this number.
fn family_of(design: &Design, family: u16) -> Option<&Family>
    ensures { option_copied result ≡ slice_get design.now.families family }
{
    design.families.as_slice().get(family as usize)
}

// Writes the line of what is wrong with a family.
fn push_family(
    out: &mut Vec<u8>,
    text: &[u8],
    design: &Design,
    family: Option<&Family>,
    warning: Warning,
) -> Result<(), AllocError>
    ensures { OnOk result (out.new.items ≡ out.old.items ++ family_line text.now design.now (option_copied family.entry) warning) }
{
    out.extend_from_slice(name_of(family))?;
    push_place(out, text, warning.at)?;
    out.extend_from_slice(b": ")?;
    push_flaw(out, design, family, warning.flaw)?;
    out.push(b'\n')?;
    Ok(())
}

// Writes the line of a warning.
fn push_warning(
    out: &mut Vec<u8>,
    text: &[u8],
    design: &Design,
    warning: Warning,
) -> Result<(), AllocError>
    ensures { OnOk result (out.new.items ≡ out.old.items ++ warning_line text.now design.now warning) }
{
    let family = family_of(design, warning.family);
    push_family(out, text, design, family, warning)
}

// Writes the line of a text without a unit.
fn push_nothing_proved(out: &mut Vec<u8>, text: &[u8], units: &[Unit]) -> Result<(), AllocError>
    ensures { OnOk result (out.new.items ≡ out.old.items ++ nothing_proved text.now units.now) }
{
    if !units.is_empty() {
        return Ok(());
    }
    out.extend_from_slice(b"main")?;
    push_place(out, text, 0)?;
    out.extend_from_slice(b": there is no claim and no map, so nothing is proved\n")
}

/// The lines of `lint`: what is warned of in a text's tree and plan, in the order of the places.
pub fn lint_lines(
    alloc: Global,
    text: &[u8],
    tree: &Text,
    plan: &Plan,
) -> Result<Vec<u8>, AllocError>
    ensures { IfOk result (λ lines. lines.items ≡ lint_lines text.now tree.now plan.now) }
{
    let warnings = warnings_of(alloc, tree, plan)?;
    let mut out = Vec::new(alloc);
    push_nothing_proved(&mut out, text, plan.units.as_slice())?;
    for warning in warnings.as_slice() {
        push_warning(&mut out, text, &plan.design, *warning)?;
    }
    Ok(out)
}
