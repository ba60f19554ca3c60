// The declarations: a scope for each unit, with its case and its elements.
ghost use Rattle.std.specs.Prelude.{◌≡◌, ◌++◌, OnOk};
ghost use Rattle.std.specs.List.{list_all};
ghost use Rattle.smv_waveforms.specs.Vcd.{all_scopes, case_lines, comment_line, identifier, is_letter, is_name_byte, is_simple, kind_text, scope_head, scope_lines, var_line, var_lines, with_commas};

use crate::text::push_number;
use crate::values::{Kind, kinds_of, push_code};
use smv_core::Name;
use smv_read_report::FalseUnit;
use std::alloc::{AllocError, Global};

const COMMA: &[u8] = b", ";

/// Writes the scope of each unit.
pub(crate) fn push_scopes(
    out: &mut Vec<u8>,
    alloc: Global,
    units: &[FalseUnit],
) -> Result<(), AllocError>
    ensures { OnOk result (out.new.items ≡ out.old.items ++ all_scopes 0 units.now) }
{
    let mut first: usize = 0;
    for unit in units {
        push_scope(out, alloc, first, unit)?;
        first = first.checked_add(unit.elements.len()).ok_or(AllocError)?;
    }
    Ok(())
}

// Writes the scope of a unit, whose elements have numbers from this one on.
fn push_scope(
    out: &mut Vec<u8>,
    alloc: Global,
    first: usize,
    unit: &FalseUnit,
) -> Result<(), AllocError>
    ensures { OnOk result (out.new.items ≡ out.old.items ++ scope_lines first unit.now) }
{
    let kinds = kinds_of(alloc, unit)?;
    push_head(out, unit.name.as_bytes())?;
    push_case(out, unit.case.as_slice())?;
    push_vars(out, first, kinds.as_slice(), unit.elements.as_slice())?;
    out.extend_from_slice(b"$upscope $end\n")?;
    Ok(())
}

// Writes the line that begins the scope of a name.
fn push_head(out: &mut Vec<u8>, name: &[u8]) -> Result<(), AllocError>
    ensures { OnOk result (out.new.items ≡ out.old.items ++ scope_head name.now) }
{
    out.extend_from_slice(b"$scope module ")?;
    push_identifier(out, name)?;
    out.extend_from_slice(b" $end")?;
    out.push(b'\n')?;
    Ok(())
}

// Writes a name as an identifier.
fn push_identifier(out: &mut Vec<u8>, name: &[u8]) -> Result<(), AllocError>
    ensures { OnOk result (out.new.items ≡ out.old.items ++ identifier name.now) }
{
    if !is_simple(name) {
        out.push(b'\\')?;
    }
    out.extend_from_slice(name)
}

fn is_letter(b: u8) -> bool
    ensures { result ≡ is_letter b }
{
    b >= b'A' && b <= b'Z' || b >= b'a' && b <= b'z' || b == b'_'
}

fn is_name_byte(b: u8) -> bool
    ensures { result ≡ is_name_byte b }
{
    is_letter(b) || b >= b'0' && b <= b'9'
}

fn are_name_bytes(bytes: &[u8]) -> bool
    ensures { result ≡ list_all is_name_byte bytes.now }
{
    bytes.iter().all(|b| is_name_byte(*b))
}

// Whether a name is an identifier as it is.
#[tactic(auto, using(crate::proofs::Parts::simple_step))]
fn is_simple(name: &[u8]) -> bool
    ensures { result ≡ is_simple name.now }
{
    match name {
        [first, others @ ..] => is_letter(*first) && are_name_bytes(others),
        [] => false,
    }
}

// Writes the case of a unit, where it has parameters.
#[tactic(auto, using(crate::proofs::Parts::case_some))]
fn push_case(out: &mut Vec<u8>, classes: &[Name]) -> Result<(), AllocError>
    ensures { OnOk result (out.new.items ≡ out.old.items ++ case_lines classes.now) }
{
    if classes.is_empty() {
        Ok(())
    } else {
        push_comment(out, classes)
    }
}

// Writes the comment that tells a case.
fn push_comment(out: &mut Vec<u8>, classes: &[Name]) -> Result<(), AllocError>
    ensures { OnOk result (out.new.items ≡ out.old.items ++ comment_line classes.now) }
{
    out.extend_from_slice(b"$comment case ")?;
    push_classes(out, classes)?;
    out.extend_from_slice(b" $end")?;
    out.push(b'\n')?;
    Ok(())
}

// Writes classes with commas between them.
#[tactic(auto, using(crate::proofs::Parts::one_more, crate::proofs::Parts::without))]
fn push_classes(out: &mut Vec<u8>, classes: &[Name]) -> Result<(), AllocError>
    ensures { OnOk result (out.new.items ≡ out.old.items ++ with_commas classes.now) }
{
    let mut separator: &[u8] = b"";
    for class in classes {
        out.extend_from_slice(separator)?;
        out.extend_from_slice(class.as_bytes())?;
        separator = COMMA;
    }
    Ok(())
}

// Writes a variable for each element.
fn push_vars(
    out: &mut Vec<u8>,
    first: usize,
    kinds: &[Kind],
    elements: &[Name],
) -> Result<(), AllocError>
    ensures { OnOk result (out.new.items ≡ out.old.items ++ var_lines first kinds.now elements.now) }
{
    let mut number = first;
    let mut kinds = kinds;
    let mut elements = elements;
    while let ([kind, other_kinds @ ..], [element, other_elements @ ..]) = (kinds, elements) {
        push_var(out, number, *kind, element.as_bytes())?;
        number = number.checked_add(1).ok_or(AllocError)?;
        kinds = other_kinds;
        elements = other_elements;
    }
    Ok(())
}

// Writes the variable of the element of this number.
fn push_var(out: &mut Vec<u8>, number: usize, kind: Kind, element: &[u8]) -> Result<(), AllocError>
    ensures { OnOk result (out.new.items ≡ out.old.items ++ var_line number kind element.now) }
{
    out.extend_from_slice(b"$var ")?;
    push_kind(out, kind)?;
    out.push(b' ')?;
    push_code(out, number)?;
    out.push(b' ')?;
    push_identifier(out, element)?;
    out.extend_from_slice(b" $end\n")
}

// Writes the type and the width of a variable.
fn push_kind(out: &mut Vec<u8>, kind: Kind) -> Result<(), AllocError>
    ensures { OnOk result (out.new.items ≡ out.old.items ++ kind_text kind) }
{
    match kind {
        Kind::Bits { width } => {
            out.extend_from_slice(b"wire ")?;
            push_number(out, width)
        }
        Kind::Text => out.extend_from_slice(b"string 1"),
    }
}
