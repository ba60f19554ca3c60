// Kinds, codes and values of elements.
ghost use Rattle.std.specs.Prelude.{◌≡◌, ◌==◌, ◌++◌, min, true, All, IfOk, OnOk};
ghost use Rattle.std.specs.List.{list_all};
ghost use Rattle.smv_read_report.specs.Pieces.{is_digit, is_numeral};
ghost use Rattle.smv_waveforms.specs.Values.{bits, code_of, kind_with, kinds_of, kinds_with, number_in, number_of, number_text, text_text, value_text, widened};

use crate::text::bits;
use smv_core::Name;
use smv_read_report::FalseUnit;
use std::alloc::{AllocError, Global};

/// How the values of an element are dumped: as numbers of so many bits, or as texts.
#[derive(Clone, Copy, PartialEq, Eq)]
pub enum Kind {
    Bits { width: usize },
    Text,
}

const GREATEST: u32 = 65_535;

// How many codes there are of one byte, and the first of them.
const CODES: usize = 94;

const FIRST_CODE: u8 = b'!';

// How many bytes a code has at most.
const PLACES: usize = 10;

/// The kind of each element of a unit.
pub(crate) fn kinds_of(alloc: Global, unit: &FalseUnit) -> Result<Vec<Kind>, AllocError>
    ensures { IfOk result (λ kinds. kinds.items ≡ kinds_of unit.now) }
{
    let mut kinds = Vec::new(alloc);
    for _element in unit.elements.as_slice() {
        kinds.push(Kind::Bits { width: 1 })?;
    }
    for state in unit.states.as_slice() {
        kinds = kinds_with(alloc, kinds.as_slice(), state.as_slice())?;
    }
    Ok(kinds)
}

// The kinds with one more value of each element.
fn kinds_with(alloc: Global, kinds: &[Kind], values: &[Name]) -> Result<Vec<Kind>, AllocError>
    ensures { IfOk result (λ all. all.items ≡ kinds_with kinds.now values.now) }
{
    let mut all = Vec::new(alloc);
    let mut kinds = kinds;
    let mut values = values;
    while let ([kind, other_kinds @ ..], [value, other_values @ ..]) = (kinds, values) {
        all.push(kind_with(alloc, *kind, value.as_bytes())?)?;
        kinds = other_kinds;
        values = other_values;
    }
    Ok(all)
}

// A kind with one more value.
fn kind_with(alloc: Global, kind: Kind, value: &[u8]) -> Result<Kind, AllocError>
    ensures { IfOk result (λ more. more ≡ kind_with kind value.now) }
{
    match kind {
        Kind::Bits { width } => widened(alloc, width, number_in(value)),
        Kind::Text => Ok(Kind::Text),
    }
}

// So many bits as a number needs too, or a text where there is none.
fn widened(alloc: Global, width: usize, number: Option<u32>) -> Result<Kind, AllocError>
    ensures { IfOk result (λ more. more ≡ widened width number) }
{
    match number {
        Some(number) => {
            let width = width.max(bits(alloc, number)?.len());
            Ok(Kind::Bits { width })
        }
        None => Ok(Kind::Text),
    }
}

fn is_digit(b: u8) -> bool
    ensures { result ≡ is_digit b }
{
    b >= b'0' && b <= b'9'
}

fn are_digits(value: &[u8]) -> bool
    ensures { result ≡ list_all is_digit value.now }
{
    value.iter().all(|b| is_digit(*b))
}

fn is_numeral(value: &[u8]) -> bool
    ensures { result ≡ is_numeral value.now }
{
    !value.is_empty() && are_digits(value)
}

// The number of a numeral of sixteen bits at most.
fn number_in(value: &[u8]) -> Option<u32>
    ensures { result ≡ number_in value.now }
{
    if !is_numeral(value) {
        return None;
    }
    let number = number_of(value);
    if number > GREATEST {
        None
    } else {
        Some(number)
    }
}

// The number that digits spell, or 65536 where they spell one above 65535.
fn number_of(digits: &[u8]) -> u32
    requires { All (λ b. is_digit b ≡ true) digits.now }
    ensures { result ≡ min (number_of digits.now) 65536 }
{
    let mut number: u32 = 0;
    for digit in digits {
        number = (10 * number + u32::from(*digit - b'0')).min(GREATEST + 1);
    }
    number
}

/// Writes the code of the element of this number.
#[tactic(auto, using(crate::proofs::Codes::code_last), unfolding(crate::specs::Values::code_of))]
pub(crate) fn push_code(out: &mut Vec<u8>, number: usize) -> Result<(), AllocError>
    ensures { OnOk result (out.new.items ≡ out.old.items ++ code_of number) }
{
    let mut rest = number;
    let mut places = PLACES;
    while places > 0 {
        out.push(FIRST_CODE + (rest % CODES) as u8)?;
        rest /= CODES;
        if rest == 0 {
            return Ok(());
        }
        places -= 1;
    }
    Ok(())
}

/// Writes a value of the element of this number.
pub(crate) fn push_value(
    out: &mut Vec<u8>,
    alloc: Global,
    element: usize,
    kind: Kind,
    value: &[u8],
) -> Result<(), AllocError>
    ensures { OnOk result (out.new.items ≡ out.old.items ++ value_text kind value.now (code_of element)) }
{
    match kind {
        Kind::Bits { width } => match number_in(value) {
            Some(number) => push_bits(out, alloc, element, width, number),
            None => push_text(out, element, value),
        },
        Kind::Text => push_text(out, element, value),
    }
}

// Writes a number of so many bits.
fn push_bits(
    out: &mut Vec<u8>,
    alloc: Global,
    element: usize,
    width: usize,
    number: u32,
) -> Result<(), AllocError>
    ensures { OnOk result (out.new.items ≡ out.old.items ++ number_text (width == 1) (bits number) (code_of element)) }
{
    let digits = bits(alloc, number)?;
    if width == 1 {
        out.extend_from_slice(digits.as_bytes())?;
    } else {
        out.push(b'b')?;
        out.extend_from_slice(digits.as_bytes())?;
        out.push(b' ')?;
    }
    push_code(out, element)
}

// Writes a text.
fn push_text(out: &mut Vec<u8>, element: usize, value: &[u8]) -> Result<(), AllocError>
    ensures { OnOk result (out.new.items ≡ out.old.items ++ text_text value.now (code_of element)) }
{
    out.push(b's')?;
    out.extend_from_slice(value)?;
    out.push(b' ')?;
    push_code(out, element)
}
