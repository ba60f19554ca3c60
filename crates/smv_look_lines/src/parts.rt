// Names, types, places and times, as they are written.
ghost use Rattle.std.specs.Prelude.{◌≡◌, ◌++◌, codes, get_or, slice_get, [], OnOk};
ghost use Rattle.law_obligations.specs.Outlines.{unit_in};
ghost use Rattle.smv_cases.specs.Faults.{place_of_unit};
ghost use Rattle.smv_look_lines.specs.Lists.{name_text};
ghost use Rattle.smv_look_lines.specs.Parts.{kind_text, name_of_set, numbers_text, place_text, time_text, type_text, words_text};

use smv_core::Name;
use smv_core::flat::{Design, Simple, Timing, Unit};
use smv_report::{column_of, line_of};
use smv_report_lines::push_number;
use std::alloc::AllocError;

// Writes each of these words behind a blank.
fn push_words(out: &mut Vec<u8>, words: &[Name]) -> Result<(), AllocError>
    ensures { OnOk result (out.new.items ≡ out.old.items ++ words_text words.now) }
{
    for word in words {
        out.push(b' ')?;
        out.extend_from_slice(word.as_bytes())?;
    }
    Ok(())
}

/// Writes each of these numbers, counted from 1, behind a blank.
pub(crate) fn push_numbers(out: &mut Vec<u8>, numbers: &[u16]) -> Result<(), AllocError>
    ensures { OnOk result (out.new.items ≡ out.old.items ++ numbers_text numbers.now) }
{
    for number in numbers {
        out.push(b' ')?;
        push_number(out, usize::from(*number) + 1)?;
    }
    Ok(())
}

/// Writes a name behind a blank, if there is one.
pub(crate) fn push_name(out: &mut Vec<u8>, name: &[u8]) -> Result<(), AllocError>
    ensures { OnOk result (out.new.items ≡ out.old.items ++ name_text name.now) }
{
    if name.is_empty() {
        return Ok(());
    }
    out.push(b' ')?;
    out.extend_from_slice(name)
}

// The constants of an enumeration.
fn constants(design: &Design, list: u16) -> &[Name]
    ensures { result.now ≡ get_or design.now.enums list [] }
{
    match design.enums.as_slice().get(list as usize) {
        Some(names) => names.as_slice(),
        None => &[],
    }
}

/// The name of a set type.
pub(crate) fn set_name(design: &Design, set: u16) -> &[u8]
    ensures { result.now ≡ name_of_set (slice_get design.now.sets set) }
{
    match design.sets.as_slice().get(set as usize) {
        Some(info) => info.name.as_bytes(),
        None => b"",
    }
}

/// Writes a type.
pub fn push_type(out: &mut Vec<u8>, design: &Design, over: Simple) -> Result<(), AllocError>
    ensures { OnOk result (out.new.items ≡ out.old.items ++ type_text design.now over) }
{
    match over {
        Simple::Range { low, high } => {
            push_number(out, usize::from(low))?;
            out.extend_from_slice(b"..")?;
            push_number(out, usize::from(high))
        }
        Simple::Enum { list } => {
            out.push(b'{')?;
            push_words(out, constants(design, list))?;
            out.extend_from_slice(b" }")
        }
        Simple::Set { set } => out.extend_from_slice(set_name(design, set)),
    }
}

/// Writes whether a unit is a map or a claim.
pub(crate) fn push_kind(out: &mut Vec<u8>, unit: Unit) -> Result<(), AllocError>
    ensures { OnOk result (out.new.items ≡ out.old.items ++ kind_text unit) }
{
    match unit {
        Unit::Map { def: _ } => out.extend_from_slice(b"map"),
        Unit::Claim { claim: _ } => out.extend_from_slice(b"claim"),
    }
}

/// Writes the time of a use.
pub(crate) fn push_time(out: &mut Vec<u8>, time: Timing) -> Result<(), AllocError>
    ensures { OnOk result (out.new.items ≡ out.old.items ++ time_text time) }
{
    match time {
        Timing::Now => out.extend_from_slice(b" now"),
        Timing::Before => out.extend_from_slice(b" before"),
    }
}

/// The offset at which a unit stands.
pub(crate) fn place_of_unit(design: &Design, unit: Unit) -> u32
    ensures { result ≡ place_of_unit (unit_in design.now unit) }
{
    match unit {
        Unit::Map { def } => match design.defs.as_slice().get(usize::from(def)) {
            Some(def) => def.at,
            None => 0,
        },
        Unit::Claim { claim } => match design.claims.as_slice().get(usize::from(claim)) {
            Some(claim) => claim.at,
            None => 0,
        },
    }
}

/// Writes the line and the column of an offset of a text.
pub fn push_place(out: &mut Vec<u8>, text: &[u8], at: u32) -> Result<(), AllocError>
    ensures { OnOk result (out.new.items ≡ out.old.items ++ place_text text.now at) }
{
    let at = at as usize;
    out.extend_from_slice(b" at line ")?;
    push_number(out, line_of(text, at))?;
    out.extend_from_slice(b" column ")?;
    push_number(out, column_of(text, at))
}
