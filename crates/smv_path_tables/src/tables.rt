// The tables of false units.
ghost use Rattle.std.specs.Prelude.{◌≡◌, ◌++◌, codes, flat_map, map, IfOk, OnOk};
ghost use Rattle.std.specs.Fmt.{decimal};
ghost use Rattle.smv_path_tables.specs.Tables as spec;
ghost use Rattle.smv_path_tables.specs.Tables.{blanks, case_lines, cell, head_line, row, rows, shown, shown_after, table, tables, time_cells, time_row, value_of};

use crate::widths::{widest, width_of};
use itoa::Buffer;
use smv_core::{Name, Seq};
use smv_read_report::FalseUnit;
use std::alloc::{AllocError, Global};

// Writes so many blanks.
fn push_blanks(out: &mut Vec<u8>, count: usize) -> Result<(), AllocError>
    ensures { OnOk result (out.new.items ≡ out.old.items ++ blanks count) }
{
    for _index in 0..count {
        out.push(b' ')?;
    }
    Ok(())
}

// Writes a number in decimal.
fn push_number(out: &mut Vec<u8>, number: usize) -> Result<(), AllocError>
    ensures { OnOk result (out.new.items ≡ out.old.items ++ decimal number) }
{
    let mut buffer = Buffer::new();
    out.extend_from_slice(buffer.format(number).as_bytes())
}

// Writes a text at the right of a column.
fn push_cell(out: &mut Vec<u8>, width: usize, text: &[u8]) -> Result<(), AllocError>
    ensures { OnOk result (out.new.items ≡ out.old.items ++ cell width text.now) }
{
    out.extend_from_slice(b"  ")?;
    push_blanks(out, width.saturating_sub(text.len()))?;
    out.extend_from_slice(text)
}

// Writes a time at the right of a column.
fn push_time(out: &mut Vec<u8>, width: usize, time: usize) -> Result<(), AllocError>
    ensures { OnOk result (out.new.items ≡ out.old.items ++ cell width (decimal time)) }
{
    let mut buffer = Buffer::new();
    push_cell(out, width, buffer.format(time).as_bytes())
}

// Writes the times of these states.
fn push_times(out: &mut Vec<u8>, width: usize, states: &[Seq<Name>]) -> Result<(), AllocError>
    ensures { OnOk result (out.new.items ≡ out.old.items ++ time_cells width 0 states.now) }
{
    for (time, _state) in states.iter().enumerate() {
        push_time(out, width, time)?;
    }
    Ok(())
}

// Writes the line of times.
fn push_time_row(
    out: &mut Vec<u8>,
    names: usize,
    width: usize,
    states: &[Seq<Name>],
) -> Result<(), AllocError>
    ensures { OnOk result (out.new.items ≡ out.old.items ++ time_row names width states.now) }
{
    out.push(b' ')?;
    push_blanks(out, names)?;
    push_times(out, width, states)?;
    out.push(b'\n')?;
    Ok(())
}

// The value in a state of the element of this number.
fn value_of(state: &[Name], place: usize) -> &[u8]
    ensures { result.now ≡ value_of place state.now }
{
    match state.get(place) {
        Some(value) => value.as_bytes(),
        None => b"",
    }
}

// What is shown of a value behind another.
fn change<'a>(old: &[u8], new: &'a [u8]) -> &'a [u8]
    ensures { result.now ≡ spec.change old.now new.now }
{
    if old == new { b"." } else { new }
}

// Writes what is shown of the values of an element behind this one.
fn push_later(
    out: &mut Vec<u8>,
    width: usize,
    place: usize,
    first: &[u8],
    states: &[Seq<Name>],
) -> Result<(), AllocError>
    ensures { OnOk result (out.new.items ≡ out.old.items ++ flat_map (cell width) (shown_after first.now (map (value_of place) states.now))) }
{
    let mut old = first;
    for state in states {
        let new = value_of(state.as_slice(), place);
        push_cell(out, width, change(old, new))?;
        old = new;
    }
    Ok(())
}

// Writes what is shown of the values of an element.
fn push_values(
    out: &mut Vec<u8>,
    width: usize,
    place: usize,
    states: &[Seq<Name>],
) -> Result<(), AllocError>
    ensures { OnOk result (out.new.items ≡ out.old.items ++ flat_map (cell width) (shown (map (value_of place) states.now))) }
{
    let [state, later @ ..] = states else {
        return Ok(());
    };
    let first = value_of(state.as_slice(), place);
    push_cell(out, width, first)?;
    push_later(out, width, place, first, later)
}

// Writes the row of an element.
fn push_row(
    out: &mut Vec<u8>,
    names: usize,
    width: usize,
    place: usize,
    unit: &FalseUnit,
    element: &[u8],
) -> Result<(), AllocError>
    ensures { OnOk result (out.new.items ≡ out.old.items ++ row names width place unit.now.states element.now) }
{
    out.push(b' ')?;
    out.extend_from_slice(element)?;
    push_blanks(out, names.saturating_sub(element.len()))?;
    push_values(out, width, place, unit.states.as_slice())?;
    out.push(b'\n')?;
    Ok(())
}

// Writes the rows of all elements.
fn push_rows(
    out: &mut Vec<u8>,
    names: usize,
    width: usize,
    unit: &FalseUnit,
) -> Result<(), AllocError>
    ensures { OnOk result (out.new.items ≡ out.old.items ++ rows names width 0 unit.now.states unit.now.elements) }
{
    for (place, element) in unit.elements.as_slice().iter().enumerate() {
        push_row(out, names, width, place, unit, element.as_bytes())?;
    }
    Ok(())
}

// Writes the line of a unit.
fn push_head(out: &mut Vec<u8>, unit: &FalseUnit) -> Result<(), AllocError>
    ensures { OnOk result (out.new.items ≡ out.old.items ++ head_line unit.now) }
{
    out.extend_from_slice(unit.name.as_bytes())?;
    out.extend_from_slice(b": false at ")?;
    push_number(out, unit.states.len().saturating_sub(1))?;
    out.push(b'\n')?;
    Ok(())
}

// Writes classes behind the first.
fn push_more(out: &mut Vec<u8>, classes: &[Name]) -> Result<(), AllocError>
    ensures { OnOk result (out.new.items ≡ out.old.items ++ flat_map (λ other. codes ", " ++ other) classes.now) }
{
    for class in classes {
        out.extend_from_slice(b", ")?;
        out.extend_from_slice(class.as_bytes())?;
    }
    Ok(())
}

// Writes the case of a unit that has parameters.
fn push_case(out: &mut Vec<u8>, classes: &[Name]) -> Result<(), AllocError>
    ensures { OnOk result (out.new.items ≡ out.old.items ++ case_lines classes.now) }
{
    let [first, more @ ..] = classes else {
        return Ok(());
    };
    out.extend_from_slice(b" case ")?;
    out.extend_from_slice(first.as_bytes())?;
    push_more(out, more)?;
    out.push(b'\n')?;
    Ok(())
}

// Writes the table of a unit.
fn push_table(out: &mut Vec<u8>, unit: &FalseUnit) -> Result<(), AllocError>
    ensures { OnOk result (out.new.items ≡ out.old.items ++ table unit.now) }
{
    let names = widest(unit.elements.as_slice());
    let width = width_of(unit.states.as_slice());
    push_head(out, unit)?;
    push_case(out, unit.case.as_slice())?;
    push_time_row(out, names, width, unit.states.as_slice())?;
    push_rows(out, names, width, unit)
}

/// The paths of false units as tables.
pub fn path_tables(alloc: Global, units: &[FalseUnit]) -> Result<Vec<u8>, AllocError>
    ensures { IfOk result (λ lines. lines.items ≡ tables units.now) }
{
    let mut out = Vec::new(alloc);
    for unit in units {
        push_table(&mut out, unit)?;
    }
    Ok(out)
}
