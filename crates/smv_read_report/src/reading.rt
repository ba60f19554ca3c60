// The lines of a report together.
ghost use Rattle.std.specs.Prelude.{◌≡◌, ◌<◌, [], ◌∷◌, ◌++◌, true, false, length, Some, IfOk, MatchResult, Ok};
ghost use Rattle.std.specs.Str.{bytes_eq};
ghost use Rattle.std.specs.Fmt.{decimal};
ghost use Rattle.smv_read_report.specs.Lines.{line_of};
ghost use Rattle.smv_read_report.specs.Pieces.{pieces};
ghost use Rattle.smv_read_report.specs.Reports.{Tells, after_state, at_case, at_state, at_unit, begun, grown, is_count, is_next, is_whole, line_fault, nothing_read, read_from, report_of, with_line};
ghost use Rattle.smv_read_report.specs.declared.line.Line.TheVariants.{Case, Proved, Time};
ghost use Rattle.smv_read_report.specs.declared.reading.ReadFailure.TheVariants.{OutOfMemory};

use crate::line::{Cells, Line, line_of};
use crate::pieces::pieces;
use itoa::Buffer;
use smv_core::{Name, Seq};
use std::alloc::{AllocError, Global};

/// A false unit: its name, the classes of its case (none where it has no parameters), the names of its elements, and for each time from 0 on the value of each element in their order.
#[derive(Drop)]
pub struct FalseUnit {
    pub name: Name,
    pub case: Seq<Name>,
    pub elements: Seq<Name>,
    pub states: Seq<Seq<Name>>,
}

/// Which line is due.
#[derive(Drop)]
pub enum Due {
    /// That of a unit, or the last line.
    Unit,
    /// The same, or the case of the unit before.
    Case,
    /// The next state of this unit, whose path ends at this time, in decimal; before its first also its case.
    State { unit: FalseUnit, last: Name },
    /// None: the report is whole.
    Nothing,
}

/// What is read of a report: the false units whose paths are whole, of each unit whether it is true, and which line is due.
#[derive(Drop)]
pub struct Reading {
    pub found: Seq<FalseUnit>,
    pub told: Seq<bool>,
    pub due: Due,
}

/// A fault of a text that is no report, by its number and its line, from 1: 1 a line of no form, 2 a line that may not stand there, 3 a text that ends before the report does.
#[derive(Clone, Copy, PartialEq, Eq)]
pub struct ReportFault {
    pub number: u8,
    pub line: usize,
}

/// Why nothing was read: the fault of the text, or want of memory.
#[derive(Clone, Copy, PartialEq, Eq)]
pub enum ReadFailure {
    Fault(ReportFault),
    OutOfMemory,
}

impl From<AllocError> for ReadFailure {
    ghost from_gives = { λ _ e. e ≡ OutOfMemory };

    fn from(_: AllocError) -> Self {
        ReadFailure::OutOfMemory
    }
}

/// The false units of a report, in their order, or the first fault of a text that is none.
#[tactic(auto, unfolding(crate::specs::Reports::report_of))]
pub fn false_units(alloc: Global, text: &[u8]) -> Result<Seq<FalseUnit>, ReadFailure>
    ensures { MatchResult result (λ units. report_of text.now ≡ Ok units) (λ failure. Tells failure (report_of text.now)) }
{
    let lines = pieces(alloc, b'\n', text)?;
    units_of(alloc, lines.as_slice())
}

// The false units of the lines of a text, of which the last is what stands behind the last line feed.
fn units_of(alloc: Global, lines: &[Name]) -> Result<Seq<FalseUnit>, ReadFailure>
    ensures { MatchResult result (λ units. read_from 1 nothing_read lines.now ≡ Ok units) (λ failure. Tells failure (read_from 1 nothing_read lines.now)) }
{
    let mut reading = Reading {
        found: Seq::new(alloc),
        told: Seq::new(alloc),
        due: Due::Unit,
    };
    let mut number = 1;
    let mut rest = lines;
    while let [line, _, ..] = rest {
        let line = line_of(alloc, pieces(alloc, b' ', line.as_bytes())?.as_slice())?;
        let fault = ReportFault {
            number: line_fault(&line),
            line: number,
        };
        reading = match with_line(alloc, reading, line)? {
            Some(reading) => reading,
            None => return Err(ReadFailure::Fault(fault)),
        };
        number += 1;
        rest = rest.split_at(1).1;
    }
    at_end(number, reading, rest)
}

// The units that are found, where the text ends here and the report is whole.
fn at_end(line: usize, reading: Reading, rest: &[Name]) -> Result<Seq<FalseUnit>, ReadFailure>
    requires { length rest.now < 2 }
    ensures { MatchResult result (λ units. read_from line reading rest.now ≡ Ok units) (λ failure. Tells failure (read_from line reading rest.now)) }
{
    let ends = match rest {
        [piece, ..] => piece.as_bytes().is_empty(),
        [] => true,
    };
    if ends && is_whole(&reading.due) {
        let Reading {
            found,
            told: _,
            due: _,
        } = reading;
        Ok(found)
    } else {
        Err(ReadFailure::Fault(ReportFault { number: 3, line }))
    }
}

// Whether no line is due.
fn is_whole(due: &Due) -> bool
    ensures { result ≡ is_whole due.now }
{
    matches!(due, Due::Nothing)
}

// The fault of a line that may not stand where it does.
fn line_fault(line: &Line) -> u8
    ensures { result ≡ line_fault line.now }
{
    match line {
        Line::Other => 1,
        _ => 2,
    }
}

// What is read with one more line, where that line may stand there.
fn with_line(alloc: Global, reading: Reading, line: Line) -> Result<Option<Reading>, AllocError>
    ensures { IfOk result (λ next. next ≡ with_line reading line) }
{
    let Reading { found, told, due } = reading;
    match due {
        Due::Unit => at_unit(alloc, found, told, line),
        Due::Case => at_case(alloc, found, told, line),
        Due::State { unit, last } => at_state(found, told, unit, last, line),
        Due::Nothing => Ok(None),
    }
}

// The same where a unit or the last line is due.
fn at_unit(
    alloc: Global,
    found: Seq<FalseUnit>,
    told: Seq<bool>,
    line: Line,
) -> Result<Option<Reading>, AllocError>
    ensures { IfOk result (λ next. next ≡ at_unit found told line) }
{
    match line {
        Line::True => with_unit(found, told, true, Due::Unit),
        Line::Unknown => with_unit(found, told, false, Due::Case),
        Line::False { name, last } => {
            let unit = begun(alloc, name);
            with_unit(found, told, false, Due::State { unit, last })
        }
        Line::Proved { proved, units } => Ok(ended(
            found,
            told,
            proved.as_bytes(),
            units.as_bytes(),
        )),
        Line::Case { classes: _ } => Ok(None),
        Line::Time { time: _, cells: _ } => Ok(None),
        Line::Other => Ok(None),
    }
}

// A unit whose path is not read yet.
fn begun(alloc: Global, name: Name) -> FalseUnit
    ensures { result ≡ begun name }
{
    FalseUnit {
        name,
        case: Seq::new(alloc),
        elements: Seq::new(alloc),
        states: Seq::new(alloc),
    }
}

// What is read where one more unit is told, and this line is due.
fn with_unit(
    found: Seq<FalseUnit>,
    told: Seq<bool>,
    is_true: bool,
    due: Due,
) -> Result<Option<Reading>, AllocError>
    ensures { IfOk result (λ next. next ≡ Some (record { found = found; told = told ++ is_true ∷ []; due = due })) }
{
    let mut told = told;
    told.push(is_true)?;
    Ok(Some(Reading { found, told, due }))
}

// The whole report, where these are its numbers.
fn ended(found: Seq<FalseUnit>, told: Seq<bool>, proved: &[u8], units: &[u8]) -> Option<Reading>
    ensures { result ≡ at_unit found told (Proved proved.now units.now) }
{
    if is_count(told.as_slice(), proved, units) {
        let due = Due::Nothing;
        Some(Reading { found, told, due })
    } else {
        None
    }
}

// Whether these are the numbers of the units that are true and of all units.
fn is_count(told: &[bool], proved: &[u8], units: &[u8]) -> bool
    ensures { result ≡ is_count told.now proved.now units.now }
{
    let count = told.iter().filter(|is_true| **is_true).count();
    is_decimal(proved, count) && is_decimal(units, told.len())
}

// Whether these bytes are the number in decimal.
fn is_decimal(bytes: &[u8], number: usize) -> bool
    ensures { result ≡ bytes_eq bytes.now (decimal number) }
{
    let mut buffer = Buffer::new();
    bytes == buffer.format(number).as_bytes()
}

// The same where the case of an unknown unit may come too.
fn at_case(
    alloc: Global,
    found: Seq<FalseUnit>,
    told: Seq<bool>,
    line: Line,
) -> Result<Option<Reading>, AllocError>
    ensures { IfOk result (λ next. next ≡ at_case found told line) }
{
    match line {
        Line::Case { classes: _ } => {
            let due = Due::Unit;
            Ok(Some(Reading { found, told, due }))
        }
        other => at_unit(alloc, found, told, other),
    }
}

// The same where a state of this unit is due.
fn at_state(
    found: Seq<FalseUnit>,
    told: Seq<bool>,
    unit: FalseUnit,
    last: Name,
    line: Line,
) -> Result<Option<Reading>, AllocError>
    ensures { IfOk result (λ next. next ≡ at_state found told unit last line) }
{
    match line {
        Line::Case { classes } => Ok(with_case(found, told, unit, last, classes)),
        Line::Time { time, cells } => with_time(found, told, unit, last, time, cells),
        Line::True => Ok(None),
        Line::Unknown => Ok(None),
        Line::False { name: _, last: _ } => Ok(None),
        Line::Proved {
            proved: _,
            units: _,
        } => Ok(None),
        Line::Other => Ok(None),
    }
}

// What is read with the case of a unit of which nothing is read yet.
fn with_case(
    found: Seq<FalseUnit>,
    told: Seq<bool>,
    unit: FalseUnit,
    last: Name,
    classes: Seq<Name>,
) -> Option<Reading>
    ensures { result ≡ at_state found told unit last (Case classes) }
{
    if unit.states.len() != 0 || unit.case.len() != 0 {
        return None;
    }
    let FalseUnit {
        name,
        case: _,
        elements,
        states,
    } = unit;
    let unit = FalseUnit {
        name,
        case: classes,
        elements,
        states,
    };
    let due = Due::State { unit, last };
    Some(Reading { found, told, due })
}

// What is read with one more state of a unit.
fn with_time(
    found: Seq<FalseUnit>,
    told: Seq<bool>,
    unit: FalseUnit,
    last: Name,
    time: Name,
    cells: Cells,
) -> Result<Option<Reading>, AllocError>
    ensures { IfOk result (λ next. next ≡ at_state found told unit last (Time time cells)) }
{
    if !is_next(&unit, time.as_bytes(), &cells) {
        return Ok(None);
    }
    let unit = grown(unit, cells)?;
    let ends = time.as_bytes() == last.as_bytes();
    Ok(Some(after_state(found, told, unit, ends, last)?))
}

// Whether a state is that of the next time, and of the same elements.
fn is_next(unit: &FalseUnit, time: &[u8], cells: &Cells) -> bool
    ensures { result ≡ is_next unit.now time.now cells.now }
{
    let states = unit.states.len();
    is_decimal(time, states)
        && (states == 0 || unit.elements.as_slice() == cells.elements.as_slice())
}

// A unit with one more state.
fn grown(unit: FalseUnit, cells: Cells) -> Result<FalseUnit, AllocError>
    ensures { IfOk result (λ more. more ≡ grown unit cells) }
{
    let FalseUnit {
        name,
        case,
        elements: _,
        states,
    } = unit;
    let Cells { elements, values } = cells;
    let mut states = states;
    states.push(values)?;
    Ok(FalseUnit {
        name,
        case,
        elements,
        states,
    })
}

// What is read where a unit has one more state, and its path ends or not.
fn after_state(
    found: Seq<FalseUnit>,
    told: Seq<bool>,
    unit: FalseUnit,
    ends: bool,
    last: Name,
) -> Result<Reading, AllocError>
    ensures { IfOk result (λ next. next ≡ after_state found told unit ends last) }
{
    if ends {
        let mut found = found;
        found.push(unit)?;
        let due = Due::Unit;
        Ok(Reading { found, told, due })
    } else {
        let due = Due::State { unit, last };
        Ok(Reading { found, told, due })
    }
}
