// What a line of a report says.
ghost use Rattle.std.specs.Prelude.{◌≡◌, IfOk, Some, option_map};
ghost use Rattle.smv_read_report.specs.Lines.{before, case_of, cells_of, detail_of, line_of, of_one, of_three, of_two, proved_of, time_of, unit_of, value_in, verdict_of, word_in, words_of};

use crate::pieces::{is_numeral, is_word, named, without_last};
use smv_core::{Name, Seq};
use std::alloc::{AllocError, Global};

/// The elements of a state and their values, in the same order.
#[derive(Drop)]
pub struct Cells {
    pub elements: Seq<Name>,
    pub values: Seq<Name>,
}

/// What a line says.
#[derive(Drop)]
pub enum Line {
    /// A unit is true.
    True,
    /// A unit is unknown.
    Unknown,
    /// The unit of this name is false; its path ends at this time, in decimal.
    False { name: Name, last: Name },
    /// The classes of the parameters of the unit before.
    Case { classes: Seq<Name> },
    /// The state of a path at this time, in decimal.
    Time { time: Name, cells: Cells },
    /// How many units are true, and how many there are, in decimal.
    Proved { proved: Name, units: Name },
    /// The line is none of a report.
    Other,
}

const COMMA: u8 = b',';

const COLON: u8 = b':';

/// What the line of these pieces between blanks says.
pub(crate) fn line_of(alloc: Global, pieces: &[Name]) -> Result<Line, AllocError>
    ensures { IfOk result (λ line. line ≡ line_of pieces.now) }
{
    let [front, rest @ ..] = pieces else {
        return Ok(Line::Other);
    };
    let front = front.as_bytes();
    if front.is_empty() {
        return detail_of(alloc, rest);
    }
    if front == b"proved".as_slice() {
        return proved_of(alloc, rest);
    }
    match without_last(COLON, front) {
        Some(name) => unit_of(alloc, name, rest),
        None => Ok(Line::Other),
    }
}

// What a line says that begins with a blank.
fn detail_of(alloc: Global, pieces: &[Name]) -> Result<Line, AllocError>
    ensures { IfOk result (λ line. line ≡ detail_of pieces.now) }
{
    let [word, rest @ ..] = pieces else {
        return Ok(Line::Other);
    };
    let word = word.as_bytes();
    if word == b"case".as_slice() {
        return case_of(alloc, rest);
    }
    if word == b"time".as_slice() {
        return time_of(alloc, rest);
    }
    Ok(Line::Other)
}

// What a line says behind ` case`.
fn case_of(alloc: Global, pieces: &[Name]) -> Result<Line, AllocError>
    ensures { IfOk result (λ line. line ≡ case_of pieces.now) }
{
    if pieces.is_empty() {
        return Ok(Line::Other);
    }
    match words_of(alloc, pieces)? {
        Some(classes) => Ok(Line::Case { classes }),
        None => Ok(Line::Other),
    }
}

// What a line says behind ` time`.
fn time_of(alloc: Global, pieces: &[Name]) -> Result<Line, AllocError>
    ensures { IfOk result (λ line. line ≡ time_of pieces.now) }
{
    let [time, rest @ ..] = pieces else {
        return Ok(Line::Other);
    };
    let Some(time) = without_last(COLON, time.as_bytes()) else {
        return Ok(Line::Other);
    };
    let time = named(alloc, time)?;
    match cells_of(alloc, rest)? {
        Some(cells) => Ok(Line::Time { time, cells }),
        None => Ok(Line::Other),
    }
}

// What a line says behind `proved`.
fn proved_of(alloc: Global, pieces: &[Name]) -> Result<Line, AllocError>
    ensures { IfOk result (λ line. line ≡ proved_of pieces.now) }
{
    let [proved, word, units] = pieces else {
        return Ok(Line::Other);
    };
    if word.as_bytes() != b"of".as_slice() {
        return Ok(Line::Other);
    }
    let proved = named(alloc, proved.as_bytes())?;
    let units = named(alloc, units.as_bytes())?;
    Ok(Line::Proved { proved, units })
}

// What a line says behind `NAME:`.
fn unit_of(alloc: Global, name: &[u8], pieces: &[Name]) -> Result<Line, AllocError>
    ensures { IfOk result (λ line. line ≡ unit_of (Some name.now) pieces.now) }
{
    if is_word(name) {
        verdict_of(alloc, name, pieces)
    } else {
        Ok(Line::Other)
    }
}

// What a line says of the unit of this name.
fn verdict_of(alloc: Global, name: &[u8], pieces: &[Name]) -> Result<Line, AllocError>
    ensures { IfOk result (λ line. line ≡ verdict_of name.now pieces.now) }
{
    match pieces {
        [told] => Ok(of_one(told.as_bytes())),
        [told, by] => Ok(of_two(told.as_bytes(), by.as_bytes())),
        [told, by, number] => of_three(
            alloc,
            name,
            told.as_bytes(),
            by.as_bytes(),
            number.as_bytes(),
        ),
        _ => Ok(Line::Other),
    }
}

// `true`
fn of_one(told: &[u8]) -> Line
    ensures { result ≡ of_one told.now }
{
    if told == b"true".as_slice() {
        Line::True
    } else {
        Line::Other
    }
}

// `unknown steps`
fn of_two(told: &[u8], by: &[u8]) -> Line
    ensures { result ≡ of_two told.now by.now }
{
    if told == b"unknown".as_slice() && by == b"steps".as_slice() {
        Line::Unknown
    } else {
        Line::Other
    }
}

// `false at T`, `unknown nodes COUNT`
fn of_three(
    alloc: Global,
    name: &[u8],
    told: &[u8],
    by: &[u8],
    number: &[u8],
) -> Result<Line, AllocError>
    ensures { IfOk result (λ line. line ≡ of_three name.now told.now by.now number.now) }
{
    if told == b"false".as_slice() && by == b"at".as_slice() && is_numeral(number) {
        let name = named(alloc, name)?;
        let last = named(alloc, number)?;
        return Ok(Line::False { name, last });
    }
    if told == b"unknown".as_slice() && by == b"nodes".as_slice() && is_numeral(number) {
        return Ok(Line::Unknown);
    }
    Ok(Line::Other)
}

// A piece before these, without the comma where there are more.
fn before<'a>(piece: &'a [u8], more: &[Name]) -> Option<&'a [u8]>
    ensures { option_map (λ front. front.now) result ≡ before more.now piece.now }
{
    if more.is_empty() {
        Some(piece)
    } else {
        without_last(COMMA, piece)
    }
}

// The word before these pieces, where it is one.
fn word_before<'a>(piece: &'a [u8], more: &[Name]) -> Option<&'a [u8]>
    ensures { option_map (λ word. word.now) result ≡ word_in (before more.now piece.now) }
{
    let word = before(piece, more)?;
    if is_word(word) { Some(word) } else { None }
}

// The value of a cell before these pieces, where it is one.
fn value_before<'a>(
    element: &[u8],
    equals: &[u8],
    value: &'a [u8],
    more: &[Name],
) -> Option<&'a [u8]>
    ensures { option_map (λ word. word.now) result ≡ value_in element.now equals.now (before more.now value.now) }
{
    if is_word(element) && equals == b"=".as_slice() {
        word_before(value, more)
    } else {
        None
    }
}

// `v1, v2`
#[tactic(auto, using(crate::proofs::Led::one_word))]
fn words_of(alloc: Global, pieces: &[Name]) -> Result<Option<Seq<Name>>, AllocError>
    ensures { IfOk result (λ words. words ≡ words_of pieces.now) }
{
    let mut words = Seq::new(alloc);
    let mut rest = pieces;
    while let [piece, more @ ..] = rest {
        let Some(word) = word_before(piece.as_bytes(), more) else {
            return Ok(None);
        };
        words.push(named(alloc, word)?)?;
        rest = more;
    }
    Ok(Some(words))
}

// `e1 = v1, e2 = v2`
#[tactic(auto, using(crate::proofs::Led::one_cell, crate::proofs::Cut::three))]
fn cells_of(alloc: Global, pieces: &[Name]) -> Result<Option<Cells>, AllocError>
    ensures { IfOk result (λ cells. cells ≡ cells_of pieces.now) }
{
    let mut elements = Seq::new(alloc);
    let mut values = Seq::new(alloc);
    let mut rest = pieces;
    while let [element, equals, value, ..] = rest {
        let more = rest.split_at(3).1;
        let element = element.as_bytes();
        let Some(value) = value_before(element, equals.as_bytes(), value.as_bytes(), more) else {
            return Ok(None);
        };
        elements.push(named(alloc, element)?)?;
        values.push(named(alloc, value)?)?;
        rest = more;
    }
    if rest.is_empty() {
        Ok(Some(Cells { elements, values }))
    } else {
        Ok(None)
    }
}
