// What is dumped at each time.
ghost use Rattle.std.specs.Prelude.{◌≡◌, ◌++◌, IfOk, OnOk};
ghost use Rattle.smv_waveforms.specs.Parts.{put_at};
ghost use Rattle.smv_waveforms.specs.Vcd.{all_texts, change_line, change_lines, dump_lines, later_lines, side_by_side, state_lines, time_line, time_texts, value_line};

use crate::text::{Text, push_number};
use crate::values::{Kind, kinds_of, push_value};
use smv_core::{Name, Seq};
use smv_read_report::FalseUnit;
use std::alloc::{AllocError, Global};

/// What is dumped at each time of the paths of these units.
#[tactic(auto, using(crate::proofs::Beside::all_step))]
pub(crate) fn all_texts(alloc: Global, units: &[FalseUnit]) -> Result<Vec<Text>, AllocError>
    ensures { IfOk result (λ texts. texts.items ≡ all_texts 0 units.now) }
{
    let mut texts = Vec::new(alloc);
    let mut first: usize = 0;
    for unit in units {
        let kinds = kinds_of(alloc, unit)?;
        let others = time_texts(alloc, first, kinds.as_slice(), unit.states.as_slice())?;
        put_beside(alloc, &mut texts, others.as_slice())?;
        first = first.checked_add(unit.elements.len()).ok_or(AllocError)?;
    }
    Ok(texts)
}

// Puts the texts of one more path beside those of others, time by time.
fn put_beside(alloc: Global, texts: &mut Vec<Text>, others: &[Text]) -> Result<(), AllocError>
    ensures { OnOk result (texts.new.items ≡ side_by_side texts.old.items others.now) }
{
    for (time, other) in others.iter().enumerate() {
        put_at(alloc, texts, time, other.as_bytes())?;
    }
    Ok(())
}

// Puts a text behind that of this time, or behind all where there is none yet.
#[tactic(auto, using(crate::proofs::Beside::put_within, crate::proofs::Beside::put_behind))]
fn put_at(alloc: Global, texts: &mut Vec<Text>, time: usize, other: &[u8]) -> Result<(), AllocError>
    ensures { OnOk result (texts.new.items ≡ put_at time texts.old.items other.now) }
{
    if time < texts.len() {
        texts[time].append(other)
    } else {
        texts.push(Text::from_vec(Vec::from_slice(alloc, other)?))?;
        Ok(())
    }
}

// What is dumped at each time of a path.
fn time_texts(
    alloc: Global,
    first: usize,
    kinds: &[Kind],
    states: &[Seq<Name>],
) -> Result<Vec<Text>, AllocError>
    ensures { IfOk result (λ texts. texts.items ≡ time_texts first kinds.now states.now) }
{
    let mut texts = Vec::new(alloc);
    let [state, later @ ..] = states else {
        return Ok(texts);
    };
    let mut old = state.as_slice();
    texts.push(state_text(alloc, first, kinds, old)?)?;
    for state in later {
        let new = state.as_slice();
        texts.push(change_text(alloc, first, kinds, old, new)?)?;
        old = new;
    }
    Ok(texts)
}

// All values of a state, whose elements have numbers from this one on.
fn state_text(
    alloc: Global,
    first: usize,
    kinds: &[Kind],
    values: &[Name],
) -> Result<Text, AllocError>
    ensures { IfOk result (λ text. text ≡ state_lines first kinds.now values.now) }
{
    let mut out = Vec::new(alloc);
    let mut number = first;
    let mut kinds = kinds;
    let mut values = values;
    while let ([kind, other_kinds @ ..], [value, other_values @ ..]) = (kinds, values) {
        push_line(&mut out, alloc, number, *kind, value.as_bytes())?;
        number = number.checked_add(1).ok_or(AllocError)?;
        kinds = other_kinds;
        values = other_values;
    }
    Ok(Text::from_vec(out))
}

// The values of a state that differ from those of the one before.
fn change_text(
    alloc: Global,
    first: usize,
    kinds: &[Kind],
    olds: &[Name],
    news: &[Name],
) -> Result<Text, AllocError>
    ensures { IfOk result (λ text. text ≡ change_lines first kinds.now olds.now news.now) }
{
    let mut out = Vec::new(alloc);
    let mut number = first;
    let mut kinds = kinds;
    let mut olds = olds;
    let mut news = news;
    while let ([kind, other_kinds @ ..], [old, other_olds @ ..], [new, other_news @ ..]) = (
        kinds, olds, news,
    ) {
        push_change(
            &mut out,
            alloc,
            number,
            *kind,
            old.as_bytes(),
            new.as_bytes(),
        )?;
        number = number.checked_add(1).ok_or(AllocError)?;
        kinds = other_kinds;
        olds = other_olds;
        news = other_news;
    }
    Ok(Text::from_vec(out))
}

// Writes the line of a value where it differs from the one before.
fn push_change(
    out: &mut Vec<u8>,
    alloc: Global,
    number: usize,
    kind: Kind,
    old: &[u8],
    new: &[u8],
) -> Result<(), AllocError>
    ensures { OnOk result (out.new.items ≡ out.old.items ++ change_line number kind old.now new.now) }
{
    if old == new {
        Ok(())
    } else {
        push_line(out, alloc, number, kind, new)
    }
}

// Writes the line of a value.
fn push_line(
    out: &mut Vec<u8>,
    alloc: Global,
    number: usize,
    kind: Kind,
    value: &[u8],
) -> Result<(), AllocError>
    ensures { OnOk result (out.new.items ≡ out.old.items ++ value_line number kind value.now) }
{
    push_value(out, alloc, number, kind, value)?;
    out.push(b'\n')?;
    Ok(())
}

/// Writes what is dumped at each time, and one time more.
pub(crate) fn push_dump(out: &mut Vec<u8>, texts: &[Text]) -> Result<(), AllocError>
    ensures { OnOk result (out.new.items ≡ out.old.items ++ dump_lines texts.now) }
{
    let [first, later @ ..] = texts else {
        return Ok(());
    };
    push_time(out, 0)?;
    out.extend_from_slice(b"$dumpvars\n")?;
    out.extend_from_slice(first.as_bytes())?;
    out.extend_from_slice(b"$end\n")?;
    push_later(out, later)
}

// Writes what is dumped from time 1 on.
fn push_later(out: &mut Vec<u8>, texts: &[Text]) -> Result<(), AllocError>
    ensures { OnOk result (out.new.items ≡ out.old.items ++ later_lines 1 texts.now) }
{
    for (index, text) in texts.iter().enumerate() {
        push_time(out, index + 1)?;
        out.extend_from_slice(text.as_bytes())?;
    }
    push_time(out, texts.len() + 1)
}

// Writes the line of a time.
fn push_time(out: &mut Vec<u8>, time: usize) -> Result<(), AllocError>
    ensures { OnOk result (out.new.items ≡ out.old.items ++ time_line time) }
{
    out.push(b'#')?;
    push_number(out, time)?;
    out.push(b'\n')?;
    Ok(())
}
