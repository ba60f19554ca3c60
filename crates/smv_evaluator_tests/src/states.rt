//! States and values as words.

use smv_core::Seq;
use smv_problem::{AbsState, AbsValue};
use std::alloc::{AllocError, Global};

// The number that digits spell.
fn number_of(digits: &[u8]) -> u16 {
    let mut number: u16 = 0;
    for digit in digits {
        number = number
            .wrapping_mul(10)
            .wrapping_add(u16::from(digit.wrapping_sub(b'0')));
    }
    number
}

// A number, the place of a constant behind `=`, a class behind `#`, a rest behind `*`, or `-` for Undefined.
fn value_of(word: &str) -> AbsValue {
    let word = word.as_bytes();
    match word.split_first() {
        Some((b'=', digits)) => AbsValue::Constant {
            place: number_of(digits),
        },
        Some((b'#', digits)) => AbsValue::Named {
            class: number_of(digits).min(255) as u8,
        },
        Some((b'*', digits)) => AbsValue::Rest {
            gap: number_of(digits).min(255) as u8,
        },
        Some((b'-', _)) => AbsValue::Undefined,
        _ => AbsValue::Number {
            value: number_of(word),
        },
    }
}

/// The state with the values of these words.
pub fn state_of(alloc: Global, words: &str) -> Result<AbsState, AllocError> {
    let mut values = Seq::new(alloc);
    for word in words.split_ascii_whitespace() {
        values.push(value_of(word))?;
    }
    Ok(AbsState { values })
}

// A number for a value, another one for each.
fn key(value: AbsValue) -> u32 {
    match value {
        AbsValue::Number { value } => u32::from(value),
        AbsValue::Constant { place } => 0x1_0000 + u32::from(place),
        AbsValue::Named { class } => 0x2_0000 + u32::from(class),
        AbsValue::Rest { gap } => 0x3_0000 + u32::from(gap),
        AbsValue::Undefined => 0x4_0000,
    }
}

// How often a value is among these.
fn times(values: &[AbsValue], wanted: AbsValue) -> usize {
    let mut times: usize = 0;
    for value in values {
        if key(*value) == key(wanted) {
            times = times.saturating_add(1);
        }
    }
    times
}

/// Whether values are those of these words, each of them once.
pub fn are_values(values: &[AbsValue], words: &str) -> bool {
    let mut count: usize = 0;
    for word in words.split_ascii_whitespace() {
        if times(values, value_of(word)) != 1 {
            return false;
        }
        count = count.saturating_add(1);
    }
    values.len() == count
}
