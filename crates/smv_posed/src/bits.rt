//! The bits of a state and of the one behind it, and the value of a function there.

ghost use Rattle.bdd_store.specs.Diagram.{IsLive};

use bdd_store::{Ref, Store};
use std::alloc::{AllocError, Global};

/// The bits of a state, and those of the next one.
#[derive(Drop)]
pub struct Bits {
    pub current: Vec<bool>,
    pub next: Vec<bool>,
}

/// So many low bits of a number, the highest first.
pub fn bits_of(alloc: Global, number: u32, count: u32) -> Result<Vec<bool>, AllocError> {
    let mut bits = Vec::new(alloc);
    for place in (0..count).rev() {
        bits.push(number >> (place % 32) & 1 == 1)?;
    }
    Ok(bits)
}

/// The bits that words of the digits 0 and 1 spell.
pub fn spelled(alloc: Global, words: &str) -> Result<Vec<bool>, AllocError> {
    let mut bits = Vec::new(alloc);
    for digit in words.as_bytes() {
        if *digit != b' ' {
            bits.push(*digit == b'1')?;
        }
    }
    Ok(bits)
}

// The bit that a variable stands for: an even one for a bit of the current state, an odd one for a bit of the next.
fn bit_of(bits: &Bits, var: u32) -> bool {
    let place = var as usize / 2;
    let bit = if var % 2 == 0 {
        bits.current.get(place)
    } else {
        bits.next.get(place)
    };
    bit == Some(&true)
}

/// The value of a function at these bits: down its branches, each of a later variable than the one before.
pub fn value_at(store: &Store, f: Ref, bits: &Bits) -> bool
    requires { IsLive store.now f }
{
    let mut at = f;
    for _ in 0..=store.vars() {
        if let Some(value) = store.is_constant(at) {
            return value;
        }
        at = if bit_of(bits, store.var(at)) {
            store.high(at)
        } else {
            store.low(at)
        };
    }
    false
}
