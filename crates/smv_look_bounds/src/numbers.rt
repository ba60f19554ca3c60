// Bounds, and what is reckoned with them.
ghost use Rattle.std.specs.Prelude.{◌≡◌, ◌+◌, min, option_map};
ghost use Rattle.smv_look_bounds.specs.Bounds as bounds;
ghost use Rattle.smv_look_bounds.specs.Narrowing as spec;

use smv_core::flat::Simple;
use smv_core::tree::Op;

/// The least and the greatest number that something can be.
#[derive(Clone, Copy)]
pub struct Bounds {
    pub low: u16,
    pub high: u16,
}

// What is at least this, unless that is nothing.
fn from(k: u32, b: Bounds) -> Bounds
    ensures { result ≡ spec.from k b }
{
    let low = k.max(u32::from(b.low));
    if low <= u32::from(b.high) {
        Bounds {
            low: low as u16,
            high: b.high,
        }
    } else {
        b
    }
}

// What is at most this, unless that is nothing.
fn upto(k: u16, b: Bounds) -> Bounds
    ensures { result ≡ spec.upto k b }
{
    let high = k.min(b.high);
    if b.low <= high {
        Bounds { low: b.low, high }
    } else {
        b
    }
}

// What is not this number, which only an end tells.
fn without(k: u16, b: Bounds) -> Bounds
    ensures { result ≡ spec.without k b }
{
    if k == b.low {
        from(u32::from(k) + 1, b)
    } else if k == b.high {
        upto(k.saturating_sub(1), b)
    } else {
        b
    }
}

/// What a comparison with a number to the right leaves.
pub(crate) fn beside(op: Op, k: u16, b: Bounds) -> Bounds
    ensures { result ≡ spec.beside op k b }
{
    match op {
        Op::Equal => from(u32::from(k), upto(k, b)),
        Op::Differ => without(k, b),
        Op::Less => upto(k.saturating_sub(1), b),
        Op::AtMost => upto(k, b),
        Op::Greater => from(u32::from(k) + 1, b),
        Op::AtLeast => from(u32::from(k), b),
    }
}

/// The comparison that holds where this one does not.
pub(crate) fn denied(op: Op) -> Op
    ensures { result ≡ spec.denied op }
{
    match op {
        Op::Equal => Op::Differ,
        Op::Differ => Op::Equal,
        Op::Less => Op::AtLeast,
        Op::AtMost => Op::Greater,
        Op::Greater => Op::AtMost,
        Op::AtLeast => Op::Less,
    }
}

/// The comparison with its sides exchanged.
pub(crate) fn turned(op: Op) -> Op
    ensures { result ≡ spec.turned op }
{
    match op {
        Op::Equal => Op::Equal,
        Op::Differ => Op::Differ,
        Op::Less => Op::Greater,
        Op::AtMost => Op::AtLeast,
        Op::Greater => Op::Less,
        Op::AtLeast => Op::AtMost,
    }
}

/// The numbers of a type.
pub(crate) fn numbers_of(over: Option<Simple>) -> Option<Bounds>
    ensures { result ≡ bounds.numbers_of over }
{
    match over {
        Some(Simple::Range { low, high }) => Some(Bounds {
            low: u16::from(low),
            high: u16::from(high),
        }),
        _ => None,
    }
}

// A sum up to 511.
fn small_sum(a: u16, b: u16) -> u16
    ensures { result ≡ min (a + b) 511 }
{
    match a.checked_add(b) {
        Some(sum) => sum.min(511),
        None => 511,
    }
}

// A sum up to 511, or a difference down to 0.
fn add_bounds(minus: bool, a: Bounds, b: Bounds) -> Bounds
    ensures { result ≡ bounds.add_bounds minus a b }
{
    if minus {
        Bounds {
            low: a.low.saturating_sub(b.high),
            high: a.high.saturating_sub(b.low),
        }
    } else {
        Bounds {
            low: small_sum(a.low, b.low),
            high: small_sum(a.high, b.high),
        }
    }
}

/// The same where both have bounds.
pub(crate) fn added(minus: bool, a: Option<Bounds>, b: Option<Bounds>) -> Option<Bounds>
    ensures { result ≡ bounds.added minus a b }
{
    match a {
        None => None,
        Some(a) => match b {
            None => None,
            Some(b) => Some(add_bounds(minus, a, b)),
        },
    }
}

// The bounds of a remainder.
fn remainder(by: u16, b: Bounds) -> Bounds
    ensures { result ≡ bounds.remainder by b }
{
    if b.high < by {
        b
    } else {
        Bounds {
            low: 0,
            high: by.saturating_sub(1),
        }
    }
}

/// The same of what has bounds.
pub(crate) fn remainder_of(by: u16, b: Option<Bounds>) -> Option<Bounds>
    ensures { result ≡ option_map (bounds.remainder by) b }
{
    match b {
        None => None,
        Some(b) => Some(remainder(by, b)),
    }
}

/// The bounds of one or the other.
pub(crate) fn one_of(a: Option<Bounds>, b: Option<Bounds>) -> Option<Bounds>
    ensures { result ≡ bounds.one_of a b }
{
    match a {
        None => None,
        Some(a) => match b {
            None => None,
            Some(b) => Some(Bounds {
                low: a.low.min(b.low),
                high: a.high.max(b.high),
            }),
        },
    }
}
