// Pieces of bytes, and the numbers that they spell.
ghost use Rattle.std.specs.Prelude.{◌≡◌, ◌<◌, length, IfSome, option_map};
ghost use Rattle.smv_proof.specs.Readings.{cut, number_of, value_from};
ghost use Rattle.smv_proof_read.specs.Numbers.{at_most};

use itoa::Buffer;

// The greatest number of a document.
const MOST: u64 = 4_294_967_295;

/// What stands before the first byte that is `at`, and what stands behind it.
pub(crate) fn cut(at: u8, bytes: &[u8]) -> Option<(&[u8], &[u8])>
    ensures cut { option_map (λ parts. (parts.0.now, parts.1.now)) result ≡ cut at bytes.now }
    ensures shorter { IfSome result (λ parts. length parts.1.now < length bytes.now) }
{
    for place in 0..bytes.len() {
        if bytes[place] == at {
            return Some((&bytes[..place], &bytes[place + 1..]));
        }
    }
    None
}

/// The number that a piece spells in decimal, without leading zeros.
#[tactic(auto, using(crate::proofs::Digits::number_none, crate::proofs::Digits::number_some))]
pub(crate) fn number_of(piece: &[u8]) -> Option<u32>
    ensures { result ≡ number_of piece.now }
{
    let value = value_of(piece)?;
    let mut buffer = Buffer::new();
    if buffer.format(value).as_bytes() == piece {
        Some(value)
    } else {
        None
    }
}

// The value of digits, where it is a number of a document.
fn value_of(piece: &[u8]) -> Option<u32>
    ensures { result ≡ at_most (value_from 0 piece.now) }
{
    let mut value: u64 = 0;
    for digit in piece {
        if *digit < b'0' || *digit > b'9' {
            return None;
        }
        value = value * 10 + u64::from(*digit - b'0');
        if value > MOST {
            return None;
        }
    }
    Some(value as u32)
}
