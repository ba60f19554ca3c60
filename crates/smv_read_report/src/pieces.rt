// Pieces of a text, and what they are made of.
ghost use Rattle.std.specs.Prelude.{◌≡◌, IfOk, option_map};
ghost use Rattle.std.specs.List.{list_all};
ghost use Rattle.smv_read_report.specs.Pieces.{is_digit, is_numeral, is_word, is_word_byte, pieces, without_last};

use smv_core::Name;
use std::alloc::{AllocError, Global};

// The signs of names, classes and values.
const SIGNS: &[u8] = b"_./[]#*";

/// The pieces between the bytes that are `at`.
#[tactic(auto, using(crate::proofs::Led::led_byte, crate::proofs::Cut::led_start))]
pub(crate) fn pieces(alloc: Global, at: u8, bytes: &[u8]) -> Result<Vec<Name>, AllocError>
    ensures { IfOk result (λ found. found.items ≡ pieces at bytes.now) }
{
    let mut found = Vec::new(alloc);
    let mut piece = Vec::new(alloc);
    for byte in bytes {
        if *byte == at {
            found.push(Name::from_vec(piece))?;
            piece = Vec::new(alloc);
        } else {
            piece.push(*byte)?;
        }
    }
    found.push(Name::from_vec(piece))?;
    Ok(found)
}

/// What stands before the last byte, where that is `at`.
#[tactic(auto, using(crate::proofs::Last::last_is))]
pub(crate) fn without_last(at: u8, bytes: &[u8]) -> Option<&[u8]>
    ensures { option_map (λ front. front.now) result ≡ without_last at bytes.now }
{
    match bytes {
        [front @ .., last] => { if *last == at { Some(front) } else { None } }
        [] => None,
    }
}

fn is_digit(b: u8) -> bool
    ensures { result ≡ is_digit b }
{
    b >= b'0' && b <= b'9'
}

fn is_word_byte(b: u8) -> bool
    ensures { result ≡ is_word_byte b }
{
    b >= b'A' && b <= b'Z' || b >= b'a' && b <= b'z' || is_digit(b) || SIGNS.contains(&b)
}

fn are_word_bytes(piece: &[u8]) -> bool
    ensures { result ≡ list_all is_word_byte piece.now }
{
    piece.iter().all(|b| is_word_byte(*b))
}

fn are_digits(piece: &[u8]) -> bool
    ensures { result ≡ list_all is_digit piece.now }
{
    piece.iter().all(|b| is_digit(*b))
}

/// Whether a piece is a name, a class or a value.
pub(crate) fn is_word(piece: &[u8]) -> bool
    ensures { result ≡ is_word piece.now }
{
    !piece.is_empty() && are_word_bytes(piece)
}

/// Whether a piece is a number.
pub(crate) fn is_numeral(piece: &[u8]) -> bool
    ensures { result ≡ is_numeral piece.now }
{
    !piece.is_empty() && are_digits(piece)
}

/// A name of these bytes.
pub(crate) fn named(alloc: Global, bytes: &[u8]) -> Result<Name, AllocError>
    ensures { IfOk result (λ name. name ≡ bytes.now) }
{
    Ok(Name::from_vec(Vec::from_slice(alloc, bytes)?))
}
