// An old document before a new design.
ghost use Rattle.std.specs.Prelude.{◌≡◌, List, ℕ, MatchOption, option_map, codes, take, drop};
ghost use Rattle.std.specs.Str.{bytes_eq};
ghost use Rattle.smv_proof.specs.Olds.{IsOld};
ghost use Rattle.smv_proof.specs.Readings.{pieces};
ghost use Rattle.smv_proof_read.specs.Olds.{old_in, old_length, parted};

use crate::pieces::{cut, number_of};

/// The old document and the new design that bytes hold: `old N`, the N bytes of the document, a line feed, and the design. None where they are not of this form.
pub fn old_of(bytes: &[u8]) -> Option<(&[u8], &[u8])>
    ensures { MatchOption result ((old : List ℕ) (text : List ℕ) → IsOld bytes.now old text → ⊥) (λ parts. IsOld bytes.now parts.0.now parts.1.now) }
{
    old_in(bytes)
}

// The same, as it is read.
fn old_in(bytes: &[u8]) -> Option<(&[u8], &[u8])>
    ensures { option_map (λ parts. (parts.0.now, parts.1.now)) result ≡ old_in bytes.now }
{
    let (line, rest) = cut(b'\n', bytes)?;
    let length = old_length(line)?;
    parted(length, rest)
}

// The length of the old document, from the line that says it.
fn old_length(line: &[u8]) -> Option<u32>
    ensures { result ≡ old_length (pieces 32 line.now) }
{
    let (word, number) = cut(b' ', line)?;
    if !is_old(word) {
        return None;
    }
    number_of(number)
}

// Whether a piece is the word before the length of the old document.
fn is_old(piece: &[u8]) -> bool
    ensures { result ≡ bytes_eq piece.now (codes "old") }
{
    piece == b"old".as_slice()
}

// The old document, and what stands behind it and a line feed.
fn parted(length: u32, bytes: &[u8]) -> Option<(&[u8], &[u8])>
    ensures { option_map (λ parts. (parts.0.now, parts.1.now)) result ≡ parted (take length bytes.now) (drop length bytes.now) }
{
    let (old, rest) = bytes.split_at_checked(length as usize)?;
    match rest {
        [b'\n', text @ ..] => Some((old, text)),
        _ => None,
    }
}
