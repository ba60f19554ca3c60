// What stands before the sets of a document.
ghost use Rattle.std.specs.Prelude.{◌≡◌, None, MatchOption, codes, take, drop};
ghost use Rattle.std.specs.Str.{bytes_eq};
ghost use Rattle.smv_proof.specs.Readings.{behind, length_in, pieces, proof_of, sets_of, with_sets};

use crate::pieces::{cut, number_of};

/// The design of a document, and the bytes behind it.
pub(crate) fn parts_of(bytes: &[u8]) -> Option<(&[u8], &[u8])>
    ensures { MatchOption result (proof_of bytes.now ≡ None) (λ parts. proof_of bytes.now ≡ with_sets parts.0.now (sets_of parts.1.now)) }
{
    let (title, rest) = cut(b'\n', bytes)?;
    if !is_title(title) {
        return None;
    }
    let (line, rest) = cut(b'\n', rest)?;
    let length = length_in(line)?;
    design_in(length, rest)
}

// Whether a line is the first of a document.
fn is_title(line: &[u8]) -> bool
    ensures { result ≡ bytes_eq line.now (codes "smv proof 1") }
{
    line == b"smv proof 1".as_slice()
}

// Whether a piece is the word before the length of the design.
fn is_design(piece: &[u8]) -> bool
    ensures { result ≡ bytes_eq piece.now (codes "design") }
{
    piece == b"design".as_slice()
}

// The length of the design, from the line that says it.
fn length_in(line: &[u8]) -> Option<u32>
    ensures { result ≡ length_in (pieces 32 line.now) }
{
    let (word, number) = cut(b' ', line)?;
    if !is_design(word) {
        return None;
    }
    number_of(number)
}

// The design, and what stands behind it and a line feed.
fn design_in(length: u32, bytes: &[u8]) -> Option<(&[u8], &[u8])>
    ensures { MatchOption result (behind (take length bytes.now) (drop length bytes.now) ≡ None) (λ parts. behind (take length bytes.now) (drop length bytes.now) ≡ with_sets parts.0.now (sets_of parts.1.now)) }
{
    let (design, rest) = bytes.split_at_checked(length as usize)?;
    match rest {
        [b'\n', lines @ ..] => Some((design, lines)),
        _ => None,
    }
}
