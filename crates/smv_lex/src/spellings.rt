// The signs and the reserved words by their bytes.
ghost use Rattle.std.specs.Prelude.{◌≡◌, ◌<◌, length, map, position, IfSome};
ghost use Rattle.std.specs.Str.{bytes_eq};
ghost use Rattle.smv_core.specs.Spellings.{signs, reserved_words, spelled_in};

use smv_core::signs::{RESERVED, SIGNS};
use smv_core::token::TokenKind;

/// The sign that has these bytes.
#[tactic(auto, using(crate::proofs::Numbered::signs_by_place))]
pub(crate) fn sign_of(bytes: &[u8]) -> Option<TokenKind>
    ensures { result ≡ spelled_in signs bytes.now }
{
    match sign_place(bytes) {
        Some(place) => Some(TokenKind::Sign(place as u8)),
        None => None,
    }
}

/// The reserved word that has these bytes.
#[tactic(auto, using(crate::proofs::Numbered::words_by_place))]
pub(crate) fn reserved_of(bytes: &[u8]) -> Option<TokenKind>
    ensures { result ≡ spelled_in reserved_words bytes.now }
{
    match reserved_place(bytes) {
        Some(place) => Some(TokenKind::Reserved(place as u8)),
        None => None,
    }
}

fn sign_place(bytes: &[u8]) -> Option<usize>
    ensures place { result ≡ position (λ word. bytes_eq word bytes.now) (map (λ entry. entry.1) signs) }
    ensures small { IfSome result (λ place. place < 27) }
{
    place_of(&SIGNS, bytes)
}

fn reserved_place(bytes: &[u8]) -> Option<usize>
    ensures place { result ≡ position (λ word. bytes_eq word bytes.now) (map (λ entry. entry.1) reserved_words) }
    ensures small { IfSome result (λ place. place < 33) }
{
    place_of(&RESERVED, bytes)
}

fn place_of(words: &[&[u8]], bytes: &[u8]) -> Option<usize>
    ensures place { result ≡ position (λ word. bytes_eq word.now bytes.now) words.now }
    ensures small { IfSome result (λ place. place < length words.now) }
{
    words.iter().position(|word| *word == bytes)
}
