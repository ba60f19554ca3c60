// Where a token ends.
ghost use Rattle.std.specs.Prelude.{◌≡◌, ◌≤◌, length, map, take_while, is_some};
ghost use Rattle.std.specs.List.{list_any, AllByRecursion};
ghost use Rattle.std.specs.Str.{bytes_eq};
ghost use Rattle.smv_core.specs.Spellings.{signs, spelled_in};
ghost use Rattle.smv_lex.specs.Lexing.{is_letter, is_digit, is_name_byte, front_of, sign_front};
ghost use Rattle.law_lexed_parts.specs.Parts as parts;
ghost use Rattle.law_lexed_parts.specs.Parts.{size_of};
ghost use Rattle.smv_token_ends.specs.Fronts.{IsToken, IsTokenAt};

use crate::bytes::{before, behind};
use smv_core::signs::SIGNS;
use smv_core::token::Token;
use smv_lex::letters::{digit, digits_length, letter, word_length};

fn is_among(words: &[&[u8]], bytes: &[u8]) -> bool
    ensures { result ≡ list_any (λ word. bytes_eq word.now bytes.now) words.now }
{
    words.iter().any(|word| *word == bytes)
}

fn has_sign(bytes: &[u8]) -> bool
    ensures { result ≡ list_any (λ word. bytes_eq word bytes.now) (map (λ entry. entry.1) signs) }
{
    is_among(&SIGNS, bytes)
}

// Whether these bytes are a sign.
#[tactic(auto, using(crate::proofs::EndLaws::sign_among))]
fn is_sign(bytes: &[u8]) -> bool
    ensures { result ≡ is_some (spelled_in signs bytes.now) }
{
    has_sign(bytes)
}

// How many bytes the longest sign at the front has.
#[tactic(auto, using(crate::proofs::EndLaws::sign_sizes))]
fn sign_length(bytes: &[u8]) -> usize
    ensures length { result ≡ size_of (sign_front bytes.now) }
    ensures within { result ≤ length bytes.now }
{
    let three = before(bytes, 3);
    if is_sign(three) {
        return three.len();
    }
    let two = before(bytes, 2);
    if is_sign(two) {
        return two.len();
    }
    let one = before(bytes, 1);
    if is_sign(one) { one.len() } else { 0 }
}

// How many bytes the token at the front has.
fn token_length(bytes: &[u8]) -> usize
    requires token { IsToken bytes.now }
    ensures length { result ≡ size_of (front_of bytes.now) }
    ensures within { result ≤ length bytes.now }
{
    let [first, ..] = bytes else {
        return 0;
    };
    if letter(*first) {
        word_length(bytes)
    } else if digit(*first) {
        digits_length(bytes)
    } else {
        sign_length(bytes)
    }
}

/// Where a token ends.
pub fn end_of(text: &[u8], token: &Token) -> usize
    requires token { IsTokenAt text.now token.now }
    ensures { result ≡ parts.end_of text.now token.now }
{
    let at = token.at as usize;
    at + token_length(behind(text, at))
}

/// Where the last of some tokens ends.
pub fn end_of_all(text: &[u8], tokens: &[Token]) -> usize
    requires tokens { AllByRecursion (IsTokenAt text.now) tokens.now }
    ensures { result ≡ parts.end_of_all text.now tokens.now }
{
    match tokens {
        [] => 0,
        [.., last] => end_of(text, last),
    }
}
