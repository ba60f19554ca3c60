// What stands at the front of what is left of a text.
ghost use Rattle.std.specs.Prelude.{◌≡◌, ◌<◌, ◌≤◌, length, min, true, All, IfOk, IfSome, take_while};
ghost use Rattle.smv_lex.specs.Lexing.{is_blank, is_letter, is_digit, is_name_byte, is_in_line, number_of, word_front, word_kind, number_front, sign_front, comment_front, closing, front_of};

use crate::letters::{digit, digits_length, letter, word_length};
use crate::spellings::{reserved_of, sign_of};
use smv_core::name::Name;
use smv_core::token::TokenKind;
use std::alloc::{AllocError, Global};

/// A blank, a comment, a token or a fault.
#[derive(Drop)]
pub enum Front {
    /// A blank or a comment, of so many bytes.
    Passed(usize),
    /// A token, with how many bytes it has.
    Whole(TokenKind, usize),
    /// The number of a fault.
    Broken(u8),
}

const LONGEST_NAME: usize = 64;

const GREATEST_NUMBER: u16 = 511;

fn blank(b: u8) -> bool
    ensures { result ≡ is_blank b }
{
    b == b'\t' || b == b'\n' || b == b'\r' || b == b' '
}

fn line_length(bytes: &[u8]) -> usize
    ensures length { result ≡ length (take_while is_in_line bytes.now) }
    ensures within { result ≤ length bytes.now }
{
    bytes.iter().take_while(|b| **b != b'\n').count()
}

// The word at the front.
fn word_at(bytes: &[u8]) -> &[u8]
    ensures front { result.now ≡ take_while is_name_byte bytes.now }
    ensures within { length result.now ≤ length bytes.now }
{
    let n = word_length(bytes);
    &bytes[..n]
}

// The digits at the front.
fn digits_at(bytes: &[u8]) -> &[u8]
    ensures front { result.now ≡ take_while is_digit bytes.now }
    ensures within { length result.now ≤ length bytes.now }
    ensures digits { All (λ b. is_digit b ≡ true) result.now }
{
    let n = digits_length(bytes);
    &bytes[..n]
}

#[tactic(auto, unfolding(crate::specs::Lexing::word_kind))]
fn kind_of_word(alloc: Global, word: &[u8]) -> Result<TokenKind, AllocError>
    ensures { IfOk result (λ kind. kind ≡ word_kind word.now) }
{
    match reserved_of(word) {
        Some(kind) => Ok(kind),
        None => Ok(TokenKind::Ident(Name::from_vec(Vec::from_slice(alloc, word)?))),
    }
}

#[tactic(auto, unfolding(crate::specs::Lexing::word_front))]
fn word(alloc: Global, word: &[u8]) -> Result<Front, AllocError>
    ensures front { IfOk result (λ front. front ≡ word_front word.now) }
{
    if word.len() > LONGEST_NAME {
        return Ok(Front::Broken(3));
    }
    let kind = kind_of_word(alloc, word)?;
    Ok(Front::Whole(kind, word.len()))
}

// The number that digits spell, or 512 where they spell one above 511.
fn value_of(digits: &[u8]) -> u16
    requires { All (λ b. is_digit b ≡ true) digits.now }
    ensures { result ≡ min (number_of digits.now) 512 }
{
    let mut value: u16 = 0;
    for digit in digits {
        value = (10 * value + u16::from(*digit - b'0')).min(GREATEST_NUMBER + 1);
    }
    value
}

#[tactic(auto, unfolding(crate::specs::Lexing::number_front))]
fn number(digits: &[u8]) -> Front
    requires { All (λ b. is_digit b ≡ true) digits.now }
    ensures front { result ≡ number_front digits.now }
{
    let value = value_of(digits);
    if value > GREATEST_NUMBER {
        return Front::Broken(2);
    }
    Front::Whole(TokenKind::Number(value), digits.len())
}

#[tactic(auto, unfolding(crate::specs::Lexing::sign_front))]
fn sign(bytes: &[u8]) -> Front
    ensures front { result ≡ sign_front bytes.now }
{
    let three = &bytes[..bytes.len().min(3)];
    if let Some(kind) = sign_of(three) {
        return Front::Whole(kind, three.len());
    }
    let two = &bytes[..bytes.len().min(2)];
    if let Some(kind) = sign_of(two) {
        return Front::Whole(kind, two.len());
    }
    let one = &bytes[..bytes.len().min(1)];
    match sign_of(one) {
        Some(kind) => Front::Whole(kind, one.len()),
        None => Front::Broken(1),
    }
}

// How many bytes there are up to the first `*/`, that included.
fn end_of_comment(bytes: &[u8]) -> Option<usize>
    ensures end { result ≡ closing bytes.now }
    ensures within { IfSome result (λ n. n ≤ length bytes.now) }
{
    let mut at = 0;
    while at < bytes.len() {
        if bytes.split_at(at).1.starts_with(b"*/") {
            return Some(at + 2);
        }
        at += 1;
    }
    None
}

fn comment(inner: &[u8]) -> Front
    ensures front { result ≡ comment_front (closing inner.now) }
{
    match end_of_comment(inner) {
        Some(n) => Front::Passed(2 + n),
        None => Front::Broken(4),
    }
}

/// What stands at the front of these bytes.
#[tactic(auto, unfolding(crate::specs::Lexing::front_of))]
pub(crate) fn read_front(alloc: Global, bytes: &[u8]) -> Result<Front, AllocError>
    ensures front { IfOk result (λ front. front ≡ front_of bytes.now) }
{
    let [first, ..] = bytes else {
        return Ok(Front::Passed(0));
    };
    if blank(*first) {
        Ok(Front::Passed(1))
    } else if letter(*first) {
        word(alloc, word_at(bytes))
    } else if digit(*first) {
        Ok(number(digits_at(bytes)))
    } else if bytes.starts_with(b"--") {
        Ok(Front::Passed(line_length(bytes)))
    } else if bytes.starts_with(b"/*") {
        Ok(comment(&bytes[2..]))
    } else {
        Ok(sign(bytes))
    }
}
