// Single tokens.
ghost use Rattle.std.specs.Prelude.{◌≡◌, ◌<◌, Ok, IfOk, IfErr};
ghost use Rattle.smv_core.specs.declared.token.TokenKind.TheVariants.{Sign, Reserved};
ghost use Rattle.law_grammar.specs.Parsing.{take, take_open, pure};
ghost use Rattle.law_grammar.specs.Readers.{a_token, a_number, a_name, an_entry, a_same_name};
ghost use Rattle.law_grammar.specs.Expressions.{additions, comparisons, reductions};
ghost use Rattle.smv_parse_expressions.specs.Tails.{quantified};
ghost use Rattle.smv_parse_expressions.specs.Answers.{StopsAs};

use crate::stop::{Read, Stop};
use smv_core::name::Name;
use smv_core::signs::{
    AMPERSAND, AT_LEAST, AT_MOST, BAR, DIFFER, EQUAL, GREATER, LESS, MINUS, PLUS,
};
use smv_core::token::{Token, TokenKind};
use smv_core::tree::{Op, Word};
use std::alloc::Global;

/// This sign; its offset.
pub fn sign(place: u8, tokens: &[Token]) -> Read<'_, u32>
    ensures found { IfOk result (λ found. take (a_token (Sign place)) tokens.now ≡ Ok (found.0, found.1.now)) }
    ensures stop { IfErr result (λ stop. StopsAs stop (take (a_token (Sign place)) tokens.now)) }
{
    if let Some((first, rest)) = tokens.split_first()
        && let TokenKind::Sign(other) = &first.kind
        && *other == place
    {
        return Ok((first.at, rest));
    }
    Err(Stop::Unexpected(tokens.len()))
}

/// A number; its value and its offset.
pub fn number(tokens: &[Token]) -> Read<'_, (u16, u32)>
    ensures found { IfOk result (λ found. take a_number tokens.now ≡ Ok (found.0, found.1.now)) }
    ensures stop { IfErr result (λ stop. StopsAs stop (take a_number tokens.now)) }
{
    if let Some((first, rest)) = tokens.split_first()
        && let TokenKind::Number(value) = &first.kind
    {
        return Ok(((*value, first.at), rest));
    }
    Err(Stop::Unexpected(tokens.len()))
}

/// This reserved word; its offset.
pub fn word(place: u8, tokens: &[Token]) -> Read<'_, u32>
    ensures found { IfOk result (λ found. take (a_token (Reserved place)) tokens.now ≡ Ok (found.0, found.1.now)) }
    ensures stop { IfErr result (λ stop. StopsAs stop (take (a_token (Reserved place)) tokens.now)) }
{
    if let Some((first, rest)) = tokens.split_first()
        && let TokenKind::Reserved(other) = &first.kind
        && *other == place
    {
        return Ok((first.at, rest));
    }
    Err(Stop::Unexpected(tokens.len()))
}

/// This reserved word, which opens a level; its offset.
pub fn opening_word(place: u8, levels: u8, tokens: &[Token]) -> Read<'_, u32>
    ensures found { IfOk result (λ found. take_open (a_token (Reserved place)) levels (λ at. pure at) tokens.now ≡ Ok (found.0, found.1.now)) }
    ensures left { IfOk result (λ found. 0 < levels) }
    ensures stop { IfErr result (λ stop. StopsAs stop (take_open (a_token (Reserved place)) levels (λ at. pure at) tokens.now)) }
{
    let (at, rest) = word(place, tokens)?;
    if levels == 0 {
        return Err(Stop::TooDeep(tokens.len()));
    }
    Ok((at, rest))
}

/// This sign, which opens a level; its offset.
pub fn opening_sign(place: u8, levels: u8, tokens: &[Token]) -> Read<'_, u32>
    ensures found { IfOk result (λ found. take_open (a_token (Sign place)) levels (λ at. pure at) tokens.now ≡ Ok (found.0, found.1.now)) }
    ensures left { IfOk result (λ found. 0 < levels) }
    ensures stop { IfErr result (λ stop. StopsAs stop (take_open (a_token (Sign place)) levels (λ at. pure at) tokens.now)) }
{
    let (at, rest) = sign(place, tokens)?;
    if levels == 0 {
        return Err(Stop::TooDeep(tokens.len()));
    }
    Ok((at, rest))
}

/// A name, which is copied.
pub fn name(alloc: Global, tokens: &[Token]) -> Read<'_, Word>
    ensures found { IfOk result (λ found. take a_name tokens.now ≡ Ok (found.0, found.1.now)) }
    ensures stop { IfErr result (λ stop. StopsAs stop (take a_name tokens.now)) }
{
    let (first, rest) = match tokens.split_first() {
        Some(parts) => parts,
        None => return Err(Stop::Unexpected(tokens.len())),
    };
    match &first.kind {
        TokenKind::Ident(bytes) => {
            let name = Name::from_vec(Vec::from_slice(alloc, bytes.as_bytes())?);
            Ok((Word { name, at: first.at }, rest))
        }
        _ => Err(Stop::Unexpected(tokens.len())),
    }
}

/// The name that was written before; its offset.
#[tactic(auto, using(crate::proofs::SameName::same_bytes))]
pub fn same_name<'a>(word: &Word, tokens: &'a [Token]) -> Read<'a, u32>
    ensures found { IfOk result (λ found. take (a_same_name word.now) tokens.now ≡ Ok (record { name = word.now.name; at = found.0 }, found.1.now)) }
    ensures stop { IfErr result (λ stop. StopsAs stop (take (a_same_name word.now) tokens.now)) }
{
    if let Some((first, rest)) = tokens.split_first()
        && let TokenKind::Ident(name) = &first.kind
        && *name == word.name
    {
        return Ok((first.at, rest));
    }
    Err(Stop::Unexpected(tokens.len()))
}

/// A sign of a sum; whether it takes away, and its offset.
pub(crate) fn addition(tokens: &[Token]) -> Read<'_, (bool, u32)>
    ensures found { IfOk result (λ found. take (an_entry additions) tokens.now ≡ Ok (found.0, found.1.now)) }
    ensures stop { IfErr result (λ stop. StopsAs stop (take (an_entry additions) tokens.now)) }
{
    if let Some((first, rest)) = tokens.split_first()
        && let TokenKind::Sign(place) = &first.kind
    {
        return match *place {
            PLUS => Ok(((false, first.at), rest)),
            MINUS => Ok(((true, first.at), rest)),
            _ => Err(Stop::Unexpected(tokens.len())),
        };
    }
    Err(Stop::Unexpected(tokens.len()))
}

/// A sign that compares; its operator and its offset.
pub(crate) fn comparison_sign(tokens: &[Token]) -> Read<'_, (Op, u32)>
    ensures found { IfOk result (λ found. take (an_entry comparisons) tokens.now ≡ Ok (found.0, found.1.now)) }
    ensures stop { IfErr result (λ stop. StopsAs stop (take (an_entry comparisons) tokens.now)) }
{
    if let Some((first, rest)) = tokens.split_first()
        && let TokenKind::Sign(place) = &first.kind
    {
        return match *place {
            EQUAL => Ok(((Op::Equal, first.at), rest)),
            DIFFER => Ok(((Op::Differ, first.at), rest)),
            LESS => Ok(((Op::Less, first.at), rest)),
            AT_MOST => Ok(((Op::AtMost, first.at), rest)),
            GREATER => Ok(((Op::Greater, first.at), rest)),
            AT_LEAST => Ok(((Op::AtLeast, first.at), rest)),
            _ => Err(Stop::Unexpected(tokens.len())),
        };
    }
    Err(Stop::Unexpected(tokens.len()))
}

/// A sign that begins a reduction; whether it is that of a conjunction, and its offset.
#[tactic(auto, unfolding(crate::specs::Tails::quantified))]
pub(crate) fn reduction_sign(tokens: &[Token]) -> Read<'_, (bool, u32)>
    ensures found { IfOk result (λ found. take (an_entry reductions) tokens.now ≡ Ok ((quantified found.0.0, found.0.1), found.1.now)) }
    ensures stop { IfErr result (λ stop. StopsAs stop (take (an_entry reductions) tokens.now)) }
{
    if let Some((first, rest)) = tokens.split_first()
        && let TokenKind::Sign(place) = &first.kind
    {
        return match *place {
            AMPERSAND => Ok(((true, first.at), rest)),
            BAR => Ok(((false, first.at), rest)),
            _ => Err(Stop::Unexpected(tokens.len())),
        };
    }
    Err(Stop::Unexpected(tokens.len()))
}
