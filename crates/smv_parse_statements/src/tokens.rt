// Single tokens that only statements, items and tops have.
ghost use Rattle.std.specs.Prelude.{◌≡◌, ◌<◌, Ok, IfOk, IfErr};
ghost use Rattle.smv_core.specs.declared.token.TokenKind.TheVariants.{Sign};
ghost use Rattle.law_grammar.specs.Parsing.{take};
ghost use Rattle.law_grammar.specs.Readers.{an_entry, a_same_name};
ghost use Rattle.law_grammar.specs.Statements.{a_positive, moments, bounds};
ghost use Rattle.law_grammar.specs.Items.{roles};
ghost use Rattle.smv_parse_expressions.specs.Answers.{StopsAs};

use smv_core::name::Name;
use smv_core::signs::{
    AT_MOST, LESS, WORD_ABSTRACT, WORD_INIT, WORD_INPUT, WORD_NEXT, WORD_OUTPUT,
};
use smv_core::token::{Token, TokenKind};
use smv_core::tree::{Kind, Role, Word};
use smv_parse_expressions::stop::Stop;

/// The name that was written before; its bytes and its offset.
pub fn same_name<'a>(
    word: &Word,
    tokens: &'a [Token],
) -> Result<((&'a Name, u32), &'a [Token]), Stop>
    ensures found { IfOk result (λ found. take (a_same_name word.now) tokens.now ≡ Ok (record { name = found.0.0.now; at = found.0.1 }, found.1.now)) }
    ensures stop { IfErr result (λ stop. StopsAs stop (take (a_same_name word.now) tokens.now)) }
{
    let (first, rest) = match tokens.split_first() {
        Some(parts) => parts,
        None => return Err(Stop::Unexpected(tokens.len())),
    };
    match &first.kind {
        TokenKind::Ident(bytes) => {
            if *bytes == word.name {
                return Ok(((bytes, first.at), rest));
            }
            Err(Stop::Unexpected(tokens.len()))
        }
        _ => Err(Stop::Unexpected(tokens.len())),
    }
}

/// A number that is at least 1.
pub(crate) fn positive(tokens: &[Token]) -> Result<(u16, &[Token]), Stop>
    ensures found { IfOk result (λ found. take a_positive tokens.now ≡ Ok (found.0, found.1.now)) }
    ensures stop { IfErr result (λ stop. StopsAs stop (take a_positive tokens.now)) }
{
    let (first, rest) = match tokens.split_first() {
        Some(parts) => parts,
        None => return Err(Stop::Unexpected(tokens.len())),
    };
    match &first.kind {
        TokenKind::Number(value) => {
            if *value == 0 {
                return Err(Stop::Unexpected(tokens.len()));
            }
            Ok((*value, rest))
        }
        _ => Err(Stop::Unexpected(tokens.len())),
    }
}

/// `init` or `next`; its kind and its offset.
pub(crate) fn moment(tokens: &[Token]) -> Result<((Kind, u32), &[Token]), Stop>
    ensures found { IfOk result (λ found. take (an_entry moments) tokens.now ≡ Ok (found.0, found.1.now)) }
    ensures stop { IfErr result (λ stop. StopsAs stop (take (an_entry moments) tokens.now)) }
{
    let (first, rest) = match tokens.split_first() {
        Some(parts) => parts,
        None => return Err(Stop::Unexpected(tokens.len())),
    };
    match &first.kind {
        TokenKind::Reserved(place) => {
            if *place == WORD_INIT {
                return Ok(((Kind::Init, first.at), rest));
            }
            if *place == WORD_NEXT {
                return Ok(((Kind::Next, first.at), rest));
            }
            Err(Stop::Unexpected(tokens.len()))
        }
        _ => Err(Stop::Unexpected(tokens.len())),
    }
}

/// `<` or `<=`; whether the bound is reached, and the offset.
pub(crate) fn bound_sign(tokens: &[Token]) -> Result<((bool, u32), &[Token]), Stop>
    ensures found { IfOk result (λ found. take (an_entry bounds) tokens.now ≡ Ok (found.0, found.1.now)) }
    ensures stop { IfErr result (λ stop. StopsAs stop (take (an_entry bounds) tokens.now)) }
{
    let (first, rest) = match tokens.split_first() {
        Some(parts) => parts,
        None => return Err(Stop::Unexpected(tokens.len())),
    };
    match &first.kind {
        TokenKind::Sign(place) => {
            if *place == LESS {
                return Ok(((false, first.at), rest));
            }
            if *place == AT_MOST {
                return Ok(((true, first.at), rest));
            }
            Err(Stop::Unexpected(tokens.len()))
        }
        _ => Err(Stop::Unexpected(tokens.len())),
    }
}

/// `abstract`, `input` or `output`; its role and its offset.
pub fn role(tokens: &[Token]) -> Result<((Role, u32), &[Token]), Stop>
    ensures found { IfOk result (λ found. take (an_entry roles) tokens.now ≡ Ok (found.0, found.1.now)) }
    ensures stop { IfErr result (λ stop. StopsAs stop (take (an_entry roles) tokens.now)) }
{
    let (first, rest) = match tokens.split_first() {
        Some(parts) => parts,
        None => return Err(Stop::Unexpected(tokens.len())),
    };
    match &first.kind {
        TokenKind::Reserved(place) => {
            if *place == WORD_ABSTRACT {
                return Ok(((Role::Abstract, first.at), rest));
            }
            if *place == WORD_INPUT {
                return Ok(((Role::Input, first.at), rest));
            }
            if *place == WORD_OUTPUT {
                return Ok(((Role::Output, first.at), rest));
            }
            Err(Stop::Unexpected(tokens.len()))
        }
        _ => Err(Stop::Unexpected(tokens.len())),
    }
}
