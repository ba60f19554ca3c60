// The parts of formulas among the tokens of a text.
ghost use Rattle.std.specs.Prelude.{◌≡◌, ◌≤◌, ◌<◌, ◌+◌, ◌^◌, ℕ, zero, suc, length, take, drop, ◌∷◌, Some};
ghost use Rattle.std.specs.List.{list_any, AllByRecursion};
ghost use Rattle.smv_core.specs.declared.token.TokenKind.TheVariants.{Sign};
ghost use Rattle.smv_core.specs.Notation.{Tokens, same_kind};
ghost use Rattle.law_lexed_parts.specs.Parts as lexed;
ghost use Rattle.law_translated_texts.specs.Parts as parts;
ghost use Rattle.law_translated_texts.specs.Parts.{is_one_of};
ghost use Rattle.smv_token_ends.specs.Fronts.{IsTokenAt};
ghost use Rattle.smv_phrases.specs.Extents.{opening, ending, parting, rest_of};

use smv_core::signs::{
    CLOSE_BRACE, CLOSE_BRACKET, CLOSE_PAREN, COMMA, OPEN_BRACE, OPEN_BRACKET, OPEN_PAREN, SEMICOLON,
};
use smv_core::token::{Token, TokenKind};
use smv_token_ends::bytes::between;
use smv_token_ends::ends::end_of_all;

/// Whether a token is this sign.
pub fn is_sign(token: &Token, place: u8) -> bool
    ensures { result ≡ same_kind token.now.kind (Sign place) }
{
    match &token.kind {
        TokenKind::Sign(other) => *other == place,
        _ => false,
    }
}

fn opens(token: &Token) -> bool
    ensures { result ≡ is_one_of opening token.now.kind }
{
    is_sign(token, OPEN_PAREN) || is_sign(token, OPEN_BRACKET) || is_sign(token, OPEN_BRACE)
}

fn closes(token: &Token) -> bool
    ensures { result ≡ is_one_of ending token.now.kind }
{
    is_sign(token, CLOSE_PAREN) || is_sign(token, CLOSE_BRACKET) || is_sign(token, CLOSE_BRACE)
}

fn separates(token: &Token) -> bool
    ensures { result ≡ is_one_of parting token.now.kind }
{
    is_sign(token, COMMA) || is_sign(token, SEMICOLON)
}

// How many brackets are open behind a token of a part, where so many are before it. None: the part ends before the token.
fn depth_behind(depth: usize, token: &Token) -> Option<usize>
    requires within { depth < 2 ^ 63 }
    ensures rest { (more : Tokens) → parts.extent depth (token.now ∷ more) ≡ rest_of result more }
    ensures most { (next : ℕ) → result ≡ Some next → next ≤ depth + 1 }
{
    if opens(token) {
        return Some(depth + 1);
    }
    let ends = closes(token);
    if depth == 0 && (ends || separates(token)) {
        return None;
    }
    Some(if ends { depth - 1 } else { depth })
}

// How many tokens there are before the first comma, semicolon or closing bracket that stands in no bracket.
fn extent(tokens: &[Token]) -> usize
    ensures extent { result ≡ parts.extent zero tokens.now }
    ensures within { result ≤ length tokens.now }
{
    let mut depth = 0;
    for (n, token) in tokens.iter().enumerate() {
        match depth_behind(depth, token) {
            Some(next) => depth = next,
            None => return n,
        }
    }
    tokens.len()
}

/// The part with which the tokens begin.
pub fn part(tokens: &[Token]) -> &[Token]
    ensures { result.now ≡ parts.part tokens.now }
{
    tokens.split_at(extent(tokens)).0
}

/// The part with which the tokens begin, and what stands behind it.
pub fn split_part(tokens: &[Token]) -> (&[Token], &[Token])
    ensures part { result.0.now ≡ parts.part tokens.now }
    ensures behind { result.1.now ≡ parts.behind_part tokens.now }
{
    tokens.split_at(extent(tokens))
}

/// The tokens without the first ones, so many.
#[tactic(auto, using(std::proofs::lemmas::List::drop_min))]
pub fn behind(tokens: &[Token], count: usize) -> &[Token]
    ensures { result.now ≡ drop count tokens.now }
{
    tokens.split_at(count.min(tokens.len())).1
}

/// Where the first of some tokens stands.
pub fn begin_of(tokens: &[Token]) -> u32
    ensures { result ≡ lexed.begin_of tokens.now }
{
    match tokens {
        [] => 0,
        [first, ..] => first.at,
    }
}

/// The bytes of some tokens, from the first byte of the first up to the last byte of the last.
pub fn bytes_of<'a>(text: &'a [u8], tokens: &[Token]) -> &'a [u8]
    requires tokens { AllByRecursion (IsTokenAt text.now) tokens.now }
    ensures { result.now ≡ parts.bytes_of text.now tokens.now }
{
    between(text, begin_of(tokens) as usize, end_of_all(text, tokens))
}
