// The tokens of a claim's expression.
ghost use Rattle.std.specs.Prelude.{◌≡◌, ◌==◌, ◌≤◌, length, not, drop, take_while};
ghost use Rattle.smv_core.specs.declared.token.TokenKind.TheVariants.{Sign, Reserved};
ghost use Rattle.smv_core.specs.Signs.{semicolon, word_G};
ghost use Rattle.smv_core.specs.Notation.{same_kind};
ghost use Rattle.law_lexed_parts.specs.Parts as parts;
ghost use Rattle.law_strengthened_claims.specs.Renaming as renaming;
ghost use Rattle.law_exchanged.specs.Claims.{from_first, body_tokens};

use smv_core::name::Name;
use smv_core::signs::{SEMICOLON, WORD_G};
use smv_core::token::{Token, TokenKind};

/// Whether a token is this sign.
pub(crate) fn is_sign(token: &Token, place: u8) -> bool
    ensures { result ≡ same_kind token.now.kind (Sign place) }
{
    match &token.kind {
        TokenKind::Sign(other) => *other == place,
        _ => false,
    }
}

fn is_word(token: &Token, place: u8) -> bool
    ensures { result ≡ same_kind token.now.kind (Reserved place) }
{
    match &token.kind {
        TokenKind::Reserved(other) => *other == place,
        _ => false,
    }
}

/// Whether a token is this name.
pub(crate) fn is_name(token: &Token, name: &Name) -> bool
    ensures { result ≡ renaming.is_name name.now token.now.kind }
{
    match &token.kind {
        TokenKind::Ident(bytes) => bytes.as_bytes() == name.as_bytes(),
        _ => false,
    }
}

fn before_place(tokens: &[Token], at: u32) -> usize
    ensures length { result ≡ length (take_while (λ t. not (t.at == at)) tokens.now) }
    ensures within { result ≤ length tokens.now }
{
    tokens.iter().take_while(|t| t.at != at).count()
}

fn before_word_g(tokens: &[Token]) -> usize
    ensures length { result ≡ length (take_while (λ t. not (same_kind t.kind word_G)) tokens.now) }
    ensures within { result ≤ length tokens.now }
{
    tokens.iter().take_while(|t| !is_word(*t, WORD_G)).count()
}

fn before_semicolon(tokens: &[Token]) -> usize
    ensures length { result ≡ length (take_while (λ t. not (same_kind t.kind semicolon)) tokens.now) }
    ensures within { result ≤ length tokens.now }
{
    tokens
        .iter()
        .take_while(|t| !is_sign(*t, SEMICOLON))
        .count()
}

fn from_place(tokens: &[Token], at: u32) -> &[Token]
    ensures { result.now ≡ from_first (λ t. t.at == at) tokens.now }
{
    let n = before_place(tokens, at);
    &tokens[n..]
}

fn from_word_g(tokens: &[Token]) -> &[Token]
    ensures { result.now ≡ from_first (λ t. same_kind t.kind word_G) tokens.now }
{
    let n = before_word_g(tokens);
    &tokens[n..]
}

fn up_to_semicolon(tokens: &[Token]) -> &[Token]
    ensures { result.now ≡ take_while (λ t. not (same_kind t.kind semicolon)) tokens.now }
{
    let n = before_semicolon(tokens);
    &tokens[..n]
}

fn behind_first(tokens: &[Token]) -> &[Token]
    ensures { result.now ≡ drop 1 tokens.now }
{
    match tokens {
        [] => tokens,
        [_, behind @ ..] => behind,
    }
}

/// The tokens of the expression of the claim whose name stands there: those behind its `G`, before the next `;`.
pub(crate) fn body_of(tokens: &[Token], at: u32) -> &[Token]
    ensures { result.now ≡ body_tokens at tokens.now }
{
    up_to_semicolon(behind_first(from_word_g(from_place(tokens, at))))
}

/// Where the first of some tokens stands.
pub(crate) fn begin_of(tokens: &[Token]) -> u32
    ensures { result ≡ parts.begin_of tokens.now }
{
    match tokens {
        [] => 0,
        [first, ..] => first.at,
    }
}
