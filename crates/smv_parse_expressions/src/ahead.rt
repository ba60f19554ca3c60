// What comes next.
ghost use Rattle.std.specs.Prelude.{◌≡◌, ◌∷◌, []};
ghost use Rattle.smv_core.specs.declared.token.TokenKind.TheVariants.{Sign, Reserved};
ghost use Rattle.smv_core.specs.Signs.{colon, dots, open_bracket, dot, plus, minus, equal, differ, less, at_most, greater, at_least};
ghost use Rattle.smv_core.specs.Signs as w;
ghost use Rattle.law_grammar.specs.Parsing.{starts, starts2};
ghost use Rattle.law_grammar.specs.Marks.{any_name, any_number, exactly, begins};

use smv_core::signs::{
    AT_LEAST, AT_MOST, COLON, DIFFER, DOT, DOTS, EQUAL, GREATER, LESS, MINUS, OPEN_BRACKET, PLUS,
    WORD_BOOLEAN,
};
use smv_core::token::{Token, TokenKind};

/// Whether this reserved word comes next.
pub fn next_is_word(place: u8, tokens: &[Token]) -> bool
    ensures { result ≡ starts (begins (exactly (Reserved place) ∷ [])) tokens.now }
{
    match tokens.split_first() {
        Some((first, _)) => match &first.kind {
            TokenKind::Reserved(other) => *other == place,
            _ => false,
        },
        None => false,
    }
}

/// Whether a number comes next.
pub fn next_is_number(tokens: &[Token]) -> bool
    ensures { result ≡ starts (begins (any_number ∷ [])) tokens.now }
{
    match tokens.split_first() {
        Some((first, _)) => matches!(&first.kind, TokenKind::Number(_)),
        None => false,
    }
}

/// Whether this sign comes next.
pub fn next_is_sign(place: u8, tokens: &[Token]) -> bool
    ensures { result ≡ starts (begins (exactly (Sign place) ∷ [])) tokens.now }
{
    match tokens.split_first() {
        Some((first, _)) => match &first.kind {
            TokenKind::Sign(other) => *other == place,
            _ => false,
        },
        None => false,
    }
}

/// Whether an index begins.
pub(crate) fn next_begins_index(tokens: &[Token]) -> bool
    ensures { result ≡ starts (begins (exactly w.word_boolean ∷ any_number ∷ any_name ∷ [])) tokens.now }
{
    match tokens.split_first() {
        Some((first, _)) => match &first.kind {
            TokenKind::Reserved(other) => *other == WORD_BOOLEAN,
            TokenKind::Number(_) => true,
            TokenKind::Ident(_) => true,
            _ => false,
        },
        None => false,
    }
}

/// Whether a name comes next.
pub fn next_is_name(tokens: &[Token]) -> bool
    ensures { result ≡ starts (begins (any_name ∷ [])) tokens.now }
{
    match tokens.split_first() {
        Some((first, _)) => matches!(&first.kind, TokenKind::Ident(_)),
        None => false,
    }
}

/// Whether a part of a path comes next.
pub fn next_is_part(tokens: &[Token]) -> bool
    ensures { result ≡ starts (begins (exactly dot ∷ exactly open_bracket ∷ [])) tokens.now }
{
    match tokens.split_first() {
        Some((first, _)) => match &first.kind {
            TokenKind::Sign(place) => *place == DOT || *place == OPEN_BRACKET,
            _ => false,
        },
        None => false,
    }
}

/// Whether a sign of a sum comes next.
pub(crate) fn next_is_addition(tokens: &[Token]) -> bool
    ensures { result ≡ starts (begins (exactly plus ∷ exactly minus ∷ [])) tokens.now }
{
    match tokens.split_first() {
        Some((first, _)) => match &first.kind {
            TokenKind::Sign(place) => *place == PLUS || *place == MINUS,
            _ => false,
        },
        None => false,
    }
}

/// Whether a sign that compares comes next.
pub(crate) fn next_is_comparison(tokens: &[Token]) -> bool
    ensures { result ≡ starts (begins (exactly equal ∷ exactly differ ∷ exactly less ∷ exactly at_most ∷ exactly greater ∷ exactly at_least ∷ [])) tokens.now }
{
    match tokens.split_first() {
        Some((first, _)) => match &first.kind {
            TokenKind::Sign(place) => matches!(
                *place,
                EQUAL | DIFFER | LESS | AT_MOST | GREATER | AT_LEAST
            ),
            _ => false,
        },
        None => false,
    }
}

/// Whether a name and a colon come next.
pub(crate) fn next_is_bound(tokens: &[Token]) -> bool
    ensures { result ≡ starts2 (begins (any_name ∷ [])) (begins (exactly colon ∷ [])) tokens.now }
{
    match tokens {
        [first, second, ..] => matches!(&first.kind, TokenKind::Ident(_)) && is_sign(COLON, second),
        _ => false,
    }
}

/// Whether a number and two dots come next.
pub(crate) fn next_is_span(tokens: &[Token]) -> bool
    ensures { result ≡ starts2 (begins (any_number ∷ [])) (begins (exactly dots ∷ [])) tokens.now }
{
    match tokens {
        [first, second, ..] => matches!(&first.kind, TokenKind::Number(_)) && is_sign(DOTS, second),
        _ => false,
    }
}

fn is_sign(place: u8, token: &Token) -> bool
    ensures { result ≡ begins (exactly (Sign place) ∷ []) token.now }
{
    match &token.kind {
        TokenKind::Sign(other) => *other == place,
        _ => false,
    }
}
