// The tokens of a text to its tree.
ghost use Rattle.std.specs.Prelude.{◌≡◌, ◌≤◌, ◌-◌, ◌⊎◌, ℕ, length, drop, Ok, Err, IfOk, IfErr};
ghost use Rattle.smv_core.specs.declared.tree.Text.{Text};
ghost use Rattle.smv_core.specs.Spelling.{Spells, IsUnexpected, IsTooDeep, place_of_rest};
ghost use Rattle.law_grammar.specs.Laws.{Rise};
ghost use Rattle.law_grammar.specs.Items.{read_text};
ghost use Rattle.smv_parse_items.specs.Reading.{StopsText};
ghost use Rattle.smv_parse_items.specs.Answer.{UnlessMemory, IsFault, fault, RefusedAs};

use crate::tops::text;
use smv_core::fault::{Fault, Refusal};
use smv_core::token::Token;
use smv_core::tree::Text;
use smv_parse_expressions::stop::Stop;
use std::alloc::Global;

/// How many levels a text may open at one place.
const LEVELS: u8 = 64;

const UNEXPECTED: u8 = 5;

const TOO_DEEP: u8 = 6;

/// Where the last tokens begin, as many as are left, or the length of the text where none is.
pub fn place_of(left: usize, end: u32, tokens: &[Token]) -> u32
    requires { left ≤ length tokens.now }
    ensures { result ≡ place_of_rest end (drop (length tokens.now - left) tokens.now) }
{
    let rest = &tokens[tokens.len() - left..];
    match rest.split_first() {
        Some((first, _)) => first.at,
        None => end,
    }
}

/// Fault 5 at an offset.
pub fn unexpected(at: u32) -> Refusal
    ensures { result ≡ fault 5 at }
{
    Refusal::Fault(Fault {
        number: UNEXPECTED,
        at,
    })
}

/// Fault 6 at an offset.
pub fn too_deep(at: u32) -> Refusal
    ensures { result ≡ fault 6 at }
{
    Refusal::Fault(Fault {
        number: TOO_DEEP,
        at,
    })
}

/// The refusal that a stop is.
fn refusal(stop: Stop, end: u32, tokens: &[Token]) -> Refusal
    requires { StopsText stop (read_text 64 tokens.now) }
    ensures { RefusedAs end result (read_text 64 tokens.now) }
{
    match stop {
        Stop::Unexpected(left) => unexpected(place_of(left, end, tokens)),
        Stop::TooDeep(left) => too_deep(place_of(left, end, tokens)),
        Stop::OutOfMemory => Refusal::OutOfMemory,
    }
}

/// What the reader of texts reads within 64 levels, or where it halts.
fn answer(alloc: Global, end: u32, tokens: &[Token]) -> Result<Text, Refusal>
    ensures found { IfOk result (λ text. read_text 64 tokens.now ≡ Ok text) }
    ensures refused { IfErr result (λ refusal. RefusedAs end refusal (read_text 64 tokens.now)) }
{
    match text(alloc, LEVELS, tokens) {
        Ok(text) => Ok(text),
        Err(stop) => Err(refusal(stop, end, tokens)),
    }
}

/// The text that these tokens spell, with at most 64 levels open at any of them. `length` is that of the text in bytes, and the place of its end.
///
/// Fault 5 is at the first token, or at the end, after which no text can go on; fault 6 is at the first token that opens a level too many.
pub fn parse_tokens(alloc: Global, length: u32, tokens: &[Token]) -> Result<Text, Refusal>
    ensures text { IfOk result (λ text. Spells 64 tokens.now text) }
    ensures only_text { (text : Text) → Spells 64 tokens.now text → UnlessMemory result (Ok text) }
    ensures fault { (number at : ℕ) → IsFault number at result → (number ≡ 5) ⊎ (number ≡ 6) }
    ensures unexpected { (at : ℕ) → IsFault 5 at result → IsUnexpected 64 length tokens.now at }
    ensures only_unexpected { (at : ℕ) → Rise length tokens.now → IsUnexpected 64 length tokens.now at → UnlessMemory result (Err (fault 5 at)) }
    ensures too_deep { (at : ℕ) → IsFault 6 at result → IsTooDeep 64 tokens.now at }
    ensures only_too_deep { (at : ℕ) → Rise length tokens.now → IsTooDeep 64 tokens.now at → UnlessMemory result (Err (fault 6 at)) }
{
    answer(alloc, length, tokens)
}
