// Formulas of a text with the bytes of their conditions and expressions.
ghost use Rattle.std.specs.Prelude.{◌≡◌, ◌∷◌, [], ℕ, List, drop, IfOk};
ghost use Rattle.std.specs.List.{AllByRecursion};
ghost use Rattle.law_formulas.specs.Formulas as formulas;
ghost use Rattle.law_translated_texts.specs.Parts as parts;
ghost use Rattle.law_translated_texts.specs.Parts.{parts_of, phrase_of};
ghost use Rattle.smv_parse_formulas.specs.Trees as trees;
ghost use Rattle.smv_parse_formulas.specs.Trees.{meant, innermost};
ghost use Rattle.smv_token_ends.specs.Fronts.{IsTokenAt};
ghost use Rattle.smv_phrases.specs.Seen as seen;
ghost use Rattle.smv_phrases.specs.Seen.{shown, end_phrase};

use smv_core::token::Token;
use smv_parse_formulas::tree::{End, Formula, Step};
use smv_phrases::parts::{behind, bytes_of, part, split_part};
use smv_phrases::phrases::{Front, Last, Phrase};
use std::alloc::{AllocError, Global};

// The bytes of the part with which tokens of the text begin.
fn part_bytes<'a>(text: &'a [u8], tokens: &[Token]) -> &'a [u8]
    requires tokens { AllByRecursion (IsTokenAt text.now) tokens.now }
    ensures { result.now ≡ parts.bytes_of text.now (parts.part tokens.now) }
{
    bytes_of(text, part(tokens))
}

// What stands inside the brackets behind a formula's word.
fn inside(tokens: &[Token]) -> &[Token]
    ensures rest { result.now ≡ drop 2 tokens.now }
    ensures stand { (text : List ℕ) → AllByRecursion (IsTokenAt text) tokens.now → AllByRecursion (IsTokenAt text) result.now }
{
    behind(tokens, 2)
}

// What stands behind the part with which tokens begin, and the sign behind it.
fn next_part(tokens: &[Token]) -> &[Token]
    ensures rest { result.now ≡ drop 1 (parts.behind_part tokens.now) }
    ensures stand { (text : List ℕ) → AllByRecursion (IsTokenAt text) tokens.now → AllByRecursion (IsTokenAt text) result.now }
{
    behind(split_part(tokens).1, 1)
}

// The bytes at the end of a formula, whose tokens are the first of these.
fn last_of<'a>(text: &'a [u8], end: &End, tokens: &[Token]) -> Last<'a>
    requires tokens { AllByRecursion (IsTokenAt text.now) tokens.now }
    ensures { end_phrase result ≡ phrase_of text.now (parts_of (innermost end.now) tokens.now) }
{
    match end {
        End::Single { .. } => Last::Single(part_bytes(text, tokens)),
        End::Unless { .. } => {
            let both = inside(tokens);
            let kept = part_bytes(text, both);
            let until = part_bytes(text, next_part(both));
            Last::Unless { kept, until }
        }
    }
}

// A step of a formula, whose tokens are the first of these, and the tokens of what it stands before.
fn front_of<'a, 'b>(text: &'a [u8], step: &Step, tokens: &'b [Token]) -> (Front<'a>, &'b [Token])
    requires tokens { AllByRecursion (IsTokenAt text.now) tokens.now }
    ensures read { (f : formulas.Formula) → seen.behind (result.0 ∷ []) (phrase_of text.now (parts_of f result.1.now)) ≡ phrase_of text.now (parts_of (trees.behind (step.now ∷ []) f) tokens.now) }
    ensures stand { AllByRecursion (IsTokenAt text.now) result.1.now }
{
    let own = inside(tokens);
    match step {
        Step::Later { .. } => (Front::Later, own),
        Step::Under { .. } => (Front::Under(part_bytes(text, own)), next_part(own)),
    }
}

/// The formula with which these tokens of the text begin, with the bytes of its parts.
#[tactic(auto, using(crate::proofs::PhraseLaws::reading))]
pub fn read_phrase<'a>(
    alloc: Global,
    text: &'a [u8],
    formula: &Formula,
    tokens: &[Token],
) -> Result<Phrase<'a>, AllocError>
    requires tokens { AllByRecursion (IsTokenAt text.now) tokens.now }
    ensures { IfOk result (λ phrase. shown phrase ≡ phrase_of text.now (parts_of (meant formula.now) tokens.now)) }
{
    let mut fronts = Vec::new(alloc);
    let mut rest = tokens;
    for step in formula.steps.as_slice() {
        let (front, more) = front_of(text, step, rest);
        fronts.push(front)?;
        rest = more;
    }
    let last = last_of(text, &formula.end, rest);
    Ok(Phrase { fronts, last })
}
