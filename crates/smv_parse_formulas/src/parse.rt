// The tokens of a text with formulas to its tree.
ghost use Rattle.std.specs.Prelude.{◌≡◌, ◌⊎◌, ℕ, Ok, Err, IfOk, IfErr};
ghost use Rattle.law_formulas.specs.Formulas.{FormulaText};
ghost use Rattle.law_grammar.specs.Laws.{Rise};
ghost use Rattle.law_formula_grammar.specs.Grammar.{text_rule};
ghost use Rattle.law_formula_grammar.specs.Spelling.{SpellsBy, IsUnexpectedBy, IsTooDeepBy};
ghost use Rattle.law_formula_grammar.specs.Readers.{read_text};
ghost use Rattle.smv_parse_items.specs.Answer.{fault};
ghost use Rattle.smv_parse_formulas.specs.Trees.{shown};
ghost use Rattle.smv_parse_formulas.specs.Answer.{StopsText, UnlessMemory, IsFault, RefusedAs};

use crate::tops::text;
use crate::tree::FormulaTree;
use smv_core::fault::Refusal;
use smv_core::token::Token;
use smv_parse_expressions::stop::Stop;
use smv_parse_items::parse::{place_of, too_deep, unexpected};
use std::alloc::Global;

/// How many levels a text may open at one place.
const LEVELS: u8 = 64;

/// The refusal that a stop is.
fn refusal(stop: Stop, end: u32, tokens: &[Token]) -> Refusal
    requires { StopsText stop (read_text 64 tokens.now) }
    ensures { RefusedAs end result (read_text 64 tokens.now) }
{
    match stop {
        Stop::Unexpected(left) => unexpected(place_of(left, end, tokens)),
        Stop::TooDeep(left) => too_deep(place_of(left, end, tokens)),
        Stop::OutOfMemory => Refusal::OutOfMemory,
    }
}

/// What the reader of texts with formulas reads within 64 levels, or where it halts.
fn answer(alloc: Global, end: u32, tokens: &[Token]) -> Result<FormulaTree, Refusal>
    ensures found { IfOk result (λ tree. read_text 64 tokens.now ≡ Ok (shown tree)) }
    ensures refused { IfErr result (λ refusal. RefusedAs end refusal (read_text 64 tokens.now)) }
{
    match text(alloc, LEVELS, tokens) {
        Ok(tree) => Ok(tree),
        Err(stop) => Err(refusal(stop, end, tokens)),
    }
}

/// The text with formulas that these tokens spell, with at most 64 levels open at any of them. `length` is that of the text in bytes, and the place of its end.
///
/// Fault 5 is at the first token, or at the end, after which no text with formulas can go on; fault 6 is at the first token that opens a level too many.
pub fn parse_formulas(alloc: Global, length: u32, tokens: &[Token]) -> Result<FormulaTree, Refusal>
    ensures text { IfOk result (λ tree. SpellsBy text_rule 64 tokens.now (shown tree)) }
    ensures only_text { (text : FormulaText) → SpellsBy text_rule 64 tokens.now text → UnlessMemory result (Ok text) }
    ensures fault { (number at : ℕ) → IsFault number at result → (number ≡ 5) ⊎ (number ≡ 6) }
    ensures unexpected { (at : ℕ) → IsFault 5 at result → IsUnexpectedBy text_rule 64 length tokens.now at }
    ensures only_unexpected { (at : ℕ) → Rise length tokens.now → IsUnexpectedBy text_rule 64 length tokens.now at → UnlessMemory result (Err (fault 5 at)) }
    ensures too_deep { (at : ℕ) → IsFault 6 at result → IsTooDeepBy text_rule 64 tokens.now at }
    ensures only_too_deep { (at : ℕ) → Rise length tokens.now → IsTooDeepBy text_rule 64 tokens.now at → UnlessMemory result (Err (fault 6 at)) }
{
    answer(alloc, length, tokens)
}
