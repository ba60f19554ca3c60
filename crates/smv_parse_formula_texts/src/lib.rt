//! From the bytes of a text with formulas to its tokens and its tree.
//!
//! For `smv_ltl`. It joins `smv_lex` and `smv_parse_formulas`; `one_answer` is the law that the bytes spell one text with formulas or have one fault.
#![tactic(auto)]

ghost use Rattle.std.specs.Prelude.{◌≡◌, ◌<◌, ◌^◌, ℕ, length, Ok, Err, IfOk};
ghost use Rattle.smv_core.specs.Notation.{Tokens};
ghost use Rattle.law_formulas.specs.Formulas.{FormulaText};
ghost use Rattle.smv_lex.specs.Answers.{IfFault};
ghost use Rattle.smv_lex.specs.Lexing.{lexed};
ghost use Rattle.smv_parse_items.specs.Answer.{fault};
ghost use Rattle.smv_parse_formulas.specs.Trees.{shown};
ghost use Rattle.smv_parse_formula_texts.specs.Answers.{UnlessMemory};
ghost use Rattle.smv_parse_formula_texts.specs.Laws.{IsOneText, IsOneFault, IsNotBoth, IsEither, IsWithin};
ghost use Rattle.smv_parse_formula_texts.specs.Spelling.{SpellsText, HasFault};

use smv_core::token::Token;
use smv_core::{Refusal, Seq};
use smv_lex::tokens;
use smv_parse_formulas::parse::parse_formulas;
use smv_parse_formulas::tree::FormulaTree;
use std::alloc::Global;

/// What the bytes of a text with formulas are read as: its tokens, and its tree.
#[derive(Drop)]
pub struct ReadText {
    pub tokens: Seq<Token>,
    pub tree: FormulaTree,
}

/// The tokens and the tree of a text with formulas, or else its first fault, one of 1 to 6, with the offset of the byte where it stands.
pub fn parse_formula_text(alloc: Global, text: &[u8]) -> Result<ReadText, Refusal>
    requires within { length text.now < 2 ^ 32 }
    ensures text { IfOk result (λ read. SpellsText text.now read.tokens (shown read.tree)) }
    ensures only_text { (tokens : Tokens) (tree : FormulaText) → SpellsText text.now tokens tree → UnlessMemory result (Ok (tokens, tree)) }
    ensures fault { IfFault result (λ fault. HasFault text.now fault.number fault.at) }
    ensures only_fault { (number at : ℕ) → HasFault text.now number at → UnlessMemory result (Err (fault number at)) }
{
    one_answer();
    answer(alloc, text)
}

fn answer(alloc: Global, text: &[u8]) -> Result<ReadText, Refusal>
    requires within { length text.now < 2 ^ 32 }
    ensures text { IfOk result (λ read. SpellsText text.now read.tokens (shown read.tree)) }
    ensures fault { IfFault result (λ fault. HasFault text.now fault.number fault.at) }
{
    match tokens(alloc, text) {
        Ok(tokens) => with_tree(alloc, text, tokens),
        Err(refusal) => Err(refusal),
    }
}

/// The tokens of a text with the tree that they spell.
fn with_tree(alloc: Global, text: &[u8], tokens: Seq<Token>) -> Result<ReadText, Refusal>
    requires within { length text.now < 2 ^ 32 }
    requires tokens { lexed text.now ≡ Ok tokens }
    ensures text { IfOk result (λ read. SpellsText text.now read.tokens (shown read.tree)) }
    ensures fault { IfFault result (λ fault. HasFault text.now fault.number fault.at) }
{
    match parse_formulas(alloc, text.len() as u32, tokens.as_slice()) {
        Ok(tree) => Ok(ReadText { tokens, tree }),
        Err(refusal) => Err(refusal),
    }
}

/// The bytes of a text spell one text with formulas, or have one fault, which is one of 1 to 6 and stands in the text or at its end.
pub fn one_answer()
    ensures text { IsOneText }
    ensures fault { IsOneFault }
    ensures not_both { IsNotBoth }
    ensures either { IsEither }
    ensures within { IsWithin }
{}
