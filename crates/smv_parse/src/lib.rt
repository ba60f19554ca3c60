//! From the bytes of a text to its tree.
//!
//! For `smv_top`. It joins `smv_lex` and `smv_parse_items`; `one_answer` is the law that a text spells one tree or has one fault.
#![tactic(auto)]

ghost use Rattle.std.specs.Prelude.{◌<◌, ◌^◌, ℕ, length, Ok, Err, IfOk};
ghost use Rattle.smv_core.specs.declared.tree.Text.{Text};
ghost use Rattle.smv_lex.specs.Answers.{IfFault};
ghost use Rattle.smv_parse_items.specs.Answer.{fault};
ghost use Rattle.smv_parse.specs.Answers.{UnlessMemory};
ghost use Rattle.smv_parse.specs.Laws.{IsOneTree, IsOneFault, IsNotBoth, IsEither, IsWithin};
ghost use Rattle.smv_parse.specs.Spelling.{SpellsText, HasFault};

use smv_core::Refusal;
use smv_core::tree::Text;
use smv_lex::tokens;
use smv_parse_items::parse::parse_tokens;
use std::alloc::Global;

/// The tree that a text spells, or else its first fault, one of 1 to 6, with the offset of the byte where it stands.
pub fn parse(alloc: Global, text: &[u8]) -> Result<Text, Refusal>
    requires within { length text.now < 2 ^ 32 }
    ensures tree { IfOk result (λ tree. SpellsText text.now tree) }
    ensures only_tree { (tree : Text) → SpellsText text.now tree → UnlessMemory result (Ok tree) }
    ensures fault { IfFault result (λ fault. HasFault text.now fault.number fault.at) }
    ensures only_fault { (number at : ℕ) → HasFault text.now number at → UnlessMemory result (Err (fault number at)) }
{
    one_answer();
    answer(alloc, text)
}

fn answer(alloc: Global, text: &[u8]) -> Result<Text, Refusal>
    requires within { length text.now < 2 ^ 32 }
    ensures tree { IfOk result (λ tree. SpellsText text.now tree) }
    ensures fault { IfFault result (λ fault. HasFault text.now fault.number fault.at) }
{
    match tokens(alloc, text) {
        Ok(tokens) => parse_tokens(alloc, text.len() as u32, tokens.as_slice()),
        Err(refusal) => Err(refusal),
    }
}

/// A text spells one tree, or has one fault, which is one of 1 to 6 and stands in the text or at its end.
pub fn one_answer()
    ensures tree { IsOneTree }
    ensures fault { IsOneFault }
    ensures not_both { IsNotBoth }
    ensures either { IsEither }
    ensures within { IsWithin }
{}
