//! The translated text of a text with claims over several times: monitors stand for their formulas, and each claim is one of one time.
//!
//! For the command that proves formulas over several times. `translate` writes the text of `law_translated_texts`, and `back` says where an offset of it stands in the text that was read. `formulas` counts, `names` and `plan` give each formula its monitors, `changed`
//! walks the claims, `tokens` finds places, `phrases` takes the bytes of a formula's parts, and `edits` writes by `writer`.
#![tactic(auto)]

ghost use Rattle.std.specs.Prelude.{◌≡◌, ◌≤◌, ◌<◌, ◌+◌, ℕ, length, map, drop, ◌++◌, ◌∷◌, [], IfOk, Err};
ghost use Rattle.smv_lex.specs.Answers.{IfFault};
ghost use Rattle.smv_parse.specs.Answers.{UnlessMemory};
ghost use Rattle.smv_parse_items.specs.Answer.{fault};
ghost use Rattle.smv_parse_formula_texts.specs.Spelling.{SpellsText};
ghost use Rattle.smv_parse_formulas.specs.Trees.{shown as tree_of};
ghost use Rattle.law_translated_texts.specs.Answers.{limit, IsTranslated, IsRefused, IsReadable};
ghost use Rattle.law_formulas.specs.Monitors.{first_name};
ghost use Rattle.law_translated_texts.specs.Translation as texts;
ghost use Rattle.law_translated_texts.specs.Translation.{Translation, translation_of, with_end};
ghost use Rattle.smv_ltl.specs.Answers.{shown, IsThe};

pub mod changed;
pub mod edits;
pub mod formulas;
pub mod names;
pub mod phrases;
pub mod plan;
pub mod tokens;
pub mod writer;

use edits::{Source, edit};
use formulas::{count_monitors, first_ninth};
use names::free_names;
use plan::make_plan;
use smv_core::name::Name;
use smv_core::token::Token;
use smv_core::{Fault, Refusal, Seq};
use smv_parse_formula_texts::{one_answer, parse_formula_text};
use smv_parse_formulas::tree::FormulaTree;
use std::alloc::{AllocError, Global};
use writer::{LIMIT, too_long};

/// A translated text, and for each offset of it, its end included, the place in the text that was read.
#[derive(Drop)]
pub struct Translated {
    pub text: Seq<u8>,
    pub map: Seq<u32>,
}

/// The translated text. Refused are, in this order: 31 at the front of a text that is too long, the faults 1 to 6 of the text, 37 at the first X that is the ninth of its formula, and 31 at the front where the translation would be too long.
pub fn translate(alloc: Global, text: &[u8]) -> Result<Translated, Refusal>
    ensures translated { IfOk result (λ t. IsTranslated text.now (shown t)) }
    ensures only { (t : Translation) → IsTranslated text.now t → IsThe result t }
    ensures lengths { IfOk result (λ t. length t.map ≡ length t.text + 1) }
    ensures fault { IfFault result (λ fault. IsRefused text.now fault.number fault.at) }
    ensures only_fault { (number at : ℕ) → IsRefused text.now number at → UnlessMemory result (Err (fault number at)) }
{
    one_answer();
    answer(alloc, text)
}

fn answer(alloc: Global, text: &[u8]) -> Result<Translated, Refusal>
    ensures translated { IfOk result (λ t. IsTranslated text.now (shown t)) }
    ensures lengths { IfOk result (λ t. length t.map ≡ length t.text + 1) }
    ensures fault { IfFault result (λ fault. IsRefused text.now fault.number fault.at) }
{
    if text.len() > LIMIT {
        return Err(too_long());
    }
    let read = parse_formula_text(alloc, text)?;
    of_tree(alloc, text, read.tokens.as_slice(), &read.tree)
}

// The text that the tokens spell with the tree.
fn of_tree(
    alloc: Global,
    text: &[u8],
    tokens: &[Token],
    tree: &FormulaTree,
) -> Result<Translated, Refusal>
    requires within { length text.now ≤ limit }
    requires tree { SpellsText text.now tokens.now (tree_of tree.now) }
    ensures translated { IfOk result (λ t. IsTranslated text.now (shown t)) }
    ensures lengths { IfOk result (λ t. length t.map ≡ length t.text + 1) }
    ensures fault { IfFault result (λ fault. IsRefused text.now fault.number fault.at) }
{
    match first_ninth(tree.formulas.as_slice()) {
        Some(at) => Err(Refusal::Fault(Fault { number: 37, at })),
        None => written(alloc, text, tokens, tree),
    }
}

// The bytes of the translation of a text that has no ninth X.
fn written(
    alloc: Global,
    text: &[u8],
    tokens: &[Token],
    tree: &FormulaTree,
) -> Result<Translated, Refusal>
    requires within { length text.now ≤ limit }
    requires tree { SpellsText text.now tokens.now (tree_of tree.now) }
    ensures translated { IfOk result (λ t. shown t ≡ translation_of text.now tokens.now (tree_of tree.now)) }
    ensures fits { IfOk result (λ t. length t.text ≤ limit) }
    ensures lengths { IfOk result (λ t. length t.map ≡ length t.text + 1) }
    ensures fault { IfFault result (λ f. (f.number ≡ 31) × (f.at ≡ 0) × (limit < length (translation_of text.now tokens.now (tree_of tree.now)).text)) }
{
    let formulas = tree.formulas.as_slice();
    let count = count_monitors(formulas)?;
    let names = free_names(alloc, tokens, count + 1)?;
    let plan = make_plan(alloc, formulas, names.as_slice())?;
    let source = Source { text, tokens };
    let layer = first_behind(alloc, names.as_slice(), count)?;
    let out = edit(alloc, source, &plan, &layer, tree.text.tops.as_slice())?;
    let translated = finished(alloc, out.as_slice(), text.len() as u32)?;
    Ok(translated)
}

// A copy of the first name behind so many, which is empty where there is none.
fn first_behind(alloc: Global, names: &[Name], count: usize) -> Result<Name, AllocError>
    ensures { IfOk result (λ name. name ≡ first_name (drop count names.now)) }
{
    match names.get(count) {
        Some(name) => Ok(Name::from_vec(Vec::from_slice(alloc, name.as_bytes())?)),
        None => Ok(Name::from_vec(Vec::new(alloc))),
    }
}

// The bytes and their places, with the end.
fn finished(alloc: Global, out: &[(u8, u32)], end: u32) -> Result<Translated, AllocError>
    ensures text { IfOk result (λ t. t.text ≡ map (λ b. b.0) out.now) }
    ensures map { IfOk result (λ t. t.map ≡ map (λ b. b.1) out.now ++ end ∷ []) }
{
    let mut text = Seq::new(alloc);
    let mut map = Seq::new(alloc);
    for entry in out {
        text.push(entry.0)?;
        map.push(entry.1)?;
    }
    map.push(end)?;
    Ok(Translated { text, map })
}

/// Where an offset of the translated text, its end included, stands in the text that was read. It takes no memory.
pub fn back(translated: &Translated, at: u32) -> u32
    requires within { at < length translated.now.map }
    ensures { result ≡ texts.back (shown translated.now) at }
{
    translated.map.as_slice()[at as usize]
}
