// What stands at the top of a text, and the text.
ghost use Rattle.std.specs.Prelude.{◌≡◌, ◌<◌, ◌-◌, Ok, IfOk, IfErr};
ghost use Rattle.law_grammar.specs.Items.{top_marks};
ghost use Rattle.law_formula_grammar.specs.Readers.{read_module_body, read_module, read_top, read_text};
ghost use Rattle.smv_parse_expressions.specs.Answers.{StopsAs};
ghost use Rattle.smv_parse_formulas.specs.Trees.{seen, shown};
ghost use Rattle.smv_parse_formulas.specs.Pieces.{read_all, read_module_behind};
ghost use Rattle.smv_parse_formulas.specs.Answer.{StopsText};

use crate::items::{bodies, join};
use crate::tree::{FormulaTree, Placed};
use smv_core::seq::Seq;
use smv_core::signs::{
    CLOSE_BRACE, CLOSE_PAREN, OPEN_BRACE, OPEN_PAREN, WORD_MODULE, WORD_ORDSET, WORD_SCALARSET,
    WORD_TYPEDEF,
};
use smv_core::token::Token;
use smv_core::tree::{Text, Top, Word};
use smv_parse_expressions::ahead::next_is_word;
use smv_parse_expressions::single::{name, opening_sign, sign, word};
use smv_parse_expressions::stop::{Read, Stop};
use smv_parse_items::references::names_or_none;
use smv_parse_items::tops::{ordset, scalarset, typedef};
use smv_parse_statements::ahead::next_begins_top;
use std::alloc::Global;

/// '{' body '}'
#[tactic(auto, using(law_grammar::proofs::Steps::open_then, crate::proofs::Levels::next_body, crate::proofs::Loops::module_by), unfolding(law_formula_grammar::specs::Readers::read_module_body))]
fn module_body(
    alloc: Global,
    levels: u8,
    at: u32,
    name: Word,
    formals: Seq<Word>,
    tokens: &[Token],
) -> Read<'_, (Top, Seq<Placed>)>
    ensures found { IfOk result (λ found. read_module_body levels at name formals tokens.now ≡ Ok (seen found.0, found.1.now)) }
    ensures stop { IfErr result (λ stop. StopsAs stop (read_module_body levels at name formals tokens.now)) }
{
    let (_, rest) = opening_sign(OPEN_BRACE, levels, tokens)?;
    let ((body, formulas), rest) = bodies(alloc, levels - 1, rest)?;
    let (_, rest) = sign(CLOSE_BRACE, rest)?;
    let module = Top::Module {
        name,
        formals,
        body,
        at,
    };
    Ok(((module, formulas), rest))
}

/// '(' formals ')' and the body behind the name of a module.
#[tactic(auto, using(law_grammar::proofs::Steps::open_then))]
fn formals(
    alloc: Global,
    levels: u8,
    at: u32,
    name: Word,
    tokens: &[Token],
) -> Read<'_, (Top, Seq<Placed>)>
    ensures found { IfOk result (λ found. read_module_behind levels at name tokens.now ≡ Ok (seen found.0, found.1.now)) }
    ensures stop { IfErr result (λ stop. StopsAs stop (read_module_behind levels at name tokens.now)) }
{
    let (_, rest) = opening_sign(OPEN_PAREN, levels, tokens)?;
    let (formals, rest) = names_or_none(alloc, rest)?;
    let (_, rest) = sign(CLOSE_PAREN, rest)?;
    module_body(alloc, levels, at, name, formals, rest)
}

/// A module.
#[tactic(auto, unfolding(law_formula_grammar::specs::Readers::read_module))]
fn module(alloc: Global, levels: u8, tokens: &[Token]) -> Read<'_, (Top, Seq<Placed>)>
    ensures found { IfOk result (λ found. read_module levels tokens.now ≡ Ok (seen found.0, found.1.now)) }
    ensures stop { IfErr result (λ stop. StopsAs stop (read_module levels tokens.now)) }
{
    let (at, rest) = word(WORD_MODULE, tokens)?;
    let (name, rest) = name(alloc, rest)?;
    formals(alloc, levels, at, name, rest)
}

/// What stands at the top of a text.
#[tactic(auto, using(crate::proofs::Without::scalarset_by, crate::proofs::Without::ordset_by, crate::proofs::Without::typedef_by), unfolding(law_formula_grammar::specs::Readers::read_top))]
fn top(alloc: Global, levels: u8, tokens: &[Token]) -> Read<'_, (Top, Seq<Placed>)>
    ensures found { IfOk result (λ found. read_top levels tokens.now ≡ Ok (seen found.0, found.1.now)) }
    ensures stop { IfErr result (λ stop. StopsAs stop (read_top levels tokens.now)) }
{
    if next_is_word(WORD_SCALARSET, tokens) {
        let (top, rest) = scalarset(alloc, levels, tokens)?;
        return Ok(((top, Seq::new(alloc)), rest));
    }
    if next_is_word(WORD_ORDSET, tokens) {
        let (top, rest) = ordset(alloc, levels, tokens)?;
        return Ok(((top, Seq::new(alloc)), rest));
    }
    if next_is_word(WORD_TYPEDEF, tokens) {
        let (top, rest) = typedef(alloc, levels, tokens)?;
        return Ok(((top, Seq::new(alloc)), rest));
    }
    module(alloc, levels, tokens)
}

/// As many tops as stand one after another.
#[tactic(auto, using(crate::proofs::Loops::tops_begin, crate::proofs::Loops::tops_end, crate::proofs::Loops::tops_halt, crate::proofs::Loops::tops_go_on, crate::proofs::Loops::tops_shrink))]
fn tops(alloc: Global, levels: u8, tokens: &[Token]) -> Read<'_, (Seq<Top>, Seq<Placed>)>
    ensures found { IfOk result (λ found. read_all top_marks (read_top levels) tokens.now ≡ Ok (seen found.0, found.1.now)) }
    ensures stop { IfErr result (λ stop. StopsAs stop (read_all top_marks (read_top levels) tokens.now)) }
{
    let mut items = Vec::new(alloc);
    let mut formulas = Seq::new(alloc);
    let mut rest = tokens;
    while next_begins_top(rest) {
        let ((next, more), after) = top(alloc, levels, rest)?;
        items.push(next)?;
        formulas = join(formulas, more)?;
        rest = after;
    }
    Ok(((Seq::from_vec(items), formulas), rest))
}

/// A whole list of tokens as a text with formulas within so many levels.
#[tactic(auto, using(crate::proofs::Loops::tops_by))]
pub fn text(alloc: Global, levels: u8, tokens: &[Token]) -> Result<FormulaTree, Stop>
    ensures found { IfOk result (λ tree. read_text levels tokens.now ≡ Ok (shown tree)) }
    ensures stop { IfErr result (λ stop. StopsText stop (read_text levels tokens.now)) }
{
    let ((tops, formulas), rest) = tops(alloc, levels, tokens)?;
    match rest.split_first() {
        Some(_) => Err(Stop::Unexpected(rest.len())),
        None => Ok(FormulaTree {
            text: Text { tops },
            formulas,
        }),
    }
}
