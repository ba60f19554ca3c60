// What stands at the top of a text, and the text.
ghost use Rattle.std.specs.Prelude.{◌≡◌, ◌<◌, ◌-◌, Ok, IfOk, IfErr};
ghost use Rattle.law_grammar.specs.Items.{read_scalarset, read_ordset, read_typedef, read_module_body, read_module, read_top, read_tops, read_text, item_readers};
ghost use Rattle.smv_parse_expressions.specs.Answers.{StopsAs};
ghost use Rattle.smv_parse_items.specs.Pieces.{read_any_extent, read_module_behind};
ghost use Rattle.smv_parse_items.specs.Reading.{StopsText};

use crate::items::bodies;
use crate::references::names_or_none;
use smv_core::seq::Seq;
use smv_core::signs::{
    CLOSE_BRACE, CLOSE_PAREN, OPEN_BRACE, OPEN_PAREN, SEMICOLON, WORD_MODULE, WORD_ORDSET,
    WORD_SCALARSET, WORD_TYPEDEF, WORD_UNDEFINED,
};
use smv_core::token::Token;
use smv_core::tree::{Span, Text, Top, Word};
use smv_parse_expressions::ahead::next_is_word;
use smv_parse_expressions::single::{name, opening_sign, sign, word};
use smv_parse_expressions::stop::Stop;
use smv_parse_expressions::types::{span, type_expr};
use smv_parse_statements::ahead::next_begins_top;
use std::alloc::Global;

/// 'undefined' | number '..' number
fn extent(tokens: &[Token]) -> Result<((Option<Span>, u32), &[Token]), Stop>
    ensures found { IfOk result (λ found. read_any_extent tokens.now ≡ Ok (found.0, found.1.now)) }
    ensures stop { IfErr result (λ stop. StopsAs stop (read_any_extent tokens.now)) }
{
    if next_is_word(WORD_UNDEFINED, tokens) {
        let (at, rest) = word(WORD_UNDEFINED, tokens)?;
        return Ok(((None, at), rest));
    }
    let ((span, at), rest) = span(tokens)?;
    Ok(((Some(span), at), rest))
}

/// 'scalarset' name ( 'undefined' | number '..' number ) ';'
#[tactic(auto, unfolding(law_grammar::specs::Items::read_scalarset, law_grammar::specs::Items::read_extent))]
pub fn scalarset(alloc: Global, levels: u8, tokens: &[Token]) -> Result<(Top, &[Token]), Stop>
    ensures found { IfOk result (λ found. read_scalarset levels (item_readers levels) tokens.now ≡ Ok (found.0, found.1.now)) }
    ensures stop { IfErr result (λ stop. StopsAs stop (read_scalarset levels (item_readers levels) tokens.now)) }
{
    let (_, rest) = word(WORD_SCALARSET, tokens)?;
    let (name, rest) = name(alloc, rest)?;
    let ((span, at), rest) = extent(rest)?;
    let (_, rest) = sign(SEMICOLON, rest)?;
    Ok((
        Top::SetType {
            name,
            ordered: false,
            span,
            at,
        },
        rest,
    ))
}

/// 'ordset' name 'undefined' ';'
#[tactic(auto, unfolding(law_grammar::specs::Items::read_ordset))]
pub fn ordset(alloc: Global, levels: u8, tokens: &[Token]) -> Result<(Top, &[Token]), Stop>
    ensures found { IfOk result (λ found. read_ordset levels (item_readers levels) tokens.now ≡ Ok (found.0, found.1.now)) }
    ensures stop { IfErr result (λ stop. StopsAs stop (read_ordset levels (item_readers levels) tokens.now)) }
{
    let (_, rest) = word(WORD_ORDSET, tokens)?;
    let (name, rest) = name(alloc, rest)?;
    let (at, rest) = word(WORD_UNDEFINED, rest)?;
    let (_, rest) = sign(SEMICOLON, rest)?;
    Ok((
        Top::SetType {
            name,
            ordered: true,
            span: None,
            at,
        },
        rest,
    ))
}

/// 'typedef' name Type ';'
#[tactic(auto, unfolding(law_grammar::specs::Items::read_typedef))]
pub fn typedef(alloc: Global, levels: u8, tokens: &[Token]) -> Result<(Top, &[Token]), Stop>
    ensures found { IfOk result (λ found. read_typedef levels (item_readers levels) tokens.now ≡ Ok (found.0, found.1.now)) }
    ensures stop { IfErr result (λ stop. StopsAs stop (read_typedef levels (item_readers levels) tokens.now)) }
{
    let (at, rest) = word(WORD_TYPEDEF, tokens)?;
    let (name, rest) = name(alloc, rest)?;
    let (of, rest) = type_expr(alloc, levels, rest)?;
    let (_, rest) = sign(SEMICOLON, rest)?;
    Ok((Top::Alias { name, of, at }, rest))
}

/// '{' body '}'
#[tactic(auto, using(law_grammar::proofs::Steps::open_then, law_grammar::proofs::Steps::next_body), unfolding(law_grammar::specs::Items::read_module_body))]
fn module_body(
    alloc: Global,
    levels: u8,
    at: u32,
    name: Word,
    formals: Seq<Word>,
    tokens: &[Token],
) -> Result<(Top, &[Token]), Stop>
    ensures found { IfOk result (λ found. read_module_body levels (item_readers levels) at name formals tokens.now ≡ Ok (found.0, found.1.now)) }
    ensures stop { IfErr result (λ stop. StopsAs stop (read_module_body levels (item_readers levels) at name formals tokens.now)) }
{
    let (_, rest) = opening_sign(OPEN_BRACE, levels, tokens)?;
    let (body, rest) = bodies(alloc, levels - 1, rest)?;
    let (_, rest) = sign(CLOSE_BRACE, rest)?;
    Ok((
        Top::Module {
            name,
            formals,
            body,
            at,
        },
        rest,
    ))
}

/// '(' formals ')' and the body behind the name of a module.
#[tactic(auto, using(law_grammar::proofs::Steps::open_then))]
fn formals(
    alloc: Global,
    levels: u8,
    at: u32,
    name: Word,
    tokens: &[Token],
) -> Result<(Top, &[Token]), Stop>
    ensures found { IfOk result (λ found. read_module_behind levels at name tokens.now ≡ Ok (found.0, found.1.now)) }
    ensures stop { IfErr result (λ stop. StopsAs stop (read_module_behind levels at name tokens.now)) }
{
    let (_, rest) = opening_sign(OPEN_PAREN, levels, tokens)?;
    let (formals, rest) = names_or_none(alloc, rest)?;
    let (_, rest) = sign(CLOSE_PAREN, rest)?;
    module_body(alloc, levels, at, name, formals, rest)
}

/// A module.
#[tactic(auto, unfolding(law_grammar::specs::Items::read_module))]
fn module(alloc: Global, levels: u8, tokens: &[Token]) -> Result<(Top, &[Token]), Stop>
    ensures found { IfOk result (λ found. read_module levels (item_readers levels) tokens.now ≡ Ok (found.0, found.1.now)) }
    ensures stop { IfErr result (λ stop. StopsAs stop (read_module levels (item_readers levels) tokens.now)) }
{
    let (at, rest) = word(WORD_MODULE, tokens)?;
    let (name, rest) = name(alloc, rest)?;
    formals(alloc, levels, at, name, rest)
}

/// What stands at the top of a text.
#[tactic(auto, unfolding(law_grammar::specs::Items::read_top))]
fn top(alloc: Global, levels: u8, tokens: &[Token]) -> Result<(Top, &[Token]), Stop>
    ensures found { IfOk result (λ found. read_top levels (item_readers levels) tokens.now ≡ Ok (found.0, found.1.now)) }
    ensures stop { IfErr result (λ stop. StopsAs stop (read_top levels (item_readers levels) tokens.now)) }
{
    if next_is_word(WORD_SCALARSET, tokens) {
        return scalarset(alloc, levels, tokens);
    }
    if next_is_word(WORD_ORDSET, tokens) {
        return ordset(alloc, levels, tokens);
    }
    if next_is_word(WORD_TYPEDEF, tokens) {
        return typedef(alloc, levels, tokens);
    }
    module(alloc, levels, tokens)
}

/// As many tops as stand one after another.
#[tactic(auto, using(crate::proofs::Loops::tops_end, crate::proofs::Loops::tops_halt, crate::proofs::Loops::tops_go_on, crate::proofs::Loops::tops_shrink, smv_parse_expressions::proofs::Loops::not_begun), unfolding(law_grammar::specs::Items::read_tops))]
fn tops(alloc: Global, levels: u8, tokens: &[Token]) -> Result<(Seq<Top>, &[Token]), Stop>
    ensures found { IfOk result (λ found. read_tops levels tokens.now ≡ Ok (found.0, found.1.now)) }
    ensures stop { IfErr result (λ stop. StopsAs stop (read_tops levels tokens.now)) }
{
    let mut items = Vec::new(alloc);
    let mut rest = tokens;
    while next_begins_top(rest) {
        let (next, after) = top(alloc, levels, rest)?;
        items.push(next)?;
        rest = after;
    }
    Ok((Seq::from_vec(items), rest))
}

/// A whole list of tokens as a text within so many levels.
#[tactic(auto, unfolding(law_grammar::specs::Items::read_text))]
pub fn text(alloc: Global, levels: u8, tokens: &[Token]) -> Result<Text, Stop>
    ensures found { IfOk result (λ text. read_text levels tokens.now ≡ Ok text) }
    ensures stop { IfErr result (λ stop. StopsText stop (read_text levels tokens.now)) }
{
    let (tops, rest) = tops(alloc, levels, tokens)?;
    match rest.split_first() {
        Some(_) => Err(Stop::Unexpected(rest.len())),
        None => Ok(Text { tops }),
    }
}
