// Items with the formulas of their claims, and what stands in the body of a module.
ghost use Rattle.std.specs.Prelude.{◌≡◌, ◌<◌, ◌-◌, ◌++◌, Ok, IfOk, IfErr};
ghost use Rattle.law_grammar.specs.Items.{item_marks, body_marks};
ghost use Rattle.law_formula_grammar.specs.Readers.{read_forall_item, read_block_item, read_other_item, read_item, read_body, item_reader};
ghost use Rattle.smv_parse_expressions.specs.Answers.{StopsAs};
ghost use Rattle.smv_parse_formulas.specs.Trees.{seen};
ghost use Rattle.smv_parse_formulas.specs.Pieces.{read_all};

use crate::claims::{named, named_body};
use crate::tree::Placed;
use smv_core::boxed::Boxed;
use smv_core::seq::Seq;
use smv_core::signs::{CLOSE_BRACE, OPEN_BRACE, WORD_FORALL, WORD_LAYER, WORD_SUBCASE, WORD_USING};
use smv_core::token::Token;
use smv_core::tree::Item;
use smv_parse_expressions::ahead::{next_is_name, next_is_sign, next_is_word};
use smv_parse_expressions::single::{opening_sign, opening_word, sign};
use smv_parse_expressions::stop::{Read, Stop};
use smv_parse_items::bodies::{layer, with_role};
use smv_parse_items::items::act;
use smv_parse_items::references::{split, using_item};
use smv_parse_statements::ahead::{next_begins_body, next_begins_item, next_is_role};
use smv_parse_statements::parts::binder;
use std::alloc::Global;

/// Formulas behind formulas.
pub(crate) fn join(formulas: Seq<Placed>, more: Seq<Placed>) -> Result<Seq<Placed>, Stop>
    ensures made { IfOk result (λ made. made ≡ formulas ++ more) }
    ensures stop { IfErr result (λ stop. stop ≡ Stop.OutOfMemory) }
{
    let mut all = formulas.into_vec();
    let mut more = more.into_vec();
    all.append(&mut more)?;
    Ok(Seq::from_vec(all))
}

/// 'forall', its binder and an item.
#[cycle(items)]
#[tactic(auto, using(law_grammar::proofs::Steps::open_then, law_grammar::proofs::Steps::next_binder, crate::proofs::Levels::next_item), unfolding(law_formula_grammar::specs::Readers::read_forall_item))]
fn forall(alloc: Global, levels: u8, tokens: &[Token]) -> Read<'_, (Item, Seq<Placed>)>
    ensures found { IfOk result (λ found. read_forall_item levels (item_reader levels) tokens.now ≡ Ok (seen found.0, found.1.now)) }
    ensures stop { IfErr result (λ stop. StopsAs stop (read_forall_item levels (item_reader levels) tokens.now)) }
{
    let (at, rest) = opening_word(WORD_FORALL, levels, tokens)?;
    let ((var, over), rest) = binder(alloc, levels - 1, rest)?;
    let ((body, formulas), rest) = item(alloc, levels - 1, rest)?;
    let body = Boxed::new(alloc, body)?;
    let all = Item::Forall {
        var,
        over,
        body,
        at,
    };
    Ok(((all, formulas), rest))
}

/// As many items as stand one after another.
#[cycle(items)]
#[tactic(auto, using(crate::proofs::Loops::items_begin, crate::proofs::Loops::items_end, crate::proofs::Loops::items_halt, crate::proofs::Loops::items_go_on, crate::proofs::Loops::items_shrink))]
fn items(alloc: Global, levels: u8, tokens: &[Token]) -> Read<'_, (Seq<Item>, Seq<Placed>)>
    ensures found { IfOk result (λ found. read_all item_marks (read_item levels (item_reader levels)) tokens.now ≡ Ok (seen found.0, found.1.now)) }
    ensures stop { IfErr result (λ stop. StopsAs stop (read_all item_marks (read_item levels (item_reader levels)) tokens.now)) }
{
    let mut items = Vec::new(alloc);
    let mut formulas = Seq::new(alloc);
    let mut rest = tokens;
    while next_begins_item(rest) {
        let ((next, more), after) = item(alloc, levels, rest)?;
        items.push(next)?;
        formulas = join(formulas, more)?;
        rest = after;
    }
    Ok(((Seq::from_vec(items), formulas), rest))
}

/// '{' items '}'
#[cycle(items)]
#[tactic(auto, using(law_grammar::proofs::Steps::open_then, crate::proofs::Levels::next_item, crate::proofs::Loops::block_by), unfolding(law_formula_grammar::specs::Readers::read_block_item))]
fn block(alloc: Global, levels: u8, tokens: &[Token]) -> Read<'_, (Item, Seq<Placed>)>
    ensures found { IfOk result (λ found. read_block_item levels (item_reader levels) tokens.now ≡ Ok (seen found.0, found.1.now)) }
    ensures stop { IfErr result (λ stop. StopsAs stop (read_block_item levels (item_reader levels) tokens.now)) }
{
    let (_, rest) = opening_sign(OPEN_BRACE, levels, tokens)?;
    let ((items, formulas), rest) = items(alloc, levels - 1, rest)?;
    let (_, rest) = sign(CLOSE_BRACE, rest)?;
    Ok(((Item::Block { items }, formulas), rest))
}

/// An item that begins with no name.
#[cycle(items)]
#[tactic(auto, using(crate::proofs::Without::acted_by), unfolding(law_formula_grammar::specs::Readers::read_other_item))]
fn other_item(alloc: Global, levels: u8, tokens: &[Token]) -> Read<'_, (Item, Seq<Placed>)>
    ensures found { IfOk result (λ found. read_other_item levels (item_reader levels) tokens.now ≡ Ok (seen found.0, found.1.now)) }
    ensures stop { IfErr result (λ stop. StopsAs stop (read_other_item levels (item_reader levels) tokens.now)) }
{
    if next_is_word(WORD_FORALL, tokens) {
        return forall(alloc, levels, tokens);
    }
    if next_is_sign(OPEN_BRACE, tokens) {
        return block(alloc, levels, tokens);
    }
    if next_is_word(WORD_SUBCASE, tokens) {
        let (item, rest) = split(alloc, levels, tokens)?;
        return Ok(((item, Seq::new(alloc)), rest));
    }
    if next_is_word(WORD_USING, tokens) {
        let (item, rest) = using_item(alloc, levels, tokens)?;
        return Ok(((item, Seq::new(alloc)), rest));
    }
    let (item, rest) = act(alloc, levels, tokens)?;
    Ok(((item, Seq::new(alloc)), rest))
}

/// An item.
#[cycle(items)]
#[tactic(auto, unfolding(law_formula_grammar::specs::Readers::read_item))]
fn item(alloc: Global, levels: u8, tokens: &[Token]) -> Read<'_, (Item, Seq<Placed>)>
    ensures found { IfOk result (λ found. read_item levels (item_reader levels) tokens.now ≡ Ok (seen found.0, found.1.now)) }
    ensures stop { IfErr result (λ stop. StopsAs stop (read_item levels (item_reader levels) tokens.now)) }
{
    if next_is_name(tokens) {
        return named(alloc, levels, tokens);
    }
    other_item(alloc, levels, tokens)
}

/// What stands in the body of a module.
#[tactic(auto, unfolding(law_formula_grammar::specs::Readers::read_body))]
fn body(alloc: Global, levels: u8, tokens: &[Token]) -> Read<'_, (Item, Seq<Placed>)>
    ensures found { IfOk result (λ found. read_body levels (item_reader levels) tokens.now ≡ Ok (seen found.0, found.1.now)) }
    ensures stop { IfErr result (λ stop. StopsAs stop (read_body levels (item_reader levels) tokens.now)) }
{
    if next_is_role(tokens) {
        let (item, rest) = with_role(alloc, levels, tokens)?;
        return Ok(((item, Seq::new(alloc)), rest));
    }
    if next_is_word(WORD_LAYER, tokens) {
        let (item, rest) = layer(alloc, levels, tokens)?;
        return Ok(((item, Seq::new(alloc)), rest));
    }
    if next_is_name(tokens) {
        return named_body(alloc, levels, tokens);
    }
    other_item(alloc, levels, tokens)
}

/// As much as stands in the body of a module.
#[tactic(auto, using(crate::proofs::Loops::bodies_begin, crate::proofs::Loops::bodies_end, crate::proofs::Loops::bodies_halt, crate::proofs::Loops::bodies_go_on, crate::proofs::Loops::bodies_shrink))]
pub(crate) fn bodies(
    alloc: Global,
    levels: u8,
    tokens: &[Token],
) -> Read<'_, (Seq<Item>, Seq<Placed>)>
    ensures found { IfOk result (λ found. read_all body_marks (read_body levels (item_reader levels)) tokens.now ≡ Ok (seen found.0, found.1.now)) }
    ensures stop { IfErr result (λ stop. StopsAs stop (read_all body_marks (read_body levels (item_reader levels)) tokens.now)) }
{
    let mut items = Vec::new(alloc);
    let mut formulas = Seq::new(alloc);
    let mut rest = tokens;
    while next_begins_body(rest) {
        let ((next, more), after) = body(alloc, levels, rest)?;
        items.push(next)?;
        formulas = join(formulas, more)?;
        rest = after;
    }
    Ok(((Seq::from_vec(items), formulas), rest))
}
