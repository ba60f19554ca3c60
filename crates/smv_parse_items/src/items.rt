// Items, and what stands in the body of a module.
ghost use Rattle.std.specs.Prelude.{◌≡◌, ◌<◌, ◌-◌, Ok, IfOk, IfErr};
ghost use Rattle.law_grammar.specs.Parsing.{bind, pure, loop};
ghost use Rattle.law_grammar.specs.Marks.{begins};
ghost use Rattle.law_grammar.specs.Statements.{read_worded, stmt_readers};
ghost use Rattle.law_grammar.specs.Items.{item_marks, body_marks, read_item, read_other_item, read_forall_item, read_block_item, read_body, item_readers};
ghost use Rattle.smv_parse_expressions.specs.Answers.{StopsAs};

use crate::bodies::{layer, named, named_body, with_role};
use crate::references::{split, using_item};
use smv_core::boxed::Boxed;
use smv_core::seq::Seq;
use smv_core::signs::{CLOSE_BRACE, OPEN_BRACE, WORD_FORALL, WORD_LAYER, WORD_SUBCASE, WORD_USING};
use smv_core::token::Token;
use smv_core::tree::Item;
use smv_parse_expressions::ahead::{next_is_name, next_is_sign, next_is_word};
use smv_parse_expressions::single::{opening_sign, opening_word, sign};
use smv_parse_expressions::stop::Stop;
use smv_parse_statements::ahead::{next_begins_body, next_begins_item, next_is_role};
use smv_parse_statements::grammar::worded;
use smv_parse_statements::parts::binder;
use std::alloc::Global;

/// 'forall', its binder and an item.
#[cycle(items)]
#[tactic(auto, using(law_grammar::proofs::Steps::open_then, law_grammar::proofs::Steps::next_binder, law_grammar::proofs::Steps::next_item), unfolding(law_grammar::specs::Items::read_forall_item))]
fn forall(alloc: Global, levels: u8, tokens: &[Token]) -> Result<(Item, &[Token]), Stop>
    ensures found { IfOk result (λ found. read_forall_item levels (item_readers levels) tokens.now ≡ Ok (found.0, found.1.now)) }
    ensures stop { IfErr result (λ stop. StopsAs stop (read_forall_item levels (item_readers levels) tokens.now)) }
{
    let (at, rest) = opening_word(WORD_FORALL, levels, tokens)?;
    let ((var, over), rest) = binder(alloc, levels - 1, rest)?;
    let (body, rest) = item(alloc, levels - 1, rest)?;
    let body = Boxed::new(alloc, body)?;
    Ok((
        Item::Forall {
            var,
            over,
            body,
            at,
        },
        rest,
    ))
}

/// As many items as stand one after another.
#[cycle(items)]
#[tactic(auto, using(crate::proofs::Loops::items_end, crate::proofs::Loops::items_halt, crate::proofs::Loops::items_go_on, crate::proofs::Loops::items_shrink, smv_parse_expressions::proofs::Loops::not_begun))]
fn items(alloc: Global, levels: u8, tokens: &[Token]) -> Result<(Seq<Item>, &[Token]), Stop>
    ensures found { IfOk result (λ found. loop (begins item_marks) (read_item levels (item_readers levels)) tokens.now ≡ Ok (found.0, found.1.now)) }
    ensures stop { IfErr result (λ stop. StopsAs stop (loop (begins item_marks) (read_item levels (item_readers levels)) tokens.now)) }
{
    let mut items = Vec::new(alloc);
    let mut rest = tokens;
    while next_begins_item(rest) {
        let (next, after) = item(alloc, levels, rest)?;
        items.push(next)?;
        rest = after;
    }
    Ok((Seq::from_vec(items), rest))
}

/// '{' items '}'
#[cycle(items)]
#[tactic(auto, using(law_grammar::proofs::Steps::open_then, law_grammar::proofs::Steps::next_item), unfolding(law_grammar::specs::Items::read_block_item))]
fn block(alloc: Global, levels: u8, tokens: &[Token]) -> Result<(Item, &[Token]), Stop>
    ensures found { IfOk result (λ found. read_block_item levels (item_readers levels) tokens.now ≡ Ok (found.0, found.1.now)) }
    ensures stop { IfErr result (λ stop. StopsAs stop (read_block_item levels (item_readers levels) tokens.now)) }
{
    let (_, rest) = opening_sign(OPEN_BRACE, levels, tokens)?;
    let (items, rest) = items(alloc, levels - 1, rest)?;
    let (_, rest) = sign(CLOSE_BRACE, rest)?;
    Ok((Item::Block { items }, rest))
}

/// A statement that begins with a reserved word, as an item.
pub fn act(alloc: Global, levels: u8, tokens: &[Token]) -> Result<(Item, &[Token]), Stop>
    ensures found { IfOk result (λ found. bind (read_worded levels (stmt_readers levels)) (λ x. pure (Item.Act x)) tokens.now ≡ Ok (found.0, found.1.now)) }
    ensures stop { IfErr result (λ stop. StopsAs stop (bind (read_worded levels (stmt_readers levels)) (λ x. pure (Item.Act x)) tokens.now)) }
{
    let (act, rest) = worded(alloc, levels, tokens)?;
    Ok((Item::Act { act }, rest))
}

/// An item that begins with no name.
#[cycle(items)]
#[tactic(auto, unfolding(law_grammar::specs::Items::read_other_item))]
fn other_item(alloc: Global, levels: u8, tokens: &[Token]) -> Result<(Item, &[Token]), Stop>
    ensures found { IfOk result (λ found. read_other_item levels (item_readers levels) tokens.now ≡ Ok (found.0, found.1.now)) }
    ensures stop { IfErr result (λ stop. StopsAs stop (read_other_item levels (item_readers levels) tokens.now)) }
{
    if next_is_word(WORD_FORALL, tokens) {
        return forall(alloc, levels, tokens);
    }
    if next_is_sign(OPEN_BRACE, tokens) {
        return block(alloc, levels, tokens);
    }
    if next_is_word(WORD_SUBCASE, tokens) {
        return split(alloc, levels, tokens);
    }
    if next_is_word(WORD_USING, tokens) {
        return using_item(alloc, levels, tokens);
    }
    act(alloc, levels, tokens)
}

/// An item.
#[cycle(items)]
#[tactic(auto, unfolding(law_grammar::specs::Items::read_item))]
fn item(alloc: Global, levels: u8, tokens: &[Token]) -> Result<(Item, &[Token]), Stop>
    ensures found { IfOk result (λ found. read_item levels (item_readers levels) tokens.now ≡ Ok (found.0, found.1.now)) }
    ensures stop { IfErr result (λ stop. StopsAs stop (read_item levels (item_readers levels) tokens.now)) }
{
    if next_is_name(tokens) {
        return named(alloc, levels, tokens);
    }
    other_item(alloc, levels, tokens)
}

/// What stands in the body of a module.
#[tactic(auto, unfolding(law_grammar::specs::Items::read_body))]
fn body(alloc: Global, levels: u8, tokens: &[Token]) -> Result<(Item, &[Token]), Stop>
    ensures found { IfOk result (λ found. read_body levels (item_readers levels) tokens.now ≡ Ok (found.0, found.1.now)) }
    ensures stop { IfErr result (λ stop. StopsAs stop (read_body levels (item_readers levels) tokens.now)) }
{
    if next_is_role(tokens) {
        return with_role(alloc, levels, tokens);
    }
    if next_is_word(WORD_LAYER, tokens) {
        return layer(alloc, levels, tokens);
    }
    if next_is_name(tokens) {
        return named_body(alloc, levels, tokens);
    }
    other_item(alloc, levels, tokens)
}

/// As much as stands in the body of a module.
#[tactic(auto, using(crate::proofs::Loops::bodies_end, crate::proofs::Loops::bodies_halt, crate::proofs::Loops::bodies_go_on, crate::proofs::Loops::bodies_shrink, smv_parse_expressions::proofs::Loops::not_begun))]
pub fn bodies(alloc: Global, levels: u8, tokens: &[Token]) -> Result<(Seq<Item>, &[Token]), Stop>
    ensures found { IfOk result (λ found. loop (begins body_marks) (read_body levels (item_readers levels)) tokens.now ≡ Ok (found.0, found.1.now)) }
    ensures stop { IfErr result (λ stop. StopsAs stop (loop (begins body_marks) (read_body levels (item_readers levels)) tokens.now)) }
{
    let mut items = Vec::new(alloc);
    let mut rest = tokens;
    while next_begins_body(rest) {
        let (next, after) = body(alloc, levels, rest)?;
        items.push(next)?;
        rest = after;
    }
    Ok((Seq::from_vec(items), rest))
}
