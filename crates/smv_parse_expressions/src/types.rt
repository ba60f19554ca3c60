// Types.
ghost use Rattle.std.specs.Prelude.{◌≡◌, ◌∷◌, [], Ok, IfOk, IfErr};
ghost use Rattle.law_grammar.specs.Parsing.{loop};
ghost use Rattle.law_grammar.specs.Marks.{any_name, begins};
ghost use Rattle.law_grammar.specs.Expressions.{read_span, read_index};
ghost use Rattle.law_grammar.specs.Types.{read_type, read_array, read_enumeration, read_structure, read_field, type_readers};
ghost use Rattle.smv_parse_expressions.specs.Answers.{StopsAs};

use crate::ahead::{next_begins_index, next_is_name, next_is_number, next_is_sign, next_is_word};
use crate::names::names;
use crate::nodes::{array_of, field_of};
use crate::single::{name, number, opening_sign, opening_word, sign, word};
use crate::stop::Read;
use smv_core::seq::Seq;
use smv_core::signs::{
    CLOSE_BRACE, COLON, DOTS, OPEN_BRACE, SEMICOLON, WORD_ARRAY, WORD_BOOLEAN, WORD_OF, WORD_STRUCT,
};
use smv_core::token::Token;
use smv_core::tree::{Field, Span, TypeExpr};
use std::alloc::Global;

/// number '..' number; the span and its offset.
#[tactic(auto, unfolding(law_grammar::specs::Expressions::read_span))]
pub fn span(tokens: &[Token]) -> Read<'_, (Span, u32)>
    ensures found { IfOk result (λ found. read_span tokens.now ≡ Ok (found.0, found.1.now)) }
    ensures stop { IfErr result (λ stop. StopsAs stop (read_span tokens.now)) }
{
    let ((low, at), rest) = number(tokens)?;
    let (_, rest) = sign(DOTS, rest)?;
    let ((high, _), rest) = number(rest)?;
    Ok(((Span { low, high }, at), rest))
}

/// 'boolean' | number '..' number | name
#[tactic(auto, unfolding(law_grammar::specs::Expressions::read_index))]
pub fn index(alloc: Global, tokens: &[Token]) -> Read<'_, TypeExpr>
    ensures found { IfOk result (λ found. read_index tokens.now ≡ Ok (found.0, found.1.now)) }
    ensures stop { IfErr result (λ stop. StopsAs stop (read_index tokens.now)) }
{
    if next_is_word(WORD_BOOLEAN, tokens) {
        let (_, rest) = word(WORD_BOOLEAN, tokens)?;
        return Ok((TypeExpr::Boolean, rest));
    }
    if next_is_number(tokens) {
        let ((span, at), rest) = span(tokens)?;
        return Ok((TypeExpr::Range { span, at }, rest));
    }
    let (name, rest) = name(alloc, tokens)?;
    let at = name.at;
    Ok((TypeExpr::Named { name, at }, rest))
}

/// '{' name { ',' name } '}'
#[tactic(auto, using(law_grammar::proofs::Steps::open_then), unfolding(law_grammar::specs::Types::read_enumeration))]
fn enumeration(alloc: Global, levels: u8, tokens: &[Token]) -> Read<'_, TypeExpr>
    ensures found { IfOk result (λ found. read_enumeration levels (type_readers levels) tokens.now ≡ Ok (found.0, found.1.now)) }
    ensures stop { IfErr result (λ stop. StopsAs stop (read_enumeration levels (type_readers levels) tokens.now)) }
{
    let (at, rest) = opening_sign(OPEN_BRACE, levels, tokens)?;
    let (names, rest) = names(alloc, rest)?;
    let (_, rest) = sign(CLOSE_BRACE, rest)?;
    let names = Seq::from_vec(names);
    Ok((TypeExpr::Enum { names, at }, rest))
}

/// 'array' Index 'of' Type
#[cycle(types)]
#[tactic(auto, using(law_grammar::proofs::Steps::open_then, law_grammar::proofs::Steps::next_type), unfolding(law_grammar::specs::Types::read_array))]
fn array(alloc: Global, levels: u8, tokens: &[Token]) -> Read<'_, TypeExpr>
    ensures found { IfOk result (λ found. read_array levels (type_readers levels) tokens.now ≡ Ok (found.0, found.1.now)) }
    ensures stop { IfErr result (λ stop. StopsAs stop (read_array levels (type_readers levels) tokens.now)) }
{
    let (_, rest) = word(WORD_ARRAY, tokens)?;
    let (index, rest) = index(alloc, rest)?;
    let (_, rest) = opening_word(WORD_OF, levels, rest)?;
    let (of, rest) = type_expr(alloc, levels - 1, rest)?;
    Ok((array_of(alloc, index, of)?, rest))
}

/// name { ',' name } ':' Type ';'
#[cycle(types)]
#[tactic(auto, unfolding(law_grammar::specs::Types::read_field))]
fn field(alloc: Global, levels: u8, tokens: &[Token]) -> Read<'_, Field>
    ensures found { IfOk result (λ found. read_field levels (type_readers levels) tokens.now ≡ Ok (found.0, found.1.now)) }
    ensures stop { IfErr result (λ stop. StopsAs stop (read_field levels (type_readers levels) tokens.now)) }
{
    let (names, rest) = names(alloc, tokens)?;
    let (_, rest) = sign(COLON, rest)?;
    let (of, rest) = type_expr(alloc, levels, rest)?;
    let (_, rest) = sign(SEMICOLON, rest)?;
    Ok((field_of(names, of), rest))
}

/// { Field }
#[cycle(types)]
#[tactic(auto, using(crate::proofs::Loops::fields_end, crate::proofs::Loops::fields_halt, crate::proofs::Loops::fields_go_on, crate::proofs::Loops::fields_shrink, crate::proofs::Loops::not_begun))]
fn fields(alloc: Global, levels: u8, tokens: &[Token]) -> Read<'_, Vec<Field>>
    ensures found { IfOk result (λ found. loop (begins (any_name ∷ [])) (read_field levels (type_readers levels)) tokens.now ≡ Ok (found.0.items, found.1.now)) }
    ensures stop { IfErr result (λ stop. StopsAs stop (loop (begins (any_name ∷ [])) (read_field levels (type_readers levels)) tokens.now)) }
{
    let mut items = Vec::new(alloc);
    let mut rest = tokens;
    while next_is_name(rest) {
        let (next, after) = field(alloc, levels, rest)?;
        items.push(next)?;
        rest = after;
    }
    Ok((items, rest))
}

/// 'struct' '{' { Field } '}'
#[cycle(types)]
#[tactic(auto, using(law_grammar::proofs::Steps::open_then, law_grammar::proofs::Steps::next_field), unfolding(law_grammar::specs::Types::read_structure))]
fn structure(alloc: Global, levels: u8, tokens: &[Token]) -> Read<'_, TypeExpr>
    ensures found { IfOk result (λ found. read_structure levels (type_readers levels) tokens.now ≡ Ok (found.0, found.1.now)) }
    ensures stop { IfErr result (λ stop. StopsAs stop (read_structure levels (type_readers levels) tokens.now)) }
{
    let (_, rest) = word(WORD_STRUCT, tokens)?;
    let (_, rest) = opening_sign(OPEN_BRACE, levels, rest)?;
    let (fields, rest) = fields(alloc, levels - 1, rest)?;
    let (_, rest) = sign(CLOSE_BRACE, rest)?;
    let fields = Seq::from_vec(fields);
    Ok((TypeExpr::Struct { fields }, rest))
}

/// A type.
#[cycle(types)]
#[tactic(auto, unfolding(law_grammar::specs::Types::read_type))]
pub fn type_expr(alloc: Global, levels: u8, tokens: &[Token]) -> Read<'_, TypeExpr>
    ensures found { IfOk result (λ found. read_type levels (type_readers levels) tokens.now ≡ Ok (found.0, found.1.now)) }
    ensures stop { IfErr result (λ stop. StopsAs stop (read_type levels (type_readers levels) tokens.now)) }
{
    if next_begins_index(tokens) {
        return index(alloc, tokens);
    }
    if next_is_sign(OPEN_BRACE, tokens) {
        return enumeration(alloc, levels, tokens);
    }
    if next_is_word(WORD_ARRAY, tokens) {
        return array(alloc, levels, tokens);
    }
    structure(alloc, levels, tokens)
}
