// Names with commas.
ghost use Rattle.std.specs.Prelude.{◌≡◌, Ok, IfOk, IfErr};
ghost use Rattle.smv_core.specs.Signs.{comma};
ghost use Rattle.law_grammar.specs.Parsing.{take, bind};
ghost use Rattle.law_grammar.specs.Readers.{a_token, a_name, read_separated};
ghost use Rattle.smv_parse_expressions.specs.Answers.{StopsAs};

use crate::ahead::next_is_sign;
use crate::single::{name, sign};
use crate::stop::Read;
use smv_core::signs::COMMA;
use smv_core::token::Token;
use smv_core::tree::Word;
use std::alloc::Global;

fn comma_name(alloc: Global, tokens: &[Token]) -> Read<'_, Word>
    ensures found { IfOk result (λ found. bind (take (a_token comma)) (λ at. take a_name) tokens.now ≡ Ok (found.0, found.1.now)) }
    ensures stop { IfErr result (λ stop. StopsAs stop (bind (take (a_token comma)) (λ at. take a_name) tokens.now)) }
{
    let (_, rest) = sign(COMMA, tokens)?;
    name(alloc, rest)
}

/// X { ',' X } for names.
#[tactic(auto, using(crate::proofs::Loops::names_end, crate::proofs::Loops::names_halt, crate::proofs::Loops::names_go_on, crate::proofs::Loops::names_shrink))]
pub fn names(alloc: Global, tokens: &[Token]) -> Read<'_, Vec<Word>>
    ensures found { IfOk result (λ found. read_separated (take a_name) tokens.now ≡ Ok (found.0.items, found.1.now)) }
    ensures stop { IfErr result (λ stop. StopsAs stop (read_separated (take a_name) tokens.now)) }
{
    let (first, after) = name(alloc, tokens)?;
    let mut items = Vec::new(alloc);
    items.push(first)?;
    let mut rest = after;
    while next_is_sign(COMMA, rest) {
        let (next, after) = comma_name(alloc, rest)?;
        items.push(next)?;
        rest = after;
    }
    Ok((items, rest))
}
