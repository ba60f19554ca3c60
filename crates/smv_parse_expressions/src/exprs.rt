// Expressions, with the knot: what stands inside an opened level is read by the same rules.
ghost use Rattle.std.specs.Prelude.{◌≡◌, Ok, IfOk, IfErr};
ghost use Rattle.law_grammar.specs.Expressions.{read_path, read_condition, read_sum, read_expr, expr_readers};
ghost use Rattle.smv_parse_expressions.specs.Answers.{StopsAs};
ghost use Rattle.smv_parse_expressions.specs.Nests.{read_inner};

use crate::grammar::Grammar;
use crate::stop::{Read, Stop};
use smv_core::token::Token;
use smv_core::tree::{Expr, Path};
use std::alloc::Global;

/// What stands where fewer levels are left than the number: the operand of a `~`, or else an expression.
#[tactic(auto, using(law_grammar::proofs::Steps::next_negation, law_grammar::proofs::Steps::next_expr))]
fn inside(
    alloc: Global,
    levels: u8,
    operand: bool,
    tokens: &[Token],
) -> Result<(Expr, &[Token]), Stop>
    ensures found { IfOk result (λ found. read_inner levels operand tokens.now ≡ Ok (found.0, found.1.now)) }
    ensures stop { IfErr result (λ stop. StopsAs stop (read_inner levels operand tokens.now)) }
{
    if levels == 0 {
        return Err(Stop::TooDeep(tokens.len()));
    }
    let grammar = Grammar {
        alloc,
        levels: levels - 1,
        inner: inside,
    };
    if operand {
        return grammar.negation(tokens);
    }
    grammar.expr(tokens)
}

/// An expression within so many levels.
pub fn expr(alloc: Global, levels: u8, tokens: &[Token]) -> Read<'_, Expr>
    ensures found { IfOk result (λ found. read_expr levels (expr_readers levels) tokens.now ≡ Ok (found.0, found.1.now)) }
    ensures stop { IfErr result (λ stop. StopsAs stop (read_expr levels (expr_readers levels) tokens.now)) }
{
    let inner = inside;
    Grammar {
        alloc,
        levels,
        inner,
    }
    .expr(tokens)
}

/// A sum within so many levels.
pub fn sum(alloc: Global, levels: u8, tokens: &[Token]) -> Read<'_, Expr>
    ensures found { IfOk result (λ found. read_sum levels (expr_readers levels) tokens.now ≡ Ok (found.0, found.1.now)) }
    ensures stop { IfErr result (λ stop. StopsAs stop (read_sum levels (expr_readers levels) tokens.now)) }
{
    let inner = inside;
    Grammar {
        alloc,
        levels,
        inner,
    }
    .sum(tokens)
}

/// A path within so many levels.
pub fn path(alloc: Global, levels: u8, tokens: &[Token]) -> Read<'_, Path>
    ensures found { IfOk result (λ found. read_path levels (expr_readers levels) tokens.now ≡ Ok (found.0, found.1.now)) }
    ensures stop { IfErr result (λ stop. StopsAs stop (read_path levels (expr_readers levels) tokens.now)) }
{
    let inner = inside;
    Grammar {
        alloc,
        levels,
        inner,
    }
    .path(tokens)
}

/// An expression in parentheses, which open one of so many levels.
pub fn condition(alloc: Global, levels: u8, tokens: &[Token]) -> Read<'_, Expr>
    ensures found { IfOk result (λ found. read_condition levels (expr_readers levels) tokens.now ≡ Ok (found.0, found.1.now)) }
    ensures stop { IfErr result (λ stop. StopsAs stop (read_condition levels (expr_readers levels) tokens.now)) }
{
    let inner = inside;
    Grammar {
        alloc,
        levels,
        inner,
    }
    .condition(tokens)
}
