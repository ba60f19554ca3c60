// Formulas.
ghost use Rattle.std.specs.Prelude.{◌≡◌, ◌<◌, ◌-◌, ◌∷◌, Ok, IfOk, IfErr};
ghost use Rattle.smv_parse_expressions.specs.Answers.{StopsAs};
ghost use Rattle.law_formula_grammar.specs.Readers.{read_formula, read_next, read_when, read_weak, formula_reader};
ghost use Rattle.smv_parse_formulas.specs.Trees.{meant};

use crate::tree::{End, Formula, Step};
use smv_core::seq::Seq;
use smv_core::signs::{CLOSE_PAREN, COMMA, OPEN_PAREN, WORD_IF, WORD_W, WORD_X};
use smv_core::token::Token;
use smv_parse_expressions::ahead::next_is_word;
use smv_parse_expressions::exprs::{condition, expr};
use smv_parse_expressions::single::{opening_sign, opening_word, sign, word};
use smv_parse_expressions::stop::Stop;
use std::alloc::Global;

/// A formula with one step more before it.
fn put_before(step: Step, formula: Formula) -> Result<Formula, Stop>
    ensures steps { IfOk result (λ made. made.steps ≡ step ∷ formula.steps) }
    ensures end { IfOk result (λ made. made.end ≡ formula.end) }
    ensures stop { IfErr result (λ stop. stop ≡ Stop.OutOfMemory) }
{
    let Formula { steps, end } = formula;
    let mut steps = steps.into_vec();
    steps.insert(0, step)?;
    let steps = Seq::from_vec(steps);
    Ok(Formula { steps, end })
}

/// 'X' '(' Formula ')'
#[cycle(formulas)]
#[tactic(auto, using(law_grammar::proofs::Steps::open_then, crate::proofs::Levels::next_formula, crate::proofs::Alone::later_meant), unfolding(law_formula_grammar::specs::Readers::read_next))]
fn later(alloc: Global, levels: u8, tokens: &[Token]) -> Result<(Formula, &[Token]), Stop>
    ensures found { IfOk result (λ found. read_next levels (formula_reader levels) tokens.now ≡ Ok (meant found.0, found.1.now)) }
    ensures stop { IfErr result (λ stop. StopsAs stop (read_next levels (formula_reader levels) tokens.now)) }
{
    let (at, rest) = word(WORD_X, tokens)?;
    let (_, rest) = opening_sign(OPEN_PAREN, levels, rest)?;
    let (inner, rest) = formula(alloc, levels - 1, rest)?;
    let (_, rest) = sign(CLOSE_PAREN, rest)?;
    Ok((put_before(Step::Later { at }, inner)?, rest))
}

/// 'if' '(' Expr ')' Formula
#[cycle(formulas)]
#[tactic(auto, using(law_grammar::proofs::Steps::open_then, law_grammar::proofs::Steps::next_condition, crate::proofs::Levels::next_formula, crate::proofs::Alone::under_meant), unfolding(law_formula_grammar::specs::Readers::read_when))]
fn under(alloc: Global, levels: u8, tokens: &[Token]) -> Result<(Formula, &[Token]), Stop>
    ensures found { IfOk result (λ found. read_when levels (formula_reader levels) tokens.now ≡ Ok (meant found.0, found.1.now)) }
    ensures stop { IfErr result (λ stop. StopsAs stop (read_when levels (formula_reader levels) tokens.now)) }
{
    let (_, rest) = opening_word(WORD_IF, levels, tokens)?;
    let (condition, rest) = condition(alloc, levels - 1, rest)?;
    let (inner, rest) = formula(alloc, levels - 1, rest)?;
    Ok((put_before(Step::Under { condition }, inner)?, rest))
}

/// 'W' '(' Expr ',' Expr ')'
#[tactic(auto, using(law_grammar::proofs::Steps::open_then, law_grammar::proofs::Steps::next_expr), unfolding(law_formula_grammar::specs::Readers::read_weak))]
fn unless(alloc: Global, levels: u8, tokens: &[Token]) -> Result<(Formula, &[Token]), Stop>
    ensures found { IfOk result (λ found. read_weak levels (formula_reader levels) tokens.now ≡ Ok (meant found.0, found.1.now)) }
    ensures stop { IfErr result (λ stop. StopsAs stop (read_weak levels (formula_reader levels) tokens.now)) }
{
    let (_, rest) = word(WORD_W, tokens)?;
    let (_, rest) = opening_sign(OPEN_PAREN, levels, rest)?;
    let (kept, rest) = expr(alloc, levels - 1, rest)?;
    let (_, rest) = sign(COMMA, rest)?;
    let (until, rest) = expr(alloc, levels - 1, rest)?;
    let (_, rest) = sign(CLOSE_PAREN, rest)?;
    let end = End::Unless { kept, until };
    Ok((
        Formula {
            steps: Seq::new(alloc),
            end,
        },
        rest,
    ))
}

/// A formula within so many levels.
#[cycle(formulas)]
#[tactic(auto, unfolding(law_formula_grammar::specs::Readers::read_formula))]
pub fn formula(alloc: Global, levels: u8, tokens: &[Token]) -> Result<(Formula, &[Token]), Stop>
    ensures found { IfOk result (λ found. read_formula levels (formula_reader levels) tokens.now ≡ Ok (meant found.0, found.1.now)) }
    ensures stop { IfErr result (λ stop. StopsAs stop (read_formula levels (formula_reader levels) tokens.now)) }
{
    if next_is_word(WORD_X, tokens) {
        return later(alloc, levels, tokens);
    }
    if next_is_word(WORD_IF, tokens) {
        return under(alloc, levels, tokens);
    }
    if next_is_word(WORD_W, tokens) {
        return unless(alloc, levels, tokens);
    }
    let (body, rest) = expr(alloc, levels, tokens)?;
    let end = End::Single { body };
    Ok((
        Formula {
            steps: Seq::new(alloc),
            end,
        },
        rest,
    ))
}
