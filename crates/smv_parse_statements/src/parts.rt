// What statements are made of beside statements.
ghost use Rattle.std.specs.Prelude.{◌≡◌, [], Ok, IfOk, IfErr};
ghost use Rattle.smv_core.specs.Signs.{comma};
ghost use Rattle.smv_core.specs.Grammar.{named};
ghost use Rattle.law_grammar.specs.Parsing.{take, bind};
ghost use Rattle.law_grammar.specs.Readers.{a_token, read_separated};
ghost use Rattle.law_grammar.specs.Statements.{read_label, read_binder, read_bound, read_turns, read_value, read_assignment, read_timed, stmt_readers};
ghost use Rattle.smv_parse_expressions.specs.Answers.{StopsAs};
ghost use Rattle.smv_parse_statements.specs.Pieces.{read_counted, read_stepped, read_timed_behind};

use crate::tokens::{bound_sign, moment, positive, same_name};
use smv_core::seq::Seq;
use smv_core::signs::{BECOMES, CLOSE_PAREN, COMMA, EQUAL, OPEN_PAREN, PLUS, SEMICOLON, WORD_IN};
use smv_core::token::Token;
use smv_core::tree::{Expr, Kind, Part, Path, Stmt, TypeExpr, Word};
use smv_parse_expressions::ahead::{next_is_number, next_is_sign};
use smv_parse_expressions::exprs::{expr, path};
use smv_parse_expressions::single::{name, number, opening_sign, sign, word};
use smv_parse_expressions::stop::Stop;
use smv_parse_expressions::types::index;
use std::alloc::Global;

fn signal(alloc: Global, name: Word) -> Result<Expr, Stop>
    ensures made { IfOk result (λ made. made ≡ Expr.Signal (named name [])) }
    ensures stop { IfErr result (λ stop. stop ≡ Stop.OutOfMemory) }
{
    let at = name.at;
    let mut parts = Vec::new(alloc);
    parts.push(Part::Field { name })?;
    let parts = Seq::from_vec(parts);
    Ok(Expr::Signal {
        path: Path { parts, at },
    })
}

/// number | name
#[tactic(auto, unfolding(law_grammar::specs::Statements::read_label))]
fn label(alloc: Global, tokens: &[Token]) -> Result<(Expr, &[Token]), Stop>
    ensures found { IfOk result (λ found. read_label tokens.now ≡ Ok (found.0, found.1.now)) }
    ensures stop { IfErr result (λ stop. StopsAs stop (read_label tokens.now)) }
{
    if next_is_number(tokens) {
        let ((value, at), rest) = number(tokens)?;
        return Ok((Expr::Number { value, at }, rest));
    }
    let (name, rest) = name(alloc, tokens)?;
    Ok((signal(alloc, name)?, rest))
}

fn comma_label(alloc: Global, tokens: &[Token]) -> Result<(Expr, &[Token]), Stop>
    ensures found { IfOk result (λ found. bind (take (a_token comma)) (λ at. read_label) tokens.now ≡ Ok (found.0, found.1.now)) }
    ensures stop { IfErr result (λ stop. StopsAs stop (bind (take (a_token comma)) (λ at. read_label) tokens.now)) }
{
    let (_, rest) = sign(COMMA, tokens)?;
    label(alloc, rest)
}

/// X { ',' X } for labels.
#[tactic(auto, using(crate::proofs::Loops::labels_end, crate::proofs::Loops::labels_halt, crate::proofs::Loops::labels_go_on, crate::proofs::Loops::labels_shrink))]
pub fn labels(alloc: Global, tokens: &[Token]) -> Result<(Vec<Expr>, &[Token]), Stop>
    ensures found { IfOk result (λ found. read_separated read_label tokens.now ≡ Ok (found.0.items, found.1.now)) }
    ensures stop { IfErr result (λ stop. StopsAs stop (read_separated read_label tokens.now)) }
{
    let (first, after) = label(alloc, tokens)?;
    let mut items = Vec::new(alloc);
    items.push(first)?;
    let mut rest = after;
    while next_is_sign(COMMA, rest) {
        let (next, after) = comma_label(alloc, rest)?;
        items.push(next)?;
        rest = after;
    }
    Ok((items, rest))
}

/// '(' name 'in' Index ')'
#[tactic(auto, using(law_grammar::proofs::Steps::open_then), unfolding(law_grammar::specs::Statements::read_binder))]
pub fn binder(
    alloc: Global,
    levels: u8,
    tokens: &[Token],
) -> Result<((Word, TypeExpr), &[Token]), Stop>
    ensures found { IfOk result (λ found. read_binder levels tokens.now ≡ Ok (found.0, found.1.now)) }
    ensures stop { IfErr result (λ stop. StopsAs stop (read_binder levels tokens.now)) }
{
    let (_, rest) = opening_sign(OPEN_PAREN, levels, tokens)?;
    let (var, rest) = name(alloc, rest)?;
    let (_, rest) = word(WORD_IN, rest)?;
    let (over, rest) = index(alloc, rest)?;
    let (_, rest) = sign(CLOSE_PAREN, rest)?;
    Ok(((var, over), rest))
}

/// The step of a `for`.
#[tactic(auto, unfolding(crate::specs::Pieces::read_stepped))]
fn stepped<'a>(
    var: &Word,
    from: u16,
    closed: bool,
    to: u16,
    tokens: &'a [Token],
) -> Result<(u16, &'a [Token]), Stop>
    ensures found { IfOk result (λ found. read_stepped var.now from closed to tokens.now ≡ Ok (record { var = var.now; from = from; to = to; closed = closed; step = found.0 }, found.1.now)) }
    ensures stop { IfErr result (λ stop. StopsAs stop (read_stepped var.now from closed to tokens.now)) }
{
    let (_, rest) = same_name(var, tokens)?;
    let (_, rest) = sign(EQUAL, rest)?;
    let (_, rest) = same_name(var, rest)?;
    let (_, rest) = sign(PLUS, rest)?;
    let (step, rest) = positive(rest)?;
    let (_, rest) = sign(CLOSE_PAREN, rest)?;
    Ok((step, rest))
}

/// The bound of a `for` and its step: the bound, whether it is reached, and the step.
#[tactic(auto, unfolding(law_grammar::specs::Statements::read_bound))]
fn bound<'a>(
    var: &Word,
    from: u16,
    tokens: &'a [Token],
) -> Result<((u16, bool, u16), &'a [Token]), Stop>
    ensures found { IfOk result (λ found. read_bound var.now from tokens.now ≡ Ok (record { var = var.now; from = from; to = found.0.0; closed = found.0.1; step = found.0.2 }, found.1.now)) }
    ensures stop { IfErr result (λ stop. StopsAs stop (read_bound var.now from tokens.now)) }
{
    let (_, rest) = same_name(var, tokens)?;
    let ((closed, _), rest) = bound_sign(rest)?;
    let ((to, _), rest) = number(rest)?;
    let (_, rest) = sign(SEMICOLON, rest)?;
    let (step, rest) = stepped(var, from, closed, to, rest)?;
    Ok(((to, closed, step), rest))
}

/// The header of a `for`.
#[derive(Drop)]
pub struct Turns {
    pub var: Word,
    pub from: u16,
    pub to: u16,
    pub closed: bool,
    pub step: u16,
}

/// Behind the variable of a `for`: the rest of its header, up to its ')'.
fn counted(var: Word, tokens: &[Token]) -> Result<(Turns, &[Token]), Stop>
    ensures found { IfOk result (λ found. read_counted var tokens.now ≡ Ok (record { var = found.0.var; from = found.0.from; to = found.0.to; closed = found.0.closed; step = found.0.step }, found.1.now)) }
    ensures stop { IfErr result (λ stop. StopsAs stop (read_counted var tokens.now)) }
{
    let (_, rest) = sign(EQUAL, tokens)?;
    let ((from, _), rest) = number(rest)?;
    let (_, rest) = sign(SEMICOLON, rest)?;
    let ((to, closed, step), rest) = bound(&var, from, rest)?;
    Ok((
        Turns {
            var,
            from,
            to,
            closed,
            step,
        },
        rest,
    ))
}

/// '(' and the header of a `for` up to its ')'.
#[tactic(auto, using(law_grammar::proofs::Steps::open_then), unfolding(law_grammar::specs::Statements::read_turns))]
pub(crate) fn header(alloc: Global, levels: u8, tokens: &[Token]) -> Result<(Turns, &[Token]), Stop>
    ensures found { IfOk result (λ found. read_turns levels tokens.now ≡ Ok (record { var = found.0.var; from = found.0.from; to = found.0.to; closed = found.0.closed; step = found.0.step }, found.1.now)) }
    ensures stop { IfErr result (λ stop. StopsAs stop (read_turns levels tokens.now)) }
{
    let (_, rest) = opening_sign(OPEN_PAREN, levels, tokens)?;
    let (var, rest) = name(alloc, rest)?;
    counted(var, rest)
}

/// ':=' Expr ';'
#[tactic(auto, unfolding(law_grammar::specs::Statements::read_value))]
pub fn value(alloc: Global, levels: u8, tokens: &[Token]) -> Result<(Expr, &[Token]), Stop>
    ensures found { IfOk result (λ found. read_value levels tokens.now ≡ Ok (found.0, found.1.now)) }
    ensures stop { IfErr result (λ stop. StopsAs stop (read_value levels tokens.now)) }
{
    let (_, rest) = sign(BECOMES, tokens)?;
    let (value, rest) = expr(alloc, levels, rest)?;
    let (_, rest) = sign(SEMICOLON, rest)?;
    Ok((value, rest))
}

/// Path ':=' Expr ';'
#[tactic(auto, unfolding(law_grammar::specs::Statements::read_assignment))]
pub fn assignment(alloc: Global, levels: u8, tokens: &[Token]) -> Result<(Stmt, &[Token]), Stop>
    ensures found { IfOk result (λ found. read_assignment levels tokens.now ≡ Ok (found.0, found.1.now)) }
    ensures stop { IfErr result (λ stop. StopsAs stop (read_assignment levels tokens.now)) }
{
    let (left, rest) = path(alloc, levels, tokens)?;
    let (value, rest) = value(alloc, levels, rest)?;
    let at = left.at;
    Ok((
        Stmt::Assign {
            kind: Kind::Comb,
            left,
            value,
            at,
        },
        rest,
    ))
}

/// '(' Path ')' ':=' Expr ';' behind the word that says its kind.
#[tactic(auto, using(law_grammar::proofs::Steps::open_then, law_grammar::proofs::Steps::next_path))]
fn behind_kind(
    alloc: Global,
    levels: u8,
    kind: Kind,
    at: u32,
    tokens: &[Token],
) -> Result<(Stmt, &[Token]), Stop>
    ensures found { IfOk result (λ found. read_timed_behind levels kind at tokens.now ≡ Ok (found.0, found.1.now)) }
    ensures stop { IfErr result (λ stop. StopsAs stop (read_timed_behind levels kind at tokens.now)) }
{
    let (_, rest) = opening_sign(OPEN_PAREN, levels, tokens)?;
    let (left, rest) = path(alloc, levels - 1, rest)?;
    let (_, rest) = sign(CLOSE_PAREN, rest)?;
    let (value, rest) = value(alloc, levels, rest)?;
    Ok((
        Stmt::Assign {
            kind,
            left,
            value,
            at,
        },
        rest,
    ))
}

/// ( 'init' | 'next' ) '(' Path ')' ':=' Expr ';'
#[tactic(auto, unfolding(law_grammar::specs::Statements::read_timed))]
pub fn timed(alloc: Global, levels: u8, tokens: &[Token]) -> Result<(Stmt, &[Token]), Stop>
    ensures found { IfOk result (λ found. read_timed levels (stmt_readers levels) tokens.now ≡ Ok (found.0, found.1.now)) }
    ensures stop { IfErr result (λ stop. StopsAs stop (read_timed levels (stmt_readers levels) tokens.now)) }
{
    let ((kind, at), rest) = moment(tokens)?;
    behind_kind(alloc, levels, kind, at, rest)
}
