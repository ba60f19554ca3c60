// Expressions, with the parentheses that they need.
ghost use Rattle.std.specs.Prelude.{◌≡◌, ◌<◌, ◌++◌, [], ◌∷◌, OnOk, Some, None, flat_map, map};
ghost use Rattle.smv_core.specs.declared.token.TokenKind.TheVariants.{Ident, Number, Sign};
ghost use Rattle.smv_core.specs.Signs.{comma, open_brace, close_brace, colon, word_in, word_mod};
ghost use Rattle.smv_print.specs.Written.{separated, written};
ghost use Rattle.smv_print.specs.Types.{type_kinds};
ghost use Rattle.smv_print.specs.Expressions as spec;

use crate::types::{span, type_of};
use crate::write::{name, number, reserved, sign};
use smv_core::signs::{
    AMPERSAND, ARROW, AT_LEAST, AT_MOST, BAR, CLOSE_BRACE, CLOSE_BRACKET, CLOSE_PAREN, COLON,
    COMMA, DIFFER, DOT, DOUBLE_ARROW, EQUAL, GREATER, LESS, MINUS, OPEN_BRACE, OPEN_BRACKET,
    OPEN_PAREN, PLUS, QUESTION, TILDE, WORD_IN, WORD_MOD,
};
use smv_core::tree::{Expr, Member, Op, Part, Path, Signed, TypeExpr, Word};
use std::alloc::AllocError;

// How tightly expressions bind.
pub const CONDITIONAL: u8 = 0;

const EQUIVALENCE: u8 = 1;

const IMPLICATION: u8 = 2;

const DISJUNCTION: u8 = 3;

const CONJUNCTION: u8 = 4;

const NEGATION: u8 = 5;

const COMPARISON: u8 = 6;

const REMAINDER: u8 = 7;

pub const SUM: u8 = 8;

const PRIMARY: u8 = 9;

// How tightly an expression binds.
#[tactic(auto, using(crate::proofs::ExpressionLaws::equations))]
fn binding(x: &Expr) -> u8
    ensures { result ≡ (spec.spelled x.now).binding }
{
    match x {
        Expr::Choose { .. } => CONDITIONAL,
        Expr::Iff { .. } => EQUIVALENCE,
        Expr::Implies { .. } => IMPLICATION,
        Expr::Or { .. } => DISJUNCTION,
        Expr::And { .. } => CONJUNCTION,
        Expr::Not { .. } => NEGATION,
        Expr::Compare { .. } => COMPARISON,
        Expr::Within { .. } => COMPARISON,
        Expr::Modulo { .. } => REMAINDER,
        Expr::Sum { .. } => SUM,
        Expr::Number { .. } => PRIMARY,
        Expr::Signal { .. } => PRIMARY,
        Expr::All { .. } => PRIMARY,
        Expr::Any { .. } => PRIMARY,
        Expr::List { .. } => PRIMARY,
        Expr::Each { .. } => PRIMARY,
    }
}

fn operator(op: Op) -> u8
    ensures small { result < 27 }
    ensures sign { Sign result ≡ spec.operator op }
{
    match op {
        Op::Equal => EQUAL,
        Op::Differ => DIFFER,
        Op::Less => LESS,
        Op::AtMost => AT_MOST,
        Op::Greater => GREATER,
        Op::AtLeast => AT_LEAST,
    }
}

// An expression, where one is wanted that binds at least so tightly.
#[cycle(expressions)]
#[tactic(auto, using(crate::proofs::Writing::writing))]
pub fn expression(out: &mut Vec<u8>, x: &Expr, wanted: u8) -> Result<(), AllocError>
    ensures { OnOk result (out.new.items ≡ out.old.items ++ written (spec.within wanted (spec.spelled x.now))) }
{
    if binding(x) < wanted {
        sign(out, OPEN_PAREN)?;
        bare(out, x)?;
        sign(out, CLOSE_PAREN)
    } else {
        bare(out, x)
    }
}

// An expression without parentheses around it.
#[cycle(expressions)]
#[tactic(auto, using(crate::proofs::Writing::writing, crate::proofs::ExpressionLaws::equations))]
fn bare(out: &mut Vec<u8>, x: &Expr) -> Result<(), AllocError>
    ensures { OnOk result (out.new.items ≡ out.old.items ++ written (spec.spelled x.now).bare) }
{
    match x {
        Expr::Number { value, .. } => number(out, *value),
        Expr::Signal { path: p } => path(out, p),
        Expr::Not { of, .. } => behind(out, TILDE, of.get(), NEGATION),
        Expr::And { parts } => chain(out, parts.as_slice(), AMPERSAND, NEGATION),
        Expr::Or { parts } => chain(out, parts.as_slice(), BAR, CONJUNCTION),
        Expr::Implies { parts } => chain(out, parts.as_slice(), ARROW, DISJUNCTION),
        Expr::Iff { left, right } => {
            expression(out, left.get(), IMPLICATION)?;
            behind(out, DOUBLE_ARROW, right.get(), IMPLICATION)
        }
        Expr::Compare { op, left, right } => {
            expression(out, left.get(), REMAINDER)?;
            behind(out, operator(*op), right.get(), REMAINDER)
        }
        Expr::Within { left, set } => {
            expression(out, left.get(), REMAINDER)?;
            in_set(out, set.get())
        }
        Expr::Sum { first, more } => {
            expression(out, first.get(), PRIMARY)?;
            all_signed(out, more.as_slice())
        }
        Expr::Modulo { of, by, .. } => {
            expression(out, of.get(), SUM)?;
            modulus(out, *by)
        }
        Expr::Choose { cond, yes, no } => {
            expression(out, cond.get(), EQUIVALENCE)?;
            behind(out, QUESTION, yes.get(), CONDITIONAL)?;
            behind(out, COLON, no.get(), CONDITIONAL)
        }
        Expr::All {
            body,
            var,
            over,
            ..
        } => reduction(out, AMPERSAND, body.get(), var, over),
        Expr::Any {
            body,
            var,
            over,
            ..
        } => reduction(out, BAR, body.get(), var, over),
        Expr::List { members, .. } => listed(out, members.as_slice()),
        Expr::Each {
            var,
            over,
            cond,
            ..
        } => match cond {
            None => whole(out, var, over),
            Some(c) => filtered(out, c.get(), var, over),
        },
    }
}

// sign X
#[cycle(expressions)]
#[tactic(auto, using(crate::proofs::Writing::writing))]
fn behind(out: &mut Vec<u8>, before: u8, x: &Expr, wanted: u8) -> Result<(), AllocError>
    requires { before < 27 }
    ensures { OnOk result (out.new.items ≡ out.old.items ++ written (Sign before ∷ spec.within wanted (spec.spelled x.now))) }
{
    sign(out, before)?;
    expression(out, x, wanted)
}

// 'in' Set
#[cycle(expressions)]
#[tactic(auto, using(crate::proofs::Writing::writing))]
fn in_set(out: &mut Vec<u8>, set: &Expr) -> Result<(), AllocError>
    ensures { OnOk result (out.new.items ≡ out.old.items ++ written (word_in ∷ spec.within spec.primary (spec.spelled set.now))) }
{
    reserved(out, WORD_IN)?;
    expression(out, set, PRIMARY)
}

// 'mod' number
#[tactic(auto, using(crate::proofs::Writing::writing))]
fn modulus(out: &mut Vec<u8>, by: u16) -> Result<(), AllocError>
    ensures { OnOk result (out.new.items ≡ out.old.items ++ written (word_mod ∷ Number by ∷ [])) }
{
    reserved(out, WORD_MOD)?;
    number(out, by)
}

// X { sign X }
#[cycle(expressions)]
#[tactic(auto, using(crate::proofs::Writing::writing))]
fn chain(out: &mut Vec<u8>, parts: &[Expr], between: u8, wanted: u8) -> Result<(), AllocError>
    requires { between < 27 }
    ensures { OnOk result (out.new.items ≡ out.old.items ++ written (separated (Sign between) (map (spec.within wanted) (map spec.spelled parts.now)))) }
{
    let Some((first, more)) = parts.split_first() else {
        return Ok(());
    };
    expression(out, first, wanted)?;
    for x in more {
        behind(out, between, x, wanted)?;
    }
    Ok(())
}

// ( '&' | '|' ) '[' Expr ':' name 'in' Index ']'
#[cycle(expressions)]
#[tactic(auto, using(crate::proofs::Writing::writing))]
fn reduction(
    out: &mut Vec<u8>,
    mark: u8,
    body: &Expr,
    var: &Word,
    over: &TypeExpr,
) -> Result<(), AllocError>
    requires { mark < 27 }
    ensures { OnOk result (out.new.items ≡ out.old.items ++ written (spec.reduction (Sign mark) (spec.spelled body.now) var.now over.now)) }
{
    sign(out, mark)?;
    sign(out, OPEN_BRACKET)?;
    expression(out, body, CONDITIONAL)?;
    sign(out, COLON)?;
    range_of(out, var, over)?;
    sign(out, CLOSE_BRACKET)
}

// name 'in' Index
#[tactic(auto, using(crate::proofs::Writing::writing))]
pub(crate) fn range_of(out: &mut Vec<u8>, var: &Word, over: &TypeExpr) -> Result<(), AllocError>
    ensures { OnOk result (out.new.items ≡ out.old.items ++ written (Ident var.now.name ∷ word_in ∷ type_kinds over.now)) }
{
    name(out, var)?;
    reserved(out, WORD_IN)?;
    type_of(out, over)
}

#[cycle(expressions)]
#[tactic(auto, using(crate::proofs::Writing::writing))]
fn listed(out: &mut Vec<u8>, members: &[Member]) -> Result<(), AllocError>
    ensures { OnOk result (out.new.items ≡ out.old.items ++ written (open_brace ∷ separated comma (map spec.member_kinds members.now) ++ close_brace ∷ [])) }
{
    sign(out, OPEN_BRACE)?;
    all_members(out, members)?;
    sign(out, CLOSE_BRACE)
}

#[cycle(expressions)]
#[tactic(auto, using(crate::proofs::Writing::writing))]
fn all_members(out: &mut Vec<u8>, members: &[Member]) -> Result<(), AllocError>
    ensures { OnOk result (out.new.items ≡ out.old.items ++ written (separated comma (map spec.member_kinds members.now))) }
{
    let Some((first, more)) = members.split_first() else {
        return Ok(());
    };
    member(out, first)?;
    for x in more {
        sign(out, COMMA)?;
        member(out, x)?;
    }
    Ok(())
}

#[cycle(expressions)]
#[tactic(auto, using(crate::proofs::Writing::writing, crate::proofs::ExpressionLaws::equations))]
fn member(out: &mut Vec<u8>, x: &Member) -> Result<(), AllocError>
    ensures { OnOk result (out.new.items ≡ out.old.items ++ written (spec.member_kinds x.now)) }
{
    match x {
        Member::One { of } => expression(out, of, CONDITIONAL),
        Member::Span { span: s, .. } => span(out, *s),
    }
}

// '{' name ':' name 'in' Index
#[tactic(auto, using(crate::proofs::Writing::writing))]
fn drawn(out: &mut Vec<u8>, var: &Word, over: &TypeExpr) -> Result<(), AllocError>
    ensures { OnOk result (out.new.items ≡ out.old.items ++ written (open_brace ∷ Ident var.now.name ∷ colon ∷ Ident var.now.name ∷ word_in ∷ type_kinds over.now)) }
{
    sign(out, OPEN_BRACE)?;
    name(out, var)?;
    sign(out, COLON)?;
    range_of(out, var, over)
}

#[tactic(auto, using(crate::proofs::Writing::writing))]
fn whole(out: &mut Vec<u8>, var: &Word, over: &TypeExpr) -> Result<(), AllocError>
    ensures { OnOk result (out.new.items ≡ out.old.items ++ written (spec.comprehension var.now over.now None)) }
{
    drawn(out, var, over)?;
    sign(out, CLOSE_BRACE)
}

#[cycle(expressions)]
#[tactic(auto, using(crate::proofs::Writing::writing))]
fn filtered(out: &mut Vec<u8>, cond: &Expr, var: &Word, over: &TypeExpr) -> Result<(), AllocError>
    ensures { OnOk result (out.new.items ≡ out.old.items ++ written (spec.comprehension var.now over.now (Some (spec.spelled cond.now)))) }
{
    drawn(out, var, over)?;
    behind(out, COMMA, cond, CONDITIONAL)?;
    sign(out, CLOSE_BRACE)
}

#[cycle(expressions)]
#[tactic(auto, using(crate::proofs::Writing::writing))]
fn all_signed(out: &mut Vec<u8>, more: &[Signed]) -> Result<(), AllocError>
    ensures { OnOk result (out.new.items ≡ out.old.items ++ written (flat_map spec.signed_kinds more.now)) }
{
    for x in more {
        signed(out, x)?;
    }
    Ok(())
}

#[cycle(expressions)]
#[tactic(auto, using(crate::proofs::Writing::writing, crate::proofs::ExpressionLaws::equations))]
fn signed(out: &mut Vec<u8>, x: &Signed) -> Result<(), AllocError>
    ensures { OnOk result (out.new.items ≡ out.old.items ++ written (spec.signed_kinds x.now)) }
{
    plus_or_minus(out, x.minus)?;
    expression(out, &x.of, PRIMARY)
}

#[tactic(auto, using(crate::proofs::Writing::writing))]
fn plus_or_minus(out: &mut Vec<u8>, minus: bool) -> Result<(), AllocError>
    ensures { OnOk result (out.new.items ≡ out.old.items ++ written (spec.plus_or_minus minus ∷ [])) }
{
    if minus {
        sign(out, MINUS)
    } else {
        sign(out, PLUS)
    }
}

#[cycle(expressions)]
#[tactic(auto, using(crate::proofs::Writing::writing, crate::proofs::ExpressionLaws::equations))]
pub fn path(out: &mut Vec<u8>, path: &Path) -> Result<(), AllocError>
    ensures { OnOk result (out.new.items ≡ out.old.items ++ written (spec.path_kinds path.now)) }
{
    all_parts(out, path.parts.as_slice())
}

#[cycle(expressions)]
#[tactic(auto, using(crate::proofs::Writing::writing))]
fn all_parts(out: &mut Vec<u8>, parts: &[Part]) -> Result<(), AllocError>
    ensures { OnOk result (out.new.items ≡ out.old.items ++ written (spec.parts_kinds (map spec.part_kinds parts.now))) }
{
    let Some((first, more)) = parts.split_first() else {
        return Ok(());
    };
    part(out, first, true)?;
    for x in more {
        part(out, x, false)?;
    }
    Ok(())
}

// A part of a path; no dot stands before the first.
#[cycle(expressions)]
#[tactic(auto, using(crate::proofs::Writing::writing, crate::proofs::ExpressionLaws::equations))]
fn part(out: &mut Vec<u8>, x: &Part, first: bool) -> Result<(), AllocError>
    ensures { OnOk result (out.new.items ≡ out.old.items ++ written (spec.part_kinds x.now first)) }
{
    match x {
        Part::Field { name: word } => {
            dot(out, first)?;
            name(out, word)
        }
        Part::At { index } => {
            sign(out, OPEN_BRACKET)?;
            expression(out, index, CONDITIONAL)?;
            sign(out, CLOSE_BRACKET)
        }
    }
}

#[tactic(auto, using(crate::proofs::Writing::writing))]
fn dot(out: &mut Vec<u8>, first: bool) -> Result<(), AllocError>
    ensures { OnOk result (out.new.items ≡ out.old.items ++ written (spec.dot_before first)) }
{
    if first { Ok(()) } else { sign(out, DOT) }
}
