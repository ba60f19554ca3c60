// Statements.
ghost use Rattle.std.specs.Prelude.{◌≡◌, ◌<◌, ◌++◌, [], ◌∷◌, OnOk, flat_map, map};
ghost use Rattle.smv_core.specs.declared.token.TokenKind.TheVariants.{Reserved};
ghost use Rattle.smv_core.specs.Signs.{becomes, close_brace, close_paren, colon, comma, open_brace, open_paren, semicolon, word_default, word_switch};
ghost use Rattle.smv_print.specs.Written.{separated, written};
ghost use Rattle.smv_print.specs.Expressions.{expr_kinds, path_kinds};
ghost use Rattle.smv_print.specs.Statements as spec;

use crate::expressions::{CONDITIONAL, expression, path, range_of};
use crate::write::{name, number, reserved, sign};
use smv_core::signs::{
    AT_MOST, BECOMES, CLOSE_BRACE, CLOSE_PAREN, COLON, COMMA, EQUAL, LESS, OPEN_BRACE, OPEN_PAREN,
    PLUS, SEMICOLON, WORD_DEFAULT, WORD_ELSE, WORD_FOR, WORD_FORALL, WORD_IF, WORD_IN, WORD_INIT,
    WORD_NEXT, WORD_SWITCH,
};
use smv_core::tree::{Arm, Expr, Kind, Path, Stmt, TypeExpr, Word};
use std::alloc::AllocError;

// X { ',' X }
#[tactic(auto, using(crate::proofs::Writing::writing))]
pub fn expressions(out: &mut Vec<u8>, all: &[Expr]) -> Result<(), AllocError>
    ensures { OnOk result (out.new.items ≡ out.old.items ++ written (separated comma (map expr_kinds all.now))) }
{
    let Some((first, more)) = all.split_first() else {
        return Ok(());
    };
    expression(out, first, CONDITIONAL)?;
    for x in more {
        sign(out, COMMA)?;
        expression(out, x, CONDITIONAL)?;
    }
    Ok(())
}

// 'forall' '(' name 'in' Index ')'
#[tactic(auto, using(crate::proofs::Writing::writing))]
pub fn binder(out: &mut Vec<u8>, var: &Word, over: &TypeExpr) -> Result<(), AllocError>
    ensures { OnOk result (out.new.items ≡ out.old.items ++ written (spec.binder var.now over.now)) }
{
    reserved(out, WORD_FORALL)?;
    sign(out, OPEN_PAREN)?;
    range_of(out, var, over)?;
    sign(out, CLOSE_PAREN)
}

// Path ':=' Expr ';', with `init` or `next` or none
#[tactic(auto, using(crate::proofs::Writing::writing))]
fn assignment(out: &mut Vec<u8>, kind: Kind, left: &Path, value: &Expr) -> Result<(), AllocError>
    ensures { OnOk result (out.new.items ≡ out.old.items ++ written (spec.target kind (path_kinds left.now) ++ becomes ∷ expr_kinds value.now ++ semicolon ∷ [])) }
{
    target(out, kind, left)?;
    sign(out, BECOMES)?;
    expression(out, value, CONDITIONAL)?;
    sign(out, SEMICOLON)
}

#[tactic(auto, using(crate::proofs::Writing::writing))]
fn target(out: &mut Vec<u8>, kind: Kind, left: &Path) -> Result<(), AllocError>
    ensures { OnOk result (out.new.items ≡ out.old.items ++ written (spec.target kind (path_kinds left.now))) }
{
    match kind {
        Kind::Comb => path(out, left),
        Kind::Init => timed(out, WORD_INIT, left),
        Kind::Next => timed(out, WORD_NEXT, left),
    }
}

#[tactic(auto, using(crate::proofs::Writing::writing))]
fn timed(out: &mut Vec<u8>, word: u8, left: &Path) -> Result<(), AllocError>
    requires { word < 33 }
    ensures { OnOk result (out.new.items ≡ out.old.items ++ written (Reserved word ∷ open_paren ∷ path_kinds left.now ++ close_paren ∷ [])) }
{
    reserved(out, word)?;
    sign(out, OPEN_PAREN)?;
    path(out, left)?;
    sign(out, CLOSE_PAREN)
}

// 'if' or 'switch', and '(' Expr ')'
#[tactic(auto, using(crate::proofs::Writing::writing))]
fn tested(out: &mut Vec<u8>, word: u8, x: &Expr) -> Result<(), AllocError>
    requires { word < 33 }
    ensures { OnOk result (out.new.items ≡ out.old.items ++ written (Reserved word ∷ open_paren ∷ expr_kinds x.now ++ close_paren ∷ [])) }
{
    reserved(out, word)?;
    sign(out, OPEN_PAREN)?;
    expression(out, x, CONDITIONAL)?;
    sign(out, CLOSE_PAREN)
}

// '(' name '=' number ';' name ( '<' | '<=' ) number ';' name '=' name '+' number ')'
#[tactic(auto, using(crate::proofs::Writing::writing))]
fn turns(
    out: &mut Vec<u8>,
    var: &Word,
    from: u16,
    to: u16,
    closed: bool,
    step: u16,
) -> Result<(), AllocError>
    ensures { OnOk result (out.new.items ≡ out.old.items ++ written (spec.turns var.now.name from to closed step)) }
{
    sign(out, OPEN_PAREN)?;
    equation(out, var, from)?;
    sign(out, SEMICOLON)?;
    bound(out, var, closed, to)?;
    sign(out, SEMICOLON)?;
    increment(out, var, step)?;
    sign(out, CLOSE_PAREN)
}

#[tactic(auto, using(crate::proofs::Writing::writing))]
fn equation(out: &mut Vec<u8>, var: &Word, from: u16) -> Result<(), AllocError>
    ensures { OnOk result (out.new.items ≡ out.old.items ++ written (spec.equation var.now.name from)) }
{
    name(out, var)?;
    sign(out, EQUAL)?;
    number(out, from)
}

#[tactic(auto, using(crate::proofs::Writing::writing))]
fn bound(out: &mut Vec<u8>, var: &Word, closed: bool, to: u16) -> Result<(), AllocError>
    ensures { OnOk result (out.new.items ≡ out.old.items ++ written (spec.bound var.now.name closed to)) }
{
    name(out, var)?;
    if closed {
        sign(out, AT_MOST)?;
        number(out, to)
    } else {
        sign(out, LESS)?;
        number(out, to)
    }
}

#[tactic(auto, using(crate::proofs::Writing::writing))]
fn increment(out: &mut Vec<u8>, var: &Word, step: u16) -> Result<(), AllocError>
    ensures { OnOk result (out.new.items ≡ out.old.items ++ written (spec.increment var.now.name step)) }
{
    name(out, var)?;
    sign(out, EQUAL)?;
    name(out, var)?;
    sign(out, PLUS)?;
    number(out, step)
}

/// A statement.
#[cycle(statements)]
#[tactic(auto, using(crate::proofs::Writing::writing, crate::proofs::StatementLaws::equations))]
pub fn statement(out: &mut Vec<u8>, x: &Stmt) -> Result<(), AllocError>
    ensures { OnOk result (out.new.items ≡ out.old.items ++ written (spec.stmt_kinds x.now)) }
{
    match x {
        Stmt::Assign {
            kind,
            left,
            value,
            ..
        } => assignment(out, *kind, left, value),
        Stmt::Block { parts } => block(out, parts.as_slice()),
        Stmt::If { cond, yes, no, .. } => {
            tested(out, WORD_IF, cond)?;
            statement(out, yes.get())?;
            match no {
                None => Ok(()),
                Some(other) => led(out, WORD_ELSE, other.get()),
            }
        }
        Stmt::Switch {
            on,
            arms,
            other,
            ..
        } => {
            switched(out, arms.as_slice(), on)?;
            match other {
                None => sign(out, CLOSE_BRACE),
                Some(last) => other_arm(out, last.get()),
            }
        }
        Stmt::Default { first, second, .. } => {
            led(out, WORD_DEFAULT, first.get())?;
            led(out, WORD_IN, second.get())
        }
        Stmt::For {
            var,
            from,
            to,
            closed,
            step,
            body,
            ..
        } => {
            reserved(out, WORD_FOR)?;
            turns(out, var, *from, *to, *closed, *step)?;
            statement(out, body.get())
        }
        Stmt::Forall {
            var,
            over,
            body,
            ..
        } => {
            binder(out, var, over)?;
            statement(out, body.get())
        }
    }
}

// a word, and a statement behind it
#[cycle(statements)]
#[tactic(auto, using(crate::proofs::Writing::writing))]
fn led(out: &mut Vec<u8>, word: u8, x: &Stmt) -> Result<(), AllocError>
    requires { word < 33 }
    ensures { OnOk result (out.new.items ≡ out.old.items ++ written (Reserved word ∷ spec.stmt_kinds x.now)) }
{
    reserved(out, word)?;
    statement(out, x)
}

// '{' { Stmt } '}'
#[cycle(statements)]
#[tactic(auto, using(crate::proofs::Writing::writing))]
fn block(out: &mut Vec<u8>, parts: &[Stmt]) -> Result<(), AllocError>
    ensures { OnOk result (out.new.items ≡ out.old.items ++ written (open_brace ∷ flat_map spec.stmt_kinds parts.now ++ close_brace ∷ [])) }
{
    sign(out, OPEN_BRACE)?;
    statements(out, parts)?;
    sign(out, CLOSE_BRACE)
}

/// Statements one after another.
#[cycle(statements)]
#[tactic(auto, using(crate::proofs::Writing::writing))]
pub fn statements(out: &mut Vec<u8>, parts: &[Stmt]) -> Result<(), AllocError>
    ensures { OnOk result (out.new.items ≡ out.old.items ++ written (flat_map spec.stmt_kinds parts.now)) }
{
    for x in parts {
        statement(out, x)?;
    }
    Ok(())
}

// 'switch' '(' Expr ')' '{' { Arm }
#[cycle(statements)]
#[tactic(auto, using(crate::proofs::Writing::writing))]
fn switched(out: &mut Vec<u8>, arms: &[Arm], on: &Expr) -> Result<(), AllocError>
    ensures { OnOk result (out.new.items ≡ out.old.items ++ written (word_switch ∷ open_paren ∷ expr_kinds on.now ++ close_paren ∷ open_brace ∷ flat_map spec.arm_kinds arms.now)) }
{
    tested(out, WORD_SWITCH, on)?;
    sign(out, OPEN_BRACE)?;
    all_arms(out, arms)
}

#[cycle(statements)]
#[tactic(auto, using(crate::proofs::Writing::writing))]
fn all_arms(out: &mut Vec<u8>, arms: &[Arm]) -> Result<(), AllocError>
    ensures { OnOk result (out.new.items ≡ out.old.items ++ written (flat_map spec.arm_kinds arms.now)) }
{
    for x in arms {
        arm(out, x)?;
    }
    Ok(())
}

#[cycle(statements)]
#[tactic(auto, using(crate::proofs::Writing::writing, crate::proofs::StatementLaws::equations))]
fn arm(out: &mut Vec<u8>, x: &Arm) -> Result<(), AllocError>
    ensures { OnOk result (out.new.items ≡ out.old.items ++ written (spec.arm_kinds x.now)) }
{
    expressions(out, x.labels.as_slice())?;
    sign(out, COLON)?;
    statement(out, &x.body)
}

// 'default' ':' Stmt '}'
#[cycle(statements)]
#[tactic(auto, using(crate::proofs::Writing::writing))]
fn other_arm(out: &mut Vec<u8>, x: &Stmt) -> Result<(), AllocError>
    ensures { OnOk result (out.new.items ≡ out.old.items ++ written (word_default ∷ colon ∷ spec.stmt_kinds x.now ++ close_brace ∷ [])) }
{
    reserved(out, WORD_DEFAULT)?;
    sign(out, COLON)?;
    statement(out, x)?;
    sign(out, CLOSE_BRACE)
}
