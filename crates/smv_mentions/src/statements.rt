// What statements say about names.
ghost use Rattle.std.specs.Prelude.{◌≡◌, [], ◌∷◌, ◌++◌, map, flat_map, OnOk};
ghost use Rattle.smv_mentions.specs.Mentions.{in_stmt, in_arm};
ghost use Rattle.smv_mentions.specs.Said.{said, words_at};

use crate::expressions::{expression, expressions, path};
use crate::mentions::{Mention, binder, binder_over, inside};
use smv_core::tree::{Arm, Stmt, Word};
use std::alloc::{AllocError, Global};

// A statement inside these variables, the innermost last.
#[cycle(statements)]
#[tactic(auto, using(crate::proofs::Notes::noting, crate::proofs::StatementLaws::equations))]
pub fn statement<'a>(
    alloc: Global,
    out: &mut Vec<Mention<'a>>,
    vars: &[&'a Word],
    x: &'a Stmt,
) -> Result<(), AllocError>
    ensures { OnOk result (map said out.new.items ≡ map said out.old.items ++ in_stmt (words_at vars.now) x.now) }
{
    match x {
        Stmt::Assign { left, value, .. } => {
            path(alloc, out, vars, left)?;
            expression(alloc, out, vars, value)
        }
        Stmt::Block { parts } => block(alloc, out, vars, parts.as_slice()),
        Stmt::If { cond, yes, no, .. } => {
            expression(alloc, out, vars, cond)?;
            statement(alloc, out, vars, yes.get())?;
            match no {
                None => Ok(()),
                Some(no) => statement(alloc, out, vars, no.get()),
            }
        }
        Stmt::Switch {
            on,
            arms,
            other,
            ..
        } => {
            expression(alloc, out, vars, on)?;
            all_arms(alloc, out, vars, arms.as_slice())?;
            match other {
                None => Ok(()),
                Some(other) => statement(alloc, out, vars, other.get()),
            }
        }
        Stmt::Default { first, second, .. } => {
            statement(alloc, out, vars, first.get())?;
            statement(alloc, out, vars, second.get())
        }
        Stmt::For { var, body, .. } => {
            binder(out, vars, var)?;
            body_inside(alloc, out, vars, body.get(), var)
        }
        Stmt::Forall {
            var,
            over,
            body,
            ..
        } => {
            binder_over(out, vars, var, over)?;
            body_inside(alloc, out, vars, body.get(), var)
        }
    }
}

// The body of a `for` or a `forall`, inside its variable as well.
#[cycle(statements)]
#[tactic(auto, using(crate::proofs::Notes::noting))]
fn body_inside<'a>(
    alloc: Global,
    out: &mut Vec<Mention<'a>>,
    vars: &[&'a Word],
    body: &'a Stmt,
    var: &'a Word,
) -> Result<(), AllocError>
    ensures { OnOk result (map said out.new.items ≡ map said out.old.items ++ in_stmt (words_at vars.now ++ var.now ∷ []) body.now) }
{
    let inner = inside(alloc, vars, var)?;
    statement(alloc, out, inner.as_slice(), body)
}

// All of these statements.
#[cycle(statements)]
#[tactic(auto, using(crate::proofs::Notes::noting))]
pub fn block<'a>(
    alloc: Global,
    out: &mut Vec<Mention<'a>>,
    vars: &[&'a Word],
    parts: &'a [Stmt],
) -> Result<(), AllocError>
    ensures { OnOk result (map said out.new.items ≡ map said out.old.items ++ flat_map (in_stmt (words_at vars.now)) parts.now) }
{
    for x in parts {
        statement(alloc, out, vars, x)?;
    }
    Ok(())
}

// The labels and statements of all of these arms.
#[cycle(statements)]
#[tactic(auto, using(crate::proofs::Notes::noting))]
fn all_arms<'a>(
    alloc: Global,
    out: &mut Vec<Mention<'a>>,
    vars: &[&'a Word],
    arms: &'a [Arm],
) -> Result<(), AllocError>
    ensures { OnOk result (map said out.new.items ≡ map said out.old.items ++ flat_map (in_arm (words_at vars.now)) arms.now) }
{
    for x in arms {
        expressions(alloc, out, vars, x.labels.as_slice())?;
        statement(alloc, out, vars, &x.body)?;
    }
    Ok(())
}
