// What expressions say about names.
ghost use Rattle.std.specs.Prelude.{◌≡◌, [], ◌∷◌, ◌++◌, map, flat_map, OnOk};
ghost use Rattle.smv_mentions.specs.Mentions.{in_type, in_expr, in_part, in_member, in_signed, in_path, path_in, binder_in};
ghost use Rattle.smv_mentions.specs.Mentions.{follows};
ghost use Rattle.smv_mentions.specs.Said.{said, words_at};

use crate::mentions::{Mention, binder_over, bound_at, inside, note};
use smv_core::tree::{Expr, Member, Part, Path, Signed, TypeExpr, Word};
use std::alloc::{AllocError, Global};

// An expression inside these variables, the innermost last.
#[cycle(expressions)]
#[tactic(auto, using(crate::proofs::Notes::noting, crate::proofs::ExpressionLaws::equations))]
pub fn expression<'a>(
    alloc: Global,
    out: &mut Vec<Mention<'a>>,
    vars: &[&'a Word],
    x: &'a Expr,
) -> Result<(), AllocError>
    ensures { OnOk result (map said out.new.items ≡ map said out.old.items ++ in_expr (words_at vars.now) x.now) }
{
    match x {
        Expr::Number { .. } => Ok(()),
        Expr::Signal { path: p } => path(alloc, out, vars, p),
        Expr::Not { of, .. } => expression(alloc, out, vars, of.get()),
        Expr::And { parts } => expressions(alloc, out, vars, parts.as_slice()),
        Expr::Or { parts } => expressions(alloc, out, vars, parts.as_slice()),
        Expr::Implies { parts } => expressions(alloc, out, vars, parts.as_slice()),
        Expr::Iff { left, right } => {
            expression(alloc, out, vars, left.get())?;
            expression(alloc, out, vars, right.get())
        }
        Expr::Compare { left, right, .. } => {
            expression(alloc, out, vars, left.get())?;
            expression(alloc, out, vars, right.get())
        }
        Expr::Within { left, set } => {
            expression(alloc, out, vars, left.get())?;
            expression(alloc, out, vars, set.get())
        }
        Expr::Sum { first, more } => {
            expression(alloc, out, vars, first.get())?;
            all_signed(alloc, out, vars, more.as_slice())
        }
        Expr::Modulo { of, .. } => expression(alloc, out, vars, of.get()),
        Expr::Choose { cond, yes, no } => {
            expression(alloc, out, vars, cond.get())?;
            expression(alloc, out, vars, yes.get())?;
            expression(alloc, out, vars, no.get())
        }
        Expr::All {
            body,
            var,
            over,
            ..
        } => reduction(alloc, out, vars, body.get(), var, over),
        Expr::Any {
            body,
            var,
            over,
            ..
        } => reduction(alloc, out, vars, body.get(), var, over),
        Expr::List { members, .. } => all_members(alloc, out, vars, members.as_slice()),
        Expr::Each {
            var,
            over,
            cond,
            ..
        } => match cond {
            None => binder_over(out, vars, var, over),
            Some(cond) => comprehension(alloc, out, vars, cond.get(), var, over),
        },
    }
}

#[cycle(expressions)]
#[tactic(auto, using(crate::proofs::Notes::noting))]
pub fn expressions<'a>(
    alloc: Global,
    out: &mut Vec<Mention<'a>>,
    vars: &[&'a Word],
    parts: &'a [Expr],
) -> Result<(), AllocError>
    ensures { OnOk result (map said out.new.items ≡ map said out.old.items ++ flat_map (in_expr (words_at vars.now)) parts.now) }
{
    for x in parts {
        expression(alloc, out, vars, x)?;
    }
    Ok(())
}

#[cycle(expressions)]
#[tactic(auto, using(crate::proofs::Notes::noting))]
fn reduction<'a>(
    alloc: Global,
    out: &mut Vec<Mention<'a>>,
    vars: &[&'a Word],
    body: &'a Expr,
    var: &'a Word,
    over: &'a TypeExpr,
) -> Result<(), AllocError>
    ensures { OnOk result (map said out.new.items ≡ map said out.old.items ++ (in_expr (words_at vars.now ++ var.now ∷ []) body.now ++ binder_in (words_at vars.now) var.now ∷ in_type over.now)) }
{
    let inner = inside(alloc, vars, var)?;
    expression(alloc, out, inner.as_slice(), body)?;
    binder_over(out, vars, var, over)
}

#[cycle(expressions)]
#[tactic(auto, using(crate::proofs::Notes::noting))]
fn comprehension<'a>(
    alloc: Global,
    out: &mut Vec<Mention<'a>>,
    vars: &[&'a Word],
    cond: &'a Expr,
    var: &'a Word,
    over: &'a TypeExpr,
) -> Result<(), AllocError>
    ensures { OnOk result (map said out.new.items ≡ map said out.old.items ++ (binder_in (words_at vars.now) var.now ∷ in_type over.now ++ in_expr (words_at vars.now ++ var.now ∷ []) cond.now)) }
{
    binder_over(out, vars, var, over)?;
    let inner = inside(alloc, vars, var)?;
    expression(alloc, out, inner.as_slice(), cond)
}

#[cycle(expressions)]
#[tactic(auto, using(crate::proofs::Notes::noting))]
fn all_signed<'a>(
    alloc: Global,
    out: &mut Vec<Mention<'a>>,
    vars: &[&'a Word],
    more: &'a [Signed],
) -> Result<(), AllocError>
    ensures { OnOk result (map said out.new.items ≡ map said out.old.items ++ flat_map (in_signed (words_at vars.now)) more.now) }
{
    for x in more {
        expression(alloc, out, vars, &x.of)?;
    }
    Ok(())
}

#[cycle(expressions)]
#[tactic(auto, using(crate::proofs::Notes::noting))]
fn all_members<'a>(
    alloc: Global,
    out: &mut Vec<Mention<'a>>,
    vars: &[&'a Word],
    members: &'a [Member],
) -> Result<(), AllocError>
    ensures { OnOk result (map said out.new.items ≡ map said out.old.items ++ flat_map (in_member (words_at vars.now)) members.now) }
{
    for x in members {
        member(alloc, out, vars, x)?;
    }
    Ok(())
}

#[cycle(expressions)]
#[tactic(auto, using(crate::proofs::Notes::noting))]
fn member<'a>(
    alloc: Global,
    out: &mut Vec<Mention<'a>>,
    vars: &[&'a Word],
    x: &'a Member,
) -> Result<(), AllocError>
    ensures { OnOk result (map said out.new.items ≡ map said out.old.items ++ in_member (words_at vars.now) x.now) }
{
    match x {
        Member::One { of } => expression(alloc, out, vars, of),
        Member::Span { .. } => Ok(()),
    }
}

// A path, and the indexes in it.
#[cycle(expressions)]
#[tactic(auto, using(crate::proofs::Notes::noting), unfolding(crate::specs::Mentions::in_path))]
pub fn path<'a>(
    alloc: Global,
    out: &mut Vec<Mention<'a>>,
    vars: &[&'a Word],
    x: &'a Path,
) -> Result<(), AllocError>
    ensures { OnOk result (map said out.new.items ≡ map said out.old.items ++ in_path (words_at vars.now) x.now) }
{
    let parts = x.parts.as_slice();
    let around = around_path(vars, parts);
    note(out, Mention::Follows { around, parts })?;
    all_parts(alloc, out, vars, parts)
}

// Where a variable of a path's first name is bound first, among these variables.
fn around_path(vars: &[&Word], parts: &[Part]) -> Option<u32>
    ensures { follows result parts.now ≡ path_in (words_at vars.now) parts.now }
{
    match parts {
        [Part::Field { name }, ..] => bound_at(vars, &name.name),
        _ => None,
    }
}

#[cycle(expressions)]
#[tactic(auto, using(crate::proofs::Notes::noting))]
fn all_parts<'a>(
    alloc: Global,
    out: &mut Vec<Mention<'a>>,
    vars: &[&'a Word],
    parts: &'a [Part],
) -> Result<(), AllocError>
    ensures { OnOk result (map said out.new.items ≡ map said out.old.items ++ flat_map (in_part (words_at vars.now)) parts.now) }
{
    for x in parts {
        part(alloc, out, vars, x)?;
    }
    Ok(())
}

#[cycle(expressions)]
#[tactic(auto, using(crate::proofs::Notes::noting))]
fn part<'a>(
    alloc: Global,
    out: &mut Vec<Mention<'a>>,
    vars: &[&'a Word],
    x: &'a Part,
) -> Result<(), AllocError>
    ensures { OnOk result (map said out.new.items ≡ map said out.old.items ++ in_part (words_at vars.now) x.now) }
{
    match x {
        Part::Field { .. } => Ok(()),
        Part::At { index } => expression(alloc, out, vars, index),
    }
}
