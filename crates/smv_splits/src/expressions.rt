// Expressions with other numbers for their variables.
ghost use Rattle.std.specs.Prelude.{◌≡◌, map, IfOk};
ghost use Rattle.law_splits.specs.Variables.{renamed};
ghost use Rattle.smv_splits.specs.Renaming.{renaming, renaming_signed, renaming_member, number_by};

use crate::numbers::{Numbers, number};
use smv_core::boxed::Boxed;
use smv_core::flat::{FlatExpr, FlatMember, FlatSigned};
use smv_core::seq::Seq;
use std::alloc::{AllocError, Global};

/// An expression with other numbers for its variables, those of its own binders too.
#[tactic(auto, unfolding(crate::specs::Renaming::renaming))]
pub(crate) fn renamed_expression(
    expr: &FlatExpr,
    numbers: Numbers,
    alloc: Global,
) -> Result<FlatExpr, AllocError>
    ensures { IfOk result (λ e. e ≡ renamed (number_by numbers.entry) expr.now) }
{
    rename(expr, numbers, alloc)
}

// Other numbers in an expression.
#[cycle(renames)]
#[tactic(auto, using(crate::proofs::RenamedLaws::equations))]
fn rename(expr: &FlatExpr, numbers: Numbers, alloc: Global) -> Result<FlatExpr, AllocError>
    ensures { IfOk result (λ e. e ≡ renaming (number_by numbers.entry) expr.now) }
{
    match expr {
        FlatExpr::Number { value, at } => Ok(FlatExpr::Number {
            value: *value,
            at: *at,
        }),
        FlatExpr::Read {
            family,
            indexes,
            at,
        } => {
            let indexes = rename_all(indexes.as_slice(), numbers, alloc)?;
            Ok(FlatExpr::Read {
                family: *family,
                indexes,
                at: *at,
            })
        }
        FlatExpr::Var { var, at } => {
            let var = number(numbers, *var)?;
            Ok(FlatExpr::Var { var, at: *at })
        }
        FlatExpr::Loop { value, at } => Ok(FlatExpr::Loop {
            value: *value,
            at: *at,
        }),
        FlatExpr::Constant { list, value, at } => Ok(FlatExpr::Constant {
            list: *list,
            value: *value,
            at: *at,
        }),
        FlatExpr::Not { of, at } => {
            let of = rename_boxed(of, numbers, alloc)?;
            Ok(FlatExpr::Not { of, at: *at })
        }
        FlatExpr::And { parts } => {
            let parts = rename_all(parts.as_slice(), numbers, alloc)?;
            Ok(FlatExpr::And { parts })
        }
        FlatExpr::Or { parts } => {
            let parts = rename_all(parts.as_slice(), numbers, alloc)?;
            Ok(FlatExpr::Or { parts })
        }
        FlatExpr::Implies { parts } => {
            let parts = rename_all(parts.as_slice(), numbers, alloc)?;
            Ok(FlatExpr::Implies { parts })
        }
        FlatExpr::Iff { left, right } => {
            let left = rename_boxed(left, numbers, alloc)?;
            let right = rename_boxed(right, numbers, alloc)?;
            Ok(FlatExpr::Iff { left, right })
        }
        FlatExpr::Compare { op, left, right } => {
            let left = rename_boxed(left, numbers, alloc)?;
            let right = rename_boxed(right, numbers, alloc)?;
            Ok(FlatExpr::Compare {
                op: *op,
                left,
                right,
            })
        }
        FlatExpr::Within { left, set } => {
            let left = rename_boxed(left, numbers, alloc)?;
            let set = rename_boxed(set, numbers, alloc)?;
            Ok(FlatExpr::Within { left, set })
        }
        FlatExpr::Sum { first, more } => {
            let first = rename_boxed(first, numbers, alloc)?;
            let more = rename_all_signed(more.as_slice(), numbers, alloc)?;
            Ok(FlatExpr::Sum { first, more })
        }
        FlatExpr::Modulo { of, by, at } => {
            let of = rename_boxed(of, numbers, alloc)?;
            Ok(FlatExpr::Modulo {
                of,
                by: *by,
                at: *at,
            })
        }
        FlatExpr::Choose { cond, yes, no } => {
            let cond = rename_boxed(cond, numbers, alloc)?;
            let yes = rename_boxed(yes, numbers, alloc)?;
            let no = rename_boxed(no, numbers, alloc)?;
            Ok(FlatExpr::Choose { cond, yes, no })
        }
        FlatExpr::All {
            body,
            var,
            over,
            at,
        } => {
            let var = number(numbers, *var)?;
            let body = rename_boxed(body, numbers, alloc)?;
            Ok(FlatExpr::All {
                body,
                var,
                over: *over,
                at: *at,
            })
        }
        FlatExpr::Any {
            body,
            var,
            over,
            at,
        } => {
            let var = number(numbers, *var)?;
            let body = rename_boxed(body, numbers, alloc)?;
            Ok(FlatExpr::Any {
                body,
                var,
                over: *over,
                at: *at,
            })
        }
        FlatExpr::List { members, at } => {
            let members = rename_members(members.as_slice(), numbers, alloc)?;
            Ok(FlatExpr::List { members, at: *at })
        }
        FlatExpr::Each {
            var,
            over,
            cond,
            at,
        } => {
            let var = number(numbers, *var)?;
            let cond = match cond {
                None => None,
                Some(cond) => Some(rename_boxed(cond, numbers, alloc)?),
            };
            Ok(FlatExpr::Each {
                var,
                over: *over,
                cond,
                at: *at,
            })
        }
    }
}

// A copy in a place of its own.
#[cycle(renames)]
#[tactic(auto, using(crate::proofs::RenamedLaws::equations, smv_mentions::proofs::Notes::noting))]
fn rename_boxed(
    expr: &Boxed<FlatExpr>,
    numbers: Numbers,
    alloc: Global,
) -> Result<Boxed<FlatExpr>, AllocError>
    ensures { IfOk result (λ e. e ≡ renaming (number_by numbers.entry) expr.now) }
{
    let made = rename(expr.get(), numbers, alloc)?;
    Boxed::new(alloc, made)
}

// Other numbers in each expression, in their order.
#[cycle(renames)]
#[tactic(auto, using(crate::proofs::RenamedLaws::equations, smv_mentions::proofs::Notes::noting))]
fn rename_all(
    exprs: &[FlatExpr],
    numbers: Numbers,
    alloc: Global,
) -> Result<Seq<FlatExpr>, AllocError>
    ensures { IfOk result (λ es. es ≡ map (renaming (number_by numbers.entry)) exprs.now) }
{
    let mut out = Seq::new(alloc);
    for expr in exprs {
        out.push(rename(expr, numbers, alloc)?)?;
    }
    Ok(out)
}

// Other numbers in what a sum adds or takes away.
#[cycle(renames)]
#[tactic(auto, using(crate::proofs::RenamedLaws::equations, smv_mentions::proofs::Notes::noting))]
fn rename_signed(
    signed: &FlatSigned,
    numbers: Numbers,
    alloc: Global,
) -> Result<FlatSigned, AllocError>
    ensures { IfOk result (λ x. x ≡ renaming_signed (number_by numbers.entry) signed.now) }
{
    let of = rename(&signed.of, numbers, alloc)?;
    Ok(FlatSigned {
        minus: signed.minus,
        of,
    })
}

#[cycle(renames)]
#[tactic(auto, using(crate::proofs::RenamedLaws::equations, smv_mentions::proofs::Notes::noting))]
fn rename_all_signed(
    all: &[FlatSigned],
    numbers: Numbers,
    alloc: Global,
) -> Result<Seq<FlatSigned>, AllocError>
    ensures { IfOk result (λ xs. xs ≡ map (renaming_signed (number_by numbers.entry)) all.now) }
{
    let mut out = Seq::new(alloc);
    for signed in all {
        out.push(rename_signed(signed, numbers, alloc)?)?;
    }
    Ok(out)
}

// Other numbers in a member of a listed set.
#[cycle(renames)]
#[tactic(auto, using(crate::proofs::RenamedLaws::equations, smv_mentions::proofs::Notes::noting))]
fn rename_member(
    member: &FlatMember,
    numbers: Numbers,
    alloc: Global,
) -> Result<FlatMember, AllocError>
    ensures { IfOk result (λ x. x ≡ renaming_member (number_by numbers.entry) member.now) }
{
    match member {
        FlatMember::One { of } => {
            let of = rename(of, numbers, alloc)?;
            Ok(FlatMember::One { of })
        }
        FlatMember::Span { span, at } => Ok(FlatMember::Span {
            span: *span,
            at: *at,
        }),
    }
}

#[cycle(renames)]
#[tactic(auto, using(crate::proofs::RenamedLaws::equations, smv_mentions::proofs::Notes::noting))]
fn rename_members(
    members: &[FlatMember],
    numbers: Numbers,
    alloc: Global,
) -> Result<Seq<FlatMember>, AllocError>
    ensures { IfOk result (λ xs. xs ≡ map (renaming_member (number_by numbers.entry)) members.now) }
{
    let mut out = Seq::new(alloc);
    for member in members {
        out.push(rename_member(member, numbers, alloc)?)?;
    }
    Ok(out)
}
