// Copies of flat expressions and of what stands in them.
ghost use Rattle.std.specs.Prelude.{◌≡◌, IfOk};

use smv_core::boxed::Boxed;
use smv_core::flat::{FlatExpr, FlatMember, FlatSigned};
use smv_core::seq::Seq;
use std::alloc::{AllocError, Global};

/// A copy of an expression.
#[cycle(copies)]
pub fn copy_expression(expr: &FlatExpr, alloc: Global) -> Result<FlatExpr, AllocError>
    ensures { IfOk result (λ copy. copy ≡ expr.now) }
{
    Ok(match expr {
        FlatExpr::Number { value, at } => FlatExpr::Number {
            value: *value,
            at: *at,
        },
        FlatExpr::Read {
            family,
            indexes,
            at,
        } => {
            let indexes = copy_expressions(indexes.as_slice(), alloc)?;
            FlatExpr::Read {
                family: *family,
                indexes,
                at: *at,
            }
        }
        FlatExpr::Var { var, at } => FlatExpr::Var { var: *var, at: *at },
        FlatExpr::Loop { value, at } => FlatExpr::Loop {
            value: *value,
            at: *at,
        },
        FlatExpr::Constant { list, value, at } => FlatExpr::Constant {
            list: *list,
            value: *value,
            at: *at,
        },
        FlatExpr::Not { of, at } => FlatExpr::Not {
            of: copy_boxed(of, alloc)?,
            at: *at,
        },
        FlatExpr::And { parts } => FlatExpr::And {
            parts: copy_expressions(parts.as_slice(), alloc)?,
        },
        FlatExpr::Or { parts } => FlatExpr::Or {
            parts: copy_expressions(parts.as_slice(), alloc)?,
        },
        FlatExpr::Implies { parts } => FlatExpr::Implies {
            parts: copy_expressions(parts.as_slice(), alloc)?,
        },
        FlatExpr::Iff { left, right } => FlatExpr::Iff {
            left: copy_boxed(left, alloc)?,
            right: copy_boxed(right, alloc)?,
        },
        FlatExpr::Compare { op, left, right } => FlatExpr::Compare {
            op: *op,
            left: copy_boxed(left, alloc)?,
            right: copy_boxed(right, alloc)?,
        },
        FlatExpr::Within { left, set } => FlatExpr::Within {
            left: copy_boxed(left, alloc)?,
            set: copy_boxed(set, alloc)?,
        },
        FlatExpr::Sum { first, more } => FlatExpr::Sum {
            first: copy_boxed(first, alloc)?,
            more: copy_all_signed(more.as_slice(), alloc)?,
        },
        FlatExpr::Modulo { of, by, at } => FlatExpr::Modulo {
            of: copy_boxed(of, alloc)?,
            by: *by,
            at: *at,
        },
        FlatExpr::Choose { cond, yes, no } => FlatExpr::Choose {
            cond: copy_boxed(cond, alloc)?,
            yes: copy_boxed(yes, alloc)?,
            no: copy_boxed(no, alloc)?,
        },
        FlatExpr::All {
            body,
            var,
            over,
            at,
        } => FlatExpr::All {
            body: copy_boxed(body, alloc)?,
            var: *var,
            over: *over,
            at: *at,
        },
        FlatExpr::Any {
            body,
            var,
            over,
            at,
        } => FlatExpr::Any {
            body: copy_boxed(body, alloc)?,
            var: *var,
            over: *over,
            at: *at,
        },
        FlatExpr::List { members, at } => FlatExpr::List {
            members: copy_members(members.as_slice(), alloc)?,
            at: *at,
        },
        FlatExpr::Each {
            var,
            over,
            cond,
            at,
        } => {
            let cond = match cond {
                None => None,
                Some(cond) => Some(copy_boxed(cond, alloc)?),
            };
            FlatExpr::Each {
                var: *var,
                over: *over,
                cond,
                at: *at,
            }
        }
    })
}

// A copy in a place of its own.
#[cycle(copies)]
fn copy_boxed(expr: &Boxed<FlatExpr>, alloc: Global) -> Result<Boxed<FlatExpr>, AllocError>
    ensures { IfOk result (λ copy. copy ≡ expr.now) }
{
    let copy = copy_expression(expr.get(), alloc)?;
    Boxed::new(alloc, copy)
}

/// A copy of each expression, in their order.
#[cycle(copies)]
pub(crate) fn copy_expressions(
    exprs: &[FlatExpr],
    alloc: Global,
) -> Result<Seq<FlatExpr>, AllocError>
    ensures { IfOk result (λ copies. copies ≡ exprs.now) }
{
    let mut copies = Seq::new(alloc);
    for expr in exprs {
        copies.push(copy_expression(expr, alloc)?)?;
    }
    Ok(copies)
}

/// A copy of what a sum adds or takes away.
#[cycle(copies)]
pub(crate) fn copy_signed(signed: &FlatSigned, alloc: Global) -> Result<FlatSigned, AllocError>
    ensures { IfOk result (λ copy. copy ≡ signed.now) }
{
    let of = copy_expression(&signed.of, alloc)?;
    Ok(FlatSigned {
        minus: signed.minus,
        of,
    })
}

#[cycle(copies)]
fn copy_all_signed(all: &[FlatSigned], alloc: Global) -> Result<Seq<FlatSigned>, AllocError>
    ensures { IfOk result (λ copies. copies ≡ all.now) }
{
    let mut copies = Seq::new(alloc);
    for signed in all {
        copies.push(copy_signed(signed, alloc)?)?;
    }
    Ok(copies)
}

/// A copy of a member of a listed set.
#[cycle(copies)]
pub(crate) fn copy_member(member: &FlatMember, alloc: Global) -> Result<FlatMember, AllocError>
    ensures { IfOk result (λ copy. copy ≡ member.now) }
{
    match member {
        FlatMember::One { of } => {
            let of = copy_expression(of, alloc)?;
            Ok(FlatMember::One { of })
        }
        FlatMember::Span { span, at } => Ok(FlatMember::Span {
            span: *span,
            at: *at,
        }),
    }
}

#[cycle(copies)]
fn copy_members(members: &[FlatMember], alloc: Global) -> Result<Seq<FlatMember>, AllocError>
    ensures { IfOk result (λ copies. copies ≡ members.now) }
{
    let mut copies = Seq::new(alloc);
    for member in members {
        copies.push(copy_member(member, alloc)?)?;
    }
    Ok(copies)
}
