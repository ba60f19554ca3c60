// The flat form of expressions.
ghost use Rattle.std.specs.Prelude.{◌≡◌, ◌∷◌, map, IfOk};
ghost use Rattle.smv_core.specs.Assignments.{any};
ghost use Rattle.smv_core.specs.Outcome.{fields_of};
ghost use Rattle.smv_core.specs.declared.tree.Path.{out-Path};
ghost use Rattle.law_designs.specs.Numbers as numbers;
ghost use Rattle.law_designs.specs.Statements.{flat_expr};
ghost use Rattle.smv_flatten_families.specs.Held.{AreNumbers, scope_here};
ghost use Rattle.smv_flatten_statements.specs.Around.{around_of};
ghost use Rattle.smv_flatten_statements.specs.Flattened.{expression_of, expressions_of, path_indexes, signed_of, member_of, label_of};

use crate::vars::{Bound, Var, bound_in, inside, variable_at};
use smv_core::boxed::Boxed;
use smv_core::flat::{FlatExpr, FlatMember, FlatSigned};
use smv_core::seq::Seq;
use smv_core::tree::{Expr, Member, Part, Path, Signed, Word};
use smv_flatten_families::lookups::{constant, over as type_over, signal};
use smv_flatten_families::numbers::Here;
use std::alloc::{AllocError, Global};

/// An expression inside these variables, the innermost first. Also where a number does not fit its field, which no text within the limits has, no memory is said to be left.
#[tactic(auto, unfolding(crate::specs::Flattened::expression_of))]
pub fn flat_expression<'a>(
    e: &'a Expr,
    here: Here<'a, '_>,
    vars: &[Var<'a>],
    alloc: Global,
) -> Result<FlatExpr, AllocError>
    requires { AreNumbers here.numbers.now }
    ensures { IfOk result (λ f. f ≡ flat_expr (scope_here here.entry) (around_of vars.now) e.now) }
{
    expression(e, here, vars, alloc)
}

/// The same, under a name by which laws can speak of each constructor.
#[cycle(expressions)]
#[tactic(auto, using(crate::proofs::ExpressionLaws::equations))]
pub fn expression<'a>(
    e: &'a Expr,
    here: Here<'a, '_>,
    vars: &[Var<'a>],
    alloc: Global,
) -> Result<FlatExpr, AllocError>
    requires { AreNumbers here.numbers.now }
    ensures { IfOk result (λ f. f ≡ expression_of (scope_here here.entry) (around_of vars.now) e.now) }
{
    match e {
        Expr::Number { value, at } => Ok(FlatExpr::Number {
            value: *value,
            at: *at,
        }),
        Expr::Signal { path } => path_expression(path, here, vars, alloc),
        Expr::Not { of, at } => {
            let of = boxed(of.get(), here, vars, alloc)?;
            Ok(FlatExpr::Not { of, at: *at })
        }
        Expr::And { parts } => {
            let parts = expressions(parts.as_slice(), here, vars, alloc)?;
            Ok(FlatExpr::And { parts })
        }
        Expr::Or { parts } => {
            let parts = expressions(parts.as_slice(), here, vars, alloc)?;
            Ok(FlatExpr::Or { parts })
        }
        Expr::Implies { parts } => {
            let parts = expressions(parts.as_slice(), here, vars, alloc)?;
            Ok(FlatExpr::Implies { parts })
        }
        Expr::Iff { left, right } => {
            let left = boxed(left.get(), here, vars, alloc)?;
            let right = boxed(right.get(), here, vars, alloc)?;
            Ok(FlatExpr::Iff { left, right })
        }
        Expr::Compare { op, left, right } => {
            let left = boxed(left.get(), here, vars, alloc)?;
            let right = boxed(right.get(), here, vars, alloc)?;
            Ok(FlatExpr::Compare {
                op: *op,
                left,
                right,
            })
        }
        Expr::Within { left, set } => {
            let left = boxed(left.get(), here, vars, alloc)?;
            let set = boxed(set.get(), here, vars, alloc)?;
            Ok(FlatExpr::Within { left, set })
        }
        Expr::Sum { first, more } => {
            let first = boxed(first.get(), here, vars, alloc)?;
            let more = all_signed(more.as_slice(), here, vars, alloc)?;
            Ok(FlatExpr::Sum { first, more })
        }
        Expr::Modulo { of, by, at } => {
            let of = boxed(of.get(), here, vars, alloc)?;
            Ok(FlatExpr::Modulo {
                of,
                by: *by,
                at: *at,
            })
        }
        Expr::Choose { cond, yes, no } => {
            let cond = boxed(cond.get(), here, vars, alloc)?;
            let yes = boxed(yes.get(), here, vars, alloc)?;
            let no = boxed(no.get(), here, vars, alloc)?;
            Ok(FlatExpr::Choose { cond, yes, no })
        }
        Expr::All {
            body,
            var,
            over,
            at,
        } => {
            let body = bound_body(body.get(), var, here, vars, alloc)?;
            let var = bound_in(vars)?;
            let over = type_over(here, over)?;
            Ok(FlatExpr::All {
                body,
                var,
                over,
                at: *at,
            })
        }
        Expr::Any {
            body,
            var,
            over,
            at,
        } => {
            let body = bound_body(body.get(), var, here, vars, alloc)?;
            let var = bound_in(vars)?;
            let over = type_over(here, over)?;
            Ok(FlatExpr::Any {
                body,
                var,
                over,
                at: *at,
            })
        }
        Expr::List { members, at } => {
            let members = all_members(members.as_slice(), here, vars, alloc)?;
            Ok(FlatExpr::List { members, at: *at })
        }
        Expr::Each {
            var,
            over,
            cond,
            at,
        } => {
            let cond = match cond {
                None => None,
                Some(cond) => Some(bound_body(cond.get(), var, here, vars, alloc)?),
            };
            let var = bound_in(vars)?;
            let over = type_over(here, over)?;
            Ok(FlatExpr::Each {
                var,
                over,
                cond,
                at: *at,
            })
        }
    }
}

// An expression on the heap.
#[cycle(expressions)]
fn boxed<'a>(
    e: &'a Expr,
    here: Here<'a, '_>,
    vars: &[Var<'a>],
    alloc: Global,
) -> Result<Boxed<FlatExpr>, AllocError>
    requires { AreNumbers here.numbers.now }
    ensures { IfOk result (λ f. f ≡ expression_of (scope_here here.entry) (around_of vars.now) e.now) }
{
    let flat = expression(e, here, vars, alloc)?;
    Boxed::new(alloc, flat)
}

// An expression inside the variable of a reduction or a comprehension as well.
#[cycle(expressions)]
fn bound_body<'a>(
    e: &'a Expr,
    var: &'a Word,
    here: Here<'a, '_>,
    vars: &[Var<'a>],
    alloc: Global,
) -> Result<Boxed<FlatExpr>, AllocError>
    requires { AreNumbers here.numbers.now }
    ensures { IfOk result (λ f. f ≡ expression_of (scope_here here.entry) ((var.now.name, any) ∷ around_of vars.now) e.now) }
{
    let var = Var {
        name: &var.name,
        bound: Bound::Any,
    };
    let inner = inside(alloc, vars, var)?;
    boxed(e, here, inner.as_slice(), alloc)
}

// A path: a variable around it, or else an element of a family, or else a constant.
#[cycle(expressions)]
fn path_expression<'a>(
    path: &'a Path,
    here: Here<'a, '_>,
    vars: &[Var<'a>],
    alloc: Global,
) -> Result<FlatExpr, AllocError>
    requires { AreNumbers here.numbers.now }
    ensures { IfOk result (λ f. f ≡ numbers.flat_path (scope_here here.entry) (around_of vars.now) (fields_of (out-Path path.now).parts) (path_indexes (scope_here here.entry) (around_of vars.now) (out-Path path.now).parts) (out-Path path.now).at) }
{
    let parts = path.parts.as_slice();
    match variable_at(vars, parts, path.at)? {
        Some(variable) => Ok(variable),
        None => match signal(here, parts)? {
            None => constant(here, parts, path.at),
            Some(family) => {
                let indexes = indexes(parts, here, vars, alloc)?;
                Ok(FlatExpr::Read {
                    family,
                    indexes,
                    at: path.at,
                })
            }
        },
    }
}

/// The indexes of a path.
#[cycle(expressions)]
pub fn indexes<'a>(
    parts: &'a [Part],
    here: Here<'a, '_>,
    vars: &[Var<'a>],
    alloc: Global,
) -> Result<Seq<FlatExpr>, AllocError>
    requires { AreNumbers here.numbers.now }
    ensures { IfOk result (λ flat. flat ≡ path_indexes (scope_here here.entry) (around_of vars.now) parts.now) }
{
    let mut flat = Seq::new(alloc);
    for part in parts {
        if let Part::At { index } = part {
            flat.push(expression(index, here, vars, alloc)?)?;
        }
    }
    Ok(flat)
}

// Expressions in their order.
#[cycle(expressions)]
fn expressions<'a>(
    parts: &'a [Expr],
    here: Here<'a, '_>,
    vars: &[Var<'a>],
    alloc: Global,
) -> Result<Seq<FlatExpr>, AllocError>
    requires { AreNumbers here.numbers.now }
    ensures { IfOk result (λ flat. flat ≡ expressions_of (scope_here here.entry) (around_of vars.now) parts.now) }
{
    let mut flat = Seq::new(alloc);
    for e in parts {
        flat.push(expression(e, here, vars, alloc)?)?;
    }
    Ok(flat)
}

// What a sum adds and takes away.
#[cycle(expressions)]
fn all_signed<'a>(
    more: &'a [Signed],
    here: Here<'a, '_>,
    vars: &[Var<'a>],
    alloc: Global,
) -> Result<Seq<FlatSigned>, AllocError>
    requires { AreNumbers here.numbers.now }
    ensures { IfOk result (λ flat. flat ≡ map (signed_of (scope_here here.entry) (around_of vars.now)) more.now) }
{
    let mut flat = Seq::new(alloc);
    for x in more {
        let of = expression(&x.of, here, vars, alloc)?;
        flat.push(FlatSigned { minus: x.minus, of })?;
    }
    Ok(flat)
}

// The members of a listed set.
#[cycle(expressions)]
fn all_members<'a>(
    members: &'a [Member],
    here: Here<'a, '_>,
    vars: &[Var<'a>],
    alloc: Global,
) -> Result<Seq<FlatMember>, AllocError>
    requires { AreNumbers here.numbers.now }
    ensures { IfOk result (λ flat. flat ≡ map (member_of (scope_here here.entry) (around_of vars.now)) members.now) }
{
    let mut flat = Seq::new(alloc);
    for x in members {
        flat.push(member(x, here, vars, alloc)?)?;
    }
    Ok(flat)
}

// A member of a listed set.
#[cycle(expressions)]
fn member<'a>(
    x: &'a Member,
    here: Here<'a, '_>,
    vars: &[Var<'a>],
    alloc: Global,
) -> Result<FlatMember, AllocError>
    requires { AreNumbers here.numbers.now }
    ensures { IfOk result (λ flat. flat ≡ member_of (scope_here here.entry) (around_of vars.now) x.now) }
{
    match x {
        Member::One { of } => {
            let of = expression(of, here, vars, alloc)?;
            Ok(FlatMember::One { of })
        }
        Member::Span { span, at } => Ok(FlatMember::Span {
            span: *span,
            at: *at,
        }),
    }
}

/// The labels of an arm as members of a listed set.
pub fn labels<'a>(
    labels: &'a [Expr],
    here: Here<'a, '_>,
    vars: &[Var<'a>],
    alloc: Global,
) -> Result<Seq<FlatMember>, AllocError>
    requires { AreNumbers here.numbers.now }
    ensures { IfOk result (λ flat. flat ≡ map (label_of (scope_here here.entry) (around_of vars.now)) labels.now) }
{
    let mut flat = Seq::new(alloc);
    for label in labels {
        let of = expression(label, here, vars, alloc)?;
        flat.push(FlatMember::One { of })?;
    }
    Ok(flat)
}
