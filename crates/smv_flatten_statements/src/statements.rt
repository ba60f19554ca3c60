// The flat form of statements.
ghost use Rattle.std.specs.Prelude.{◌≡◌, ◌∷◌, map, IfOk};
ghost use Rattle.smv_core.specs.Assignments.{any, loop};
ghost use Rattle.law_designs.specs.Statements.{flat_stmt};
ghost use Rattle.smv_flatten_families.specs.Held.{AreNumbers, scope_here};
ghost use Rattle.smv_flatten_statements.specs.Around.{around_of};
ghost use Rattle.smv_flatten_statements.specs.Flattened.{expression_of, statement_of, branch_of, arm_before, arms_of, is_one_of, turns_of};

use crate::expressions::{expression, indexes, labels};
use crate::places::first_begin;
use crate::turns::turns;
use crate::vars::{Bound, Var, bound_in, inside};
use smv_core::boxed::Boxed;
use smv_core::flat::{FlatExpr, FlatStmt};
use smv_core::seq::Seq;
use smv_core::tree::{Arm, Expr, Stmt, Word};
use smv_flatten_families::lookups::{family, over as type_over};
use smv_flatten_families::numbers::Here;
use std::alloc::{AllocError, Global};

/// A statement inside these variables, the innermost first. Also where a number does not fit its field, which no text within the limits has, no memory is said to be left.
#[tactic(auto, unfolding(crate::specs::Flattened::statement_of))]
pub fn flat_statement<'a>(
    act: &'a Stmt,
    here: Here<'a, '_>,
    vars: &[Var<'a>],
    alloc: Global,
) -> Result<FlatStmt, AllocError>
    requires { AreNumbers here.numbers.now }
    ensures { IfOk result (λ s. s ≡ flat_stmt (scope_here here.entry) (around_of vars.now) act.now) }
{
    statement(act, here, vars, alloc)
}

// The same, under a name by which laws can speak of each constructor.
#[cycle(statements)]
#[tactic(auto, using(crate::proofs::StatementLaws::equations, crate::proofs::PathLaws::standing))]
fn statement<'a>(
    act: &'a Stmt,
    here: Here<'a, '_>,
    vars: &[Var<'a>],
    alloc: Global,
) -> Result<FlatStmt, AllocError>
    requires { AreNumbers here.numbers.now }
    ensures { IfOk result (λ s. s ≡ statement_of (scope_here here.entry) (around_of vars.now) act.now) }
{
    match act {
        Stmt::Assign {
            kind,
            left,
            value,
            at,
        } => {
            let parts = left.parts.as_slice();
            let family = family(here, parts)?;
            let left = indexes(parts, here, vars, alloc)?;
            let value = expression(value, here, vars, alloc)?;
            Ok(FlatStmt::Assign {
                kind: *kind,
                family,
                left,
                value,
                at: *at,
            })
        }
        Stmt::Block { parts } => {
            let parts = block(parts.as_slice(), here, vars, alloc)?;
            Ok(FlatStmt::Block { parts })
        }
        Stmt::If { cond, yes, no, .. } => {
            let cond = expression(cond, here, vars, alloc)?;
            let yes = boxed(yes.get(), here, vars, alloc)?;
            let no = Boxed::new(alloc, branch(no, here, vars, alloc)?)?;
            Ok(FlatStmt::If { cond, yes, no })
        }
        Stmt::Switch {
            on,
            arms,
            other,
            ..
        } => {
            let other = branch(other, here, vars, alloc)?;
            all_arms(arms.as_slice(), on, here, vars, alloc, other)
        }
        Stmt::Default { first, second, .. } => {
            let first = boxed(first.get(), here, vars, alloc)?;
            let second = boxed(second.get(), here, vars, alloc)?;
            Ok(FlatStmt::Default { first, second })
        }
        Stmt::For {
            var,
            from,
            to,
            closed,
            step,
            body,
            ..
        } => {
            let numbers = turns(alloc, *from, *to, *closed, *step)?;
            let parts = written_out(numbers.as_slice(), var, body.get(), here, vars, alloc)?;
            Ok(FlatStmt::Block { parts })
        }
        Stmt::Forall {
            var,
            over,
            body,
            ..
        } => {
            let body = bound_body(body.get(), var, here, vars, alloc)?;
            let var = bound_in(vars)?;
            let over = type_over(here, over)?;
            Ok(FlatStmt::Forall { var, over, body })
        }
    }
}

// A statement on the heap.
#[cycle(statements)]
fn boxed<'a>(
    act: &'a Stmt,
    here: Here<'a, '_>,
    vars: &[Var<'a>],
    alloc: Global,
) -> Result<Boxed<FlatStmt>, AllocError>
    requires { AreNumbers here.numbers.now }
    ensures { IfOk result (λ s. s ≡ statement_of (scope_here here.entry) (around_of vars.now) act.now) }
{
    let flat = statement(act, here, vars, alloc)?;
    Boxed::new(alloc, flat)
}

// A statement inside the variable of a `forall` as well.
#[cycle(statements)]
fn bound_body<'a>(
    act: &'a Stmt,
    var: &'a Word,
    here: Here<'a, '_>,
    vars: &[Var<'a>],
    alloc: Global,
) -> Result<Boxed<FlatStmt>, AllocError>
    requires { AreNumbers here.numbers.now }
    ensures { IfOk result (λ s. s ≡ statement_of (scope_here here.entry) ((var.now.name, any) ∷ around_of vars.now) act.now) }
{
    let var = Var {
        name: &var.name,
        bound: Bound::Any,
    };
    let inner = inside(alloc, vars, var)?;
    boxed(act, here, inner.as_slice(), alloc)
}

// An `else` or a `default`; what is missing is an empty block.
#[cycle(statements)]
fn branch<'a>(
    other: &'a Option<Boxed<Stmt>>,
    here: Here<'a, '_>,
    vars: &[Var<'a>],
    alloc: Global,
) -> Result<FlatStmt, AllocError>
    requires { AreNumbers here.numbers.now }
    ensures { IfOk result (λ s. s ≡ branch_of (scope_here here.entry) (around_of vars.now) other.now) }
{
    match other {
        None => {
            let parts = Seq::new(alloc);
            Ok(FlatStmt::Block { parts })
        }
        Some(other) => statement(other.get(), here, vars, alloc),
    }
}

// Statements in their order.
#[cycle(statements)]
fn block<'a>(
    parts: &'a [Stmt],
    here: Here<'a, '_>,
    vars: &[Var<'a>],
    alloc: Global,
) -> Result<Seq<FlatStmt>, AllocError>
    requires { AreNumbers here.numbers.now }
    ensures { IfOk result (λ flat. flat ≡ map (statement_of (scope_here here.entry) (around_of vars.now)) parts.now) }
{
    let mut flat = Seq::new(alloc);
    for part in parts {
        flat.push(statement(part, here, vars, alloc)?)?;
    }
    Ok(flat)
}

// The body of a `for` at each of these numbers.
#[cycle(statements)]
fn written_out<'a>(
    numbers: &[u16],
    var: &'a Word,
    body: &'a Stmt,
    here: Here<'a, '_>,
    vars: &[Var<'a>],
    alloc: Global,
) -> Result<Seq<FlatStmt>, AllocError>
    requires { AreNumbers here.numbers.now }
    ensures { IfOk result (λ flat. flat ≡ turns_of (scope_here here.entry) (around_of vars.now) var.now body.now numbers.now) }
{
    let mut flat = Seq::new(alloc);
    for n in numbers {
        flat.push(at_turn(*n, var, body, here, vars, alloc)?)?;
    }
    Ok(flat)
}

// The body of a `for` at a number.
#[cycle(statements)]
fn at_turn<'a>(
    n: u16,
    var: &'a Word,
    body: &'a Stmt,
    here: Here<'a, '_>,
    vars: &[Var<'a>],
    alloc: Global,
) -> Result<FlatStmt, AllocError>
    requires { AreNumbers here.numbers.now }
    ensures { IfOk result (λ s. s ≡ statement_of (scope_here here.entry) ((var.now.name, loop n) ∷ around_of vars.now) body.now) }
{
    let var = Var {
        name: &var.name,
        bound: Bound::Loop { value: n },
    };
    let inner = inside(alloc, vars, var)?;
    statement(body, here, inner.as_slice(), alloc)
}

// The arms of a `switch` on a value, from the last on: each goes before what comes after it.
#[cycle(statements)]
fn all_arms<'a>(
    arms: &'a [Arm],
    on: &'a Expr,
    here: Here<'a, '_>,
    vars: &[Var<'a>],
    alloc: Global,
    other: FlatStmt,
) -> Result<FlatStmt, AllocError>
    requires { AreNumbers here.numbers.now }
    ensures { IfOk result (λ s. s ≡ arms_of (scope_here here.entry) (around_of vars.now) (expression_of (scope_here here.entry) (around_of vars.now) on.now) other arms.now) }
{
    let mut flat = other;
    let mut left = arms.len();
    while left > 0 {
        left -= 1;
        flat = arm(&arms[left], on, here, vars, alloc, flat)?;
    }
    Ok(flat)
}

// An arm of a `switch` on a value, before what comes after it.
#[cycle(statements)]
fn arm<'a>(
    x: &'a Arm,
    on: &'a Expr,
    here: Here<'a, '_>,
    vars: &[Var<'a>],
    alloc: Global,
    rest: FlatStmt,
) -> Result<FlatStmt, AllocError>
    requires { AreNumbers here.numbers.now }
    ensures { IfOk result (λ s. s ≡ arm_before (scope_here here.entry) (around_of vars.now) (expression_of (scope_here here.entry) (around_of vars.now) on.now) x.now rest) }
{
    let cond = is_label(x.labels.as_slice(), on, here, vars, alloc)?;
    let yes = boxed(&x.body, here, vars, alloc)?;
    let no = Boxed::new(alloc, rest)?;
    Ok(FlatStmt::If { cond, yes, no })
}

// Whether a value is one of these labels.
fn is_label<'a>(
    of: &'a [Expr],
    on: &'a Expr,
    here: Here<'a, '_>,
    vars: &[Var<'a>],
    alloc: Global,
) -> Result<FlatExpr, AllocError>
    requires { AreNumbers here.numbers.now }
    ensures { IfOk result (λ e. e ≡ is_one_of (scope_here here.entry) (around_of vars.now) (expression_of (scope_here here.entry) (around_of vars.now) on.now) of.now) }
{
    let left = Boxed::new(alloc, expression(on, here, vars, alloc)?)?;
    let members = labels(of, here, vars, alloc)?;
    let at = first_begin(of);
    let set = Boxed::new(alloc, FlatExpr::List { members, at })?;
    Ok(FlatExpr::Within { left, set })
}
