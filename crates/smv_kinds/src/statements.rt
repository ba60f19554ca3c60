// The faults in statements.
ghost use Rattle.std.specs.Prelude.{◌≡◌, ◌++◌, ◌∷◌, map, flat_map, IfOk, OnOk};
ghost use Rattle.law_designs.specs.Kinds as kinds;
ghost use Rattle.law_designs.specs.Types as types;
ghost use Rattle.law_designs.specs.Operands as operands;
ghost use Rattle.law_designs.specs.KindFaults.{in_stmt};
ghost use Rattle.smv_expression_kinds.specs.Forms.{kind_of, AreKindTables};
ghost use Rattle.smv_expression_kinds.specs.Found.{vars_of, scope_of};
ghost use Rattle.smv_kinds.specs.Found.{labels_of, arm_faults};

use crate::values::assignment;
use smv_core::fault::Fault;
use smv_core::tree::{Arm, Expr, Stmt, TypeExpr, Word};
use smv_expression_kinds::kinds::ValueKind;
use smv_expression_kinds::lookups::{Scope, Var};
use smv_operand_kinds::operands::{fitting, number, operand};
use smv_operand_kinds::types::{bind, index_faults, inside};
use std::alloc::{AllocError, Global};

/// The faults in a statement.
#[cycle(statements)]
#[tactic(auto, using(smv_mentions::proofs::Notes::noting, crate::proofs::StatementLaws::equations))]
pub fn statement<'a>(
    x: &'a Stmt,
    scope: &Scope<'a, '_>,
    vars: &[Var<'a>],
    alloc: Global,
    out: &mut Vec<Fault>,
) -> Result<(), AllocError>
    requires { AreKindTables scope.now.tables.now }
    ensures { OnOk result (out.new.items ≡ out.old.items ++ in_stmt (scope_of scope.now) (vars_of scope.now.tables.now.names vars.now) x.now) }
{
    match x {
        Stmt::Assign { left, value, .. } => assignment(left, value, scope, vars, alloc, out),
        Stmt::Block { parts } => block(parts.as_slice(), scope, vars, alloc, out),
        Stmt::If { cond, yes, no, .. } => {
            number(cond, scope, vars, alloc, out)?;
            statement(yes.get(), scope, vars, alloc, out)?;
            match no {
                None => Ok(()),
                Some(no) => statement(no.get(), scope, vars, alloc, out),
            }
        }
        Stmt::Switch {
            on,
            arms,
            other,
            ..
        } => {
            labels(on, arms.as_slice(), scope, vars, alloc, out)?;
            all_arms(arms.as_slice(), scope, vars, alloc, out)?;
            match other {
                None => Ok(()),
                Some(other) => statement(other.get(), scope, vars, alloc, out),
            }
        }
        Stmt::Default { first, second, .. } => {
            statement(first.get(), scope, vars, alloc, out)?;
            statement(second.get(), scope, vars, alloc, out)
        }
        Stmt::For { var, body, .. } => each_number(body.get(), var, scope, vars, alloc, out),
        Stmt::Forall {
            var,
            over,
            body,
            ..
        } => each_value(body.get(), var, over, scope, vars, alloc, out),
    }
}

// The body of a `for`.
#[cycle(statements)]
#[tactic(auto, using(smv_mentions::proofs::Notes::noting))]
fn each_number<'a>(
    body: &'a Stmt,
    var: &'a Word,
    scope: &Scope<'a, '_>,
    vars: &[Var<'a>],
    alloc: Global,
    out: &mut Vec<Fault>,
) -> Result<(), AllocError>
    requires { AreKindTables scope.now.tables.now }
    ensures { OnOk result (out.new.items ≡ out.old.items ++ in_stmt (scope_of scope.now) ((var.now.name, kinds.number) ∷ (vars_of scope.now.tables.now.names vars.now)) body.now) }
{
    let inner = inside(alloc, vars, var, ValueKind::Number)?;
    statement(body, scope, inner.as_slice(), alloc, out)
}

// The type and the body of a `forall`.
#[cycle(statements)]
#[tactic(auto, using(smv_mentions::proofs::Notes::noting))]
fn each_value<'a>(
    body: &'a Stmt,
    var: &'a Word,
    over: &'a TypeExpr,
    scope: &Scope<'a, '_>,
    vars: &[Var<'a>],
    alloc: Global,
    out: &mut Vec<Fault>,
) -> Result<(), AllocError>
    requires { AreKindTables scope.now.tables.now }
    ensures { OnOk result (out.new.items ≡ out.old.items ++ types.index_faults (scope_of scope.now).here.types over.now ++ in_stmt (scope_of scope.now) (operands.bind (scope_of scope.now) (vars_of scope.now.tables.now.names vars.now) var.now over.now) body.now) }
{
    index_faults(over, scope, out)?;
    let inner = bind(over, var, scope, vars, alloc)?;
    statement(body, scope, inner.as_slice(), alloc, out)
}

/// All of these statements.
#[cycle(statements)]
#[tactic(auto, using(smv_mentions::proofs::Notes::noting))]
pub fn block<'a>(
    parts: &'a [Stmt],
    scope: &Scope<'a, '_>,
    vars: &[Var<'a>],
    alloc: Global,
    out: &mut Vec<Fault>,
) -> Result<(), AllocError>
    requires { AreKindTables scope.now.tables.now }
    ensures { OnOk result (out.new.items ≡ out.old.items ++ flat_map (in_stmt (scope_of scope.now) (vars_of scope.now.tables.now.names vars.now)) parts.now) }
{
    for x in parts {
        statement(x, scope, vars, alloc, out)?;
    }
    Ok(())
}

// The statements of all of these arms.
#[cycle(statements)]
#[tactic(auto, using(smv_mentions::proofs::Notes::noting), unfolding(crate::specs::Found::arm_faults))]
fn all_arms<'a>(
    arms: &'a [Arm],
    scope: &Scope<'a, '_>,
    vars: &[Var<'a>],
    alloc: Global,
    out: &mut Vec<Fault>,
) -> Result<(), AllocError>
    requires { AreKindTables scope.now.tables.now }
    ensures { OnOk result (out.new.items ≡ out.old.items ++ flat_map (arm_faults (scope_of scope.now) (vars_of scope.now.tables.now.names vars.now)) arms.now) }
{
    for x in arms {
        statement(&x.body, scope, vars, alloc, out)?;
    }
    Ok(())
}

// What a `switch` looks at, and the labels of its arms: all are of one kind.
#[tactic(auto, using(smv_mentions::proofs::Notes::noting, smv_operand_kinds::proofs::KindLaws::first_fits))]
fn labels<'a>(
    on: &'a Expr,
    arms: &'a [Arm],
    scope: &Scope<'a, '_>,
    vars: &[Var<'a>],
    alloc: Global,
    out: &mut Vec<Fault>,
) -> Result<(), AllocError>
    requires { AreKindTables scope.now.tables.now }
    ensures { OnOk result (out.new.items ≡ out.old.items ++ kinds.alike (operands.operand (scope_of scope.now) (vars_of scope.now.tables.now.names vars.now) on.now ∷ flat_map (labels_of (scope_of scope.now) (vars_of scope.now.tables.now.names vars.now)) arms.now)) }
{
    let on = operand(on, scope, vars, alloc, out)?;
    labels_beside(arms, scope, vars, alloc, out, on.kind)
}

// The labels of these arms, beside this kind.
#[tactic(auto, using(smv_mentions::proofs::Notes::noting, smv_operand_kinds::proofs::KindLaws::all_in_turn), unfolding(crate::specs::Found::labels_of))]
fn labels_beside<'a>(
    arms: &'a [Arm],
    scope: &Scope<'a, '_>,
    vars: &[Var<'a>],
    alloc: Global,
    out: &mut Vec<Fault>,
    kind: ValueKind<'a>,
) -> Result<(), AllocError>
    requires { AreKindTables scope.now.tables.now }
    ensures { OnOk result (out.new.items ≡ out.old.items ++ kinds.alike_with (kind_of scope.now.tables.now.names kind.entry) (flat_map (labels_of (scope_of scope.now) (vars_of scope.now.tables.now.names vars.now)) arms.now)) }
{
    let mut all = kind;
    for x in arms {
        all = all_fitting(x.labels.as_slice(), scope, vars, alloc, out, all)?;
    }
    Ok(())
}

// Expressions beside this kind, and the kind of all together.
#[tactic(auto, using(smv_mentions::proofs::Notes::noting), unfolding(law_designs::specs::Kinds::alike_with, law_designs::specs::Kinds::kind_with, law_designs::specs::Kinds::unless, smv_expression_kinds::specs::Forms::misfit))]
fn all_fitting<'a>(
    parts: &'a [Expr],
    scope: &Scope<'a, '_>,
    vars: &[Var<'a>],
    alloc: Global,
    out: &mut Vec<Fault>,
    kind: ValueKind<'a>,
) -> Result<ValueKind<'a>, AllocError>
    requires { AreKindTables scope.now.tables.now }
    ensures kind { IfOk result (λ all. kind_of scope.now.tables.now.names all ≡ kinds.kind_with (kind_of scope.now.tables.now.names kind.entry) (map (operands.operand (scope_of scope.now) (vars_of scope.now.tables.now.names vars.now)) parts.now)) }
    ensures faults { OnOk result (out.new.items ≡ out.old.items ++ kinds.alike_with (kind_of scope.now.tables.now.names kind.entry) (map (operands.operand (scope_of scope.now) (vars_of scope.now.tables.now.names vars.now)) parts.now)) }
{
    let mut all = kind;
    for x in parts {
        all = fitting(x, scope, vars, alloc, out, all)?;
    }
    Ok(all)
}
