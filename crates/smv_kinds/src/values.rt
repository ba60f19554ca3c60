// The values of assignments, and what they are assigned to.
ghost use Rattle.std.specs.Prelude.{◌≡◌, ◌++◌, map, IfOk, OnOk};
ghost use Rattle.law_designs.specs.Kinds as kinds;
ghost use Rattle.law_designs.specs.Types as types;
ghost use Rattle.law_designs.specs.Operands as spec;
ghost use Rattle.law_designs.specs.KindFaults.{assigned};
ghost use Rattle.smv_expression_kinds.specs.Forms.{kind_of, AreKindTables};
ghost use Rattle.smv_expression_kinds.specs.Found.{vars_of, scope_of};
ghost use Rattle.smv_operand_kinds.specs.Found.{member as member_in};

use smv_core::fault::Fault;
use smv_core::tree::{Expr, Member, Path, TypeExpr, Word};
use smv_expression_kinds::kinds::{Operand, ValueKind, takes};
use smv_expression_kinds::lookups::{Scope, Var, signal_reference};
use smv_operand_kinds::operands::{all_members, chosen, number, operand, operand_at, referred};
use smv_operand_kinds::types::{index_faults, index_kind, inside};
use std::alloc::{AllocError, Global};

/// The value of an assignment: a set may stand there, also as a branch of `?:`.
#[tactic(auto, using(smv_mentions::proofs::Notes::noting, crate::proofs::ValueLaws::same, crate::proofs::ValueLaws::kinds, crate::proofs::ValueLaws::ats, crate::proofs::ValueLaws::faults, smv_operand_kinds::proofs::KindLaws::sides_fit))]
pub fn value<'a>(
    x: &'a Expr,
    scope: &Scope<'a, '_>,
    vars: &[Var<'a>],
    alloc: Global,
    out: &mut Vec<Fault>,
) -> Result<Operand<'a>, AllocError>
    requires { AreKindTables scope.now.tables.now }
    ensures kind { IfOk result (λ found. kind_of scope.now.tables.now.names found.kind ≡ (spec.value (scope_of scope.now) (vars_of scope.now.tables.now.names vars.now) x.now).kind) }
    ensures at { IfOk result (λ found. found.at ≡ (spec.value (scope_of scope.now) (vars_of scope.now.tables.now.names vars.now) x.now).at) }
    ensures faults { OnOk result (out.new.items ≡ out.old.items ++ (spec.value (scope_of scope.now) (vars_of scope.now.tables.now.names vars.now) x.now).faults) }
{
    match x {
        Expr::List { members, at } => listed(members.as_slice(), scope, vars, alloc, out, *at),
        Expr::Each {
            var,
            over,
            cond,
            at,
        } => match cond {
            None => every_value(over, scope, out, *at),
            Some(cond) => chosen_values(cond.get(), var, over, scope, vars, alloc, out, *at),
        },
        Expr::Choose { cond, yes, no } => {
            let at = number(cond.get(), scope, vars, alloc, out)?;
            let yes = value(yes.get(), scope, vars, alloc, out)?;
            let no = value(no.get(), scope, vars, alloc, out)?;
            chosen(&scope.tables.names, at, yes, no, out)
        }
        Expr::Number { .. } => operand(x, scope, vars, alloc, out),
        Expr::Signal { .. } => operand(x, scope, vars, alloc, out),
        Expr::Not { .. } => operand(x, scope, vars, alloc, out),
        Expr::And { .. } => operand(x, scope, vars, alloc, out),
        Expr::Or { .. } => operand(x, scope, vars, alloc, out),
        Expr::Implies { .. } => operand(x, scope, vars, alloc, out),
        Expr::Iff { .. } => operand(x, scope, vars, alloc, out),
        Expr::Compare { .. } => operand(x, scope, vars, alloc, out),
        Expr::Within { .. } => operand(x, scope, vars, alloc, out),
        Expr::Sum { .. } => operand(x, scope, vars, alloc, out),
        Expr::Modulo { .. } => operand(x, scope, vars, alloc, out),
        Expr::All { .. } => operand(x, scope, vars, alloc, out),
        Expr::Any { .. } => operand(x, scope, vars, alloc, out),
    }
}

// A listed set.
#[tactic(auto, using(smv_mentions::proofs::Notes::noting))]
fn listed<'a>(
    members: &'a [Member],
    scope: &Scope<'a, '_>,
    vars: &[Var<'a>],
    alloc: Global,
    out: &mut Vec<Fault>,
    at: u32,
) -> Result<Operand<'a>, AllocError>
    requires { AreKindTables scope.now.tables.now }
    ensures kind { IfOk result (λ found. kind_of scope.now.tables.now.names found.kind ≡ (kinds.listed at (map (member_in (scope_of scope.now) (vars_of scope.now.tables.now.names vars.now)) members.now)).kind) }
    ensures at { IfOk result (λ found. found.at ≡ (kinds.listed at (map (member_in (scope_of scope.now) (vars_of scope.now.tables.now.names vars.now)) members.now)).at) }
    ensures faults { OnOk result (out.new.items ≡ out.old.items ++ (kinds.listed at (map (member_in (scope_of scope.now) (vars_of scope.now.tables.now.names vars.now)) members.now)).faults) }
{
    let kind = all_members(members, scope, vars, alloc, out, ValueKind::Unknown)?;
    Ok(operand_at(kind, at))
}

// All values of a type.
#[tactic(auto, using(smv_mentions::proofs::Notes::noting))]
fn every_value<'a>(
    over: &'a TypeExpr,
    scope: &Scope<'a, '_>,
    out: &mut Vec<Fault>,
    at: u32,
) -> Result<Operand<'a>, AllocError>
    requires { AreKindTables scope.now.tables.now }
    ensures kind { IfOk result (λ found. kind_of scope.now.tables.now.names found.kind ≡ types.index_kind (scope_of scope.now).here.types over.now) }
    ensures at { IfOk result (λ found. found.at ≡ at) }
    ensures faults { OnOk result (out.new.items ≡ out.old.items ++ types.index_faults (scope_of scope.now).here.types over.now) }
{
    index_faults(over, scope, out)?;
    let kind = index_kind(over, scope);
    Ok(operand_at(kind, at))
}

// The values of a type at which a condition holds.
#[tactic(auto, using(smv_mentions::proofs::Notes::noting, smv_operand_kinds::proofs::KindLaws::number_fits))]
fn chosen_values<'a>(
    cond: &'a Expr,
    var: &'a Word,
    over: &'a TypeExpr,
    scope: &Scope<'a, '_>,
    vars: &[Var<'a>],
    alloc: Global,
    out: &mut Vec<Fault>,
    at: u32,
) -> Result<Operand<'a>, AllocError>
    requires { AreKindTables scope.now.tables.now }
    ensures kind { IfOk result (λ found. kind_of scope.now.tables.now.names found.kind ≡ types.index_kind (scope_of scope.now).here.types over.now) }
    ensures at { IfOk result (λ found. found.at ≡ at) }
    ensures faults { OnOk result (out.new.items ≡ out.old.items ++ types.index_faults (scope_of scope.now).here.types over.now ++ kinds.takes_number (spec.operand (scope_of scope.now) (spec.bind (scope_of scope.now) (vars_of scope.now.tables.now.names vars.now) var.now over.now) cond.now)) }
{
    let e = every_value(over, scope, out, at)?;
    let inner = inside(alloc, vars, var, e.kind)?;
    number(cond, scope, inner.as_slice(), alloc, out)?;
    Ok(e)
}

/// What an assignment sets: a signal.
#[tactic(auto, using(smv_mentions::proofs::Notes::noting))]
pub fn target<'a>(
    path: &'a Path,
    scope: &Scope<'a, '_>,
    vars: &[Var<'a>],
    alloc: Global,
    out: &mut Vec<Fault>,
) -> Result<Operand<'a>, AllocError>
    requires { AreKindTables scope.now.tables.now }
    ensures kind { IfOk result (λ found. kind_of scope.now.tables.now.names found.kind ≡ (spec.target (scope_of scope.now) (vars_of scope.now.tables.now.names vars.now) path.now).kind) }
    ensures at { IfOk result (λ found. found.at ≡ (spec.target (scope_of scope.now) (vars_of scope.now.tables.now.names vars.now) path.now).at) }
    ensures faults { OnOk result (out.new.items ≡ out.old.items ++ (spec.target (scope_of scope.now) (vars_of scope.now.tables.now.names vars.now) path.now).faults) }
{
    let whole = signal_reference(path.parts.as_slice(), scope, alloc)?;
    referred(path, scope, vars, alloc, out, whole)
}

/// An assignment.
#[tactic(auto, using(smv_mentions::proofs::Notes::noting, smv_operand_kinds::proofs::KindLaws::value_fits))]
pub fn assignment<'a>(
    path: &'a Path,
    x: &'a Expr,
    scope: &Scope<'a, '_>,
    vars: &[Var<'a>],
    alloc: Global,
    out: &mut Vec<Fault>,
) -> Result<(), AllocError>
    requires { AreKindTables scope.now.tables.now }
    ensures { OnOk result (out.new.items ≡ out.old.items ++ assigned (spec.target (scope_of scope.now) (vars_of scope.now.tables.now.names vars.now) path.now) (spec.value (scope_of scope.now) (vars_of scope.now.tables.now.names vars.now) x.now)) }
{
    let left = target(path, scope, vars, alloc, out)?;
    let right = value(x, scope, vars, alloc, out)?;
    takes(&scope.tables.names, out, left.kind, right)
}
