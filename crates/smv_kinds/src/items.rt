// The faults in the items of a module.
ghost use Rattle.std.specs.Prelude.{◌≡◌, ◌++◌, flat_map, OnOk};
ghost use Rattle.law_designs.specs.Kinds as kinds;
ghost use Rattle.law_designs.specs.Types as types;
ghost use Rattle.law_designs.specs.Operands as operands;
ghost use Rattle.law_designs.specs.KindFaults.{formal_faults as faults_of_formal, in_item};
ghost use Rattle.smv_expression_kinds.specs.Forms.{AreKindTables};
ghost use Rattle.smv_expression_kinds.specs.Found.{vars_of, scope_of};

use crate::arguments::arguments;
use crate::statements::{block, statement};
use smv_core::fault::Fault;
use smv_core::tree::{Expr, Item, Pair, Role, TypeExpr, Word};
use smv_expression_kinds::lookups::{Scope, Var};
use smv_operand_kinds::operands::{number, operand};
use smv_operand_kinds::types::{bind, formal_faults, index_faults, type_faults};
use std::alloc::{AllocError, Global};

// The faults in an item.
#[cycle(items)]
#[tactic(auto, using(smv_mentions::proofs::Notes::noting, crate::proofs::ItemLaws::equations))]
fn item<'a>(
    x: &'a Item,
    scope: &Scope<'a, '_>,
    vars: &[Var<'a>],
    alloc: Global,
    out: &mut Vec<Fault>,
) -> Result<(), AllocError>
    requires { AreKindTables scope.now.tables.now }
    ensures { OnOk result (out.new.items ≡ out.old.items ++ in_item (scope_of scope.now) (vars_of scope.now.tables.now.names vars.now) x.now) }
{
    match x {
        Item::Declare {
            role,
            names,
            of,
            ..
        } => {
            declared(of, names.as_slice(), *role, scope, out)?;
            type_faults(of, scope, out)
        }
        Item::Instance { module, args, .. } => arguments(
            args.as_slice(),
            module,
            scope,
            alloc,
            out,
        ),
        Item::Layer { body, .. } => block(body.as_slice(), scope, vars, alloc, out),
        Item::Forall {
            var,
            over,
            body,
            ..
        } => each_value(body.get(), var, over, scope, vars, alloc, out),
        Item::Block { items: parts } => items(parts.as_slice(), scope, vars, alloc, out),
        Item::Claim { body, .. } => claimed(body, scope, vars, alloc, out),
        Item::Split { pairs, .. } => all_pairs(pairs.as_slice(), scope, vars, alloc, out),
        Item::Using { .. } => Ok(()),
        Item::Act { act } => statement(act, scope, vars, alloc, out),
    }
}

// The type and the body of a `forall`.
#[cycle(items)]
#[tactic(auto, using(smv_mentions::proofs::Notes::noting))]
fn each_value<'a>(
    body: &'a Item,
    var: &'a Word,
    over: &'a TypeExpr,
    scope: &Scope<'a, '_>,
    vars: &[Var<'a>],
    alloc: Global,
    out: &mut Vec<Fault>,
) -> Result<(), AllocError>
    requires { AreKindTables scope.now.tables.now }
    ensures { OnOk result (out.new.items ≡ out.old.items ++ types.index_faults (scope_of scope.now).here.types over.now ++ in_item (scope_of scope.now) (operands.bind (scope_of scope.now) (vars_of scope.now.tables.now.names vars.now) var.now over.now) body.now) }
{
    index_faults(over, scope, out)?;
    let inner = bind(over, var, scope, vars, alloc)?;
    item(body, scope, inner.as_slice(), alloc, out)
}

/// All of these items.
#[cycle(items)]
#[tactic(auto, using(smv_mentions::proofs::Notes::noting))]
pub fn items<'a>(
    parts: &'a [Item],
    scope: &Scope<'a, '_>,
    vars: &[Var<'a>],
    alloc: Global,
    out: &mut Vec<Fault>,
) -> Result<(), AllocError>
    requires { AreKindTables scope.now.tables.now }
    ensures { OnOk result (out.new.items ≡ out.old.items ++ flat_map (in_item (scope_of scope.now) (vars_of scope.now.tables.now.names vars.now)) parts.now) }
{
    for x in parts {
        item(x, scope, vars, alloc, out)?;
    }
    Ok(())
}

// Signals of a role: formals are simple.
#[tactic(auto, using(smv_mentions::proofs::Notes::noting, crate::proofs::ItemLaws::no_formals))]
fn declared<'a>(
    of: &'a TypeExpr,
    words: &'a [Word],
    role: Role,
    scope: &Scope<'a, '_>,
    out: &mut Vec<Fault>,
) -> Result<(), AllocError>
    requires { AreKindTables scope.now.tables.now }
    ensures { OnOk result (out.new.items ≡ out.old.items ++ flat_map (faults_of_formal (scope_of scope.now).here.types role of.now) words.now) }
{
    match role {
        Role::Input => formal_faults(of, words, scope, out),
        Role::Output => formal_faults(of, words, scope, out),
        Role::Plain => Ok(()),
        Role::Abstract => Ok(()),
    }
}

// A claim is a number.
#[tactic(auto, using(smv_mentions::proofs::Notes::noting))]
fn claimed<'a>(
    x: &'a Expr,
    scope: &Scope<'a, '_>,
    vars: &[Var<'a>],
    alloc: Global,
    out: &mut Vec<Fault>,
) -> Result<(), AllocError>
    requires { AreKindTables scope.now.tables.now }
    ensures { OnOk result (out.new.items ≡ out.old.items ++ kinds.takes_number (operands.operand (scope_of scope.now) (vars_of scope.now.tables.now.names vars.now) x.now)) }
{
    number(x, scope, vars, alloc, out)?;
    Ok(())
}

// The left sides of all of these equations.
#[tactic(auto, using(smv_mentions::proofs::Notes::noting))]
fn all_pairs<'a>(
    pairs: &'a [Pair],
    scope: &Scope<'a, '_>,
    vars: &[Var<'a>],
    alloc: Global,
    out: &mut Vec<Fault>,
) -> Result<(), AllocError>
    requires { AreKindTables scope.now.tables.now }
    ensures { OnOk result (out.new.items ≡ out.old.items ++ flat_map (λ pair. (operands.operand (scope_of scope.now) (vars_of scope.now.tables.now.names vars.now) pair.left).faults) pairs.now) }
{
    for x in pairs {
        operand(&x.left, scope, vars, alloc, out)?;
    }
    Ok(())
}
