// The connections of instances: definitions of inputs, and of what outputs give.
ghost use Rattle.std.specs.Prelude.{◌≡◌, ◌++◌, [], map, flat_map, zip, None, IfOk, OnOk};
ghost use Rattle.law_designs.specs.Entries.{connection, given_to};
ghost use Rattle.law_designs.specs.Flattening.{within};
ghost use Rattle.smv_flatten_families.specs.Held.{AreNumbers, scope_here};
ghost use Rattle.smv_flatten_statements.specs.Around.{around_of};
ghost use Rattle.smv_flatten.specs.Leaves.{binders_of};
ghost use Rattle.smv_flatten.specs.Items.{act_item, formal_of};
ghost use Rattle.smv_flatten.specs.Connections.{connected, input_act, output_act};

use crate::acts::{act_inside, small};
use crate::leaves::Binder;
use smv_core::flat::{FlatExpr, FlatItem, FlatStmt};
use smv_core::name::Name;
use smv_core::seq::Seq;
use smv_core::tree::{Expr, Kind, Path, Role, Word};
use smv_flatten_families::lookups::{family, family_named};
use smv_flatten_families::numbers::Here;
use smv_flatten_statements::expressions::{flat_expression, indexes};
use smv_flatten_statements::places::first_token;
use smv_flatten_statements::vars::Var;
use std::alloc::{AllocError, Global};

// A formal of an instance, where it is read at a place.
fn formal_read<'a>(
    alloc: Global,
    here: Here<'a, '_>,
    name: &'a Name,
    formal: &'a Name,
    at: u32,
) -> Result<FlatExpr, AllocError>
    requires { AreNumbers here.numbers.now }
    ensures { IfOk result (λ e. e ≡ formal_of (scope_here here.entry) name.now formal.now at) }
{
    let family = family_named(here, &[name, formal])?;
    if usize::from(family) < here.numbers.families.len() {
        Ok(FlatExpr::Read {
            family,
            indexes: Seq::new(alloc),
            at,
        })
    } else {
        let list = small(here.numbers.enums.len())?;
        Ok(FlatExpr::Constant { list, value: 0, at })
    }
}

// The definition of an input by its argument.
fn input<'a>(
    alloc: Global,
    here: Here<'a, '_>,
    around: &[Binder<'a>],
    vars: &[Var<'a>],
    name: &'a Name,
    formal: &'a Name,
    e: &'a Expr,
) -> Result<FlatItem, AllocError>
    requires numbers { AreNumbers here.numbers.now }
    requires within { around_of vars.now ≡ within [] (binders_of around.now) }
    ensures { IfOk result (λ item. item ≡ act_item (scope_here here.entry) None (binders_of around.now) (input_act name.now formal.now e.now)) }
{
    let family = family_named(here, &[name, formal])?;
    let value = flat_expression(e, here, vars, alloc)?;
    let act = FlatStmt::Assign {
        kind: Kind::Comb,
        family,
        left: Seq::new(alloc),
        value,
        at: first_token(e),
    };
    act_inside(alloc, here, around, None, act)
}

// The definition of what an output gives.
fn output<'a>(
    alloc: Global,
    here: Here<'a, '_>,
    around: &[Binder<'a>],
    vars: &[Var<'a>],
    name: &'a Name,
    formal: &'a Name,
    path: &'a Path,
) -> Result<FlatItem, AllocError>
    requires numbers { AreNumbers here.numbers.now }
    requires within { around_of vars.now ≡ within [] (binders_of around.now) }
    ensures { IfOk result (λ item. item ≡ act_item (scope_here here.entry) None (binders_of around.now) (output_act name.now formal.now path.now)) }
{
    let parts = path.parts.as_slice();
    let family = family(here, parts)?;
    let left = indexes(parts, here, vars, alloc)?;
    let value = formal_read(alloc, here, name, formal, path.at)?;
    let act = FlatStmt::Assign {
        kind: Kind::Comb,
        family,
        left,
        value,
        at: path.at,
    };
    act_inside(alloc, here, around, None, act)
}

// The definition of an output's argument, where it is a path.
#[tactic(auto, using(smv_mentions::proofs::Notes::noting, crate::proofs::ConnectionLaws::paths))]
fn add_output<'a>(
    alloc: Global,
    here: Here<'a, '_>,
    around: &[Binder<'a>],
    vars: &[Var<'a>],
    name: &'a Name,
    formal: &'a Name,
    e: &'a Expr,
    out: &mut Vec<FlatItem>,
) -> Result<(), AllocError>
    requires numbers { AreNumbers here.numbers.now }
    requires within { around_of vars.now ≡ within [] (binders_of around.now) }
    ensures { OnOk result (out.new.items ≡ out.old.items ++ map (act_item (scope_here here.entry) None (binders_of around.now)) (given_to name.now formal.now e.now)) }
{
    match e {
        Expr::Signal { path } => {
            let item = output(alloc, here, around, vars, name, formal, path)?;
            out.push(item)?;
            Ok(())
        }
        Expr::Number { .. } => Ok(()),
        Expr::Not { .. } => Ok(()),
        Expr::And { .. } => Ok(()),
        Expr::Or { .. } => Ok(()),
        Expr::Implies { .. } => Ok(()),
        Expr::Iff { .. } => Ok(()),
        Expr::Compare { .. } => Ok(()),
        Expr::Within { .. } => Ok(()),
        Expr::Sum { .. } => Ok(()),
        Expr::Modulo { .. } => Ok(()),
        Expr::Choose { .. } => Ok(()),
        Expr::All { .. } => Ok(()),
        Expr::Any { .. } => Ok(()),
        Expr::List { .. } => Ok(()),
        Expr::Each { .. } => Ok(()),
    }
}

// The connection of a formal of this role with its argument.
#[tactic(auto, using(smv_mentions::proofs::Notes::noting))]
fn add_connection<'a>(
    alloc: Global,
    here: Here<'a, '_>,
    around: &[Binder<'a>],
    vars: &[Var<'a>],
    role: Role,
    name: &'a Name,
    formal: &'a Name,
    e: &'a Expr,
    out: &mut Vec<FlatItem>,
) -> Result<(), AllocError>
    requires numbers { AreNumbers here.numbers.now }
    requires within { around_of vars.now ≡ within [] (binders_of around.now) }
    ensures { OnOk result (out.new.items ≡ out.old.items ++ map (act_item (scope_here here.entry) None (binders_of around.now)) (connection role name.now formal.now e.now)) }
{
    match role {
        Role::Input => {
            let item = input(alloc, here, around, vars, name, formal, e)?;
            out.push(item)?;
            Ok(())
        }
        Role::Output => add_output(alloc, here, around, vars, name, formal, e, out),
        Role::Plain => Ok(()),
        Role::Abstract => Ok(()),
    }
}

/// The connections of an instance, in the order of its formals, which have these roles.
#[tactic(auto, using(smv_mentions::proofs::Notes::noting))]
pub fn connections<'a>(
    alloc: Global,
    here: Here<'a, '_>,
    around: &[Binder<'a>],
    vars: &[Var<'a>],
    name: &'a Name,
    formals: &'a [Word],
    roles: &[Role],
    args: &'a [Expr],
    out: &mut Vec<FlatItem>,
) -> Result<(), AllocError>
    requires numbers { AreNumbers here.numbers.now }
    requires within { around_of vars.now ≡ within [] (binders_of around.now) }
    ensures { OnOk result (out.new.items ≡ out.old.items ++ map (act_item (scope_here here.entry) None (binders_of around.now)) (flat_map (connected name.now) (zip (zip formals.now roles.now) args.now))) }
{
    let count = formals.len().min(roles.len()).min(args.len());
    for i in 0..count {
        let formal = &formals[i].name;
        add_connection(
            alloc, here, around, vars, roles[i], name, formal, &args[i], out,
        )?;
    }
    Ok(())
}
