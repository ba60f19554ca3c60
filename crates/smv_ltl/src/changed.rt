// The claims that are changed, each with the binders around it.
ghost use Rattle.std.specs.Prelude.{◌≡◌, ◌++◌, ◌∷◌, [], map, flat_map, option_map, IfOk, OnOk};
ghost use Rattle.smv_core.specs.declared.tree.Item as item;
ghost use Rattle.law_translated_texts.specs.Translation as translation;
ghost use Rattle.law_translated_texts.specs.Translation.{changed_in, if_changed};
ghost use Rattle.smv_ltl.specs.Planned.{plan_of};
ghost use Rattle.smv_ltl.specs.Plans.{watched_of};
ghost use Rattle.smv_ltl.specs.Changes.{around_of, changes_of};

use crate::plan::{Plan, Watched};
use smv_core::tree::{Expr, Item, TypeExpr, Word};
use std::alloc::{AllocError, Global};

/// A binder around a claim.
#[derive(Clone, Copy)]
pub struct Around<'a> {
    pub var: &'a Word,
    pub over: &'a TypeExpr,
}

/// A claim that is changed: the offsets of its name and of its formula, the binders around it from the outside in, and the formula with its monitors.
#[derive(Drop)]
pub struct Changed<'a> {
    pub name: u32,
    pub place: u32,
    pub around: Vec<Around<'a>>,
    pub watched: Watched<'a>,
}

fn inside<'a>(
    alloc: Global,
    around: &[Around<'a>],
    var: &'a Word,
    over: &'a TypeExpr,
) -> Result<Vec<Around<'a>>, AllocError>
    ensures { IfOk result (λ inner. around_of inner.items ≡ around_of around.now ++ (var.now, over.now) ∷ []) }
{
    let mut inner = Vec::from_slice(alloc, around)?;
    inner.push(Around { var, over })?;
    Ok(inner)
}

// One more, where the formula at the offset is no expression.
fn add_changed<'a>(
    alloc: Global,
    out: &mut Vec<Changed<'a>>,
    around: &[Around<'a>],
    name: &Word,
    place: u32,
    found: Option<Watched<'a>>,
) -> Result<(), AllocError>
    ensures { OnOk result (changes_of out.new.items ≡ changes_of out.old.items ++ if_changed name.now (around_of around.now) place (option_map watched_of found.entry)) }
{
    if let Some(watched) = found {
        out.push(Changed {
            name: name.at,
            place,
            around: Vec::from_slice(alloc, around)?,
            watched,
        })?;
    }
    Ok(())
}

// A claim, whose body is the number 1 at the offset of its formula where that is no expression.
fn in_claim<'a>(
    alloc: Global,
    out: &mut Vec<Changed<'a>>,
    plan: &Plan<'a>,
    around: &[Around<'a>],
    name: &Word,
    vars: &[Word],
    body: &Expr,
    at: u32,
) -> Result<(), AllocError>
    ensures { OnOk result (changes_of out.new.items ≡ changes_of out.old.items ++ changed_in (plan_of plan.now) (around_of around.now) (item.Claim name.now vars.now body.now at)) }
{
    match body {
        Expr::Number { at: place, .. } => {
            add_changed(alloc, out, around, name, *place, plan.find(*place))
        }
        Expr::Signal { .. } | Expr::Not { .. } | Expr::And { .. } | Expr::Or { .. } => Ok(()),
        Expr::Implies { .. } | Expr::Iff { .. } | Expr::Compare { .. } => Ok(()),
        Expr::Within { .. } | Expr::Sum { .. } | Expr::Modulo { .. } => Ok(()),
        Expr::Choose { .. } | Expr::All { .. } | Expr::Any { .. } => Ok(()),
        Expr::List { .. } | Expr::Each { .. } => Ok(()),
    }
}

#[cycle(changes)]
#[tactic(auto, using(crate::proofs::ChangeLaws::equations))]
fn in_item<'a>(
    alloc: Global,
    out: &mut Vec<Changed<'a>>,
    plan: &Plan<'a>,
    around: &[Around<'a>],
    x: &'a Item,
) -> Result<(), AllocError>
    ensures { OnOk result (changes_of out.new.items ≡ changes_of out.old.items ++ changed_in (plan_of plan.now) (around_of around.now) x.now) }
{
    match x {
        Item::Forall {
            var,
            over,
            body,
            ..
        } => {
            let inner = inside(alloc, around, var, over)?;
            in_item(alloc, out, plan, inner.as_slice(), body.get())
        }
        Item::Block { items } => in_items(alloc, out, plan, around, items.as_slice()),
        Item::Claim {
            name,
            vars,
            body,
            at,
        } => in_claim(alloc, out, plan, around, name, vars.as_slice(), body, *at),
        Item::Declare { .. } | Item::Instance { .. } | Item::Layer { .. } => Ok(()),
        Item::Split { .. } | Item::Using { .. } | Item::Act { .. } => Ok(()),
    }
}

#[cycle(changes)]
fn in_items<'a>(
    alloc: Global,
    out: &mut Vec<Changed<'a>>,
    plan: &Plan<'a>,
    around: &[Around<'a>],
    items: &'a [Item],
) -> Result<(), AllocError>
    ensures { OnOk result (changes_of out.new.items ≡ changes_of out.old.items ++ flat_map (changed_in (plan_of plan.now) (around_of around.now)) items.now) }
{
    for x in items {
        in_item(alloc, out, plan, around, x)?;
    }
    Ok(())
}

/// The claims of a module that are changed, in their order.
pub fn changed_claims<'a>(
    alloc: Global,
    plan: &Plan<'a>,
    items: &'a [Item],
) -> Result<Vec<Changed<'a>>, AllocError>
    ensures { IfOk result (λ cs. changes_of cs.items ≡ flat_map (changed_in (plan_of plan.now) []) items.now) }
{
    let mut out = Vec::new(alloc);
    in_items(alloc, &mut out, plan, &[], items)?;
    Ok(out)
}
