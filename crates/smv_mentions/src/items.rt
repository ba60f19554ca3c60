// What the items of a module say about names.
ghost use Rattle.std.specs.Prelude.{◌≡◌, [], ◌∷◌, ◌++◌, map, flat_map, length, OnOk};
ghost use Rattle.smv_mentions.specs.Mentions.{declared_as, declares, instance, instantiates, goal, in_type, in_expr, in_item, binder_in};
ghost use Rattle.smv_mentions.specs.Said.{said, said_of, words_at};

use crate::expressions::{expression, expressions};
use crate::mentions::{Mention, What, binder_over, inside, note, type_of};
use crate::statements::{block, statement};
use smv_core::tree::{Expr, Item, Pair, TypeExpr, Word};
use std::alloc::{AllocError, Global};

// An item inside these variables, the innermost last.
#[cycle(items)]
#[tactic(auto, using(crate::proofs::Notes::noting, crate::proofs::ItemLaws::equations))]
fn item<'a>(
    alloc: Global,
    out: &mut Vec<Mention<'a>>,
    vars: &[&'a Word],
    x: &'a Item,
) -> Result<(), AllocError>
    ensures { OnOk result (map said out.new.items ≡ map said out.old.items ++ in_item (words_at vars.now) x.now) }
{
    match x {
        Item::Declare {
            role,
            names,
            of,
            ..
        } => {
            declare(out, names.as_slice(), What::Signal { role: *role, of })?;
            type_of(out, of)
        }
        Item::Instance {
            names,
            module,
            args,
            ..
        } => instances(alloc, out, vars, names.as_slice(), module, args.as_slice()),
        Item::Layer { body, .. } => block(alloc, out, vars, body.as_slice()),
        Item::Forall {
            var,
            over,
            body,
            ..
        } => each_value(alloc, out, vars, body.get(), var, over),
        Item::Block { items: parts } => items(alloc, out, vars, parts.as_slice()),
        Item::Claim { name, body, .. } => {
            declare_goal(out, name)?;
            expression(alloc, out, vars, body)
        }
        Item::Split { name, pairs, .. } => {
            declare_goal(out, name)?;
            all_pairs(alloc, out, vars, pairs.as_slice())
        }
        Item::Using { .. } => Ok(()),
        Item::Act { act } => statement(alloc, out, vars, act),
    }
}

// The values of a `forall`.
#[cycle(items)]
#[tactic(auto, using(crate::proofs::Notes::noting))]
fn each_value<'a>(
    alloc: Global,
    out: &mut Vec<Mention<'a>>,
    vars: &[&'a Word],
    body: &'a Item,
    var: &'a Word,
    over: &'a TypeExpr,
) -> Result<(), AllocError>
    ensures { OnOk result (map said out.new.items ≡ map said out.old.items ++ (binder_in (words_at vars.now) var.now ∷ in_type over.now ++ in_item (words_at vars.now ++ var.now ∷ []) body.now)) }
{
    binder_over(out, vars, var, over)?;
    let inner = inside(alloc, vars, var)?;
    item(alloc, out, inner.as_slice(), body)
}

// All of these items.
#[cycle(items)]
#[tactic(auto, using(crate::proofs::Notes::noting))]
pub fn items<'a>(
    alloc: Global,
    out: &mut Vec<Mention<'a>>,
    vars: &[&'a Word],
    parts: &'a [Item],
) -> Result<(), AllocError>
    ensures { OnOk result (map said out.new.items ≡ map said out.old.items ++ flat_map (in_item (words_at vars.now)) parts.now) }
{
    for x in parts {
        item(alloc, out, vars, x)?;
    }
    Ok(())
}

// Instances of a module, each with these arguments.
#[tactic(auto, using(crate::proofs::Notes::noting))]
fn instances<'a>(
    alloc: Global,
    out: &mut Vec<Mention<'a>>,
    vars: &[&'a Word],
    names: &'a [Word],
    name: &'a Word,
    args: &'a [Expr],
) -> Result<(), AllocError>
    ensures { OnOk result (map said out.new.items ≡ map said out.old.items ++ (declared_as (instance name.now) names.now ++ instantiates name.now (length args.now) ∷ flat_map (in_expr (words_at vars.now)) args.now)) }
{
    declare(out, names, What::Instance { module: name })?;
    note(
        out,
        Mention::Instantiates {
            module: name,
            args: args.len(),
        },
    )?;
    expressions(alloc, out, vars, args)
}

// The left sides of all of these equations.
#[tactic(auto, using(crate::proofs::Notes::noting))]
fn all_pairs<'a>(
    alloc: Global,
    out: &mut Vec<Mention<'a>>,
    vars: &[&'a Word],
    pairs: &'a [Pair],
) -> Result<(), AllocError>
    ensures { OnOk result (map said out.new.items ≡ map said out.old.items ++ flat_map (λ pair. in_expr (words_at vars.now) pair.left) pairs.now) }
{
    for x in pairs {
        expression(alloc, out, vars, &x.left)?;
    }
    Ok(())
}

// Each of these names is declared so.
#[tactic(auto, using(crate::proofs::Notes::noting))]
fn declare<'a>(
    out: &mut Vec<Mention<'a>>,
    words: &'a [Word],
    what: What<'a>,
) -> Result<(), AllocError>
    ensures { OnOk result (map said out.new.items ≡ map said out.old.items ++ declared_as (said_of what.entry) words.now) }
{
    for word in words {
        note(out, Mention::Declares { word, what })?;
    }
    Ok(())
}

// A claim or a split of this name.
#[tactic(auto, using(crate::proofs::Notes::noting))]
fn declare_goal<'a>(out: &mut Vec<Mention<'a>>, word: &'a Word) -> Result<(), AllocError>
    ensures { OnOk result (map said out.new.items ≡ map said out.old.items ++ declares word.now goal ∷ []) }
{
    note(
        out,
        Mention::Declares {
            word,
            what: What::Goal,
        },
    )
}
