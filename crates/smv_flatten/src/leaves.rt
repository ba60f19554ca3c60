// What the items of a module say one by one, with the binders around each.
ghost use Rattle.std.specs.Prelude.{◌≡◌, ◌++◌, [], ◌∷◌, map, flat_map, IfOk, OnOk};
ghost use Rattle.smv_core.specs.declared.tree.Item.{Instance};
ghost use Rattle.smv_flatten.specs.Leaves.{leaves, leaf_of, binders_of, item_of};

use smv_core::tree::{Expr, Item, Pair, Ref, Stmt, TypeExpr, Use, Word};
use std::alloc::{AllocError, Global};

/// A `forall` around an item.
#[derive(Clone, Copy)]
pub struct Binder<'a> {
    pub word: &'a Word,
    pub over: &'a TypeExpr,
}

/// An item that is neither a declaration nor a binder nor a block. Instances that are declared together are apart.
#[derive(Clone, Copy)]
pub enum What<'a> {
    Instance {
        name: &'a Word,
        of: &'a Word,
        args: &'a [Expr],
    },
    Layer {
        name: &'a Word,
        body: &'a [Stmt],
    },
    Claim {
        name: &'a Word,
        vars: &'a [Word],
        body: &'a Expr,
        at: u32,
    },
    Split {
        name: &'a Word,
        vars: &'a [Word],
        of: &'a Ref,
        pairs: &'a [Pair],
        at: u32,
    },
    Using {
        uses: &'a [Use],
        proves: &'a [Ref],
        at: u32,
    },
    Act {
        act: &'a Stmt,
    },
}

/// Such an item with the binders around it, from the outside in.
#[derive(Drop)]
pub struct Leaf<'a> {
    pub around: Vec<Binder<'a>>,
    pub what: What<'a>,
}

/// A copy of these binders.
pub fn copied<'a>(alloc: Global, around: &[Binder<'a>]) -> Result<Vec<Binder<'a>>, AllocError>
    ensures { IfOk result (λ copy. copy.items ≡ around.now) }
{
    let mut copy = Vec::new(alloc);
    copy.extend_from_slice(around)?;
    Ok(copy)
}

// What an item says.
#[cycle(leaves)]
#[tactic(auto, using(smv_mentions::proofs::Notes::noting, crate::proofs::LeafLaws::equations))]
fn leaves_of<'a>(
    alloc: Global,
    out: &mut Vec<Leaf<'a>>,
    around: &[Binder<'a>],
    item: &'a Item,
) -> Result<(), AllocError>
    ensures { OnOk result (map leaf_of out.new.items ≡ map leaf_of out.old.items ++ leaves (binders_of around.now) item.now) }
{
    match item {
        Item::Declare { .. } => Ok(()),
        Item::Instance {
            names,
            module,
            args,
            ..
        } => instances(
            alloc,
            out,
            around,
            names.as_slice(),
            module,
            args.as_slice(),
        ),
        Item::Layer { name, body, .. } => say(
            alloc,
            out,
            around,
            What::Layer {
                name,
                body: body.as_slice(),
            },
        ),
        Item::Forall {
            var,
            over,
            body,
            ..
        } => bound(alloc, out, around, body.get(), var, over),
        Item::Block { items } => all_leaves(alloc, out, around, items.as_slice()),
        Item::Claim {
            name,
            vars,
            body,
            at,
        } => say(
            alloc,
            out,
            around,
            What::Claim {
                name,
                vars: vars.as_slice(),
                body,
                at: *at,
            },
        ),
        Item::Split {
            name,
            vars,
            of,
            pairs,
            at,
        } => say(
            alloc,
            out,
            around,
            What::Split {
                name,
                vars: vars.as_slice(),
                of,
                pairs: pairs.as_slice(),
                at: *at,
            },
        ),
        Item::Using { uses, proves, at } => say(
            alloc,
            out,
            around,
            What::Using {
                uses: uses.as_slice(),
                proves: proves.as_slice(),
                at: *at,
            },
        ),
        Item::Act { act } => say(alloc, out, around, What::Act { act }),
    }
}

/// What these items say.
#[cycle(leaves)]
#[tactic(auto, using(smv_mentions::proofs::Notes::noting))]
pub(crate) fn all_leaves<'a>(
    alloc: Global,
    out: &mut Vec<Leaf<'a>>,
    around: &[Binder<'a>],
    items: &'a [Item],
) -> Result<(), AllocError>
    ensures { OnOk result (map leaf_of out.new.items ≡ map leaf_of out.old.items ++ flat_map (leaves (binders_of around.now)) items.now) }
{
    for item in items {
        leaves_of(alloc, out, around, item)?;
    }
    Ok(())
}

// What an item inside one more binder says.
#[cycle(leaves)]
#[tactic(auto, using(smv_mentions::proofs::Notes::noting))]
fn bound<'a>(
    alloc: Global,
    out: &mut Vec<Leaf<'a>>,
    around: &[Binder<'a>],
    body: &'a Item,
    word: &'a Word,
    over: &'a TypeExpr,
) -> Result<(), AllocError>
    ensures { OnOk result (map leaf_of out.new.items ≡ map leaf_of out.old.items ++ leaves (binders_of around.now ++ (word.now, over.now) ∷ []) body.now) }
{
    let mut inner = copied(alloc, around)?;
    inner.push(Binder { word, over })?;
    leaves_of(alloc, out, inner.as_slice(), body)
}

// Instances of a module, each with these arguments.
#[tactic(auto, using(smv_mentions::proofs::Notes::noting))]
fn instances<'a>(
    alloc: Global,
    out: &mut Vec<Leaf<'a>>,
    around: &[Binder<'a>],
    names: &'a [Word],
    of: &'a Word,
    args: &'a [Expr],
) -> Result<(), AllocError>
    ensures { OnOk result (map leaf_of out.new.items ≡ map leaf_of out.old.items ++ map (λ word. (binders_of around.now, Instance (word ∷ []) of.now args.now 0)) names.now) }
{
    for name in names {
        say(alloc, out, around, What::Instance { name, of, args })?;
    }
    Ok(())
}

// One item more.
#[tactic(auto, using(smv_mentions::proofs::Notes::noting))]
fn say<'a>(
    alloc: Global,
    out: &mut Vec<Leaf<'a>>,
    around: &[Binder<'a>],
    what: What<'a>,
) -> Result<(), AllocError>
    ensures { OnOk result (map leaf_of out.new.items ≡ map leaf_of out.old.items ++ (binders_of around.now, item_of what.entry) ∷ []) }
{
    let around = copied(alloc, around)?;
    out.push(Leaf { around, what })?;
    Ok(())
}
