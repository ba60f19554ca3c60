// What a text says in flat order: from the top of `main` downwards, and through each instance at its declaration.
ghost use Rattle.std.specs.Prelude.{◌≡◌, ◌++◌, [], ◌∷◌, map, flat_map, IfOk, OnOk};
ghost use Rattle.smv_core.specs.FlatOrder.{main};
ghost use Rattle.law_designs.specs.Entries.{entries};
ghost use Rattle.smv_flatten_families.specs.Held.{AreNumbers, path_of};
ghost use Rattle.smv_flatten.specs.Leaves.{leaf_of, binders_of};
ghost use Rattle.smv_flatten.specs.Met.{entries_met, said_in, inside};

use crate::leaves::{Binder, Leaf, What, all_leaves, copied};
use smv_core::name::Name;
use smv_flatten_families::numbers::{Numbers, body_of, module_count};
use std::alloc::{AllocError, Global};

/// An item of an instance, with the names that lead to the instance and with the binders around it from the outside in. An instance stands for its connections alone: what stands in it follows.
#[derive(Drop)]
pub struct Met<'a> {
    pub instance: Vec<&'a Name>,
    pub around: Vec<Binder<'a>>,
    pub what: What<'a>,
}

/// The names that lead to an instance, and one more.
pub fn deeper<'a>(
    alloc: Global,
    path: &[&'a Name],
    name: &'a Name,
) -> Result<Vec<&'a Name>, AllocError>
    ensures { IfOk result (λ inner. path_of inner.items ≡ path_of path.now ++ name.now ∷ []) }
{
    let mut inner = copied_path(alloc, path)?;
    inner.push(name)?;
    Ok(inner)
}

// A copy of the names that lead to an instance.
fn copied_path<'a>(alloc: Global, path: &[&'a Name]) -> Result<Vec<&'a Name>, AllocError>
    ensures { IfOk result (λ copy. path_of copy.items ≡ path_of path.now) }
{
    let mut copy = Vec::new(alloc);
    copy.extend_from_slice(path)?;
    Ok(copy)
}

// An item more.
#[tactic(auto, using(smv_mentions::proofs::Notes::noting, crate::proofs::MetLaws::noting))]
fn note<'a>(
    alloc: Global,
    numbers: &Numbers<'a>,
    path: &[&'a Name],
    leaf: &Leaf<'a>,
    out: &mut Vec<Met<'a>>,
) -> Result<(), AllocError>
    ensures { OnOk result (flat_map (entries_met numbers.now.text.now) out.new.items ≡ flat_map (entries_met numbers.now.text.now) out.old.items ++ said_in numbers.now.text.now 0 (path_of path.now) (leaf_of leaf.now)) }
{
    let instance = copied_path(alloc, path)?;
    let around = copied(alloc, leaf.around.as_slice())?;
    out.push(Met {
        instance,
        around,
        what: leaf.what,
    })?;
    Ok(())
}

// What a module inside binders says as an instance. No chain of instances inside it is longer than `left`.
#[cycle(walk)]
#[tactic(auto, using(smv_mentions::proofs::Notes::noting, crate::proofs::MetLaws::walks))]
fn walk<'a>(
    alloc: Global,
    numbers: &Numbers<'a>,
    path: &[&'a Name],
    around: &[Binder<'a>],
    name: &Name,
    left: usize,
    out: &mut Vec<Met<'a>>,
) -> Result<(), AllocError>
    requires { AreNumbers numbers.now }
    ensures { OnOk result (flat_map (entries_met numbers.now.text.now) out.new.items ≡ flat_map (entries_met numbers.now.text.now) out.old.items ++ inside numbers.now.text.now left (binders_of around.now) (path_of path.now) name.now) }
{
    if left == 0 {
        return Ok(());
    }
    let mut leaves = Vec::new(alloc);
    all_leaves(alloc, &mut leaves, around, body_of(numbers, name).items)?;
    meet_all(alloc, numbers, path, leaves.as_slice(), left - 1, out)
}

// What these items say.
#[cycle(walk)]
#[tactic(auto, using(smv_mentions::proofs::Notes::noting))]
fn meet_all<'a>(
    alloc: Global,
    numbers: &Numbers<'a>,
    path: &[&'a Name],
    leaves: &[Leaf<'a>],
    left: usize,
    out: &mut Vec<Met<'a>>,
) -> Result<(), AllocError>
    requires { AreNumbers numbers.now }
    ensures { OnOk result (flat_map (entries_met numbers.now.text.now) out.new.items ≡ flat_map (entries_met numbers.now.text.now) out.old.items ++ flat_map (said_in numbers.now.text.now left (path_of path.now)) (map leaf_of leaves.now)) }
{
    for leaf in leaves {
        meet(alloc, numbers, path, leaf, left, out)?;
    }
    Ok(())
}

// What an item says.
#[cycle(walk)]
#[tactic(auto, using(smv_mentions::proofs::Notes::noting, crate::proofs::MetLaws::meets))]
fn meet<'a>(
    alloc: Global,
    numbers: &Numbers<'a>,
    path: &[&'a Name],
    leaf: &Leaf<'a>,
    left: usize,
    out: &mut Vec<Met<'a>>,
) -> Result<(), AllocError>
    requires { AreNumbers numbers.now }
    ensures { OnOk result (flat_map (entries_met numbers.now.text.now) out.new.items ≡ flat_map (entries_met numbers.now.text.now) out.old.items ++ said_in numbers.now.text.now left (path_of path.now) (leaf_of leaf.now)) }
{
    note(alloc, numbers, path, leaf, out)?;
    match leaf.what {
        What::Instance { name, of, .. } => {
            let inner = deeper(alloc, path, &name.name)?;
            walk(
                alloc,
                numbers,
                inner.as_slice(),
                leaf.around.as_slice(),
                &of.name,
                left,
                out,
            )
        }
        What::Layer { .. } => Ok(()),
        What::Claim { .. } => Ok(()),
        What::Split { .. } => Ok(()),
        What::Using { .. } => Ok(()),
        What::Act { .. } => Ok(()),
    }
}

// The name of the module that is the design.
fn main_name(alloc: Global) -> Result<Name, AllocError>
    ensures { IfOk result (λ name. name ≡ main) }
{
    let bytes = b"main".to_vec(alloc)?;
    Ok(Name::from_vec(bytes))
}

/// What a text says in flat order.
#[tactic(auto, using(crate::proofs::MetLaws::whole))]
pub fn all_met<'a>(alloc: Global, numbers: &Numbers<'a>) -> Result<Vec<Met<'a>>, AllocError>
    requires { AreNumbers numbers.now }
    ensures { IfOk result (λ all. flat_map (entries_met numbers.now.text.now) all.items ≡ entries numbers.now.text.now) }
{
    let mut all = Vec::new(alloc);
    let top = main_name(alloc)?;
    walk(
        alloc,
        numbers,
        &[],
        &[],
        &top,
        module_count(numbers),
        &mut all,
    )?;
    Ok(all)
}
