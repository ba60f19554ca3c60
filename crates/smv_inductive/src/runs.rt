// Operations on P, a set of states or of pairs of them, one after another. A clause names the path of a look by its length;
// here it does not matter, and is 1.
ghost use Rattle.std.specs.Prelude.{◌≡◌, ◌↔◌, IsTrue, IfOk, OnOk, [], ◌∷◌, ◌++◌, map};
ghost use Rattle.bdd_store.specs.declared.Ref.{Ref};
ghost use Rattle.bdd_store.specs.Diagram.{IsLive, table, Keeps};
ghost use Rattle.smv_rings.specs.declared.ops.Op.TheVariants.{And};
ghost use Rattle.smv_rings.specs.Ops.{IsOneOf, act_of, acts_of, refs_in, refs_in_all, FitsAct, FitsActs};
ghost use Rattle.smv_inductive.specs.Runs.{Leaves, StaysWithin};

use bdd_ops::{implies, is_never};
use bdd_store::{Ref, Store};
use smv_rings::{Op, apply};
use std::alloc::{AllocError, Global};

// No look of the operations finds anything, and what they leave is within the set.
pub fn stays_within(
    alloc: Global,
    store: &mut Store,
    start: Ref,
    ops: &[Op],
    set: Ref,
) -> Result<bool, AllocError>
    requires start { IsLive store.old start }
    requires refs { (r : Ref) → IsOneOf r (refs_in_all ops.now) → IsLive store.old r }
    requires fits { FitsActs store.old.vars (table store.old start) (acts_of store.old 1 ops.now) }
    requires set { IsLive store.old set }
    ensures means { IfOk result (λ x. IsTrue x ↔ StaysWithin (table store.old start) (acts_of store.old 1 ops.now) (table store.old set)) }
    ensures keeps { Keeps store.old store.new }
{
    match run(alloc, store, start, ops)? {
        Some(left) => implies(alloc, store, left, set),
        None => Ok(false),
    }
}

// Does operations on P in turn, and gives what they leave, or none where a look finds something.
fn run(alloc: Global, store: &mut Store, start: Ref, ops: &[Op]) -> Result<Option<Ref>, AllocError>
    requires start { IsLive store.old start }
    requires refs { (r : Ref) → IsOneOf r (refs_in_all ops.now) → IsLive store.old r }
    requires fits { FitsActs store.old.vars (table store.old start) (acts_of store.old 1 ops.now) }
    ensures leaves { IfOk result (Leaves store.new (table store.old start) (acts_of store.old 1 ops.now)) }
    ensures keeps { Keeps store.old store.new }
{
    let mut p = start;
    for op in ops {
        match step(alloc, store, p, *op)? {
            Some(left) => p = left,
            None => return Ok(None),
        }
    }
    Ok(Some(p))
}

// Does an operation on P, and gives what it leaves, or none where a look finds something.
fn step(alloc: Global, store: &mut Store, p: Ref, op: Op) -> Result<Option<Ref>, AllocError>
    requires p { IsLive store.old p }
    requires refs { (r : Ref) → IsOneOf r (refs_in op) → IsLive store.old r }
    requires fits { FitsAct store.old.vars (table store.old p) (act_of store.old 1 op) }
    ensures leaves { IfOk result (Leaves store.new (table store.old p) (act_of store.old 1 op ∷ [])) }
    ensures keeps { Keeps store.old store.new }
{
    let made = apply(alloc, store, p, op)?;
    if let Op::Look(_) = op {
        if is_never(store, made) {
            return Ok(Some(p));
        }
        return Ok(None);
    }
    Ok(Some(made))
}

// Conjunctions with functions.
pub fn push_ands(fs: &[Ref], ops: &mut Vec<Op>) -> Result<(), AllocError>
    ensures { OnOk result (ops.new.items ≡ ops.old.items ++ map And fs.now) }
{
    for f in fs {
        ops.push(Op::And(*f))?;
    }
    Ok(())
}
