//! The inductive check: a set of states is a certificate that no violating path exists.
//!
//! For whoever has a set that ought to be inductive: the four conditions of `smv_rings/specs`, exactly.
#![tactic(auto)]

ghost use Rattle.std.specs.Prelude.{◌≡◌, ◌↔◌, IfOk, IsTrue};
ghost use Rattle.bdd_store.specs.Diagram.{IsLive, table, Keeps};
ghost use Rattle.bdd_ops.specs.Functions.{Function};
ghost use Rattle.smv_rings.specs.Lists.{IsRel, IsCurrent, lists_of};
ghost use Rattle.smv_rings.specs.Paths.{IsInductive};
ghost use Rattle.smv_inductive.specs.Halves.{HoldsFirst, HoldsOn, first_ops_of};

pub mod laws;
mod order;
mod runs;

use bdd_store::{Ref, Store};
use order::by_support;
use runs::{push_ands, stays_within};
use smv_rings::{Op, Rel, plan};
use std::alloc::{AllocError, Global};

/// The four conditions of induction hold of the set.
pub fn inductive(alloc: Global, rel: &Rel, store: &mut Store, set: Ref) -> Result<bool, AllocError>
    requires rel { IsRel store.old rel.now }
    requires set { IsLive store.old set }
    requires current { IsCurrent (table store.old set) }
    ensures means { IfOk result (λ x. IsTrue x ↔ IsInductive (lists_of store.old rel.now) (table store.old set)) }
    ensures keeps { Keeps store.old store.new }
{
    if !holds_first(alloc, rel, store, set)? {
        return Ok(false);
    }
    holds_on(alloc, rel, store, set)
}

// The set has each first state at which everything holds, and no first state breaks what is to be shown.
fn holds_first(alloc: Global, rel: &Rel, store: &mut Store, set: Ref) -> Result<bool, AllocError>
    requires rel { IsRel store.old rel.now }
    requires set { IsLive store.old set }
    requires current { IsCurrent (table store.old set) }
    ensures means { IfOk result (λ x. IsTrue x ↔ HoldsFirst (lists_of store.old rel.now) (table store.old set)) }
    ensures keeps { Keeps store.old store.new }
{
    let ops = first_ops(alloc, rel)?;
    let all = store.constant(true);
    stays_within(alloc, store, all, &ops, set)
}

// The set is closed under steps at which everything holds, and no step out of it breaks what is to be shown.
fn holds_on(alloc: Global, rel: &Rel, store: &mut Store, set: Ref) -> Result<bool, AllocError>
    requires rel { IsRel store.old rel.now }
    requires set { IsLive store.old set }
    requires current { IsCurrent (table store.old set) }
    ensures means { IfOk result (λ x. IsTrue x ↔ HoldsOn (lists_of store.old rel.now) (table store.old set)) }
    ensures keeps { Keeps store.old store.new }
{
    let ordered = in_order(alloc, rel, store, set)?;
    let ops = plan(alloc, &ordered, store)?;
    stays_within(alloc, store, set, &ops, set)
}

// The steps of a Rel, with what holds now in the order that serves an image of the set; of the first state nothing.
fn in_order(alloc: Global, rel: &Rel, store: &Store, set: Ref) -> Result<Rel, AllocError>
    requires rel { IsRel store.now rel.now }
    requires set { IsLive store.now set }
    ensures rel { IfOk result (IsRel store.now) }
    ensures means { IfOk result (λ r. (p : Function) → HoldsOn (lists_of store.now r) p ↔ HoldsOn (lists_of store.now rel.now) p) }
{
    let now_step = by_support(alloc, store, set, &rel.now_step)?;
    let before_step = Vec::from_slice(alloc, &rel.before_step)?;
    Ok(Rel {
        now_first: Vec::new(alloc),
        before_first: Vec::new(alloc),
        broken_first: rel.broken_first,
        now_step,
        before_step,
        broken_step: rel.broken_step,
        bits: rel.bits,
    })
}

// The operations that make the first states at which everything holds, with the look for a broken one.
fn first_ops(alloc: Global, rel: &Rel) -> Result<Vec<Op>, AllocError>
    ensures { IfOk result (λ ops. ops.items ≡ first_ops_of rel.now) }
{
    let mut ops = Vec::new(alloc);
    push_ands(&rel.now_first, &mut ops)?;
    ops.push(Op::Look(rel.broken_first))?;
    push_ands(&rel.before_first, &mut ops)?;
    Ok(ops)
}
