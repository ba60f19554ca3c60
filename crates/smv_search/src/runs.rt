// Operations on P, one after another.
ghost use Rattle.std.specs.Prelude.{◌≡◌, ◌≢◌, ◌↔◌, ℕ, ◌+◌, ◌≤◌, Bool, false, IsTrue, IfOk, OnOk, [], ◌∷◌, ◌++◌, map};
ghost use Rattle.bdd_store.specs.declared.Ref.{Ref};
ghost use Rattle.bdd_store.specs.Diagram.{Diagram, IsLive, Keeps, beads, held, table};
ghost use Rattle.smv_rings.specs.Schedule.{made_by};
ghost use Rattle.smv_rings.specs.Schedule.Act.{Join};
ghost use Rattle.smv_rings.specs.Lists.{IsRel, lists_of, refs_of};
ghost use Rattle.smv_rings.specs.Ops.{IsOneOf, act_of, acts_of, refs_in, refs_in_all, FitsAct, FitsActs};
ghost use Rattle.smv_search.specs.Keeping.{AllHeld, KeepsRefs, beads_in, IsPast};
ghost use Rattle.smv_search.specs.Runs.{Runs, first_of, behind_first, opening};
ghost use Rattle.law_events.specs.Events.{margin};

use super::counts::{Stop, append, most_told};
use super::pace::Pace;
use bdd_store::{Ref, Store};
use smv_rings::{Op, Rel, apply_within};
use std::alloc::{AllocError, Global};

// Does operations on P in turn, and counts. None: a look found a violating path.
pub fn run(
    alloc: Global,
    store: &mut Store,
    live: &mut Vec<Ref>,
    pace: &mut Pace,
    ops: &[Op],
    start: Ref,
    nodes: u32,
) -> Result<Option<Ref>, Stop>
    requires start { IsLive store.old start }
    requires live { AllHeld store.old live.old.items }
    requires refs { (r : Ref) → IsOneOf r (refs_in_all ops.now) → IsOneOf r live.old.items }
    requires fits { FitsActs store.old.vars (table store.old start) (acts_of store.old 0 ops.now) }
    ensures same { OnOk result (live.new.items ≡ live.old.items) }
    ensures keeps { KeepsRefs store.old store.new live.old.items }
    ensures runs { (k images : ℕ) → Runs store.new (record { vars = store.old.vars; nodes = nodes; images = images }) (map (table store.old) live.old.items) (table store.old start) (acts_of store.old k ops.now) k result }
{
    let mut p = start;
    for op in ops {
        let Some(made) = step(alloc, store, live, pace, p, *op, nodes)? else {
            return Ok(None);
        };
        p = made;
    }
    Ok(Some(p))
}

// Does an operation on P, counts, and gives P after it, or none where a violating path was found.
fn step(
    alloc: Global,
    store: &mut Store,
    live: &mut Vec<Ref>,
    pace: &mut Pace,
    p: Ref,
    op: Op,
    nodes: u32,
) -> Result<Option<Ref>, Stop>
    requires p { IsLive store.old p }
    requires live { AllHeld store.old live.old.items }
    requires refs { (r : Ref) → IsOneOf r (refs_in op) → IsOneOf r live.old.items }
    requires fits { FitsAct store.old.vars (table store.old p) (act_of store.old 0 op) }
    ensures same { OnOk result (live.new.items ≡ live.old.items) }
    ensures keeps { KeepsRefs store.old store.new live.old.items }
    ensures runs { (k images : ℕ) → Runs store.new (record { vars = store.old.vars; nodes = nodes; images = images }) (map (table store.old) live.old.items) (table store.old p) (act_of store.old k op ∷ []) k result }
{
    let made = make(alloc, store, p, op, nodes)?;
    append(store, live, pace, p, made, nodes)?;
    if let Op::Look(_) = op {
        if is_false(store, made) {
            return Ok(Some(p));
        }
        return Ok(None);
    }
    Ok(Some(made))
}

// What an operation makes of P, unless it has more beads than are told.
fn make(alloc: Global, store: &mut Store, p: Ref, op: Op, nodes: u32) -> Result<Ref, Stop>
    requires live { IsLive store.old p }
    requires refs { (r : Ref) → IsOneOf r (refs_in op) → IsLive store.old r }
    requires fits { FitsAct store.old.vars (table store.old p) (act_of store.old 0 op) }
    ensures live { IfOk result (λ r. IsLive store.new r) }
    ensures table { IfOk result (λ r. table store.new r ≡ made_by (act_of store.old 0 op) (table store.old p)) }
    ensures large { IsPast (beads_in store.old.vars (made_by (act_of store.old 0 op) (table store.old p))) nodes result }
    ensures keeps { Keeps store.old store.new }
    ensures held { IfOk result (λ r. held store.new ≤ held store.old + beads store.new r) }
    ensures made { op ≢ Op.Rename → held store.new ≤ held store.old + (nodes + margin + 1) }
{
    let most = most_told(nodes);
    match apply_within(alloc, store, p, op, most)? {
        Some(made) => Ok(made),
        None => Err(Stop::TooMany(most)),
    }
}

// The function is false.
fn is_false(store: &Store, r: Ref) -> bool
    requires { IsLive store.now r }
    ensures { IsTrue result ↔ ((a : ℕ → Bool) → table store.now r a ≡ false) }
{
    let _ = store.vars();
    r == store.constant(false)
}

// The first function of what holds now, or the constant.
pub fn first(rel: &Rel, store: &Store) -> Ref
    requires rel { IsRel store.now rel.now }
    ensures live { IsLive store.now result }
    ensures table { table store.now result ≡ first_of (map (table store.now) rel.now.now_first.items) }
{
    if rel.now_first.is_empty() {
        return store.constant(true);
    }
    rel.now_first[0]
}

// What is done to the first function up to ring 0: the rest of what holds now, the look at time 0, and what held before.
pub(crate) fn openers(alloc: Global, rel: &Rel) -> Result<Vec<Op>, AllocError>
    ensures acts { IfOk result (λ ops. (d : Diagram) → acts_of d 0 ops.items ≡ opening (lists_of d rel.now)) }
    ensures refs { IfOk result (λ ops. (r : Ref) → IsOneOf r (refs_in_all ops.items) → IsOneOf r (refs_of rel.now)) }
{
    let mut ops = Vec::new(alloc);
    push_ands(&mut ops, rest(&rel.now_first))?;
    ops.push(Op::Look(rel.broken_first))?;
    push_ands(&mut ops, &rel.before_first)?;
    Ok(ops)
}

// All but the first.
fn rest(fs: &[Ref]) -> &[Ref]
    ensures { result.now ≡ behind_first fs.now }
{
    if fs.is_empty() {
        return fs;
    }
    &fs[1..]
}

// Conjunctions with functions.
fn push_ands(ops: &mut Vec<Op>, fs: &[Ref]) -> Result<(), AllocError>
    ensures acts { OnOk result ((d : Diagram) (k : ℕ) → acts_of d k ops.new.items ≡ acts_of d k ops.old.items ++ map Join (map (table d) fs.now)) }
    ensures refs { OnOk result (refs_in_all ops.new.items ≡ refs_in_all ops.old.items ++ fs.now) }
{
    for f in fs {
        ops.push(Op::And(*f))?;
    }
    Ok(())
}
