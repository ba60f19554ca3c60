// The operations of a turn.
ghost use Rattle.std.specs.Prelude.{◌≡◌, ◌≢◌, ℕ, suc, ◌+◌, ◌*◌, ◌<◌, ◌≤◌, ◌⊎◌, ◌&&◌, ◌||◌, not, List, [], ◌∷◌, ◌++◌, map, length, IfOk, OnOk, IfSome, IsNone};
ghost use Rattle.std.specs.List.{filter};
ghost use Rattle.bdd_store.specs.declared.Ref.{Ref};
ghost use Rattle.bdd_store.specs.Beads.{truth_table, bead_count};
ghost use Rattle.bdd_store.specs.Diagram.{Diagram, IsLive, AreLive, Keeps, beads, held, table};
ghost use Rattle.bdd_ops.specs.Functions.{Function, bit_at};
ghost use Rattle.smv_rings.specs.Lists.{IsRel, lists_of, refs_of};
ghost use Rattle.smv_rings.specs.Schedule.{made_by, turn, evens};
ghost use Rattle.smv_rings.specs.Schedule.Act.{Out};
ghost use Rattle.smv_rings.specs.Ops.{IsOneOf, act_of, acts_of, refs_in, refs_in_all, FitsAct, back_acts, AddsNone, AreMarked, outs_of, joins_onto};

use super::Rel;
use bdd_ops::{and, and_within, exists, exists_within, rename, support};
use bdd_store::{Ref, Store};
use std::alloc::{AllocError, Global};

/// One operation on a set P.
#[derive(Clone, Copy)]
pub enum Op {
    /// The conjunction with a function.
    And(Ref),
    /// A variable is quantified out.
    Exists(u32),
    /// The conjunction with a function, which is looked at and given up.
    Look(Ref),
    /// Each variable is replaced by the one before it.
    Rename,
}

/// What an operation makes of P.
pub fn apply(alloc: Global, store: &mut Store, p: Ref, op: Op) -> Result<Ref, AllocError>
    requires live { IsLive store.old p }
    requires refs { (r : Ref) → IsOneOf r (refs_in op) → IsLive store.old r }
    requires fits { FitsAct store.old.vars (table store.old p) (act_of store.old 0 op) }
    ensures live { IfOk result (λ r. IsLive store.new r) }
    ensures table { IfOk result (λ r. table store.new r ≡ made_by (act_of store.old 0 op) (table store.old p)) }
    ensures keeps { Keeps store.old store.new }
    ensures held { IfOk result (λ r. held store.new ≤ held store.old + beads store.new r) }
{
    match op {
        Op::And(f) => and(alloc, store, p, f),
        Op::Exists(var) => exists(alloc, store, p, var),
        Op::Look(f) => and(alloc, store, p, f),
        Op::Rename => {
            let _ = store.vars();
            rename(alloc, store, p)
        }
    }
}

/// What an operation makes of P, or none where it has more beads than `most`: at most one node more than that is made for it. A renaming is always made, since it
/// has as many beads as P.
pub fn apply_within(
    alloc: Global,
    store: &mut Store,
    p: Ref,
    op: Op,
    most: usize,
) -> Result<Option<Ref>, AllocError>
    requires live { IsLive store.old p }
    requires refs { (r : Ref) → IsOneOf r (refs_in op) → IsLive store.old r }
    requires fits { FitsAct store.old.vars (table store.old p) (act_of store.old 0 op) }
    ensures live { IfOk result (λ o. IfSome o (λ r. IsLive store.new r)) }
    ensures table { IfOk result (λ o. IfSome o (λ r. table store.new r ≡ made_by (act_of store.old 0 op) (table store.old p))) }
    ensures large { IfOk result (λ o. IsNone o → most < bead_count store.old.vars (truth_table store.old.vars 0 (made_by (act_of store.old 0 op) (table store.old p)) ∷ [])) }
    ensures keeps { Keeps store.old store.new }
    ensures held { IfOk result (λ o. IfSome o (λ r. held store.new ≤ held store.old + beads store.new r)) }
    ensures made { op ≢ Op.Rename → held store.new ≤ held store.old + (most + 1) }
{
    match op {
        Op::And(f) => and_within(alloc, store, p, f, most),
        Op::Exists(var) => exists_within(alloc, store, p, var, most),
        Op::Look(f) => and_within(alloc, store, p, f, most),
        Op::Rename => {
            let _ = store.vars();
            let r = rename(alloc, store, p)?;
            Ok(Some(r))
        }
    }
}

/// The operations of a turn: each current variable is quantified out as soon as no later function depends on it.
pub fn plan(alloc: Global, rel: &Rel, store: &Store) -> Result<Vec<Op>, AllocError>
    requires rel { IsRel store.now rel.now }
    ensures turn { IfOk result (λ ops. (k : ℕ) → acts_of store.now (suc k) ops.items ≡ turn (lists_of store.now rel.now) k) }
    ensures refs { IfOk result (λ ops. (r : Ref) → IsOneOf r (refs_in_all ops.items) → IsOneOf r (refs_of rel.now)) }
{
    let vars = store.vars() as usize;
    let mut read = vec![in alloc; false; vars]?;
    let mut ops = Vec::new(alloc);
    ops.push(Op::Rename)?;
    add_joins(
        alloc,
        store,
        &rel.before_step,
        rel.bits,
        &mut read,
        &mut ops,
    )?;
    add_outs(alloc, store, rel.broken_step, rel.bits, &mut read, &mut ops)?;
    ops.push(Op::Look(rel.broken_step))?;
    add_joins(alloc, store, &rel.now_step, rel.bits, &mut read, &mut ops)?;
    let all = vec![in alloc; true; vars]?;
    push_outs(&all, &read, rel.bits, &mut ops)?;
    ops.reverse();
    Ok(ops)
}

// Behind what was planned: conjunctions, each with the quantifications that belong to it. All stands last first.
fn add_joins(
    alloc: Global,
    store: &Store,
    fs: &[Ref],
    bits: u16,
    read: &mut Vec<bool>,
    ops: &mut Vec<Op>,
) -> Result<(), AllocError>
    requires live { AreLive store.now fs.now }
    requires vars { store.now.vars ≡ 2 * bits }
    requires count { length read.old.items ≡ 2 * bits }
    ensures read { OnOk result ((later : List Function) → AreMarked (2 * bits) later read.old.items → AreMarked (2 * bits) (map (table store.now) fs.now ++ later) read.new.items) }
    ensures count { OnOk result (length read.new.items ≡ 2 * bits) }
    ensures acts { OnOk result ((later : List Function) → AreMarked (2 * bits) later read.old.items → (k : ℕ) → back_acts store.now k ops.new.items ≡ joins_onto bits (map (table store.now) fs.now) later (back_acts store.now k ops.old.items)) }
    ensures refs { OnOk result ((r : Ref) → IsOneOf r (refs_in_all ops.new.items) → IsOneOf r (refs_in_all ops.old.items) ⊎ IsOneOf r fs.now) }
{
    let mut left = fs.len();
    while left > 0 {
        left -= 1;
        let f = fs[left];
        add_outs(alloc, store, f, bits, read, ops)?;
        ops.push(Op::And(f))?;
    }
    Ok(())
}

// The quantifications that belong to a function, and the variables that it reads.
fn add_outs(
    alloc: Global,
    store: &Store,
    f: Ref,
    bits: u16,
    read: &mut Vec<bool>,
    ops: &mut Vec<Op>,
) -> Result<(), AllocError>
    requires live { IsLive store.now f }
    requires vars { store.now.vars ≡ 2 * bits }
    requires count { length read.old.items ≡ 2 * bits }
    ensures read { OnOk result ((later : List Function) → AreMarked (2 * bits) later read.old.items → AreMarked (2 * bits) (table store.now f ∷ later) read.new.items) }
    ensures count { OnOk result (length read.new.items ≡ 2 * bits) }
    ensures acts { OnOk result ((later : List Function) → AreMarked (2 * bits) later read.old.items → (k : ℕ) → back_acts store.now k ops.new.items ≡ outs_of bits (table store.now f) later ++ back_acts store.now k ops.old.items) }
    ensures refs { OnOk result (AddsNone ops.old.items ops.new.items) }
{
    let reads = support(alloc, store, f)?;
    push_outs(&reads, read, bits, ops)?;
    mark_all(read, &reads);
    Ok(())
}

// The quantification of each current variable that is wanted and is not read later, the last one first.
fn push_outs(wanted: &[bool], read: &[bool], bits: u16, ops: &mut Vec<Op>) -> Result<(), AllocError>
    requires wanted { length wanted.now ≡ 2 * bits }
    requires read { length read.now ≡ 2 * bits }
    ensures acts { OnOk result ((d : Diagram) (k : ℕ) → back_acts d k ops.new.items ≡ map Out (filter (λ v. bit_at wanted.now v && not (bit_at read.now v)) (evens bits)) ++ back_acts d k ops.old.items) }
    ensures refs { OnOk result (AddsNone ops.old.items ops.new.items) }
{
    let mut left = bits as u32;
    while left > 0 {
        left -= 1;
        let var = 2 * left;
        if is_out(wanted, read, var as usize) {
            ops.push(Op::Exists(var))?;
        }
    }
    Ok(())
}

// The variable is wanted and not read later.
fn is_out(wanted: &[bool], read: &[bool], var: usize) -> bool
    requires wanted { var < length wanted.now }
    requires read { var < length read.now }
    ensures { result ≡ (bit_at wanted.now var && not (bit_at read.now var)) }
{
    wanted[var] && !read[var]
}

// Marks what is marked in either.
fn mark_all(read: &mut Vec<bool>, more: &[bool])
    requires { length read.old.items ≡ length more.now }
    ensures count { length read.new.items ≡ length read.old.items }
    ensures flag { (v : ℕ) → bit_at read.new.items v ≡ (bit_at read.old.items v || bit_at more.now v) }
{
    for i in 0..more.len() {
        if more[i] {
            read[i] = true;
        }
    }
}
