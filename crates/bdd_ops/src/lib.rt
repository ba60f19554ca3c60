//! Operations on the functions of a store.
//!
//! For the search and the encoder. To change it: each operation is a recursion that makes no node outside its result and loses none of its results during
//! a call, on which the bounds on `calls` stand (`specs/News`).
#![tactic(auto)]

pub mod questions;

ghost use Rattle.std.specs.Prelude.{◌≡◌, ◌⊎◌, ℕ, ◌+◌, ◌-◌, ◌*◌, ◌<◌, ◌≤◌, Bool, true, false, IfOk, OnOk, OnErr, IfSome, IsNone, if◌then◌else◌, is_ok, min, List, [], ◌∷◌, ◌&&◌, ◌||◌, not};
ghost use Rattle.bdd_store.specs.declared.Ref.{Ref};
ghost use Rattle.bdd_store.specs.Graph.{with_at};
ghost use Rattle.bdd_store.specs.Beads.{truth_table, bead_count};
ghost use Rattle.bdd_store.specs.Diagram.{Diagram, IsLive, table, IsReduced, IsCanonical, first_var, IsProper, Reaches, Keeps, beads, held};
ghost use Rattle.bdd_store.specs.Results.{AreOperands, AreResults, IsResult, made};
ghost use Rattle.bdd_store.specs.declared.results.Entry.{Entry};
ghost use Rattle.bdd_store.specs.Sure.{IsSure};
ghost use Rattle.bdd_ops.specs.Functions.{some_at, lowered, depends, IsFreshBelow};
ghost use Rattle.bdd_ops.specs.Memo.{joined, changed, AreJoins, AreImages};
ghost use Rattle.bdd_ops.specs.News.{join_of, change_of, News, AnyPair, SamePair};
ghost use Rattle.bdd_ops.specs.Grown.{Adds, IsWithin};
ghost use Rattle.bdd_ops.specs.declared.Stop.TheVariants.{OutOfMemory};

use bdd_store::{Known, Operation, Ref, Store};
use memo_table::Memo;
pub use questions::{implies, is_never, pick, support, value};
use std::alloc::{AllocError, Global};
use std::collections::HashSet;

/// Why an operation has no result.
#[derive(Drop)]
enum Stop {
    /// It made more nodes than it may: its result has more beads than that.
    Large,
    OutOfMemory,
}

impl From<AllocError> for Stop {
    ghost from_gives = { λ _ e. e ≡ OutOfMemory };

    fn from(_e: AllocError) -> Stop {
        Stop::OutOfMemory
    }
}

/// No store holds more nodes than this: an operation with this limit ends for want of memory alone.
const NO_LIMIT: usize = usize::MAX;

/// The function with the variable at 0, and with it at 1. It depends on no earlier variable.
#[inline(always)]
fn split(store: &Store, f: Ref, var: u32) -> (Ref, Ref)
    requires live { IsLive store.now f }
    requires from { var ≤ first_var store.now f }
    requires var_in { var < store.now.vars }
    ensures low_live { IsLive store.now result.0 }
    ensures high_live { IsLive store.now result.1 }
    ensures low_first { var < first_var store.now result.0 }
    ensures high_first { var < first_var store.now result.1 }
    ensures low_later { first_var store.now f ≤ first_var store.now result.0 }
    ensures high_later { first_var store.now f ≤ first_var store.now result.1 }
    ensures low_reached { (t : Ref) → IsLive store.now t → Reaches store.now t f → Reaches store.now t result.0 }
    ensures high_reached { (t : Ref) → IsLive store.now t → Reaches store.now t f → Reaches store.now t result.1 }
    ensures low_table { (a : ℕ → Bool) → table store.now result.0 a ≡ table store.now f (with_at a var false) }
    ensures high_table { (a : ℕ → Bool) → table store.now result.1 a ≡ table store.now f (with_at a var true) }
{
    if store.is_constant(f).is_none() {
        let first = store.var(f);
        if first == var {
            return (store.low(f), store.high(f));
        }
    }
    (f, f)
}

/// The number of a call, by which its results are told from earlier ones.
#[inline(always)]
fn turn(store: &Store) -> u32 {
    (store.calls() % 0xFFFF_FFFF) as u32
}

/// A node that is the result of an operation.
#[inline(always)]
fn result_node(
    store: &mut Store,
    operation: Operation,
    var: u32,
    low: Ref,
    high: Ref,
) -> Result<Ref, AllocError>
    requires var_in { var < store.old.vars }
    requires low_live { IsLive store.old low }
    requires high_live { IsLive store.old high }
    requires low_later { var < first_var store.old low }
    requires high_later { var < first_var store.old high }
    requires operands { AreOperands store.old operation }
    requires made { (a : ℕ → Bool) → (if a var then table store.old high a else table store.old low a) ≡ made store.old operation a }
    ensures live { IfOk result (λ r. IsLive store.new r) }
    ensures first { IfOk result (λ r. var ≤ first_var store.new r) }
    ensures table { IfOk result (λ r. (a : ℕ → Bool) → table store.new r a ≡ (if a var then table store.old high a else table store.old low a)) }
    ensures reached { IfOk result (λ r. (q : Ref) → IsLive store.old q → Reaches store.old low q ⊎ Reaches store.old high q → Reaches store.new r q) }
    ensures fresh { IfOk result (λ r. (q : Ref) → IsLive store.new q → IsLive store.old q ⊎ (q ≡ r)) }
    ensures none_fresh { OnErr result ((q : Ref) → IsLive store.new q → IsLive store.old q) }
    ensures held { held store.new ≤ held store.old + (if is_ok result then 1 else 0) }
    ensures keeps { Keeps store.old store.new }
    ensures sound { IsReduced store.new }
    ensures calls { store.new.calls ≤ store.old.calls + (if is_ok result then 1 else 0) }
    ensures right { IfOk result (λ r. IsResult store.new operation r) }
    ensures known { (es : List Entry) → AreResults store.old es → AreResults store.new es }
{
    let _ = operation;
    store.node(var, low, high)
}

/// The same, where no more nodes than the limit are held after.
#[inline(always)]
fn node_within(
    store: &mut Store,
    operation: Operation,
    var: u32,
    low: Ref,
    high: Ref,
    limit: usize,
) -> Result<Ref, Stop>
    requires var_in { var < store.old.vars }
    requires low_live { IsLive store.old low }
    requires high_live { IsLive store.old high }
    requires low_later { var < first_var store.old low }
    requires high_later { var < first_var store.old high }
    requires operands { AreOperands store.old operation }
    requires made { (a : ℕ → Bool) → (if a var then table store.old high a else table store.old low a) ≡ made store.old operation a }
    requires room { held store.old ≤ limit }
    ensures live { IfOk result (λ r. IsLive store.new r) }
    ensures first { IfOk result (λ r. var ≤ first_var store.new r) }
    ensures table { IfOk result (λ r. (a : ℕ → Bool) → table store.new r a ≡ (if a var then table store.old high a else table store.old low a)) }
    ensures reached { IfOk result (λ r. (q : Ref) → IsLive store.old q → Reaches store.old low q ⊎ Reaches store.old high q → Reaches store.new r q) }
    ensures fresh { IfOk result (λ r. (q : Ref) → IsLive store.new q → IsLive store.old q ⊎ (q ≡ r)) }
    ensures keeps { Keeps store.old store.new }
    ensures sound { IsReduced store.new }
    ensures calls { store.new.calls ≤ store.old.calls + 1 }
    ensures right { IfOk result (λ r. IsResult store.new operation r) }
    ensures known { (es : List Entry) → AreResults store.old es → AreResults store.new es }
    ensures adds { OnErr result (Adds store.old store.new (made store.old operation)) }
    ensures within { IsWithin limit (held store.new) result }
{
    let r = result_node(store, operation, var, low, high)?;
    if store.held() > limit {
        return Err(Stop::Large);
    }
    Ok(r)
}

/// Keeps a result for the rest of the turn: where results are known or, if its place there is taken, in the memo.
#[inline(always)]
fn keep(
    known: &mut Known,
    memo: &mut Memo,
    turn: u32,
    operation: Operation,
    first: Ref,
    second: Ref,
    answer: Ref,
) -> Result<(), AllocError>
    ensures right { (d : Diagram) → AreResults d known.old → IsResult d operation answer → AreResults d known.new }
    ensures sure { (o : Operation) → IsSure known.old turn o → IsSure known.new turn o }
    ensures memo { (memo.new ≡ memo.old) ⊎ (memo.new ≡ ((first, second), answer) ∷ memo.old) }
    ensures err { OnErr result (memo.new ≡ memo.old) }
    ensures found { OnOk result (IsSure known.new turn operation ⊎ (memo.new ≡ ((first, second), answer) ∷ memo.old)) }
{
    if known.remember(operation, answer, turn) {
        return Ok(());
    }
    memo.insert(first, second, answer)?;
    Ok(())
}

/// The operation of a join.
#[inline(always)]
fn joining<const UNIT: bool>(f: Ref, g: Ref) -> Operation
    ensures is { result ≡ join_of UNIT (f, g) }
    ensures operands { (d : Diagram) → IsLive d f → IsLive d g → AreOperands d result }
    ensures made { (d : Diagram) (a : ℕ → Bool) → made d result a ≡ joined UNIT (table d f a) (table d g a) }
{
    if UNIT {
        Operation::And(f, g)
    } else {
        Operation::Or(f, g)
    }
}

/// The operation of a change.
#[inline(always)]
fn changing<const BACK: u32, const FLIP: bool>(f: Ref) -> Operation
    requires { BACK ≡ (if FLIP then 0 else 1) }
    ensures is { result ≡ change_of FLIP (f, f) }
    ensures operands { (d : Diagram) → IsLive d f → AreOperands d result }
    ensures made { (d : Diagram) (a : ℕ → Bool) → made d result a ≡ changed BACK FLIP (table d f) a }
{
    if FLIP {
        Operation::Not(f)
    } else {
        Operation::Rename(f)
    }
}

/// The conjunction where `UNIT` is true, and else the disjunction. It ends where more nodes than the limit would be held.
fn join_from<const UNIT: bool>(
    store: &mut Store,
    known: &mut Known,
    memo: &mut Memo,
    turn: u32,
    f: Ref,
    g: Ref,
    limit: usize,
) -> Result<Ref, Stop>
    requires f_live { IsLive store.old f }
    requires g_live { IsLive store.old g }
    requires sound { IsReduced store.old }
    requires known { AreResults store.old known.old }
    requires memo { AreJoins UNIT store.old memo.old }
    requires room { held store.old ≤ limit }
    ensures live { IfOk result (λ r. IsLive store.new r) }
    ensures first { IfOk result (λ r. min (first_var store.old f) (first_var store.old g) ≤ first_var store.new r) }
    ensures table { IfOk result (λ r. (a : ℕ → Bool) → table store.new r a ≡ joined UNIT (table store.old f a) (table store.old g a)) }
    ensures fresh { IfOk result (IsFreshBelow store.old store.new) }
    ensures keeps { Keeps store.old store.new }
    ensures sound { IsReduced store.new }
    ensures known { AreResults store.new known.new }
    ensures memo { AreJoins UNIT store.new memo.new }
    ensures adds { OnErr result (Adds store.old store.new (λ a. joined UNIT (table store.old f a) (table store.old g a))) }
    ensures within { IsWithin limit (held store.new) result }
    ensures news { News (join_of UNIT) AnyPair turn (store.old, (known.old, memo.old)) (store.new, (known.new, memo.new)) f g (min (first_var store.old f) (first_var store.old g)) (if is_ok result then 0 else 1) }
{
    if let Some(x) = store.is_constant(f) {
        return Ok(if x == UNIT { g } else { f });
    }
    if let Some(x) = store.is_constant(g) {
        return Ok(if x == UNIT { f } else { g });
    }
    if f == g {
        return Ok(f);
    }
    let operation = joining::<UNIT>(f, g);
    match known.recall(operation) {
        Some(r) => {
            known.note_hit();
            return Ok(r);
        }
        None => {}
    }
    match memo.get(f, g) {
        Some(r) => return Ok(r),
        None => {}
    }
    let f_var = store.var(f);
    let g_var = store.var(g);
    let var = f_var.min(g_var);
    let (f_low, f_high) = split(store, f, var);
    let (g_low, g_high) = split(store, g, var);
    let low = join_from::<UNIT>(store, known, memo, turn, f_low, g_low, limit)?;
    let high = join_from::<UNIT>(store, known, memo, turn, f_high, g_high, limit)?;
    let r = node_within(store, operation, var, low, high, limit)?;
    keep(known, memo, turn, operation, f, g, r)?;
    Ok(r)
}

/// The function with each variable replaced by that which stands `BACK` before it, and negated where `FLIP` is true.
fn change_from<const BACK: u32, const FLIP: bool>(
    store: &mut Store,
    known: &mut Known,
    memo: &mut Memo,
    turn: u32,
    f: Ref,
) -> Result<Ref, AllocError>
    requires back { BACK ≡ (if FLIP then 0 else 1) }
    requires live { IsLive store.old f }
    requires later { IsProper store.old f → BACK ≤ first_var store.old f }
    requires sound { IsReduced store.old }
    requires known { AreResults store.old known.old }
    requires memo { AreImages (changed BACK FLIP) BACK store.old memo.old }
    ensures live { IfOk result (λ r. IsLive store.new r) }
    ensures first { IfOk result (λ r. first_var store.old f ≤ first_var store.new r + BACK) }
    ensures table { IfOk result (λ r. (a : ℕ → Bool) → table store.new r a ≡ changed BACK FLIP (table store.old f) a) }
    ensures fresh { IfOk result (IsFreshBelow store.old store.new) }
    ensures keeps { Keeps store.old store.new }
    ensures sound { IsReduced store.new }
    ensures known { AreResults store.new known.new }
    ensures memo { AreImages (changed BACK FLIP) BACK store.new memo.new }
    ensures news { News (change_of FLIP) SamePair turn (store.old, (known.old, memo.old)) (store.new, (known.new, memo.new)) f f (first_var store.old f) (if is_ok result then 0 else 1) }
{
    if let Some(x) = store.is_constant(f) {
        return Ok(store.constant(x != FLIP));
    }
    let operation = changing::<BACK, FLIP>(f);
    match known.recall(operation) {
        Some(r) => {
            known.note_hit();
            return Ok(r);
        }
        None => {}
    }
    match memo.get(f, f) {
        Some(r) => return Ok(r),
        None => {}
    }
    let var = store.var(f);
    let f_low = store.low(f);
    let f_high = store.high(f);
    let low = change_from::<BACK, FLIP>(store, known, memo, turn, f_low)?;
    let high = change_from::<BACK, FLIP>(store, known, memo, turn, f_high)?;
    let r = result_node(store, operation, var - BACK, low, high)?;
    keep(known, memo, turn, operation, f, f, r)?;
    Ok(r)
}

/// The disjunction of the function with the variable at 0 and with it at 1. It ends where more nodes than the limit would be held.
fn exists_from(
    store: &mut Store,
    known: &mut Known,
    joins: &mut Memo,
    memo: &mut Memo,
    turn: u32,
    var: u32,
    f: Ref,
    limit: usize,
) -> Result<Ref, Stop>
    requires live { IsLive store.old f }
    requires sound { IsReduced store.old }
    requires known { AreResults store.old known.old }
    requires joins { AreJoins false store.old joins.old }
    requires memo { AreImages (some_at var) 0 store.old memo.old }
    requires room { held store.old ≤ limit }
    ensures live { IfOk result (λ r. IsLive store.new r) }
    ensures first { IfOk result (λ r. first_var store.old f ≤ first_var store.new r) }
    ensures table { IfOk result (λ r. (a : ℕ → Bool) → table store.new r a ≡ some_at var (table store.old f) a) }
    ensures fresh { IfOk result (IsFreshBelow store.old store.new) }
    ensures keeps { Keeps store.old store.new }
    ensures sound { IsReduced store.new }
    ensures known { AreResults store.new known.new }
    ensures joins { AreJoins false store.new joins.new }
    ensures memo { AreImages (some_at var) 0 store.new memo.new }
    ensures adds { OnErr result (Adds store.old store.new (some_at var (table store.old f))) }
    ensures within { IsWithin limit (held store.new) result }
{
    if let Some(_) = store.is_constant(f) {
        return Ok(f);
    }
    let first = store.var(f);
    if var < first {
        return Ok(f);
    }
    let f_low = store.low(f);
    let f_high = store.high(f);
    if first == var {
        return join_from::<false>(store, known, joins, turn, f_low, f_high, limit);
    }
    let operation = Operation::Exists(f, var);
    match known.recall(operation) {
        Some(r) => {
            known.note_hit();
            return Ok(r);
        }
        None => {}
    }
    match memo.get(f, f) {
        Some(r) => return Ok(r),
        None => {}
    }
    let low = exists_from(store, known, joins, memo, turn, var, f_low, limit)?;
    let high = exists_from(store, known, joins, memo, turn, var, f_high, limit)?;
    let r = node_within(store, operation, first, low, high, limit)?;
    keep(known, memo, turn, operation, f, f, r)?;
    Ok(r)
}

/// The conjunction where `UNIT` is true, and else the disjunction. It ends where more nodes than the limit would be held.
fn join_within<const UNIT: bool>(
    alloc: Global,
    store: &mut Store,
    known: &mut Known,
    f: Ref,
    g: Ref,
    limit: usize,
) -> Result<Ref, Stop>
    requires f_live { IsLive store.old f }
    requires g_live { IsLive store.old g }
    requires room { held store.old ≤ limit }
    requires known { AreResults store.old known.old }
    ensures live { IfOk result (λ r. IsLive store.new r) }
    ensures first { IfOk result (λ r. min (first_var store.old f) (first_var store.old g) ≤ first_var store.new r) }
    ensures table { IfOk result (λ r. (a : ℕ → Bool) → table store.new r a ≡ joined UNIT (table store.old f a) (table store.old g a)) }
    ensures keeps { Keeps store.old store.new }
    ensures sound { IsReduced store.new }
    ensures calls { store.new.calls ≤ store.old.calls + (beads store.old f + 2) * (beads store.old g + 2) }
    ensures fresh { IfOk result (IsFreshBelow store.old store.new) }
    ensures held { IfOk result (λ r. held store.new ≤ held store.old + beads store.new r) }
    ensures known { AreResults store.new known.new }
    ensures within { IsWithin limit (held store.new) result }
    ensures grown { OnErr result (held store.new ≤ held store.old + bead_count store.old.vars (truth_table store.old.vars 0 (λ a. joined UNIT (table store.old f a) (table store.old g a)) ∷ [])) }
{
    let _ = store.vars();
    let mut memo = Memo::new(alloc);
    let turn = turn(store);
    join_from::<UNIT>(store, known, &mut memo, turn, f, g, limit)
}

/// The conjunction where `UNIT` is true, and else the disjunction.
fn join<const UNIT: bool>(
    alloc: Global,
    store: &mut Store,
    known: &mut Known,
    f: Ref,
    g: Ref,
) -> Result<Ref, AllocError>
    requires f_live { IsLive store.old f }
    requires g_live { IsLive store.old g }
    requires known { AreResults store.old known.old }
    ensures live { IfOk result (λ r. IsLive store.new r) }
    ensures first { IfOk result (λ r. min (first_var store.old f) (first_var store.old g) ≤ first_var store.new r) }
    ensures table { IfOk result (λ r. (a : ℕ → Bool) → table store.new r a ≡ joined UNIT (table store.old f a) (table store.old g a)) }
    ensures keeps { Keeps store.old store.new }
    ensures sound { IsReduced store.new }
    ensures calls { store.new.calls ≤ store.old.calls + (beads store.old f + 2) * (beads store.old g + 2) }
    ensures fresh { IfOk result (IsFreshBelow store.old store.new) }
    ensures held { IfOk result (λ r. held store.new ≤ held store.old + beads store.new r) }
    ensures known { AreResults store.new known.new }
{
    let _ = store.held();
    match join_within::<UNIT>(alloc, store, known, f, g, NO_LIMIT) {
        Ok(r) => Ok(r),
        Err(_) => Err(AllocError),
    }
}

/// The function with each variable replaced by that which stands `BACK` before it, and negated where `FLIP` is true.
fn change<const BACK: u32, const FLIP: bool>(
    alloc: Global,
    store: &mut Store,
    known: &mut Known,
    f: Ref,
) -> Result<Ref, AllocError>
    requires back { BACK ≡ (if FLIP then 0 else 1) }
    requires live { IsLive store.old f }
    requires later { IsProper store.old f → BACK ≤ first_var store.old f }
    requires known { AreResults store.old known.old }
    ensures live { IfOk result (λ r. IsLive store.new r) }
    ensures first { IfOk result (λ r. first_var store.old f ≤ first_var store.new r + BACK) }
    ensures table { IfOk result (λ r. (a : ℕ → Bool) → table store.new r a ≡ changed BACK FLIP (table store.old f) a) }
    ensures keeps { Keeps store.old store.new }
    ensures sound { IsReduced store.new }
    ensures calls { store.new.calls ≤ store.old.calls + (beads store.old f + 2) }
    ensures fresh { IfOk result (IsFreshBelow store.old store.new) }
    ensures held { IfOk result (λ r. held store.new ≤ held store.old + beads store.new r) }
    ensures known { AreResults store.new known.new }
{
    let _ = store.vars();
    let mut memo = Memo::new(alloc);
    let turn = turn(store);
    change_from::<BACK, FLIP>(store, known, &mut memo, turn, f)
}

/// The disjunction of the function with the variable at 0 and with it at 1. It ends where more nodes than the limit would be held.
fn quantify_within(
    alloc: Global,
    store: &mut Store,
    known: &mut Known,
    var: u32,
    f: Ref,
    limit: usize,
) -> Result<Ref, Stop>
    requires live { IsLive store.old f }
    requires room { held store.old ≤ limit }
    requires known { AreResults store.old known.old }
    ensures live { IfOk result (λ r. IsLive store.new r) }
    ensures first { IfOk result (λ r. first_var store.old f ≤ first_var store.new r) }
    ensures table { IfOk result (λ r. (a : ℕ → Bool) → table store.new r a ≡ some_at var (table store.old f) a) }
    ensures keeps { Keeps store.old store.new }
    ensures sound { IsReduced store.new }
    ensures fresh { IfOk result (IsFreshBelow store.old store.new) }
    ensures held { IfOk result (λ r. held store.new ≤ held store.old + beads store.new r) }
    ensures known { AreResults store.new known.new }
    ensures within { IsWithin limit (held store.new) result }
    ensures grown { OnErr result (held store.new ≤ held store.old + bead_count store.old.vars (truth_table store.old.vars 0 (some_at var (table store.old f)) ∷ [])) }
{
    let _ = store.vars();
    let mut joins = Memo::new(alloc);
    let mut memo = Memo::new(alloc);
    let turn = turn(store);
    exists_from(store, known, &mut joins, &mut memo, turn, var, f, limit)
}

/// The disjunction of the function with the variable at 0 and with it at 1.
fn quantify(
    alloc: Global,
    store: &mut Store,
    known: &mut Known,
    var: u32,
    f: Ref,
) -> Result<Ref, AllocError>
    requires live { IsLive store.old f }
    requires known { AreResults store.old known.old }
    ensures live { IfOk result (λ r. IsLive store.new r) }
    ensures first { IfOk result (λ r. first_var store.old f ≤ first_var store.new r) }
    ensures table { IfOk result (λ r. (a : ℕ → Bool) → table store.new r a ≡ some_at var (table store.old f) a) }
    ensures keeps { Keeps store.old store.new }
    ensures sound { IsReduced store.new }
    ensures fresh { IfOk result (IsFreshBelow store.old store.new) }
    ensures held { IfOk result (λ r. held store.new ≤ held store.old + beads store.new r) }
    ensures known { AreResults store.new known.new }
{
    let _ = store.held();
    match quantify_within(alloc, store, known, var, f, NO_LIMIT) {
        Ok(r) => Ok(r),
        Err(_) => Err(AllocError),
    }
}

/// The conjunction.
pub fn and(alloc: Global, store: &mut Store, f: Ref, g: Ref) -> Result<Ref, AllocError>
    requires f_live { IsLive store.old f }
    requires g_live { IsLive store.old g }
    ensures live { IfOk result (λ r. IsLive store.new r) }
    ensures first { IfOk result (λ r. min (first_var store.old f) (first_var store.old g) ≤ first_var store.new r) }
    ensures table { IfOk result (λ r. (a : ℕ → Bool) → table store.new r a ≡ (table store.old f a && table store.old g a)) }
    ensures keeps { Keeps store.old store.new }
    ensures sound { IsReduced store.new }
    ensures canonical { IsCanonical store.new }
    ensures calls { store.new.calls ≤ store.old.calls + (beads store.old f + 2) * (beads store.old g + 2) }
    ensures fresh { IfOk result (IsFreshBelow store.old store.new) }
    ensures held { IfOk result (λ r. held store.new ≤ held store.old + beads store.new r) }
{
    let mut known = store.lend();
    let answer = join::<true>(alloc, store, &mut known, f, g);
    store.take_back(known);
    let _ = store.vars();
    answer
}

/// The disjunction.
pub fn or(alloc: Global, store: &mut Store, f: Ref, g: Ref) -> Result<Ref, AllocError>
    requires f_live { IsLive store.old f }
    requires g_live { IsLive store.old g }
    ensures live { IfOk result (λ r. IsLive store.new r) }
    ensures first { IfOk result (λ r. min (first_var store.old f) (first_var store.old g) ≤ first_var store.new r) }
    ensures table { IfOk result (λ r. (a : ℕ → Bool) → table store.new r a ≡ (table store.old f a || table store.old g a)) }
    ensures keeps { Keeps store.old store.new }
    ensures sound { IsReduced store.new }
    ensures canonical { IsCanonical store.new }
    ensures calls { store.new.calls ≤ store.old.calls + (beads store.old f + 2) * (beads store.old g + 2) }
    ensures fresh { IfOk result (IsFreshBelow store.old store.new) }
    ensures held { IfOk result (λ r. held store.new ≤ held store.old + beads store.new r) }
{
    let mut known = store.lend();
    let answer = join::<false>(alloc, store, &mut known, f, g);
    store.take_back(known);
    let _ = store.vars();
    answer
}

/// The negation.
pub fn not(alloc: Global, store: &mut Store, f: Ref) -> Result<Ref, AllocError>
    requires live { IsLive store.old f }
    ensures live { IfOk result (λ r. IsLive store.new r) }
    ensures first { IfOk result (λ r. first_var store.old f ≤ first_var store.new r) }
    ensures table { IfOk result (λ r. (a : ℕ → Bool) → table store.new r a ≡ not (table store.old f a)) }
    ensures keeps { Keeps store.old store.new }
    ensures sound { IsReduced store.new }
    ensures canonical { IsCanonical store.new }
    ensures calls { store.new.calls ≤ store.old.calls + (beads store.old f + 2) }
    ensures fresh { IfOk result (IsFreshBelow store.old store.new) }
    ensures held { IfOk result (λ r. held store.new ≤ held store.old + beads store.new r) }
{
    let mut known = store.lend();
    let answer = change::<0, true>(alloc, store, &mut known, f);
    store.take_back(known);
    let _ = store.vars();
    answer
}

/// Each variable is replaced by the one before it. The function does not depend on the first variable of all.
pub fn rename(alloc: Global, store: &mut Store, f: Ref) -> Result<Ref, AllocError>
    requires live { IsLive store.old f }
    requires later { IsProper store.old f → 0 < first_var store.old f }
    ensures live { IfOk result (λ r. IsLive store.new r) }
    ensures first { IfOk result (λ r. first_var store.old f ≤ first_var store.new r + 1) }
    ensures table { IfOk result (λ r. (a : ℕ → Bool) → table store.new r a ≡ lowered (table store.old f) a) }
    ensures keeps { Keeps store.old store.new }
    ensures sound { IsReduced store.new }
    ensures canonical { IsCanonical store.new }
    ensures calls { store.new.calls ≤ store.old.calls + (beads store.old f + 2) }
    ensures fresh { IfOk result (IsFreshBelow store.old store.new) }
    ensures held { IfOk result (λ r. held store.new ≤ held store.old + beads store.new r) }
{
    let mut known = store.lend();
    let answer = change::<1, false>(alloc, store, &mut known, f);
    store.take_back(known);
    let _ = store.vars();
    answer
}

/// The disjunction of the function with the variable at 0 and with it at 1.
pub fn exists(alloc: Global, store: &mut Store, f: Ref, var: u32) -> Result<Ref, AllocError>
    requires live { IsLive store.old f }
    requires var_in { var < store.old.vars }
    ensures live { IfOk result (λ r. IsLive store.new r) }
    ensures first { IfOk result (λ r. first_var store.old f ≤ first_var store.new r) }
    ensures table { IfOk result (λ r. (a : ℕ → Bool) → table store.new r a ≡ some_at var (table store.old f) a) }
    ensures keeps { Keeps store.old store.new }
    ensures sound { IsReduced store.new }
    ensures canonical { IsCanonical store.new }
    ensures fresh { IfOk result (IsFreshBelow store.old store.new) }
    ensures held { IfOk result (λ r. held store.new ≤ held store.old + beads store.new r) }
{
    let mut known = store.lend();
    let answer = quantify(alloc, store, &mut known, var, f);
    store.take_back(known);
    let _ = store.vars();
    answer
}

/// The conjunction, if it can be made by at most `most` new nodes; none comes only where it has more beads than `most`. At most one node more than that is made.
pub fn and_within(
    alloc: Global,
    store: &mut Store,
    f: Ref,
    g: Ref,
    most: usize,
) -> Result<Option<Ref>, AllocError>
    requires f_live { IsLive store.old f }
    requires g_live { IsLive store.old g }
    ensures live { IfOk result (λ o. IfSome o (λ r. IsLive store.new r)) }
    ensures first { IfOk result (λ o. IfSome o (λ r. min (first_var store.old f) (first_var store.old g) ≤ first_var store.new r)) }
    ensures table { IfOk result (λ o. IfSome o (λ r. (a : ℕ → Bool) → table store.new r a ≡ (table store.old f a && table store.old g a))) }
    ensures keeps { Keeps store.old store.new }
    ensures sound { IsReduced store.new }
    ensures canonical { IsCanonical store.new }
    ensures calls { store.new.calls ≤ store.old.calls + (beads store.old f + 2) * (beads store.old g + 2) }
    ensures fresh { IfOk result (λ o. IfSome o (IsFreshBelow store.old store.new)) }
    ensures held { IfOk result (λ o. IfSome o (λ r. held store.new ≤ held store.old + beads store.new r)) }
    ensures within { IfOk result (λ o. IfSome o (λ r. held store.new ≤ held store.old + most)) }
    ensures large { IfOk result (λ o. IsNone o → most < bead_count store.old.vars (truth_table store.old.vars 0 (λ a. table store.old f a && table store.old g a) ∷ [])) }
    ensures made { held store.new ≤ held store.old + (most + 1) }
{
    let limit = store.held().saturating_add(most);
    let mut known = store.lend();
    let answer = join_within::<true>(alloc, store, &mut known, f, g, limit);
    store.take_back(known);
    let _ = store.vars();
    let _ = store.held();
    match answer {
        Ok(r) => Ok(Some(r)),
        Err(Stop::Large) => Ok(None),
        Err(Stop::OutOfMemory) => Err(AllocError),
    }
}

/// The disjunction, if it can be made by at most `most` new nodes; none comes only where it has more beads than `most`. At most one node more than that is made.
pub fn or_within(
    alloc: Global,
    store: &mut Store,
    f: Ref,
    g: Ref,
    most: usize,
) -> Result<Option<Ref>, AllocError>
    requires f_live { IsLive store.old f }
    requires g_live { IsLive store.old g }
    ensures live { IfOk result (λ o. IfSome o (λ r. IsLive store.new r)) }
    ensures first { IfOk result (λ o. IfSome o (λ r. min (first_var store.old f) (first_var store.old g) ≤ first_var store.new r)) }
    ensures table { IfOk result (λ o. IfSome o (λ r. (a : ℕ → Bool) → table store.new r a ≡ (table store.old f a || table store.old g a))) }
    ensures keeps { Keeps store.old store.new }
    ensures sound { IsReduced store.new }
    ensures canonical { IsCanonical store.new }
    ensures calls { store.new.calls ≤ store.old.calls + (beads store.old f + 2) * (beads store.old g + 2) }
    ensures fresh { IfOk result (λ o. IfSome o (IsFreshBelow store.old store.new)) }
    ensures held { IfOk result (λ o. IfSome o (λ r. held store.new ≤ held store.old + beads store.new r)) }
    ensures within { IfOk result (λ o. IfSome o (λ r. held store.new ≤ held store.old + most)) }
    ensures large { IfOk result (λ o. IsNone o → most < bead_count store.old.vars (truth_table store.old.vars 0 (λ a. table store.old f a || table store.old g a) ∷ [])) }
    ensures made { held store.new ≤ held store.old + (most + 1) }
{
    let limit = store.held().saturating_add(most);
    let mut known = store.lend();
    let answer = join_within::<false>(alloc, store, &mut known, f, g, limit);
    store.take_back(known);
    let _ = store.vars();
    let _ = store.held();
    match answer {
        Ok(r) => Ok(Some(r)),
        Err(Stop::Large) => Ok(None),
        Err(Stop::OutOfMemory) => Err(AllocError),
    }
}

/// The disjunction of the function with the variable at 0 and with it at 1, if it can be made by at most `most` new nodes; none comes only where it has more beads than `most`. At most one node more than that is made.
pub fn exists_within(
    alloc: Global,
    store: &mut Store,
    f: Ref,
    var: u32,
    most: usize,
) -> Result<Option<Ref>, AllocError>
    requires live { IsLive store.old f }
    requires var_in { var < store.old.vars }
    ensures live { IfOk result (λ o. IfSome o (λ r. IsLive store.new r)) }
    ensures first { IfOk result (λ o. IfSome o (λ r. first_var store.old f ≤ first_var store.new r)) }
    ensures table { IfOk result (λ o. IfSome o (λ r. (a : ℕ → Bool) → table store.new r a ≡ some_at var (table store.old f) a)) }
    ensures keeps { Keeps store.old store.new }
    ensures sound { IsReduced store.new }
    ensures canonical { IsCanonical store.new }
    ensures fresh { IfOk result (λ o. IfSome o (IsFreshBelow store.old store.new)) }
    ensures held { IfOk result (λ o. IfSome o (λ r. held store.new ≤ held store.old + beads store.new r)) }
    ensures within { IfOk result (λ o. IfSome o (λ r. held store.new ≤ held store.old + most)) }
    ensures large { IfOk result (λ o. IsNone o → most < bead_count store.old.vars (truth_table store.old.vars 0 (some_at var (table store.old f)) ∷ [])) }
    ensures made { held store.new ≤ held store.old + (most + 1) }
{
    let limit = store.held().saturating_add(most);
    let mut known = store.lend();
    let answer = quantify_within(alloc, store, &mut known, var, f, limit);
    store.take_back(known);
    let _ = store.vars();
    let _ = store.held();
    match answer {
        Ok(r) => Ok(Some(r)),
        Err(Stop::Large) => Ok(None),
        Err(Stop::OutOfMemory) => Err(AllocError),
    }
}
