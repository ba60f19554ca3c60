// The turns of a search.
ghost use Rattle.std.specs.Prelude.{◌≡◌, ℕ, suc, ◌*◌, ◌<◌, ◌||◌, Bool, IfOk, OnOk, List, [], ◌∷◌, ◌++◌, map};
ghost use Rattle.bdd_store.specs.declared.Ref.{Ref};
ghost use Rattle.bdd_store.specs.Diagram.{IsLive, Keeps, table};
ghost use Rattle.smv_rings.specs.Functions.{disj};
ghost use Rattle.smv_rings.specs.Schedule.{Look, functions, turn, kept_at, ring, schedule};
ghost use Rattle.smv_rings.specs.Lists.{IsLists, lists_of};
ghost use Rattle.smv_rings.specs.Ops.{IsOneOf, acts_of, refs_in_all, FitsActs};
ghost use Rattle.law_events.specs.Events.{count, AllUneventful};
ghost use Rattle.smv_search.specs.Keeping.{AllHeld, KeepsRefs, beads_in, IsTally, IsPast};
ghost use Rattle.smv_search.specs.Runs.{IsEnd, IsEndLive};

use super::counts::{Stop, append, most_told};
use super::pace::Pace;
use super::runs::run;
use bdd_ops::or_within;
use bdd_store::{Ref, Store};
use smv_rings::{Op, Rel};
use std::alloc::Global;

/// How a search ends within its budget of nodes.
#[derive(Clone, Copy)]
pub enum End {
    Closed(Ref),
    Reaches(u32),
    OutOfSteps,
}

// The turns from ring 0 on. Each ring is put behind the functions that are live.
pub fn turns(
    alloc: Global,
    rel: &Rel,
    store: &mut Store,
    live: &mut Vec<Ref>,
    pace: &mut Pace,
    plan: &[Op],
    first: Ref,
    nodes: u32,
    steps: u32,
) -> Result<End, Stop>
    requires steps { 0 < steps }
    requires vars { store.old.vars ≡ 2 * rel.now.bits }
    requires lists { IsLists (lists_of store.old rel.now) }
    requires first { IsOneOf first live.old.items }
    requires live { AllHeld store.old live.old.items }
    requires refs { (r : Ref) → IsOneOf r (refs_in_all plan.now) → IsOneOf r live.old.items }
    requires plan { (k : ℕ) → acts_of store.old (suc k) plan.now ≡ turn (lists_of store.old rel.now) k }
    requires fits { (k : ℕ) → FitsActs store.old.vars (ring (lists_of store.old rel.now) k) (acts_of store.old 0 plan.now) }
    requires kept { map (table store.old) live.old.items ≡ kept_at (lists_of store.old rel.now) 0 }
    requires ring { table store.old first ≡ ring (lists_of store.old rel.now) 0 }
    requires passed { AllUneventful (record { vars = store.old.vars; nodes = nodes; images = steps }) (schedule (lists_of store.old rel.now) 0) }
    ensures keeps { KeepsRefs store.old store.new live.old.items }
    ensures end { IsEnd store.new (lists_of store.old rel.now) (record { vars = store.old.vars; nodes = nodes; images = steps }) result }
    ensures rings { (own : List Ref) → live.old.items ≡ own ++ (first ∷ []) → map (table store.old) own ≡ functions (lists_of store.old rel.now) → IsEndLive store.new (lists_of store.old rel.now) own live.new.items result }
{
    let mut last = first;
    for k in 0..steps {
        let Some(image) = run(alloc, store, live, pace, plan, last, nodes)? else {
            return Ok(End::Reaches(k + 1));
        };
        let next = close(alloc, store, live, pace, image, last, nodes)?;
        pace.turned(store);
        let _ = store.vars();
        if next == last {
            return Ok(End::Closed(last));
        }
        live.push(next)?;
        last = next;
    }
    Ok(End::OutOfSteps)
}

// The next ring, counted.
fn close(
    alloc: Global,
    store: &mut Store,
    live: &mut Vec<Ref>,
    pace: &mut Pace,
    image: Ref,
    last: Ref,
    nodes: u32,
) -> Result<Ref, Stop>
    requires image { IsLive store.old image }
    requires last { IsOneOf last live.old.items }
    requires live { AllHeld store.old live.old.items }
    ensures same { OnOk result (live.new.items ≡ live.old.items) }
    ensures keeps { KeepsRefs store.old store.new live.old.items }
    ensures live { IfOk result (λ r. IsLive store.new r) }
    ensures table { IfOk result (λ r. table store.new r ≡ disj (table store.old image) (table store.old last)) }
    ensures count { (look : Look) → IsTally (count store.old.vars (record { kept = map (table store.old) live.old.items; source = table store.old image ∷ []; made = disj (table store.old image) (table store.old last); look = look })) nodes result }
{
    let next = unite(alloc, store, image, last, nodes)?;
    append(store, live, pace, image, next, nodes)?;
    Ok(next)
}

// The disjunction of an image and the last ring, unless it has more beads than are told.
fn unite(alloc: Global, store: &mut Store, image: Ref, last: Ref, nodes: u32) -> Result<Ref, Stop>
    requires image { IsLive store.old image }
    requires last { IsLive store.old last }
    ensures live { IfOk result (λ r. IsLive store.new r) }
    ensures table { IfOk result (λ r. (a : ℕ → Bool) → table store.new r a ≡ (table store.old image a || table store.old last a)) }
    ensures large { IsPast (beads_in store.old.vars (disj (table store.old image) (table store.old last))) nodes result }
    ensures keeps { Keeps store.old store.new }
{
    let most = most_told(nodes);
    match or_within(alloc, store, image, last, most)? {
        Some(next) => Ok(next),
        None => Err(Stop::TooMany(most)),
    }
}
