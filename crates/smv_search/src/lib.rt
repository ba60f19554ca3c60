//! The search over decision diagrams: it decides one case by the rings of its states, within a budget of nodes and one of images.
//!
//! For verdicts. It answers the first event of the schedule (`specs/Verdict`); what it keeps alive is exactly what the schedule counts.
#![tactic(auto)]

ghost use Rattle.std.specs.Prelude.{◌≡◌, ℕ, ◌≤◌, ◌<◌, IfOk, OnOk, List, ◌++◌, drop, length};
ghost use Rattle.bdd_store.specs.declared.Ref.{Ref};
ghost use Rattle.bdd_store.specs.Beads.{bead_count};
ghost use Rattle.bdd_store.specs.Diagram.{Diagram, IsLive, IsKept, held, tables_of};
ghost use Rattle.smv_rings.specs.Lists.{Lists, IsRel, lists_of, refs_of};
ghost use Rattle.smv_rings.specs.Ops.{IsOneOf};
ghost use Rattle.smv_search.specs.Keeping.{KeepsRefs};
ghost use Rattle.law_events.specs.Events.{Budget};
ghost use Rattle.smv_search.specs.Runs.{IsEnd, IsEndLive};
ghost use Rattle.smv_search.specs.Answers.{found, Answers, IsProof, IsLeast, IsFew, Begins, IsTold};

use bdd_store::{Ref, Store};
use smv_rings::{Rel, plan};
use std::alloc::{AllocError, Global};

mod counts;
mod pace;
mod runs;
mod turns;

use counts::{Stop, take_in};
use pace::Pace;
use runs::{first, openers, run};
use turns::{End, turns};

/// What a search finds.
#[derive(Drop)]
pub enum Outcome {
    /// No violating path of any length exists: this ring equals the next one.
    Closed { set: Ref },
    /// The shortest violating paths have so many steps; ring 0 to the ring before their last state.
    Reaches { depth: u32, rings: Vec<Ref> },
    /// The functions that had to be live have so many beads, or more where this is a million past the budget.
    OutOfNodes { count: usize },
    /// So many images were made as the budget allows, and the last ring differed from the one before it.
    OutOfSteps,
}

/// Decides a case by the first event of its schedule.
pub fn search(
    alloc: Global,
    rel: &Rel,
    store: &mut Store,
    nodes: u32,
    steps: u32,
) -> Result<Outcome, AllocError>
    requires rel { IsRel store.old rel.now }
    requires steps { 1 ≤ steps }
    ensures verdict { IfOk result (Answers store.new (lists_of store.old rel.now) nodes steps) }

    // What the verdict means.
    ensures true_case { IfOk result (IsProof store.new (lists_of store.old rel.now) nodes) }
    ensures false_case { IfOk result (IsLeast (lists_of store.old rel.now)) }
    ensures steps_case { IfOk result (IsFew (lists_of store.old rel.now) steps) }

    // What stays, also after a refusal.
    ensures keeps { KeepsRefs store.old store.new (refs_of rel.now) }

    // What is live.
    ensures found { IfOk result (λ o. (r : Ref) → IsOneOf r (found o) → IsLive store.new r) }
    ensures only { IfOk result (λ o. (r : Ref) → IsLive store.new r → IsKept store.new (refs_of rel.now ++ found o) r) }
    ensures held { IfOk result (λ o. held store.new ≡ bead_count store.new.vars (tables_of store.new (refs_of rel.now ++ found o))) }
{
    let mut live = refs(alloc, rel)?;
    let own = live.len();
    let end = decide(alloc, rel, store, &mut live, nodes, steps);
    let outcome = told(alloc, &live, own, end)?;
    let mut roots = refs(alloc, rel)?;
    push_found(&mut roots, &outcome)?;
    store.sweep(&roots);
    Ok(outcome)
}

// The functions of the lists, in order.
fn refs(alloc: Global, rel: &Rel) -> Result<Vec<Ref>, AllocError>
    ensures { IfOk result (λ v. v.items ≡ refs_of rel.now) }
{
    let mut refs = Vec::new(alloc);
    refs.extend_from_slice(&rel.now_first)?;
    refs.extend_from_slice(&rel.before_first)?;
    refs.push(rel.broken_first)?;
    refs.extend_from_slice(&rel.now_step)?;
    refs.extend_from_slice(&rel.before_step)?;
    refs.push(rel.broken_step)?;
    Ok(refs)
}

// The schedule up to its first event.
fn decide(
    alloc: Global,
    rel: &Rel,
    store: &mut Store,
    live: &mut Vec<Ref>,
    nodes: u32,
    steps: u32,
) -> Result<End, Stop>
    requires rel { IsRel store.old rel.now }
    requires steps { 0 < steps }
    requires own { live.old.items ≡ refs_of rel.now }
    ensures keeps { KeepsRefs store.old store.new (refs_of rel.now) }
    ensures end { IsEnd store.new (lists_of store.old rel.now) (record { vars = store.old.vars; nodes = nodes; images = steps }) result }
    ensures rings { IsEndLive store.new (lists_of store.old rel.now) (refs_of rel.now) live.new.items result }
{
    let mut pace = Pace::new(store);
    let Some(ring) = begin(alloc, rel, store, live, &mut pace, nodes)? else {
        return Ok(End::Reaches(0));
    };
    live.push(ring)?;
    let turn = plan(alloc, rel, store)?;
    turns(
        alloc, rel, store, live, &mut pace, &turn, ring, nodes, steps,
    )
}

// Ring 0, or none where a state at time 0 is broken.
fn begin(
    alloc: Global,
    rel: &Rel,
    store: &mut Store,
    live: &mut Vec<Ref>,
    pace: &mut Pace,
    nodes: u32,
) -> Result<Option<Ref>, Stop>
    requires rel { IsRel store.old rel.now }
    requires own { live.old.items ≡ refs_of rel.now }
    ensures same { OnOk result (live.new.items ≡ live.old.items) }
    ensures keeps { KeepsRefs store.old store.new (refs_of rel.now) }
    ensures begins { (images : ℕ) → Begins store.new (lists_of store.old rel.now) (record { vars = store.old.vars; nodes = nodes; images = images }) result }
{
    take_in(store, live, nodes)?;
    let ops = openers(alloc, rel)?;
    let start = first(rel, store);
    run(alloc, store, live, pace, &ops, start, nodes)
}

// The outcome. The rings stand behind the functions of the lists.
fn told(
    alloc: Global,
    live: &[Ref],
    own: usize,
    end: Result<End, Stop>,
) -> Result<Outcome, AllocError>
    ensures { IfOk result (λ o. (d : Diagram) (l : Lists) (b : Budget) (refs : List Ref) → own ≡ length refs → IsEnd d l b end → IsEndLive d l refs live.now end → IsTold d l b o) }
{
    match end {
        Ok(End::Closed(set)) => Ok(Outcome::Closed { set }),
        Ok(End::Reaches(depth)) => {
            let rings = behind(alloc, live, own)?;
            Ok(Outcome::Reaches { depth, rings })
        }
        Ok(End::OutOfSteps) => Ok(Outcome::OutOfSteps),
        Err(Stop::TooMany(count)) => Ok(Outcome::OutOfNodes { count }),
        Err(Stop::OutOfMemory) => Err(AllocError),
    }
}

// What stands behind so many.
fn behind(alloc: Global, live: &[Ref], own: usize) -> Result<Vec<Ref>, AllocError>
    ensures { IfOk result (λ v. v.items ≡ drop own live.now) }
{
    let mut rings = Vec::new(alloc);
    if own < live.len() {
        rings.extend_from_slice(&live[own..])?;
    }
    Ok(rings)
}

// The functions of an outcome.
fn push_found(roots: &mut Vec<Ref>, outcome: &Outcome) -> Result<(), AllocError>
    ensures { OnOk result (roots.new.items ≡ roots.old.items ++ found outcome.now) }
{
    match outcome {
        Outcome::Closed { set } => roots.push(*set)?,
        Outcome::Reaches { depth: _, rings } => roots.extend_from_slice(rings)?,
        Outcome::OutOfNodes { count: _ } => {}
        Outcome::OutOfSteps => {}
    }
    Ok(())
}
