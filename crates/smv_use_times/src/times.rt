// The times of uses, by the graph of those that are open.
ghost use Rattle.std.specs.Prelude.{◌≡◌, ◌++◌, flat_map, map, IfOk, OnOk};
ghost use Rattle.graph_search.specs.Walks.{lists};
ghost use Rattle.graph_search.specs.Reverse.{IsGraph};
ghost use Rattle.smv_use_times.specs.Uses.{held};
ghost use Rattle.smv_use_times.specs.Times.{edge_of, edges_from, edges_of, time_by, timed_by, times_from};

use crate::uses::{LeafUses, Use};
use graph_components::{components, label};
use smv_core::flat::{Timed, Timing};
use smv_core::seq::Seq;
use std::alloc::{AllocError, Global};

/// The times of the uses of each leaf.
#[tactic(auto, using(smv_unit_tables::proofs::ReadLaws::listing))]
pub(crate) fn all_times(alloc: Global, all: &[LeafUses]) -> Result<Vec<Timed>, AllocError>
    requires { IsGraph (edges_from 0 (map held all.now)) }
    ensures { IfOk result (λ times. times.items ≡ times_from (edges_from 0 (map held all.now)) 0 (map held all.now)) }
{
    let graph = graph(alloc, all)?;
    let labels = components(alloc, graph.as_slice())?;
    let mut times = Vec::new(alloc);
    for place in 0..all.len() {
        times.push(leaf_times(alloc, labels.as_slice(), place, &all[place])?)?;
    }
    Ok(times)
}

// The graph of the open uses: of each leaf's unit on the units that it uses.
fn graph(alloc: Global, all: &[LeafUses]) -> Result<Vec<Vec<usize>>, AllocError>
    ensures { IfOk result (λ graph. lists graph.items ≡ edges_from 0 (map held all.now)) }
{
    let mut graph = Vec::new(alloc);
    for place in 0..all.len() {
        graph.push(edges(alloc, place, &all[place])?)?;
    }
    Ok(graph)
}

fn edges(alloc: Global, place: usize, uses: &LeafUses) -> Result<Vec<usize>, AllocError>
    ensures { IfOk result (λ edges. edges.items ≡ edges_of place (held uses.now)) }
{
    let mut edges = Vec::new(alloc);
    add_edges(&mut edges, place, uses.picks.as_slice())?;
    add_edges(&mut edges, place, uses.claims.as_slice())?;
    Ok(edges)
}

#[tactic(auto, using(smv_unit_tables::proofs::ReadLaws::listing))]
fn add_edges(edges: &mut Vec<usize>, place: usize, uses: &[Use]) -> Result<(), AllocError>
    ensures { OnOk result (edges.new.items ≡ edges.old.items ++ flat_map (edge_of place) uses.now) }
{
    for x in uses {
        add_edge(edges, place, *x)?;
    }
    Ok(())
}

fn add_edge(edges: &mut Vec<usize>, place: usize, x: Use) -> Result<(), AllocError>
    ensures { OnOk result (edges.new.items ≡ edges.old.items ++ edge_of place x) }
{
    match x {
        Use::Settled { .. } => Ok(()),
        Use::Open { unit } => {
            if unit != place {
                edges.push(unit)?;
            }
            Ok(())
        }
    }
}

// The times of a leaf's uses.
fn leaf_times(
    alloc: Global,
    labels: &[usize],
    place: usize,
    uses: &LeafUses,
) -> Result<Timed, AllocError>
    ensures { IfOk result (λ timed. timed ≡ timed_by labels.now place (held uses.now)) }
{
    let picks = times_by(alloc, labels, place, uses.picks.as_slice())?;
    let claims = times_by(alloc, labels, place, uses.claims.as_slice())?;
    Ok(Timed { picks, claims })
}

// The times of uses, by labels of components.
#[tactic(auto, using(smv_unit_tables::proofs::ReadLaws::listing))]
fn times_by(
    alloc: Global,
    labels: &[usize],
    place: usize,
    uses: &[Use],
) -> Result<Seq<Timing>, AllocError>
    ensures { IfOk result (λ times. times ≡ map (time_by labels.now place) uses.now) }
{
    let mut times = Seq::new(alloc);
    for x in uses {
        times.push(time(labels, place, *x))?;
    }
    Ok(times)
}

// The time of a use: now, unless it is of the unit itself, or of a later one of the same component.
fn time(labels: &[usize], place: usize, x: Use) -> Timing
    ensures { result ≡ time_by labels.now place x }
{
    match x {
        Use::Settled { time } => time,
        Use::Open { unit } => {
            if unit == place {
                return Timing::Before;
            }
            if label(labels, unit) != label(labels, place) || unit < place {
                Timing::Now
            } else {
                Timing::Before
            }
        }
    }
}
