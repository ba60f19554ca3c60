// Loops of assignments.
ghost use Rattle.std.specs.Prelude.{◌≡◌, ◌∷◌, [], ◌++◌, map, nat_eq, if◌then◌else◌, IfOk, OnOk};
ghost use Rattle.smv_loops.specs.Held.{reading_of};
ghost use Rattle.graph_loops.specs.Walks.{lists, IsShortest};
ghost use Rattle.smv_look_loops.specs.Graphs as spec;
ghost use Rattle.smv_look_loops.specs.Paths.{IsLoopAt};

use crate::shares::first_place;
use graph_loops::edges::Edge;
use graph_loops::search::shortest_loop;
use smv_core::flat::{Design, Family};
use smv_loops::base::undelayed;
use smv_loops::reading::Held;
use std::alloc::{AllocError, Global};

// An edge from one assignment to another, the node of this number, where the first reads a cell that the other concerns.
fn push_edge(
    out: &mut Vec<Edge>,
    families: &[Family],
    a: &Held,
    b: &Held,
    node: usize,
) -> Result<(), AllocError>
    ensures { OnOk result (out.new.items ≡ out.old.items ++ spec.edge_if node (spec.place_of families.now (reading_of a.now) (reading_of b.now))) }
{
    match first_place(families, a.reads.as_slice(), b) {
        None => Ok(()),
        Some(place) => {
            out.push(Edge { to: node, place })?;
            Ok(())
        }
    }
}

// The edges of an assignment.
#[tactic(auto, using(smv_loops::proofs::Listing::listing))]
fn edges_of(
    alloc: Global,
    families: &[Family],
    held: &[Held],
    a: &Held,
) -> Result<Vec<Edge>, AllocError>
    ensures { IfOk result (λ edges. edges.items ≡ spec.row families.now (reading_of a.now) 0 (map reading_of held.now)) }
{
    let mut edges = Vec::new(alloc);
    let mut node: usize = 0;
    for b in held {
        push_edge(&mut edges, families, a, b, node)?;
        node += 1;
    }
    Ok(edges)
}

// The edges of all assignments.
#[tactic(auto, using(smv_loops::proofs::Listing::listing))]
fn graph(alloc: Global, families: &[Family], held: &[Held]) -> Result<Vec<Vec<Edge>>, AllocError>
    ensures { IfOk result (λ graph. lists graph.items ≡ spec.rows families.now (map reading_of held.now)) }
{
    let mut graph = Vec::new(alloc);
    for a in held {
        graph.push(edges_of(alloc, families, held, a)?)?;
    }
    Ok(graph)
}

// The node of this number, where it stands at the place.
fn push_node(out: &mut Vec<usize>, x: &Held, at: u32, node: usize) -> Result<(), AllocError>
    ensures { OnOk result (out.new.items ≡ out.old.items ++ (if nat_eq (reading_of x.now).at at then node ∷ [] else [])) }
{
    if x.at == at {
        out.push(node)?;
    }
    Ok(())
}

// The assignments at a place.
#[tactic(auto, using(smv_loops::proofs::Listing::listing))]
fn nodes_at(alloc: Global, held: &[Held], at: u32) -> Result<Vec<usize>, AllocError>
    ensures { IfOk result (λ nodes. nodes.items ≡ spec.nodes_at at 0 (map reading_of held.now)) }
{
    let mut nodes = Vec::new(alloc);
    let mut node: usize = 0;
    for x in held {
        push_node(&mut nodes, x, at, node)?;
        node += 1;
    }
    Ok(nodes)
}

/// A shortest loop without delay that begins with an assignment at a place: the place of the reference by which that reads a cell of the next one, and so on, back to the first. None where there is
/// no such loop.
pub fn loop_places(alloc: Global, design: &Design, at: u32) -> Result<Vec<u32>, AllocError>
    ensures { IfOk result (λ places. IsShortest (IsLoopAt design.now at) places.items) }
{
    let families = design.families.as_slice();
    let held = undelayed(alloc, design)?;
    let graph = graph(alloc, families, held.as_slice())?;
    let nodes = nodes_at(alloc, held.as_slice(), at)?;
    shortest_loop(alloc, graph.as_slice(), nodes.as_slice())
}
