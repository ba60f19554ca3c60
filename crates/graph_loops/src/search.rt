// Searches for shortest loops, from a node back along edges, all nodes at one distance after another.
ghost use Rattle.std.specs.Prelude.{◌≡◌, ◌≢◌, ◌<◌, ℕ, List, Some, false, true, length, replicate, slice_get, IfOk, MatchOption};
ghost use Rattle.std.specs.List.{Contains};
ghost use Rattle.graph_loops.specs.declared.edges.Edge.{Edge};
ghost use Rattle.graph_loops.specs.declared.edges.Mark.{Mark};
ghost use Rattle.graph_loops.specs.Marks as spec;
ghost use Rattle.graph_loops.specs.Marks.{AreMarks, IsMarked, IsRound, IsFollowed};
ghost use Rattle.graph_loops.specs.Walks.{lists, IsLoop, IsLoopOf, IsShortest};
ghost use Rattle.graph_loops.specs.Walks as walks;

use crate::edges::{Edge, Mark};
use std::alloc::{AllocError, Global};

// Over how many edges a node leads to the target.
fn steps_of(marks: &[Mark], node: usize) -> usize
    ensures { result ≡ spec.steps_of marks.now node }
{
    match marks.get(node) {
        None => 0,
        Some(mark) => mark.steps,
    }
}

// The first of these edges.
fn edge_at(marks: &[Mark], node: usize) -> Edge
    ensures { (mark : Mark) → slice_get marks.now node ≡ Some mark → result ≡ mark.edge }
{
    match marks.get(node) {
        None => Edge { to: node, place: 0 },
        Some(mark) => mark.edge,
    }
}

// Whether a node leads to the target over so many edges; over none the target itself does.
fn is_level(marks: &[Mark], target: usize, steps: usize, node: usize) -> bool
    ensures { result ≡ spec.is_level marks.now target steps node }
{
    if steps == 0 {
        node == target
    } else {
        steps_of(marks, node) == steps
    }
}

// The first of these edges that leads to a node of this level.
fn leading(edges: &[Edge], marks: &[Mark], target: usize, steps: usize) -> Option<Edge>
    ensures { MatchOption result ((e : Edge) → Contains edges.now e → spec.is_level marks.now target steps e.to ≡ false) (λ e. Contains edges.now e × (spec.is_level marks.now target steps e.to ≡ true)) }
{
    for edge in edges {
        if is_level(marks, target, steps, edge.to) {
            return Some(*edge);
        }
    }
    None
}

// The mark of a node with these edges behind this level.
fn marked(edges: &[Edge], marks: &[Mark], target: usize, steps: usize, old: Mark) -> Mark
    requires { steps < 18446744073709551615 }
    ensures { IsMarked edges.now marks.now target steps old result }
{
    if old.steps > 0 {
        return old;
    }
    match leading(edges, marks, target, steps) {
        None => old,
        Some(edge) => Mark {
            steps: steps + 1,
            edge,
        },
    }
}

// The edges that leave a node.
fn edges_at<'a>(graph: &'a [Vec<Edge>], node: usize) -> &'a [Edge]
    ensures { result.now ≡ walks.leaving (lists graph.now) node }
{
    match graph.get(node) {
        None => &[],
        Some(edges) => edges.as_slice(),
    }
}

// The mark of a node behind this level, where it had one.
fn next_mark(graph: &[Vec<Edge>], marks: &[Mark], target: usize, steps: usize, node: usize) -> Mark
    requires { steps < 18446744073709551615 }
    ensures { (old : Mark) → slice_get marks.now node ≡ Some old → IsMarked (walks.leaving (lists graph.now) node) marks.now target steps old result }
{
    match marks.get(node) {
        None => unmarked(),
        Some(old) => marked(edges_at(graph, node), marks, target, steps, *old),
    }
}

// The marks of all nodes behind this level.
fn round(
    alloc: Global,
    graph: &[Vec<Edge>],
    marks: &[Mark],
    target: usize,
    steps: usize,
) -> Result<Vec<Mark>, AllocError>
    requires { steps < 18446744073709551615 }
    ensures { IfOk result (λ new. IsRound (lists graph.now) marks.now target steps new.items) }
{
    let mut new = Vec::new(alloc);
    for node in 0..marks.len() {
        let mark = next_mark(graph, marks, target, steps, node);
        new.push(mark)?;
    }
    Ok(new)
}

// Whether a node leads to the target over so many edges.
fn has_level(marks: &[Mark], steps: usize) -> bool
    ensures { result ≡ false → (node : ℕ) (mark : Mark) → slice_get marks.now node ≡ Some mark → mark.steps ≢ steps }
{
    for mark in marks {
        if mark.steps == steps {
            return true;
        }
    }
    false
}

// A node that has no mark.
fn unmarked() -> Mark
    ensures { result ≡ spec.unmarked }
{
    Mark {
        steps: 0,
        edge: Edge { to: 0, place: 0 },
    }
}

// No node is marked.
fn none_yet(alloc: Global, nodes: usize) -> Result<Vec<Mark>, AllocError>
    ensures { IfOk result (λ marks. marks.items ≡ replicate nodes spec.unmarked) }
{
    vec![in alloc; unmarked(); nodes]
}

// The places of the edges over which a node leads to the target.
fn followed(alloc: Global, marks: &[Mark], node: usize) -> Result<Vec<u32>, AllocError>
    ensures { (graph : List (List Edge)) (target most : ℕ) → AreMarks graph target most marks.now → 0 < spec.steps_of marks.now node → IfOk result (λ places. IsFollowed graph marks.now target node places.items) }
{
    let mut places = Vec::new(alloc);
    let mut at = node;
    for _turn in 1..steps_of(marks, node) {
        let edge = edge_at(marks, at);
        places.push(edge.place)?;
        at = edge.to;
    }
    places.push(edge_at(marks, at).place)?;
    Ok(places)
}

// A shortest loop through a node; no places where there is none.
fn loop_through(alloc: Global, graph: &[Vec<Edge>], target: usize) -> Result<Vec<u32>, AllocError>
    ensures { IfOk result (λ places. IsShortest (IsLoop (lists graph.now) target) places.items) }
{
    let mut marks = none_yet(alloc, graph.len())?;
    for steps in 0..usize::MAX {
        let more = round(alloc, graph, marks.as_slice(), target, steps)?;
        if steps_of(more.as_slice(), target) > 0 {
            return followed(alloc, more.as_slice(), target);
        }
        if !has_level(more.as_slice(), steps + 1) {
            return Ok(Vec::new(alloc));
        }
        marks = more;
    }
    Err(AllocError)
}

// The shorter of two loops, of which either may be none.
fn shorter(best: Vec<u32>, found: Vec<u32>) -> Vec<u32>
    ensures { result.items ≡ walks.shorter best.items found.items }
{
    if found.is_empty() {
        return best;
    }
    if best.is_empty() {
        return found;
    }
    if found.len() < best.len() {
        found
    } else {
        best
    }
}

/// A shortest one of the loops through these nodes, by the places of its edges from that node on; no places where there is no loop.
pub fn shortest_loop(
    alloc: Global,
    graph: &[Vec<Edge>],
    targets: &[usize],
) -> Result<Vec<u32>, AllocError>
    ensures { IfOk result (λ places. IsShortest (IsLoopOf (lists graph.now) targets.now) places.items) }
{
    let mut best = Vec::new(alloc);
    for target in targets {
        let found = loop_through(alloc, graph, *target)?;
        best = shorter(best, found);
    }
    Ok(best)
}
