// Whether labels hold, by one node of each label that leads to all of its nodes, and to which all of them lead.
ghost use Rattle.std.specs.Prelude.{◌≡◌, ◌≤◌, ◌<◌, ℕ, true, false, length, slice_index, slice_index_or, vec_len, IfOk, OnOk};
ghost use Rattle.std.specs.List.{Contains};
ghost use Rattle.graph_search.specs.Walks.{lists};
ghost use Rattle.graph_search.specs.Reverse.{IsGraph};
ghost use Rattle.graph_components.specs.Components.{AreComponents, AreRoots, IsAllFound, IsJoined, Rises};
ghost use Rattle.graph_components.specs.Inner as spec;

use crate::label;
use graph_search::reverse::{numbers, reverse};
use graph_search::search::{explore, see_all, unseen};
use std::alloc::{AllocError, Global};

/// Whether labels are those of components.
pub fn hold(alloc: Global, graph: &[Vec<usize>], labels: &[usize]) -> Result<bool, AllocError>
    requires { IsGraph (lists graph.now) }
    ensures { IfOk result (λ yes. yes ≡ true → AreComponents (lists graph.now) labels.now) }
{
    if labels.len() != graph.len() || !rises(graph, labels) {
        return Ok(false);
    }
    let inner = inner(alloc, graph, labels)?;
    let roots = roots(alloc, labels)?;
    let joined = joined(alloc, inner.as_slice(), roots.as_slice())?;
    Ok(joined)
}

// Whether labels do not fall along edges.
fn rises(graph: &[Vec<usize>], labels: &[usize]) -> bool
    ensures { result ≡ true → Rises (lists graph.now) labels.now }
{
    for node in 0..graph.len() {
        if !none_below(labels, label(labels, node), graph[node].as_slice()) {
            return false;
        }
    }
    true
}

// Whether none of these nodes has a lower label than this.
fn none_below(labels: &[usize], least: usize, nodes: &[usize]) -> bool
    ensures { result ≡ true → (x : ℕ) → Contains nodes.now x → least ≤ slice_index labels.now x }
{
    for node in nodes {
        if label(labels, *node) < least {
            return false;
        }
    }
    true
}

// The edges that join nodes of one label.
fn inner(
    alloc: Global,
    graph: &[Vec<usize>],
    labels: &[usize],
) -> Result<Vec<Vec<usize>>, AllocError>
    ensures { IfOk result (λ inner. lists inner.items ≡ spec.inner labels.now 0 (lists graph.now)) }
{
    let mut inner = Vec::new(alloc);
    for node in 0..graph.len() {
        inner.push(alike(alloc, labels, label(labels, node), graph[node].as_slice())?)?;
    }
    Ok(inner)
}

// Those of some nodes that have this label.
fn alike(
    alloc: Global,
    labels: &[usize],
    of: usize,
    nodes: &[usize],
) -> Result<Vec<usize>, AllocError>
    ensures { IfOk result (λ alike. alike.items ≡ spec.alike labels.now of nodes.now) }
{
    let mut alike = Vec::new(alloc);
    for node in nodes {
        if label(labels, *node) == of {
            alike.push(*node)?;
        }
    }
    Ok(alike)
}

// The first node of each label below the number of nodes.
fn roots(alloc: Global, labels: &[usize]) -> Result<Vec<usize>, AllocError>
    ensures { IfOk result (λ roots. AreRoots labels.now roots.items) }
{
    let mut met = unseen(alloc, labels.len())?;
    let mut roots = Vec::new(alloc);
    for node in 0..labels.len() {
        meet(&mut met, &mut roots, labels, node)?;
    }
    Ok(roots)
}

// A node is one of them where its label was not met.
fn meet(
    met: &mut Vec<bool>,
    roots: &mut Vec<usize>,
    labels: &[usize],
    node: usize,
) -> Result<(), AllocError>
    requires room { vec_len met.old ≡ length labels.now }
    requires node { node < length labels.now }
    ensures room { OnOk result (vec_len met.new ≡ length labels.now) }
    ensures met { OnOk result (spec.AreMet labels.now met.old.items roots.old.items → spec.AreMet labels.now met.new.items roots.new.items) }
{
    let label = labels[node];
    if label < met.len() && !met[label] {
        met[label] = true;
        roots.push(node)?;
    }
    Ok(())
}

// Whether walks lead from some nodes to each node, and back.
fn joined(alloc: Global, graph: &[Vec<usize>], roots: &[usize]) -> Result<bool, AllocError>
    requires graph { IsGraph (lists graph.now) }
    requires roots { (x : ℕ) → Contains roots.now x → x < length graph.now }
    ensures { IfOk result (λ yes. yes ≡ true → IsJoined (lists graph.now) roots.now) }
{
    let found = all_found(alloc, graph, roots)?;
    if !found {
        return Ok(false);
    }
    let back = reverse(alloc, graph)?;
    let found_back = all_found(alloc, back.as_slice(), roots)?;
    Ok(found_back)
}

// Whether walks lead from some nodes to each node.
fn all_found(alloc: Global, graph: &[Vec<usize>], roots: &[usize]) -> Result<bool, AllocError>
    requires graph { IsGraph (lists graph.now) }
    requires roots { (x : ℕ) → Contains roots.now x → x < length graph.now }
    ensures { IfOk result (λ yes. yes ≡ true → IsAllFound (lists graph.now) roots.now) }
{
    let numbers = numbers(alloc, graph.len())?;
    let mut marks = unseen(alloc, graph.len())?;
    let mut queue = Vec::new(alloc);
    see_all(&mut marks, &mut queue, roots)?;
    explore(graph, numbers.as_slice(), &mut marks, &mut queue)?;
    Ok(all_marked(marks.as_slice()))
}

// Whether all are marked.
fn all_marked(marks: &[bool]) -> bool
    ensures { result ≡ true → (k : ℕ) → k < length marks.now → slice_index_or marks.now k false ≡ true }
{
    for mark in marks {
        if !*mark {
            return false;
        }
    }
    true
}
