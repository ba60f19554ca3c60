// Ranks of nodes, by which cycles are ruled out without a search.
ghost use Rattle.std.specs.Prelude.{◌≡◌, ◌<◌, length, true, IfOk, MatchBool};
ghost use Rattle.std.specs.List.{All, Any};
ghost use Rattle.graph_search.specs.Searches.{IsSeen};
ghost use Rattle.graphs.specs.Graph.{lists, next, reaches, IsGraph};
ghost use Rattle.graphs.specs.Ranks.{rank, IsNoneAbove, Descends, IsOrder};
ghost use Rattle.graphs.specs.Placed.{HasNone, Placed, Came};

use crate::reach::{has_mark, reaches};
use graph_search::search::unseen;
use std::alloc::{AllocError, Global};

/// Ranks that no edge raises. Where the graph has no cycle, each edge lowers them.
pub fn ranks(alloc: Global, graph: &[Vec<usize>]) -> Result<Vec<usize>, AllocError>
    ensures { IfOk result (λ ranks. Descends (lists graph.now) ranks.items) }
{
    let order = order(alloc, graph)?;
    let ranks = ranks_of(alloc, graph.len(), order.as_slice())?;
    if descends(graph, ranks.as_slice()) {
        return Ok(ranks);
    }
    Ok(Vec::new(alloc))
}

/// Whether a node leads back to another one, of which it is told whether it has a lower rank.
pub fn leads_back(
    alloc: Global,
    graph: &[Vec<usize>],
    ranks: &[usize],
    target: usize,
    start: usize,
) -> Result<bool, AllocError>
    requires edges { IsGraph (lists graph.now) }
    requires ranks { Descends (lists graph.now) ranks.now }
    requires start { start < length graph.now }
    ensures { IfOk result (λ found. found ≡ reaches (lists graph.now) (length graph.now) target start) }
{
    if rank(ranks, start) < rank(ranks, target) {
        return Ok(false);
    }
    reaches(alloc, graph, target, start)
}

// No edge raises the rank.
fn descends(graph: &[Vec<usize>], ranks: &[usize]) -> bool
    ensures { result ≡ true → Descends (lists graph.now) ranks.now }
{
    for node in 0..graph.len() {
        if !none_above(ranks, rank(ranks, node), edges(graph, node)) {
            return false;
        }
    }
    true
}

// None of these nodes has a higher rank than this.
fn none_above(ranks: &[usize], most: usize, nodes: &[usize]) -> bool
    ensures { result ≡ true → IsNoneAbove ranks.now most nodes.now }
{
    for node in nodes {
        if rank(ranks, *node) > most {
            return false;
        }
    }
    true
}

// The rank of a node.
fn rank(ranks: &[usize], node: usize) -> usize
    ensures { result ≡ rank ranks.now node }
{
    ranks.get(node).copied().unwrap_or(0)
}

// The rank of a node is its place in the order. Those that have none come last.
fn ranks_of(alloc: Global, nodes: usize, order: &[usize]) -> Result<Vec<usize>, AllocError> {
    let mut ranks = vec![in alloc; nodes; nodes]?;
    for (place, node) in order.iter().enumerate() {
        if let Some(rank) = ranks.get_mut(*node) {
            *rank = place;
        }
    }
    Ok(ranks)
}

/// The nodes that lead to no cycle, each behind all to which it has an edge.
pub fn order(alloc: Global, graph: &[Vec<usize>]) -> Result<Vec<usize>, AllocError>
    ensures { IfOk result (λ order. IsOrder (lists graph.now) order.items) }
{
    let tried = tried(alloc, graph)?;
    let mut placed = unseen(alloc, graph.len())?;
    let mut order = Vec::new(alloc);
    for node in &tried {
        if *node < graph.len() {
            place(graph, &mut placed, &mut order, *node)?;
        }
    }
    'rounds: loop {
        if !place_all(graph, &mut placed, &mut order)? {
            return Ok(order);
        }
    }
}

// A round: each node that can come next comes. Whether one came.
fn place_all(
    graph: &[Vec<usize>],
    placed: &mut Vec<bool>,
    order: &mut Vec<usize>,
) -> Result<bool, AllocError>
    requires { Placed (lists graph.now) placed.old.items order.old.items }
    ensures { IfOk result (λ came. Came (lists graph.now) (λ x. x < length graph.now) placed.old.items placed.new.items order.old.items order.new.items came) }
{
    let mut came = false;
    for node in 0..graph.len() {
        if place(graph, placed, order, node)? {
            came = true;
        }
    }
    Ok(came)
}

// A node comes next, where it has no place yet and each to which it has an edge has one. Whether it came.
fn place(
    graph: &[Vec<usize>],
    placed: &mut Vec<bool>,
    order: &mut Vec<usize>,
    node: usize,
) -> Result<bool, AllocError>
    requires so_far { Placed (lists graph.now) placed.old.items order.old.items }
    requires node { node < length graph.now }
    ensures { IfOk result (λ came. Came (lists graph.now) (λ x. x ≡ node) placed.old.items placed.new.items order.old.items order.new.items came) }
{
    if placed[node] || !all_placed(placed.as_slice(), edges(graph, node)) {
        return Ok(false);
    }
    order.push(node)?;
    placed[node] = true;
    Ok(true)
}

// Whether each of these nodes has a place.
fn all_placed(placed: &[bool], nodes: &[usize]) -> bool
    ensures { MatchBool result (All (IsSeen placed.now) nodes.now) (Any (HasNone placed.now) nodes.now) }
{
    for node in nodes {
        if !has_mark(placed, *node) {
            return false;
        }
    }
    true
}

// The nodes to which a node has an edge.
#[tactic(auto, using(crate::proofs::HeldLaws::next_held))]
fn edges<'a>(graph: &'a [Vec<usize>], node: usize) -> &'a [usize]
    requires { node < length graph.now }
    ensures { result.now ≡ next (lists graph.now) node }
{
    graph[node].as_slice()
}

// The nodes that lead to no cycle, each behind all to which it has an edge. It is an order to try: nothing rests on it.
fn tried(alloc: Global, graph: &[Vec<usize>]) -> Result<Vec<usize>, AllocError> {
    let users = users(alloc, graph)?;
    let mut open = Vec::new(alloc);
    let mut order = Vec::new(alloc);
    for (node, edges) in graph.iter().enumerate() {
        open.push(edges.len())?;
        if edges.is_empty() {
            order.push(node)?;
        }
    }
    for turn in 0..graph.len() {
        let Some(node) = order.get(turn).copied() else {
            break;
        };
        if let Some(users) = users.get(node) {
            close(&mut open, &mut order, users.as_slice())?;
        }
    }
    Ok(order)
}

// One edge less is open for each of these nodes, and a node with none left comes next.
fn close(open: &mut Vec<usize>, order: &mut Vec<usize>, users: &[usize]) -> Result<(), AllocError> {
    for user in users {
        if let Some(count) = open.get_mut(*user) {
            *count = count.saturating_sub(1);
            if *count == 0 {
                order.push(*user)?;
            }
        }
    }
    Ok(())
}

// The nodes that have an edge to a node.
fn users(alloc: Global, graph: &[Vec<usize>]) -> Result<Vec<Vec<usize>>, AllocError> {
    let mut users: Vec<Vec<usize>> = Vec::new(alloc);
    for _ in graph {
        users.push(Vec::new(alloc))?;
    }
    for (node, edges) in graph.iter().enumerate() {
        for other in edges.as_slice() {
            if let Some(list) = users.get_mut(*other) {
                list.push(node)?;
            }
        }
    }
    Ok(users)
}
