// A search through a graph, by a worklist of numbers.
ghost use Rattle.std.specs.Prelude.{◌≡◌, ◌<◌, ◌↔◌, ℕ, [], ◌∷◌, false, vec_len, replicate, IfOk, OnOk};
ghost use Rattle.std.specs.List.{Contains};
ghost use Rattle.graph_search.specs.Walks.{lists, follow, Walk};
ghost use Rattle.graph_search.specs.Searches.{IsSeen, IsQueue, IsExplored, Saw};

use std::alloc::{AllocError, Global};

/// Puts behind the nodes of a queue all that they lead to and that were not seen before. Each node is followed by those in the list that `next` names.
pub fn explore(
    graph: &[Vec<usize>],
    next: &[usize],
    seen: &mut Vec<bool>,
    queue: &mut Vec<usize>,
) -> Result<(), AllocError>
    requires nodes { (x y : ℕ) → Contains (follow (lists graph.now) next.now x) y → y < vec_len seen.old }
    requires queue { IsQueue seen.old.items queue.old.items }
    ensures { OnOk result (IsExplored (follow (lists graph.now) next.now) seen.old.items seen.new.items queue.old.items queue.new.items) }
{
    for turn in 0..seen.len() {
        if turn >= queue.len() {
            return Ok(());
        }
        see_all(seen, queue, following(graph, next, queue[turn]))?;
    }
    Ok(())
}

// The nodes that follow a node.
fn following<'a>(graph: &'a [Vec<usize>], next: &[usize], node: usize) -> &'a [usize]
    ensures { result.now ≡ follow (lists graph.now) next.now node }
{
    match next.get(node) {
        None => &[],
        Some(place) => match graph.get(*place) {
            None => &[],
            Some(list) => list.as_slice(),
        },
    }
}

/// These nodes wait in the queue, unless they were seen before.
pub fn see_all(
    seen: &mut Vec<bool>,
    queue: &mut Vec<usize>,
    nodes: &[usize],
) -> Result<(), AllocError>
    requires { (x : ℕ) → Contains nodes.now x → x < vec_len seen.old }
    ensures { OnOk result (Saw nodes.now seen.old.items seen.new.items queue.old.items queue.new.items) }
{
    for node in nodes {
        see(seen, queue, *node)?;
    }
    Ok(())
}

// A node waits in the queue, unless it was seen before.
fn see(seen: &mut Vec<bool>, queue: &mut Vec<usize>, node: usize) -> Result<(), AllocError>
    requires { node < vec_len seen.old }
    ensures { OnOk result (Saw (node ∷ []) seen.old.items seen.new.items queue.old.items queue.new.items) }
{
    if !seen[node] {
        queue.push(node)?;
        seen[node] = true;
    }
    Ok(())
}

/// What a start leads to along the lists that `next` names.
pub fn reached(
    alloc: Global,
    graph: &[Vec<usize>],
    next: &[usize],
    nodes: usize,
    start: usize,
) -> Result<Vec<bool>, AllocError>
    requires nodes { (x y : ℕ) → Contains (follow (lists graph.now) next.now x) y → y < nodes }
    requires start { start < nodes }
    ensures { IfOk result (λ marks. (x : ℕ) → IsSeen marks.items x ↔ Walk (follow (lists graph.now) next.now) start x) }
{
    let mut seen = unseen(alloc, nodes)?;
    let mut queue = Vec::new(alloc);
    see(&mut seen, &mut queue, start)?;
    explore(graph, next, &mut seen, &mut queue)?;
    Ok(seen)
}

/// No node was seen.
pub fn unseen(alloc: Global, nodes: usize) -> Result<Vec<bool>, AllocError>
    ensures { IfOk result (λ seen. seen.items ≡ replicate nodes false) }
{
    vec![in alloc; false; nodes]
}
