// Labels to try: those of components, from the first ones along the edges on. Nothing rests on them but that there is one for each node.
ghost use Rattle.std.specs.Prelude.{◌≡◌, length, IfOk, OnOk};
ghost use Rattle.graph_search.specs.Walks.{lists};
ghost use Rattle.graph_search.specs.Reverse.{IsGraph};

use graph_search::reverse::reverse;
use std::alloc::{AllocError, Global};

// A depth-first search: which nodes were seen, how many edges of each were followed, the nodes on the way, and those that were left, in that order.
#[derive(Drop)]
struct Search {
    seen: Vec<bool>,
    followed: Vec<usize>,
    way: Vec<usize>,
    left: Vec<usize>,
}

/// A label for each node: the nodes are taken in the order in which a search left them, the last first, and each gives its label to all that lead to it and
/// have none.
pub fn tried(alloc: Global, graph: &[Vec<usize>]) -> Result<Vec<usize>, AllocError>
    requires { IsGraph (lists graph.now) }
    ensures { IfOk result (λ labels. length labels.items ≡ length graph.now) }
{
    let left = nodes_left(alloc, graph)?;
    let back = reverse(alloc, graph)?;
    let mut labels = vec![in alloc; graph.len(); graph.len()]?;
    let mut label = 0;
    for node in left.iter().rev() {
        if give(&mut labels, *node, label) {
            spread(alloc, back.as_slice(), &mut labels, *node, label)?;
            label = label.saturating_add(1);
        }
    }
    Ok(labels)
}

// The nodes in the order in which a depth-first search leaves them.
fn nodes_left(alloc: Global, graph: &[Vec<usize>]) -> Result<Vec<usize>, AllocError> {
    let mut search = Search {
        seen: vec![in alloc; false; graph.len()]?,
        followed: vec![in alloc; 0; graph.len()]?,
        way: Vec::new(alloc),
        left: Vec::new(alloc),
    };
    for node in 0..graph.len() {
        search_from(graph, &mut search, node)?;
    }
    Ok(search.left)
}

// Goes on from a node that was not seen, until all nodes on the way are left.
fn search_from(graph: &[Vec<usize>], search: &mut Search, node: usize) -> Result<(), AllocError> {
    enter(search, node)?;
    for _turn in 0..u64::MAX {
        let Some(node) = search.way.last().copied() else {
            return Ok(());
        };
        match next_edge(graph, search, node) {
            Some(end) => enter(search, end)?,
            None => {
                search.way.pop();
                search.left.push(node)?;
            }
        }
    }
    Ok(())
}

// A node that was not seen comes onto the way.
fn enter(search: &mut Search, node: usize) -> Result<(), AllocError> {
    if let Some(seen) = search.seen.get_mut(node) {
        if !*seen {
            *seen = true;
            search.way.push(node)?;
        }
    }
    Ok(())
}

// The end of the next edge of a node that was not followed.
fn next_edge(graph: &[Vec<usize>], search: &mut Search, node: usize) -> Option<usize> {
    let place = search.followed.get_mut(node)?;
    let end = graph.get(node)?.get(*place).copied()?;
    *place = place.saturating_add(1);
    Some(end)
}

// Gives a node a label, where it has none. Whether it had none.
fn give(labels: &mut Vec<usize>, node: usize, label: usize) -> bool
    ensures { length labels.new.items ≡ length labels.old.items }
{
    let none = labels.len();
    match labels.get_mut(node) {
        None => false,
        Some(place) => {
            let is_new = *place == none;
            if is_new {
                *place = label;
            }
            is_new
        }
    }
}

// Gives a label to all nodes without one that lead to a node.
fn spread(
    alloc: Global,
    back: &[Vec<usize>],
    labels: &mut Vec<usize>,
    node: usize,
    label: usize,
) -> Result<(), AllocError>
    ensures { OnOk result (length labels.new.items ≡ length labels.old.items) }
{
    let mut queue = Vec::new(alloc);
    queue.push(node)?;
    for turn in 0..back.len() {
        let Some(node) = queue.get(turn).copied() else {
            return Ok(());
        };
        if let Some(starts) = back.get(node) {
            give_all(labels, &mut queue, starts.as_slice(), label)?;
        }
    }
    Ok(())
}

// Gives a label to each of these nodes that has none, and puts it into the queue.
fn give_all(
    labels: &mut Vec<usize>,
    queue: &mut Vec<usize>,
    nodes: &[usize],
    label: usize,
) -> Result<(), AllocError>
    ensures { OnOk result (length labels.new.items ≡ length labels.old.items) }
{
    for node in nodes {
        if give(labels, *node, label) {
            queue.push(*node)?;
        }
    }
    Ok(())
}
