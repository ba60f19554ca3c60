// What is reached from a node.
ghost use Rattle.std.specs.Prelude.{◌≡◌, ◌<◌, length, false, slice_index_or, IfOk};
ghost use Rattle.graphs.specs.Graph.{reaches, IsGraph, lists};

use graph_search::reverse::numbers;
use graph_search::search::reached;
use std::alloc::{AllocError, Global};

/// Whether a node is another one or leads to it.
pub fn reaches(
    alloc: Global,
    graph: &[Vec<usize>],
    target: usize,
    start: usize,
) -> Result<bool, AllocError>
    requires edges { IsGraph (lists graph.now) }
    requires start { start < length graph.now }
    ensures { IfOk result (λ found. found ≡ reaches (lists graph.now) (length graph.now) target start) }
{
    let numbers = numbers(alloc, graph.len())?;
    let marks = reached(alloc, graph, numbers.as_slice(), graph.len(), start)?;
    Ok(has_mark(marks.as_slice(), target))
}

/// Whether a node has a mark.
pub fn has_mark(marks: &[bool], node: usize) -> bool
    ensures { result ≡ slice_index_or marks.now node false }
{
    marks.get(node).copied().unwrap_or(false)
}
