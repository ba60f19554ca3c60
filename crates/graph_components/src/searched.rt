// Labels by two searches from each node.
ghost use Rattle.std.specs.Prelude.{◌≡◌, ◌<◌, false, length, slice_index_or, IfOk};
ghost use Rattle.graph_search.specs.Walks.{lists};
ghost use Rattle.graph_search.specs.Searches.{IsSeen};
ghost use Rattle.graph_search.specs.Reverse.{AreNumbers, IsGraph, IsReverse};
ghost use Rattle.graph_components.specs.Components.{AreComponents, IsFirstMate};
ghost use Rattle.graph_components.specs.Inner.{IsFirstBoth};

use graph_search::reverse::{leading, numbers, reverse};
use graph_search::search::reached;
use std::alloc::{AllocError, Global};

/// The label of each node is the first node of its component.
pub fn searched(alloc: Global, graph: &[Vec<usize>]) -> Result<Vec<usize>, AllocError>
    requires { IsGraph (lists graph.now) }
    ensures { IfOk result (λ labels. AreComponents (lists graph.now) labels.items) }
{
    let back = reverse(alloc, graph)?;
    let numbers = numbers(alloc, graph.len())?;
    let mut labels = Vec::new(alloc);
    for node in 0..graph.len() {
        let first = first_mate(alloc, graph, back.as_slice(), numbers.as_slice(), node)?;
        labels.push(first)?;
    }
    Ok(labels)
}

// The first node of the component of a node.
fn first_mate(
    alloc: Global,
    graph: &[Vec<usize>],
    back: &[Vec<usize>],
    numbers: &[usize],
    node: usize,
) -> Result<usize, AllocError>
    requires graph { IsGraph (lists graph.now) }
    requires back { IsReverse (lists graph.now) (lists back.now) }
    requires numbers { AreNumbers (length (lists graph.now)) numbers.now }
    requires node { node < length graph.now }
    ensures { IfOk result (λ first. IsFirstMate (lists graph.now) node first) }
{
    let there = reached(alloc, graph, numbers, graph.len(), node)?;
    let and_back = leading(alloc, back, numbers, node)?;
    Ok(first_both(there.as_slice(), and_back.as_slice(), node))
}

// The first number that is marked in both, of which this is one.
fn first_both(marks: &[bool], others: &[bool], last: usize) -> usize
    requires marks { IsSeen marks.now last }
    requires others { IsSeen others.now last }
    ensures { IsFirstBoth marks.now others.now result }
{
    for number in 0..last {
        if is_marked(marks, number) && is_marked(others, number) {
            return number;
        }
    }
    last
}

// Whether a number is marked.
fn is_marked(marks: &[bool], number: usize) -> bool
    ensures { result ≡ slice_index_or marks.now number false }
{
    marks.get(number).copied().unwrap_or(false)
}
