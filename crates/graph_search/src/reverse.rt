// The edges of a graph from their ends.
ghost use Rattle.std.specs.Prelude.{◌≡◌, ◌<◌, ◌↔◌, ℕ, [], ◌∷◌, ◌++◌, length, List, vec_len, replicate, slice_set, IfOk, OnOk};
ghost use Rattle.std.specs.List.{Contains};
ghost use Rattle.graph_search.specs.Walks.{lists, Walk};
ghost use Rattle.graph_search.specs.Reverse.{after, AreNumbers, IsGraph, IsNoted, IsReverse};
ghost use Rattle.graph_search.specs.Searches.{IsSeen};

use crate::search::reached;
use std::alloc::{AllocError, Global};

/// For each node the nodes that it follows.
pub fn reverse(alloc: Global, graph: &[Vec<usize>]) -> Result<Vec<Vec<usize>>, AllocError>
    requires { IsGraph (lists graph.now) }
    ensures { IfOk result (λ back. IsReverse (lists graph.now) (lists back.items)) }
{
    let mut back = no_edges(alloc, graph.len())?;
    for node in 0..graph.len() {
        note_all(&mut back, graph[node].as_slice(), node)?;
    }
    Ok(back)
}

/// So many nodes without an edge.
fn no_edges(alloc: Global, nodes: usize) -> Result<Vec<Vec<usize>>, AllocError>
    ensures { IfOk result (λ back. lists back.items ≡ replicate nodes []) }
{
    let mut back: Vec<Vec<usize>> = Vec::new(alloc);
    for _node in 0..nodes {
        back.push(Vec::new(alloc))?;
    }
    Ok(back)
}

// These nodes are followed by a node.
fn note_all(back: &mut Vec<Vec<usize>>, nodes: &[usize], node: usize) -> Result<(), AllocError>
    requires { (x : ℕ) → Contains nodes.now x → x < vec_len back.old }
    ensures { OnOk result (IsNoted nodes.now node (lists back.old.items) (lists back.new.items)) }
{
    for place in nodes {
        note(back, *place, node)?;
    }
    Ok(())
}

// One node more in the list of a node.
fn note(back: &mut Vec<Vec<usize>>, place: usize, node: usize) -> Result<(), AllocError>
    requires { place < vec_len back.old }
    ensures { OnOk result (lists back.new.items ≡ slice_set (lists back.old.items) place (after (lists back.old.items) place ++ node ∷ [])) }
{
    back[place].push(node)?;
    Ok(())
}

/// Which nodes lead to this one, of a graph whose reverse is given, with the numbers of its nodes.
pub fn leading(
    alloc: Global,
    back: &[Vec<usize>],
    numbers: &[usize],
    target: usize,
) -> Result<Vec<bool>, AllocError>
    requires back { IsGraph (lists back.now) }
    requires numbers { AreNumbers (length back.now) numbers.now }
    requires target { target < length back.now }
    ensures { IfOk result (λ marks. (graph : List (List ℕ)) → IsReverse graph (lists back.now) → (x : ℕ) → IsSeen marks.items x ↔ Walk (after graph) x target) }
{
    let marks = reached(alloc, back, numbers, back.len(), target)?;
    Ok(marks)
}

/// The numbers below this one.
pub fn numbers(alloc: Global, count: usize) -> Result<Vec<usize>, AllocError>
    ensures { IfOk result (λ numbers. AreNumbers count numbers.items) }
{
    let mut numbers = Vec::new(alloc);
    for number in 0..count {
        numbers.push(number)?;
    }
    Ok(numbers)
}
