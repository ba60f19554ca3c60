//! Labels of the strongly connected components of a graph, in one pass over its edges.
//!
//! For passes that ask of many pairs of nodes whether each leads to the other. `tried` makes labels by two depth-first searches, and nothing rests on them:
//! `checked` sees whether they hold, by a search from one node of each label and one back to it, and where they do not, `searched` finds labels by two
//! searches from each node. `specs/Components` says what labels mean.
#![tactic(auto)]

ghost use Rattle.std.specs.Prelude.{◌≡◌, slice_index, IfOk};
ghost use Rattle.graph_search.specs.Walks.{lists};
ghost use Rattle.graph_search.specs.Reverse.{IsGraph};
ghost use Rattle.graph_components.specs.Components.{AreComponents};

pub mod checked;
pub mod searched;
pub mod tried;

use crate::checked::hold;
use crate::searched::searched;
use crate::tried::tried;
use std::alloc::{AllocError, Global};

/// A label for each node of a graph, such that two nodes have one label exactly where each leads to the other.
pub fn components(alloc: Global, graph: &[Vec<usize>]) -> Result<Vec<usize>, AllocError>
    requires { IsGraph (lists graph.now) }
    ensures { IfOk result (λ labels. AreComponents (lists graph.now) labels.items) }
{
    let labels = tried(alloc, graph)?;
    if hold(alloc, graph, labels.as_slice())? {
        return Ok(labels);
    }
    searched(alloc, graph)
}

/// The label of a node, 0 for what is none.
pub fn label(labels: &[usize], node: usize) -> usize
    ensures { result ≡ slice_index labels.now node }
{
    labels.get(node).copied().unwrap_or(0)
}
