// Lines, each found by itself.
ghost use Rattle.std.specs.Prelude.{◌≡◌, ◌<◌, length, IfOk, OnOk};
ghost use Rattle.std.specs.HashMap.{get};
ghost use Rattle.smv_proof.specs.Documents.{most, same_node};
ghost use Rattle.smv_proof.specs.Kept.{joined, number_from, numbered};
ghost use Rattle.smv_proof_take.specs.Numbering.{HasNumbers, rooted};

use smv_proof::Node;
use std::alloc::AllocError;
use std::collections::HashMap;

// The greatest number.
const MOST: usize = 4_294_967_295;

/// The number of a function by its variable and its branches: branches that are one need no line.
#[tactic(auto, using(crate::proofs::Found::joined_apart, crate::proofs::Found::joined_alike))]
pub(crate) fn join(
    nodes: &mut Vec<Node>,
    numbers: &mut HashMap<Node, u32>,
    node: Node,
) -> Result<u32, AllocError>
    requires numbers { HasNumbers numbers.old nodes.old.items }
    requires few { length nodes.old.items < most }
    ensures joined { IfOk result (λ number. joined node.var node.low (rooted node.high nodes.old.items) ≡ rooted number nodes.new.items) }
    ensures numbers { OnOk result (HasNumbers numbers.new nodes.new.items) }
    ensures few { OnOk result (length nodes.new.items < most) }
{
    if node.low == node.high {
        return Ok(node.high);
    }
    number_of(nodes, numbers, node)
}

// The number of a line, which is put behind the others if it does not stand yet.
#[tactic(auto, using(crate::proofs::Found::found_numbered, crate::proofs::Found::new_numbered))]
fn number_of(
    nodes: &mut Vec<Node>,
    numbers: &mut HashMap<Node, u32>,
    node: Node,
) -> Result<u32, AllocError>
    requires numbers { HasNumbers numbers.old nodes.old.items }
    requires few { length nodes.old.items < most }
    ensures numbered { IfOk result (λ number. numbered (number_from 2 node nodes.old.items) node nodes.old.items ≡ rooted number nodes.new.items) }
    ensures numbers { OnOk result (HasNumbers numbers.new nodes.new.items) }
    ensures few { OnOk result (length nodes.new.items < most) }
{
    if let Some(number) = number_in(numbers, &node) {
        return Ok(number);
    }
    let number = nodes.len() + 2;
    if number > MOST {
        return Err(AllocError);
    }
    nodes.push(node)?;
    numbers.insert(node, number as u32)?;
    Ok(number as u32)
}

// The number of a line that stands.
fn number_in(numbers: &HashMap<Node, u32>, node: &Node) -> Option<u32>
    ensures { result ≡ get same_node numbers.now node.now }
{
    numbers.get(node).copied()
}
