// The lines of a set, no two of them equal.
ghost use Rattle.std.specs.Prelude.{◌≡◌, ◌<◌, ◌≤◌, ◌++◌, ◌∷◌, [], List, length, None, Some, IfOk, OnOk, Err};
ghost use Rattle.smv_proof.specs.declared.proof.Node.{Node};
ghost use Rattle.smv_proof.specs.declared.proof.KeptSet.{KeptSet};
ghost use Rattle.smv_proof.specs.declared.proof.ProofError.TheVariants.{NotSpelled};
ghost use Rattle.smv_proof.specs.Documents.{is_branch, is_line};
ghost use Rattle.smv_proof.specs.Readings.{node_of, pieces, settled};
ghost use Rattle.smv_proof_read.specs.Standing.{HasLines};
ghost use Rattle.smv_proof_read.specs.Onward.{begun_at, onward, with_set};

use crate::lines::node_of;
use crate::pieces::cut;
use smv_proof::{Node, ProofError};
use std::alloc::{AllocError, Global};
use std::collections::HashSet;

// The greatest variable.
const LAST_VAR: u16 = 2046;

/// Reads so many lines of a set, and gives the bytes behind them.
pub(crate) fn read_nodes<'a>(
    alloc: Global,
    count: u32,
    bytes: &'a [u8],
    nodes: &mut Vec<Node>,
) -> Result<&'a [u8], ProofError>
    requires none { nodes.old.items ≡ [] }
    ensures read { IfOk result (λ rest. (sets : List KeptSet) (set : KeptSet) → onward (settled sets (Some (begun_at set [] count))) bytes.now ≡ onward (with_set sets set nodes.new.items) rest.now) }
    ensures none { result ≡ Err NotSpelled → (sets : List KeptSet) (set : KeptSet) → onward (settled sets (Some (begun_at set [] count))) bytes.now ≡ None }
    ensures rest { IfOk result (λ rest. length rest.now ≤ length bytes.now) }
{
    let mut seen = HashSet::new(alloc);
    let mut rest = bytes;
    let mut due = count;
    while due > 0 {
        let Some((line, behind)) = cut(b'\n', rest) else {
            return Err(ProofError::NotSpelled);
        };
        read_node(line, nodes, &mut seen)?;
        rest = behind;
        due -= 1;
    }
    Ok(rest)
}

// Reads one line behind these.
fn read_node(line: &[u8], nodes: &mut Vec<Node>, seen: &mut HashSet<Node>) -> Result<(), ProofError>
    requires seen { HasLines seen.old nodes.old.items }
    ensures read { OnOk result ((node : Node) × (node_of nodes.old.items (pieces 32 line.now) ≡ Some node) × (nodes.new.items ≡ nodes.old.items ++ node ∷ [])) }
    ensures none { result ≡ Err NotSpelled → node_of nodes.old.items (pieces 32 line.now) ≡ None }
    ensures seen { OnOk result (HasLines seen.new nodes.new.items) }
{
    let Some(node) = node_of(line) else {
        return Err(ProofError::NotSpelled);
    };
    if !is_line(nodes, seen, &node) {
        return Err(ProofError::NotSpelled);
    }
    seen.insert(node)?;
    nodes.push(node)?;
    Ok(())
}

// Whether the rules allow a line behind these.
fn is_line(nodes: &[Node], seen: &HashSet<Node>, node: &Node) -> bool
    requires seen { HasLines seen.now nodes.now }
    ensures { result ≡ is_line nodes.now node.now }
{
    node.var % 2 == 0
        && node.var <= LAST_VAR
        && node.low != node.high
        && is_branch(nodes, node.var, node.low)
        && is_branch(nodes, node.var, node.high)
        && !seen.contains(node)
}

// Whether the number is that of a constant, or of one of these lines, of a greater variable.
fn is_branch(nodes: &[Node], var: u16, number: u32) -> bool
    ensures { result ≡ is_branch nodes.now var number }
{
    if number < 2 {
        return true;
    }
    match nodes.get(number as usize - 2) {
        Some(node) => var < node.var,
        None => false,
    }
}
