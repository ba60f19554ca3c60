// The sets of a document.
ghost use Rattle.std.specs.Prelude.{◌≡◌, ◌<◌, length, None, Some, IfOk, Err};
ghost use Rattle.smv_proof.specs.declared.proof.ProofError.TheVariants.{NotSpelled};
ghost use Rattle.smv_proof.specs.Readings.{sets_of};
ghost use Rattle.smv_proof_read.specs.Onward.{between, onward};

use crate::lines::head_of;
use crate::nodes::read_nodes;
use crate::pieces::cut;
use smv_core::{Name, Seq};
use smv_proof::{KeptSet, ProofError};
use std::alloc::{AllocError, Global};

/// The sets that bytes spell.
pub(crate) fn read_sets(alloc: Global, bytes: &[u8]) -> Result<Vec<KeptSet>, ProofError>
    ensures read { IfOk result (λ sets. sets_of bytes.now ≡ Some sets.items) }
    ensures none { result ≡ Err NotSpelled → sets_of bytes.now ≡ None }
{
    let mut sets = Vec::new(alloc);
    let mut rest = bytes;
    while !rest.is_empty() {
        rest = read_set(alloc, rest, &mut sets)?;
    }
    Ok(sets)
}

// Reads a set, and gives the bytes behind it.
fn read_set<'a>(
    alloc: Global,
    bytes: &'a [u8],
    sets: &mut Vec<KeptSet>,
) -> Result<&'a [u8], ProofError>
    requires { 0 < length bytes.now }
    ensures read { IfOk result (λ rest. onward (between sets.old.items) bytes.now ≡ onward (between sets.new.items) rest.now) }
    ensures none { result ≡ Err NotSpelled → onward (between sets.old.items) bytes.now ≡ None }
    ensures shorter { IfOk result (λ rest. length rest.now < length bytes.now) }
{
    let Some((line, lines)) = cut(b'\n', bytes) else {
        return Err(ProofError::NotSpelled);
    };
    let Some(head) = head_of(line) else {
        return Err(ProofError::NotSpelled);
    };
    let mut nodes = Vec::new(alloc);
    let rest = read_nodes(alloc, head.count, lines, &mut nodes)?;
    let unit = Vec::from_slice(alloc, head.unit)?;
    sets.push(KeptSet {
        unit: Name::from_vec(unit),
        number: head.number,
        root: head.root,
        nodes: Seq::from_vec(nodes),
    })?;
    Ok(rest)
}
