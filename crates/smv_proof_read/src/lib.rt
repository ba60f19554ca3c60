//! A proof document, read from its bytes.
//!
//! For whoever checks a proof or begins from one. `smv_proof/specs/Documents` says which bytes spell a proof, `smv_proof/specs/Readings` how they are read line by line. `pieces` cuts and reads numbers,
//! `lines` reads a line by itself, `nodes` the lines of a set, and `sets` the sets. `olds` parts an old document from the design behind it.
#![tactic(auto)]

ghost use Rattle.std.specs.Prelude.{◌≡◌, IfOk, Err};
ghost use Rattle.smv_proof.specs.declared.proof.ProofError.TheVariants.{NotSpelled};
ghost use Rattle.smv_proof.specs.Documents.{Spells, SpellsNone};

mod lines;
mod nodes;
pub mod olds;
mod pieces;
mod sets;
mod whole;

use sets::read_sets;
use smv_core::Seq;
use smv_proof::{Proof, ProofError};
use std::alloc::{AllocError, Global};
use whole::parts_of;

/// The proof that bytes spell, in time that grows with them, and `NotSpelled` exactly where they spell none.
pub fn read_proof(alloc: Global, bytes: &[u8]) -> Result<Proof, ProofError>
    ensures spelled { IfOk result (Spells bytes.now) }
    ensures none { result ≡ Err NotSpelled → SpellsNone bytes.now }
{
    let Some((design, lines)) = parts_of(bytes) else {
        return Err(ProofError::NotSpelled);
    };
    let sets = read_sets(alloc, lines)?;
    let design = Vec::from_slice(alloc, design)?;
    Ok(Proof {
        design: Seq::from_vec(design),
        sets: Seq::from_vec(sets),
    })
}
