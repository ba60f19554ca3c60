//! The lists of functions of a case as a circuit, in the binary form of AIGER, for model checkers that know nothing of diagrams.
//!
//! For whoever hands a case to another engine. A reader begins with `specs/Frames`: what a frame of the circuit does; `specs/Circuits` says what a literal is worth, and `specs/Files` which bytes are written.
//! `circuit` has gates, `gates` makes them of functions, `frames` puts the lists together, `writing` writes.
#![tactic(auto)]

ghost use Rattle.std.specs.Prelude.{IfOk};
ghost use Rattle.smv_rings.specs.Lists.{IsRel, lists_of};
ghost use Rattle.smv_circuits.specs.Frames.{IsFileOf};

mod circuit;
mod frames;
mod gates;
mod writing;

use bdd_store::Store;
pub use circuit::{Gate, Literal};
use frames::frames_of;
use smv_rings::Rel;
use std::alloc::{AllocError, Global};
use writing::file_of;

/// The file of the circuit of the lists of a case.
pub fn circuit_file(alloc: Global, rel: &Rel, store: &Store) -> Result<Vec<u8>, AllocError>
    requires { IsRel store.now rel.now }
    ensures { IfOk result (λ bytes. IsFileOf (lists_of store.now rel.now) bytes.items) }
{
    let frames = frames_of(alloc, rel, store)?;
    let bytes = file_of(alloc, &frames)?;
    Ok(bytes)
}
