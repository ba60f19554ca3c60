// A proof as data.
ghost use Rattle.std.specs.Prelude.{◌≡◌};
ghost use Rattle.smv_proof.specs.declared.proof.ProofError.TheVariants.{OutOfMemory};

use smv_core::{Name, Seq};
use std::alloc::{AllocError, AllocFailed};

/// A line of a set: the value of the low branch where the variable is 0, and of the high one where it is 1. A branch is 0, which is false, 1, which is true, or the number of an earlier line.
#[derive(Clone, Copy, PartialEq, Eq, Hash)]
pub struct Node {
    pub var: u16,
    pub low: u32,
    pub high: u32,
}

/// A set that is kept for a case of a unit: the function of a constant or of a line, the lines numbered from 2 on.
#[derive(Drop)]
pub struct KeptSet {
    pub unit: Name,
    pub number: u32,
    pub root: u32,
    pub nodes: Seq<Node>,
}

/// The bytes of a design, and the sets.
#[derive(Drop)]
pub struct Proof {
    pub design: Seq<u8>,
    pub sets: Seq<KeptSet>,
}

/// Why no proof was read.
#[derive(Clone, Copy, Debug, PartialEq, Eq)]
pub enum ProofError {
    /// The bytes spell none.
    NotSpelled,
    OutOfMemory,
}

impl From<AllocError> for ProofError {
    ghost from_gives = { λ _ e. e ≡ OutOfMemory };

    fn from(_: AllocError) -> Self {
        ProofError::OutOfMemory
    }
}

impl<T: Drop> From<AllocFailed<T>> for ProofError {
    ghost from_gives = { λ _ e. e ≡ OutOfMemory };

    fn from(_: AllocFailed<T>) -> Self {
        ProofError::OutOfMemory
    }
}
