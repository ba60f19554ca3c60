// Why a document is no checked one.
ghost use Rattle.std.specs.Prelude.{◌≡◌};
ghost use Rattle.smv_check.specs.declared.errors.CheckError.TheVariants.{OutOfMemory};

use smv_core::Fault;
use std::alloc::AllocError;
use thiserror::Error;

/// Why a document is no checked one.
#[derive(Debug, Error, Drop)]
pub enum CheckError {
    /// The bytes spell no proof, or its sets are not those of the cases of its design, or not over their state bits.
    #[error("the document is not of the form of a proof of its design")]
    Form,
    /// The design has a fault: this first one.
    #[error("the design breaks a rule of the language")]
    Design { fault: Fault },
    /// The set of this number, from 1 on, is the first that fails a condition of induction.
    #[error("a set is not inductive")]
    Set { number: u32 },
    /// Memory ran out.
    #[error("memory ran out")]
    OutOfMemory,
}

impl From<AllocError> for CheckError {
    ghost from_gives = { λ _ error. error ≡ OutOfMemory };

    fn from(_: AllocError) -> CheckError {
        CheckError::OutOfMemory
    }
}
