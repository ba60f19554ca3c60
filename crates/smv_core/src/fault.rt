// Why a text is refused.
ghost use Rattle.std.specs.Prelude.{◌≡◌};
ghost use Rattle.smv_core.specs.declared.fault.Refusal.TheVariants.{OutOfMemory};

use std::alloc::AllocError;
use thiserror::Error;

/// A broken rule: its number, and the offset in bytes of the place where it is broken.
#[derive(Clone, Copy, Debug, PartialEq, Eq)]
pub struct Fault {
    pub number: u8,
    pub at: u32,
}

/// Why a call that reads a text has no result.
#[derive(Debug, Error, Drop)]
pub enum Refusal {
    /// The text breaks a rule.
    #[error("the text breaks a rule of the language")]
    Fault(Fault),
    /// Memory ran out.
    #[error("memory ran out")]
    OutOfMemory,
}

impl From<AllocError> for Refusal {
    ghost from_gives = { λ _ refusal. refusal ≡ OutOfMemory };

    fn from(_: AllocError) -> Refusal {
        Refusal::OutOfMemory
    }
}
