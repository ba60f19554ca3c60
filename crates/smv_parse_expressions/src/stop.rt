// Why a parser gives nothing.
ghost use Rattle.std.specs.Prelude.{◌≡◌};
ghost use Rattle.smv_parse_expressions.specs.declared.stop.Stop.TheVariants.{OutOfMemory};

use smv_core::token::Token;
use std::alloc::{AllocError, AllocFailed};

/// What is read at the front of tokens, and the tokens that come after it; or why nothing is read.
pub type Read<'a, T> = Result<(T, &'a [Token]), Stop>;

/// Why there is no tree. The number is that of the tokens that are left from the refused one on.
#[derive(Clone, Copy, Debug, PartialEq, Eq)]
pub enum Stop {
    /// A token or the end after which no text can go on.
    Unexpected(usize),
    /// A token that opens a level too many.
    TooDeep(usize),
    /// Memory ran out.
    OutOfMemory,
}

impl From<AllocError> for Stop {
    ghost from_gives = { λ _ e. e ≡ OutOfMemory };

    fn from(_: AllocError) -> Self {
        Stop::OutOfMemory
    }
}

impl<T: Drop> From<AllocFailed<T>> for Stop {
    ghost from_gives = { λ _ e. e ≡ OutOfMemory };

    fn from(_: AllocFailed<T>) -> Self {
        Stop::OutOfMemory
    }
}
