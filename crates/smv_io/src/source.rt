// A source of bytes that counts its faults.
ghost use Rattle.std.specs.Prelude.{◌≡◌, ◌+◌, ◌-◌, ◌≤◌, List, ℕ, Option, length, IfOk, IfSome, OnOk, OnErr, IsErrOf};
ghost use Rattle.std.specs.Io.{ReadsAtMost};
ghost use Rattle.std.specs.Io.KnownBytes.{ReadConsumes, IsAtEnd};
ghost use Rattle.smv_io.specs.Causes.{Rose};
ghost use Rattle.smv_io.specs.Transfers.{MoreCame, GaveWithin, GaveBeyond};
ghost use Rattle.smv_io.specs.declared.source.ReadError.TheVariants.{ReadFault, OutOfMemory};

use std::alloc::{AllocError, Global};
use thiserror::Error;

/// A call of a source or a sink that failed and moved no byte.
#[derive(Clone, Copy, Debug, PartialEq, Eq)]
pub struct Failed;

/// Why not all bytes were read: the source failed, more than the limit came, or no memory was left for them.
#[derive(Clone, Copy, Debug, PartialEq, Eq, Error)]
pub enum ReadError {
    #[error("the source failed")]
    ReadFault,
    #[error("there are more bytes than the limit")]
    TooLong,
    #[error("out of memory")]
    OutOfMemory,
}

impl From<Failed> for ReadError {
    ghost from_gives = { λ _ e. e ≡ ReadFault };

    fn from(_: Failed) -> Self {
        ReadError::ReadFault
    }
}

impl From<AllocError> for ReadError {
    ghost from_gives = { λ _ e. e ≡ OutOfMemory };

    fn from(_: AllocError) -> Self {
        ReadError::OutOfMemory
    }
}

/// Where bytes come from, a call at a time. It counts its faults.
pub trait Source {
    /// The bytes that are left, where the source tells them.
    ghost left: { Self → Option (List ℕ) };

    /// How often the source has failed, a number that stays at 2 ^ 64 - 1.
    ghost faults: { Self → ℕ };

    /// A number that a call raises by at most one.
    ghost calls: { Self → ℕ };

    /// Writes the next bytes to the front of `into`, and says how many. It gives none to a buffer that is not empty only at the end.
    ///
    /// It fails only where its count of faults rises or stands at its last value, and then keeps its bytes.
    fn read(&mut self, into: &mut [u8]) -> Result<usize, Failed>
        ensures bound { ReadsAtMost result into.new }
        ensures bytes { ReadConsumes (left self.old) (left self.new) result into.new }
        ensures later { faults self.old ≤ faults self.new }
        ensures cause { OnErr result (Rose (faults self.old) (faults self.new)) }
        ensures call { calls self.new ≤ calls self.old + 1 };
}

// How many bytes one call asks for.
const CHUNK: usize = 4096;

/// Reads all bytes up to the end, at most `limit` of them, in at most `limit + 2` calls of the source.
///
/// An error is the source's fault, more than `limit` bytes, or want of memory. After a fault or want of memory at most `limit` bytes are
/// gone from the source.
pub fn read_all<S: Source>(
    alloc: Global,
    source: &mut S,
    limit: usize,
) -> Result<Vec<u8>, ReadError>
    // All bytes up to the end, and no more than the limit.
    ensures all { IfOk result (λ bytes. IfSome (S.left source.old) (λ left. bytes.items ≡ left)) }
    ensures end { OnOk result (IsAtEnd (S.left source.new)) }
    ensures within { IfOk result (λ bytes. length bytes.items ≤ limit) }

    ensures too_long { IsErrOf result ReadError.TooLong → MoreCame (S.left source.old) limit }

    // What is left of the source after each error.
    ensures left_too_long { IsErrOf result ReadError.TooLong → GaveBeyond (S.left source.old) (S.left source.new) limit }
    ensures left_read_fault { IsErrOf result ReadError.ReadFault → GaveWithin (S.left source.old) (S.left source.new) limit }
    ensures left_out_of_memory { IsErrOf result ReadError.OutOfMemory → GaveWithin (S.left source.old) (S.left source.new) limit }

    ensures later { S.faults source.old ≤ S.faults source.new }
    ensures cause { IsErrOf result ReadError.ReadFault → Rose (S.faults source.old) (S.faults source.new) }

    // Each call but the last gives a byte.
    ensures turns { S.calls source.new ≤ S.calls source.old + limit + 2 }
{
    let mut bytes = Vec::new(alloc);
    let mut buffer = [0u8; CHUNK];
    loop {
        let count = source.read(&mut buffer)?;
        if count == 0 {
            return Ok(bytes);
        }
        if count > limit - bytes.len() {
            return Err(ReadError::TooLong);
        }
        bytes.extend_from_slice(&buffer[..count])?;
    }
}
