// A sink of bytes that counts its faults.
ghost use Rattle.std.specs.Prelude.{◌≡◌, ◌≤◌, ◌<◌, List, ℕ, Option, length, IfOk, OnOk, OnErr, IsOk};
ghost use Rattle.std.specs.Io.{WritesAtMost};
ghost use Rattle.std.specs.Io.KnownBytes.{WriteAppends, Appends};
ghost use Rattle.smv_io.specs.Causes.{Rose};
ghost use Rattle.smv_io.specs.Transfers.{TookFront};
ghost use Rattle.smv_io.specs.declared.sink.WriteError.TheVariants.{WriteFault};

use crate::source::Failed;
use thiserror::Error;

/// Why not all bytes were written: the sink failed.
#[derive(Clone, Copy, Debug, PartialEq, Eq, Error)]
pub enum WriteError {
    #[error("the sink failed")]
    WriteFault,
}

impl From<Failed> for WriteError {
    ghost from_gives = { λ _ e. e ≡ WriteFault };

    fn from(_: Failed) -> Self {
        WriteError::WriteFault
    }
}

/// Where bytes go, a piece at a time. It counts its faults.
pub trait Sink {
    /// The bytes that the sink took, where it tells them.
    ghost taken: { Self → Option (List ℕ) };

    /// How often the sink has failed, a number that stays at 2 ^ 64 - 1.
    ghost faults: { Self → ℕ };

    /// Takes a front of the piece, at least one byte of a piece that is not empty, and says how many bytes.
    ///
    /// It fails only where its count of faults rises or stands at its last value, and then takes nothing.
    fn write(&mut self, piece: &[u8]) -> Result<usize, Failed>
        ensures bound { WritesAtMost result piece.now }
        ensures some { IfOk result (λ count. 0 < length piece.now → 0 < count) }
        ensures bytes { WriteAppends (taken self.old) (taken self.new) result piece.now }
        ensures later { faults self.old ≤ faults self.new }
        ensures cause { OnErr result (Rose (faults self.old) (faults self.new)) };
}

/// Writes the whole piece. Where the sink fails it took a front of the piece, and not all of it.
pub fn write_all<K: Sink>(sink: &mut K, piece: &[u8]) -> Result<(), WriteError>
    ensures all { OnOk result (Appends (K.taken sink.old) (K.taken sink.new) piece.now) }
    ensures nothing { length piece.now ≡ 0 → IsOk result }
    ensures front { OnErr result (TookFront (K.taken sink.old) (K.taken sink.new) piece.now) }
    ensures later { K.faults sink.old ≤ K.faults sink.new }
    ensures cause { OnErr result (Rose (K.faults sink.old) (K.faults sink.new)) }
{
    let mut rest = piece;
    while !rest.is_empty() {
        let count = sink.write(rest)?;
        rest = rest.split_at(count).1;
    }
    Ok(())
}
