// The edge to std's readers and writers, whose every error counts as a fault.
ghost use Rattle.std.specs.Prelude.{◌≡◌, ◌+◌, ◌≤◌, ◌<◌, length, IfOk, OnErr};
ghost use Rattle.std.specs.Io.{ReadsAtMost, WritesAtMost};
ghost use Rattle.std.specs.Io.KnownBytes.{ReadConsumes, WriteAppends};
ghost use Rattle.smv_io.specs.Causes.{Rose, faults_after};

use crate::sink::Sink;
use crate::source::{Failed, Source};
use std::io::{Read, Write};
use std::marker::Model;

/// A source over a reader, which counts the reader's errors.
#[derive(Drop)]
pub struct FromRead<R> {
    reader: R,
    faults: u64,
}

impl<R> Model for FromRead<R> {
    ghost use Rattle.smv_io.specs.Fakes.{Edge};

    ghost Value = { Edge R };

    ghost view = { λ s. record { stream = s.reader; faults = s.faults } };
}

impl<R: Read> FromRead<R> {
    /// A source that has not failed yet.
    pub fn new(reader: R) -> Self
        ensures { result ≡ record { stream = reader; faults = 0 } }
    {
        FromRead { reader, faults: 0 }
    }
}

impl<R: Read> Source for FromRead<R> {
    ghost left = { λ s. R.remaining s.stream };

    ghost faults = { λ s. s.faults };

    ghost calls = { λ _. 0 };

    /// Fails where the reader does.
    fn read(&mut self, into: &mut [u8]) -> Result<usize, Failed>
        ensures bound { ReadsAtMost result into.new }
        ensures bytes { ReadConsumes (R.remaining self.old.stream) (R.remaining self.new.stream) result into.new }
        ensures later { self.old.faults ≤ self.new.faults }
        ensures cause { OnErr result (Rose self.old.faults self.new.faults) }
        ensures call { 0 ≤ 0 + 1 }

        ensures faults { self.new.faults ≡ faults_after result self.old.faults }
    {
        match self.reader.read(into) {
            Ok(count) => Ok(count),
            Err(_) => {
                self.faults = self.faults.saturating_add(1);
                Err(Failed)
            }
        }
    }
}

/// A sink over a writer, which counts the writer's errors, and the pieces of which the writer took nothing though they were not empty.
#[derive(Drop)]
pub struct ToWrite<W> {
    writer: W,
    faults: u64,
}

impl<W> Model for ToWrite<W> {
    ghost use Rattle.smv_io.specs.Fakes.{Edge};

    ghost Value = { Edge W };

    ghost view = { λ s. record { stream = s.writer; faults = s.faults } };
}

impl<W: Write> ToWrite<W> {
    /// A sink that has not failed yet.
    pub fn new(writer: W) -> Self
        ensures { result ≡ record { stream = writer; faults = 0 } }
    {
        ToWrite { writer, faults: 0 }
    }
}

impl<W: Write> Sink for ToWrite<W> {
    ghost taken = { λ s. W.contents s.stream };

    ghost faults = { λ s. s.faults };

    /// Fails where the writer does, and where it takes nothing of a piece that is not empty.
    fn write(&mut self, piece: &[u8]) -> Result<usize, Failed>
        ensures bound { WritesAtMost result piece.now }
        ensures some { IfOk result (λ count. 0 < length piece.now → 0 < count) }
        ensures bytes { WriteAppends (W.contents self.old.stream) (W.contents self.new.stream) result piece.now }
        ensures later { self.old.faults ≤ self.new.faults }
        ensures cause { OnErr result (Rose self.old.faults self.new.faults) }

        ensures faults { self.new.faults ≡ faults_after result self.old.faults }
    {
        match self.writer.write(piece) {
            Ok(count) if count > 0 || piece.is_empty() => Ok(count),
            _ => {
                self.faults = self.faults.saturating_add(1);
                Err(Failed)
            }
        }
    }
}
