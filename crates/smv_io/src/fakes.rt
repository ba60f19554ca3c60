// Sources and sinks in memory, for tests and for whoever wants one.
ghost use Rattle.std.specs.Prelude.{◌≡◌, ◌+◌, ◌≤◌, ◌<◌, ◌↔◌, ◌⊎◌, [], List, ℕ, length, drop, min, Ok, Some, None, IfOk, IsErr, OnErr, Contains, vec_len, vec_capacity};
ghost use Rattle.std.specs.Io.{ReadsAtMost, WritesAtMost};
ghost use Rattle.std.specs.Io.KnownBytes.{ReadConsumes, WriteAppends};
ghost use Rattle.smv_io.specs.Causes.{Rose, next_count, faults_after};
ghost use Rattle.smv_io.specs.Fakes.{room_left, FindsNoRoom, count_after};

use crate::sink::Sink;
use crate::source::{Failed, Source};
use std::alloc::{AllocError, Global};
use std::marker::Model;

/// A source over bytes, whose calls fail at the given numbers. Calls are numbered from 0, and each call after number 2^64 - 1 has this number too.
#[derive(Drop)]
pub struct Bytes {
    bytes: Vec<u8>,
    at: usize,
    failing: Vec<u64>,
    calls: u64,
    faults: u64,
}

impl Model for Bytes {
    ghost use Rattle.std.specs.Prelude.{◌≤◌, drop, length};
    ghost use Rattle.smv_io.specs.Fakes.{Feed};

    ghost Value = { Feed };

    ghost view = { λ b. record { left = drop b.at b.bytes.items; failing = b.failing.items; calls = b.calls; faults = b.faults } };

    ghost invariant = { λ b. b.at ≤ length b.bytes.items };
}

impl Bytes {
    /// A source that no call has read yet.
    pub fn new(bytes: Vec<u8>, failing: Vec<u64>) -> Self
        ensures { result ≡ record { left = bytes.items; failing = failing.items; calls = 0; faults = 0 } }
    {
        Bytes {
            bytes,
            at: 0,
            failing,
            calls: 0,
            faults: 0,
        }
    }
}

// Copies as much as there is room for, and says how much.
fn copy_front(from: &[u8], into: &mut [u8]) -> usize
    ensures count { result ≡ min (length from.now) (length into.new) }
    ensures bytes { ReadConsumes {E = Failed} (Some from.now) (Some (drop result from.now)) (Ok result) into.new }
{
    let count = from.len().min(into.len());
    into[..count].copy_from_slice(&from[..count]);
    count
}

impl Source for Bytes {
    ghost left = { λ s. Some s.left };

    ghost faults = { λ s. s.faults };

    ghost calls = { λ s. s.calls };

    /// Fails at the listed calls and no others, else gives as many bytes as there are and as fit.
    fn read(&mut self, into: &mut [u8]) -> Result<usize, Failed>
        ensures bound { ReadsAtMost result into.new }
        ensures bytes { ReadConsumes (Some self.old.left) (Some self.new.left) result into.new }
        ensures later { self.old.faults ≤ self.new.faults }
        ensures cause { OnErr result (Rose self.old.faults self.new.faults) }
        ensures call { self.new.calls ≤ self.old.calls + 1 }

        ensures listed { IsErr result ↔ Contains self.old.failing self.old.calls }
        ensures count { IfOk result (λ count. count ≡ min (length self.old.left) (length into.new)) }
        ensures calls { self.new.calls ≡ next_count self.old.calls }
        ensures faults { self.new.faults ≡ faults_after result self.old.faults }
        ensures failing { self.new.failing ≡ self.old.failing }
    {
        let call = self.calls;
        self.calls = call.saturating_add(1);
        if self.failing.contains(&call) {
            self.faults = self.faults.saturating_add(1);
            return Err(Failed);
        }
        let count = copy_front(&self.bytes[self.at..], into);
        self.at += count;
        Ok(count)
    }
}

/// A source over bytes that never fails. Contracts see the bytes that it has left.
#[derive(Drop)]
pub struct Never {
    bytes: Vec<u8>,
    at: usize,
}

impl Model for Never {
    ghost use Rattle.std.specs.Prelude.{◌≤◌, ℕ, List, drop, length};

    ghost Value = { List ℕ };

    ghost view = { λ n. drop n.at n.bytes.items };

    ghost invariant = { λ n. n.at ≤ length n.bytes.items };
}

impl Never {
    /// A source that no call has read yet.
    pub fn new(bytes: Vec<u8>) -> Self
        ensures { result ≡ bytes.items }
    {
        Never { bytes, at: 0 }
    }
}

impl Source for Never {
    ghost left = { λ s. Some s };

    ghost faults = { λ _. 0 };

    ghost calls = { λ _. 0 };

    /// Gives as many bytes as there are and as fit.
    fn read(&mut self, into: &mut [u8]) -> Result<usize, Failed>
        ensures bound { ReadsAtMost result into.new }
        ensures bytes { ReadConsumes (Some self.old) (Some self.new) result into.new }

        ensures count { result ≡ Ok (min (length self.old) (length into.new)) }
    {
        let count = copy_front(&self.bytes[self.at..], into);
        self.at += count;
        Ok(count)
    }
}

/// A sink with a given room, whose calls fail at the given numbers. Calls are numbered from 0, and each call after number 2^64 - 1 has this number too.
#[derive(Drop)]
pub struct Taken {
    bytes: Vec<u8>,
    room: usize,
    failing: Vec<u64>,
    calls: u64,
    faults: u64,
}

impl Model for Taken {
    ghost use Rattle.std.specs.Prelude.{◌≤◌, vec_len, vec_capacity};
    ghost use Rattle.smv_io.specs.Fakes.{Tank};

    ghost Value = { Tank };

    ghost view = { λ t. record { taken = t.bytes.items; room = t.room; failing = t.failing.items; calls = t.calls; faults = t.faults } };

    ghost invariant = { λ t. (vec_len t.bytes ≤ t.room) × (t.room ≤ vec_capacity t.bytes) };
}

impl Taken {
    /// An empty sink with room for `room` bytes. An error is want of memory for them.
    pub fn with_room(alloc: Global, room: usize, failing: Vec<u64>) -> Result<Self, AllocError>
        ensures { IfOk result (λ sink. sink ≡ record { taken = []; room = room; failing = failing.items; calls = 0; faults = 0 }) }
    {
        Ok(Taken {
            bytes: Vec::with_capacity(alloc, room)?,
            room,
            failing,
            calls: 0,
            faults: 0,
        })
    }

    /// The bytes that it took.
    pub fn taken(&self) -> &[u8]
        ensures { result.now ≡ self.now.taken }
    {
        self.bytes.as_slice()
    }
}

impl Sink for Taken {
    ghost taken = { λ s. Some s.taken };

    ghost faults = { λ s. s.faults };

    /// Fails at the listed calls and where a piece that is not empty finds no room, and at no others; else takes as many bytes as there are and as fit.
    fn write(&mut self, piece: &[u8]) -> Result<usize, Failed>
        ensures bound { WritesAtMost result piece.now }
        ensures some { IfOk result (λ count. 0 < length piece.now → 0 < count) }
        ensures bytes { WriteAppends (Some self.old.taken) (Some self.new.taken) result piece.now }
        ensures later { self.old.faults ≤ self.new.faults }
        ensures cause { OnErr result (Rose self.old.faults self.new.faults) }

        ensures fails { IsErr result ↔ (Contains self.old.failing self.old.calls ⊎ FindsNoRoom self.old piece.now) }
        ensures count { IfOk result (λ count. count ≡ min (length piece.now) (room_left self.old)) }
        ensures calls { self.new.calls ≡ next_count self.old.calls }
        ensures faults { self.new.faults ≡ faults_after result self.old.faults }
        ensures failing { self.new.failing ≡ self.old.failing }
        ensures room { self.new.room ≡ self.old.room }
    {
        let call = self.calls;
        self.calls = call.saturating_add(1);
        let count = piece.len().min(self.room - self.bytes.len());
        if self.failing.contains(&call) || (count == 0 && !piece.is_empty()) {
            self.faults = self.faults.saturating_add(1);
            return Err(Failed);
        }
        self.bytes.extend_from_slice(&piece[..count]).unwrap();
        Ok(count)
    }
}

/// A sink that takes all and keeps only how many bytes it took, a number that stays at 2^64 - 1. Contracts see this number.
#[derive(Drop)]
pub struct NeverSink {
    count: u64,
}

impl Model for NeverSink {
    ghost use Rattle.std.specs.Prelude.{ℕ};

    ghost Value = { ℕ };

    ghost view = { λ s. s.count };
}

impl NeverSink {
    /// A sink that took nothing yet.
    pub fn new() -> Self
        ensures { result ≡ 0 }
    {
        NeverSink { count: 0 }
    }
}

impl Sink for NeverSink {
    ghost taken = { λ _. None };

    ghost faults = { λ _. 0 };

    /// Takes the whole piece.
    fn write(&mut self, piece: &[u8]) -> Result<usize, Failed>
        ensures count { result ≡ Ok (length piece.now) }
        ensures kept { self.new ≡ count_after self.old (length piece.now) }
    {
        self.count = self.count.saturating_add(piece.len() as u64);
        Ok(piece.len())
    }
}
