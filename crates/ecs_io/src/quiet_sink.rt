//! A sink in memory that never fails, and keeps as much as there is room for.

ghost use Rattle.std.specs.Prelude.{◌≡◌, ℕ, ◌<◌, ◌≤◌, List, [], length, take, IfOk, OnErr, IsOk};
ghost use Rattle.ecs_io.specs.Streams.{HasCause, Grows, Stays};
ghost use Rattle.ecs_io.specs.Quiet.{IsWritten, after_keeping};

use super::{Sink, WriteFailed};
use entity_id::OutOfMemory;
use std::alloc::Global;
use std::marker::Model;

/// A sink in memory that takes all it is given and never fails. It keeps the first `room` bytes
/// that are written, and counts all. So it tells what was written while that is at most `room`
/// bytes.
#[derive(Debug, Drop)]
pub struct QuietSink {
    bytes: Vec<u8>,
    room: usize,
    written: u64,
}

impl Model for QuietSink {
    ghost use Rattle.std.specs.Prelude.{◌≡◌, ◌≤◌, min, length, vec_capacity};
    ghost use Rattle.ecs_io.specs.Quiet.{Keep};

    ghost Value = { Keep };

    ghost view = { λ a. record {
      kept = a.bytes.items;
      room = a.room;
      written = a.written;
    } };

    ghost invariant = { λ a.
        (length a.bytes.items ≡ min a.room a.written) × (a.room ≤ vec_capacity a.bytes) };
}

impl QuietSink {
    /// A sink to which nothing was written, with room for `room` bytes. `OutOfMemory` where there
    /// is no memory for them: no later call takes any.
    pub fn new(alloc: Global, room: usize) -> Result<QuietSink, OutOfMemory>
        ensures empty { IfOk result (λ sink.
            sink ≡ record { kept = []; room = room; written = 0 }) }
        ensures nothing { IfOk result (λ sink. IsWritten sink []) }
    {
        let bytes = Vec::with_capacity(alloc, room)?;
        Ok(QuietSink {
            bytes,
            room,
            written: 0,
        })
    }

    /// The bytes kept: the first that were written, as many as there is room for. While no more
    /// than that were written, they are all, and no others can have been written. No memory.
    pub fn bytes(&self) -> &[u8]
        ensures front { result.now ≡ self.now.kept }
        ensures all { self.now.written ≤ self.now.room → IsWritten self.now result.now }
        ensures only { (held : List ℕ) → length held ≤ self.now.room → IsWritten self.now held →
            held ≡ result.now }
    {
        &self.bytes
    }

    /// How many bytes were written, a count that stays at `u64::MAX`. No memory.
    pub fn written(&self) -> u64
        ensures { result ≡ self.now.written }
    {
        self.written
    }

    /// How many writes have failed: none. No memory.
    pub fn faults(&self) -> u64
        ensures { result ≡ 0 }
    {
        0
    }
}

impl Sink for QuietSink {
    ghost holds = { IsWritten };

    ghost faults = { λ _. 0 };

    fn write(&mut self, bytes: &[u8]) -> Result<usize, WriteFailed>
        requires { 0 < length bytes.now }
        ensures bound { IfOk result (λ n. (0 < n) × (n ≤ length bytes.now)) }
        ensures bytes { IfOk result (λ n.
            Grows (IsWritten self.old) (IsWritten self.new) (take n bytes.now)) }
        ensures err { OnErr result (Stays (IsWritten self.old) (IsWritten self.new)) }
        ensures cause { HasCause 0 0 result }
        ensures never_fails { IsOk result }
        ensures count { IfOk result (λ n. n ≡ length bytes.now) }
        ensures taken { self.new ≡ after_keeping self.old bytes.now }
    {
        let count = bytes.len().min(self.room - self.bytes.len());
        self.bytes.extend_from_slice(&bytes[..count]).unwrap();
        self.written = self.written.saturating_add(bytes.len() as u64);
        Ok(bytes.len())
    }

    fn flush(&mut self) -> Result<(), WriteFailed>
        ensures bytes { Stays (IsWritten self.old) (IsWritten self.new) }
        ensures cause { HasCause 0 0 result }
        ensures never_fails { IsOk result }
        ensures same { self.new ≡ self.old }
    {
        Ok(())
    }
}
