//! A sink in memory, which fails where it is told and where it is full.

ghost use Rattle.std.specs.Prelude.{◌≡◌, ◌<◌, ◌≤◌, ◌↔◌, true, false, [], length, take, IfOk, OnOk, IsErr, OnErr};
ghost use Rattle.ecs_io.specs.Streams.{HasCause, Grows, Stays};
ghost use Rattle.ecs_io.specs.Memory.{IsHeld, IsRefusing, taken_count, failing_flushes};
ghost use Rattle.ecs_io.specs.Memory.{after_write, after_failed_write, after_failed_flush};

use super::{Sink, WriteFailed};
use entity_id::{Counts, OutOfMemory};
use std::alloc::Global;
use std::marker::Model;

/// A sink in memory, which holds at most `room` bytes and takes at most `piece` bytes in a write.
/// Exactly the writes whose numbers, from 0, stand in `fails` fail, and those at a full sink. A flush
/// fails exactly where [`MemSink::fail_flush`] was called.
#[derive(Debug, Drop)]
pub struct MemSink {
    bytes: Vec<u8>,
    room: usize,
    piece: usize,
    fails: Counts,
    writes: u64,
    faults: u64,
    fails_flush: bool,
}

impl Model for MemSink {
    ghost use Rattle.std.specs.Prelude.{◌≤◌, length, vec_capacity};
    ghost use Rattle.ecs_io.specs.Memory.{Store};

    ghost Value = { Store };

    ghost view = { λ a. record {
      bytes = a.bytes.items;
      room = a.room;
      piece = a.piece;
      fails = a.fails;
      writes = a.writes;
      faults = a.faults;
      fails_flush = a.fails_flush;
    } };

    ghost invariant = { λ a.
        (length a.bytes.items ≤ a.room) × (a.room ≤ vec_capacity a.bytes) × (1 ≤ a.piece) };
}

impl MemSink {
    /// A sink that holds nothing, with room for `room` bytes, that takes at most `piece` bytes in a
    /// write. Its writes are numbered from 0, and those whose numbers stand in `fails` fail. No flush
    /// fails.
    /// `OutOfMemory` where there is no memory for `room` bytes: no later call takes any.
    pub fn new(
        alloc: Global,
        room: usize,
        piece: usize,
        fails: Counts,
    ) -> Result<MemSink, OutOfMemory>
        requires { 1 ≤ piece }
        ensures { IfOk result (λ sink. sink ≡
            record {
              bytes = [];
              room = room;
              piece = piece;
              fails = fails;
              writes = 0;
              faults = 0;
              fails_flush = false;
            }) }
    {
        let bytes = Vec::with_capacity(alloc, room)?;
        Ok(MemSink {
            bytes,
            room,
            piece,
            fails,
            writes: 0,
            faults: 0,
            fails_flush: false,
        })
    }

    /// The same sink, of which every later flush fails and raises the count of faults, which stays at
    /// its last value. No memory.
    pub fn fail_flush(self) -> MemSink
        ensures { result ≡ failing_flushes self }
    {
        MemSink {
            fails_flush: true,
            ..self
        }
    }

    /// The bytes held, never more than the room. No memory.
    pub fn bytes(&self) -> &[u8]
        ensures held { result.now ≡ self.now.bytes }
        ensures within { length result.now ≤ self.now.room }
    {
        &self.bytes
    }

    /// How many writes and flushes have failed. No memory.
    pub fn faults(&self) -> u64
        ensures { result ≡ self.now.faults }
    {
        self.faults
    }
}

impl Sink for MemSink {
    ghost holds = { IsHeld };

    ghost faults = { λ s. s.faults };

    fn write(&mut self, bytes: &[u8]) -> Result<usize, WriteFailed>
        requires { 0 < length bytes.now }
        ensures bound { IfOk result (λ n. (0 < n) × (n ≤ length bytes.now)) }
        ensures bytes { IfOk result (λ n. Grows (IsHeld self.old) (IsHeld self.new) (take n bytes.now)) }
        ensures err { OnErr result (Stays (IsHeld self.old) (IsHeld self.new)) }
        ensures cause { HasCause self.old.faults self.new.faults result }
        ensures fails { IsErr result ↔ IsRefusing self.old }
        ensures count { IfOk result (λ n. n ≡ taken_count self.old (length bytes.now)) }
        ensures taken { IfOk result (λ n. self.new ≡ after_write self.old (take n bytes.now)) }
        ensures failed { OnErr result (self.new ≡ after_failed_write self.old) }
    {
        let number = self.writes;
        self.writes = self.writes.saturating_add(1);
        let left = self.room - self.bytes.len();
        if left == 0 || self.fails.as_slice().contains(&number) {
            self.faults = self.faults.saturating_add(1);
            return Err(WriteFailed);
        }
        let count = self.piece.min(bytes.len()).min(left);
        self.bytes.extend_from_slice(&bytes[..count]).unwrap();
        Ok(count)
    }

    fn flush(&mut self) -> Result<(), WriteFailed>
        ensures bytes { Stays (IsHeld self.old) (IsHeld self.new) }
        ensures cause { HasCause self.old.faults self.new.faults result }
        ensures fails { IsErr result ↔ (self.old.fails_flush ≡ true) }
        ensures ok { OnOk result (self.new ≡ self.old) }
        ensures failed { OnErr result (self.new ≡ after_failed_flush self.old) }
    {
        if self.fails_flush {
            self.faults = self.faults.saturating_add(1);
            return Err(WriteFailed);
        }
        Ok(())
    }
}
