//! A source in memory, which fails where it is told.

ghost use Rattle.std.specs.Prelude.{◌≡◌, ℕ, ◌<◌, ◌≤◌, ◌↔◌, length, Some, [], IfOk, IsErr, OnErr, Contains};
ghost use Rattle.std.specs.Io.{ReadsAtMost};
ghost use Rattle.std.specs.Io.KnownBytes.{ReadConsumes};
ghost use Rattle.ecs_io.specs.Streams.{HasCause};
ghost use Rattle.ecs_io.specs.Memory.{given_count, after_read, after_failed_read};

use super::{ReadFailed, Source};
use entity_id::Counts;
use std::marker::Model;

/// A source over bytes in memory, which gives at most `piece` bytes in a read. Exactly the reads
/// whose numbers, from 0, stand in `fails` fail.
#[derive(Debug, Drop)]
pub struct MemSource {
    bytes: Vec<u8>,
    at: usize,
    piece: usize,
    fails: Counts,
    reads: u64,
    faults: u64,
}

impl Model for MemSource {
    ghost use Rattle.std.specs.Prelude.{◌≤◌, length, drop};
    ghost use Rattle.ecs_io.specs.Memory.{Supply};

    ghost Value = { Supply };

    ghost view = { λ a. record {
      left = drop a.at a.bytes.items;
      piece = a.piece;
      fails = a.fails;
      reads = a.reads;
      faults = a.faults;
    } };

    ghost invariant = { λ a. (a.at ≤ length a.bytes.items) × (1 ≤ a.piece) };
}

impl MemSource {
    /// A source that will give these bytes, at most `piece` of them in a read. Its reads are
    /// numbered from 0, and those whose numbers stand in `fails` fail. No memory.
    pub fn new(bytes: Vec<u8>, piece: usize, fails: Counts) -> MemSource
        requires { 1 ≤ piece }
        ensures { result ≡
            record { left = bytes.items; piece = piece; fails = fails; reads = 0; faults = 0 } }
    {
        MemSource {
            bytes,
            at: 0,
            piece,
            fails,
            reads: 0,
            faults: 0,
        }
    }

    /// How many bytes are left. No memory.
    pub fn left(&self) -> usize
        ensures { result ≡ length self.now.left }
    {
        self.bytes.len() - self.at
    }

    /// How many reads have failed. No memory.
    pub fn faults(&self) -> u64
        ensures { result ≡ self.now.faults }
    {
        self.faults
    }
}

impl Source for MemSource {
    ghost left = { λ s. Some s.left };

    ghost faults = { λ s. s.faults };

    fn read(&mut self, buf: &mut [u8]) -> Result<usize, ReadFailed>
        requires { 0 < length buf.old }
        ensures bound { ReadsAtMost result buf.new }
        ensures bytes { ReadConsumes (Some self.old.left) (Some self.new.left) result buf.new }
        ensures cause { HasCause self.old.faults self.new.faults result }
        ensures fails { IsErr result ↔ Contains self.old.fails self.old.reads }
        ensures count { IfOk result (λ n. n ≡ given_count self.old (length buf.old)) }
        ensures given { IfOk result (λ n. self.new ≡ after_read self.old n) }
        ensures failed { OnErr result (self.new ≡ after_failed_read self.old) }
    {
        let number = self.reads;
        self.reads = self.reads.saturating_add(1);
        if self.fails.as_slice().contains(&number) {
            self.faults = self.faults.saturating_add(1);
            return Err(ReadFailed);
        }
        let count = self.piece.min(buf.len()).min(self.bytes.len() - self.at);
        buf[..count].copy_from_slice(&self.bytes[self.at..self.at + count]);
        self.at += count;
        Ok(count)
    }
}
