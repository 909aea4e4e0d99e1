//! Adapters of std's readers and writers.

ghost use Rattle.std.specs.Prelude.{◌≡◌, ◌<◌, ◌≤◌, length, take, IfOk, OnErr};
ghost use Rattle.std.specs.Io.{ReadsAtMost};
ghost use Rattle.std.specs.Io.KnownBytes.{ReadConsumes};
ghost use Rattle.ecs_io.specs.Streams.{HasCause, CountsErrors, IsKnownAs, Grows, Stays};
ghost use Rattle.ecs_io.specs.Adapters.{reader, read_faults, writer, write_faults};

use super::{ReadFailed, Sink, Source, WriteFailed};
use std::io::{Read, Write};

/// A reader of std, and how often it has failed.
#[derive(Debug, Drop)]
pub struct StdSource<R: Read> {
    inner: R,
    faults: u64,
}

impl<R: Read> StdSource<R> {
    /// A source of what the reader gives. No memory.
    pub fn new(input: R) -> StdSource<R>
        ensures input { reader result ≡ input }
        ensures faults { read_faults result ≡ 0 }
    {
        StdSource {
            inner: input,
            faults: 0,
        }
    }

    /// How many reads have failed, a count that stays at `u64::MAX`. No memory.
    pub fn faults(&self) -> u64
        ensures { result ≡ read_faults self.now }
    {
        self.faults
    }
}

impl<R: Read> Source for StdSource<R> {
    ghost left = { λ s. R.remaining (reader s) };

    ghost faults = { λ s. read_faults s };

    fn read(&mut self, buf: &mut [u8]) -> Result<usize, ReadFailed>
        requires { 0 < length buf.old }
        ensures bound { ReadsAtMost result buf.new }
        ensures bytes { ReadConsumes (R.remaining (reader self.old)) (R.remaining (reader self.new))
            result buf.new }
        ensures cause { HasCause (read_faults self.old) (read_faults self.new) result }
        ensures counted { CountsErrors (read_faults self.old) (read_faults self.new) result }
    {
        match self.inner.read(buf) {
            Ok(count) => Ok(count),
            Err(_) => {
                self.faults = self.faults.saturating_add(1);
                Err(ReadFailed)
            }
        }
    }
}

/// A writer of std, and how often it has failed. A write that takes nothing is a fault.
#[derive(Debug, Drop)]
pub struct StdSink<W: Write> {
    inner: W,
    faults: u64,
}

impl<W: Write> StdSink<W> {
    /// A sink that hands its bytes to the writer. No memory.
    pub fn new(output: W) -> StdSink<W>
        ensures output { writer result ≡ output }
        ensures faults { write_faults result ≡ 0 }
    {
        StdSink {
            inner: output,
            faults: 0,
        }
    }

    /// How many writes and flushes have failed, a count that stays at `u64::MAX`. No memory.
    pub fn faults(&self) -> u64
        ensures { result ≡ write_faults self.now }
    {
        self.faults
    }
}

impl<W: Write> Sink for StdSink<W> {
    ghost holds = { λ s. IsKnownAs (W.contents (writer s)) };

    ghost faults = { λ s. write_faults s };

    fn write(&mut self, bytes: &[u8]) -> Result<usize, WriteFailed>
        requires { 0 < length bytes.now }
        ensures bound { IfOk result (λ n. (0 < n) × (n ≤ length bytes.now)) }
        ensures bytes { IfOk result (λ n. Grows (IsKnownAs (W.contents (writer self.old)))
            (IsKnownAs (W.contents (writer self.new))) (take n bytes.now)) }
        ensures err { OnErr result (Stays (IsKnownAs (W.contents (writer self.old)))
            (IsKnownAs (W.contents (writer self.new)))) }
        ensures cause { HasCause (write_faults self.old) (write_faults self.new) result }
        ensures counted { CountsErrors (write_faults self.old) (write_faults self.new) result }
    {
        match self.inner.write(bytes) {
            Ok(count) if count > 0 => Ok(count),
            _ => {
                self.faults = self.faults.saturating_add(1);
                Err(WriteFailed)
            }
        }
    }

    fn flush(&mut self) -> Result<(), WriteFailed>
        ensures bytes { Stays (IsKnownAs (W.contents (writer self.old)))
            (IsKnownAs (W.contents (writer self.new))) }
        ensures cause { HasCause (write_faults self.old) (write_faults self.new) result }
        ensures counted { CountsErrors (write_faults self.old) (write_faults self.new) result }
    {
        match self.inner.flush() {
            Ok(()) => Ok(()),
            Err(_) => {
                self.faults = self.faults.saturating_add(1);
                Err(WriteFailed)
            }
        }
    }
}
