//! The two traits of streams.

ghost use Rattle.std.specs.Prelude.{◌≡◌, ℕ, ◌<◌, ◌≤◌, List, Option, length, take, IfOk, OnErr};
ghost use Rattle.std.specs.Io.{ReadsAtMost};
ghost use Rattle.std.specs.Io.KnownBytes.{ReadConsumes};
ghost use Rattle.ecs_io.specs.Streams.{HasCause, Grows, Stays};

use super::{ReadFailed, WriteFailed};

/// A source of bytes, which counts its failed reads.
pub trait Source {
    /// The bytes that reads will give from here on, where the source tells.
    ghost left: { Self → Option (List ℕ) };

    /// How often a read has failed, a number of 64 bits that stays at its last value.
    ghost faults: { Self → ℕ };

    /// Reads the next bytes into the front of `buf` and answers how many they are: `Ok(0)` is the
    /// end of the input. `ReadFailed` comes only where the count of faults rose in this call, and
    /// then no byte is taken. No memory.
    fn read(&mut self, buf: &mut [u8]) -> Result<usize, ReadFailed>
        requires { 0 < length buf.old }
        ensures bound { ReadsAtMost result buf.new }
        ensures bytes { ReadConsumes (left self.old) (left self.new) result buf.new }
        ensures cause { HasCause (faults self.old) (faults self.new) result };
}

/// A sink of bytes, which counts its failed writes and flushes.
pub trait Sink {
    /// That these bytes are what was written to the sink so far, as far as it tells: true of one
    /// list where it tells all, of every list with the same kept front where it keeps a front, and of
    /// none where it tells nothing.
    ghost holds: { Self → List ℕ → Type 0 };

    /// How often a write or a flush has failed, a number of 64 bits that stays at its last value.
    ghost faults: { Self → ℕ };

    /// Appends a front of the bytes, of at least one byte, and answers how many it appended.
    /// `WriteFailed` comes only where the count of faults rose in this call, and then nothing is
    /// appended. No memory.
    fn write(&mut self, bytes: &[u8]) -> Result<usize, WriteFailed>
        requires { 0 < length bytes.now }
        ensures bound { IfOk result (λ n. (0 < n) × (n ≤ length bytes.now)) }
        ensures bytes { IfOk result (λ n.
            Grows (holds self.old) (holds self.new) (take n bytes.now)) }
        ensures err { OnErr result (Stays (holds self.old) (holds self.new)) }
        ensures cause { HasCause (faults self.old) (faults self.new) result };

    /// Passes on what was appended, and changes nothing that is held. `WriteFailed` comes only
    /// where the count of faults rose in this call. No memory.
    fn flush(&mut self) -> Result<(), WriteFailed>
        ensures bytes { Stays (holds self.old) (holds self.new) }
        ensures cause { HasCause (faults self.old) (faults self.new) result };
}
