//! Why a call on a stream was refused.

ghost use Rattle.std.specs.Prelude.{◌≡◌, Some, codes};
ghost use Rattle.ecs_io.specs.declared.refused.ReadRefused.TheVariants as refused;
ghost use Rattle.ecs_io.specs.Refusals.{refusal_text};

use std::alloc::AllocError;
use std::error::Error;
use std::fmt;

/// The source failed at a read, and its count of faults has risen.
#[derive(Clone, Copy, Debug, PartialEq, Eq)]
pub struct ReadFailed;

/// The sink failed at a write or a flush, and its count of faults has risen.
#[derive(Clone, Copy, Debug, PartialEq, Eq)]
pub struct WriteFailed;

/// Why a source was not read to its end.
#[derive(Clone, Copy, Debug, PartialEq, Eq)]
pub enum ReadRefused {
    /// The source failed at a read, and its count of faults has risen.
    ReadFailed,
    /// The source has more bytes than the limit.
    TooLong,
    /// There was no memory for the bytes.
    OutOfMemory,
}

impl fmt::Display for ReadFailed {
    ghost output = { λ _. Some (codes "a read failed") };

    fn fmt<W: fmt::Write>(&self, f: &mut fmt::Formatter<W>) -> fmt::Result {
        write!(f, "a read failed")
    }
}

impl fmt::Display for WriteFailed {
    ghost output = { λ _. Some (codes "a write failed") };

    fn fmt<W: fmt::Write>(&self, f: &mut fmt::Formatter<W>) -> fmt::Result {
        write!(f, "a write failed")
    }
}

impl fmt::Display for ReadRefused {
    ghost output = { λ refusal. Some (refusal_text refusal) };

    fn fmt<W: fmt::Write>(&self, f: &mut fmt::Formatter<W>) -> fmt::Result {
        match self {
            ReadRefused::ReadFailed => write!(f, "a read failed"),
            ReadRefused::TooLong => write!(f, "the input is too long"),
            ReadRefused::OutOfMemory => write!(f, "out of memory"),
        }
    }
}

impl Error for ReadFailed {}

impl Error for WriteFailed {}

impl Error for ReadRefused {}

impl From<ReadFailed> for ReadRefused {
    ghost from_gives = { λ _ e. e ≡ refused.ReadFailed };

    fn from(_e: ReadFailed) -> ReadRefused {
        ReadRefused::ReadFailed
    }
}

impl From<AllocError> for ReadRefused {
    ghost from_gives = { λ _ e. e ≡ refused.OutOfMemory };

    fn from(_e: AllocError) -> ReadRefused {
        ReadRefused::OutOfMemory
    }
}
