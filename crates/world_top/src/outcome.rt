ghost use Rattle.std.specs.Prelude.{◌≡◌};
ghost use Rattle.std.specs.Process.{exit_status};
ghost use Rattle.world_top.specs.Endings.{number_at, number_of};

use std::process::ExitCode;

/// Where the first bad part of an input is: the first that is not admissible, or that is missing.
#[derive(Clone, Copy, Debug, PartialEq, Eq)]
pub enum FaultAt {
    /// A line of a text.
    Line {
        /// The line's number, from 1.
        line: u64,
    },
    /// A field of a binary snapshot.
    Offset {
        /// How many bytes stand before the field.
        offset: u64,
    },
}

impl FaultAt {
    /// The line's number, or the field's offset. No memory.
    pub fn number(self) -> u64
        ensures { result ≡ number_at self }
    {
        match self {
            FaultAt::Line { line } => line,
            FaultAt::Offset { offset } => offset,
        }
    }
}

/// How a call of the program ended.
#[derive(Clone, Copy, Debug, PartialEq, Eq)]
pub enum Outcome {
    /// All output was written and flushed.
    Done,
    /// The words are no command.
    Usage,
    /// A part of the input is not admissible, or is missing.
    BadInput {
        /// Where the first one is.
        at: FaultAt,
    },
    /// A read failed.
    ReadFault,
    /// A write or a flush failed.
    WriteFault,
    /// The input is longer than the program reads.
    TooLong,
    /// Memory ran out.
    OutOfMemory,
    /// The tick number would pass its limit.
    TickLimit,
}

/// The number with which the program ends.
#[derive(Clone, Copy, Debug, PartialEq, Eq)]
pub struct Status {
    /// 0 where all is done, and else the number of the cause.
    pub number: u8,
}

impl Outcome {
    /// The status of this outcome. No memory.
    pub fn status(self) -> Status
        ensures { result.number ≡ number_of self }
    {
        let number = match self {
            Outcome::Done => 0,
            Outcome::Usage => 2,
            Outcome::BadInput { .. } => 3,
            Outcome::ReadFault => 4,
            Outcome::WriteFault => 5,
            Outcome::TooLong => 6,
            Outcome::OutOfMemory => 7,
            Outcome::TickLimit => 8,
        };
        Status { number }
    }
}

impl Status {
    /// The code with which a process of this status exits. No memory.
    pub fn exit_code(self) -> ExitCode
        ensures { exit_status result ≡ self.number }
    {
        ExitCode::from(self.number)
    }
}
