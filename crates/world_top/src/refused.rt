ghost use Rattle.std.specs.Prelude.{◌≡◌};
ghost use Rattle.world_top.specs.declared.refused.InputRefused.TheVariants as refused;
ghost use Rattle.world_top.specs.Output.{cause_of_snapshot, cause_of_text};

use super::FaultAt;
use entity_id::OutOfMemory;
use snapshot::PackRefused;
use world_text::TextRefused;

/// Why a command has no output for an input.
#[derive(Clone, Copy, Debug, PartialEq, Eq)]
pub enum InputRefused {
    /// A part of the input is not admissible, or is missing.
    BadInput {
        /// Where the first one is.
        at: FaultAt,
    },
    /// Memory ran out.
    OutOfMemory,
    /// The tick number would pass its limit.
    TickLimit,
}

impl From<TextRefused> for InputRefused {
    ghost from_gives = { λ text e. e ≡ cause_of_text text };

    fn from(text: TextRefused) -> InputRefused {
        match text {
            TextRefused::BadLine { line } => InputRefused::BadInput {
                at: FaultAt::Line { line },
            },
            TextRefused::OutOfMemory => InputRefused::OutOfMemory,
        }
    }
}

impl From<PackRefused> for InputRefused {
    ghost from_gives = { λ packed e. e ≡ cause_of_snapshot packed };

    fn from(packed: PackRefused) -> InputRefused {
        match packed {
            PackRefused::BadAt { offset } => InputRefused::BadInput {
                at: FaultAt::Offset { offset },
            },
            PackRefused::OutOfMemory => InputRefused::OutOfMemory,
        }
    }
}

impl From<OutOfMemory> for InputRefused {
    ghost from_gives = { λ _ e. e ≡ refused.OutOfMemory };

    fn from(_e: OutOfMemory) -> InputRefused {
        InputRefused::OutOfMemory
    }
}
