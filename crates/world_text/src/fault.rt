ghost use Rattle.std.specs.Prelude.{◌≡◌};
ghost use Rattle.world_text.specs.declared.fault.TextRefused.TheVariants as text_refused;

use entity_id::OutOfMemory;
use std::alloc::AllocFailed;

/// Why a text was not read.
#[derive(Clone, Copy, Debug, PartialEq, Eq)]
pub enum TextRefused {
    /// This line, counted from 1, is the first that is not admissible, or that is missing.
    BadLine {
        /// The line's number.
        line: u64,
    },
    /// Memory ran out.
    OutOfMemory,
}

impl From<OutOfMemory> for TextRefused {
    ghost from_gives = { λ _ e. e ≡ text_refused.OutOfMemory };

    fn from(_e: OutOfMemory) -> TextRefused {
        TextRefused::OutOfMemory
    }
}

impl<T: Drop> From<AllocFailed<T>> for TextRefused {
    ghost from_gives = { λ _ e. e ≡ text_refused.OutOfMemory };

    fn from(_e: AllocFailed<T>) -> TextRefused {
        TextRefused::OutOfMemory
    }
}
