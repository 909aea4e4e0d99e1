//! Why a call is refused.

ghost use Rattle.std.specs.Prelude.{◌≡◌};
ghost use Rattle.entity_slots.specs.declared.refused.CreateRefused.TheVariants as refused;

use entity_id::OutOfMemory;

/// Why no identifier was made.
#[derive(Clone, Copy, Debug, PartialEq, Eq)]
pub enum CreateRefused {
    /// No index is free, and the slots are as many as may be.
    Full,
    /// Memory ran out.
    OutOfMemory,
}

impl From<OutOfMemory> for CreateRefused {
    ghost from_gives = { λ _ e. e ≡ refused.OutOfMemory };

    fn from(_e: OutOfMemory) -> CreateRefused {
        CreateRefused::OutOfMemory
    }
}

impl From<Full> for CreateRefused {
    ghost from_gives = { λ _ e. e ≡ refused.Full };

    fn from(_e: Full) -> CreateRefused {
        CreateRefused::Full
    }
}

/// No index is free, and the slots are as many as may be.
#[derive(Clone, Copy, Debug, PartialEq, Eq)]
pub struct Full;

/// The identifier is not live: its index is free, has another version, or was never given out.
#[derive(Clone, Copy, Debug, PartialEq, Eq)]
pub struct Dead;
