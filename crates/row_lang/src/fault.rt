ghost use Rattle.std.specs.Prelude.{◌≡◌};
ghost use Rattle.row_lang.specs.declared.fault.LineFault.TheVariants as line_fault;

use entity_id::OutOfMemory;
use std::alloc::{AllocError, AllocFailed};

/// Why a line was not taken.
#[derive(Clone, Copy, Debug, PartialEq, Eq)]
pub enum LineFault {
    /// It is not admissible where it stands.
    Bad,
    /// Memory ran out.
    OutOfMemory,
}

impl From<AllocError> for LineFault {
    ghost from_gives = { λ _ e. e ≡ line_fault.OutOfMemory };

    fn from(_e: AllocError) -> LineFault {
        LineFault::OutOfMemory
    }
}

impl<T: Drop> From<AllocFailed<T>> for LineFault {
    ghost from_gives = { λ _ e. e ≡ line_fault.OutOfMemory };

    fn from(_e: AllocFailed<T>) -> LineFault {
        LineFault::OutOfMemory
    }
}

impl From<OutOfMemory> for LineFault {
    ghost from_gives = { λ _ e. e ≡ line_fault.OutOfMemory };

    fn from(_e: OutOfMemory) -> LineFault {
        LineFault::OutOfMemory
    }
}
