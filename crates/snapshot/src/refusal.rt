ghost use Rattle.std.specs.Prelude.{◌≡◌};
ghost use Rattle.snapshot.specs.declared.refusal.PackRefused.TheVariants as pack_refused;

use entity_id::OutOfMemory;
use row_lang::LineFault;
use std::alloc::{AllocError, AllocFailed};

/// Why bytes were not read as a snapshot.
#[derive(Clone, Copy, Debug, PartialEq, Eq)]
pub enum PackRefused {
    /// The first field that is not admissible, or that is missing, starts at this byte, counted
    /// from 0.
    BadAt {
        /// How many bytes stand before the field.
        offset: u64,
    },
    /// Memory ran out.
    OutOfMemory,
}

impl From<OutOfMemory> for PackRefused {
    ghost from_gives = { λ _ e. e ≡ pack_refused.OutOfMemory };

    fn from(_e: OutOfMemory) -> PackRefused {
        PackRefused::OutOfMemory
    }
}

impl From<AllocError> for PackRefused {
    ghost from_gives = { λ _ e. e ≡ pack_refused.OutOfMemory };

    fn from(_e: AllocError) -> PackRefused {
        PackRefused::OutOfMemory
    }
}

impl<T: Drop> From<AllocFailed<T>> for PackRefused {
    ghost from_gives = { λ _ e. e ≡ pack_refused.OutOfMemory };

    fn from(_e: AllocFailed<T>) -> PackRefused {
        PackRefused::OutOfMemory
    }
}

// The refusal of a field that starts at this byte, by what its line was refused for.
pub(super) fn refused(fault: LineFault, at: usize) -> PackRefused
    ensures bad { fault ≡ LineFault.Bad → result ≡ PackRefused.BadAt at }
    ensures memory { fault ≡ LineFault.OutOfMemory → result ≡ PackRefused.OutOfMemory }
{
    match fault {
        LineFault::Bad => PackRefused::BadAt { offset: at as u64 },
        LineFault::OutOfMemory => PackRefused::OutOfMemory,
    }
}
