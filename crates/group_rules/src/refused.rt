//! Why a group is refused.

ghost use Rattle.std.specs.Prelude.{◌≡◌};
ghost use Rattle.group_rules.specs.declared.refused.FamilyRefused.TheVariants as refused;
ghost use Rattle.group_rules.specs.Refusals.{of_decl, of_family};

use std::alloc::AllocFailed;
use world_model::Refusal;

/// Why a declaration is no group's.
#[derive(Clone, Copy, Debug, PartialEq, Eq)]
pub enum DeclRefused {
    /// It names a pool that isn't there.
    NoPool,
    /// It owns no pool, names one twice, or names too many.
    BadDecl,
}

/// Why a group was not added.
#[derive(Clone, Copy, Debug, PartialEq, Eq)]
pub enum FamilyRefused {
    /// This group and the new one own a pool in common, and neither is inner to the other.
    Conflict {
        /// The least such group.
        with: u32,
    },
    /// The groups are as many as may be.
    TooMany,
    /// Memory ran out.
    OutOfMemory,
}

impl<T: Drop> From<AllocFailed<T>> for FamilyRefused {
    ghost from_gives = { λ _ e. e ≡ refused.OutOfMemory };

    fn from(_e: AllocFailed<T>) -> FamilyRefused {
        FamilyRefused::OutOfMemory
    }
}

impl From<DeclRefused> for Refusal {
    ghost from_gives = { λ e refusal. refusal ≡ of_decl e };

    fn from(e: DeclRefused) -> Refusal {
        match e {
            DeclRefused::NoPool => Refusal::NoPool,
            DeclRefused::BadDecl => Refusal::BadDecl,
        }
    }
}

impl From<FamilyRefused> for Refusal {
    ghost from_gives = { λ e refusal. refusal ≡ of_family e };

    fn from(e: FamilyRefused) -> Refusal {
        match e {
            FamilyRefused::Conflict { with } => Refusal::Conflict { with },
            FamilyRefused::TooMany => Refusal::TooMany,
            FamilyRefused::OutOfMemory => Refusal::OutOfMemory,
        }
    }
}
