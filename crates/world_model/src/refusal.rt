ghost use Rattle.std.specs.Prelude.{◌≡◌};
ghost use Rattle.world_model.specs.Refusals.{number_of};

/// Why a command was refused. A refused command changes nothing.
#[derive(Clone, Copy, Debug, PartialEq, Eq)]
pub enum Refusal {
    /// The identifier is not live.
    Dead,
    /// The entity is in the pool.
    Present,
    /// The entity is not in the pool.
    Absent,
    /// No index is free, and the slots are as many as may be.
    Full,
    /// This group and the new one own a pool in common, and neither is inner to the other.
    Conflict {
        /// The least such group.
        with: u32,
    },
    /// A group owns the pool.
    Owned {
        /// The least such group.
        by: u32,
    },
    /// There is no room for one more.
    TooMany,
    /// A named pool is not declared.
    NoPool,
    /// A group's declaration owns no pool, names one twice, or names too many.
    BadDecl,
    /// Memory ran out.
    OutOfMemory,
    /// There is no group of this number.
    NoGroup,
    /// A more restrictive group owns one of the group's pools.
    HasInner {
        /// The least such group.
        with: u32,
    },
    /// The field can't be sorted by: it isn't there, isn't of kind `int`, or its pool isn't the group's.
    BadKey,
    /// No connected listener has this number.
    Unknown,
}

impl Refusal {
    /// The refusal's number, from 1. No memory. (This project's own.)
    pub fn number(&self) -> u32
        ensures { result ≡ number_of self.now }
    {
        match self {
            Refusal::Dead => 1,
            Refusal::Present => 2,
            Refusal::Absent => 3,
            Refusal::Full => 4,
            Refusal::Conflict { .. } => 5,
            Refusal::Owned { .. } => 6,
            Refusal::TooMany => 7,
            Refusal::NoPool => 8,
            Refusal::BadDecl => 9,
            Refusal::OutOfMemory => 10,
            Refusal::NoGroup => 11,
            Refusal::HasInner { .. } => 12,
            Refusal::BadKey => 13,
            Refusal::Unknown => 14,
        }
    }
}
