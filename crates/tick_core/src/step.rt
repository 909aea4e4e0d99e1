//! What a system of a tick does, step by step.

/// One step of one system of a tick. A system is its place in the list of all. (This project's own.)
#[derive(Clone, Copy, Debug, PartialEq, Eq)]
pub enum Step {
    /// The system begins.
    Claim {
        /// The number of the system.
        system: u32,
    },
    /// The system takes a pool that it names: for itself alone where it writes the pool.
    Take {
        /// The number of the system.
        system: u32,
        /// The number of the pool.
        pool: u32,
    },
    /// The system gives back a pool that it doesn't write.
    Leave {
        /// The number of the system.
        system: u32,
        /// The number of the pool.
        pool: u32,
    },
    /// The system gives back a pool that it writes, at the next version.
    Put {
        /// The number of the system.
        system: u32,
        /// The number of the pool.
        pool: u32,
    },
    /// The system is done.
    Finish {
        /// The number of the system.
        system: u32,
    },
}
