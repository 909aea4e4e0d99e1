use super::Row;
use entity_id::{Counts, Entity};

/// An order: a structural command that a system gives, and that is carried out when all systems of the
/// tick have run. What each means stands in `specs/Orders.antt`. (This project's own.)
#[derive(Clone, Copy, Debug, PartialEq, Eq)]
pub enum Deferred {
    /// Destroy an entity.
    Kill {
        /// The entity.
        entity: Entity,
    },
    /// Set a row, whether or not there is one.
    Give {
        /// The row's entity.
        entity: Entity,
        /// The pool.
        pool: u32,
        /// The row.
        row: Row,
    },
    /// Remove a row.
    Take {
        /// The row's entity.
        entity: Entity,
        /// The pool.
        pool: u32,
    },
    /// Set one field of a row.
    Send {
        /// The row's entity.
        entity: Entity,
        /// The pool.
        pool: u32,
        /// The field's number.
        field: u32,
        /// The field's new value.
        value: i64,
    },
    /// Add to an `int` field of a row; the sum wraps in 64 bits.
    Add {
        /// The row's entity.
        entity: Entity,
        /// The pool.
        pool: u32,
        /// The field's number.
        field: u32,
        /// What is added.
        value: i64,
    },
    /// Make an identifier.
    Spawn,
    /// Set a row of the identifier that the last `Spawn` made.
    Bear {
        /// The pool.
        pool: u32,
        /// The row.
        row: Row,
    },
}

/// How many orders were done, and how many were skipped.
#[derive(Clone, Copy, Debug, PartialEq, Eq)]
pub struct Applied {
    /// Those that were done.
    pub done: u64,
    /// Those that would have been refused, and changed nothing.
    pub skipped: u64,
}

/// What orders need room for.
#[derive(Debug, Drop)]
pub struct Needs {
    /// For each pool, how many rows are added at most.
    pub adds: Counts,
    /// For each pool, how many rows are changed at most.
    pub updates: Counts,
    /// How many identifiers are made at most.
    pub spawns: u64,
}
