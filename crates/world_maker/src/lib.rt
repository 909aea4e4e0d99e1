//! Made worlds, to try and to measure systems with: the document that a number and a count of entities
//! stand for, and the summary of a world.
//!
//! [`make_world`] makes a document of nine components, three groups and twelve systems, whose rows are
//! told by the numbers that the made world's own number draws. What it is stands in
//! `specs/MadeWorlds.antt`, and what is drawn in `specs/Draws.antt`. [`summary`] counts what a registry
//! holds, as `specs/Summaries.antt` says. Worked examples are in `proofs/Worked*.antt`.
#![tactic(auto)]

mod draws;
mod entity_rows;
mod frame;
mod laws;
mod making;
mod pools;
mod summaries;
mod tally;

pub use laws::made_worlds_are_unique;
pub use making::{COUNT_LIMIT, make_world};
pub use summaries::summary;

#[cfg(test)]
mod tests;
