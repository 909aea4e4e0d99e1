//! Systems of the language, run on lent pools.
//!
//! A [`RowSystem`] walks over the pool of its own that has the fewest entities, or over the prefix that
//! is lent, 64 entities at a time (`walk`). For a batch it finds the rows in each own pool, strikes out
//! the entities that lack one or that an excluded pool has, carries the body out (`body`) and stores
//! the rows. A body runs a column at a time: each value of an expression is a column of 64 lanes, and
//! each token one loop over them. So a body is read once for 64 entities, and no row costs more than
//! the arithmetic that stands in the text.
//!
//! What a run does is told twice: by the lent pools (`specs/Walks.antt`), so that what one batch does
//! and what the next one does make what both do, and by maps, as the trait tells it.
#![tactic(auto)]

mod body;
mod laws;
mod row_system;
mod sizes;
mod walk;

pub use laws::systems_of_lines_may_run;
pub use row_system::RowSystem;
