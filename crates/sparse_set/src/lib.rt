//! Sparse sets: a packed list of identifiers, and where each of them stands in it.
//!
//! A [`SparseSet`] answers in constant time whether an identifier is contained and at which place,
//! and keeps its identifiers side by side for a walk. Its contracts see a list, a number of
//! reserved pushes and a bound below which their indices lie (`specs/PackedSets.antt`). How the
//! places are kept is no part of a contract (`specs/Places.antt`).
//!
//! Each `push`, `swap_at` and `swap_pop` is one step of a [`Steps`], a count that costs nothing
//! when the program runs. A set may move to a worker, and workers may share it.
#![tactic(auto)]

mod arrange;
mod order;
mod pages;
mod places;
mod refusals;
mod sparse_set;
mod steps;

pub use refusals::{Absent, PushRefused};
pub use sparse_set::SparseSet;
pub use steps::Steps;

#[cfg(test)]
mod tests;
