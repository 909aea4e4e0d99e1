//! Views: walks over the identifiers that are in several sets and in none of some others.
//!
//! A [`View`] borrows sparse sets and takes no memory. It walks the smallest set that it includes, its
//! leading set, from the back to the front, and asks each other set once an identifier. Its contracts
//! see the packed lists of its sets (`specs/ViewedSets.antt`), and its walk, a [`ViewIter`], as the
//! list of what it has left. The laws tie both to the identifiers that match in pools, whose maps are
//! what contracts of other crates see (`specs/ViewedPools.antt`).
#![tactic(auto)]

mod laws;
mod sets;
mod view;
mod walk;

pub use laws::{leading_is_the_first_smallest, views_of_pools_match, walks_are_exact};
pub use view::{SET_LIMIT, View};
pub use walk::ViewIter;

#[cfg(test)]
mod tests;
