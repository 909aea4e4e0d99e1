//! Owning groups, kept in packed pools while rows come and go.
//!
//! The members of a group are the identifiers that are in all pools that it owns or observes and in none
//! that it excludes. They stand at the front of each owned pool, in one common order, so that a walk of the
//! group goes over dense slices. Groups may be nested: then the inner group's members are the first of the
//! outer one's, so an identifier enters the outer group first and leaves it last.
//!
//! A [`GroupEngine`] holds the declarations and how many members each group has; the pools are handed to
//! each call. Contracts see the groups place by place (`specs/Grouped.antt`): in each owned pool an
//! identifier stands below the group's length exactly where it matches. That these are the lawful groups
//! over the maps is a law ([`groups_are_lawful`]), and so is what one changed pool makes of them
//! ([`groups_after_changes`]).
#![tactic(auto)]

mod building;
mod changes;
mod clearing;
mod engine;
mod filling;
mod laws;
mod marking;
mod moving;
mod passes;
mod places;
mod refused;
mod searching;
mod sorting;
mod testing;
mod walking;

pub use engine::GroupEngine;
pub use laws::{groups_after_changes, groups_are_lawful};
pub use refused::SortRefused;

#[cfg(test)]
mod tests;
