//! The parts of a registry, and what each call does to them.

pub mod clearing;
pub mod commands;
pub mod components;
mod copying;
pub mod creation;
pub mod fields;
pub mod grouping;
mod keys;
pub mod lawful;
pub mod leaving;
pub mod lending;
pub mod listening;
mod listing;
pub mod loading;
pub mod making;
mod members;
mod one_order;
mod one_pool;
pub mod orders;
pub mod prefixes;
pub mod queries;
mod refusing;
pub mod reserving;
mod rows;
pub mod saving;
pub mod sorting;
pub mod viewing;
pub mod walking;
pub mod width;

use entity_id::Profile;
use entity_slots::EntitySlots;
use group_engine::GroupEngine;
use signal_sink::{Listener, Signal};
use storage::Storage;
use world_model::{DeclList, Row};

/// The components, the slots, for each component a pool and three signals, and the groups. What they stand for
/// and what they keep is in `specs/Layout.antt`.
#[derive(Drop)]
pub struct Parts<L: Listener> {
    /// How large the parts of its identifiers are: the slots have the same.
    pub profile: Profile,
    /// The components, by number.
    pub decls: DeclList,
    /// The entities.
    pub slots: EntitySlots,
    /// The rows of each component.
    pub pools: Vec<Storage<Row>>,
    /// The groups, whose members stand first in the pools that they own.
    pub groups: GroupEngine,
    /// Who hears of rows added.
    pub construct: Vec<Signal<L>>,
    /// Who hears of rows replaced and of fields set.
    pub update: Vec<Signal<L>>,
    /// Who hears of rows removed: each has room for as many events as its pool has rows.
    pub destroy: Vec<Signal<L>>,
}
