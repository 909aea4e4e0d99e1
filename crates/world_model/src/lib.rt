//! The plain data of a world of entities (components, slots, the free list, groups and the rows of
//! each pool), of the commands that change it and of what they answer; and the forms of names, numbers
//! and values in its texts.
//!
//! What a lawful world is stands in `specs/Worlds.antt`, what every command means in
//! `specs/Refusing.antt`, `specs/Outcomes.antt` and `specs/Steps.antt`, what the orders of a tick mean
//! in `specs/Orders.antt` and `specs/Ticks.antt`. Laws of them all, as that a lawful world stays lawful,
//! stand in `src/laws.rt` and `src/tick_laws.rt`, worked examples in `proofs/Worked*.antt`.
#![tactic(auto)]

mod access;
mod command;
mod component;
mod deferred;
mod event;
mod group;
mod group_laws;
mod integer;
mod laws;
mod lists;
mod name;
mod refusal;
mod slot;
mod tick_laws;
mod tokens;
mod world;

pub use access::Access;
pub use command::{Command, Reply};
pub use component::{Decl, Kind, Row};
pub use deferred::{Applied, Deferred, Needs};
pub use entity_id::{read_nat, take_nat};
pub use event::{Event, EventKind};
pub use group::GroupDecl;
pub use group_laws::{
    lists_ascend, nested_groups, packed_groups, rows_are_sorted, sorts_are_whole,
};
pub use integer::{read_int, take_int};
pub use laws::{
    commands_ignore_the_tick, commands_in_parts, commands_keep_components,
    commands_keep_worlds_lawful, commands_list_in_order, commands_tell_live_entities,
    entities_live_until_destroyed, refused_commands_change_nothing,
};
pub use lists::{DeclList, FreeList, GroupList, PoolList, Rows, SlotList};
pub use name::is_name;
pub use refusal::Refusal;
pub use slot::{Slot, is_live};
pub use tick_laws::{
    orders_in_parts, orders_keep_worlds_lawful, ticks_in_parts, ticks_keep_worlds_lawful,
};
pub use tokens::{FieldAt, is_target, read_field, read_name, read_value};
pub use world::World;

#[cfg(test)]
mod tests;
