//! Registries in use: short functions as a caller of [`registry::Registry`] writes them, each with a
//! contract that is proved. They speak of a scene, a registry of three components: entities have
//! places and velocities, and some are frozen.
//!
//! `beginning.rt` makes a scene, `spawning.rt` makes entities and destroys them, `steering.rt` sets,
//! patches and removes rows, `moving.rt` walks a view, `walking.rt` a group, `listening.rt` connects a
//! listener, and `saving.rt` saves and loads. What the contracts cite stands in `specs/Scenes.antt` and
//! `specs/Moving.antt`.
#![tactic(auto)]

mod beginning;
mod listening;
mod moving;
mod rows;
mod saving;
mod spawning;
mod steering;
mod walking;

pub use beginning::{FROZEN, POSITION, SLOT_LIMIT, VELOCITY, begin};
pub use listening::heard_of_end;
pub use moving::advance_all;
pub use saving::copy;
pub use spawning::{despawn, respawn, spawn};
pub use steering::{lift, set_frozen, steer};
pub use walking::{MOVING, advance_members, group_moving};

#[cfg(test)]
mod tests;
