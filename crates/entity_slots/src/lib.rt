//! The slots of a registry: which identifiers are live, and which index and version the next one
//! gets, as EnTT 3.10 has it.
//!
//! An index is given out again once its owner was destroyed, with the next version, so that the old
//! identifier is dead. It can be live again, but only by way of a hint, or once its index was used as
//! often again as there are versions (4,095 with the profile `P20_12`). The index that was released
//! last is reused first. [`EntitySlots`] does this, and `specs/SlotLists.antt` says what a contract
//! sees of it. What one creation makes of the lists stands in the crate world_model
//! (`specs/Slots.antt`).
#![tactic(auto)]

mod entity_slots;
mod hint;
mod identifiers;
mod loading;
mod refused;

pub use entity_slots::EntitySlots;
pub use refused::{CreateRefused, Dead, Full};

#[cfg(test)]
mod tests;
