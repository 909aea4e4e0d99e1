//! Registries: the entities of a world, the rows of each component, its owning groups, and the listeners
//! of each component, as EnTT 3.10 has them.
//!
//! A [`Registry`] is seen as a world, the packed list of each pool, and its listeners
//! (`specs/Held.antt`). Each call is the step of its command, as the crate world_model defines it
//! (`specs/Steps.antt`): its reply or its refusal, the world after it, and each listener has heard just
//! the events of its kind and pool. Where each call leaves the pools' packed lists stands in
//! `specs/Packing.antt`, how many steps it counts in `specs/Costs.antt`, and what is true of every
//! registry, its groups among the rest, in `specs/Laws.antt`.
//!
//! [`Registry::apply`] carries out orders, one after another, as world_model defines them
//! (`specs/Orders.antt` there, and `specs/Applying.antt`). [`Registry::reserve_for`] makes room for what
//! orders count (`specs/Rooms.antt`); where it stands, [`Registry::apply_reserved`] carries them out
//! and takes no memory.
#![tactic(auto)]

mod laws;
mod parts;
mod registry;
mod stopped;

pub use laws::{
    packing_without_groups, registries_change_in_parts, worlds_with_other_rows_are_lawful,
};
pub use registry::{Registry, Shell};
pub use stopped::ApplyStopped;
