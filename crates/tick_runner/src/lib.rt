//! Ticks: every system once, in order, each on the rows that those before it left, and then the orders of
//! each, in the same order.
//!
//! [`tick_plain`] is a tick on one thread. [`tick_shared`] is one by several workers: its contract is the
//! same, so no order in which the workers come to the systems changes anything. Each pool stands in a slot
//! with a version, which is how many of its writers have run (`versions`); a worker claims a system that
//! waits for no other, takes one turn at each pool that the system names, at the version that the system
//! needs (`turns`), runs it, puts back what it wrote and keeps its orders (`worker`). All memory that this
//! wants is taken before the first worker starts (`plan`); in the end the orders of all workers are brought
//! together (`together`). Nothing is said of progress.
//!
//! What a tick leaves stands in `specs/Ticking.antt`, and what a pool has at a version in
//! `specs/Versions.antt`.
#![tactic(auto)]

mod applying;
mod crossing;
mod gate;
mod laws;
mod lending;
mod plan;
mod preparing;
mod running;
mod shared;
mod tick;
mod together;
mod turns;
mod versions;
mod worker;

pub use gate::{Gate, NoGate};
pub use laws::registries_tick_as_worlds;
pub use shared::tick_shared;
pub use tick::tick_plain;
pub use versions::systems_raise_versions;

#[cfg(test)]
mod tests;
