//! Which systems have to wait for which, as EnTT 3.10's `entt::organizer` finds it from what they read and
//! write.
//!
//! Two systems conflict where one writes a component that the other names; of two that conflict the earlier
//! one comes before the later one. A [`Graph`] of systems tells, for each of them, the earlier ones that
//! conflict with it, and the fewest edges along which all of these are still reached.
//!
//! What this means stands in `specs/Conflicts.antt`, and what a contract sees of a graph in
//! `specs/Graphs.antt`. Laws of it, as that the edges reach what the conflict order reaches and that none
//! of them can be left out, stand in `src/laws.rt`, worked examples in `proofs/Worked*.antt`.
#![tactic(auto)]

mod accesses;
mod building;
mod conflicting;
mod edge;
mod graph;
mod laws;
mod steps;
mod systems;
mod writing;

pub use accesses::{Accesses, copy_access};
pub use conflicting::conflicts;
pub use edge::Edge;
pub use graph::Graph;
pub use laws::{
    conflicting_systems_wait, edges_keep_the_order, every_edge_is_needed, graphs_are_unique,
    systems_have_edges, waves_rise,
};
pub use systems::{SYSTEM_LIMIT, Systems};
pub use writing::{need, writers};

#[cfg(test)]
mod tests;
