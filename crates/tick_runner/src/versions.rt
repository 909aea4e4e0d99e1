//! Pools at versions: a pool's version is how many of its writers have run.

mod fact;
mod laws;

pub use fact::TickFact;
pub use laws::{systems_keep_frames, systems_raise_versions};
