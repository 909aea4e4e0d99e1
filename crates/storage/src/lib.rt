//! Storages: identifiers with values, in packed order.
//!
//! A [`Storage`] is a sparse set and one value beside each of its identifiers, so that a walk goes
//! over two dense slices. Its contracts see the list of pairs in packed order
//! (`specs/Stored.antt`), and say of each change also what it does to the finite map that the pairs
//! stand for: `emplace` is its `put`, `erase` its `remove`, `get` its `get`. What holds of that map
//! whoever changes it is a law in this crate.
//!
//! A storage may move to a worker, and workers may share it, where its values may.
#![tactic(auto)]

mod arrange;
mod laws;
mod storage;

pub use laws::{
    look_ups_after_changes, look_ups_of_maps, maps_ascend, sizes_of_maps, values_and_keys,
};
pub use storage::Storage;

#[cfg(test)]
mod tests;
