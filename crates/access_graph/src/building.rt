//! A graph on the way: that of the first systems.

ghost use Rattle.std.specs.Prelude.{◌≡◌, ◌<◌, ◌≤◌, ◌+◌, List, length, OnOk};
ghost use Rattle.world_model.specs.declared.access.Access.{Access};
ghost use Rattle.access_graph.specs.Building.{IsBuilt};
ghost use Rattle.access_graph.specs.Systems.{system_limit};

use super::steps::{Earlier, add_edges, earlier_than};
use super::{Edge, Systems};
use entity_id::OutOfMemory;
use std::alloc::Global;
use world_model::Access;

// What is known of the first systems: for each of them whom it waits for, who reaches it, and its wave;
// and the edges to all of them.
#[derive(Drop)]
pub(crate) struct Building {
    pub preds: Vec<Systems>,
    pub reached: Vec<Systems>,
    pub waves: Vec<u32>,
    pub edges: Vec<Edge>,
}

impl Building {
    // What is known of no system. No memory.
    pub(crate) fn new(alloc: Global) -> Building
        ensures built { (systems : List Access) → IsBuilt systems 0 result.preds.items
            result.reached.items result.waves.items result.edges.items }
    {
        Building {
            preds: Vec::new(alloc),
            reached: Vec::new(alloc),
            waves: Vec::new(alloc),
            edges: Vec::new(alloc),
        }
    }

    // Finds what there is to know of the next system.
    pub(crate) fn add(&mut self, accesses: &[Access]) -> Result<(), OutOfMemory>
        requires few { length accesses.now ≤ system_limit }
        requires built { IsBuilt accesses.now (length self.old.preds.items) self.old.preds.items
            self.old.reached.items self.old.waves.items self.old.edges.items }
        requires more { length self.old.preds.items < length accesses.now }
        ensures counted { OnOk result
            (length self.new.preds.items ≡ length self.old.preds.items + 1) }
        ensures built { OnOk result
            (IsBuilt accesses.now (length self.old.preds.items + 1) self.new.preds.items
            self.new.reached.items self.new.waves.items self.new.edges.items) }
    {
        let system = self.preds.len();
        let Earlier { preds, implied } = earlier_than(accesses, &self.reached, system);
        let sources = preds.difference(&implied);
        let wave = add_edges(&mut self.edges, &sources, &self.waves, system as u32)?;
        self.waves.push(wave)?;
        self.reached.push(preds.union(&implied))?;
        self.preds.push(preds)?;
        Ok(())
    }
}
