//! How often pools have been written once it is a system's turn.

ghost use Rattle.std.specs.Prelude.{◌≤◌, IfOk, length};
ghost use Rattle.access_graph.specs.Systems.{system_limit};
ghost use Rattle.tick_runner.specs.Plans.{HasNeeds};

use access_graph::need;
use entity_id::OutOfMemory;
use std::alloc::Global;
use world_model::Access;

// For each of so many pools how often it has been written once it is the turn of the system at a place.
pub fn needs_at(
    alloc: Global,
    accesses: &[Access],
    place: u32,
    pools: usize,
) -> Result<Vec<u32>, OutOfMemory>
    requires few { length accesses.now ≤ system_limit }
    requires place { place ≤ length accesses.now }
    requires pools { pools ≤ 64 }
    ensures { IfOk result (λ needs. HasNeeds accesses.now place pools needs.items) }
{
    let mut needs = Vec::with_capacity(alloc, pools)?;
    for pool in 0..pools {
        needs.push(need(accesses, place, pool as u32))?;
    }
    Ok(needs)
}
