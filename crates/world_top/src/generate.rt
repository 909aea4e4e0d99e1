//! A made world, run for some ticks.

ghost use Rattle.std.specs.Prelude.{◌≤◌, IfOk};
ghost use Rattle.world_top.specs.Output.{IsGenerated};
ghost use Rattle.world_top.specs.Words.{tick_count_limit};

use super::run::run_all;
use entity_id::OutOfMemory;
use registry::Registry;
use std::alloc::Global;
use world_maker::{COUNT_LIMIT, make_world, summary};
use world_model::World;
use world_text::{Document, VERSION_1};

/// What `gen` prints: the summary of the made world of a number with so many entities, after so many
/// ticks of its systems. One thread carries them out.
pub fn generate(alloc: Global, number: u32, count: u32, ticks: u64) -> Result<Vec<u8>, OutOfMemory>
    requires few { count ≤ COUNT_LIMIT }
    requires within { ticks ≤ tick_count_limit }
    ensures { IfOk result (λ out. IsGenerated number count ticks out.items) }
{
    let Document { world, systems } = make_world(alloc, number, count)?;
    let registry = Registry::load(alloc, &world, VERSION_1.slot_limit)?;
    // The registry has the rows and the groups now.
    let World {
        profile,
        decls,
        tick,
        ..
    } = world;
    let after = run_all(alloc, registry, profile, systems.as_slice(), tick, ticks)?;
    summary(alloc, &after, decls.as_slice(), tick + ticks)
}
