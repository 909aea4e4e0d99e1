//! Registries made.

ghost use Rattle.std.specs.Prelude.{◌≡◌, ◌≤◌, [], length, replicate, IsTrue, IfOk};
ghost use Rattle.std.specs.List.{AllByRecursion};
ghost use Rattle.entity_id.specs.Identifiers.{is_profile};
ghost use Rattle.world_model.specs.Components.{IsDecl};
ghost use Rattle.world_model.specs.Contents.{keys_of};
ghost use Rattle.world_model.specs.Worlds.{component_limit, empty_world};
ghost use Rattle.registry.specs.Held.{unheard, no_room};
ghost use Rattle.registry.specs.Layout.{pairs_of, rooms_of, held_of, IsKept, AreMadeOf};

use super::Parts;
use entity_id::{OutOfMemory, Profile};
use entity_slots::EntitySlots;
use group_engine::GroupEngine;
use signal_sink::{Listener, Signal};
use std::alloc::Global;
use storage::Storage;
use world_model::{DeclList, Row};

// No entity, and an empty pool for each component.
pub fn new<L: Listener>(
    alloc: Global,
    profile: Profile,
    slot_limit: u32,
    decls: DeclList,
) -> Result<Parts<L>, OutOfMemory>
    requires profile { IsTrue (is_profile profile) }
    requires addressable { slot_limit ≤ profile.index_limit }
    requires few { length decls ≤ component_limit }
    requires decls { AllByRecursion IsDecl decls }
    ensures consistent { IfOk result (λ parts. IsKept parts) }
    ensures held { IfOk result (λ parts.
        held_of parts ≡ unheard slot_limit (empty_world profile decls)
        (keys_of (empty_world profile decls))) }
{
    let slots = EntitySlots::new(alloc, profile, slot_limit);
    let count = decls.as_slice().len();
    let pools = empty_pools(alloc, count)?;
    let groups = GroupEngine::new(alloc, count as u32);
    unheard_parts(alloc, profile, decls, slots, pools, groups)
}

// These parts, and signals that nobody listens to.
pub fn unheard_parts<L: Listener>(
    alloc: Global,
    profile: Profile,
    decls: DeclList,
    slots: EntitySlots,
    pools: Vec<Storage<Row>>,
    groups: GroupEngine,
) -> Result<Parts<L>, OutOfMemory>
    ensures { IfOk result (λ parts. AreMadeOf parts profile decls slots pools.items groups) }
{
    let count = decls.as_slice().len();
    let construct = signals(alloc, count)?;
    let update = signals(alloc, count)?;
    let destroy = signals(alloc, count)?;
    Ok(Parts {
        profile,
        decls,
        slots,
        pools,
        groups,
        construct,
        update,
        destroy,
    })
}

fn empty_pools(alloc: Global, count: usize) -> Result<Vec<Storage<Row>>, OutOfMemory>
    ensures rows { IfOk result (λ pools. pairs_of pools.items ≡ replicate count []) }
    ensures spare { IfOk result (λ pools. rooms_of pools.items ≡ replicate count no_room) }
{
    let mut pools = Vec::with_capacity(alloc, count)?;
    for _made in 0..count {
        pools.push(Storage::new(alloc))?;
    }
    Ok(pools)
}

fn signals<L: Listener>(alloc: Global, count: usize) -> Result<Vec<Signal<L>>, OutOfMemory>
    ensures { IfOk result (λ signals. signals.items ≡ replicate count []) }
{
    let mut signals = Vec::with_capacity(alloc, count)?;
    for _made in 0..count {
        signals.push(Signal::new(alloc))?;
    }
    Ok(signals)
}
