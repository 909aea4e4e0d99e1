//! Worlds of registries.

ghost use Rattle.std.specs.Prelude.{◌≡◌, ◌≤◌, List, length, IfOk, OnOk};
ghost use Rattle.std.specs.List.{zip};
ghost use Rattle.std.specs.List.Sorted.{IsPermutation};
ghost use Rattle.entity_id.specs.FiniteMap as entries;
ghost use Rattle.world_model.specs.Worlds.{IsLawful};
ghost use Rattle.registry.specs.Layout.{maps_of, world_of, IsKept};

use super::Parts;
use super::copying::{copy_decls, copy_groups};
use entity_id::{Entity, OutOfMemory};
use entity_slots::EntitySlots;
use signal_sink::Listener;
use std::alloc::Global;
use storage::Storage;
use world_model::{PoolList, Row, Rows, Slot, SlotList, World};

// The world that the parts stand for, at a tick, rows in ascending index.
pub fn save<L: Listener>(parts: &Parts<L>, tick: u64) -> Result<World, OutOfMemory>
    requires { IsKept parts.now }
    ensures world { IfOk result (λ world. world ≡ record (world_of parts.now) { tick = tick }) }
    ensures lawful { IfOk result (λ world. IsLawful parts.now.slots.limit world) }
{
    let alloc = *parts.pools.allocator();
    let decls = copy_decls(alloc, &parts.decls)?;
    let groups = copy_groups(alloc, parts.groups.decls())?;
    let slots = save_slots(alloc, &parts.slots)?;
    let free = parts.slots.free_list()?;
    let pools = save_pools(alloc, &parts.pools)?;
    Ok(World {
        profile: parts.profile,
        decls,
        groups,
        tick,
        slots: SlotList::from_vec(slots),
        free,
        pools: PoolList::from_vec(pools),
    })
}

fn save_slots(alloc: Global, slots: &EntitySlots) -> Result<Vec<Slot>, OutOfMemory>
    ensures { IfOk result (λ list. list.items ≡ slots.now.slots) }
{
    let mut list = Vec::with_capacity(alloc, slots.len() as usize)?;
    for index in 0..slots.len() {
        list.push(slots.slot(index))?;
    }
    Ok(list)
}

fn save_pools(alloc: Global, pools: &[Storage<Row>]) -> Result<Vec<Rows>, OutOfMemory>
    ensures { IfOk result (λ saved. saved.items ≡ maps_of pools.now) }
{
    let mut saved = Vec::with_capacity(alloc, pools.len())?;
    for storage in pools {
        let rows = save_rows(alloc, storage)?;
        saved.push(Rows::from_vec(rows))?;
    }
    Ok(saved)
}

fn save_rows(alloc: Global, storage: &Storage<Row>) -> Result<Vec<(Entity, Row)>, OutOfMemory>
    ensures { IfOk result (λ rows. rows.items ≡ entries.map_of storage.now.pairs) }
{
    let mut rows = pairs_of(alloc, storage.index().packed(), storage.values())?;
    sort(&mut rows);
    Ok(rows)
}

fn pairs_of(
    alloc: Global,
    entities: &[Entity],
    rows: &[Row],
) -> Result<Vec<(Entity, Row)>, OutOfMemory>
    requires { length entities.now ≡ length rows.now }
    ensures { IfOk result (λ pairs. pairs.items ≡ zip entities.now rows.now) }
{
    let mut pairs = Vec::with_capacity(alloc, entities.len())?;
    for place in 0..entities.len() {
        pairs.push((entities[place], rows[place]))?;
    }
    Ok(pairs)
}

// Puts pairs in ascending index.
fn sort(pairs: &mut Vec<(Entity, Row)>)
    requires { entries.HasEachOnce pairs.old.items }
    ensures { pairs.new.items ≡ entries.map_of pairs.old.items }
{
    pairs.sort_unstable_by_key(|pair| pair.0.index);
}
