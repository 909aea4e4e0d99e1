//! Registries of worlds.

ghost use Rattle.std.specs.Prelude.{◌≡◌, ◌<◌, ◌≤◌, [], ◌∷◌, ◌++◌, length, replicate, None, IfOk, OnOk};
ghost use Rattle.group_engine.specs.Engine.{build_refusal};
ghost use Rattle.group_engine.specs.Grouped.{packed_of, cores_of, AreGrouped, AreStill};
ghost use Rattle.group_rules.specs.Families.{same_in};
ghost use Rattle.world_model.specs.Contents.{keys_of};
ghost use Rattle.world_model.specs.Groups.{has_pool, AreLawfulGroups};
ghost use Rattle.world_model.specs.Worlds.{IsLawful, component_limit};
ghost use Rattle.registry.specs.Held.{unheard, no_room};
ghost use Rattle.registry.specs.Layout.{pairs_of, room_of, rooms_of, held_of, IsKept};
ghost use Rattle.registry.specs.Packing.{is_owned};

use super::Parts;
use super::copying::{copy_decls, copy_group};
use super::making::unheard_parts;
use entity_id::{Entity, OutOfMemory};
use entity_slots::EntitySlots;
use group_engine::GroupEngine;
use group_rules::{families_are_those_of_worlds, families_grow_in_order};
use signal_sink::Listener;
use sparse_set::Steps;
use std::alloc::Global;
use std::marker::Brand;
use std::sync::ledger::{Blank, Ledger};
use storage::Storage;
use world_model::{GroupDecl, Refusal, Row, Rows, World};

// The parts that a lawful world stands for, at tick 0.
pub fn load<L: Listener>(
    alloc: Global,
    world: &World,
    slot_limit: u32,
) -> Result<Parts<L>, OutOfMemory>
    requires { IsLawful slot_limit world.now }
    ensures consistent { IfOk result (λ parts. IsKept parts) }
    ensures held { IfOk result (λ parts.
        held_of parts ≡ unheard slot_limit (record world.now { tick = 0 }) (held_of parts).packed) }
    ensures still { IfOk result (λ parts.
        AreStill (is_owned world.now.groups) (keys_of world.now) (held_of parts).packed) }
{
    let decls = copy_decls(alloc, &world.decls)?;
    let slots = EntitySlots::load(
        alloc,
        world.profile,
        slot_limit,
        world.slots.as_slice(),
        world.free.as_slice(),
    )?;
    let mut pools = load_pools(alloc, world.pools.as_slice())?;
    let groups = load_groups(alloc, world.groups.as_slice(), &mut pools)?;
    unheard_parts(alloc, world.profile, decls, slots, pools, groups)
}

// The pools of these rows. Nobody counts the steps.
fn load_pools(alloc: Global, pools: &[Rows]) -> Result<Vec<Storage<Row>>, OutOfMemory>
    ensures rows { IfOk result (λ loaded. pairs_of loaded.items ≡ pools.now) }
    ensures spare { IfOk result (λ loaded.
        rooms_of loaded.items ≡ replicate (length pools.now) no_room) }
{
    load_counted::<Brand>(alloc, pools, Blank::new(1))
}

fn load_counted<G: Ledger>(
    alloc: Global,
    pools: &[Rows],
    blank: Blank,
) -> Result<Vec<Storage<Row>>, OutOfMemory>
    requires name { blank.name ≡ G.name }
    requires parts { blank.parts ≡ G.parts }
    requires some { 0 < blank.parts }
    ensures rows { IfOk result (λ loaded. pairs_of loaded.items ≡ pools.now) }
    ensures spare { IfOk result (λ loaded.
        rooms_of loaded.items ≡ replicate (length pools.now) no_room) }
{
    let mut steps = Steps::<G>::new(blank);
    let mut loaded = Vec::with_capacity(alloc, pools.len())?;
    for rows in pools {
        let storage = load_rows(alloc, rows.as_slice(), &mut steps)?;
        loaded.push(storage)?;
    }
    Ok(loaded)
}

fn load_rows<G: Ledger>(
    alloc: Global,
    rows: &[(Entity, Row)],
    steps: &mut Steps<G>,
) -> Result<Storage<Row>, OutOfMemory>
    ensures rows { IfOk result (λ storage. storage.pairs ≡ rows.now) }
    ensures spare { IfOk result (λ storage. room_of storage ≡ no_room) }
{
    let mut storage = Storage::new(alloc);
    for entry in rows {
        if storage.emplace(entry.0, entry.1, steps).is_err() {
            return Err(OutOfMemory);
        }
    }
    Ok(storage)
}

// These groups over the pools, which are put in order for them. Nobody counts the steps.
fn load_groups(
    alloc: Global,
    decls: &[GroupDecl],
    pools: &mut [Storage<Row>],
) -> Result<GroupEngine, OutOfMemory>
    requires few { length pools.old ≤ component_limit }
    requires lawful { AreLawfulGroups (length pools.old) decls.now }
    ensures decls { IfOk result (λ groups. groups.decls ≡ decls.now) }
    ensures pools { IfOk result (λ groups. groups.pools ≡ length pools.old) }
    ensures grouped { IfOk result (λ groups.
        AreGrouped groups.decls groups.lens (packed_of pools.new)) }
    ensures cores { OnOk result (cores_of pools.new ≡ cores_of pools.old) }
    ensures still { OnOk result
        (AreStill (is_owned decls.now) (packed_of pools.old) (packed_of pools.new)) }
{
    load_groups_counted::<Brand>(alloc, decls, pools, Blank::new(1))
}

fn load_groups_counted<G: Ledger>(
    alloc: Global,
    decls: &[GroupDecl],
    pools: &mut [Storage<Row>],
    blank: Blank,
) -> Result<GroupEngine, OutOfMemory>
    requires name { blank.name ≡ G.name }
    requires parts { blank.parts ≡ G.parts }
    requires some { 0 < blank.parts }
    requires few { length pools.old ≤ component_limit }
    requires lawful { AreLawfulGroups (length pools.old) decls.now }
    ensures decls { IfOk result (λ groups. groups.decls ≡ decls.now) }
    ensures pools { IfOk result (λ groups. groups.pools ≡ length pools.old) }
    ensures grouped { IfOk result (λ groups.
        AreGrouped groups.decls groups.lens (packed_of pools.new)) }
    ensures cores { OnOk result (cores_of pools.new ≡ cores_of pools.old) }
    ensures still { OnOk result
        (AreStill (is_owned decls.now) (packed_of pools.old) (packed_of pools.new)) }
{
    families_are_those_of_worlds();
    families_grow_in_order();
    let mut steps = Steps::<G>::new(blank);
    let mut groups = GroupEngine::new(alloc, pools.len() as u32);
    for decl in decls {
        let copied = copy_group(alloc, decl)?;
        load_group(&mut groups, copied, pools, &mut steps)?;
    }
    Ok(groups)
}

// A group behind the others, with which it is lawful: it is refused for want of memory alone.
fn load_group<G: Ledger>(
    groups: &mut GroupEngine,
    decl: GroupDecl,
    pools: &mut [Storage<Row>],
    steps: &mut Steps<G>,
) -> Result<(), OutOfMemory>
    requires pools { length pools.old ≡ groups.old.pools }
    requires grouped { AreGrouped groups.old.decls groups.old.lens (packed_of pools.old) }
    requires new { same_in groups.old.decls decl ≡ None }
    requires accepted { build_refusal groups.old decl ≡ None }
    ensures decls { OnOk result (groups.new.decls ≡ groups.old.decls ++ decl ∷ []) }
    ensures pools { groups.new.pools ≡ groups.old.pools }
    ensures grouped { AreGrouped groups.new.decls groups.new.lens (packed_of pools.new) }
    ensures cores { cores_of pools.new ≡ cores_of pools.old }
    ensures still { AreStill (has_pool decl.own) (packed_of pools.old) (packed_of pools.new) }
{
    match groups.build(decl, pools, steps) {
        Ok(_) => Ok(()),
        Err(Refusal::OutOfMemory) => Err(OutOfMemory),
        Err(_) => unreachable!(),
    }
}
