//! A row of one pool added, set, removed.

ghost use Rattle.std.specs.Prelude.{◌≡◌, ◌≢◌, ◌+◌, ◌<◌, ◌≤◌, ◌&&◌, ℕ, [], length, slice_set, slice_index_or, Some, None, false, if◌then◌else◌, is_ok, Err, IsTrue, OnOk, OnErr, IfErr};
ghost use Rattle.std.specs.Bool.{OnTrue, OnFalse};
ghost use Rattle.entity_id.specs.FiniteMap as entries;
ghost use Rattle.group_engine.specs.Grouped.{packed_of, is_named, moves, AreGrouped, AreStill};
ghost use Rattle.world_model.specs.declared.command.Reply.TheVariants.{Done};
ghost use Rattle.world_model.specs.declared.event.EventKind.TheVariants as event;
ghost use Rattle.world_model.specs.declared.refusal.Refusal.{Refusal};
ghost use Rattle.world_model.specs.Contents.{has_row};
ghost use Rattle.world_model.specs.Outcomes.{sets, drops};
ghost use Rattle.world_model.specs.Refusing.{when_present, when_absent};
ghost use Rattle.world_model.specs.Slots.{is_live};
ghost use Rattle.registry.specs.Costs.{row_steps};
ghost use Rattle.registry.specs.Layout.{maps_of, rooms_of, world_of, held_of, HaveRoom, KeepGroups, IsKept, Gives, Stays};
ghost use Rattle.registry.specs.Leaving.{hearings_after};
ghost use Rattle.registry.specs.Packing.{appended_in, popped_in};
ghost use Rattle.registry.specs.Rooms.{hearings_in, HasRoomInPool};
ghost use Rattle.registry.specs.Spending.{nowhere, once_in, SpendsRows, Spends};
ghost use Rattle.signal_sink.specs.Hearings.{HaveSpare};

use super::Parts;
use super::one_pool::{change, enter, leave};
use entity_id::Entity;
use group_engine::{GroupEngine, groups_after_changes};
use signal_sink::{Listener, Signal};
use sparse_set::Steps;
use std::sync::ledger::Ledger;
use storage::Storage;
use world_model::{Event, EventKind, Refusal, Row};

// Adds the row of an identifier, which then enters and leaves groups as they ask. `Present` exactly
// where it has one, and `OutOfMemory`, but never where the room stands, and then none is asked for.
pub fn put_row<L: Listener, G: Ledger>(
    parts: &mut Parts<L>,
    entity: Entity,
    pool: u32,
    row: Row,
    growing: bool,
    steps: &mut Steps<G>,
) -> Result<(), Refusal>
    requires consistent { IsKept parts.old }
    requires declared { pool < length parts.old.decls }
    requires live { growing ≡ false → IsTrue (is_live parts.old.slots.slots entity) }
    requires place { growing ≡ false →
        HasRoomInPool (held_of parts.old) (length parts.old.slots.slots) 1 1 pool }
    ensures ok { OnOk result
        (Gives parts.old parts.new (sets event.Construct (world_of parts.old) entity pool row)) }
    ensures absent { OnOk result (when_present (world_of parts.old) pool entity ≡ None) }
    ensures err { OnErr result (Stays parts.old parts.new) }
    ensures cause { IfErr result (λ refused. refused ≢ Refusal.OutOfMemory →
        when_present (world_of parts.old) pool entity ≡ Some refused) }
    ensures refused { (cause : Refusal) →
        when_present (world_of parts.old) pool entity ≡ Some cause → result ≡ Err cause }
    ensures each { length (packed_of parts.new.pools.items)
        ≡ length (packed_of parts.old.pools.items) }
    ensures packed { OnOk result (AreStill (moves parts.old.groups.decls pool)
        (appended_in pool entity (packed_of parts.old.pools.items)) (packed_of parts.new.pools.items)) }
    ensures steps { is_named parts.old.groups.decls pool ≡ false →
        steps.new ≡ steps.old + (if is_ok result then 1 else 0) }
    ensures few { steps.new ≤ steps.old
        + (if is_ok result then row_steps parts.old.groups.decls pool else 0) }
    ensures never { growing ≡ false → IfErr result (λ refused. refused ≢ Refusal.OutOfMemory) }
    ensures spends { (updates : ℕ → ℕ) →
        Spends (once_in pool) updates (held_of parts.old) (held_of parts.new) }
{
    let at = pool as usize;
    let told = Event {
        kind: EventKind::Construct,
        pool,
        entity,
    };
    enter(
        &mut parts.pools[at],
        &mut parts.construct[at],
        &mut parts.destroy[at],
        told,
        row,
        growing,
        steps,
    )?;
    groups_after_changes(parts.pools[at].values());
    parts
        .groups
        .after_add(&mut parts.pools, entity, pool, steps);
    Ok(())
}

// Sets the row of an identifier. `Absent` exactly where it has none, and `OutOfMemory`, but never where
// the room stands, and then none is asked for.
pub fn change_row<L: Listener>(
    parts: &mut Parts<L>,
    entity: Entity,
    pool: u32,
    row: Row,
    growing: bool,
) -> Result<(), Refusal>
    requires consistent { IsKept parts.old }
    requires declared { pool < length parts.old.decls }
    requires heard { growing ≡ false →
        HaveSpare 1 (hearings_in (held_of parts.old).update pool) }
    ensures ok { OnOk result
        (Gives parts.old parts.new (sets event.Update (world_of parts.old) entity pool row)) }
    ensures present { OnOk result (when_absent (world_of parts.old) pool entity ≡ None) }
    ensures err { OnErr result (Stays parts.old parts.new) }
    ensures cause { IfErr result (λ refused. refused ≢ Refusal.OutOfMemory →
        when_absent (world_of parts.old) pool entity ≡ Some refused) }
    ensures refused { (cause : Refusal) →
        when_absent (world_of parts.old) pool entity ≡ Some cause → result ≡ Err cause }
    ensures packed { packed_of parts.new.pools.items ≡ packed_of parts.old.pools.items }
    ensures never { growing ≡ false → IfErr result (λ refused. refused ≢ Refusal.OutOfMemory) }
    ensures spends { (adds : ℕ → ℕ) →
        Spends adds (once_in pool) (held_of parts.old) (held_of parts.new) }
{
    let at = pool as usize;
    let told = Event {
        kind: EventKind::Update,
        pool,
        entity,
    };
    change(
        &mut parts.pools[at],
        &mut parts.update[at],
        told,
        row,
        growing,
    )
}

// Takes the row of an identifier out, and says whether there was one.
pub fn drop_row<L: Listener, G: Ledger>(
    parts: &mut Parts<L>,
    entity: Entity,
    pool: u32,
    steps: &mut Steps<G>,
) -> bool
    requires consistent { IsKept parts.old }
    requires declared { pool < length parts.old.decls }
    ensures was { result ≡ has_row (world_of parts.old) pool entity }
    ensures gone { OnTrue result
        (Gives parts.old parts.new (drops (world_of parts.old) entity pool Done)) }
    ensures none { OnFalse result (Stays parts.old parts.new) }
    ensures each { length (packed_of parts.new.pools.items)
        ≡ length (packed_of parts.old.pools.items) }
    ensures packed { AreStill
        (λ (other : ℕ). has_row (world_of parts.old) pool entity && moves parts.old.groups.decls pool other)
        (popped_in pool entity (packed_of parts.old.pools.items)) (packed_of parts.new.pools.items) }
    ensures steps { is_named parts.old.groups.decls pool ≡ false →
        steps.new ≡ steps.old + (if result then 1 else 0) }
    ensures few { steps.new ≤ steps.old
        + (if result then row_steps parts.old.groups.decls pool else 0) }
    ensures spends { Spends nowhere nowhere (held_of parts.old) (held_of parts.new) }
{
    withdraw(
        &mut parts.pools,
        &mut parts.groups,
        &mut parts.destroy,
        pool,
        entity,
        steps,
    )
}

// Takes the row of an identifier out of one of the pools, once its groups are ready for that, and tells
// of it, where there is one; and says whether there was.
pub fn withdraw<L: Listener, G: Ledger>(
    pools: &mut Vec<Storage<Row>>,
    groups: &mut GroupEngine,
    destroy: &mut Vec<Signal<L>>,
    pool: u32,
    entity: Entity,
    steps: &mut Steps<G>,
) -> bool
    requires declared { pool < length pools.old.items }
    requires each { length pools.old.items ≡ length destroy.old.items }
    requires room { HaveRoom pools.old.items destroy.old.items }
    requires count { groups.old.pools ≡ length pools.old.items }
    requires grouped { AreGrouped groups.old.decls groups.old.lens (packed_of pools.old.items) }
    ensures was { result
        ≡ entries.contains (slice_index_or (maps_of pools.old.items) pool []) entity }
    ensures maps { maps_of pools.new.items ≡ slice_set (maps_of pools.old.items) pool
        (entries.remove (slice_index_or (maps_of pools.old.items) pool []) entity) }
    ensures hearings { destroy.new.items ≡ slice_set destroy.old.items pool
        (hearings_after pool entity (slice_index_or (maps_of pools.old.items) pool [])
        (slice_index_or destroy.old.items pool [])) }
    ensures room { HaveRoom pools.new.items destroy.new.items }
    ensures groups { KeepGroups groups.old groups.new pools.new.items }
    ensures stays { OnFalse result (packed_of pools.new.items ≡ packed_of pools.old.items) }
    ensures packed { AreStill
        (λ (other : ℕ). entries.contains (slice_index_or (maps_of pools.old.items) pool []) entity
        && moves groups.old.decls pool other)
        (popped_in pool entity (packed_of pools.old.items)) (packed_of pools.new.items) }
    ensures steps { is_named groups.old.decls pool ≡ false →
        steps.new ≡ steps.old + (if result then 1 else 0) }
    ensures few { steps.new ≤ steps.old + (if result then row_steps groups.old.decls pool else 0) }
    ensures spends { SpendsRows nowhere
        (rooms_of pools.old.items) (rooms_of pools.new.items)
        (packed_of pools.old.items) (packed_of pools.new.items)
        destroy.old.items destroy.new.items }
{
    let at = pool as usize;
    if !pools[at].contains(entity) {
        return false;
    }
    groups.before_remove(pools, entity, pool, steps);
    groups_after_changes(pools[at].values());
    leave(&mut pools[at], &mut destroy[at], pool, entity, steps);
    true
}
