//! One pool and its signals: a row added, set, removed, and the listeners that hear of it.

ghost use Rattle.std.specs.Prelude.{◌≡◌, ◌≢◌, ◌+◌, ◌≤◌, ℕ, IsOk, [], ◌∷◌, ◌++◌, length, IsTrue, false, if◌then◌else◌, is_ok, Err, OnOk, OnErr, IfErr};
ghost use Rattle.std.specs.Bool.{OnFalse};
ghost use Rattle.entity_id.specs.FiniteMap as entries;
ghost use Rattle.signal_sink.specs.Hearings.{HaveSpare, heard_lists, heard_also};
ghost use Rattle.world_model.specs.declared.event.EventKind.TheVariants as event;
ghost use Rattle.world_model.specs.Outcomes.{tells};
ghost use Rattle.registry.specs.Leaving.{hearings_after};
ghost use Rattle.registry.specs.Packing.{popped};
ghost use Rattle.registry.specs.Spending.{IsReadyFor};

use entity_id::{Entity, OutOfMemory};
use signal_sink::{Listener, Signal};
use sparse_set::Steps;
use std::sync::ledger::Ledger;
use storage::Storage;
use world_model::{Event, EventKind, Refusal, Row};

// Makes room for so many events with each listener, where that is asked for, and else it stands.
fn room_for<L: Listener>(signal: &mut Signal<L>, n: u64, growing: bool) -> Result<(), OutOfMemory>
    requires { growing ≡ false → HaveSpare n signal.old }
    ensures ok { OnOk result (HaveSpare n signal.new) }
    ensures heard { heard_lists signal.new ≡ heard_lists signal.old }
    ensures room { (m : ℕ) → HaveSpare m signal.old → HaveSpare m signal.new }
    ensures never { growing ≡ false → IsOk result }
{
    if growing { signal.reserve(n) } else { Ok(()) }
}

// Adds a row, once there is room for its destruction to be heard of, and tells of it. Where the room
// stands, none is asked for, and the row isn't refused for want of memory.
pub fn enter<L: Listener, G: Ledger>(
    pool: &mut Storage<Row>,
    construct: &mut Signal<L>,
    destroy: &mut Signal<L>,
    told: Event,
    row: Row,
    growing: bool,
    steps: &mut Steps<G>,
) -> Result<(), Refusal>
    requires heard { HaveSpare (length pool.old.pairs) destroy.old }
    requires ready { growing ≡ false → IsReadyFor told.entity pool.old construct.old destroy.old }
    ensures map { OnOk result (entries.map_of pool.new.pairs
        ≡ entries.put (entries.map_of pool.old.pairs) told.entity row) }
    ensures keys { OnOk result
        (entries.keys pool.new.pairs ≡ entries.keys pool.old.pairs ++ told.entity ∷ []) }
    ensures absent { OnOk result
        (entries.contains (entries.map_of pool.old.pairs) told.entity ≡ false) }
    ensures fresh { OnOk result
        (entries.has_index pool.old.pairs told.entity.index ≡ false) }
    ensures heard { OnOk result
        (heard_lists construct.new ≡ heard_also told (heard_lists construct.old)) }
    ensures err { OnErr result (pool.new ≡ pool.old) }
    ensures heard_err { OnErr result (heard_lists construct.new ≡ heard_lists construct.old) }
    ensures cause { IfErr result (λ refused. refused ≢ Refusal.OutOfMemory →
        (refused ≡ Refusal.Present) × IsTrue (entries.contains (entries.map_of pool.old.pairs) told.entity)) }
    ensures present { IsTrue (entries.contains (entries.map_of pool.old.pairs) told.entity) →
        result ≡ Err Refusal.Present }
    ensures quiet { heard_lists destroy.new ≡ heard_lists destroy.old }
    ensures room { HaveSpare (length pool.new.pairs) destroy.new }
    ensures steps { steps.new ≡ steps.old + (if is_ok result then 1 else 0) }
    ensures never { growing ≡ false → IfErr result (λ refused. refused ≢ Refusal.OutOfMemory) }
    ensures spare { pool.old.spare ≤ pool.new.spare + 1 }
    ensures bound { pool.new.index_bound ≡ pool.old.index_bound }
    ensures few { length pool.new.pairs ≤ length pool.old.pairs + 1 }
    ensures construct_room { (m : ℕ) →
        HaveSpare (m + 1) construct.old → HaveSpare m construct.new }
    ensures destroy_room { (m : ℕ) → HaveSpare m destroy.old → HaveSpare m destroy.new }
{
    if pool.contains(told.entity) {
        return Err(Refusal::Present);
    }
    if room_for(destroy, pool.len() as u64 + 1, growing).is_err() {
        return Err(Refusal::OutOfMemory);
    }
    if room_for(construct, 1, growing).is_err() {
        return Err(Refusal::OutOfMemory);
    }
    if pool.emplace(told.entity, row, steps).is_err() {
        return Err(Refusal::OutOfMemory);
    }
    construct.publish(told);
    Ok(())
}

// Sets a row, and tells of it. Where there is room for that, none is asked for.
pub fn change<L: Listener>(
    pool: &mut Storage<Row>,
    update: &mut Signal<L>,
    told: Event,
    row: Row,
    growing: bool,
) -> Result<(), Refusal>
    requires { growing ≡ false → HaveSpare 1 update.old }
    ensures map { OnOk result (entries.map_of pool.new.pairs
        ≡ entries.put (entries.map_of pool.old.pairs) told.entity row) }
    ensures held { OnOk result
        (IsTrue (entries.contains (entries.map_of pool.old.pairs) told.entity)) }
    ensures heard { OnOk result
        (heard_lists update.new ≡ heard_also told (heard_lists update.old)) }
    ensures err { OnErr result (pool.new ≡ pool.old) }
    ensures heard_err { OnErr result (heard_lists update.new ≡ heard_lists update.old) }
    ensures cause { IfErr result (λ refused. refused ≢ Refusal.OutOfMemory →
        (refused ≡ Refusal.Absent) × (entries.contains (entries.map_of pool.old.pairs) told.entity ≡ false)) }
    ensures not_held { entries.contains (entries.map_of pool.old.pairs) told.entity ≡ false →
        result ≡ Err Refusal.Absent }
    ensures keys { entries.keys pool.new.pairs ≡ entries.keys pool.old.pairs }
    ensures len { length pool.new.pairs ≡ length pool.old.pairs }
    ensures never { growing ≡ false → IfErr result (λ refused. refused ≢ Refusal.OutOfMemory) }
    ensures spare { pool.new.spare ≡ pool.old.spare }
    ensures bound { pool.new.index_bound ≡ pool.old.index_bound }
    ensures update_room { (m : ℕ) → HaveSpare (m + 1) update.old → HaveSpare m update.new }
{
    // Its identifiers are distinct, so the map that it stands for has the row where it has.
    let _ = pool.index();
    if room_for(update, 1, growing).is_err() {
        return Err(want_or_absent(pool, told.entity));
    }
    if pool.set(told.entity, row).is_err() {
        return Err(Refusal::Absent);
    }
    update.publish(told);
    Ok(())
}

// Why a row is not set where a listener finds no room: the identifier may have none.
fn want_or_absent(pool: &Storage<Row>, entity: Entity) -> Refusal
    ensures absent { entries.contains (entries.map_of pool.now.pairs) entity ≡ false →
        result ≡ Refusal.Absent }
    ensures held { result ≢ Refusal.OutOfMemory → (result ≡ Refusal.Absent)
        × (entries.contains (entries.map_of pool.now.pairs) entity ≡ false) }
{
    if pool.contains(entity) {
        Refusal::OutOfMemory
    } else {
        Refusal::Absent
    }
}

// Takes the row of an identifier out, and tells of it, where there is one.
pub fn leave<L: Listener, G: Ledger>(
    pool: &mut Storage<Row>,
    destroy: &mut Signal<L>,
    number: u32,
    entity: Entity,
    steps: &mut Steps<G>,
) -> bool
    requires { HaveSpare (length pool.old.pairs) destroy.old }
    ensures was { result ≡ entries.contains (entries.map_of pool.old.pairs) entity }
    ensures map { entries.map_of pool.new.pairs
        ≡ entries.remove (entries.map_of pool.old.pairs) entity }
    ensures keys { entries.keys pool.new.pairs ≡ popped entity (entries.keys pool.old.pairs) }
    ensures stays { OnFalse result
        (entries.keys pool.new.pairs ≡ entries.keys pool.old.pairs) }
    ensures hearings { destroy.new
        ≡ hearings_after number entity (entries.map_of pool.old.pairs) destroy.old }
    ensures room { HaveSpare (length pool.new.pairs) destroy.new }
    ensures steps { steps.new ≡ steps.old + (if result then 1 else 0) }
    ensures spare { pool.old.spare ≤ pool.new.spare }
    ensures bound { pool.new.index_bound ≡ pool.old.index_bound }
    ensures destroy_room { (m : ℕ) → HaveSpare (m + length pool.old.pairs) destroy.old
        → HaveSpare (m + length pool.new.pairs) destroy.new }
{
    if pool.erase(entity, steps).is_err() {
        return false;
    }
    destroy.publish(Event {
        kind: EventKind::Destroy,
        pool: number,
        entity,
    });
    true
}
