//! Room made for orders.

ghost use Rattle.std.specs.Prelude.{◌≡◌, ◌+◌, ◌<◌, ◌≤◌, ℕ, length, IfOk, OnOk};
ghost use Rattle.world_model.specs.declared.deferred.Needs.{Needs};
ghost use Rattle.registry.specs.Held.{AsBefore};
ghost use Rattle.registry.specs.Layout.{held_of, IsKept};
ghost use Rattle.registry.specs.Rooms.{slots_after, HasRoomInPool, HasRoomFor};
ghost use Rattle.registry.specs.Spending.{nowhere, IsRoomy, Spends};
ghost use Rattle.signal_sink.specs.Hearings.{HaveSpare, heard_lists};

use super::Parts;
use entity_id::OutOfMemory;
use signal_sink::{Listener, Signal};
use storage::Storage;
use world_model::{Needs, Row};

// Makes room for what these needs say; no room falls, after a refusal too.
pub fn reserve_for<L: Listener>(parts: &mut Parts<L>, needs: &Needs) -> Result<(), OutOfMemory>
    requires consistent { IsKept parts.old }
    requires adds { length needs.now.adds ≡ length parts.old.decls }
    requires updates { length needs.now.updates ≡ length parts.old.decls }
    ensures consistent { IsKept parts.new }
    ensures ok { OnOk result (HasRoomFor needs.now (held_of parts.new)) }
    ensures same { AsBefore (held_of parts.old) (held_of parts.new) }
    ensures room { (other : Needs) →
        HasRoomFor other (held_of parts.old) → HasRoomFor other (held_of parts.new) }
{
    let reach = reserve_slots(parts, needs.spawns)?;
    let adds = needs.adds.as_slice();
    let updates = needs.updates.as_slice();
    for pool in 0..adds.len() {
        reserve_pool(parts, pool, reach, adds[pool], updates[pool])?;
    }
    Ok(())
}

// Makes room for so many slots more, but for no index past those of the profile, and answers how many
// slots there may be then.
fn reserve_slots<L: Listener>(parts: &mut Parts<L>, spawns: u64) -> Result<u32, OutOfMemory>
    requires consistent { IsKept parts.old }
    ensures consistent { IsKept parts.new }
    ensures reach { IfOk result (λ reach. slots_after (held_of parts.old) spawns ≤ reach) }
    ensures ok { OnOk result (slots_after (held_of parts.old) spawns
        ≤ length parts.new.slots.slots + parts.new.slots.spare) }
    ensures same { AsBefore (held_of parts.old) (held_of parts.new) }
    ensures decls { parts.new.decls ≡ parts.old.decls }
    ensures spends { Spends nowhere nowhere (held_of parts.old) (held_of parts.new) }
{
    let slots = parts.slots.len();
    let room = least(spawns, parts.profile.index_limit - slots);
    parts.slots.reserve(room)?;
    Ok(slots + room)
}

// The lesser of two numbers.
fn least(wanted: u64, most: u32) -> u32
    ensures wanted { result ≤ wanted }
    ensures most { result ≤ most }
    ensures either { wanted ≤ most → result ≡ wanted }
    ensures all { most ≤ wanted → result ≡ most }
{
    if wanted < most as u64 {
        wanted as u32
    } else {
        most
    }
}

// Makes room in one pool and with its listeners.
fn reserve_pool<L: Listener>(
    parts: &mut Parts<L>,
    pool: usize,
    reach: u32,
    adds: u64,
    updates: u64,
) -> Result<(), OutOfMemory>
    requires consistent { IsKept parts.old }
    requires declared { pool < length parts.old.decls }
    ensures consistent { IsKept parts.new }
    ensures ok { OnOk result (HasRoomInPool (held_of parts.new) reach adds updates pool) }
    ensures same { AsBefore (held_of parts.old) (held_of parts.new) }
    ensures decls { parts.new.decls ≡ parts.old.decls }
    ensures spends { Spends nowhere nowhere (held_of parts.old) (held_of parts.new) }
{
    if adds >= 4294967296 {
        return Err(OutOfMemory);
    }
    reserve_rows(
        &mut parts.pools[pool],
        &mut parts.construct[pool],
        &mut parts.update[pool],
        &mut parts.destroy[pool],
        reach,
        adds as u32,
        updates,
    )
}

// Makes room for so many rows more, of indices below a bound, and for what listeners hear of them, of
// so many changed, and of the removal of all that will be there.
fn reserve_rows<L: Listener>(
    pool: &mut Storage<Row>,
    construct: &mut Signal<L>,
    update: &mut Signal<L>,
    destroy: &mut Signal<L>,
    reach: u32,
    adds: u32,
    updates: u64,
) -> Result<(), OutOfMemory>
    ensures pairs { pool.new.pairs ≡ pool.old.pairs }
    ensures spare { pool.old.spare ≤ pool.new.spare }
    ensures bound { pool.old.index_bound ≤ pool.new.index_bound }
    ensures construct_quiet { heard_lists construct.new ≡ heard_lists construct.old }
    ensures update_quiet { heard_lists update.new ≡ heard_lists update.old }
    ensures destroy_quiet { heard_lists destroy.new ≡ heard_lists destroy.old }
    ensures construct_room { (m : ℕ) → HaveSpare m construct.old → HaveSpare m construct.new }
    ensures update_room { (m : ℕ) → HaveSpare m update.old → HaveSpare m update.new }
    ensures destroy_room { (m : ℕ) → HaveSpare m destroy.old → HaveSpare m destroy.new }
    ensures ok { OnOk result
        (IsRoomy reach adds updates pool.new construct.new update.new destroy.new) }
{
    construct.reserve(adds as u64)?;
    update.reserve(updates)?;
    destroy.reserve(pool.len() as u64 + adds as u64)?;
    pool.reserve(adds, if adds > 0 { reach } else { 0 })
}
