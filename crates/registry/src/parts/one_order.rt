//! One order carried out, where its pool is declared.

ghost use Rattle.std.specs.Prelude.{◌≡◌, ◌≢◌, ◌+◌, ◌<◌, ◌≤◌, false, length, IsOk, IfOk, OnOk, OnErr};
ghost use Rattle.std.specs.Int.{int_wrapping_add, w64};
ghost use Rattle.world_model.specs.declared.command.Command.TheVariants.{Create, EmplaceOrReplace, Patch};
ghost use Rattle.world_model.specs.declared.deferred.Deferred.TheVariants.{Spawn};
ghost use Rattle.world_model.specs.declared.refusal.Refusal.{Refusal};
ghost use Rattle.world_model.specs.Components.{value_at};
ghost use Rattle.world_model.specs.Conditions.{IsAllowed};
ghost use Rattle.world_model.specs.Contents.{row_at};
ghost use Rattle.world_model.specs.Orders.{last_after};
ghost use Rattle.world_model.specs.Steps.{step};
ghost use Rattle.registry.specs.Applying.{IsCarriedOut};
ghost use Rattle.registry.specs.Held.{AsBefore};
ghost use Rattle.registry.specs.Layout.{world_of, held_of, IsKept};
ghost use Rattle.registry.specs.Rooms.{hearings_in, slots_after, HasRoomInPool};
ghost use Rattle.registry.specs.Spending.{nowhere, once_in, Spends};
ghost use Rattle.signal_sink.specs.Hearings.{HaveSpare};

use super::Parts;
use super::components::emplace_or_replace;
use super::creation::create;
use super::fields::{patch, patch_found};
use super::refusing::{entry_refusal, row_of};
use entity_id::{Entity, OutOfMemory};
use signal_sink::Listener;
use sparse_set::Steps;
use std::sync::ledger::Ledger;
use world_model::{Refusal, Row};

// Skips an order that is refused, but for want of memory.
fn skipped(refused: Refusal) -> Result<bool, OutOfMemory>
    ensures ok { IfOk result (λ done. (done ≡ false) × (refused ≢ Refusal.OutOfMemory)) }
    ensures never { refused ≢ Refusal.OutOfMemory → IsOk result }
{
    match refused {
        Refusal::OutOfMemory => Err(OutOfMemory),
        _ => Ok(false),
    }
}

// Sets a row, whether or not there is one.
pub fn give<L: Listener, G: Ledger>(
    parts: &mut Parts<L>,
    entity: Entity,
    pool: u32,
    row: Row,
    growing: bool,
    steps: &mut Steps<G>,
) -> Result<bool, OutOfMemory>
    requires consistent { IsKept parts.old }
    requires allowed { IsAllowed (world_of parts.old) (EmplaceOrReplace entity pool row) }
    requires room { growing ≡ false →
        HasRoomInPool (held_of parts.old) (length parts.old.slots.slots) 1 1 pool }
    ensures consistent { IsKept parts.new }
    ensures ok { IfOk result (λ done. IsCarriedOut (held_of parts.old) (held_of parts.new)
        (step parts.old.slots.limit (world_of parts.old) (EmplaceOrReplace entity pool row)) done) }
    ensures err { OnErr result (AsBefore (held_of parts.old) (held_of parts.new)) }
    ensures never { growing ≡ false → IsOk result }
    ensures spends { Spends (once_in pool) (once_in pool) (held_of parts.old) (held_of parts.new) }
{
    match emplace_or_replace(parts, entity, pool, row, growing, steps) {
        Ok(()) => Ok(true),
        Err(refused) => skipped(refused),
    }
}

// Sets one field of a row.
pub fn send<L: Listener>(
    parts: &mut Parts<L>,
    entity: Entity,
    pool: u32,
    field: u32,
    value: i64,
    growing: bool,
) -> Result<bool, OutOfMemory>
    requires consistent { IsKept parts.old }
    requires heard { growing ≡ false →
        HaveSpare 1 (hearings_in (held_of parts.old).update pool) }
    requires allowed { IsAllowed (world_of parts.old) (Patch entity pool field value) }
    ensures consistent { IsKept parts.new }
    ensures ok { IfOk result (λ done. IsCarriedOut (held_of parts.old) (held_of parts.new)
        (step parts.old.slots.limit (world_of parts.old) (Patch entity pool field value)) done) }
    ensures err { OnErr result (AsBefore (held_of parts.old) (held_of parts.new)) }
    ensures never { growing ≡ false → IsOk result }
    ensures spends { Spends nowhere (once_in pool) (held_of parts.old) (held_of parts.new) }
{
    match patch(parts, entity, pool, field, value, growing) {
        Ok(()) => Ok(true),
        Err(refused) => skipped(refused),
    }
}

// Adds to one field of a row; the sum wraps in 64 bits.
pub fn add<L: Listener>(
    parts: &mut Parts<L>,
    entity: Entity,
    pool: u32,
    field: u32,
    value: i64,
    growing: bool,
) -> Result<bool, OutOfMemory>
    requires consistent { IsKept parts.old }
    requires heard { growing ≡ false →
        HaveSpare 1 (hearings_in (held_of parts.old).update pool) }
    requires declared { pool < length parts.old.decls }
    requires allowed { IsAllowed (world_of parts.old) (Patch entity pool field
        (int_wrapping_add w64 (value_at (row_at (world_of parts.old) pool entity) field) value)) }
    ensures consistent { IsKept parts.new }
    ensures ok { IfOk result (λ done. IsCarriedOut (held_of parts.old) (held_of parts.new)
        (step parts.old.slots.limit (world_of parts.old) (Patch entity pool field
        (int_wrapping_add w64 (value_at (row_at (world_of parts.old) pool entity) field) value))) done) }
    ensures err { OnErr result (AsBefore (held_of parts.old) (held_of parts.new)) }
    ensures never { growing ≡ false → IsOk result }
    ensures spends { Spends nowhere (once_in pool) (held_of parts.old) (held_of parts.new) }
{
    if entry_refusal(parts, entity, pool).is_some() {
        return Ok(false);
    }
    match row_of(parts, entity, pool) {
        Some(row) => {
            let sum = sum_in(row, field, value);
            match patch_found(parts, entity, pool, row, field, sum, growing) {
                Ok(()) => Ok(true),
                Err(_) => Err(OutOfMemory),
            }
        }
        None => Ok(false),
    }
}

// The value of a field, and more, in 64 bits; of a field that the row doesn't have it is 0.
fn sum_in(row: Row, field: u32, more: i64) -> i64
    ensures { result ≡ int_wrapping_add w64 (value_at row field) more }
{
    match row.f.get(field as usize) {
        Some(value) => value.wrapping_add(more),
        None => more,
    }
}

// Makes an identifier, and keeps it.
pub fn spawn<L: Listener>(
    parts: &mut Parts<L>,
    last: &mut Option<Entity>,
) -> Result<bool, OutOfMemory>
    requires consistent { IsKept parts.old }
    ensures consistent { IsKept parts.new }
    ensures ok { IfOk result (λ done. IsCarriedOut (held_of parts.old) (held_of parts.new)
        (step parts.old.slots.limit (world_of parts.old) Create) done) }
    ensures last { OnOk result (last.new ≡ last_after last.old Spawn
        (step parts.old.slots.limit (world_of parts.old) Create).reply) }
    ensures err { OnErr result (AsBefore (held_of parts.old) (held_of parts.new)) }
    ensures never { slots_after (held_of parts.old) 1
        ≤ length parts.old.slots.slots + parts.old.slots.spare → IsOk result }
    ensures spends { Spends nowhere nowhere (held_of parts.old) (held_of parts.new) }
{
    match create(parts) {
        Ok(entity) => {
            *last = Some(entity);
            Ok(true)
        }
        Err(refused) => {
            *last = None;
            skipped(refused)
        }
    }
}
