//! The commands that change nothing.

ghost use Rattle.std.specs.Prelude.{◌≡◌, ◌<◌, ◌≤◌, length, IfOk, IfErr, OnOk};
ghost use Rattle.std.specs.List.{list_all, list_any};
ghost use Rattle.entity_id.specs.FiniteMap as entries;
ghost use Rattle.world_model.specs.declared.command.Command.TheVariants.{Get, AllOf, AnyOf, Orphan};
ghost use Rattle.world_model.specs.declared.command.Reply.TheVariants.{Truth, Values, Refused};
ghost use Rattle.world_model.specs.Contents.{has_row};
ghost use Rattle.world_model.specs.Groups.{packed_at};
ghost use Rattle.registry.specs.Held.{reply_to};
ghost use Rattle.registry.specs.Layout.{world_of, held_of, IsKept};

use super::Parts;
use super::refusing::{entity_refusal, entry_refusal, has_row, row_of};
use entity_id::{Entity, Pools};
use signal_sink::Listener;
use storage::Storage;
use world_model::{Refusal, Row};

// The row of an identifier.
pub fn get<L: Listener>(parts: &Parts<L>, entity: Entity, pool: u32) -> Result<Row, Refusal>
    requires { IsKept parts.now }
    ensures ok { IfOk result (λ row. reply_to (held_of parts.now) (Get entity pool) ≡ Values row) }
    ensures err { IfErr result (λ refused.
        reply_to (held_of parts.now) (Get entity pool) ≡ Refused refused) }
{
    if let Some(refused) = entry_refusal(parts, entity, pool) {
        return Err(refused);
    }
    match row_of(parts, entity, pool) {
        Some(row) => Ok(row),
        None => Err(Refusal::Absent),
    }
}

// Whether an identifier is in each of these pools.
pub fn all_of<L: Listener>(parts: &Parts<L>, entity: Entity, pools: &Pools) -> Result<bool, Refusal>
    requires { IsKept parts.now }
    ensures ok { IfOk result (λ answer.
        reply_to (held_of parts.now) (AllOf entity pools.now) ≡ Truth answer) }
    ensures err { IfErr result (λ refused.
        reply_to (held_of parts.now) (AllOf entity pools.now) ≡ Refused refused) }
{
    match entity_refusal(parts, entity, pools.as_slice()) {
        Some(refused) => Err(refused),
        None => Ok(is_in_all(parts, entity, pools.as_slice())),
    }
}

pub fn is_in_all<L: Listener>(parts: &Parts<L>, entity: Entity, pools: &[u32]) -> bool
    ensures { result ≡ list_all (λ pool. has_row (world_of parts.now) pool entity) pools.now }
{
    pools.iter().all(|pool| has_row(parts, entity, *pool))
}

// Whether an identifier is in one of these pools.
pub fn any_of<L: Listener>(parts: &Parts<L>, entity: Entity, pools: &Pools) -> Result<bool, Refusal>
    requires { IsKept parts.now }
    ensures ok { IfOk result (λ answer.
        reply_to (held_of parts.now) (AnyOf entity pools.now) ≡ Truth answer) }
    ensures err { IfErr result (λ refused.
        reply_to (held_of parts.now) (AnyOf entity pools.now) ≡ Refused refused) }
{
    match entity_refusal(parts, entity, pools.as_slice()) {
        Some(refused) => Err(refused),
        None => Ok(is_in_one(parts, entity, pools.as_slice())),
    }
}

pub fn is_in_one<L: Listener>(parts: &Parts<L>, entity: Entity, pools: &[u32]) -> bool
    ensures { result ≡ list_any (λ pool. has_row (world_of parts.now) pool entity) pools.now }
{
    pools.iter().any(|pool| has_row(parts, entity, *pool))
}

// Whether an identifier is in no pool.
pub fn orphan<L: Listener>(parts: &Parts<L>, entity: Entity) -> Result<bool, Refusal>
    ensures ok { IfOk result (λ answer.
        reply_to (held_of parts.now) (Orphan entity) ≡ Truth answer) }
    ensures err { IfErr result (λ refused.
        reply_to (held_of parts.now) (Orphan entity) ≡ Refused refused) }
{
    if !parts.slots.valid(entity) {
        return Err(Refusal::Dead);
    }
    Ok(!is_held(&parts.pools, entity))
}

fn is_held(pools: &[Storage<Row>], entity: Entity) -> bool
    ensures { result ≡ list_any
        (λ stored. entries.contains (entries.map_of stored.pairs) entity) pools.now }
{
    pools.iter().any(|pool| pool.contains(entity))
}

// The identifiers of a pool, in packed order.
pub fn entities<L: Listener>(parts: &Parts<L>, pool: u32) -> Result<&[Entity], Refusal>
    requires { IsKept parts.now }
    ensures ok { IfOk result (λ list. list.now ≡ packed_at (held_of parts.now).packed pool) }
    ensures declared { OnOk result (pool < length parts.now.decls) }
    ensures err { IfErr result (λ refused.
        (refused ≡ Refusal.NoPool) × (length parts.now.decls ≤ pool)) }
{
    match parts.pools.get(pool as usize) {
        Some(stored) => Ok(stored.index().packed()),
        None => Err(Refusal::NoPool),
    }
}
