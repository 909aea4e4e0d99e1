//! The causes that commands on one row share.

ghost use Rattle.std.specs.Prelude.{◌≡◌, ◌≢◌, ◌<◌, [], ◌∷◌, length, Option, Some, IsTrue};
ghost use Rattle.std.specs.Option.{IfNone, option_or};
ghost use Rattle.entity_id.specs.FiniteMap as entries;
ghost use Rattle.world_model.specs.declared.refusal.Refusal.{Refusal};
ghost use Rattle.world_model.specs.Contents.{has_row, pool_at};
ghost use Rattle.world_model.specs.Groups.{are_declared};
ghost use Rattle.world_model.specs.Refusing.{first_refusal, when_dead, when_no_entry, when_no_pool};
ghost use Rattle.world_model.specs.Slots.{is_live};
ghost use Rattle.registry.specs.Layout.{world_of, IsKept};

use super::Parts;
use entity_id::Entity;
use signal_sink::Listener;
use world_model::{Refusal, Row};

// `NoPool` where the pool is not declared, and else `Dead` where the identifier is not live. They
// come before any further cause.
pub fn entry_refusal<L: Listener>(parts: &Parts<L>, entity: Entity, pool: u32) -> Option<Refusal>
    requires { IsKept parts.now }
    ensures cause { (further : Option Refusal) →
        when_no_entry (world_of parts.now) pool entity further ≡ option_or result further }
    ensures declared { IfNone result (pool < length parts.now.decls) }
    ensures live { IfNone result (IsTrue (is_live parts.now.slots.slots entity)) }
    ensures never { result ≢ Some Refusal.OutOfMemory }
{
    if pool as usize >= parts.pools.len() {
        return Some(Refusal::NoPool);
    }
    if !parts.slots.valid(entity) {
        return Some(Refusal::Dead);
    }
    None
}

// `NoPool` where one of the pools is not declared.
pub fn pools_refusal<L: Listener>(parts: &Parts<L>, pools: &[u32]) -> Option<Refusal>
    requires { IsKept parts.now }
    ensures { result ≡ when_no_pool (world_of parts.now) pools.now }
{
    if are_declared(pools, parts.pools.len()) {
        None
    } else {
        Some(Refusal::NoPool)
    }
}

// Whether each of these pools is below a number.
fn are_declared(pools: &[u32], count: usize) -> bool
    ensures { result ≡ are_declared count pools.now }
{
    pools.iter().all(|pool| (*pool as usize) < count)
}

// `NoPool` where one of the pools is not declared, and else `Dead` where the identifier is not live.
pub fn entity_refusal<L: Listener>(
    parts: &Parts<L>,
    entity: Entity,
    pools: &[u32],
) -> Option<Refusal>
    requires { IsKept parts.now }
    ensures { result ≡ first_refusal (when_no_pool (world_of parts.now) pools.now
        ∷ when_dead (world_of parts.now) entity ∷ []) }
{
    match pools_refusal(parts, pools) {
        Some(refused) => Some(refused),
        None if parts.slots.valid(entity) => None,
        None => Some(Refusal::Dead),
    }
}

// Whether an identifier has a row in a pool; in one that isn't declared it has none.
pub fn has_row<L: Listener>(parts: &Parts<L>, entity: Entity, pool: u32) -> bool
    ensures { result ≡ has_row (world_of parts.now) pool entity }
{
    match parts.pools.get(pool as usize) {
        Some(stored) => stored.contains(entity),
        None => false,
    }
}

// The row of an identifier in a pool, where it has one.
pub fn row_of<L: Listener>(parts: &Parts<L>, entity: Entity, pool: u32) -> Option<Row>
    requires consistent { IsKept parts.now }
    requires declared { pool < length parts.now.decls }
    ensures { result ≡ entries.get (pool_at (world_of parts.now) pool) entity }
{
    parts.pools[pool as usize].get(entity)
}
