//! Pools and groups put in the order of a field.

ghost use Rattle.std.specs.Prelude.{◌≡◌, ◌≢◌, ◌+◌, ◌≤◌, ◌<◌, ◌++◌, length, map, take, Some, None, Err, IfOk, IfErr, OnOk, OnErr, IsPermutation};
ghost use Rattle.entity_id.specs.FiniteMap as entries;
ghost use Rattle.world_model.specs.declared.command.Command.TheVariants.{SortPool, SortGroup};
ghost use Rattle.world_model.specs.declared.refusal.Refusal.{Refusal};
ghost use Rattle.world_model.specs.Components.{value_at};
ghost use Rattle.world_model.specs.Contents.{pool_at, keys_of, group_at};
ghost use Rattle.world_model.specs.Groups.{has_pool, members, packed_at};
ghost use Rattle.world_model.specs.Outcomes.{member_rows};
ghost use Rattle.group_engine.specs.Grouped.{core_of, packed_of};
ghost use Rattle.group_engine.specs.Engine.{len_at, prefix_at};
ghost use Rattle.registry.specs.Costs.{sort_steps};
ghost use Rattle.registry.specs.Held.{Does, AsBefore, refusal_to};
ghost use Rattle.registry.specs.Keys.{value_in};
ghost use Rattle.registry.specs.Layout.{world_of, held_of, IsKept};
ghost use Rattle.registry.specs.Packing.{sorted_keys, Repacks};

use super::Parts;
use super::keys::{has_int_field, looked_up, values_of};
use super::members::members_of;
use super::walking::has_pool;
use entity_id::{Entities, OutOfMemory};
use group_engine::groups_after_changes;
use signal_sink::Listener;
use sparse_set::Steps;
use std::alloc::Global;
use std::sync::ledger::Ledger;
use storage::Storage;
use world_model::{GroupDecl, Refusal, Row};

// Why a pool is not sorted by a field, but for want of memory.
pub fn pool_refusal<L: Listener>(parts: &Parts<L>, pool: u32, field: u32) -> Option<Refusal>
    requires { IsKept parts.now }
    ensures cause { result ≡ refusal_to (held_of parts.now) (SortPool pool field) }
{
    if pool as usize >= parts.pools.len() {
        return Some(Refusal::NoPool);
    }
    if !has_int_field(&parts.decls, pool, field) {
        return Some(Refusal::BadKey);
    }
    let by = parts.groups.owner(pool)?;
    Some(Refusal::Owned { by })
}

// Why a group is not sorted by a field of a pool, but for want of memory.
pub fn group_refusal<L: Listener>(
    parts: &Parts<L>,
    group: u32,
    pool: u32,
    field: u32,
) -> Option<Refusal>
    requires { IsKept parts.now }
    ensures cause { result ≡ refusal_to (held_of parts.now) (SortGroup group pool field) }
{
    if group >= parts.groups.len() {
        return Some(Refusal::NoGroup);
    }
    if pool as usize >= parts.pools.len() {
        return Some(Refusal::NoPool);
    }
    if !is_read_by(parts.groups.decl(group), pool) || !has_int_field(&parts.decls, pool, field) {
        return Some(Refusal::BadKey);
    }
    let with = parts.groups.inner(group)?;
    Some(Refusal::HasInner { with })
}

// Whether a group owns or observes a pool.
fn is_read_by(decl: &GroupDecl, pool: u32) -> bool
    ensures { result ≡ has_pool (decl.now.own ++ decl.now.get) pool }
{
    has_pool(decl.own.as_slice(), pool) || has_pool(decl.get.as_slice(), pool)
}

// ---- pools

// The identifiers of a pool in the order of a field.
fn order_by(alloc: Global, stored: &Storage<Row>, field: u32) -> Result<Entities, OutOfMemory>
    ensures order { IfOk result (λ order.
        order ≡ sorted_keys field (entries.map_of stored.now.pairs)) }
    ensures permutation { IfOk result (λ order.
        IsPermutation order (take (length order) (entries.keys stored.now.pairs))) }
    ensures len { IfOk result (λ order. length order ≡ length stored.now.pairs) }
    ensures count { IfOk result (λ order.
        length order ≡ length (entries.map_of stored.now.pairs)) }
{
    let values = values_of(alloc, stored.values(), field)?;
    stored.index().order_of(stored.len(), &values)
}

// Puts a pool in the order of a field.
fn sort_rows<G: Ledger>(
    alloc: Global,
    stored: &mut Storage<Row>,
    field: u32,
    steps: &mut Steps<G>,
) -> Result<(), OutOfMemory>
    ensures keys { OnOk result (entries.keys stored.new.pairs
        ≡ sorted_keys field (entries.map_of stored.old.pairs)) }
    ensures permutation { OnOk result
        (IsPermutation (entries.keys stored.old.pairs) (entries.keys stored.new.pairs)) }
    ensures core { core_of stored.new ≡ core_of stored.old }
    ensures err { OnErr result (stored.new ≡ stored.old) }
    ensures steps { steps.new ≤ steps.old + length (entries.map_of stored.old.pairs) }
{
    let order = order_by(alloc, stored, field)?;
    stored.arrange(order.as_slice(), steps);
    Ok(())
}

// Puts a pool, of which the sort isn't refused, in the order of a field.
pub fn order_pool<L: Listener, G: Ledger>(
    parts: &mut Parts<L>,
    pool: u32,
    field: u32,
    steps: &mut Steps<G>,
) -> Result<(), Refusal>
    requires consistent { IsKept parts.old }
    requires accepted { refusal_to (held_of parts.old) (SortPool pool field) ≡ None }
    ensures consistent { IsKept parts.new }
    ensures cause { IfErr result (λ refused. refused ≡ Refusal.OutOfMemory) }
    ensures ok { OnOk result
        (Does (held_of parts.old) (held_of parts.new) (SortPool pool field)) }
    ensures err { OnErr result (AsBefore (held_of parts.old) (held_of parts.new)) }
    ensures packed { OnOk result
        (Repacks (held_of parts.old) (held_of parts.new) (SortPool pool field)) }
    ensures order { OnOk result (packed_at (packed_of parts.new.pools.items) pool
        ≡ sorted_keys field (pool_at (world_of parts.old) pool)) }
    ensures steps { steps.new ≤ steps.old + length (pool_at (world_of parts.old) pool) }
{
    let at = pool as usize;
    groups_after_changes(parts.pools[at].values());
    let alloc = *parts.pools.allocator();
    match sort_rows(alloc, &mut parts.pools[at], field, steps) {
        Ok(()) => Ok(()),
        Err(OutOfMemory) => Err(Refusal::OutOfMemory),
    }
}

// Puts a pool in the order of a field.
pub fn sort_pool<L: Listener, G: Ledger>(
    parts: &mut Parts<L>,
    pool: u32,
    field: u32,
    steps: &mut Steps<G>,
) -> Result<(), Refusal>
    requires { IsKept parts.old }
    ensures consistent { IsKept parts.new }
    ensures ok { OnOk result
        (Does (held_of parts.old) (held_of parts.new) (SortPool pool field)) }
    ensures err { OnErr result (AsBefore (held_of parts.old) (held_of parts.new)) }
    ensures cause { IfErr result (λ refused. refused ≢ Refusal.OutOfMemory →
        refusal_to (held_of parts.old) (SortPool pool field) ≡ Some refused) }
    ensures refused { (cause : Refusal) →
        refusal_to (held_of parts.old) (SortPool pool field) ≡ Some cause → result ≡ Err cause }
    ensures packed { OnOk result
        (Repacks (held_of parts.old) (held_of parts.new) (SortPool pool field)) }
    ensures steps { steps.new ≤ steps.old + length (pool_at (world_of parts.old) pool) }
{
    if let Some(refused) = pool_refusal(parts, pool, field) {
        return Err(refused);
    }
    order_pool(parts, pool, field, steps)
}

// ---- groups

// The values of a field of a pool, of the rows of a group's members.
fn member_values<L: Listener>(
    parts: &Parts<L>,
    group: u32,
    pool: u32,
    field: u32,
) -> Result<Vec<i64>, OutOfMemory>
    requires consistent { IsKept parts.now }
    requires group { group < length parts.now.groups.decls }
    requires declared { pool < length parts.now.decls }
    ensures values { IfOk result (λ values. values.items
        ≡ map (value_in (pool_at (world_of parts.now) pool) field)
        (prefix_at parts.now.groups (packed_of parts.now.pools.items) group)) }
    ensures matching { IsPermutation
        (prefix_at parts.now.groups (packed_of parts.now.pools.items) group)
        (members (keys_of (world_of parts.now)) (group_at (world_of parts.now) group)) }
    ensures len { length (prefix_at parts.now.groups (packed_of parts.now.pools.items) group)
        ≡ len_at parts.now.groups group }
{
    let alloc = *parts.pools.allocator();
    let members = members_of(parts, group);
    looked_up(alloc, &parts.pools[pool as usize], members, field)
}

// Puts a group, of which the sort isn't refused, in the order of a field of a pool.
pub fn order_group<L: Listener, G: Ledger>(
    parts: &mut Parts<L>,
    group: u32,
    pool: u32,
    field: u32,
    steps: &mut Steps<G>,
) -> Result<(), Refusal>
    requires consistent { IsKept parts.old }
    requires accepted { refusal_to (held_of parts.old) (SortGroup group pool field) ≡ None }
    ensures consistent { IsKept parts.new }
    ensures cause { IfErr result (λ refused. refused ≡ Refusal.OutOfMemory) }
    ensures ok { OnOk result
        (Does (held_of parts.old) (held_of parts.new) (SortGroup group pool field)) }
    ensures err { OnErr result (AsBefore (held_of parts.old) (held_of parts.new)) }
    ensures packed { OnOk result
        (Repacks (held_of parts.old) (held_of parts.new) (SortGroup group pool field)) }
    ensures groups { parts.new.groups ≡ parts.old.groups }
    ensures order { OnOk result (prefix_at parts.new.groups (packed_of parts.new.pools.items) group
        ≡ sorted_keys field (member_rows (world_of parts.old)
        (group_at (world_of parts.old) group) pool)) }
    ensures steps { steps.new
        ≤ steps.old + sort_steps (world_of parts.old) (group_at (world_of parts.old) group) }
{
    let Ok(values) = member_values(parts, group, pool, field) else {
        return Err(Refusal::OutOfMemory);
    };
    match parts
        .groups
        .sort_group(&mut parts.pools, group, &values, steps)
    {
        Ok(()) => Ok(()),
        // No group is inner to it.
        Err(_) => Err(Refusal::OutOfMemory),
    }
}

// Puts a group in the order of a field of a pool.
pub fn sort_group<L: Listener, G: Ledger>(
    parts: &mut Parts<L>,
    group: u32,
    pool: u32,
    field: u32,
    steps: &mut Steps<G>,
) -> Result<(), Refusal>
    requires { IsKept parts.old }
    ensures consistent { IsKept parts.new }
    ensures ok { OnOk result
        (Does (held_of parts.old) (held_of parts.new) (SortGroup group pool field)) }
    ensures err { OnErr result (AsBefore (held_of parts.old) (held_of parts.new)) }
    ensures cause { IfErr result (λ refused. refused ≢ Refusal.OutOfMemory →
        refusal_to (held_of parts.old) (SortGroup group pool field) ≡ Some refused) }
    ensures refused { (cause : Refusal) →
        refusal_to (held_of parts.old) (SortGroup group pool field) ≡ Some cause →
        result ≡ Err cause }
    ensures packed { OnOk result
        (Repacks (held_of parts.old) (held_of parts.new) (SortGroup group pool field)) }
    ensures steps { steps.new
        ≤ steps.old + sort_steps (world_of parts.old) (group_at (world_of parts.old) group) }
{
    if let Some(refused) = group_refusal(parts, group, pool, field) {
        return Err(refused);
    }
    order_group(parts, group, pool, field, steps)
}
