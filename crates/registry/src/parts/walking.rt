//! The groups that stand, and their members side by side.

ghost use Rattle.std.specs.Prelude.{◌≡◌, ◌<◌, ◌≤◌, map, length, slice_get, Some, None, IfOk, IfErr, OnOk};
ghost use Rattle.std.specs.Option.{IfNone};
ghost use Rattle.world_model.specs.declared.refusal.Refusal.{Refusal};
ghost use Rattle.world_model.specs.Contents.{row_at};
ghost use Rattle.world_model.specs.Groups.{has_pool};
ghost use Rattle.registry.specs.Held.{packed_members, rows_refusal};
ghost use Rattle.registry.specs.Layout.{world_of, held_of, IsKept};

use super::Parts;
use super::lawful::know_law;
use entity_id::Entity;
use signal_sink::Listener;
use world_model::{GroupDecl, Refusal, Row};

// The declaration of a group.
pub fn group_decl<L: Listener>(parts: &Parts<L>, group: u32) -> Result<&GroupDecl, Refusal>
    ensures ok { IfOk result (λ decl. slice_get parts.now.groups.decls group ≡ Some decl.now) }
    ensures err { IfErr result (λ refused.
        (refused ≡ Refusal.NoGroup) × (length parts.now.groups.decls ≤ group)) }
{
    if group >= parts.groups.len() {
        return Err(Refusal::NoGroup);
    }
    Ok(parts.groups.decl(group))
}

// The members of a group, in packed order.
pub fn members<L: Listener>(parts: &Parts<L>, group: u32) -> Result<&[Entity], Refusal>
    requires { IsKept parts.now }
    ensures ok { IfOk result (λ list. list.now ≡ packed_members (held_of parts.now) group) }
    ensures stands { OnOk result (group < length parts.now.groups.decls) }
    ensures err { IfErr result (λ refused.
        (refused ≡ Refusal.NoGroup) × (length parts.now.groups.decls ≤ group)) }
{
    if group >= parts.groups.len() {
        return Err(Refusal::NoGroup);
    }
    know_law(parts);
    Ok(parts.groups.members(&parts.pools, group))
}

// The rows of a group's members in a pool that it owns, each at the place of its member.
pub fn rows<L: Listener>(parts: &Parts<L>, group: u32, pool: u32) -> Result<&[Row], Refusal>
    requires { IsKept parts.now }
    ensures ok { IfOk result (λ list. list.now ≡ map (λ entity. row_at (world_of parts.now) pool entity)
        (packed_members (held_of parts.now) group)) }
    ensures accepted { OnOk result (rows_refusal (world_of parts.now) group pool ≡ None) }
    ensures refused { IfErr result (λ refused.
        rows_refusal (world_of parts.now) group pool ≡ Some refused) }
{
    if let Some(refused) = rows_refusal(parts, group, pool) {
        return Err(refused);
    }
    know_law(parts);
    Ok(parts.groups.rows(&parts.pools, group, pool))
}

// Why the rows of a group in a pool are not lent.
fn rows_refusal<L: Listener>(parts: &Parts<L>, group: u32, pool: u32) -> Option<Refusal>
    requires { IsKept parts.now }
    ensures cause { result ≡ rows_refusal (world_of parts.now) group pool }
    ensures stands { IfNone result (group < length parts.now.groups.decls) }
    ensures declared { IfNone result (pool < length parts.now.pools.items) }
{
    if group >= parts.groups.len() {
        return Some(Refusal::NoGroup);
    }
    if pool as usize >= parts.pools.len() {
        return Some(Refusal::NoPool);
    }
    if !has_pool(parts.groups.decl(group).own.as_slice(), pool) {
        return Some(Refusal::BadKey);
    }
    None
}

// Whether a list of pools has this one.
pub fn has_pool(pools: &[u32], pool: u32) -> bool
    ensures { result ≡ has_pool pools.now pool }
{
    pools.iter().any(|other| *other == pool)
}
