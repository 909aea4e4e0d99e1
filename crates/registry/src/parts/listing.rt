//! Lists of a group's members, and of what a sort has put in order.

ghost use Rattle.std.specs.Prelude.{◌≡◌, ◌≢◌, ◌+◌, ◌≤◌, [], length, reverse, Some, Err, IfOk, IfErr, OnOk, OnErr, vec_capacity, IsPermutation};
ghost use Rattle.entity_id.specs.FiniteMap.{AreAscending, AreDistinctBy};
ghost use Rattle.world_model.specs.declared.command.Command.TheVariants.{Members, SortPool, SortGroup};
ghost use Rattle.world_model.specs.declared.command.Reply.TheVariants.{Listed};
ghost use Rattle.world_model.specs.declared.refusal.Refusal.{Refusal};
ghost use Rattle.world_model.specs.Contents.{pool_at, group_at};
ghost use Rattle.registry.specs.Costs.{sort_steps};
ghost use Rattle.registry.specs.Held.{Does, AsBefore, reply_to, refusal_to};
ghost use Rattle.registry.specs.Layout.{world_of, held_of, IsKept};
ghost use Rattle.registry.specs.Packing.{Repacks};

use super::Parts;
use super::members::members_of;
use super::sorting::{group_refusal, order_group, order_pool, pool_refusal};
use entity_id::{Entities, Entity, OutOfMemory};
use signal_sink::Listener;
use sparse_set::Steps;
use std::alloc::Global;
use std::sync::ledger::Ledger;
use world_model::Refusal;

// The members of a group, in ascending index.
pub fn list_members<L: Listener>(parts: &Parts<L>, group: u32) -> Result<Entities, Refusal>
    requires { IsKept parts.now }
    ensures ok { IfOk result (λ list. reply_to (held_of parts.now) (Members group) ≡ Listed list) }
    ensures cause { IfErr result (λ refused. refused ≢ Refusal.OutOfMemory →
        refusal_to (held_of parts.now) (Members group) ≡ Some refused) }
    ensures refused { (cause : Refusal) →
        refusal_to (held_of parts.now) (Members group) ≡ Some cause → result ≡ Err cause }
{
    if group >= parts.groups.len() {
        return Err(Refusal::NoGroup);
    }
    match ascending(*parts.pools.allocator(), members_of(parts, group)) {
        Ok(list) => Ok(list),
        Err(OutOfMemory) => Err(Refusal::OutOfMemory),
    }
}

// These identifiers in ascending index.
fn ascending(alloc: Global, list: &[Entity]) -> Result<Entities, OutOfMemory>
    requires { AreDistinctBy (λ entity. entity.index) list.now }
    ensures each { IfOk result (λ sorted. IsPermutation list.now sorted) }
    ensures ascending { IfOk result (λ sorted. AreAscending sorted) }
{
    let mut sorted = Vec::from_slice(alloc, list)?;
    sorted.sort_unstable_by_key(|entity| entity.index);
    Ok(Entities::from_vec(sorted))
}

// The identifiers of a packed list in the order of a walk from the back, in a list with room for them.
fn walk_of(mut list: Vec<Entity>, packed: &[Entity]) -> Entities
    requires empty { list.items ≡ [] }
    requires room { length packed.now ≤ vec_capacity list }
    ensures { result ≡ reverse packed.now }
{
    let _ = list.extend_from_slice(packed);
    list.reverse();
    Entities::from_vec(list)
}

// Puts a pool in the order of a field, and lists it so. The list's memory is taken first.
pub fn list_sorted_pool<L: Listener, G: Ledger>(
    parts: &mut Parts<L>,
    pool: u32,
    field: u32,
    steps: &mut Steps<G>,
) -> Result<Entities, Refusal>
    requires { IsKept parts.old }
    ensures consistent { IsKept parts.new }
    ensures ok { OnOk result
        (Does (held_of parts.old) (held_of parts.new) (SortPool pool field)) }
    ensures reply { IfOk result (λ list.
        reply_to (held_of parts.old) (SortPool pool field) ≡ Listed list) }
    ensures err { OnErr result (AsBefore (held_of parts.old) (held_of parts.new)) }
    ensures cause { IfErr result (λ refused. refused ≢ Refusal.OutOfMemory →
        refusal_to (held_of parts.old) (SortPool pool field) ≡ Some refused) }
    ensures refused { (cause : Refusal) →
        refusal_to (held_of parts.old) (SortPool pool field) ≡ Some cause → result ≡ Err cause }
    ensures packed { OnOk result
        (Repacks (held_of parts.old) (held_of parts.new) (SortPool pool field)) }
    ensures steps { steps.new ≤ steps.old + length (pool_at (world_of parts.old) pool) }
{
    if let Some(refused) = pool_refusal(parts, pool, field) {
        return Err(refused);
    }
    let at = pool as usize;
    let alloc = *parts.pools.allocator();
    let Ok(list) = Vec::with_capacity(alloc, parts.pools[at].len() as usize) else {
        return Err(Refusal::OutOfMemory);
    };
    match order_pool(parts, pool, field, steps) {
        Ok(()) => Ok(walk_of(list, parts.pools[at].entities())),
        Err(refused) => Err(refused),
    }
}

// Puts a group in the order of a field of a pool, and lists it so. The list's memory is taken first.
pub fn list_sorted_group<L: Listener, G: Ledger>(
    parts: &mut Parts<L>,
    group: u32,
    pool: u32,
    field: u32,
    steps: &mut Steps<G>,
) -> Result<Entities, Refusal>
    requires { IsKept parts.old }
    ensures consistent { IsKept parts.new }
    ensures ok { OnOk result
        (Does (held_of parts.old) (held_of parts.new) (SortGroup group pool field)) }
    ensures reply { IfOk result (λ list.
        reply_to (held_of parts.old) (SortGroup group pool field) ≡ Listed list) }
    ensures err { OnErr result (AsBefore (held_of parts.old) (held_of parts.new)) }
    ensures cause { IfErr result (λ refused. refused ≢ Refusal.OutOfMemory →
        refusal_to (held_of parts.old) (SortGroup group pool field) ≡ Some refused) }
    ensures refused { (cause : Refusal) →
        refusal_to (held_of parts.old) (SortGroup group pool field) ≡ Some cause →
        result ≡ Err cause }
    ensures packed { OnOk result
        (Repacks (held_of parts.old) (held_of parts.new) (SortGroup group pool field)) }
    ensures steps { steps.new
        ≤ steps.old + sort_steps (world_of parts.old) (group_at (world_of parts.old) group) }
{
    if let Some(refused) = group_refusal(parts, group, pool, field) {
        return Err(refused);
    }
    let alloc = *parts.pools.allocator();
    let count = members_of(parts, group).len();
    let Ok(list) = Vec::with_capacity(alloc, count) else {
        return Err(Refusal::OutOfMemory);
    };
    match order_group(parts, group, pool, field, steps) {
        Ok(()) => Ok(walk_of(list, members_of(parts, group))),
        Err(refused) => Err(refused),
    }
}
