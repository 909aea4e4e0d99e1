//! Entities that are in several pools.

ghost use Rattle.std.specs.Prelude.{◌≡◌, ◌≢◌, ◌<◌, ◌++◌, length, filter, Some, Err, IsTrue, IfOk, IfErr};
ghost use Rattle.entity_id.specs.Matching.{is_match, matches};
ghost use Rattle.world_model.specs.declared.command.Command.TheVariants.{View};
ghost use Rattle.world_model.specs.declared.command.Reply.TheVariants.{Listed};
ghost use Rattle.world_model.specs.declared.refusal.Refusal.{Refusal};
ghost use Rattle.world_model.specs.Contents.{keys_of};
ghost use Rattle.world_model.specs.Groups.{are_declared};
ghost use Rattle.world_model.specs.Refusing.{when_no_pool};
ghost use Rattle.registry.specs.Held.{reply_to, refusal_to};
ghost use Rattle.registry.specs.Layout.{world_of, held_of, IsKept};

use super::Parts;
use super::queries::{is_in_all, is_in_one};
use super::refusing::pools_refusal;
use entity_id::{Entities, Entity, OutOfMemory, Pools};
use signal_sink::Listener;
use world_model::Refusal;

// The entities that are in all of some pools and in none of some others, in ascending index.
pub fn view<L: Listener>(
    parts: &Parts<L>,
    all: &Pools,
    without: &Pools,
) -> Result<Entities, Refusal>
    requires consistent { IsKept parts.now }
    requires some { 0 < length all.now }
    ensures ok { IfOk result (λ list.
        reply_to (held_of parts.now) (View all.now without.now) ≡ Listed list) }
    ensures cause { IfErr result (λ refused. refused ≢ Refusal.OutOfMemory →
        refusal_to (held_of parts.now) (View all.now without.now) ≡ Some refused) }
    ensures refused { (cause : Refusal) →
        refusal_to (held_of parts.now) (View all.now without.now) ≡ Some cause →
        result ≡ Err cause }
{
    let (all, without) = (all.as_slice(), without.as_slice());
    match view_refusal(parts, all, without) {
        Some(refused) => Err(refused),
        None => match list_matches(parts, all, without) {
            Ok(list) => Ok(Entities::from_vec(list)),
            Err(_) => Err(Refusal::OutOfMemory),
        },
    }
}

// `NoPool` where one of the pools is not declared.
fn view_refusal<L: Listener>(parts: &Parts<L>, all: &[u32], without: &[u32]) -> Option<Refusal>
    requires { IsKept parts.now }
    ensures { result ≡ when_no_pool (world_of parts.now) (all.now ++ without.now) }
{
    match pools_refusal(parts, all) {
        Some(refused) => Some(refused),
        None => pools_refusal(parts, without),
    }
}

// Those that match, found by a walk of the smallest pool that they are in.
fn list_matches<L: Listener>(
    parts: &Parts<L>,
    all: &[u32],
    without: &[u32],
) -> Result<Vec<Entity>, OutOfMemory>
    requires consistent { IsKept parts.now }
    requires some { 0 < length all.now }
    requires declared { IsTrue (are_declared (length parts.now.decls) all.now) }
    ensures { IfOk result (λ list.
        list.items ≡ matches (keys_of (world_of parts.now)) all.now without.now) }
{
    let lead = all[smallest(parts, all)];
    let set = parts.pools[lead as usize].index();
    let mut found = matching(parts, set.packed(), all, without)?;
    found.sort_unstable_by_key(|entity| entity.index);
    Ok(found)
}

// The place of a pool that has the fewest rows: the first one.
fn smallest<L: Listener>(parts: &Parts<L>, all: &[u32]) -> usize
    requires { 0 < length all.now }
    ensures { result < length all.now }
{
    let mut least = 0;
    for place in 0..all.len() {
        if rows_in(parts, all[place]) < rows_in(parts, all[least]) {
            least = place;
        }
    }
    least
}

// How many rows a pool has. What a view lists doesn't depend on it.
fn rows_in<L: Listener>(parts: &Parts<L>, pool: u32) -> u32 {
    match parts.pools.get(pool as usize) {
        Some(stored) => stored.len(),
        None => 0,
    }
}

// Those of a list that match, in its order.
fn matching<L: Listener>(
    parts: &Parts<L>,
    list: &[Entity],
    all: &[u32],
    without: &[u32],
) -> Result<Vec<Entity>, OutOfMemory>
    ensures { IfOk result (λ found. found.items
        ≡ filter (is_match (keys_of (world_of parts.now)) all.now without.now) list.now) }
{
    let mut found = Vec::new(*parts.pools.allocator());
    for entity in list {
        if is_match(parts, *entity, all, without) {
            found.push(*entity)?;
        }
    }
    Ok(found)
}

// Whether an identifier is in all of some pools and in none of some others.
fn is_match<L: Listener>(parts: &Parts<L>, entity: Entity, all: &[u32], without: &[u32]) -> bool
    ensures { result ≡ is_match (keys_of (world_of parts.now)) all.now without.now entity }
{
    is_in_all(parts, entity, all) && !is_in_one(parts, entity, without)
}
