//! Whether an identifier matches a group, were it in a pool or not.

ghost use Rattle.std.specs.Prelude.{◌≡◌, not, IsTrue};
ghost use Rattle.std.specs.List.{list_any, list_all};
ghost use Rattle.group_engine.specs.Grouped.{packed_of};
ghost use Rattle.group_engine.specs.Masks.{may_enter};
ghost use Rattle.group_engine.specs.Moving.{in_if, matches_if, comes_in, goes_out};
ghost use Rattle.world_model.specs.Groups.{has_pool};

use entity_id::Entity;
use storage::Storage;
use world_model::GroupDecl;

fn is_in<T: Copy>(pools: &[Storage<T>], entity: Entity, pool: u32, held: bool, other: u32) -> bool
    ensures { result ≡ in_if (packed_of pools.now) entity pool held other }
{
    if other == pool {
        return held;
    }
    match pools.get(other as usize) {
        Some(stored) => stored.index().contains(entity),
        None => false,
    }
}

fn is_in_all<T: Copy>(
    list: &[u32],
    pools: &[Storage<T>],
    entity: Entity,
    pool: u32,
    held: bool,
) -> bool
    ensures { result ≡ list_all (in_if (packed_of pools.now) entity pool held) list.now }
{
    list.iter()
        .all(|other| is_in(pools, entity, pool, held, *other))
}

fn is_in_one<T: Copy>(
    list: &[u32],
    pools: &[Storage<T>],
    entity: Entity,
    pool: u32,
    held: bool,
) -> bool
    ensures { result ≡ list_any (in_if (packed_of pools.now) entity pool held) list.now }
{
    list.iter()
        .any(|other| is_in(pools, entity, pool, held, *other))
}

// Whether an identifier is in all owned and observed pools of a group and in no excluded one, were it
// in this pool or not.
fn matches_if<T: Copy>(
    decl: &GroupDecl,
    pools: &[Storage<T>],
    entity: Entity,
    pool: u32,
    held: bool,
) -> bool
    ensures { result ≡ matches_if (packed_of pools.now) entity pool held decl.now }
{
    is_in_all(decl.own.as_slice(), pools, entity, pool, held)
        && is_in_all(decl.get.as_slice(), pools, entity, pool, held)
        && !is_in_one(decl.without.as_slice(), pools, entity, pool, held)
}

// Whether a list of pools has this one.
pub fn has_pool(pools: &[u32], pool: u32) -> bool
    ensures { result ≡ has_pool pools.now pool }
{
    pools.iter().any(|other| *other == pool)
}

// Whether a group may be entered by an identifier that comes into a pool, or by one that goes.
pub fn may_enter(decl: &GroupDecl, pool: u32, held: bool) -> bool
    ensures { result ≡ may_enter pool held decl.now }
{
    if held {
        has_pool(decl.own.as_slice(), pool) || has_pool(decl.get.as_slice(), pool)
    } else {
        has_pool(decl.without.as_slice(), pool)
    }
}

// Whether an identifier is in a group after and not before. Before it wasn't in one that may be entered, so
// only what is after is looked up.
#[tactic(auto, using(crate::proofs::TestLemmas::comes_matched))]
pub fn comes_in<T: Copy>(
    decl: &GroupDecl,
    pools: &[Storage<T>],
    entity: Entity,
    pool: u32,
    held: bool,
) -> bool
    requires { IsTrue (may_enter pool held decl.now) }
    ensures { result ≡ comes_in (packed_of pools.now) entity pool held decl.now }
{
    matches_if(decl, pools, entity, pool, held)
}

// Whether it is in a group before and not after.
#[tactic(auto, using(crate::proofs::TestLemmas::goes_as_comes))]
pub fn goes_out<T: Copy>(
    decl: &GroupDecl,
    pools: &[Storage<T>],
    entity: Entity,
    pool: u32,
    held: bool,
) -> bool
    requires { IsTrue (may_enter pool (not held) decl.now) }
    ensures { result ≡ goes_out (packed_of pools.now) entity pool held decl.now }
{
    comes_in(decl, pools, entity, pool, !held)
}
