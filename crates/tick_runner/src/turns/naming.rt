//! The pools that a system is shown, each named once.

ghost use Rattle.std.specs.Prelude.{◌≡◌, ◌==◌, ◌||◌, ℕ, ◌+◌, ◌≤◌, length, IsTrue};
ghost use Rattle.std.specs.List.{position_from};
ghost use Rattle.world_model.specs.Frames.{pool_limit};
ghost use Rattle.world_model.specs.Groups.{are_declared, are_distinct, has_pool};
ghost use Rattle.system_api.specs.Running.{read_pools};

use arrayvec::ArrayVec;
use system_api::POOL_LIMIT;
use world_model::Access;

// Whether a list of pools has this one.
fn has_pool(pools: &[u32], pool: u32) -> bool
    ensures { result ≡ has_pool pools.now pool }
{
    pools.iter().any(|other| *other == pool)
}

// The place of a pool's number.
pub fn place_in(pools: &[u32], pool: u32) -> Option<usize>
    ensures { result ≡ position_from (λ other. other == pool) 0 pools.now }
{
    pools.iter().position(|other| *other == pool)
}

// Names a pool, unless it is named.
fn name_one(pools: &mut ArrayVec<u32, POOL_LIMIT>, pool: u32)
    requires { length pools.old.items + 1 ≤ pool_limit }
    ensures few { length pools.new.items ≤ length pools.old.items + 1 }
    ensures distinct { IsTrue (are_distinct pools.old.items) → IsTrue (are_distinct pools.new.items) }
    ensures named { (other : ℕ) → has_pool pools.new.items other
        ≡ has_pool pools.old.items other || pool == other }
{
    if !has_pool(pools.as_slice(), pool) {
        pools.push(pool);
    }
}

// Names the pools of a list that aren't named.
fn name_all(pools: &mut ArrayVec<u32, POOL_LIMIT>, list: &[u32])
    requires { length pools.old.items + length list.now ≤ pool_limit }
    ensures few { length pools.new.items ≤ length pools.old.items + length list.now }
    ensures distinct { IsTrue (are_distinct pools.old.items) → IsTrue (are_distinct pools.new.items) }
    ensures named { (other : ℕ) → has_pool pools.new.items other
        ≡ has_pool pools.old.items other || has_pool list.now other }
{
    for pool in list {
        name_one(pools, *pool);
    }
}

// The pools that a system reads, looks at and excludes, each once.
pub fn read_once(access: &Access) -> ArrayVec<u32, POOL_LIMIT>
    requires { length (read_pools access.now) ≤ pool_limit }
    ensures few { length result.items ≤ pool_limit }
    ensures distinct { IsTrue (are_distinct result.items) }
    ensures named { (pool : ℕ) → has_pool result.items pool ≡ has_pool (read_pools access.now) pool }
    ensures declared { (count : ℕ) → IsTrue (are_declared count (read_pools access.now)) →
        IsTrue (are_declared count result.items) }
{
    let mut pools = ArrayVec::new();
    name_all(&mut pools, access.read.as_slice());
    name_all(&mut pools, access.look.as_slice());
    name_all(&mut pools, access.without.as_slice());
    pools
}
