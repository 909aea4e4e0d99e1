//! All groups where a pool is emptied next.

ghost use Rattle.std.specs.Prelude.{◌≡◌, ℕ, ◌+◌, ◌*◌, ◌<◌, ◌≤◌, [], length, set, IsTrue, false};
ghost use Rattle.entity_id.specs.FiniteMap.{AreDistinctBy};
ghost use Rattle.world_model.specs.Groups.{has_pool, group_pools, packed_at};
ghost use Rattle.group_engine.specs.Grouped.{packed_of, cores_of, cost_of, naming_cost, moves, IsGrouped, IsPartitioned, AreGrouped, AreStill};
ghost use Rattle.group_engine.specs.Families.{IsFamily, IsOutermostFirst};
ghost use Rattle.group_engine.specs.Moving.{HaveSame};
ghost use Rattle.group_engine.specs.Clearing.{matches_without, KeepsBeside, refills};

use crate::passes::enter_if;
use crate::testing::has_pool;
use sparse_set::Steps;
use std::sync::ledger::Ledger;
use storage::Storage;
use world_model::GroupDecl;

// Enters a group that excludes a pool by those of the pool that match without it: the group's length is
// answered.
fn enter_excluded<T: Copy, G: Ledger>(
    decl: &GroupDecl,
    count: u32,
    pools: &mut [Storage<T>],
    pool: u32,
    steps: &mut Steps<G>,
) -> u32
    requires some { 0 < length decl.now.own }
    requires distinct { AreDistinctBy (λ (other : ℕ). other) decl.now.own }
    requires declared { pool < length pools.old }
    requires free { has_pool decl.now.own pool ≡ false }
    requires excluded { IsTrue (has_pool decl.now.without pool) }
    requires grouped { IsGrouped (packed_of pools.old) decl.now count }
    ensures grouped { IsPartitioned (packed_of pools.new) decl.now.own result (matches_without (packed_of pools.old) pool decl.now) }
    ensures keeps { KeepsBeside pool decl.now (packed_of pools.old) (packed_of pools.new) }
    ensures still { AreStill (has_pool decl.now.own) (packed_of pools.old) (packed_of pools.new) }
    ensures same { HaveSame (packed_of pools.old) (packed_of pools.new) }
    ensures cores { cores_of pools.new ≡ cores_of pools.old }
    ensures steps { steps.new ≤ steps.old + length (packed_at (packed_of pools.old) pool) * length decl.now.own }
{
    let len = pools[pool as usize].index().len();
    let mut count = count;
    for place in 0..len {
        let entity = pools[pool as usize].index().at(place);
        count = enter_if(decl, count, pools, entity, pool, false, steps);
    }
    count
}

// One group: it has no members then if it owns or observes the pool, and may have more if it excludes it.
fn clear_one<T: Copy, G: Ledger>(
    decl: &GroupDecl,
    count: u32,
    pools: &mut [Storage<T>],
    pool: u32,
    steps: &mut Steps<G>,
) -> u32
    requires some { 0 < length decl.now.own }
    requires distinct { AreDistinctBy (λ (other : ℕ). other) decl.now.own }
    requires declared { pool < length pools.old }
    requires grouped { IsGrouped (packed_of pools.old) decl.now count }
    ensures grouped { IsPartitioned (packed_of pools.new) decl.now.own result (matches_without (packed_of pools.old) pool decl.now) }
    ensures keeps { KeepsBeside pool decl.now (packed_of pools.old) (packed_of pools.new) }
    ensures still { AreStill (refills decl.now pool) (packed_of pools.old) (packed_of pools.new) }
    ensures same { HaveSame (packed_of pools.old) (packed_of pools.new) }
    ensures cores { cores_of pools.new ≡ cores_of pools.old }
    ensures steps { steps.new ≤ steps.old + length (packed_at (packed_of pools.old) pool)
        * cost_of (has_pool (group_pools decl.now) pool) decl.now }
{
    if has_pool(decl.own.as_slice(), pool) || has_pool(decl.get.as_slice(), pool) {
        return 0;
    }
    if !has_pool(decl.without.as_slice(), pool) {
        return count;
    }
    enter_excluded(decl, count, pools, pool, steps)
}

// Before a pool is emptied: the groups are as if it were.
pub fn before_clear<T: Copy, G: Ledger>(
    decls: &[GroupDecl],
    order: &[u32],
    lens: &mut [u32],
    pools: &mut [Storage<T>],
    pool: u32,
    steps: &mut Steps<G>,
)
    requires family { IsFamily decls.now }
    requires order { IsOutermostFirst decls.now order.now }
    requires each { length lens.old ≡ length decls.now }
    requires declared { pool < length pools.old }
    requires grouped { AreGrouped decls.now lens.old (packed_of pools.old) }
    ensures grouped { AreGrouped decls.now lens.new (set (packed_of pools.new) pool []) }
    ensures still { AreStill (moves decls.now pool) (packed_of pools.old) (packed_of pools.new) }
    ensures cores { cores_of pools.new ≡ cores_of pools.old }
    ensures each { length lens.new ≡ length lens.old }
    ensures steps { steps.new ≤ steps.old + length (packed_at (packed_of pools.old) pool) * naming_cost decls.now pool }
{
    for i in 0..order.len() {
        let group = order[i] as usize;
        lens[group] = clear_one(&decls[group], lens[group], pools, pool, steps);
    }
}
