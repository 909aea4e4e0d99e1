//! Turns to read what a system reads, looks at and excludes.

ghost use Rattle.std.specs.Prelude.{◌≡◌, ◌≤◌, ◌<◌, ◌+◌, ◌++◌, ◌∷◌, ℕ, [], List, map, length, IsTrue, is_some, Option};
ghost use Rattle.std.specs.List.{AllByRecursion, AllZip};
ghost use Rattle.world_model.specs.Frames.{pool_limit};
ghost use Rattle.world_model.specs.Groups.{are_declared, has_pool};
ghost use Rattle.system_api.specs.Running.{read_pools};
ghost use Rattle.pool_slots.specs.Turns.{Turn};
ghost use Rattle.tick_runner.specs.Turns.{found_at, IsOf};

use super::naming::place_in;
use arrayvec::ArrayVec;
use pool_slots::{PoolFact, ReadTurn, Slots};
use std::sync::Wait;
use system_api::{Lent, POOL_LIMIT};
use world_model::Access;

// Takes a turn to read each of these pools, at the version that is needed.
pub fn read_all<'s, R: Wait, F: PoolFact>(
    rt: &R,
    slots: &'s Slots<F>,
    needs: &[u32],
    pools: &[u32],
) -> ArrayVec<Option<ReadTurn<'s, F>>, POOL_LIMIT>
    requires declared { IsTrue (are_declared (length slots.now) pools.now) }
    requires few { length pools.now ≤ pool_limit }
    requires needs { length needs.now ≡ length slots.now }
    ensures found { result.items ≡ found_at slots.now needs.now pools.now }
    ensures there { AllByRecursion (λ turn. IsTrue (is_some turn)) result.items }
{
    let mut turns = ArrayVec::new();
    for pool in pools {
        turns.push(Some(slots.read(rt, *pool, needs[*pool as usize])));
    }
    turns
}

// Lends the pool of a turn for reading.
fn lend_one<'t, F: PoolFact>(
    pools: &[u32],
    turns: &'t [Option<ReadTurn<'_, F>>],
    lent: &mut Lent<'t>,
    pool: u32,
)
    requires each { length turns.now ≡ length pools.now }
    requires turned { length turns.now ≤ pool_limit }
    requires there { AllByRecursion (λ turn. IsTrue (is_some turn)) turns.now }
    requires named { IsTrue (has_pool pools.now pool) }
    requires few { length lent.old.reads + 1 ≤ pool_limit }
    ensures reads { (found : ℕ → Option (Turn F)) (lists : List ℕ) → turns.now ≡ map found pools.now →
        AllZip (IsOf F.admits) (map found lists) lent.old.reads → AllZip (IsOf F.admits) (map found (lists ++ pool ∷ [])) lent.new.reads }
    ensures count { length lent.new.reads ≡ length lent.old.reads + 1 }
    ensures writes { lent.new.writes ≡ lent.old.writes }
    ensures prefix { lent.new.prefix ≡ lent.old.prefix }
{
    let Some(at) = place_in(pools, pool) else {
        unreachable!()
    };
    let Some(turn) = &turns[at] else {
        unreachable!()
    };
    lent.add_read(turn.pool(), turn.storage());
}

// Lends the pools of turns for reading, each as often as the list names it.
fn lend_list<'t, F: PoolFact>(
    pools: &[u32],
    turns: &'t [Option<ReadTurn<'_, F>>],
    lent: &mut Lent<'t>,
    list: &[u32],
)
    requires each { length turns.now ≡ length pools.now }
    requires turned { length turns.now ≤ pool_limit }
    requires there { AllByRecursion (λ turn. IsTrue (is_some turn)) turns.now }
    requires named { AllByRecursion (λ pool. IsTrue (has_pool pools.now pool)) list.now }
    requires few { length lent.old.reads + length list.now ≤ pool_limit }
    ensures reads { (found : ℕ → Option (Turn F)) (lists : List ℕ) → turns.now ≡ map found pools.now →
        AllZip (IsOf F.admits) (map found lists) lent.old.reads → AllZip (IsOf F.admits) (map found (lists ++ list.now)) lent.new.reads }
    ensures count { length lent.new.reads ≡ length lent.old.reads + length list.now }
    ensures writes { lent.new.writes ≡ lent.old.writes }
    ensures prefix { lent.new.prefix ≡ lent.old.prefix }
{
    for pool in list {
        lend_one(pools, turns, lent, *pool);
    }
}

// Lends the pools that a system reads, looks at and excludes: one that stands in two of the lists is lent twice, by one turn.
pub fn lend_turns<'t, F: PoolFact>(
    pools: &[u32],
    turns: &'t [Option<ReadTurn<'_, F>>],
    lent: &mut Lent<'t>,
    access: &Access,
)
    requires each { length turns.now ≡ length pools.now }
    requires turned { length turns.now ≤ pool_limit }
    requires there { AllByRecursion (λ turn. IsTrue (is_some turn)) turns.now }
    requires named { (pool : ℕ) → has_pool pools.now pool ≡ has_pool (read_pools access.now) pool }
    requires few { length (read_pools access.now) ≤ pool_limit }
    requires empty { lent.old.reads ≡ [] }
    ensures reads { (found : ℕ → Option (Turn F)) → turns.now ≡ map found pools.now →
        AllZip (IsOf F.admits) (map found (read_pools access.now)) lent.new.reads }
    ensures writes { lent.new.writes ≡ lent.old.writes }
    ensures prefix { lent.new.prefix ≡ lent.old.prefix }
{
    lend_list(pools, turns, lent, access.read.as_slice());
    lend_list(pools, turns, lent, access.look.as_slice());
    lend_list(pools, turns, lent, access.without.as_slice());
}

// Gives turns back.
pub fn leave_all<F: PoolFact>(mut turns: ArrayVec<Option<ReadTurn<'_, F>>, POOL_LIMIT>) {
    while let Some(turn) = turns.pop() {
        match turn {
            Some(turn) => turn.leave(),
            None => {}
        }
    }
}
