//! All groups, from the outermost in, or from the innermost out.

ghost use Rattle.std.specs.Prelude.{◌≡◌, ℕ, ◌+◌, ◌-◌, ◌<◌, ◌≤◌, ◌&&◌, not, length, IsTrue};
ghost use Rattle.std.specs.List.{sum_by};
ghost use Rattle.entity_id.specs.FiniteMap.{AreDistinctBy};
ghost use Rattle.entity_id.specs.Matching.{is_in};
ghost use Rattle.world_model.specs.declared.group.GroupDecl.{GroupDecl};
ghost use Rattle.world_model.specs.Groups.{has_pool, packed_at};
ghost use Rattle.group_engine.specs.Grouped.{packed_of, cores_of, cost_of, AreStill, moves};
ghost use Rattle.group_engine.specs.Families.{IsFamily, IsOutermostFirst};
ghost use Rattle.group_engine.specs.Masks.{may_enter, IsMask};
ghost use Rattle.group_engine.specs.Moving.{IsReady, AreMixed, matches_if, stays_in, comes_in, goes_out, HaveSame, Comes, Goes, cost_in};

use crate::moving::bring_in_all;
use crate::places::{next_place, past_last};
use crate::testing::{comes_in, goes_out};
use entity_id::Entity;
use sparse_set::Steps;
use std::sync::ledger::Ledger;
use storage::Storage;
use world_model::GroupDecl;

// Enters a group, if the identifier matches now and didn't before: the group's length is answered.
pub fn enter_if<T: Copy, G: Ledger>(
    decl: &GroupDecl,
    count: u32,
    pools: &mut [Storage<T>],
    entity: Entity,
    pool: u32,
    held: bool,
    steps: &mut Steps<G>,
) -> u32
    requires concerned { IsTrue (may_enter pool held decl.now) }
    requires some { 0 < length decl.now.own }
    requires distinct { AreDistinctBy (λ (other : ℕ). other) decl.now.own }
    requires ready { IsTrue (comes_in (packed_of pools.old) entity pool held decl.now) →
        (other : ℕ) → IsTrue (has_pool decl.now.own other) →
        IsReady entity count (packed_at (packed_of pools.old) other) }
    ensures group { Comes (comes_in (packed_of pools.old) entity pool held decl.now)
        decl.now.own entity count result (packed_of pools.old) (packed_of pools.new) }
    ensures cores { cores_of pools.new ≡ cores_of pools.old }
    ensures steps { steps.new ≤ steps.old + cost_of
        (comes_in (packed_of pools.old) entity pool held decl.now) decl.now }
{
    if !comes_in(decl, pools, entity, pool, held) {
        return count;
    }
    let own = decl.own.as_slice();
    let len = pools[own[0] as usize].len();
    bring_in_all(own, pools, entity, count, steps);
    prove!(count < len);
    count + 1
}

// Enters the groups that the identifier matches now; only those of the mask may be entered.
pub fn enter_all<T: Copy, G: Ledger>(
    decls: &[GroupDecl],
    order: &[u32],
    mask: u32,
    lens: &mut [u32],
    pools: &mut [Storage<T>],
    entity: Entity,
    pool: u32,
    held: bool,
    steps: &mut Steps<G>,
)
    requires family { IsFamily decls.now }
    requires order { IsOutermostFirst decls.now order.now }
    requires mask { IsMask mask decls.now order.now (may_enter pool held) }
    requires each { length lens.old ≡ length decls.now }
    requires here { IsTrue (is_in (packed_of pools.old) entity pool) }
    requires mixed { AreMixed decls.now lens.old (packed_of pools.old) (packed_of pools.old) entity
        (λ (group : ℕ) (decl : GroupDecl). stays_in (packed_of pools.old) entity pool held decl) }
    ensures mixed { AreMixed decls.now lens.new (packed_of pools.old) (packed_of pools.new) entity
        (λ (group : ℕ) (decl : GroupDecl). matches_if (packed_of pools.old) entity pool held decl) }
    ensures same { HaveSame (packed_of pools.old) (packed_of pools.new) }
    ensures still { AreStill (moves decls.now pool) (packed_of pools.old) (packed_of pools.new) }
    ensures cores { cores_of pools.new ≡ cores_of pools.old }
    ensures each { length lens.new ≡ length lens.old }
    ensures steps { steps.new ≤ steps.old + sum_by
        (cost_in decls.now (comes_in (packed_of pools.old) entity pool held)) order.now }
{
    let mut place = next_place(mask, 0);
    while place < order.len() {
        let group = order[place] as usize;
        lens[group] = enter_if(&decls[group], lens[group], pools, entity, pool, held, steps);
        place = next_place(mask, place + 1);
    }
}

// Leaves a group, if the identifier matched before and doesn't now: the group's length is answered.
fn leave_if<T: Copy, G: Ledger>(
    decl: &GroupDecl,
    count: u32,
    pools: &mut [Storage<T>],
    entity: Entity,
    pool: u32,
    held: bool,
    steps: &mut Steps<G>,
) -> u32
    requires concerned { IsTrue (may_enter pool (not held) decl.now) }
    requires distinct { AreDistinctBy (λ (other : ℕ). other) decl.now.own }
    requires some { IsTrue (goes_out (packed_of pools.old) entity pool held decl.now) → 0 < count }
    requires ready { IsTrue (goes_out (packed_of pools.old) entity pool held decl.now) →
        (other : ℕ) → IsTrue (has_pool decl.now.own other) →
        IsReady entity (count - 1) (packed_at (packed_of pools.old) other) }
    ensures group { Goes (goes_out (packed_of pools.old) entity pool held decl.now)
        decl.now.own entity count result (packed_of pools.old) (packed_of pools.new) }
    ensures cores { cores_of pools.new ≡ cores_of pools.old }
    ensures steps { steps.new ≤ steps.old + cost_of
        (goes_out (packed_of pools.old) entity pool held decl.now) decl.now }
{
    if !goes_out(decl, pools, entity, pool, held) {
        return count;
    }
    bring_in_all(decl.own.as_slice(), pools, entity, count - 1, steps);
    count - 1
}

// Leaves the groups that it no longer matches; only those of the mask may be left.
pub fn leave_all<T: Copy, G: Ledger>(
    decls: &[GroupDecl],
    order: &[u32],
    mask: u32,
    lens: &mut [u32],
    pools: &mut [Storage<T>],
    entity: Entity,
    pool: u32,
    held: bool,
    steps: &mut Steps<G>,
)
    requires family { IsFamily decls.now }
    requires order { IsOutermostFirst decls.now order.now }
    requires mask { IsMask mask decls.now order.now (may_enter pool (not held)) }
    requires each { length lens.old ≡ length decls.now }
    requires here { IsTrue (is_in (packed_of pools.old) entity pool) }
    requires mixed { AreMixed decls.now lens.old (packed_of pools.old) (packed_of pools.old) entity
        (λ (group : ℕ) (decl : GroupDecl). matches_if (packed_of pools.old) entity pool (not held) decl) }
    ensures mixed { AreMixed decls.now lens.new (packed_of pools.old) (packed_of pools.new) entity
        (λ (group : ℕ) (decl : GroupDecl). stays_in (packed_of pools.old) entity pool held decl) }
    ensures same { HaveSame (packed_of pools.old) (packed_of pools.new) }
    ensures still { AreStill (moves decls.now pool) (packed_of pools.old) (packed_of pools.new) }
    ensures cores { cores_of pools.new ≡ cores_of pools.old }
    ensures each { length lens.new ≡ length lens.old }
    ensures steps { steps.new ≤ steps.old + sum_by
        (cost_in decls.now (goes_out (packed_of pools.old) entity pool held)) order.now }
{
    let mut left = past_last(mask, order.len());
    while left > 0 {
        let place = left - 1;
        let group = order[place] as usize;
        lens[group] = leave_if(&decls[group], lens[group], pools, entity, pool, held, steps);
        left = past_last(mask, place);
    }
}
