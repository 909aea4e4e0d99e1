//! All groups where one identifier comes into a pool, or goes.

ghost use Rattle.std.specs.Prelude.{◌≡◌, ℕ, ◌+◌, ◌≤◌, not, length, IsTrue, true, false};
ghost use Rattle.entity_id.specs.Matching.{is_in};
ghost use Rattle.world_model.specs.declared.group.GroupDecl.{GroupDecl};
ghost use Rattle.group_engine.specs.Grouped.{packed_of, cores_of, naming_cost, AreGrouped, WereGrouped, AreGroupedWithout, AreStill, moves};
ghost use Rattle.group_engine.specs.Families.{IsFamily, IsOutermostFirst};
ghost use Rattle.group_engine.specs.Masks.{may_enter, IsMask};
ghost use Rattle.group_engine.specs.Moving.{AreMixed, matches_if, HaveSame};

use crate::passes::{enter_all, leave_all};
use entity_id::Entity;
use sparse_set::Steps;
use std::sync::ledger::Ledger;
use storage::Storage;
use world_model::GroupDecl;

// Leaves the groups that the identifier no longer matches, from the innermost out, and enters those
// that it matches now, from the outermost in. Only groups that the change concerns are tried.
fn update<T: Copy, G: Ledger>(
    decls: &[GroupDecl],
    order: &[u32],
    entering: u32,
    leaving: u32,
    lens: &mut [u32],
    pools: &mut [Storage<T>],
    entity: Entity,
    pool: u32,
    held: bool,
    steps: &mut Steps<G>,
)
    requires family { IsFamily decls.now }
    requires order { IsOutermostFirst decls.now order.now }
    requires entering { IsMask entering decls.now order.now (may_enter pool held) }
    requires leaving { IsMask leaving decls.now order.now (may_enter pool (not held)) }
    requires each { length lens.old ≡ length decls.now }
    requires here { IsTrue (is_in (packed_of pools.old) entity pool) }
    requires mixed { AreMixed decls.now lens.old (packed_of pools.old) (packed_of pools.old) entity
        (λ (group : ℕ) (decl : GroupDecl). matches_if (packed_of pools.old) entity pool (not held) decl) }
    ensures mixed { AreMixed decls.now lens.new (packed_of pools.old) (packed_of pools.new) entity
        (λ (group : ℕ) (decl : GroupDecl). matches_if (packed_of pools.old) entity pool held decl) }
    ensures same { HaveSame (packed_of pools.old) (packed_of pools.new) }
    ensures still { AreStill (moves decls.now pool) (packed_of pools.old) (packed_of pools.new) }
    ensures cores { cores_of pools.new ≡ cores_of pools.old }
    ensures each { length lens.new ≡ length lens.old }
    ensures steps { steps.new ≤ steps.old + naming_cost decls.now pool }
{
    leave_all(
        decls, order, leaving, lens, pools, entity, pool, held, steps,
    );
    enter_all(
        decls, order, entering, lens, pools, entity, pool, held, steps,
    );
}

// After an identifier was appended to a pool.
pub fn after_add<T: Copy, G: Ledger>(
    decls: &[GroupDecl],
    order: &[u32],
    wanting: u32,
    excluding: u32,
    lens: &mut [u32],
    pools: &mut [Storage<T>],
    entity: Entity,
    pool: u32,
    steps: &mut Steps<G>,
)
    requires family { IsFamily decls.now }
    requires order { IsOutermostFirst decls.now order.now }
    requires wanting { IsMask wanting decls.now order.now (may_enter pool true) }
    requires excluding { IsMask excluding decls.now order.now (may_enter pool false) }
    requires each { length lens.old ≡ length decls.now }
    requires grouped { WereGrouped decls.now lens.old (packed_of pools.old) entity pool }
    ensures grouped { AreGrouped decls.now lens.new (packed_of pools.new) }
    ensures still { AreStill (moves decls.now pool) (packed_of pools.old) (packed_of pools.new) }
    ensures cores { cores_of pools.new ≡ cores_of pools.old }
    ensures each { length lens.new ≡ length lens.old }
    ensures steps { steps.new ≤ steps.old + naming_cost decls.now pool }
{
    update(
        decls, order, wanting, excluding, lens, pools, entity, pool, true, steps,
    );
}

// Before an identifier is erased from a pool.
pub fn before_remove<T: Copy, G: Ledger>(
    decls: &[GroupDecl],
    order: &[u32],
    wanting: u32,
    excluding: u32,
    lens: &mut [u32],
    pools: &mut [Storage<T>],
    entity: Entity,
    pool: u32,
    steps: &mut Steps<G>,
)
    requires family { IsFamily decls.now }
    requires order { IsOutermostFirst decls.now order.now }
    requires wanting { IsMask wanting decls.now order.now (may_enter pool true) }
    requires excluding { IsMask excluding decls.now order.now (may_enter pool false) }
    requires each { length lens.old ≡ length decls.now }
    requires here { IsTrue (is_in (packed_of pools.old) entity pool) }
    requires grouped { AreGrouped decls.now lens.old (packed_of pools.old) }
    ensures grouped { AreGroupedWithout decls.now lens.new (packed_of pools.new) entity pool }
    ensures still { AreStill (moves decls.now pool) (packed_of pools.old) (packed_of pools.new) }
    ensures cores { cores_of pools.new ≡ cores_of pools.old }
    ensures each { length lens.new ≡ length lens.old }
    ensures steps { steps.new ≤ steps.old + naming_cost decls.now pool }
{
    update(
        decls, order, excluding, wanting, lens, pools, entity, pool, false, steps,
    );
    let _distinct = pools[pool as usize].index();
}
