//! One identifier comes into a pool, or goes.

ghost use Rattle.std.specs.Prelude.{◌≡◌, ◌+◌, ◌≤◌, false, IsTrue};
ghost use Rattle.entity_id.specs.Matching.{is_in};
ghost use Rattle.group_engine.specs.Grouped.{packed_of, cores_of, AreGrouped, WereGrouped, AreGroupedWithout, AreStill, moves, is_named, naming_cost};

use super::GroupEngine;
use crate::changes;
use entity_id::Entity;
use sparse_set::Steps;
use std::sync::ledger::Ledger;
use storage::Storage;

impl GroupEngine {
    /// Keeps the groups once an identifier was appended to a pool: it leaves the groups that exclude the
    /// pool, and enters those that it matches now. No pool's map, room or bound changes, and only a pool
    /// that is owned by a group that names this one comes into another order. At most as many steps as the
    /// groups that name the pool own pools; where none does, the call ends at once. No memory. (EnTT: what
    /// a group connects to `on_construct` of the pools that it names, and to `on_destroy` of those that it
    /// excludes.)
    pub fn after_add<T: Copy, G: Ledger>(
        &mut self,
        pools: &mut [Storage<T>],
        entity: Entity,
        pool: u32,
        steps: &mut Steps<G>,
    )
        requires { WereGrouped self.old.decls self.old.lens (packed_of pools.old) entity pool }
        ensures grouped { AreGrouped self.new.decls self.new.lens (packed_of pools.new) }
        ensures decls { self.new.decls ≡ self.old.decls }
        ensures pools { self.new.pools ≡ self.old.pools }
        ensures still { AreStill (moves self.old.decls pool) (packed_of pools.old) (packed_of pools.new) }
        ensures cores { cores_of pools.new ≡ cores_of pools.old }
        ensures steps { steps.new ≤ steps.old + naming_cost self.old.decls pool }
        ensures quiet { is_named self.old.decls pool ≡ false → steps.new ≡ steps.old }
    {
        if !self.names(pool) {
            return;
        }
        changes::after_add(
            self.family.as_slice(),
            &self.order,
            self.masks.wanting_at(pool),
            self.masks.excluding_at(pool),
            &mut self.lens,
            pools,
            entity,
            pool,
            steps,
        );
    }

    /// Prepares the groups for an identifier of a pool that is erased from it next: it leaves the groups
    /// that own or observe the pool, and enters those that it will match. No pool's map, room or bound
    /// changes, and only a pool that is owned by a group that names this one comes into another order. At
    /// most as many steps as the groups that name the pool own pools; where none does, the call ends at
    /// once. No memory. (EnTT: what a group connects to `on_destroy` of the pools that it names, and to
    /// `on_construct` of those that it excludes.)
    pub fn before_remove<T: Copy, G: Ledger>(
        &mut self,
        pools: &mut [Storage<T>],
        entity: Entity,
        pool: u32,
        steps: &mut Steps<G>,
    )
        requires here { IsTrue (is_in (packed_of pools.old) entity pool) }
        requires grouped { AreGrouped self.old.decls self.old.lens (packed_of pools.old) }
        ensures grouped { AreGroupedWithout self.new.decls self.new.lens (packed_of pools.new) entity pool }
        ensures decls { self.new.decls ≡ self.old.decls }
        ensures pools { self.new.pools ≡ self.old.pools }
        ensures still { AreStill (moves self.old.decls pool) (packed_of pools.old) (packed_of pools.new) }
        ensures cores { cores_of pools.new ≡ cores_of pools.old }
        ensures steps { steps.new ≤ steps.old + naming_cost self.old.decls pool }
        ensures quiet { is_named self.old.decls pool ≡ false → steps.new ≡ steps.old }
    {
        if !self.names(pool) {
            return;
        }
        changes::before_remove(
            self.family.as_slice(),
            &self.order,
            self.masks.wanting_at(pool),
            self.masks.excluding_at(pool),
            &mut self.lens,
            pools,
            entity,
            pool,
            steps,
        );
    }
}
