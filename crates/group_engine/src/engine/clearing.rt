//! A pool is emptied.

ghost use Rattle.std.specs.Prelude.{◌≡◌, ◌+◌, ◌*◌, ◌<◌, ◌≤◌, [], length, set};
ghost use Rattle.world_model.specs.Groups.{packed_at};
ghost use Rattle.group_engine.specs.Grouped.{packed_of, cores_of, naming_cost, moves, AreGrouped, AreStill};

use super::GroupEngine;
use crate::clearing;
use sparse_set::Steps;
use std::sync::ledger::Ledger;
use storage::Storage;

impl GroupEngine {
    /// Prepares the groups for one of the pools that is emptied next: those that own or observe it become
    /// empty at once, and those that exclude it are entered by its identifiers that match without it. Until
    /// then the pool may be put into any order. No pool's map, room or bound changes, and a pool's packed
    /// list only where a group that names the emptied one owns it. For each identifier of the pool at most
    /// as many steps as the groups that name the pool own pools; where none does, the call ends at once.
    /// The pool is one of those handed in. No memory. (EnTT: what a group connects to `on_destroy` of the
    /// pools that it names, which `storage.clear()` publishes for each entity.)
    pub fn before_clear<T: Copy, G: Ledger>(
        &mut self,
        pools: &mut [Storage<T>],
        pool: u32,
        steps: &mut Steps<G>,
    )
        requires declared { pool < length pools.old }
        requires grouped { AreGrouped self.old.decls self.old.lens (packed_of pools.old) }
        ensures grouped { AreGrouped self.new.decls self.new.lens (set (packed_of pools.new) pool []) }
        ensures decls { self.new.decls ≡ self.old.decls }
        ensures pools { self.new.pools ≡ self.old.pools }
        ensures cores { cores_of pools.new ≡ cores_of pools.old }
        ensures still { AreStill (moves self.old.decls pool) (packed_of pools.old) (packed_of pools.new) }
        ensures steps { steps.new ≤ steps.old
            + length (packed_at (packed_of pools.old) pool) * naming_cost self.old.decls pool }
    {
        if !self.names(pool) {
            return;
        }
        clearing::before_clear(
            self.family.as_slice(),
            &self.order,
            &mut self.lens,
            pools,
            pool,
            steps,
        );
    }
}
