//! A group added, and filled.

ghost use Rattle.std.specs.Prelude.{◌≡◌, ◌≢◌, ◌+◌, ◌*◌, ◌≤◌, length, slice_index_or, Some, None, Err, IsTrue, is_some, IfOk, IfErr, OnOk, OnErr};
ghost use Rattle.world_model.specs.declared.refusal.Refusal.{Refusal};
ghost use Rattle.world_model.specs.Groups.{has_pool, packed_at, AreLawfulGroups};
ghost use Rattle.group_rules.specs.Families.{same_in, number_of, groups_with};
ghost use Rattle.group_engine.specs.Grouped.{packed_of, cores_of, AreGrouped, AreStill};
ghost use Rattle.group_engine.specs.Engine.{build_refusal};

use super::GroupEngine;
use crate::building::add_group;
use entity_id::OutOfMemory;
use group_rules::check;
use sparse_set::Steps;
use std::sync::ledger::Ledger;
use storage::Storage;
use world_model::{GroupDecl, Refusal};

impl GroupEngine {
    /// The number of the group with the same lists, in any order, if one stands. `NoPool`, `BadDecl`,
    /// `Conflict` and `TooMany` exactly where [`GroupEngine::build`] answers them. No memory. (EnTT:
    /// `registry.group_if_exists`, which refuses nothing.)
    pub fn find(&self, decl: &GroupDecl) -> Result<Option<u32>, Refusal>
        ensures ok { IfOk result (λ group. group ≡ same_in self.now.decls decl.now) }
        ensures accepted { OnOk result (build_refusal self.now decl.now ≡ None) }
        ensures refused { IfErr result (λ cause. build_refusal self.now decl.now ≡ Some cause) }
    {
        check(decl, self.pools)?;
        Ok(self.family.find(decl)?)
    }

    /// Adds a group and brings its members to the front of its owned pools, and answers its number: that
    /// of the group with the same lists, in any order, where one stands, and then nothing changes; else
    /// the next. `NoPool` exactly where it names a pool that isn't there; else `BadDecl` exactly where it
    /// owns no pool, names one twice or names more than 8; else `Conflict` exactly where no such group
    /// stands and one conflicts with it, with the least; else `TooMany` exactly where 32 stand; else
    /// `OutOfMemory`, for a new group. No pool's map, room or bound changes, only the pools that it owns
    /// come into another order, and after a refusal nothing changes. At most as many steps as the first
    /// owned pool has members in its owned pools. Takes memory.
    /// (EnTT: `registry.group<Owned...>(entt::get<Observed...>, entt::exclude<Excluded...>)`.)
    pub fn build<T: Copy, G: Ledger>(
        &mut self,
        decl: GroupDecl,
        pools: &mut [Storage<T>],
        steps: &mut Steps<G>,
    ) -> Result<u32, Refusal>
        requires pools { length pools.old ≡ self.old.pools }
        requires grouped { AreGrouped self.old.decls self.old.lens (packed_of pools.old) }
        ensures ok { IfOk result (λ group. group ≡ number_of self.old.decls decl) }
        ensures decls { OnOk result (self.new.decls ≡ groups_with self.old.decls decl) }
        ensures cause { IfErr result (λ refused. refused ≢ Refusal.OutOfMemory →
            build_refusal self.old decl ≡ Some refused) }
        ensures refused { (cause : Refusal) →
            build_refusal self.old decl ≡ Some cause → result ≡ Err cause }
        ensures memory { result ≡ Err Refusal.OutOfMemory → same_in self.old.decls decl ≡ None }
        ensures found { IsTrue (is_some (same_in self.old.decls decl)) →
            (self.new ≡ self.old) × (pools.new ≡ pools.old) }
        ensures err { OnErr result (self.new ≡ self.old) }
        ensures pools_err { OnErr result (pools.new ≡ pools.old) }
        ensures grouped { AreGrouped self.new.decls self.new.lens (packed_of pools.new) }
        ensures lawful { AreLawfulGroups self.new.pools self.new.decls }
        ensures pools { self.new.pools ≡ self.old.pools }
        ensures still { AreStill (has_pool decl.own) (packed_of pools.old) (packed_of pools.new) }
        ensures cores { cores_of pools.new ≡ cores_of pools.old }
        ensures steps { steps.new ≤ steps.old
            + length (packed_at (packed_of pools.old) (slice_index_or decl.own 0 0)) * length decl.own }
    {
        if let Some(group) = self.find(&decl)? {
            return Ok(group);
        }
        match add_group(
            &mut self.family,
            &mut self.order,
            &mut self.lens,
            &mut self.masks,
            decl,
            pools,
            steps,
        ) {
            Ok(number) => Ok(number),
            Err(OutOfMemory) => Err(Refusal::OutOfMemory),
        }
    }
}
