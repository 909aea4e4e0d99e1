//! Groups added, and walked.

ghost use Rattle.std.specs.Prelude.{◌≡◌, ◌≢◌, ◌+◌, ◌<◌, ◌≤◌, length, map, slice_get, Some, None, Err, IfOk, IfErr, OnOk, OnErr};
ghost use Rattle.world_model.specs.declared.command.Command.TheVariants.{Group};
ghost use Rattle.world_model.specs.declared.command.Reply.TheVariants.{GroupNumber};
ghost use Rattle.world_model.specs.declared.refusal.Refusal.{Refusal};
ghost use Rattle.world_model.specs.Contents.{group_where, row_at};
ghost use Rattle.world_model.specs.Groups.{is_same_group};
ghost use Rattle.registry.specs.Costs.{group_steps};
ghost use Rattle.registry.specs.Held.{Does, AsBefore, packed_members, reply_to, refusal_to, rows_refusal};
ghost use Rattle.registry.specs.Packing.{Repacks};

use super::Registry;
use crate::parts::{grouping, walking};
use entity_id::Entity;
use signal_sink::Listener;
use sparse_set::Steps;
use std::sync::ledger::Ledger;
use world_model::{GroupDecl, Refusal, Row};

impl<L: Listener> Registry<L> {
    /// Adds a group, and answers its number: that of the group with the same lists, in any order, where
    /// one stands, and then nothing changes; else the next. Its members, the entities that are in all
    /// pools that it owns or observes and in none that it excludes, come to the front of the packed
    /// lists of its owned pools, in one order, and stay there whatever is called; no other pool's
    /// packed list changes. `NoPool` exactly where it names a pool that is not declared; else `BadDecl`
    /// exactly where it owns no pool, names one twice or names more than 8; else `Conflict` exactly
    /// where no group with the same lists stands and one conflicts with it, with the least: both own a
    /// pool, and neither is nested in the other; else `TooMany` exactly where 32 stand; else
    /// `OutOfMemory`, for a new group alone. After a refusal all is as before. At most as many steps as
    /// its first owned pool has rows, in each pool that it owns. Takes memory, for a new group alone.
    /// (EnTT: `registry.group<Owned...>(entt::get<Observed...>, entt::exclude<Excluded...>)`.)
    pub fn group<G: Ledger>(
        &mut self,
        decl: GroupDecl,
        steps: &mut Steps<G>,
    ) -> Result<u32, Refusal>
        ensures ok { OnOk result (Does self.old self.new (Group decl)) }
        ensures reply { IfOk result (λ number. reply_to self.old (Group decl) ≡ GroupNumber number) }
        ensures err { OnErr result (AsBefore self.old self.new) }
        ensures cause { IfErr result (λ refused. refused ≢ Refusal.OutOfMemory →
            refusal_to self.old (Group decl) ≡ Some refused) }
        ensures refused { (cause : Refusal) →
            refusal_to self.old (Group decl) ≡ Some cause → result ≡ Err cause }
        ensures memory { result ≡ Err Refusal.OutOfMemory →
            group_where self.old.world (is_same_group decl) ≡ None }
        ensures packed { OnOk result (Repacks self.old self.new (Group decl)) }
        ensures steps { steps.new ≤ steps.old + group_steps self.old.world decl }
    {
        grouping::group(&mut self.parts, decl, steps)
    }

    /// How many groups there are, at most 32. No memory. (This project's own.)
    pub fn groups(&self) -> u32
        ensures { result ≡ length self.now.world.groups }
    {
        self.parts.groups.len()
    }

    /// The declaration of a group, by its number. `NoGroup` exactly where there is none. No memory.
    /// (EnTT: a group's type says it.)
    pub fn group_decl(&self, group: u32) -> Result<&GroupDecl, Refusal>
        ensures ok { IfOk result (λ decl. slice_get self.now.world.groups group ≡ Some decl.now) }
        ensures err { IfErr result (λ refused.
            (refused ≡ Refusal.NoGroup) × (length self.now.world.groups ≤ group)) }
    {
        walking::group_decl(&self.parts, group)
    }

    /// The members of a group in packed order, the order in which they stand first in each pool that
    /// it owns ([`Registry::law`]). `NoGroup` exactly where there is no such group. No memory. (EnTT:
    /// `group.data()`, as long as `group.size()`.)
    pub fn members(&self, group: u32) -> Result<&[Entity], Refusal>
        ensures ok { IfOk result (λ list. list.now ≡ packed_members self.now group) }
        ensures stands { OnOk result (group < length self.now.world.groups) }
        ensures err { IfErr result (λ refused.
            (refused ≡ Refusal.NoGroup) × (length self.now.world.groups ≤ group)) }
    {
        walking::members(&self.parts, group)
    }

    /// The rows of a group's members in a pool that it owns: each at the place of its member. `NoGroup`,
    /// then `NoPool`, then `BadKey`, exactly where there is no such group, the pool is not declared, and
    /// the group does not own it. No memory. (EnTT: `group.storage<T>().raw()`.)
    pub fn rows(&self, group: u32, pool: u32) -> Result<&[Row], Refusal>
        ensures ok { IfOk result (λ list. list.now ≡ map (λ entity. row_at self.now.world pool entity)
            (packed_members self.now group)) }
        ensures accepted { OnOk result (rows_refusal self.now.world group pool ≡ None) }
        ensures refused { IfErr result (λ refused.
            rows_refusal self.now.world group pool ≡ Some refused) }
    {
        walking::rows(&self.parts, group, pool)
    }
}
