//! Registries made, and entities made and destroyed.

ghost use Rattle.std.specs.Prelude.{◌≡◌, ◌≢◌, ◌+◌, ◌≤◌, [], vec_len, Some, Err, IsTrue, IfOk, IfErr, OnOk, OnErr};
ghost use Rattle.std.specs.List.{AllByRecursion};
ghost use Rattle.entity_id.specs.Identifiers.{is_profile};
ghost use Rattle.world_model.specs.declared.command.Command.TheVariants.{Create, Hint, Destroy, Valid};
ghost use Rattle.world_model.specs.declared.command.Reply.TheVariants.{Done, Made, Refused, Truth};
ghost use Rattle.world_model.specs.declared.refusal.Refusal.{Refusal};
ghost use Rattle.world_model.specs.Components.{IsDecl};
ghost use Rattle.world_model.specs.Contents.{keys_of};
ghost use Rattle.world_model.specs.Worlds.{IsLawful, component_limit, empty_world};
ghost use Rattle.group_engine.specs.Grouped.{AreStill};
ghost use Rattle.registry.specs.Costs.{destroy_steps};
ghost use Rattle.registry.specs.Held.{unheard, Does, AsBefore, reply_to, refusal_to};
ghost use Rattle.registry.specs.Packing.{is_owned, Repacks};
ghost use Rattle.registry.specs.Running.{hint_needs_slot};

use super::Registry;
use crate::parts::{creation, leaving, loading, making, saving};
use entity_id::{Entity, OutOfMemory, Profile};
use signal_sink::Listener;
use sparse_set::Steps;
use std::alloc::Global;
use std::sync::ledger::Ledger;
use world_model::{Decl, DeclList, Refusal, World};

impl<L: Listener> Registry<L> {
    /// A registry of these components, with no entity and with no listener, which keeps the
    /// allocator: there will be at most `slot_limit` slots. The profile is one of the two, `P20_12`
    /// and `P32_32`, and the slot limit is at most its index limit. There are at most 64 components,
    /// each of at most 4 fields, with `Int` for the kinds past them. `OutOfMemory` where there is no
    /// memory for its pools. (EnTT: the constructor, and `registry.storage<T>()` for each component.)
    pub fn new(
        alloc: Global,
        profile: Profile,
        slot_limit: u32,
        decls: Vec<Decl>,
    ) -> Result<Registry<L>, OutOfMemory>
        requires profile { IsTrue (is_profile profile) }
        requires addressable { slot_limit ≤ profile.index_limit }
        requires few { vec_len decls ≤ component_limit }
        requires decls { AllByRecursion IsDecl decls.items }
        ensures { IfOk result (λ registry.
            registry ≡ unheard slot_limit (empty_world profile decls.items)
            (keys_of (empty_world profile decls.items))) }
    {
        let parts = making::new(alloc, profile, slot_limit, DeclList::from_vec(decls))?;
        Ok(Registry { parts })
    }

    /// A registry of a lawful world, within the slot limit: its components, entities, rows and groups,
    /// and no listener. A pool that no group owns is packed in ascending index; in one that groups own
    /// their members stand first ([`Registry::law`]). It keeps the allocator, and not the world's tick.
    /// `OutOfMemory` where there is no memory for them. (EnTT: `entt::snapshot_loader`, whose registry
    /// has to be empty, and `registry.group` for each group.)
    pub fn load(alloc: Global, world: &World, slot_limit: u32) -> Result<Registry<L>, OutOfMemory>
        requires { IsLawful slot_limit world.now }
        ensures world { IfOk result (λ registry.
            registry ≡ unheard slot_limit (record world.now { tick = 0 }) registry.packed) }
        ensures still { IfOk result (λ registry.
            AreStill (is_owned world.now.groups) (keys_of world.now) registry.packed) }
    {
        let parts = loading::load(alloc, world, slot_limit)?;
        Ok(Registry { parts })
    }

    /// The world that it stands for, with its groups, at a tick, rows in ascending index. The world is
    /// a lawful one within the slot limit, so [`Registry::load`] takes it. `OutOfMemory` where there is
    /// no memory for it. (EnTT: `entt::snapshot`.)
    pub fn save(&self, tick: u64) -> Result<World, OutOfMemory>
        ensures world { IfOk result (λ world. world ≡ record self.now.world { tick = tick }) }
        ensures lawful { IfOk result (λ world. IsLawful self.now.limit world) }
    {
        saving::save(&self.parts, tick)
    }

    /// Makes an identifier: the index that was released last with its next version, or a new index
    /// with version 0 where none is free. `Full` exactly where none is free and the slots are as
    /// many as may be; `OutOfMemory` only where a new slot was needed. Where an index is free it is
    /// never refused, and takes no memory. (EnTT: `registry.create()`.)
    pub fn create(&mut self) -> Result<Entity, Refusal>
        ensures ok { OnOk result (Does self.old self.new Create) }
        ensures reply { IfOk result (λ entity. reply_to self.old Create ≡ Made entity) }
        ensures err { OnErr result (AsBefore self.old self.new) }
        ensures cause { IfErr result (λ refused. refused ≢ Refusal.OutOfMemory →
            refusal_to self.old Create ≡ Some refused) }
        ensures refused { (cause : Refusal) →
            refusal_to self.old Create ≡ Some cause → result ≡ Err cause }
        ensures packed { OnOk result (Repacks self.old self.new Create) }
        ensures reuse { OnErr result (self.old.world.free ≡ []) }
    {
        creation::create(&mut self.parts)
    }

    /// Makes the identifier that is hinted at, where its index is below the slot limit and not live,
    /// and its version is below the version limit; else as [`Registry::create`], and refused as that.
    /// An index past the last slot makes the indices before it free, with version 0, and the
    /// greatest is reused first. `OutOfMemory` only where a new slot was needed; a hint at a free index
    /// is never refused. (EnTT: `registry.create(hint)`.)
    pub fn create_hint(&mut self, hint: Entity) -> Result<Entity, Refusal>
        ensures ok { OnOk result (Does self.old self.new (Hint hint)) }
        ensures reply { IfOk result (λ entity. reply_to self.old (Hint hint) ≡ Made entity) }
        ensures err { OnErr result (AsBefore self.old self.new) }
        ensures cause { IfErr result (λ refused. refused ≢ Refusal.OutOfMemory →
            refusal_to self.old (Hint hint) ≡ Some refused) }
        ensures refused { (cause : Refusal) →
            refusal_to self.old (Hint hint) ≡ Some cause → result ≡ Err cause }
        ensures packed { OnOk result (Repacks self.old self.new (Hint hint)) }
        ensures reuse { OnErr result (IsTrue (hint_needs_slot self.old hint)) }
    {
        creation::create_hint(&mut self.parts, hint)
    }

    /// Takes an entity out of every pool, the last one first, and its identifier out of use. Each
    /// listener of a pool that it leaves hears of its row's destruction once. `Dead` exactly where it
    /// is not live. At each pool that it is in, the last identifier of the packed list takes its
    /// place, unless a group owns the pool. Each group that names one of these pools keeps its members
    /// first in the pools that it owns, and may reorder these; no other packed list changes. At most
    /// one step for each pool that it is in, and one for each owned pool of each group that names
    /// that. No memory. (EnTT: `registry.destroy(entity)`.)
    pub fn destroy<G: Ledger>(
        &mut self,
        entity: Entity,
        steps: &mut Steps<G>,
    ) -> Result<(), Refusal>
        ensures does { Does self.old self.new (Destroy entity) }
        ensures ok { OnOk result (reply_to self.old (Destroy entity) ≡ Done) }
        ensures err { IfErr result (λ refused.
            reply_to self.old (Destroy entity) ≡ Refused refused) }
        ensures unchanged { OnErr result (AsBefore self.old self.new) }
        ensures packed { OnOk result (Repacks self.old self.new (Destroy entity)) }
        ensures steps { steps.new ≤ steps.old + destroy_steps self.old.world entity }
    {
        leaving::destroy(&mut self.parts, entity, steps)
    }

    /// Whether an identifier is live. No memory. (EnTT: `registry.valid(entity)`.)
    pub fn valid(&self, entity: Entity) -> bool
        ensures { reply_to self.now (Valid entity) ≡ Truth result }
    {
        self.parts.slots.valid(entity)
    }
}
