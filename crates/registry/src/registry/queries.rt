//! What changes nothing.

ghost use Rattle.std.specs.Prelude.{◌≡◌, ◌≢◌, Some, Err, ◌<◌, ◌≤◌, length, OnOk, IfOk, IfErr, IfSome, IsSome};
ghost use Rattle.std.specs.Option.{IfNone};
ghost use Rattle.world_model.specs.declared.command.Command.TheVariants.{Get, AllOf, AnyOf, Orphan, Alive, Size, View};
ghost use Rattle.world_model.specs.declared.command.Reply.TheVariants.{Listed, Number, Refused, Truth, Values};
ghost use Rattle.world_model.specs.declared.refusal.Refusal.{Refusal};
ghost use Rattle.world_model.specs.Groups.{packed_at};
ghost use Rattle.registry.specs.Held.{reply_to, refusal_to};

use super::Registry;
use crate::parts::{queries, viewing};
use entity_id::{Entities, Entity, Pools};
use signal_sink::Listener;
use world_model::{Refusal, Row};

impl<L: Listener> Registry<L> {
    /// The row of an identifier. `NoPool`, then `Dead`, then `Absent`, exactly where the pool is not
    /// declared, the identifier is not live, and it is not in the pool. No memory. (EnTT:
    /// `registry.get<T>(entity)`, which asks that it is there.)
    pub fn get(&self, entity: Entity, pool: u32) -> Result<Row, Refusal>
        ensures ok { IfOk result (λ row. reply_to self.now (Get entity pool) ≡ Values row) }
        ensures err { IfErr result (λ refused.
            reply_to self.now (Get entity pool) ≡ Refused refused) }
    {
        queries::get(&self.parts, entity, pool)
    }

    /// The row of an identifier: `None` exactly where [`Registry::get`] is refused. No memory. (EnTT:
    /// `registry.try_get<T>(entity)`.)
    pub fn try_get(&self, entity: Entity, pool: u32) -> Option<Row>
        ensures found { IfSome result (λ row. reply_to self.now (Get entity pool) ≡ Values row) }
        ensures none { IfNone result (IsSome (refusal_to self.now (Get entity pool))) }
    {
        self.get(entity, pool).ok()
    }

    /// Whether an entity is in each of these pools; in all of no pools it is. `NoPool`, then `Dead`,
    /// exactly where one of the pools is not declared, and where the identifier is not live. No
    /// memory. (EnTT: `registry.all_of<..>(entity)`.)
    pub fn all_of(&self, entity: Entity, pools: &Pools) -> Result<bool, Refusal>
        ensures ok { IfOk result (λ answer.
            reply_to self.now (AllOf entity pools.now) ≡ Truth answer) }
        ensures err { IfErr result (λ refused.
            reply_to self.now (AllOf entity pools.now) ≡ Refused refused) }
    {
        queries::all_of(&self.parts, entity, pools)
    }

    /// Whether an entity is in one of these pools; in one of no pools it isn't. `NoPool`, then
    /// `Dead`, exactly where one of the pools is not declared, and where the identifier is not live.
    /// No memory. (EnTT: `registry.any_of<..>(entity)`.)
    pub fn any_of(&self, entity: Entity, pools: &Pools) -> Result<bool, Refusal>
        ensures ok { IfOk result (λ answer.
            reply_to self.now (AnyOf entity pools.now) ≡ Truth answer) }
        ensures err { IfErr result (λ refused.
            reply_to self.now (AnyOf entity pools.now) ≡ Refused refused) }
    {
        queries::any_of(&self.parts, entity, pools)
    }

    /// Whether an entity is in no pool. `Dead` exactly where it is not live. No memory. (EnTT:
    /// `registry.orphan(entity)`.)
    pub fn orphan(&self, entity: Entity) -> Result<bool, Refusal>
        ensures ok { IfOk result (λ answer. reply_to self.now (Orphan entity) ≡ Truth answer) }
        ensures err { IfErr result (λ refused.
            reply_to self.now (Orphan entity) ≡ Refused refused) }
    {
        queries::orphan(&self.parts, entity)
    }

    /// The entities that are in all of some pools, one or more, and in none of some others, in
    /// ascending index. It walks the smallest of the pools that they are in. `NoPool` exactly where
    /// one of the pools is not declared, and `OutOfMemory`. Takes memory. (EnTT:
    /// `registry.view<..>(entt::exclude<..>)`, which walks in packed order and takes no memory.)
    pub fn view(&self, all: &Pools, without: &Pools) -> Result<Entities, Refusal>
        requires { 0 < length all.now }
        ensures ok { IfOk result (λ list.
            reply_to self.now (View all.now without.now) ≡ Listed list) }
        ensures cause { IfErr result (λ refused. refused ≢ Refusal.OutOfMemory →
            refusal_to self.now (View all.now without.now) ≡ Some refused) }
        ensures refused { (cause : Refusal) →
            refusal_to self.now (View all.now without.now) ≡ Some cause → result ≡ Err cause }
    {
        viewing::view(&self.parts, all, without)
    }

    /// The identifiers of a pool in packed order: each call says where its own changes leave them
    /// (`specs/Packing.antt`). `NoPool` exactly where the pool is not declared. No memory. (EnTT:
    /// `storage.data()`.)
    pub fn entities(&self, pool: u32) -> Result<&[Entity], Refusal>
        ensures ok { IfOk result (λ list. list.now ≡ packed_at self.now.packed pool) }
        ensures declared { OnOk result (pool < length self.now.world.decls) }
        ensures err { IfErr result (λ refused.
            (refused ≡ Refusal.NoPool) × (length self.now.world.decls ≤ pool)) }
    {
        queries::entities(&self.parts, pool)
    }

    /// How many entities there are. No memory. (EnTT: `registry.alive()`.)
    pub fn alive(&self) -> u32
        ensures { reply_to self.now Alive ≡ Number result }
    {
        self.parts.slots.alive()
    }

    /// How many slots there are. No memory. (EnTT: `registry.size()`.)
    pub fn size(&self) -> u32
        ensures { reply_to self.now Size ≡ Number result }
    {
        self.parts.slots.len()
    }
}
