//! Orders carried out.

ghost use Rattle.std.specs.Prelude.{◌≡◌, ◌<◌, length, IfOk, IfErr, OnOk};
ghost use Rattle.std.specs.List.{AllByRecursion};
ghost use Rattle.world_model.specs.Orders.{IsFitting};
ghost use Rattle.world_model.specs.declared.deferred.Needs.{Needs};
ghost use Rattle.registry.specs.Applying.{Applies, AppliesFirst};
ghost use Rattle.registry.specs.Held.{AsBefore};
ghost use Rattle.registry.specs.Rooms.{AreLeft, HasRoomFor, HasRoomForOrders};

use super::Registry;
use crate::parts::{orders, reserving};
use crate::stopped::ApplyStopped;
use entity_id::OutOfMemory;
use signal_sink::Listener;
use sparse_set::Steps;
use std::sync::ledger::Ledger;
use world_model::{Applied, Deferred, Needs};

impl<L: Listener> Registry<L> {
    /// Carries out orders one after another, and answers how many were done and how many were skipped:
    /// one whose command would be refused is skipped, and changes nothing. Each list begins with
    /// nothing spawned. Each order names a declared component and its fields, and carries what may be
    /// set there. It stops for want of memory alone, and says how many orders it carried out before.
    /// Takes memory. (This project's own; the commands are `registry.destroy`, `emplace_or_replace`,
    /// `erase`, `patch` and `create`.)
    pub fn apply<G: Ledger>(
        &mut self,
        orders: &[Deferred],
        steps: &mut Steps<G>,
    ) -> Result<Applied, ApplyStopped>
        requires { AllByRecursion
            (IsFitting self.old.world.profile self.old.world.decls) orders.now }
        ensures ok { IfOk result (λ applied. Applies self.old self.new orders.now applied) }
        ensures some { IfErr result (λ stopped. stopped.after < length orders.now) }
        ensures err { IfErr result (λ stopped.
            AppliesFirst self.old self.new orders.now stopped.after) }
    {
        orders::apply(&mut self.parts, orders, true, steps)
    }

    /// As [`Registry::apply`], where there is room for what the orders count, and then all of them are
    /// carried out. Whatever needs there is room for before, there is room afterwards for those needs
    /// less what the orders count. No memory. (This project's own.)
    pub fn apply_reserved<G: Ledger>(
        &mut self,
        orders: &[Deferred],
        steps: &mut Steps<G>,
    ) -> Applied
        requires fitting { AllByRecursion
            (IsFitting self.old.world.profile self.old.world.decls) orders.now }
        requires room { HasRoomForOrders orders.now self.old }
        ensures applied { Applies self.old self.new orders.now result }
        ensures left { (needs rest : Needs) → AreLeft needs rest orders.now →
            HasRoomFor needs self.old → HasRoomFor rest self.new }
    {
        match orders::apply(&mut self.parts, orders, false, steps) {
            Ok(applied) => applied,
            Err(_) => unreachable!(),
        }
    }

    /// Makes room for what these needs say: for so many rows added to each pool and changed in it, for
    /// what its listeners hear of them and of the removal of all that will be there, and for so many
    /// identifiers made, as far as the slot limit allows them. The needs have a number of each kind for
    /// each declared component. `OutOfMemory` where there is no memory for that, which may be also where
    /// listeners have the room, and where 2^32 rows or more are added to a pool; no room falls, after a
    /// refusal too. Takes memory. (This project's own; EnTT reserves by `registry.reserve(n)` and
    /// `storage.reserve(n)`.)
    pub fn reserve_for(&mut self, needs: &Needs) -> Result<(), OutOfMemory>
        requires adds { length needs.now.adds ≡ length self.old.world.decls }
        requires updates { length needs.now.updates ≡ length self.old.world.decls }
        ensures ok { OnOk result (HasRoomFor needs.now self.new) }
        ensures same { AsBefore self.old self.new }
        ensures room { (other : Needs) → HasRoomFor other self.old → HasRoomFor other self.new }
    {
        reserving::reserve_for(&mut self.parts, needs)
    }
}
