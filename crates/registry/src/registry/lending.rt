//! Pools lent and taken back.

ghost use Rattle.std.specs.Prelude.{◌≡◌, List, IfSome};
ghost use Rattle.storage.specs.Stored.{Stored};
ghost use Rattle.world_model.specs.declared.component.Row.{Row as Fields};
ghost use Rattle.world_model.specs.Slots.{is_live};
ghost use Rattle.registry.specs.Lending.{refilled, shapes_of, prefix_in, IsLent, MayComeBack, BeginsWithMembers};
ghost use Rattle.registry.specs.Layout.{maps_of};

use super::Registry;
use crate::parts::{Parts, lending, prefixes};
use entity_id::Entity;
use signal_sink::Listener;
use std::marker::Model;
use storage::Storage;
use world_model::{Access, Row};

/// A registry whose pools are lent: its entities, its groups and its listeners. It is the registry again
/// once the pools are put back, with the rows that they have then. (This project's own: EnTT's organizer
/// hands each system the whole registry.)
#[derive(Drop)]
pub struct Shell<L: Listener> {
    parts: Parts<L>,
}

impl<L: Listener> Model for Shell<L> {
    ghost use Rattle.registry.specs.Emptying.{emptied_of, IsShell};
    ghost use Rattle.registry.specs.Lending.{Emptied};

    ghost Value = { Emptied };

    ghost view = { λ a. emptied_of a.parts };

    ghost invariant = { λ a. IsShell a.parts };
}

impl<L: Listener> Registry<L> {
    /// Hands the pools out, by number. No memory. (This project's own.)
    pub fn lend(self) -> (Vec<Storage<Row>>, Shell<L>)
        ensures lent { IsLent result.1 result.0.items }
        ensures same { refilled result.1 result.0.items ≡ self }
    {
        let Registry { mut parts } = self;
        let pools = lending::take_pools(&mut parts);
        (pools, Shell { parts })
    }
}

impl<L: Listener> Shell<L> {
    /// Takes the pools back, each in its place, with the identifiers in their places and the room that it
    /// was lent with, and rows that fit. Nothing but rows has changed then: entities, packed lists, groups,
    /// listeners and all room are as they were. No memory. (This project's own.)
    pub fn restore(self, pools: Vec<Storage<Row>>) -> Registry<L>
        requires { MayComeBack self pools.items }
        ensures registry { result ≡ refilled self pools.items }
        ensures rows { (lent : List (Stored Fields)) → shapes_of pools.items ≡ shapes_of lent →
            let old = refilled self lent in
            result ≡ record old { world = record old.world { pools = maps_of pools.items } } }
    {
        let Shell { mut parts } = self;
        lending::put_pools(&mut parts, pools);
        Registry { parts }
    }

    /// Whether an identifier is live. No memory. (EnTT: `registry.valid(entity)`.)
    pub fn valid(&self, entity: Entity) -> bool
        ensures { result ≡ is_live self.now.rest.world.slots entity }
    {
        self.parts.slots.valid(entity)
    }

    /// The first pool that a group owns and how many members the group has, for the least group whose
    /// members are a system's entities: it owns or observes the pools that the system reads or writes, and
    /// excludes those that it excludes. `None` exactly where there is none. The pools are those that were
    /// lent; so many first identifiers of the pool are the system's entities then, and stay so while
    /// nothing but rows changes. Each pool is looked at once. No memory. (EnTT: `group.data()`, as long as
    /// `group.size()`.)
    pub fn prefix_for(&self, pools: &[Storage<Row>], access: &Access) -> Option<(u32, u32)>
        requires { IsLent self.now pools.now }
        ensures least { result ≡ prefix_in self.now access.now }
        ensures begins { IfSome result (λ prefix.
            BeginsWithMembers access.now pools.now prefix.0 prefix.1) }
    {
        prefixes::prefix_for(&self.parts, pools, access)
    }
}
