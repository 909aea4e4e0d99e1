//! The slots, and the calls on them.

ghost use Rattle.std.specs.Prelude.{◌≡◌, ◌<◌, ◌≤◌, [], ◌∷◌, length, count_by, slice_get, IsTrue, is_ok, IfOk, OnOk, OnErr};
ghost use Rattle.entity_id.specs.Identifiers.{is_profile};
ghost use Rattle.world_model.specs.Slots.{AreLawfulSlots, is_live, slots_after_destroy};
ghost use Rattle.entity_slots.specs.SlotLists.{slot_lists, AreLawful, Becomes};

mod creations;

use super::Dead;
use crate::identifiers::Identifiers;
use crate::loading::thread;
use entity_id::{Entity, OutOfMemory, Profile, next_version};
use std::alloc::Global;
use std::marker::Model;
use world_model::{FreeList, Slot};

/// The slots of a registry: which identifiers are live, and which index and version the next one
/// gets. A contract sees them as `SlotLists` (`specs/SlotLists.antt`).
#[derive(Debug, Drop)]
pub struct EntitySlots {
    profile: Profile,
    limit: u32,
    // Their null index is the profile's.
    identifiers: Identifiers,
    // How many identifiers are live.
    live: u32,
    // How many identifiers more there is room for.
    spare: u32,
}

impl Model for EntitySlots {
    ghost use Rattle.entity_slots.specs.SlotLists.{SlotLists};
    ghost use Rattle.entity_slots.specs.Threading.{lists_of, IsKept};

    ghost Value = { SlotLists };

    ghost view = { lists_of };

    ghost invariant = { IsKept };
}

impl EntitySlots {
    /// No slots, of which there will be at most `slot_limit`. No memory. (EnTT: an empty
    /// `entt::registry`, whose own limit is the index limit.)
    pub fn new(alloc: Global, profile: Profile, slot_limit: u32) -> EntitySlots
        requires profile { IsTrue (is_profile profile) }
        requires addressable { slot_limit ≤ profile.index_limit }
        ensures { result ≡ slot_lists profile slot_limit [] [] }
    {
        EntitySlots {
            profile,
            limit: slot_limit,
            identifiers: Identifiers::new(alloc, profile.index_limit),
            live: 0,
            spare: 0,
        }
    }

    /// These slots, and the free indices, the next to be reused first. `OutOfMemory` where there is
    /// no memory for them. (EnTT: `registry.assign(first, last, destroyed)`.)
    pub fn load(
        alloc: Global,
        profile: Profile,
        slot_limit: u32,
        slots: &[Slot],
        free: &[u32],
    ) -> Result<EntitySlots, OutOfMemory>
        requires profile { IsTrue (is_profile profile) }
        requires lawful { AreLawfulSlots profile slot_limit slots.now free.now }
        ensures { IfOk result (λ made. made ≡ slot_lists profile slot_limit slots.now free.now) }
    {
        let identifiers = thread(alloc, profile.index_limit, slots, free)?;
        Ok(EntitySlots {
            profile,
            limit: slot_limit,
            identifiers,
            live: (slots.len() - free.len()) as u32,
            spare: 0,
        })
    }

    /// Ends a live identifier: its slot is free, with the next version, and its index is reused
    /// next. `Dead` exactly where it is not live, and then all is as before. No memory. (EnTT:
    /// `registry.release(entity)`, which asks that it is live.)
    pub fn destroy(&mut self, entity: Entity) -> Result<(), Dead>
        ensures live { is_ok result ≡ is_live self.old.slots entity }
        ensures lists { OnOk result (Becomes self.old self.new
            (slots_after_destroy self.old.profile self.old.slots entity)
            (entity.index ∷ self.old.free)) }
        ensures spare { self.new.spare ≡ self.old.spare }
        ensures err { OnErr result (self.new ≡ self.old) }
        ensures lawful { AreLawful self.new }
    {
        if !self.identifiers.is_live(entity) {
            return Err(Dead);
        }
        let version = next_version(self.profile, entity.version);
        self.identifiers.release(entity.index, version);
        self.live -= 1;
        Ok(())
    }

    /// Whether an identifier is live. No memory. (EnTT: `registry.valid(entity)`.)
    pub fn valid(&self, entity: Entity) -> bool
        ensures { result ≡ is_live self.now.slots entity }
    {
        self.identifiers.is_live(entity)
    }

    /// How many identifiers are live. No memory. (EnTT: `registry.alive()`.)
    pub fn alive(&self) -> u32
        ensures { result ≡ count_by (λ slot. slot.live) self.now.slots }
    {
        self.live
    }

    /// How many slots there are. No memory. (EnTT: `registry.size()`.)
    pub fn len(&self) -> u32
        ensures len { result ≡ length self.now.slots }
        ensures free { length self.now.free ≤ length self.now.slots }
        ensures lawful { AreLawful self.now }
    {
        self.identifiers.len()
    }

    /// The slot of an index below [`EntitySlots::len`]. No memory. (EnTT: its version is
    /// `registry.current(entity)`.)
    pub fn slot(&self, index: u32) -> Slot
        requires { index < length self.now.slots }
        ensures { slice_get self.now.slots index ≡ Some result }
    {
        self.identifiers.slot(index)
    }

    /// The free index at a place, counted from 0 at the one that is reused next. None exactly past
    /// the last. It walks there, index by index: [`EntitySlots::free_list`] gives all of them in
    /// one walk. No memory. (EnTT: place 0 is the index of `registry.released()`.)
    pub fn free_at(&self, place: u32) -> Option<u32>
        ensures { result ≡ slice_get self.now.free place }
    {
        self.identifiers.free_at(place)
    }

    /// All free indices, the one that is reused next first, in one walk. `OutOfMemory` where there
    /// is no memory for them. (EnTT: the walk from `registry.released()` on, by which its snapshot
    /// saves them.)
    pub fn free_list(&self) -> Result<FreeList, OutOfMemory>
        ensures { IfOk result (λ list. list ≡ self.now.free) }
    {
        Ok(FreeList::from_vec(self.identifiers.free_list()?))
    }
}
