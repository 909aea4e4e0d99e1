//! One list of identifiers, by index, with the list of the free ones threaded through it.

ghost use Rattle.std.specs.Prelude.{◌≡◌, ℕ, ◌+◌, ◌^◌, ◌<◌, ◌≤◌, ◌↔◌, [], length, Some, IsTrue, IsOk, OnOk, slice_get};
ghost use Rattle.world_model.specs.Slots.{is_live, is_live_at};
ghost use Rattle.entity_slots.specs.Threads.{Threaded, AreListed};

mod changes;
mod walks;

use entity_id::{Entity, OutOfMemory};
use std::alloc::Global;
use std::marker::Model;
use world_model::Slot;

// The identifiers. A live one stands under its own index; a free one has the index of the next free
// one, and the last of them the null index, each beside the version that its next owner gets.
// (EnTT: the array of entities, with its implicit list of those to be recycled.)
#[derive(Debug, Drop)]
pub struct Identifiers {
    list: Vec<Entity>,
    // The free index that is reused next, or the null index.
    top: u32,
    // No identifier stands under it.
    null: u32,
}

impl Model for Identifiers {
    ghost use Rattle.entity_slots.specs.Threads.{Threaded, threaded_of, IsThreaded};

    ghost Value = { Threaded };

    ghost view = { threaded_of };

    ghost invariant = { IsThreaded };
}

impl Identifiers {
    pub fn new(alloc: Global, null: u32) -> Identifiers
        ensures slots { result.slots ≡ [] }
        ensures free { result.free ≡ [] }
        ensures null { result.null ≡ null }
    {
        Identifiers {
            list: Vec::new(alloc),
            top: null,
            null,
        }
    }

    pub fn len(&self) -> u32
        ensures len { result ≡ length self.now.slots }
        ensures few { length self.now.slots ≤ self.now.null }
        ensures small { self.now.null < 2 ^ 32 }
    {
        self.list.len() as u32
    }

    pub fn slot(&self, index: u32) -> Slot
        requires { index < length self.now.slots }
        ensures { slice_get self.now.slots index ≡ Some result }
    {
        let entity = self.list[index as usize];
        Slot {
            version: entity.version,
            live: entity.index == index,
        }
    }

    // Whether an identifier is live: only then does it stand under its own index.
    pub fn is_live(&self, entity: Entity) -> bool
        ensures { result ≡ is_live self.now.slots entity }
    {
        match self.list.get(entity.index as usize) {
            Some(found) => *found == entity,
            None => false,
        }
    }

    // Whether an index is live, with any version.
    pub fn is_live_at(&self, index: u32) -> bool
        ensures { result ≡ is_live_at self.now.slots index }
    {
        match self.list.get(index as usize) {
            Some(found) => found.index == index,
            None => false,
        }
    }

    // Whether no index is free.
    pub fn none_free(&self) -> bool
        ensures { IsTrue result ↔ (self.now.free ≡ []) }
    {
        self.top == self.null
    }

    // Makes room for at least so many identifiers more.
    pub fn reserve(&mut self, n: usize) -> Result<(), OutOfMemory>
        ensures slots { self.new.slots ≡ self.old.slots }
        ensures free { self.new.free ≡ self.old.free }
        ensures null { self.new.null ≡ self.old.null }
        ensures ok { OnOk result (length self.old.slots + n ≤ self.new.room) }
        ensures ready { length self.old.slots + n ≤ self.old.room → IsOk result }
        ensures kept { self.old.room ≤ self.new.room }
    {
        self.list.reserve(n)?;
        Ok(())
    }
}
