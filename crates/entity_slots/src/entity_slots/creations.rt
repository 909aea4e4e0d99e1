//! The calls that make identifiers, and that make room for them.

ghost use Rattle.std.specs.Prelude.{◌≡◌, ◌≢◌, ◌+◌, ◌<◌, ◌≤◌, ◌↔◌, ◌&&◌, [], length, max, not, is_ok, false, IsTrue, IsOk, IfOk, OnOk, OnErr};
ghost use Rattle.entity_slots.specs.SlotLists.{AreLawful, Becomes, are_full, created, is_plain, created_by};

use super::EntitySlots;
use crate::hint::{append_past, is_plain_hint};
use crate::refused::{CreateRefused, Full};
use entity_id::{Entity, OutOfMemory};

impl EntitySlots {
    /// Makes an identifier: the index that was released last with its next version, or a new index
    /// with version 0 where none is free. `Full` exactly where none is free and the slots are as
    /// many as may be. `OutOfMemory` only where none is free and nothing is spare. After a refusal
    /// the lists are as before. Room that was made stays, but for what a new slot takes of it. Takes
    /// memory for a new slot alone. (EnTT: `registry.create()`.)
    pub fn create(&mut self) -> Result<Entity, CreateRefused>
        ensures entity { IfOk result (λ entity. entity ≡ (created self.old).entity) }
        ensures lists { OnOk result (Becomes self.old self.new
            (created self.old).slots (created self.old).free) }
        ensures full { (result ≡ Err CreateRefused.Full) ↔ IsTrue (are_full self.old) }
        ensures room { OnOk result (are_full self.old ≡ false) }
        ensures reuse { OnErr result (self.old.free ≡ []) }
        ensures reserved { 0 < self.old.spare → result ≢ Err CreateRefused.OutOfMemory }
        ensures spare { self.old.spare + length self.old.slots ≤
            self.new.spare + length self.new.slots }
        ensures err { OnErr result (Becomes self.old self.new self.old.slots self.old.free) }
        ensures lawful { AreLawful self.new }
    {
        self.make_room()?;
        Ok(self.create_reserved()?)
    }

    // Makes room for one slot more, where a creation needs one.
    fn make_room(&mut self) -> Result<(), OutOfMemory>
        ensures ok { OnOk result (self.new.free ≡ [] → length self.new.slots < self.new.limit
            → 0 < self.new.spare) }
        ensures lists { Becomes self.old self.new self.old.slots self.old.free }
        ensures spare { self.old.spare ≤ self.new.spare }
        ensures full { OnErr result (are_full self.old ≡ false) }
        ensures reuse { OnErr result (self.old.free ≡ []) }
        ensures reserved { 0 < self.old.spare → IsOk result }
        ensures lawful { AreLawful self.new }
    {
        if self.identifiers.none_free() && self.identifiers.len() < self.limit {
            self.reserve(1)?;
        }
        Ok(())
    }

    /// Makes an identifier as [`EntitySlots::create`] does, where that needs no new slot, or there
    /// is room for one. Spare falls by 1 exactly where a slot is new. `Full` exactly where no index
    /// is free and the slots are as many as may be, and then all is as before. No memory. (This
    /// project's own; EnTT reserves by `registry.reserve(n)`, and has no call that must not grow.)
    pub fn create_reserved(&mut self) -> Result<Entity, Full>
        requires { self.old.free ≡ [] → length self.old.slots < self.old.limit
            → 0 < self.old.spare }
        ensures entity { IfOk result (λ entity. entity ≡ (created self.old).entity) }
        ensures lists { OnOk result (Becomes self.old self.new
            (created self.old).slots (created self.old).free) }
        ensures spare { OnOk result (self.new.spare + length self.new.slots ≡
            self.old.spare + length self.old.slots) }
        ensures full { is_ok result ≡ not (are_full self.old) }
        ensures err { OnErr result (self.new ≡ self.old) }
        ensures lawful { AreLawful self.new }
    {
        if let Some(entity) = self.identifiers.reuse() {
            self.live += 1;
            return Ok(entity);
        }
        if self.identifiers.len() >= self.limit {
            return Err(Full);
        }
        self.spare -= 1;
        self.live += 1;
        Ok(self.identifiers.append(0))
    }

    /// Makes the identifier that is hinted at, where its index is below the slot limit and not live,
    /// and its version is below the version limit; else as [`EntitySlots::create`], and refused
    /// as that. A free index leaves the free list. An index past the last slot makes the
    /// indices before it free, with version 0, and the greatest is reused first. A hint that is taken
    /// is answered by `OutOfMemory` only where its index is past the slots and those that are spare.
    /// After a refusal the lists are as before. Room that was made stays, but for what new slots take
    /// of it. Takes memory for new slots alone. (EnTT: `registry.create(hint)`.)
    pub fn create_hint(&mut self, hint: Entity) -> Result<Entity, CreateRefused>
        ensures entity { IfOk result (λ entity. entity ≡ (created_by self.old hint).entity) }
        ensures lists { OnOk result (Becomes self.old self.new
            (created_by self.old hint).slots (created_by self.old hint).free) }
        ensures full { (result ≡ Err CreateRefused.Full) ↔
            IsTrue (is_plain self.old hint && are_full self.old) }
        ensures room { OnOk result ((is_plain self.old hint && are_full self.old) ≡ false) }
        ensures reuse { IsTrue (is_plain self.old hint) → OnErr result (self.old.free ≡ []) }
        ensures reserved { IsTrue (is_plain self.old hint) → 0 < self.old.spare
            → result ≢ Err CreateRefused.OutOfMemory }
        ensures taken { is_plain self.old hint ≡ false
            → hint.index < length self.old.slots + self.old.spare → IsOk result }
        ensures spare { self.old.spare + length self.old.slots ≤
            self.new.spare + length self.new.slots }
        ensures err { OnErr result (Becomes self.old self.new self.old.slots self.old.free) }
        ensures lawful { AreLawful self.new }
    {
        if is_plain_hint(self.profile, self.limit, &self.identifiers, hint) {
            return self.create();
        }
        if hint.index < self.identifiers.len() {
            self.identifiers.take_out(hint);
            self.live += 1;
            return Ok(hint);
        }
        let made = append_past(&mut self.identifiers, hint)?;
        self.spare = self.spare.saturating_sub(made);
        self.live += 1;
        Ok(hint)
    }

    /// Makes room for at least `n` slots more, and for no fewer than before. `OutOfMemory` where
    /// there is no memory for them, never where as many are spare, and then all is as before. Takes
    /// memory. (EnTT: `registry.reserve(n)`, which counts all entities.)
    pub fn reserve(&mut self, n: u32) -> Result<(), OutOfMemory>
        ensures lists { Becomes self.old self.new self.old.slots self.old.free }
        ensures spare { OnOk result (self.new.spare ≡ max self.old.spare n) }
        ensures ready { n ≤ self.old.spare → IsOk result }
        ensures err { OnErr result (self.new ≡ self.old) }
        ensures lawful { AreLawful self.new }
    {
        let spare = self.spare.max(n);
        self.identifiers.reserve(spare as usize)?;
        self.spare = spare;
        Ok(())
    }
}
