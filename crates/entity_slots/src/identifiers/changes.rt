//! What makes an identifier live or free.

ghost use Rattle.std.specs.Prelude.{◌≡◌, ℕ, ◌+◌, ◌<◌, ◌≤◌, ◌==◌, not, true, [], ◌∷◌, ◌++◌, filter, length, slice_set, IfSome, IfNone};
ghost use Rattle.world_model.specs.Slots.{free_slot, is_free_at, is_live_at, live_slot, version_at};
ghost use Rattle.entity_slots.specs.Threads.{AreListed, IsNow, IsRightBefore, IsTop};

use super::Identifiers;
use entity_id::Entity;

impl Identifiers {
    // One live identifier more, under the next new index, where there is room for it.
    pub fn append(&mut self, version: u32) -> Entity
        requires few { length self.old.slots < self.old.null }
        requires room { length self.old.slots < self.old.room }
        ensures entity { result ≡ record { index = length self.old.slots; version = version } }
        ensures now { IsNow self.old self.new
            (self.old.slots ++ live_slot version ∷ []) self.old.free }
    {
        let entity = Entity {
            index: self.list.len() as u32,
            version,
        };
        self.list.push_reserved(entity);
        entity
    }

    // One free identifier more, with version 0, which becomes the top, where there is room for it.
    pub fn append_free(&mut self)
        requires few { length self.old.slots < self.old.null }
        requires room { length self.old.slots < self.old.room }
        ensures { IsNow self.old self.new
            (self.old.slots ++ free_slot 0 ∷ []) (length self.old.slots ∷ self.old.free) }
    {
        let index = self.list.len() as u32;
        self.list.push_reserved(Entity {
            index: self.top,
            version: 0,
        });
        self.top = index;
    }

    // Makes a live index the top of the free ones, with the version that its next owner gets.
    pub fn release(&mut self, index: u32, version: u32)
        requires live { is_live_at self.old.slots index ≡ true }
        requires listed { AreListed self.old.slots self.old.free }
        ensures { IsNow self.old self.new
            (slice_set self.old.slots index (free_slot version)) (index ∷ self.old.free) }
    {
        self.list[index as usize] = Entity {
            index: self.top,
            version,
        };
        self.top = index;
    }

    // Makes the top live again, with the version that is kept for it. None where no index is free.
    pub fn reuse(&mut self) -> Option<Entity>
        requires { AreListed self.old.slots self.old.free }
        ensures free { IfSome result (λ entity. self.old.free ≡ entity.index ∷ self.new.free) }
        ensures version { IfSome result (λ entity.
            entity.version ≡ version_at self.old.slots entity.index) }
        ensures now { IfSome result (λ entity. IsNow self.old self.new
            (slice_set self.old.slots entity.index (live_slot entity.version)) self.new.free) }
        ensures none { IfNone result (self.old.free ≡ []) }
        ensures same { IfNone result (self.new ≡ self.old) }
    {
        if self.top == self.null {
            return None;
        }
        let index = self.top;
        let entity = &mut self.list[index as usize];
        self.top = entity.index;
        entity.index = index;
        Some(*entity)
    }

    // Makes a free identifier live, with a version of one's own. The others keep their order.
    pub fn take_out(&mut self, entity: Entity)
        requires free { is_free_at self.old.slots entity.index ≡ true }
        requires listed { AreListed self.old.slots self.old.free }
        ensures { IsNow self.old self.new
            (slice_set self.old.slots entity.index (live_slot entity.version))
            (filter (λ index. not (index == entity.index)) self.old.free) }
    {
        match self.index_before(entity.index) {
            Some(before) => self.take_behind(before, entity),
            None => self.take_top(entity),
        }
    }

    // Makes the top live: the next free one is the top.
    fn take_top(&mut self, entity: Entity)
        requires top { IsTop self.old.free entity.index }
        requires listed { AreListed self.old.slots self.old.free }
        ensures { IsNow self.old self.new
            (slice_set self.old.slots entity.index (live_slot entity.version))
            (filter (λ index. not (index == entity.index)) self.old.free) }
    {
        let next = self.list[entity.index as usize].index;
        self.list[entity.index as usize] = entity;
        self.top = next;
    }

    // Makes a free identifier live that isn't the top: the one before it gets the next one instead.
    fn take_behind(&mut self, before: u32, entity: Entity)
        requires before { IsRightBefore self.old.free before entity.index }
        requires listed { AreListed self.old.slots self.old.free }
        ensures { IsNow self.old self.new
            (slice_set self.old.slots entity.index (live_slot entity.version))
            (filter (λ index. not (index == entity.index)) self.old.free) }
    {
        let next = self.list[entity.index as usize].index;
        self.list[before as usize].index = next;
        self.list[entity.index as usize] = entity;
    }
}
