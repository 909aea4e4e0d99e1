//! The pools are taken out of their slots for good.

ghost use Rattle.std.specs.Prelude.{◌≡◌, ℕ, length, slice_get, slice_index_or, Some};
ghost use Rattle.storage.specs.Stored.{Stored};
ghost use Rattle.world_model.specs.declared.component.Row.{Row as Fields};
ghost use Rattle.pool_slots.specs.Tags.{IsAdmitted, turns_at};
ghost use Rattle.pool_slots.specs.Turns.{HasShapeOf, Turn, rows_of};

use super::{PoolFact, Slots, WriteTurn};
use std::sync::Wait;
use storage::Storage;
use world_model::Row;

impl<F: PoolFact> Slots<F> {
    /// Puts the pools back into a list that has one for each of them, each in its place and admitted at
    /// the version at which it is found, which the caller isn't told. It waits forever where the place of
    /// a pool was let go. No memory.
    pub fn close<R: Wait>(self, rt: &R, pools: &mut Vec<Storage<Row>>)
        requires list { length pools.old.items ≡ length self }
        ensures count { length pools.new.items ≡ length pools.old.items }
        ensures back { (pool : ℕ) (stored : Stored Fields) →
            slice_get pools.new.items pool ≡ Some stored →
            IsAdmitted F.admits self pool stored }
    {
        let _ = &self.slots;
        for pool in 0..pools.len() {
            pools[pool] = self.take_for_good(rt, pool as u32);
        }
    }

    /// Waits for each pool until it is there at its last version, and puts the pools back into a list that
    /// has one for each of them, each in its place. Each is admitted at its last version. It waits forever
    /// where that is past or never comes. No memory.
    pub fn close_at<R: Wait>(self, rt: &R, pools: &mut Vec<Storage<Row>>, lasts: &[u32])
        requires list { length pools.old.items ≡ length self }
        requires each { length lasts.now ≡ length self }
        ensures count { length pools.new.items ≡ length pools.old.items }
        ensures back { (pool : ℕ) (turn : Turn F) (stored : Stored Fields) →
            slice_get (turns_at (slice_index_or lasts.now pool 0) self) pool ≡ Some turn →
            slice_get pools.new.items pool ≡ Some stored →
            F.admits turn.fact turn.pool turn.version (rows_of stored)
            × HasShapeOf turn.first stored }
    {
        let _ = &self.slots;
        for pool in 0..lasts.len() {
            let WriteTurn { place, storage } = self.write(rt, pool as u32, lasts[pool]);
            drop(place);
            pools[pool] = storage;
        }
    }
}
