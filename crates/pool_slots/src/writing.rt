//! A pool is taken out of its slot.

ghost use Rattle.std.specs.Prelude.{◌≡◌, ◌<◌, length, slice_get, Some, IfSome};
ghost use Rattle.pool_slots.specs.Tags.{turns_at, IsAdmitted};
ghost use Rattle.pool_slots.specs.Turns.{HasShapeOf, rows_of};

use super::held::Held;
use super::{Place, PoolFact, Slots, WriteTurn};
use counted_slot::PRESENT;
use crossbeam_utils::Backoff;
use std::sync::Wait;
use storage::Storage;
use world_model::Row;

impl<F: PoolFact> Slots<F> {
    // The pool, and a turn to write it at the version at which it was there; or none, where it is out.
    // A claim ends when the pool is taken, so a second one is waited for: whoever comes between the two
    // finds no pool.
    fn try_take_out<R: Wait>(&self, rt: &R, pool: u32) -> Option<WriteTurn<'_, F>>
        requires { pool < length self.now }
        ensures place { IfSome result (λ turn.
            slice_get (turns_at turn.place.version self.now) pool ≡ Some turn.place) }
        ensures admitted { IfSome result (λ turn.
            F.admits turn.place.fact turn.place.pool turn.place.version (rows_of turn.storage)) }
        ensures shape { IfSome result (λ turn. HasShapeOf turn.place.first turn.storage) }
    {
        let Held {
            storage,
            version,
            of: _,
        } = self.take(rt, pool).put(Held::out(), PRESENT);
        let storage = storage?;
        Some(WriteTurn {
            place: Place::of(self.take(rt, pool), version),
            storage,
        })
    }

    // A turn to write, where the pool is there at the version; else the pool stays as it was.
    pub(crate) fn try_write<R: Wait>(
        &self,
        rt: &R,
        pool: u32,
        need: u32,
    ) -> Option<WriteTurn<'_, F>>
        requires { pool < length self.now }
        ensures place { IfSome result (λ turn.
            slice_get (turns_at need self.now) pool ≡ Some turn.place) }
        ensures version { IfSome result (λ turn. turn.place.version ≡ need) }
        ensures admitted { IfSome result (λ turn.
            F.admits turn.place.fact turn.place.pool turn.place.version (rows_of turn.storage)) }
        ensures shape { IfSome result (λ turn. HasShapeOf turn.place.first turn.storage) }
    {
        let WriteTurn { place, storage } = self.try_take_out(rt, pool)?;
        if place.version() == need {
            Some(WriteTurn { place, storage })
        } else {
            place.put_unchanged(storage);
            None
        }
    }

    // Waits until the pool is there, at whichever version, and takes it out for good.
    pub(crate) fn take_for_good<R: Wait>(&self, rt: &R, pool: u32) -> Storage<Row>
        requires { pool < length self.now }
        ensures { IsAdmitted F.admits self.now pool result }
    {
        let backoff = Backoff::new();
        for _ in rt.forever() {
            if let Some(turn) = self.try_take_out(rt, pool) {
                let WriteTurn { place, storage } = turn;
                drop(place);
                return storage;
            }
            backoff.snooze();
        }
        unreachable!()
    }
}
