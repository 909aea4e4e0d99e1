//! The steps on one slot's word, by which threads come to its pool one after another.

ghost use Rattle.std.specs.Prelude.{◌≡◌, ◌<◌, length, slice_get, Some, IfSome};
ghost use Rattle.counted_slot.specs.Counting.{readers, IsTurn, Gains};
ghost use Rattle.pool_slots.specs.Tags.{turns_at};

use super::held::Held;
use super::{PoolFact, ReadTurn, Slots};
use counted_slot::{Claim, FREE, MOST_READERS, ONE_READER, PRESENT, TAKEN};
use crossbeam_utils::Backoff;
use std::sync::Wait;

// How many readers a slot's word counts.
fn reader_count(word: u64) -> u64
    ensures { result ≡ readers word }
{
    word % 0x1_0000_0000 / ONE_READER
}

impl<F: PoolFact> Slots<F> {
    // A turn to read, where the word lets a reader come and the pool is there at the version.
    pub(crate) fn try_read(&self, pool: u32, need: u32) -> Option<ReadTurn<'_, F>>
        requires { pool < length self.now }
        ensures turn { IfSome result (λ turn. slice_get (turns_at need self.now) pool ≡ Some turn) }
        ensures version { IfSome result (λ turn. turn.version ≡ need) }
    {
        let slot = &self.slots[pool as usize];
        let seen = slot.load();
        if seen % 4 == FREE || seen % 4 == TAKEN || reader_count(seen) >= MOST_READERS {
            return None;
        }
        let (found, claim) = slot.turn(seen, seen + ONE_READER);
        if found != seen {
            claim.done();
            return None;
        }
        ReadTurn::of(claim, pool, need)
    }

    // Whether the pool is there at the version, as a reader sees it.
    pub(crate) fn shows(&self, pool: u32, need: u32) -> bool
        requires { pool < length self.now }
    {
        match self.try_read(pool, need) {
            Some(turn) => {
                turn.leave();
                true
            }
            None => false,
        }
    }

    // A claim to write, where nobody is at the slot.
    fn try_take(&self, pool: u32) -> Option<Claim<'_, Held<F>>>
        requires { pool < length self.now }
        ensures right { IfSome result (λ claim. claim.right ≡ 2) }
        ensures tag { IfSome result (λ claim. slice_get self.now pool ≡ Some claim.tag) }
    {
        let slot = &self.slots[pool as usize];
        let seen = slot.load();
        if seen % 4 == TAKEN || reader_count(seen) > 0 {
            return None;
        }
        let (found, claim) = slot.turn(seen, seen - seen % 4 + TAKEN);
        if found != seen {
            claim.done();
            return None;
        }
        Some(claim)
    }

    // Waits for a claim to write.
    pub(crate) fn take<R: Wait>(&self, rt: &R, pool: u32) -> Claim<'_, Held<F>>
        requires { pool < length self.now }
        ensures right { result.right ≡ 2 }
        ensures tag { slice_get self.now pool ≡ Some result.tag }
    {
        let backoff = Backoff::new();
        for _ in rt.forever() {
            if let Some(claim) = self.try_take(pool) {
                return claim;
            }
            backoff.snooze();
        }
        unreachable!()
    }

    // Whether nobody has been at the slot yet: readers can't come then.
    pub(crate) fn is_fresh(&self, pool: u32) -> bool
        requires { pool < length self.now }
    {
        self.slots[pool as usize].load() == FREE
    }

    // Takes the pool out of its slot and puts it back as it was. Readers may come from then on.
    pub(crate) fn open<R: Wait>(&self, rt: &R, pool: u32)
        requires { pool < length self.now }
    {
        let Held {
            storage,
            version,
            of: _,
        } = self.take(rt, pool).put(Held::out(), PRESENT);
        if let Some(storage) = storage {
            self.take(rt, pool).put(Held::at(storage, version), PRESENT);
        }
    }
}
