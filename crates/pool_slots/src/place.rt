//! A turn to write a pool: its place and the pool.

ghost use Rattle.std.specs.Prelude.{◌≡◌, ◌+◌, ◌<◌, ◌^◌, map};
ghost use Rattle.entity_id.specs.FiniteMap as entries;
ghost use Rattle.std.specs.Borrow.{sem};
ghost use Rattle.pool_slots.specs.Lends.{lends_rows};
ghost use Rattle.pool_slots.specs.Tags.{turn_of};
ghost use Rattle.pool_slots.specs.Turns.{HasShapeOf, rows_of};

use super::PoolFact;
use super::held::Held;
use counted_slot::{Claim, PRESENT};
use sparse_set::SparseSet;
use std::marker::Model;
use storage::Storage;
use world_model::Row;

/// The place of a pool that a writer has taken out of its slot: nobody else has a turn at the pool until
/// it is put back here. A place that is let go stays empty, and who waits for the pool waits forever. A
/// contract sees a `Turn` of `specs/Turns.antt`.
pub struct Place<'a, F: PoolFact> {
    claim: Claim<'a, Held<F>>,
    version: u32,
}

impl<'a, F: PoolFact> Model for Place<'a, F> {
    ghost use Rattle.std.specs.Prelude.{◌≡◌};
    ghost use Rattle.pool_slots.specs.Tags.{turn_of};
    ghost use Rattle.pool_slots.specs.Turns.{Turn};

    ghost Value = { Turn F };

    ghost view = { λ t. turn_of t.claim.tag t.version };

    ghost invariant = { λ t. t.claim.right ≡ 2 };
}

impl<'a, F: PoolFact> Place<'a, F> {
    pub(crate) fn of(claim: Claim<'a, Held<F>>, version: u32) -> Place<'a, F>
        requires { claim.right ≡ 2 }
        ensures { result ≡ turn_of claim.entry.tag version }
    {
        Place { claim, version }
    }

    /// The version that the pool had when it was taken out. No memory.
    pub fn version(&self) -> u32
        ensures { result ≡ self.now.version }
    {
        self.version
    }

    // Puts the pool back at the version that it had.
    pub(crate) fn put_unchanged(self, storage: Storage<Row>)
        requires admitted { F.admits self.fact self.pool self.version (rows_of storage) }
        requires shape { HasShapeOf self.first storage }
    {
        let Self { claim, version } = self;
        claim.put(Held::at(storage, version), PRESENT);
    }

    /// Puts the pool back at the next version, where others may take turns at it. It has to be admitted
    /// at that version, with the identifiers in the order, the spare and the bound with which it was
    /// handed in, and the version has to be below 2^32. It doesn't wait. No memory.
    pub fn put(self, storage: Storage<Row>)
        requires room { self.version + 1 < 2 ^ 32 }
        requires admitted { F.admits self.fact self.pool (self.version + 1) (rows_of storage) }
        requires shape { HasShapeOf self.first storage }
    {
        let Self { claim, version } = self;
        claim.put(Held::at(storage, version + 1), PRESENT);
    }
}

impl<'a, F: PoolFact> Drop for Place<'a, F> {
    fn drop(self) {
        let Self { claim, version: _ } = self;
        claim.put(Held::out(), PRESENT);
    }
}

/// The right to write a pool at a version, alone: the pool, and the place where it is put back. Who hands
/// the pool on by value takes the two apart, and puts it back at the place.
pub struct WriteTurn<'a, F: PoolFact> {
    /// Where the pool is put back.
    pub place: Place<'a, F>,
    /// The pool, as it is at the turn's version.
    pub storage: Storage<Row>,
}

impl<'a, F: PoolFact> WriteTurn<'a, F> {
    /// The identifiers of the pool, and its rows for writing, in packed order. No memory.
    pub fn split(&mut self) -> (&SparseSet, &mut [Row])
        ensures* writes_back { sem 𝓛 (lends_rows F.row F.PoolFact self.entry result.1) }
        ensures list { result.0.now.list ≡ entries.keys self.old.storage.pairs }
        ensures rows { result.1.now ≡ map (λ pair. pair.1) self.old.storage.pairs }
    {
        self.storage.split_mut()
    }

    /// Puts the pool back at the next version, under the conditions of [`Place::put`]. It doesn't wait.
    /// No memory.
    pub fn put(self)
        requires room { self.place.version + 1 < 2 ^ 32 }
        requires admitted { F.admits self.place.fact self.place.pool (self.place.version + 1)
            (rows_of self.storage) }
        requires shape { HasShapeOf self.place.first self.storage }
    {
        let Self { place, storage } = self;
        place.put(storage);
    }
}
