//! A turn to read a pool.

ghost use Rattle.std.specs.Prelude.{◌≡◌, ◌≢◌, IfSome, Some, None};
ghost use Rattle.pool_slots.specs.declared.held.Held.{Held};
ghost use Rattle.pool_slots.specs.Tags.{turn_of};
ghost use Rattle.pool_slots.specs.Turns.{HasShapeOf, rows_of};

use super::PoolFact;
use super::held::Held;
use counted_slot::Claim;
use std::marker::Model;
use storage::Storage;
use world_model::Row;

/// The right to read a pool at a version, beside other readers: no writer has the pool as long as this
/// stands. It ends by `leave`, or where it is let go. A contract sees a `Turn` of `specs/Turns.antt`.
pub struct ReadTurn<'a, F: PoolFact> {
    claim: Claim<'a, Held<F>>,
    pool: u32,
    version: u32,
}

impl<'a, F: PoolFact> Model for ReadTurn<'a, F> {
    ghost use Rattle.std.specs.Prelude.{◌≡◌, ◌≢◌, Some, None};
    ghost use Rattle.pool_slots.specs.declared.held.Held.{Held};
    ghost use Rattle.pool_slots.specs.Tags.{turn_of};
    ghost use Rattle.pool_slots.specs.Turns.{Turn};

    ghost Value = { Turn F };

    ghost view = { λ t. turn_of t.claim.tag t.version };

    ghost invariant = { λ t. (t.claim.right ≡ 1) × (t.pool ≡ t.claim.tag.pool) ×
        ((held : Held F) → Some held ≡ t.claim.value →
        (held.version ≡ t.version) × (held.storage ≢ None)) };
}

impl<'a, F: PoolFact> ReadTurn<'a, F> {
    // The turn of a claim that shows the version; or none, where the claim is given back.
    pub(crate) fn of(claim: Claim<'a, Held<F>>, pool: u32, need: u32) -> Option<ReadTurn<'a, F>>
        requires right { claim.right ≡ 1 }
        requires pool { claim.tag.pool ≡ pool }
        ensures turn { IfSome result (λ turn. turn ≡ turn_of claim.entry.tag need) }
        ensures version { IfSome result (λ turn. turn.version ≡ need) }
    {
        let held = claim.get();
        if held.version == need && held.storage.is_some() {
            Some(ReadTurn {
                claim,
                pool,
                version: need,
            })
        } else {
            claim.leave();
            None
        }
    }

    /// The pool's number. No memory.
    pub fn pool(&self) -> u32
        ensures { result ≡ self.now.pool }
    {
        self.pool
    }

    /// The pool, as it is at the turn's version. No memory.
    pub fn storage(&self) -> &Storage<Row>
        ensures admitted { F.admits self.now.fact self.now.pool self.now.version
            (rows_of result.now) }
        ensures shape { HasShapeOf self.now.first result.now }
    {
        match &self.claim.get().storage {
            Some(storage) => storage,
            None => unreachable!(),
        }
    }

    /// Ends the turn. No memory.
    pub fn leave(self) {
        let Self {
            claim,
            pool: _,
            version: _,
        } = self;
        claim.leave();
    }
}

impl<'a, F: PoolFact> Drop for ReadTurn<'a, F> {
    fn drop(self) {
        let Self {
            claim,
            pool: _,
            version: _,
        } = self;
        claim.leave();
    }
}
