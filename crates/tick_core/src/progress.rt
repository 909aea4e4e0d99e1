//! How far one system is.

ghost use Rattle.std.specs.Prelude.{◌≡◌, ◌↔◌, ℕ, true, IfOk, IsTrue};
ghost use Rattle.std.specs.FinSet as set;
ghost use Rattle.world_model.specs.Frames.{system_pools};
ghost use Rattle.world_model.specs.Groups.{has_pool};
ghost use Rattle.tick_core.specs.Layout.{pools_of, state_of};
ghost use Rattle.tick_core.specs.States.{idle};

use super::turns::{Turn, has_given, has_taken, has_turn, mark_given, mark_taken, push_turns};
use entity_id::OutOfMemory;
use std::alloc::Global;
use world_model::Access;

// How far a system is, with a turn for each pool that it names.
#[derive(Debug, Drop)]
pub(crate) struct Progress {
    pub claimed: bool,
    pub done: bool,
    pub turns: Vec<Turn>,
}

impl Progress {
    // A system that has done nothing.
    pub(crate) fn new(alloc: Global, access: &Access) -> Result<Progress, OutOfMemory>
        ensures pools { IfOk result (λ progress. pools_of progress ≡ system_pools access.now) }
        ensures idle { IfOk result (λ progress. state_of progress ≡ idle) }
    {
        let mut turns = Vec::new(alloc);
        push_turns(&mut turns, access.read.as_slice())?;
        push_turns(&mut turns, access.write.as_slice())?;
        push_turns(&mut turns, access.look.as_slice())?;
        push_turns(&mut turns, access.without.as_slice())?;
        Ok(Progress {
            claimed: false,
            done: false,
            turns,
        })
    }

    // Whether it names a pool.
    pub(crate) fn names(&self, pool: u32) -> bool
        ensures { result ≡ has_pool (pools_of self.now) pool }
    {
        has_turn(&self.turns, pool)
    }

    // Whether it has taken a pool.
    pub(crate) fn has_taken(&self, pool: u32) -> bool
        ensures { result ≡ set.contains (state_of self.now).taken pool }
    {
        has_taken(&self.turns, pool)
    }

    // Whether it has given a pool back.
    pub(crate) fn has_given(&self, pool: u32) -> bool
        ensures { result ≡ set.contains (state_of self.now).given pool }
    {
        has_given(&self.turns, pool)
    }

    // Whether it has taken all its pools.
    pub(crate) fn has_taken_all(&self) -> bool
        ensures { IsTrue result ↔ ((pool : ℕ) → IsTrue (has_pool (pools_of self.now) pool) →
            IsTrue (set.contains (state_of self.now).taken pool)) }
    {
        for turn in &self.turns {
            if !self.has_taken(turn.pool) {
                return false;
            }
        }
        true
    }

    // Whether it has given all its pools back.
    pub(crate) fn has_given_all(&self) -> bool
        ensures { IsTrue result ↔ ((pool : ℕ) → IsTrue (has_pool (pools_of self.now) pool) →
            IsTrue (set.contains (state_of self.now).given pool)) }
    {
        for turn in &self.turns {
            if !self.has_given(turn.pool) {
                return false;
            }
        }
        true
    }

    // It is claimed.
    pub(crate) fn claim(&mut self)
        ensures pools { pools_of self.new ≡ pools_of self.old }
        ensures state { state_of self.new ≡ record (state_of self.old) { claimed = true } }
    {
        self.claimed = true;
    }

    // It takes one of its pools.
    pub(crate) fn take(&mut self, pool: u32)
        requires { IsTrue (has_pool (pools_of self.old) pool) }
        ensures pools { pools_of self.new ≡ pools_of self.old }
        ensures state { state_of self.new ≡
            record (state_of self.old) { taken = set.insert (state_of self.old).taken pool } }
    {
        mark_taken(&mut self.turns, pool);
    }

    // It gives one of its pools back.
    pub(crate) fn give(&mut self, pool: u32)
        requires { IsTrue (has_pool (pools_of self.old) pool) }
        ensures pools { pools_of self.new ≡ pools_of self.old }
        ensures state { state_of self.new ≡
            record (state_of self.old) { given = set.insert (state_of self.old).given pool } }
    {
        mark_given(&mut self.turns, pool);
    }

    // It is done.
    pub(crate) fn finish(&mut self)
        ensures pools { pools_of self.new ≡ pools_of self.old }
        ensures state { state_of self.new ≡ record (state_of self.old) { done = true } }
    {
        self.done = true;
    }
}
