//! Which steps can be taken.

ghost use Rattle.std.specs.Prelude.{◌≡◌, ◌↔◌, ◌<◌, ℕ, length, IsTrue, IsFalse};
ghost use Rattle.world_model.specs.Groups.{has_pool};
ghost use Rattle.access_graph.specs.Conflicts.{need, writers};
ghost use Rattle.tick_core.specs.declared.step.Step.{Step};
ghost use Rattle.tick_core.specs.Schedules.{IsFinished};
ghost use Rattle.tick_core.specs.States.{are_conflicting, is_claimed, is_done, version_at, writes};
ghost use Rattle.tick_core.specs.Steps.{CanClaim, CanFinish, CanGive, CanStep, CanTake, Holds};

use super::{Core, Step};
use access_graph::conflicts;

impl Core {
    /// Whether a step can be taken. One that names a system that isn't there can't. It looks at no version
    /// and at no other holder of a pool: where a pool can be taken, it is at the version that the system
    /// needs, and no system that holds it conflicts. No memory.
    pub fn can(&self, step: &Step) -> bool
        ensures step { IsTrue result ↔ CanStep self.now step.now }
        ensures version { IsTrue result → (system pool : ℕ) → step.now ≡ Step.Take system pool →
            version_at self.now pool ≡ need self.now.accesses system pool }
        ensures holders { IsTrue result → (system pool : ℕ) → step.now ≡ Step.Take system pool →
            (other : ℕ) → Holds self.now other pool → IsFalse (are_conflicting self.now system other) }
    {
        self.law();
        match *step {
            Step::Claim { system } => self.can_claim(system),
            Step::Take { system, pool } => self.can_take(system, pool),
            Step::Leave { system, pool } => {
                self.can_give(system, pool) && !self.writes(system, pool)
            }
            Step::Put { system, pool } => {
                self.can_give(system, pool) && self.writes(system, pool)
            }
            Step::Finish { system } => self.can_finish(system),
        }
    }

    // Whether a system can be claimed.
    fn can_claim(&self, system: u32) -> bool
        ensures { IsTrue result ↔ CanClaim self.now system }
    {
        system < self.len() && !self.system(system).claimed && self.are_earlier_done(system)
    }

    // Whether all earlier systems that conflict with a system are done.
    fn are_earlier_done(&self, system: u32) -> bool
        requires { system < length self.now.systems }
        ensures { IsTrue result ↔ ((k : ℕ) → k < system →
            IsTrue (are_conflicting self.now k system) → IsTrue (is_done self.now k)) }
    {
        for earlier in 0..system {
            if !self.lets_pass(earlier, system) {
                return false;
            }
        }
        true
    }

    // Whether a system is done, or doesn't conflict with another.
    fn lets_pass(&self, earlier: u32, system: u32) -> bool
        requires earlier { earlier < length self.now.systems }
        requires system { system < length self.now.systems }
        ensures { IsTrue result ↔
            (IsTrue (are_conflicting self.now earlier system) → IsTrue (is_done self.now earlier)) }
    {
        self.system(earlier).done || !conflicts(self.access(earlier), self.access(system))
    }

    // Whether a system can take a pool.
    fn can_take(&self, system: u32, pool: u32) -> bool
        ensures { IsTrue result ↔ CanTake self.now system pool }
    {
        if system >= self.len() {
            return false;
        }
        let progress = self.system(system);
        progress.claimed && !progress.done && progress.names(pool) && !progress.has_taken(pool)
    }

    // Whether a system can give a pool back.
    fn can_give(&self, system: u32, pool: u32) -> bool
        ensures { IsTrue result ↔ CanGive self.now system pool }
    {
        if system >= self.len() {
            return false;
        }
        let progress = self.system(system);
        progress.has_taken_all() && progress.has_taken(pool) && !progress.has_given(pool)
    }

    // Whether a system can finish.
    fn can_finish(&self, system: u32) -> bool
        ensures { IsTrue result ↔ CanFinish self.now system }
    {
        if system >= self.len() {
            return false;
        }
        let progress = self.system(system);
        progress.claimed && !progress.done && progress.has_taken_all() && progress.has_given_all()
    }

    // Whether a system writes a pool.
    fn writes(&self, system: u32, pool: u32) -> bool
        requires { system < length self.now.systems }
        ensures { result ≡ writes self.now system pool }
    {
        has_pool(self.access(system).write.as_slice(), pool)
    }

    /// Whether all systems are done. Then each was claimed, no step can be taken, and each pool is at the
    /// version that all its writers leave. No memory.
    pub fn finished(&self) -> bool
        ensures done { IsTrue result ↔ IsFinished self.now }
        ensures claimed { IsTrue result → (system : ℕ) → system < length self.now.systems →
            IsTrue (is_claimed self.now system) }
        ensures steps { IsTrue result → (step : Step) → CanStep self.now step → ⊥ }
        ensures versions { IsTrue result → (pool : ℕ) →
            version_at self.now pool ≡ writers self.now.accesses pool }
    {
        self.law();
        for system in 0..self.len() {
            if !self.system(system).done {
                return false;
            }
        }
        true
    }
}

// Whether a list of pools has this one.
fn has_pool(pools: &[u32], pool: u32) -> bool
    ensures { result ≡ has_pool pools.now pool }
{
    pools.iter().any(|other| *other == pool)
}
