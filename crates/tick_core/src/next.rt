//! The first step that can be taken.

ghost use Rattle.std.specs.Prelude.{◌≡◌, ◌↔◌, ◌<◌, length, IfSome, IsNone, IsTrue};
ghost use Rattle.tick_core.specs.Choosing.{Beats, Improves, IsTurnAt};
ghost use Rattle.tick_core.specs.Schedules.{IsFinished};
ghost use Rattle.tick_core.specs.Steps.{IsFirstStep, StandsBefore, kind_of, pool_of, system_of};

use super::{Core, Step};

impl Core {
    /// The first step that can be taken: a Claim before any Take, a Take before any Leave, a Leave before
    /// any Put, a Put before any Finish; of one kind by the number of the system, and of one system by the
    /// number of the pool. None exactly where all systems are done. No memory.
    pub fn next(&self) -> Option<Step>
        ensures first { IfSome result (IsFirstStep self.now) }
        ensures none { IsNone result ↔ IsFinished self.now }
    {
        self.law();
        let mut first = None;
        for system in 0..self.len() {
            first = self.first_with(first, system);
        }
        first
    }

    // The first of a step and those that a system can take.
    fn first_with(&self, first: Option<Step>, system: u32) -> Option<Step>
        requires { system < length self.now.systems }
        ensures { Improves self.now (λ step. system_of step ≡ system) first result }
    {
        self.law();
        let first = self.earlier(first, Step::Claim { system });
        let mut first = self.earlier(first, Step::Finish { system });
        for turn in &self.system(system).turns {
            first = self.first_at(first, system, turn.pool);
        }
        first
    }

    // The first of a step and those that a system can take at a pool.
    fn first_at(&self, first: Option<Step>, system: u32, pool: u32) -> Option<Step>
        ensures { Improves self.now (IsTurnAt system pool) first result }
    {
        let first = self.earlier(first, Step::Take { system, pool });
        let first = self.earlier(first, Step::Leave { system, pool });
        self.earlier(first, Step::Put { system, pool })
    }

    // The earlier of a step and another, where that can be taken.
    fn earlier(&self, first: Option<Step>, step: Step) -> Option<Step>
        ensures { Improves self.now (λ other. other ≡ step) first result }
    {
        if self.can(&step) && beats(&step, &first) {
            Some(step)
        } else {
            first
        }
    }
}

// Whether a step stands before the first so far, if there is one.
fn beats(step: &Step, first: &Option<Step>) -> bool
    ensures { IsTrue result ↔ Beats step.now first.now }
{
    match first {
        Some(first) => stands_before(step, first),
        None => true,
    }
}

// Whether one step stands before another.
fn stands_before(a: &Step, b: &Step) -> bool
    ensures { IsTrue result ↔ StandsBefore a.now b.now }
{
    if kind_of(a) != kind_of(b) {
        return kind_of(a) < kind_of(b);
    }
    if system_of(a) != system_of(b) {
        return system_of(a) < system_of(b);
    }
    pool_of(a) < pool_of(b)
}

// The place of a step's kind.
fn kind_of(step: &Step) -> u32
    ensures { result ≡ kind_of step.now }
{
    match step {
        Step::Claim { .. } => 0,
        Step::Take { .. } => 1,
        Step::Leave { .. } => 2,
        Step::Put { .. } => 3,
        Step::Finish { .. } => 4,
    }
}

// The system that a step is of.
fn system_of(step: &Step) -> u32
    ensures { result ≡ system_of step.now }
{
    match *step {
        Step::Claim { system }
        | Step::Take { system, .. }
        | Step::Leave { system, .. }
        | Step::Put { system, .. }
        | Step::Finish { system } => system,
    }
}

// The pool that a step names; 0 where it names none.
fn pool_of(step: &Step) -> u32
    ensures { result ≡ pool_of step.now }
{
    match *step {
        Step::Take { pool, .. } | Step::Leave { pool, .. } | Step::Put { pool, .. } => pool,
        Step::Claim { .. } | Step::Finish { .. } => 0,
    }
}
