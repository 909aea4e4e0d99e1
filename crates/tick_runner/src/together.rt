//! The workers side by side.

ghost use Rattle.std.specs.Prelude.{◌≡◌, ℕ, ◌<◌, length, slice_get, Some};
ghost use Rattle.std.specs.List.{All};
ghost use denote.Param.Send.{IsSync};
ghost use Rattle.tick_runner.specs.Plans.{IsShared};
ghost use Rattle.tick_runner.specs.Versions.{IsRightAt};
ghost use Rattle.tick_runner.specs.Working.{IsAtWork, HasWorked};

mod gather;
mod making;
mod whole;

use crate::gate::Gate;
use crate::plan::Plan;
use crate::versions::TickFact;
use crate::worker::{Worker, work};
pub use making::make_workers;
use pool_slots::Slots;
use std::sync::Wait;
use std::thread;
use std::thread::Threads;
use system_api::System;
pub use whole::run_prepared;

/// Each worker works until all systems are claimed, as many at a time as there are workers.
pub fn work_all<'a, 'b, R: Threads + Wait + Sync, S: System + Sync, T: Gate + Sync>(
    rt: &R,
    slots: &Slots<TickFact<'a, S>>,
    fact: &TickFact<'b, S>,
    systems: &[S],
    plan: &Plan,
    gate: &T,
    workers: &mut [Worker],
)
    requires some { 0 < length workers.old }
    requires shared { IsShared S.lists S.limit systems.now fact.now slots.now plan.now }
    requires ready { All (IsAtWork (IsRightAt S.effect fact.now) (length systems.now)
        plan.now.board) workers.old }
    ensures count { length workers.new ≡ length workers.old }
    ensures worked { (k : ℕ) (before after : _) → slice_get workers.old k ≡ Some before →
        slice_get workers.new k ≡ Some after →
        HasWorked (IsRightAt S.effect fact.now) (length systems.now) plan.now.board before after }
{
    let count = workers.len();
    thread::for_each_mut(
        rt,
        workers,
        count,
        &|_, worker: &mut Worker|
            requires { IsSync R.row × IsSync S.row × IsSync T.row × IsShared S.lists S.limit systems.now fact.now slots.now plan.now
                × IsAtWork (IsRightAt S.effect fact.now) (length systems.now) plan.now.board worker.now }
            ensures { HasWorked (IsRightAt S.effect fact.entry.now) (length systems.entry.now) plan.entry.now.board worker.entry.now worker.exit.now }
        { work(rt, slots, fact, systems, plan, gate, worker) },
    );
}
