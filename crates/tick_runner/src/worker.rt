//! One worker.

ghost use Rattle.std.specs.Prelude.{◌≡◌, length};
ghost use Rattle.ready_board.specs.Seats.{view_of};
ghost use Rattle.ready_board.specs.Sets.{IsWithin, first_systems};
ghost use Rattle.tick_runner.specs.Plans.{IsShared};
ghost use Rattle.tick_runner.specs.Versions.{IsRightAt};
ghost use Rattle.tick_runner.specs.Working.{IsAtWork, KeepsRole};

mod running;

use crate::gate::Gate;
use crate::plan::Plan;
use crate::versions::TickFact;
use crossbeam_utils::Backoff;
use pool_slots::Slots;
use ready_board::{BoardSeat, Claim};
use running::run_claimed;
use std::sync::Wait;
use system_api::{Buffer, LentPool, System};

/// A worker: its seat, the buffers of the systems that it has run, which these are, and a list in which
/// pools are lent. In the place of another system's buffer stands one that takes no memory.
#[derive(Drop)]
pub struct Worker {
    pub seat: BoardSeat,
    pub buffers: Vec<Buffer>,
    pub has_run: Vec<bool>,
    pub room: Vec<LentPool>,
}

// How a worker's claim ended: it ran a system, it found none that was ready, or all are claimed.
enum Step {
    Ran,
    Idle,
    Ended,
}

// Claims a system and runs it, where one is ready.
fn take_one<'a, 'b, R: Wait, S: System, T: Gate>(
    rt: &R,
    slots: &Slots<TickFact<'a, S>>,
    fact: &TickFact<'b, S>,
    systems: &[S],
    plan: &Plan,
    gate: &T,
    worker: &mut Worker,
) -> Step
    requires shared { IsShared S.lists S.limit systems.now fact.now slots.now plan.now }
    requires before { IsAtWork (IsRightAt S.effect fact.now) (length systems.now)
        plan.now.board worker.old }
    ensures after { IsAtWork (IsRightAt S.effect fact.now) (length systems.now)
        plan.now.board worker.new }
    ensures role { KeepsRole (view_of worker.old.seat) (view_of worker.new.seat) }
    ensures all { result ≡ Step.Ended →
        IsWithin (first_systems (length systems.now)) (view_of worker.new.seat).seen_claimed }
{
    match plan.board.claim(&mut worker.seat) {
        Claim::Got(system) => {
            let place = system as usize;
            let part = &plan.parts[place];
            let mut out = part.buffer.take(rt);
            run_claimed(
                rt,
                slots,
                fact,
                system,
                &systems[place],
                part,
                gate,
                &mut worker.room,
                &mut out,
            );
            worker.buffers[place] = out;
            worker.has_run[place] = true;
            plan.board.done(&mut worker.seat, system);
            Step::Ran
        }
        Claim::NotYet => Step::Idle,
        Claim::AllClaimed => Step::Ended,
    }
}

/// Runs systems that are ready until all are claimed; while none is ready it spins, and after some rounds
/// it yields the processor.
pub fn work<'a, 'b, R: Wait, S: System, T: Gate>(
    rt: &R,
    slots: &Slots<TickFact<'a, S>>,
    fact: &TickFact<'b, S>,
    systems: &[S],
    plan: &Plan,
    gate: &T,
    worker: &mut Worker,
)
    requires shared { IsShared S.lists S.limit systems.now fact.now slots.now plan.now }
    requires before { IsAtWork (IsRightAt S.effect fact.now) (length systems.now)
        plan.now.board worker.old }
    ensures after { IsAtWork (IsRightAt S.effect fact.now) (length systems.now)
        plan.now.board worker.new }
    ensures role { KeepsRole (view_of worker.old.seat) (view_of worker.new.seat) }
    ensures all { IsWithin (first_systems (length systems.now)) (view_of worker.new.seat).seen_claimed }
{
    let mut backoff = Backoff::new();
    'turns: for _ in rt.forever() {
        match take_one(rt, slots, fact, systems, plan, gate, worker) {
            Step::Ran => backoff = Backoff::new(),
            Step::Idle => backoff.snooze(),
            Step::Ended => return,
        }
    }
    unreachable!()
}
