//! The systems of a tick, run by workers.

ghost use Rattle.std.specs.Prelude.{◌≡◌, ℕ, ◌≤◌, ◌<◌, ◌^◌, length, map, slice_get, slice_index_or, Some};
ghost use Rattle.std.specs.List.{All};
ghost use Rattle.world_model.specs.Frames.{IsLawfulAccess};
ghost use Rattle.world_model.specs.Ticks.{maps_after_systems, orders_of};
ghost use Rattle.registry.specs.Layout.{maps_of};
ghost use Rattle.registry.specs.Lending.{shapes_of};
ghost use Rattle.ready_board.specs.Seats.{preds_in};
ghost use Rattle.tick_runner.specs.Plans.{AreOfTick, HasNeeds, IsPlanFor, IsShared};
ghost use Rattle.tick_runner.specs.Running.{orders_in};
ghost use Rattle.tick_runner.specs.Versions.{IsRightAt};
ghost use Rattle.tick_runner.specs.Working.{AreLed, HasWorked, HaveWorked, IsAtWork, IsIdle};

use super::gather::all_buffers;
use super::work_all;
use crate::gate::Gate;
use crate::plan::Plan;
use crate::versions::TickFact;
use crate::worker::Worker;
use pool_slots::{Slots, SlotsRoom};
use ready_board::Board;
use std::snapshot::Snapshot;
use std::sync::Wait;
use std::thread::Threads;
use storage::Storage;
use system_api::{Buffer, System};
use world_model::Row;

// The pools of a tick in slots, each at version 0.
fn fill_tick<'a, S: System>(
    room: SlotsRoom<TickFact<'a, S>>,
    fact: &TickFact<'a, S>,
    pools: &mut Vec<Storage<Row>>,
) -> Slots<TickFact<'a, S>>
    requires room { length pools.old.items ≤ room }
    requires few { length pools.old.items ≤ 64 }
    requires same { fact.now.pools.value.items ≡ pools.old.items }
    ensures count { length pools.new.items ≡ length pools.old.items }
    ensures slots { AreOfTick fact.now result }
{
    Slots::fill(room, fact, pools)
}

// The pools of a tick out of their slots, each at its last version.
fn close_tick<'a, 'b, R: Wait, S: System>(
    rt: &R,
    slots: Slots<TickFact<'a, S>>,
    fact: &TickFact<'b, S>,
    lasts: &[u32],
    pools: &mut Vec<Storage<Row>>,
)
    requires slots { AreOfTick fact.now slots }
    requires list { length pools.old.items ≡ length slots }
    requires few { length lasts.now ≤ 64 }
    requires lasts { HasNeeds (map S.lists fact.now.systems.value.now)
        (length fact.now.systems.value.now) (length slots) lasts.now }
    ensures rows { maps_of pools.new.items ≡ maps_after_systems
        (map S.effect fact.now.systems.value.now) fact.now.tick (maps_of fact.now.pools.value.items) }
    ensures shapes { shapes_of pools.new.items ≡ shapes_of fact.now.pools.value.items }
{
    let _ = fact;
    slots.close_at(rt, pools, lasts);
}

// Lets all workers of a `Vec` work.
fn work_listed<'a, 'b, R: Threads + Wait + Sync, S: System + Sync, T: Gate + Sync>(
    rt: &R,
    slots: &Slots<TickFact<'a, S>>,
    fact: &TickFact<'b, S>,
    systems: &[S],
    plan: &Plan,
    gate: &T,
    workers: &mut Vec<Worker>,
)
    requires some { 0 < length workers.old.items }
    requires shared { IsShared S.lists S.limit systems.now fact.now slots.now plan.now }
    requires ready { All (IsAtWork (IsRightAt S.effect fact.now) (length systems.now)
        plan.now.board) workers.old.items }
    ensures count { length workers.new.items ≡ length workers.old.items }
    ensures worked { (k : ℕ) (before after : _) → slice_get workers.old.items k ≡ Some before →
        slice_get workers.new.items k ≡ Some after →
        HasWorked (IsRightAt S.effect fact.now) (length systems.now) plan.now.board before after }
{
    work_all(rt, slots, fact, systems, plan, gate, workers.as_mut_slice());
}

// Lets all workers work, from their first claims to their last ones.
fn work_led<'a, 'b, R: Threads + Wait + Sync, S: System + Sync, T: Gate + Sync>(
    rt: &R,
    slots: &Slots<TickFact<'a, S>>,
    fact: &TickFact<'b, S>,
    systems: &[S],
    plan: &Plan,
    gate: &T,
    workers: &mut Vec<Worker>,
)
    requires shared { IsShared S.lists S.limit systems.now fact.now slots.now plan.now }
    requires idle { AreLed (IsIdle (length systems.now) plan.now.board) workers.old.items }
    ensures { HaveWorked (IsRightAt S.effect fact.now) (length systems.now)
        plan.now.board workers.new.items }
{
    work_listed(rt, slots, fact, systems, plan, gate, workers);
}

// The buffers of all systems, in order.
fn finish<'b, S: System>(
    board: Board,
    systems: &[S],
    fact: &TickFact<'b, S>,
    mut workers: Vec<Worker>,
) -> Vec<Buffer>
    requires board { length (preds_in board) ≡ length systems.now }
    requires systems { fact.now.systems.value.now ≡ systems.now }
    requires worked { HaveWorked (IsRightAt S.effect fact.now) (length systems.now)
        board workers.items }
    ensures { map orders_in result.items ≡ orders_of (map S.effect systems.now) fact.now.tick
        (maps_of fact.now.pools.value.items) }
{
    let Some(first) = workers.pop() else {
        unreachable!()
    };
    all_buffers(board, systems, fact, first, workers)
}

/// Runs all systems of a tick on the pools, by these workers: the rows and the orders are those of the
/// systems run one after another. No memory.
pub fn run_prepared<'a, R: Threads + Wait + Sync, S: System + Sync, T: Gate + Sync>(
    rt: &R,
    systems: &'a [S],
    tick: u64,
    plan: Plan,
    mut workers: Vec<Worker>,
    room: SlotsRoom<TickFact<'a, S>>,
    gate: &T,
    pools: &mut Vec<Storage<Row>>,
) -> Vec<Buffer>
    requires tick { tick < 2 ^ 63 }
    requires few { length pools.old.items ≤ 64 }
    requires plan { IsPlanFor S.lists S.limit systems.now pools.old.items plan }
    requires workers { AreLed (IsIdle (length systems.now) plan.board) workers.items }
    requires room { length pools.old.items ≤ room }
    ensures rows { maps_of pools.new.items
        ≡ maps_after_systems (map S.effect systems.now) tick (maps_of pools.old.items) }
    ensures shapes { shapes_of pools.new.items ≡ shapes_of pools.old.items }
    ensures orders { map orders_in result.items
        ≡ orders_of (map S.effect systems.now) tick (maps_of pools.old.items) }
{
    let fact = TickFact {
        systems: Snapshot::of(&systems),
        tick,
        pools: Snapshot::of(&*pools),
    };
    let slots = fill_tick(room, &fact, pools);
    work_led(rt, &slots, &fact, systems, &plan, gate, &mut workers);
    let Plan {
        board,
        parts: _,
        lasts,
    } = plan;
    let buffers = finish(board, systems, &fact, workers);
    close_tick(rt, slots, &fact, &lasts, pools);
    buffers
}
