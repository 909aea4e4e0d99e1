//! One tick on several threads.

ghost use Rattle.std.specs.Prelude.{◌≡◌, ◌<◌, ◌≤◌, ◌^◌, map, length, IfOk};
ghost use Rattle.std.specs.List.{AllByRecursion};
ghost use Rattle.world_model.specs.Frames.{IsFitSystem};
ghost use Rattle.tick_runner.specs.Ticking.{Ticks};

use crate::applying::apply_all;
use crate::gate::Gate;
use crate::plan::make_plan;
use crate::together::{make_workers, run_prepared};
use crate::versions::{TickFact, systems_keep_frames};
use entity_id::OutOfMemory;
use pool_slots::SlotsRoom;
use registry::{Registry, registries_change_in_parts, worlds_with_other_rows_are_lawful};
use signal_sink::Listener;
use std::alloc::Global;
use std::sync::Wait;
use std::thread::Threads;
use system_api::System;

/// One tick of this number, by 1 to 16 workers: what [`tick_plain`](crate::tick_plain) does, whatever
/// the order in which the workers come to the systems. Takes memory, all of it before the first system
/// runs and after the last one.
pub fn tick_shared<R: Threads + Wait + Sync, S: System + Sync, L: Listener, T: Gate + Sync>(
    rt: &R,
    alloc: Global,
    registry: Registry<L>,
    systems: &[S],
    tick: u64,
    workers: u32,
    gate: &T,
) -> Result<Registry<L>, OutOfMemory>
    requires tick { tick < 2 ^ 63 }
    requires few { length systems.now ≤ 64 }
    requires some { 0 < workers }
    requires most { workers ≤ 16 }
    requires fit { AllByRecursion (λ system. IsFitSystem registry.world.profile registry.world.decls
        (S.lists system) (S.effect system)) systems.now }
    ensures { IfOk result (λ new. Ticks registry new (map S.effect systems.now) tick) }
{
    registry.law();
    worlds_with_other_rows_are_lawful();
    registries_change_in_parts();
    systems_keep_frames(systems);
    let (mut pools, shell) = registry.lend();
    let (plan, seat) = make_plan(alloc, systems, &shell, &pools)?;
    let all = make_workers(alloc, systems.len(), &plan.board, seat, workers)?;
    let room: SlotsRoom<TickFact<'_, S>> = SlotsRoom::new(alloc, pools.len())?;
    let buffers = run_prepared(rt, systems, tick, plan, all, room, gate, &mut pools);
    let mut after = shell.restore(pools);
    apply_all(alloc, &mut after, &buffers)?;
    Ok(after)
}
