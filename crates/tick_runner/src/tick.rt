//! One tick.

ghost use Rattle.std.specs.Prelude.{◌≡◌, ◌<◌, ◌^◌, map, IfOk};
ghost use Rattle.std.specs.List.{AllByRecursion};
ghost use Rattle.world_model.specs.Frames.{IsFitSystem};
ghost use Rattle.tick_runner.specs.Ticking.{Ticks};

use crate::applying::apply_all;
use crate::preparing::prepare;
use crate::running::run_all;
use entity_id::OutOfMemory;
use registry::{Registry, registries_change_in_parts, worlds_with_other_rows_are_lawful};
use signal_sink::Listener;
use std::alloc::Global;
use system_api::System;

/// One tick of this number, on one thread: every system once, in order, each on the rows that those
/// before it left; then the orders of each, in the same order, each list beginning with nothing spawned.
/// Each system is fit for the registry's profile and components. The registry holds no tick number: its
/// world is that of the tick but for the number, which stays 0, and each listener hears just the events
/// of the orders. `OutOfMemory` where memory runs out, for a buffer before the first system runs or for
/// an order; then the registry is given up. Takes memory. (EnTT: the vertices of an organizer's graph,
/// each once in order; its deferred commands are this project's own.)
pub fn tick_plain<S: System, L: Listener>(
    alloc: Global,
    registry: Registry<L>,
    systems: &[S],
    tick: u64,
) -> Result<Registry<L>, OutOfMemory>
    requires tick { tick < 2 ^ 63 }
    requires fit { AllByRecursion (λ system. IsFitSystem registry.world.profile registry.world.decls
        (S.lists system) (S.effect system)) systems.now }
    ensures { IfOk result (λ new. Ticks registry new (map S.effect systems.now) tick) }
{
    registry.law();
    worlds_with_other_rows_are_lawful();
    registries_change_in_parts();
    let (mut pools, shell) = registry.lend();
    let mut prepared = prepare(alloc, systems, &shell, &pools)?;
    run_all(
        alloc,
        systems,
        &mut pools,
        &mut prepared.room,
        &prepared.prefixes,
        tick,
        &mut prepared.buffers,
    );
    let mut after = shell.restore(pools);
    apply_all(alloc, &mut after, &prepared.buffers)?;
    Ok(after)
}
