//! What follows from the contract of a tick.

ghost use Rattle.std.specs.Prelude.{◌≡◌, ◌+◌, ℕ, List};
ghost use Rattle.world_model.specs.Ticks.{System, orders_of, order_events, world_after_tick, tick_events};
ghost use Rattle.registry.specs.Held.{Held};
ghost use Rattle.tick_runner.specs.Ticking.{Ticks, world_with_rows};

use world_model::commands_ignore_the_tick;

/// A tick of a registry is a tick of its world: whatever tick number the world of before is given, the
/// world afterwards, at the next number, is the one that the tick leaves, and what the listeners hear are
/// the events of the tick. No memory. (This project's own.)
pub fn registries_tick_as_worlds()
    ensures world { (old new : Held) (systems : List System) (tick : ℕ) →
        Ticks old new systems tick → record new.world { tick = tick + 1 }
        ≡ world_after_tick old.limit systems (record old.world { tick = tick }) }
    ensures events { (held : Held) (systems : List System) (tick : ℕ) →
        order_events held.limit (world_with_rows held systems tick)
        (orders_of systems tick held.world.pools)
        ≡ tick_events held.limit systems (record held.world { tick = tick }) }
{
    commands_ignore_the_tick();
}
