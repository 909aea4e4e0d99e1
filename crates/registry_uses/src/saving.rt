//! A scene saved and loaded.

ghost use Rattle.std.specs.Prelude.{◌≡◌, IfOk};
ghost use Rattle.world_model.specs.declared.command.Command.{Command};
ghost use Rattle.registry.specs.Held.{reply_to};
ghost use Rattle.registry_uses.specs.Scenes.{IsScene};

use crate::beginning::SLOT_LIMIT;
use entity_id::OutOfMemory;
use registry::Registry;
use signal_sink::Listener;
use std::alloc::Global;

/// Another registry of the same world, to which nobody listens: every command is answered there
/// as it is here. `OutOfMemory` where there is no memory for it. (EnTT: `entt::snapshot`, then
/// `entt::snapshot_loader`.)
pub fn copy<L: Listener>(alloc: Global, registry: &Registry<L>) -> Result<Registry<L>, OutOfMemory>
    requires { IsScene registry.now }
    ensures scene { IfOk result (λ copy. IsScene copy) }
    ensures same { IfOk result (λ copy. (command : Command) →
        reply_to copy command ≡ reply_to registry.now command) }
{
    let world = registry.save(0)?;
    Registry::load(alloc, &world, SLOT_LIMIT)
}
