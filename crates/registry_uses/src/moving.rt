//! Entities moved.

ghost use Rattle.std.specs.Prelude.{◌≡◌, ◌≢◌, ◌⊎◌, Some, IfOk, IfErr, OnOk, OnErr};
ghost use Rattle.world_model.specs.declared.command.Command.TheVariants.{Get, Replace};
ghost use Rattle.world_model.specs.declared.command.Reply.TheVariants.{Done};
ghost use Rattle.registry.specs.Held.{AsBefore, Does, reply_to, refusal_to};
ghost use Rattle.registry_uses.specs.Moving.{next_place, IsMoved, IsPartlyMoved};
ghost use Rattle.registry_uses.specs.Scenes.{IsScene};

use crate::beginning::{FROZEN, POSITION, VELOCITY};
use crate::rows::moved_by;
use entity_id::{Entity, Pools};
use registry::{Registry, packing_without_groups};
use signal_sink::Listener;
use std::alloc::Global;
use world_model::Refusal;

/// Moves all that have a place and a velocity and aren't frozen. Refused for want of memory alone,
/// and then each of them is at its next place or where it was. All else of the world is as before,
/// and so is the packed order of each pool. Takes memory. (EnTT: a loop over
/// `registry.view<position, velocity>(entt::exclude<frozen>)`.)
pub fn advance_all<L: Listener>(alloc: Global, registry: &mut Registry<L>) -> Result<(), Refusal>
    requires { IsScene registry.old }
    ensures scene { IsScene registry.new }
    ensures ok { OnOk result (IsMoved registry.old.world registry.new.world) }
    ensures err { OnErr result (IsPartlyMoved registry.old.world registry.new.world) }
    ensures packed { registry.new.packed ≡ registry.old.packed }
    ensures cause { IfErr result (λ refused. refused ≡ Refusal.OutOfMemory) }
{
    registry.law();
    let moving = pools_of(alloc, &[POSITION, VELOCITY])?;
    let frozen = pools_of(alloc, &[FROZEN])?;
    let entities = registry.view(&moving, &frozen)?;
    for entity in entities.as_slice() {
        registry.law();
        advance(registry, *entity)?;
    }
    Ok(())
}

// A list of pools.
pub fn pools_of(alloc: Global, numbers: &[u32]) -> Result<Pools, Refusal>
    ensures ok { IfOk result (λ pools. pools ≡ numbers.now) }
    ensures cause { IfErr result (λ refused. refused ≡ Refusal.OutOfMemory) }
{
    match Vec::from_slice(alloc, numbers) {
        Ok(numbers) => Ok(Pools::from_vec(numbers)),
        Err(_) => Err(Refusal::OutOfMemory),
    }
}

// Moves an entity by its velocity.
fn advance<L: Listener>(registry: &mut Registry<L>, entity: Entity) -> Result<(), Refusal>
    requires { IsScene registry.old }
    ensures scene { IsScene registry.new }
    ensures ok { OnOk result (Does registry.old registry.new
        (Replace entity POSITION (next_place registry.old.world entity))) }
    ensures reply { OnOk result (reply_to registry.old
        (Replace entity POSITION (next_place registry.old.world entity)) ≡ Done) }
    ensures err { OnErr result (AsBefore registry.old registry.new) }
    ensures packed { registry.new.packed ≡ registry.old.packed }
    ensures cause { IfErr result (λ refused. refused ≢ Refusal.OutOfMemory →
        (refusal_to registry.old (Get entity POSITION) ≡ Some refused)
        ⊎ (refusal_to registry.old (Get entity VELOCITY) ≡ Some refused)) }
{
    packing_without_groups();
    let place = registry.get(entity, POSITION)?;
    let velocity = registry.get(entity, VELOCITY)?;
    registry.replace(entity, POSITION, moved_by(&place, &velocity))
}
