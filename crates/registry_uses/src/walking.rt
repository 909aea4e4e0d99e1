//! A group made, and its members moved.

ghost use Rattle.std.specs.Prelude.{◌≡◌, ◌≤◌, ◌+◌, OnOk, OnErr, IfOk, IfErr};
ghost use Rattle.world_model.specs.declared.command.Command.TheVariants.{Group};
ghost use Rattle.registry.specs.Costs.{group_steps};
ghost use Rattle.registry.specs.Held.{AsBefore, Does};
ghost use Rattle.registry.specs.Packing.{Repacks};
ghost use Rattle.registry_uses.specs.Moving.{IsMoved, IsPartlyMoved};
ghost use Rattle.registry_uses.specs.Scenes.{moving_group, IsGroupedScene, IsScene};

use crate::beginning::{FROZEN, POSITION, VELOCITY};
use crate::moving::pools_of;
use crate::rows::moved_by;
use registry::{Registry, packing_without_groups};
use signal_sink::Listener;
use sparse_set::Steps;
use std::alloc::Global;
use std::sync::ledger::Ledger;
use world_model::{GroupDecl, Refusal};

/// The number of the group of those that move, once [`group_moving`] has added it.
pub const MOVING: u32 = 0;

/// Groups those that have a place and a velocity and aren't frozen, and answers the group's number:
/// they come to the front of the packed lists of places and of velocities, in one order, and stay
/// there whatever is called. Refused for want of memory alone, and then all is as before. At most two
/// steps for each place. Takes memory. (EnTT:
/// `registry.group<position, velocity>(entt::exclude<frozen>)`.)
pub fn group_moving<L: Listener, G: Ledger>(
    alloc: Global,
    registry: &mut Registry<L>,
    steps: &mut Steps<G>,
) -> Result<u32, Refusal>
    requires { IsScene registry.old }
    ensures scene { OnOk result (IsGroupedScene registry.new) }
    ensures does { OnOk result (Does registry.old registry.new (Group moving_group)) }
    ensures number { IfOk result (λ number. number ≡ MOVING) }
    ensures packed { OnOk result (Repacks registry.old registry.new (Group moving_group)) }
    ensures steps { steps.new ≤ steps.old + group_steps registry.old.world moving_group }
    ensures err { OnErr result (AsBefore registry.old registry.new) }
    ensures cause { IfErr result (λ refused. refused ≡ Refusal.OutOfMemory) }
{
    let decl = GroupDecl {
        own: pools_of(alloc, &[POSITION, VELOCITY])?,
        get: pools_of(alloc, &[])?,
        without: pools_of(alloc, &[FROZEN])?,
    };
    registry.group(decl, steps)
}

/// Moves the members of the group of those that move, each at its place in the packed lists, and
/// does what [`crate::advance_all`] does without a list of them. Refused for want of memory alone,
/// where a listener finds no room, and then each of them is at its next place or where it was. All
/// else of the world is as before, and so is the packed order of each pool. (EnTT:
/// `for (auto [entity, position, velocity] :
/// registry.group<position, velocity>(entt::exclude<frozen>).each())`, which sets the position.)
pub fn advance_members<L: Listener>(registry: &mut Registry<L>) -> Result<(), Refusal>
    requires { IsGroupedScene registry.old }
    ensures scene { IsGroupedScene registry.new }
    ensures ok { OnOk result (IsMoved registry.old.world registry.new.world) }
    ensures err { OnErr result (IsPartlyMoved registry.old.world registry.new.world) }
    ensures packed { registry.new.packed ≡ registry.old.packed }
    ensures cause { IfErr result (λ refused. refused ≡ Refusal.OutOfMemory) }
{
    registry.law();
    packing_without_groups();
    for place in 0..registry.members(MOVING)?.len() {
        let entity = registry.members(MOVING)?[place];
        let position = registry.rows(MOVING, POSITION)?[place];
        let velocity = registry.rows(MOVING, VELOCITY)?[place];
        registry.replace(entity, POSITION, moved_by(&position, &velocity))?;
    }
    Ok(())
}
