//! Rows set, patched and removed.

ghost use Rattle.std.specs.Prelude.{◌≡◌, ◌≢◌, pos, true, if◌then◌else◌, Some, OnOk, OnErr, IfErr};
ghost use Rattle.world_model.specs.declared.command.Command.TheVariants.{EmplaceOrReplace, Get, Patch, Remove, Valid};
ghost use Rattle.world_model.specs.declared.command.Reply.TheVariants.{Truth, Values};
ghost use Rattle.world_model.specs.Components.{with_field};
ghost use Rattle.world_model.specs.Contents.{has_row, row_at};
ghost use Rattle.world_model.specs.Refusing.{when_dead};
ghost use Rattle.registry.specs.Held.{AsBefore, Does, reply_to, refusal_to};
ghost use Rattle.registry.specs.Packing.{packed_after};
ghost use Rattle.registry_uses.specs.Moving.{lifted_height};
ghost use Rattle.registry_uses.specs.Scenes.{pair, IsScene};

use crate::beginning::{FROZEN, POSITION, VELOCITY};
use crate::rows::{lifted, pair_of};
use entity_id::Entity;
use registry::{Registry, packing_without_groups};
use signal_sink::Listener;
use sparse_set::Steps;
use std::sync::ledger::Ledger;
use world_model::Refusal;

/// Gives an entity a velocity, its first one or another. `Dead` exactly where it isn't live, and
/// `OutOfMemory`; then all is as before. Takes memory. (EnTT:
/// `registry.emplace_or_replace<velocity>(entity, x, y)`.)
pub fn steer<L: Listener, G: Ledger>(
    registry: &mut Registry<L>,
    entity: Entity,
    x: i64,
    y: i64,
    steps: &mut Steps<G>,
) -> Result<(), Refusal>
    requires { IsScene registry.old }
    ensures scene { IsScene registry.new }
    ensures does { OnOk result (Does registry.old registry.new
        (EmplaceOrReplace entity VELOCITY (pair x y))) }
    ensures packed { OnOk result (registry.new.packed ≡ packed_after registry.old
        (EmplaceOrReplace entity VELOCITY (pair x y))) }
    ensures told { OnOk result (reply_to registry.new (Get entity VELOCITY) ≡ Values (pair x y)) }
    ensures err { OnErr result (AsBefore registry.old registry.new) }
    ensures cause { IfErr result (λ refused. refused ≢ Refusal.OutOfMemory →
        when_dead registry.old.world entity ≡ Some refused) }
{
    registry.law();
    packing_without_groups();
    registry.emplace_or_replace(entity, VELOCITY, pair_of(x, y), steps)
}

/// Adds to the second number of an entity's place, and keeps it within 64 bits. `Dead`, then
/// `Absent`, exactly where it isn't live and where it has no place, and `OutOfMemory`, where a
/// listener finds no room; then all is as before. (EnTT: `registry.get<position>(entity)`, then
/// `registry.patch<position>(entity, ..)`.)
pub fn lift<L: Listener>(registry: &mut Registry<L>, entity: Entity, by: i64) -> Result<(), Refusal>
    requires { IsScene registry.old }
    ensures scene { IsScene registry.new }
    ensures does { OnOk result (Does registry.old registry.new (Patch entity POSITION 1
        (lifted_height (row_at registry.old.world POSITION entity) by))) }
    ensures packed { OnOk result (registry.new.packed ≡ registry.old.packed) }
    ensures lifted { OnOk result (reply_to registry.new (Get entity POSITION) ≡ Values
        (with_field (row_at registry.old.world POSITION entity) 1
        (lifted_height (row_at registry.old.world POSITION entity) by))) }
    ensures err { OnErr result (AsBefore registry.old registry.new) }
    ensures cause { IfErr result (λ refused. refused ≢ Refusal.OutOfMemory →
        refusal_to registry.old (Get entity POSITION) ≡ Some refused) }
{
    registry.law();
    packing_without_groups();
    let place = registry.get(entity, POSITION)?;
    registry.patch(entity, POSITION, 1, lifted(&place, by))
}

/// Marks an entity as frozen, or takes the mark away. `Dead` exactly where it isn't live, and
/// `OutOfMemory`, where it is to be marked; then all is as before. (EnTT:
/// `registry.emplace_or_replace<frozen>(entity)` and `registry.remove<frozen>(entity)`.)
pub fn set_frozen<L: Listener, G: Ledger>(
    registry: &mut Registry<L>,
    entity: Entity,
    frozen: bool,
    steps: &mut Steps<G>,
) -> Result<(), Refusal>
    requires { IsScene registry.old }
    ensures scene { IsScene registry.new }
    ensures does { OnOk result (Does registry.old registry.new (if frozen
        then EmplaceOrReplace entity FROZEN (pair (pos 0) (pos 0)) else Remove entity FROZEN)) }
    ensures packed { OnOk result (registry.new.packed ≡ packed_after registry.old (if frozen
        then EmplaceOrReplace entity FROZEN (pair (pos 0) (pos 0)) else Remove entity FROZEN)) }
    ensures frozen { OnOk result (has_row registry.new.world FROZEN entity ≡ frozen) }
    ensures live { OnOk result (reply_to registry.old (Valid entity) ≡ Truth true) }
    ensures err { OnErr result (AsBefore registry.old registry.new) }
    ensures cause { IfErr result (λ refused. refused ≢ Refusal.OutOfMemory →
        when_dead registry.old.world entity ≡ Some refused) }
{
    registry.law();
    packing_without_groups();
    if frozen {
        registry.emplace_or_replace(entity, FROZEN, pair_of(0, 0), steps)?;
    } else {
        registry.remove(entity, FROZEN, steps)?;
    }
    Ok(())
}
