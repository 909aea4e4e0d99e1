//! A listener connected for a while.

ghost use Rattle.std.specs.Prelude.{◌≡◌, ◌≢◌, ◌+◌, [], ◌∷◌, length, true, if◌then◌else◌, false, IfOk, IfErr, OnOk, OnErr};
ghost use Rattle.signal_sink.specs.Hearings.{listener_limit};
ghost use Rattle.world_model.specs.declared.command.Command.TheVariants.{Destroy, Valid};
ghost use Rattle.world_model.specs.declared.command.Reply.TheVariants.{Truth};
ghost use Rattle.world_model.specs.declared.event.EventKind.TheVariants as event;
ghost use Rattle.world_model.specs.Contents.{has_row};
ghost use Rattle.world_model.specs.Outcomes.{tells};
ghost use Rattle.world_model.specs.Steps.{step};
ghost use Rattle.registry.specs.Held.{reply_to};
ghost use Rattle.registry.specs.Listeners.{listeners_at};
ghost use Rattle.registry.specs.Packing.{packed_after};
ghost use Rattle.registry_uses.specs.Scenes.{IsScene};

use crate::beginning::POSITION;
use entity_id::Entity;
use registry::{Registry, packing_without_groups};
use signal_sink::Recorder;
use sparse_set::Steps;
use std::alloc::Global;
use std::sync::ledger::Ledger;
use world_model::{EventKind, Refusal};

/// Destroys an entity while a recorder listens for places that go, and gives the recorder back: it
/// heard of the entity's place, where it had one, and of nothing else. `TooMany` where 8 listeners
/// have been connected there before, then `Dead` exactly where the entity isn't live, and
/// `OutOfMemory`; then the world and the packed order of each pool are as before. A call that ends
/// well or with `Dead` uses up one of those 8 connections for ever, so that on one registry the ninth
/// such call is `TooMany`. (EnTT: `registry.on_destroy<position>().connect<..>()`.)
pub fn heard_of_end<G: Ledger>(
    alloc: Global,
    registry: &mut Registry<Recorder>,
    entity: Entity,
    steps: &mut Steps<G>,
) -> Result<Recorder, Refusal>
    requires { IsScene registry.old }
    ensures scene { IsScene registry.new }
    ensures heard { IfOk result (λ recorder. recorder.heard ≡
        (if has_row registry.old.world POSITION entity
        then tells event.Destroy POSITION entity ∷ [] else [])) }
    ensures world { OnOk result (registry.new.world ≡
        (step registry.old.limit registry.old.world (Destroy entity)).world) }
    ensures packed { OnOk result (registry.new.packed ≡ packed_after registry.old (Destroy entity)) }
    ensures was_live { OnOk result (reply_to registry.old (Valid entity) ≡ Truth true) }
    ensures err { OnErr result (registry.new.world ≡ registry.old.world) }
    ensures same_order { OnErr result (registry.new.packed ≡ registry.old.packed) }
    ensures dead { IfErr result (λ refused. refused ≡ Refusal.Dead →
        reply_to registry.old (Valid entity) ≡ Truth false) }
    ensures too_many { IfErr result (λ refused. refused ≡ Refusal.TooMany →
        length (listeners_at registry.old event.Destroy POSITION) ≡ listener_limit) }
    ensures used { OnOk result (length (listeners_at registry.new event.Destroy POSITION)
        ≡ length (listeners_at registry.old event.Destroy POSITION) + 1) }
    ensures used_by_dead { IfErr result (λ refused. refused ≡ Refusal.Dead →
        length (listeners_at registry.new event.Destroy POSITION)
        ≡ length (listeners_at registry.old event.Destroy POSITION) + 1) }
    ensures cause { IfErr result (λ refused. refused ≢ Refusal.Dead →
        refused ≢ Refusal.TooMany → refused ≡ Refusal.OutOfMemory) }
{
    registry.law();
    packing_without_groups();
    let number = match registry.connect(EventKind::Destroy, POSITION, Recorder::new(alloc)) {
        Ok(number) => number,
        Err(refused) => return Err(refused.cause),
    };
    let ended = registry.destroy(entity, steps);
    let recorder = registry.disconnect(EventKind::Destroy, POSITION, number)?;
    ended?;
    Ok(recorder)
}
