//! Entities made and destroyed.

ghost use Rattle.std.specs.Prelude.{◌≡◌, ◌≢◌, ◌⊎◌, [], ◌∷◌, Some, Err, true, false, is_ok, IfOk, IfErr, OnOk, OnErr};
ghost use Rattle.entity_id.specs.declared.entity.Entity.{Entity};
ghost use Rattle.world_model.specs.declared.command.Command.TheVariants.{Create, Destroy, Emplace, Get, Valid};
ghost use Rattle.world_model.specs.declared.command.Reply.TheVariants.{Made, Refused, Truth, Values};
ghost use Rattle.world_model.specs.declared.refusal.Refusal.{Refusal};
ghost use Rattle.world_model.specs.Slots.{is_live};
ghost use Rattle.registry.specs.Held.{AsBefore, Does, reply_to, refusal_to};
ghost use Rattle.registry.specs.Packing.{appended_in, packed_after};
ghost use Rattle.registry_uses.specs.Scenes.{next_made, pair, DoesAll, IsScene};

use crate::beginning::POSITION;
use crate::rows::pair_of;
use entity_id::Entity;
use registry::{Registry, packing_without_groups};
use signal_sink::Listener;
use sparse_set::Steps;
use std::sync::ledger::Ledger;
use world_model::Refusal;

/// Makes an entity at a place, and changes nothing else: it stands last in the packed list of places.
/// `Full` exactly where no identifier can be made, and then all is as before. `OutOfMemory` only where
/// one can: then all is as before, or an identifier was made and destroyed again, so that the same
/// entities are live, with the same rows in the same packed order, and only the slots and the free list
/// differ. Takes memory. (EnTT: `registry.create()`, then `registry.emplace<position>(entity, x, y)`.)
pub fn spawn<L: Listener, G: Ledger>(
    registry: &mut Registry<L>,
    x: i64,
    y: i64,
    steps: &mut Steps<G>,
) -> Result<Entity, Refusal>
    requires { IsScene registry.old }
    ensures scene { IsScene registry.new }
    ensures made { IfOk result (λ entity. reply_to registry.old Create ≡ Made entity) }
    ensures does { IfOk result (λ entity. DoesAll registry.old registry.new
        (Create ∷ Emplace entity POSITION (pair x y) ∷ [])) }
    ensures live { IfOk result (λ entity. reply_to registry.new (Valid entity) ≡ Truth true) }
    ensures place { IfOk result (λ entity.
        reply_to registry.new (Get entity POSITION) ≡ Values (pair x y)) }
    ensures others { OnOk result ((other : Entity) →
        is_live registry.old.world.slots other ≡ true →
        is_live registry.new.world.slots other ≡ true) }
    ensures packed { IfOk result (λ entity.
        registry.new.packed ≡ appended_in POSITION entity registry.old.packed) }
    ensures cause { IfErr result (λ refused. refused ≢ Refusal.OutOfMemory →
        refusal_to registry.old Create ≡ Some refused) }
    ensures refused { (cause : Refusal) →
        refusal_to registry.old Create ≡ Some cause → result ≡ Err cause }
    ensures full { IfErr result (λ refused. refused ≡ Refusal.Full →
        AsBefore registry.old registry.new) }
    ensures err { OnErr result (AsBefore registry.old registry.new
        ⊎ DoesAll registry.old registry.new (Create ∷ Destroy (next_made registry.old.world) ∷ [])) }
    ensures rows { OnErr result (registry.new.world.pools ≡ registry.old.world.pools) }
    ensures same_order { OnErr result (registry.new.packed ≡ registry.old.packed) }
    ensures unchanged { OnErr result ((other : Entity) →
        is_live registry.new.world.slots other ≡ is_live registry.old.world.slots other) }
{
    registry.law();
    packing_without_groups();
    let entity = registry.create()?;
    match registry.emplace(entity, POSITION, pair_of(x, y), steps) {
        Ok(()) => Ok(entity),
        Err(refused) => {
            let _ = registry.destroy(entity, steps);
            Err(refused)
        }
    }
}

/// Destroys an entity with all its rows: in each pool that it was in, the last identifier of the packed
/// list takes its place. Its identifier isn't live now, and has no row. It can be live
/// again, but only by way of a hint, or once its index was used as often again as there are versions:
/// 4,095 times with `P20_12`. Other entities live on. `Dead` exactly where it isn't live. No memory.
/// (EnTT: `registry.destroy(entity)`.)
pub fn despawn<L: Listener, G: Ledger>(
    registry: &mut Registry<L>,
    entity: Entity,
    steps: &mut Steps<G>,
) -> Result<(), Refusal>
    requires { IsScene registry.old }
    ensures scene { IsScene registry.new }
    ensures does { Does registry.old registry.new (Destroy entity) }
    ensures stale { reply_to registry.new (Valid entity) ≡ Truth false }
    ensures refused { reply_to registry.new (Get entity POSITION) ≡ Refused Refusal.Dead }
    ensures others { (other : Entity) → other ≢ entity →
        is_live registry.old.world.slots other ≡ true →
        is_live registry.new.world.slots other ≡ true }
    ensures packed { OnOk result (registry.new.packed ≡ packed_after registry.old (Destroy entity)) }
    ensures answer { is_ok result ≡ is_live registry.old.world.slots entity }
    ensures err { IfErr result (λ refused. refused ≡ Refusal.Dead) }
    ensures unchanged { OnErr result (AsBefore registry.old registry.new) }
{
    registry.law();
    packing_without_groups();
    registry.destroy(entity, steps)
}

/// Destroys an entity and makes one anew, with the same index and another version, and changes nothing
/// else. The old identifier isn't live now. `Dead` exactly where the entity isn't live, and then all is
/// as before. It is refused for nothing else: the index that is released is there to be used. No memory.
/// (EnTT: `registry.destroy(entity)`, then `registry.create()`.)
pub fn respawn<L: Listener, G: Ledger>(
    registry: &mut Registry<L>,
    entity: Entity,
    steps: &mut Steps<G>,
) -> Result<Entity, Refusal>
    requires { IsScene registry.old }
    ensures scene { IsScene registry.new }
    ensures does { OnOk result (DoesAll registry.old registry.new (Destroy entity ∷ Create ∷ [])) }
    ensures index { IfOk result (λ made. made.index ≡ entity.index) }
    ensures version { IfOk result (λ made. made.version ≢ entity.version) }
    ensures live { IfOk result (λ made. reply_to registry.new (Valid made) ≡ Truth true) }
    ensures stale { reply_to registry.new (Valid entity) ≡ Truth false }
    ensures others { (other : Entity) → other ≢ entity →
        is_live registry.old.world.slots other ≡ true →
        is_live registry.new.world.slots other ≡ true }
    ensures packed { OnOk result (registry.new.packed ≡ packed_after registry.old (Destroy entity)) }
    ensures answer { is_ok result ≡ is_live registry.old.world.slots entity }
    ensures err { IfErr result (λ refused. refused ≡ Refusal.Dead) }
    ensures unchanged { OnErr result (AsBefore registry.old registry.new) }
{
    registry.law();
    packing_without_groups();
    registry.destroy(entity, steps)?;
    registry.create()
}
