//! Entities made.

ghost use Rattle.std.specs.Prelude.{◌≡◌, ◌≢◌, ◌+◌, ◌≤◌, [], length, Some, Err, IsTrue, IfOk, IfErr, OnOk, OnErr};
ghost use Rattle.world_model.specs.declared.command.Command.TheVariants.{Create, Hint};
ghost use Rattle.world_model.specs.declared.command.Reply.TheVariants.{Made};
ghost use Rattle.world_model.specs.declared.refusal.Refusal.{Refusal};
ghost use Rattle.registry.specs.Held.{Does, AsBefore, reply_to, refusal_to};
ghost use Rattle.registry.specs.Layout.{held_of, IsKept};
ghost use Rattle.registry.specs.Packing.{Repacks};
ghost use Rattle.registry.specs.Rooms.{slots_after};
ghost use Rattle.registry.specs.Running.{hint_needs_slot};
ghost use Rattle.registry.specs.Spending.{nowhere, Spends};

use super::Parts;
use entity_id::Entity;
use entity_slots::CreateRefused;
use signal_sink::Listener;
use world_model::Refusal;

// Makes an identifier.
pub fn create<L: Listener>(parts: &mut Parts<L>) -> Result<Entity, Refusal>
    requires { IsKept parts.old }
    ensures consistent { IsKept parts.new }
    ensures ok { OnOk result (Does (held_of parts.old) (held_of parts.new) Create) }
    ensures reply { IfOk result (λ entity. reply_to (held_of parts.old) Create ≡ Made entity) }
    ensures err { OnErr result (AsBefore (held_of parts.old) (held_of parts.new)) }
    ensures cause { IfErr result (λ refused. refused ≢ Refusal.OutOfMemory →
        refusal_to (held_of parts.old) Create ≡ Some refused) }
    ensures refused { (cause : Refusal) →
        refusal_to (held_of parts.old) Create ≡ Some cause → result ≡ Err cause }
    ensures packed { OnOk result (Repacks (held_of parts.old) (held_of parts.new) Create) }
    ensures reuse { OnErr result (parts.old.slots.free ≡ []) }
    ensures never { slots_after (held_of parts.old) 1
        ≤ length parts.old.slots.slots + parts.old.slots.spare →
        IfErr result (λ refused. refused ≢ Refusal.OutOfMemory) }
    ensures spends { Spends nowhere nowhere (held_of parts.old) (held_of parts.new) }
{
    match parts.slots.create() {
        Ok(entity) => Ok(entity),
        Err(CreateRefused::Full) => Err(Refusal::Full),
        Err(CreateRefused::OutOfMemory) => Err(Refusal::OutOfMemory),
    }
}

// Makes the identifier that is hinted at, where that is possible, and else another.
pub fn create_hint<L: Listener>(parts: &mut Parts<L>, hint: Entity) -> Result<Entity, Refusal>
    requires { IsKept parts.old }
    ensures consistent { IsKept parts.new }
    ensures ok { OnOk result (Does (held_of parts.old) (held_of parts.new) (Hint hint)) }
    ensures reply { IfOk result (λ entity. reply_to (held_of parts.old) (Hint hint) ≡ Made entity) }
    ensures err { OnErr result (AsBefore (held_of parts.old) (held_of parts.new)) }
    ensures cause { IfErr result (λ refused. refused ≢ Refusal.OutOfMemory →
        refusal_to (held_of parts.old) (Hint hint) ≡ Some refused) }
    ensures refused { (cause : Refusal) →
        refusal_to (held_of parts.old) (Hint hint) ≡ Some cause → result ≡ Err cause }
    ensures packed { OnOk result (Repacks (held_of parts.old) (held_of parts.new) (Hint hint)) }
    ensures reuse { OnErr result (IsTrue (hint_needs_slot (held_of parts.old) hint)) }
{
    match parts.slots.create_hint(hint) {
        Ok(entity) => Ok(entity),
        Err(CreateRefused::Full) => Err(Refusal::Full),
        Err(CreateRefused::OutOfMemory) => Err(Refusal::OutOfMemory),
    }
}
