//! One field of a row set.

ghost use Rattle.std.specs.Prelude.{◌≡◌, ◌≢◌, ◌<◌, length, Some, None, false, Err, IsOk, IfErr, OnOk, OnErr};
ghost use Rattle.entity_id.specs.FiniteMap as entries;
ghost use Rattle.world_model.specs.declared.command.Command.TheVariants.{Patch};
ghost use Rattle.world_model.specs.declared.command.Reply.TheVariants.{Done};
ghost use Rattle.world_model.specs.declared.refusal.Refusal.{Refusal};
ghost use Rattle.world_model.specs.Components.{with_field};
ghost use Rattle.world_model.specs.Conditions.{IsAllowed};
ghost use Rattle.world_model.specs.Contents.{pool_at};
ghost use Rattle.registry.specs.Held.{Does, AsBefore, reply_to, refusal_to};
ghost use Rattle.registry.specs.Layout.{world_of, held_of, IsKept};
ghost use Rattle.registry.specs.Packing.{Repacks};
ghost use Rattle.registry.specs.Rooms.{hearings_in};
ghost use Rattle.registry.specs.Spending.{nowhere, once_in, Spends};
ghost use Rattle.signal_sink.specs.Hearings.{HaveSpare};

use super::Parts;
use super::refusing::{entry_refusal, row_of};
use super::rows::change_row;
use entity_id::Entity;
use signal_sink::Listener;
use world_model::{Refusal, Row};

// Sets one field of a row.
pub fn patch<L: Listener>(
    parts: &mut Parts<L>,
    entity: Entity,
    pool: u32,
    field: u32,
    value: i64,
    growing: bool,
) -> Result<(), Refusal>
    requires consistent { IsKept parts.old }
    requires allowed { IsAllowed (world_of parts.old) (Patch entity pool field value) }
    requires heard { growing ≡ false →
        HaveSpare 1 (hearings_in (held_of parts.old).update pool) }
    ensures consistent { IsKept parts.new }
    ensures ok { OnOk result
        (Does (held_of parts.old) (held_of parts.new) (Patch entity pool field value)) }
    ensures reply { OnOk result
        (reply_to (held_of parts.old) (Patch entity pool field value) ≡ Done) }
    ensures err { OnErr result (AsBefore (held_of parts.old) (held_of parts.new)) }
    ensures cause { IfErr result (λ refused. refused ≢ Refusal.OutOfMemory →
        refusal_to (held_of parts.old) (Patch entity pool field value) ≡ Some refused) }
    ensures refused { (cause : Refusal) →
        refusal_to (held_of parts.old) (Patch entity pool field value) ≡ Some cause → result ≡ Err cause }
    ensures packed { OnOk result
        (Repacks (held_of parts.old) (held_of parts.new) (Patch entity pool field value)) }
    ensures never { growing ≡ false → IfErr result (λ refused. refused ≢ Refusal.OutOfMemory) }
    ensures spends { Spends nowhere (once_in pool) (held_of parts.old) (held_of parts.new) }
{
    if let Some(refused) = entry_refusal(parts, entity, pool) {
        return Err(refused);
    }
    match row_of(parts, entity, pool) {
        Some(row) => patch_found(parts, entity, pool, row, field, value, growing),
        None => Err(Refusal::Absent),
    }
}

// Sets one field of a row that was found. It is refused for want of memory alone.
pub fn patch_found<L: Listener>(
    parts: &mut Parts<L>,
    entity: Entity,
    pool: u32,
    row: Row,
    field: u32,
    value: i64,
    growing: bool,
) -> Result<(), Refusal>
    requires consistent { IsKept parts.old }
    requires allowed { IsAllowed (world_of parts.old) (Patch entity pool field value) }
    requires heard { growing ≡ false →
        HaveSpare 1 (hearings_in (held_of parts.old).update pool) }
    requires declared { pool < length parts.old.decls }
    requires passes { refusal_to (held_of parts.old) (Patch entity pool field value) ≡ None }
    requires found { entries.get (pool_at (world_of parts.old) pool) entity ≡ Some row }
    ensures consistent { IsKept parts.new }
    ensures ok { OnOk result
        (Does (held_of parts.old) (held_of parts.new) (Patch entity pool field value)) }
    ensures reply { OnOk result
        (reply_to (held_of parts.old) (Patch entity pool field value) ≡ Done) }
    ensures err { OnErr result (AsBefore (held_of parts.old) (held_of parts.new)) }
    ensures cause { IfErr result (λ refused. refused ≡ Refusal.OutOfMemory) }
    ensures packed { OnOk result
        (Repacks (held_of parts.old) (held_of parts.new) (Patch entity pool field value)) }
    ensures never { growing ≡ false → IsOk result }
    ensures spends { Spends nowhere (once_in pool) (held_of parts.old) (held_of parts.new) }
{
    change_row(parts, entity, pool, with_field(row, field, value), growing)
}

// The row with one field set, where it has the field.
fn with_field(row: Row, field: u32, value: i64) -> Row
    ensures { result ≡ with_field row field value }
{
    let mut f = row.f;
    if (field as usize) < 4 {
        f[field as usize] = value;
    }
    Row { f }
}
