//! Whether a hint is taken, and what it does past the last slot.

ghost use Rattle.std.specs.Prelude.{◌≡◌, ◌+◌, ◌-◌, ◌<◌, ◌≤◌, [], ◌∷◌, ◌++◌, length, replicate, reverse, IsOk, IfOk, OnOk, OnErr};
ghost use Rattle.std.specs.List.{range_with_len};
ghost use Rattle.world_model.specs.Slots.{free_slot, is_plain_hint, live_slot};
ghost use Rattle.entity_slots.specs.Threads.{Threaded};

use crate::identifiers::Identifiers;
use entity_id::{Entity, OutOfMemory, Profile};

// Whether a hint makes a plain creation.
pub(super) fn is_plain_hint(
    profile: Profile,
    limit: u32,
    identifiers: &Identifiers,
    hint: Entity,
) -> bool
    ensures { result ≡ is_plain_hint profile limit identifiers.now.slots hint }
{
    hint.index >= limit
        || hint.version >= profile.version_limit
        || identifiers.is_live_at(hint.index)
}

// Gives out a hint past the end, and answers how many slots that made: those before it are free, in
// ascending order, so that the greatest index is reused first.
pub(super) fn append_past(identifiers: &mut Identifiers, hint: Entity) -> Result<u32, OutOfMemory>
    requires past { length identifiers.old.slots ≤ hint.index }
    requires addressable { hint.index < identifiers.old.null }
    ensures made { IfOk result (λ made. length identifiers.old.slots + made ≡ hint.index + 1) }
    ensures slots { OnOk result (identifiers.new.slots ≡ identifiers.old.slots
        ++ replicate (hint.index - length identifiers.old.slots) (free_slot 0)
        ++ live_slot hint.version ∷ []) }
    ensures free { OnOk result (identifiers.new.free ≡
        reverse (range_with_len (length identifiers.old.slots)
        (hint.index - length identifiers.old.slots)) ++ identifiers.old.free) }
    ensures slots_err { OnErr result (identifiers.new.slots ≡ identifiers.old.slots) }
    ensures free_err { OnErr result (identifiers.new.free ≡ identifiers.old.free) }
    ensures ready { hint.index + 1 ≤ identifiers.old.room → IsOk result }
    ensures null { identifiers.new.null ≡ identifiers.old.null }
    ensures kept { identifiers.old.room ≤ identifiers.new.room }
    ensures fit { OnOk result (hint.index + 1 ≤ identifiers.new.room) }
{
    let first = identifiers.len();
    let made = hint.index - first + 1;
    identifiers.reserve(made as usize)?;
    for _index in first..hint.index {
        identifiers.append_free();
    }
    let _ = identifiers.append(hint.version);
    Ok(made)
}
