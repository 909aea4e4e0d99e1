ghost use Rattle.std.specs.Prelude.{◌≡◌};
ghost use Rattle.world_model.specs.Slots as slots;

use entity_id::Entity;

/// One index of a registry: its version, and whether an entity has it now. A free slot has the
/// version that its next owner gets.
#[derive(Clone, Copy, Debug, PartialEq, Eq)]
pub struct Slot {
    /// The version of the owner, or of the next one.
    pub version: u32,
    /// Whether an entity has the index now.
    pub live: bool,
}

/// Whether an identifier is live: the slot of its index is, with its version. No memory. (EnTT:
/// `registry.valid(entity)`.)
pub fn is_live(list: &[Slot], entity: Entity) -> bool
    ensures { result ≡ slots.is_live list.now entity }
{
    match list.get(entity.index as usize) {
        Some(slot) => slot.live && slot.version == entity.version,
        None => false,
    }
}
