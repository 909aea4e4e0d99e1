//! How many bytes the parts of a snapshot take. No clause of what is packed or read rests on these
//! numbers: they say how large a buffer to make, and for how many items to make room.

ghost use Rattle.std.specs.Prelude.{◌≡◌, ◌+◌, ◌*◌, length};
ghost use Rattle.world_model.specs.Components.{kinds_of};

use entity_id::Name;
use world_model::{Decl, World};

/// The bytes of a slot: its state and its version.
pub const SLOT_SIZE: usize = 5;

/// The bytes of an index on the free list.
pub const INDEX_SIZE: usize = 4;

/// The bytes of a row of a component: its index and its values.
pub fn size_of_row(decl: &Decl) -> usize
    ensures { result ≡ 4 + 8 * length (kinds_of decl.now) }
{
    4 + 8 * decl.field_kinds().len()
}

/// The bytes of the first three fields and of the header lines.
pub fn size_of_header(lines: &[Name]) -> usize {
    let mut size = 16usize;
    for line in lines {
        size = size.saturating_add(2).saturating_add(line.as_slice().len());
    }
    size
}

/// The bytes of the other fields.
pub fn size_of_world(world: &World) -> usize {
    let slots = world.slots.as_slice().len().saturating_mul(SLOT_SIZE);
    let free = world.free.as_slice().len().saturating_mul(INDEX_SIZE);
    let mut size = slots.saturating_add(free).saturating_add(12);
    for (decl, rows) in world.decls.as_slice().iter().zip(world.pools.as_slice()) {
        let rows = rows.as_slice().len().saturating_mul(size_of_row(decl));
        size = size.saturating_add(rows).saturating_add(4);
    }
    size
}
