//! Room made for the lists of a draft before they are read, by the count that stands in front of each.

ghost use Rattle.std.specs.Prelude.{◌≡◌, ◌<◌, ◌-◌, ◌/◌, length, min, OnOk};
ghost use Rattle.snapshot.specs.Reading.{StandsAs, EndsEmpty};

use entity_id::OutOfMemory;
use std::alloc::Global;
use world_model::Rows;
use world_text::Draft;

// How many items a list is to have room for: so many as are counted, but no more than the bytes from a
// place on can hold. What a count alone says is no reason to take memory.
pub fn room_at(bytes: &[u8], at: usize, count: u32, size: usize) -> usize
    requires { 0 < size }
    ensures { result ≡ min count ((length bytes.now - at) / size) }
{
    let left = bytes.len().saturating_sub(at);
    (left / size).min(count as usize)
}

// Makes room for so many slots more.
pub fn reserve_slots(draft: &mut Draft, room: usize) -> Result<(), OutOfMemory>
    ensures { OnOk result (StandsAs draft.old draft.new) }
{
    draft.slots.reserve_exact(room)?;
    draft.settled.reserve_exact(room)?;
    Ok(())
}

// Makes room for so many indices more on the free list.
pub fn reserve_free(draft: &mut Draft, room: usize) -> Result<(), OutOfMemory>
    ensures { OnOk result (StandsAs draft.old draft.new) }
{
    draft.free.reserve_exact(room)?;
    Ok(())
}

// Makes room for so many rows in the last pool, which has none yet.
pub fn reserve_rows(alloc: Global, draft: &mut Draft, room: usize) -> Result<(), OutOfMemory>
    requires { EndsEmpty draft.old.pools.items }
    ensures same { OnOk result (StandsAs draft.old draft.new) }
    ensures pools { OnOk result (length draft.new.pools.items ≡ length draft.old.pools.items) }
    ensures decls { draft.new.decls.items ≡ draft.old.decls.items }
    ensures slots { draft.new.slots.items ≡ draft.old.slots.items }
{
    let rows = Rows::from_vec(Vec::with_capacity(alloc, room)?);
    let last = draft.pools.len() - 1;
    draft.pools[last] = rows;
    Ok(())
}
