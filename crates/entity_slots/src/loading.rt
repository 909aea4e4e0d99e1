//! Slots and a free list, made into one list of identifiers.

ghost use Rattle.std.specs.Prelude.{◌≡◌, ◌≤◌, [], length, map, IfOk};
ghost use Rattle.world_model.specs.Slots.{live_slot};
ghost use Rattle.entity_slots.specs.Threads.{Threaded, AreListed};

use crate::identifiers::Identifiers;
use entity_id::OutOfMemory;
use std::alloc::Global;
use world_model::Slot;

// The identifiers of these slots, the free ones threaded in this order: the last is made free first.
pub(super) fn thread(
    alloc: Global,
    null: u32,
    slots: &[Slot],
    free: &[u32],
) -> Result<Identifiers, OutOfMemory>
    requires few { length slots.now ≤ null }
    requires listed { AreListed slots.now free.now }
    ensures slots { IfOk result (λ made. made.slots ≡ slots.now) }
    ensures free { IfOk result (λ made. made.free ≡ free.now) }
    ensures null { IfOk result (λ made. made.null ≡ null) }
    ensures room { IfOk result (λ made. length slots.now ≤ made.room) }
{
    let mut made = all_live(alloc, null, slots)?;
    for done in 0..free.len() {
        let index = free[free.len() - 1 - done];
        made.release(index, slots[index as usize].version);
    }
    Ok(made)
}

// The identifiers of these slots, were each of them live.
fn all_live(alloc: Global, null: u32, slots: &[Slot]) -> Result<Identifiers, OutOfMemory>
    requires { length slots.now ≤ null }
    ensures slots { IfOk result (λ made.
        made.slots ≡ map (λ slot. live_slot slot.version) slots.now) }
    ensures free { IfOk result (λ made. made.free ≡ []) }
    ensures null { IfOk result (λ made. made.null ≡ null) }
    ensures room { IfOk result (λ made. length slots.now ≤ made.room) }
{
    let mut made = Identifiers::new(alloc, null);
    made.reserve(slots.len())?;
    for slot in slots {
        let _ = made.append(slot.version);
    }
    Ok(made)
}
