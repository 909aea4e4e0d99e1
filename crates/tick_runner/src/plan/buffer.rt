//! A prepared buffer in a slot, out of which the worker that has claimed its system takes it.

ghost use Rattle.std.specs.Prelude.{◌≡◌, ◌≤◌, ◌<◌, IfOk, IfSome, IsTrue, length};
ghost use Rattle.counted_slot.specs.Counting.{readers};
ghost use Rattle.world_model.specs.Frames.{system_pools};
ghost use Rattle.world_model.specs.Groups.{are_declared};
ghost use Rattle.tick_runner.specs.Running.{IsReady};

use crate::preparing::buffer_for;
use counted_slot::{Counted, Fits, ONE_READER, PRESENT, TAKEN};
use entity_id::OutOfMemory;
use std::alloc::Global;
use std::sync::Wait;
use system_api::{Buffer, System};

/// A buffer that is empty and has room for as many orders as its slot's tag says.
#[derive(Drop)]
pub struct ReadyBuffer {
    pub buffer: Buffer,
}

impl Fits for ReadyBuffer {
    type Tag = u64;

    ghost fits = { λ room ready. IsReady room ready.buffer };
}

/// A slot with a buffer, until a worker takes it. A contract sees for how many orders it has room.
#[derive(Drop)]
pub struct BufferSlot {
    pub slot: Counted<Option<ReadyBuffer>>,
}

// A word's state is its rest by this number.
const STATES: u64 = 4;

// The half of a word where its readers are counted is the rest by this number.
const LOW_HALF: u64 = 0x1_0000_0000;

// How many readers a word counts.
fn reader_count(word: u64) -> u64
    ensures { result ≡ readers word }
{
    word % LOW_HALF / ONE_READER
}

impl BufferSlot {
    /// A slot with a buffer for a system, where the pools have these sizes. Takes memory.
    pub fn new<S: System>(
        alloc: Global,
        system: &S,
        sizes: &[u32],
    ) -> Result<BufferSlot, OutOfMemory>
        requires { IsTrue (are_declared (length sizes.now) (system_pools (S.lists system.now))) }
        ensures { IfOk result (λ made. made.slot ≡ S.limit system.now sizes.now) }
    {
        let buffer = buffer_for(alloc, system, sizes)?;
        let room = system.bound(sizes);
        Ok(BufferSlot {
            slot: Counted::new(Some(ReadyBuffer { buffer }), &room),
        })
    }

    // The buffer, where nobody else is at the slot and it is there.
    fn try_take(&self) -> Option<Buffer>
        ensures { IfSome result (IsReady self.now.slot) }
    {
        let seen = self.slot.load();
        if seen % STATES == TAKEN || reader_count(seen) > 0 {
            return None;
        }
        let (found, claim) = self.slot.turn(seen, seen - seen % STATES + TAKEN);
        if found != seen {
            claim.done();
            return None;
        }
        let ready = claim.put(None, PRESENT)?;
        Some(ready.buffer)
    }

    /// Takes the buffer out. Who comes second would wait for good: only the worker that has claimed the
    /// system comes. No memory.
    pub fn take<R: Wait>(&self, rt: &R) -> Buffer
        ensures { IsReady self.now.slot result }
    {
        for _ in rt.forever() {
            if let Some(buffer) = self.try_take() {
                return buffer;
            }
        }
        unreachable!()
    }
}
