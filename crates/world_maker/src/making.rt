//! Worlds made.

ghost use Rattle.std.specs.Prelude.{◌≡◌, ◌≤◌, replicate, IfOk};
ghost use Rattle.world_model.specs.Slots.{live_slot};
ghost use Rattle.world_maker.specs.MadeWorlds.{IsMade};
ghost use Rattle.world_maker.specs.Making.{rows_of_first};

use super::draws::Draws;
use super::entity_rows::{draw_rows, first_owner};
use super::frame::read_frame;
use super::pools::MadePools;
use entity_id::OutOfMemory;
use std::alloc::Global;
use world_model::{PoolList, Slot, SlotList};
use world_text::Document;

/// How many entities a made world has at most.
pub const COUNT_LIMIT: u32 = 1_000_000;

/// The made world of a number with so many entities, at most [`COUNT_LIMIT`]: a document of nine
/// components, three groups and twelve systems at tick 0, whose rows are told by the draws of the number
/// (`specs/MadeWorlds.antt`). Numbers that are equal modulo 65,537 make the same world. Its cost grows
/// linearly with the count. Refused where memory for it runs out. (This project's own.)
pub fn make_world(alloc: Global, number: u32, count: u32) -> Result<Document, OutOfMemory>
    requires { count ≤ COUNT_LIMIT }
    ensures { IfOk result (IsMade number count) }
{
    let mut document = read_frame(alloc)?;
    let slots = live_slots(alloc, count)?;
    let pools = draw_pools(alloc, number, count)?.into_list(alloc)?;
    document.world.slots = SlotList::from_vec(slots);
    document.world.pools = PoolList::from_vec(pools);
    Ok(document)
}

// So many live slots that nothing had before.
fn live_slots(alloc: Global, count: u32) -> Result<Vec<Slot>, OutOfMemory>
    ensures { IfOk result (λ slots. slots.items ≡ replicate count (live_slot 0)) }
{
    let slot = Slot {
        version: 0,
        live: true,
    };
    let slots = vec![in alloc; slot; count as usize]?;
    Ok(slots)
}

// The rows of so many entities.
fn draw_pools(alloc: Global, number: u32, count: u32) -> Result<MadePools, OutOfMemory>
    ensures { IfOk result (λ pools. pools ≡ rows_of_first number count count) }
{
    let mut pools = MadePools::with_room(alloc, count as usize)?;
    let mut draws = Draws::of(number);
    for index in 0..count {
        let rows = draw_rows(&mut draws, count);
        pools.push(first_owner(index), &rows)?;
    }
    Ok(pools)
}
