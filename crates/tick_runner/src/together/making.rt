//! Workers are made, with all memory that they want.

ghost use Rattle.std.specs.Prelude.{◌≡◌, ◌≤◌, ◌<◌, ◌+◌, false, length, IfOk};
ghost use Rattle.std.specs.List.{All};
ghost use Rattle.ready_board.specs.Seats.{IsSeatOf, view_of};
ghost use Rattle.tick_runner.specs.Working.{AreLed, IsFresh, IsIdle, IsLater};

use crate::worker::Worker;
use entity_id::OutOfMemory;
use ready_board::{Board, BoardSeat};
use std::alloc::Global;
use system_api::{Buffer, POOL_LIMIT};

// So many buffers that take no memory.
fn empty_buffers(alloc: Global, count: usize) -> Result<Vec<Buffer>, OutOfMemory>
    ensures { IfOk result (λ buffers. length buffers.items ≡ count) }
{
    let mut buffers = Vec::with_capacity(alloc, count)?;
    for _place in 0..count {
        buffers.push(Buffer::new(alloc))?;
    }
    Ok(buffers)
}

// A worker that has claimed nothing of so many systems.
fn idle_worker(
    alloc: Global,
    systems: usize,
    board: &Board,
    seat: BoardSeat,
) -> Result<Worker, OutOfMemory>
    requires seat { IsSeatOf board.now seat }
    requires awake { (view_of seat).is_spent ≡ false }
    requires mine { (view_of seat).mine ≡ 0 }
    requires finished { (view_of seat).finished ≡ 0 }
    ensures seat { IfOk result (λ worker. worker.seat ≡ seat) }
    ensures idle { IfOk result (λ worker. IsIdle systems board.now worker) }
{
    let _ = board;
    let buffers = empty_buffers(alloc, systems)?;
    let has_run = vec![in alloc; false; systems]?;
    let room = Vec::with_capacity(alloc, POOL_LIMIT)?;
    Ok(Worker {
        seat,
        buffers,
        has_run,
        room,
    })
}

// The workers but for the one with the first seat.
fn other_workers(
    alloc: Global,
    systems: usize,
    board: &Board,
    seat: &mut BoardSeat,
    count: usize,
) -> Result<Vec<Worker>, OutOfMemory>
    requires fresh { IsFresh board.now seat.old }
    ensures fresh { IfOk result (λ _. IsFresh board.now seat.new) }
    ensures out { IfOk result (λ _. (view_of seat.new).out ≡ (view_of seat.old).out + count) }
    ensures count { IfOk result (λ others. length others.items ≡ count) }
    ensures idle { IfOk result (λ others. All (IsIdle systems board.now) others.items) }
    ensures later { IfOk result (λ others. All IsLater others.items) }
{
    let mut others = Vec::with_capacity(alloc, count)?;
    for _k in 0..count {
        let other = board.split(seat);
        others.push(idle_worker(alloc, systems, board, other)?)?;
    }
    Ok(others)
}

/// The workers of a board of so many systems, the one with the first seat last. Takes memory.
pub fn make_workers(
    alloc: Global,
    systems: usize,
    board: &Board,
    mut seat: BoardSeat,
    workers: u32,
) -> Result<Vec<Worker>, OutOfMemory>
    requires fresh { IsFresh board.now seat }
    requires none { (view_of seat).out ≡ 0 }
    requires some { 0 < workers }
    ensures { IfOk result (λ made. AreLed (IsIdle systems board.now) made.items) }
{
    let mut all = other_workers(alloc, systems, board, &mut seat, workers as usize - 1)?;
    let first = idle_worker(alloc, systems, board, seat)?;
    all.push(first)?;
    Ok(all)
}
