//! Which systems wait for which, and on what board their workers claim them.

ghost use Rattle.std.specs.Prelude.{◌≡◌, ◌<◌, ◌≤◌, ◌↔◌, map, length, IfOk};
ghost use Rattle.access_graph.specs.Systems.{system_limit};
ghost use Rattle.ready_board.specs.Seats.{preds_in, view_of};
ghost use Rattle.tick_runner.specs.Plans.{ArePredecessors};
ghost use Rattle.tick_runner.specs.Working.{IsFresh};

use access_graph::{Accesses, Graph};
use entity_id::OutOfMemory;
use ready_board::{Board, BoardSeat};
use std::alloc::Global;
use system_api::System;
use world_model::Access;

// The accesses of systems, in order.
pub fn accesses_of<S: System>(alloc: Global, systems: &[S]) -> Result<Accesses, OutOfMemory>
    ensures { IfOk result (λ accesses. accesses ≡ map S.lists systems.now) }
{
    let mut accesses = Accesses::new(alloc);
    for system in systems {
        accesses.push_copy(system.access())?;
    }
    Ok(accesses)
}

// For each system those that come before it, which it waits for, as the bits of a number.
fn preds_of(alloc: Global, accesses: &[Access]) -> Result<Vec<u64>, OutOfMemory>
    requires { length accesses.now ≤ system_limit }
    ensures { IfOk result (λ preds. ArePredecessors accesses.now preds.items) }
{
    let graph = Graph::new(alloc, accesses)?;
    let mut preds = Vec::with_capacity(alloc, accesses.len())?;
    for system in 0..graph.len() {
        preds.push(graph.preds(system))?;
    }
    Ok(preds)
}

// A board on which each system waits for those that come before it, and its first seat.
pub fn board_of(alloc: Global, accesses: &[Access]) -> Result<(Board, BoardSeat), OutOfMemory>
    requires { length accesses.now ≤ system_limit }
    ensures preds { IfOk result (λ made. ArePredecessors accesses.now (preds_in made.0)) }
    ensures seat { IfOk result (λ made. IsFresh made.0 made.1) }
    ensures none { IfOk result (λ made. (view_of made.1).out ≡ 0) }
{
    let preds = preds_of(alloc, accesses)?;
    let made = Board::new(alloc, &preds)?;
    Ok(made)
}
