//! What is made before the workers of a tick start, and is shared by them.

ghost use Rattle.std.specs.Prelude.{◌≡◌, ◌<◌, ◌≤◌, ℕ, Some, IfOk, length, map, slice_get};
ghost use Rattle.world_model.specs.Frames.{IsLawfulAccess};
ghost use Rattle.access_graph.specs.Systems.{system_limit};
ghost use Rattle.system_api.specs.Running.{sizes_of};
ghost use Rattle.registry.specs.Layout.{maps_of};
ghost use Rattle.registry.specs.Lending.{IsLent};
ghost use Rattle.ready_board.specs.Seats.{view_of};
ghost use Rattle.tick_runner.specs.Plans.{IsPartFor, IsPlanFor};
ghost use Rattle.tick_runner.specs.Working.{IsFresh};

mod buffer;
mod needs;
mod order;

use crate::preparing::sizes;
pub use buffer::{BufferSlot, ReadyBuffer};
use entity_id::OutOfMemory;
use needs::needs_at;
use order::{accesses_of, board_of};
use ready_board::{Board, BoardSeat};
use registry::Shell;
use signal_sink::Listener;
use std::alloc::Global;
use storage::Storage;
use system_api::System;
use world_model::{Access, Row};

/// What one system runs with: the prefix along which it may walk, if one is known; for each pool the
/// version at which it needs the pool; and its buffer.
#[derive(Drop)]
pub struct Part {
    pub prefix: Option<(u32, u32)>,
    pub needs: Vec<u32>,
    pub buffer: BufferSlot,
}

/// What the workers of a tick share beside its systems and its pools: the board on which they claim systems,
/// what each system runs with, and for each pool its last version.
#[derive(Drop)]
pub struct Plan {
    pub board: Board,
    pub parts: Vec<Part>,
    pub lasts: Vec<u32>,
}

// What the system at a place runs with.
fn part_of<S: System, L: Listener>(
    alloc: Global,
    systems: &[S],
    place: usize,
    accesses: &[Access],
    shell: &Shell<L>,
    pools: &[Storage<Row>],
    sizes: &[u32],
) -> Result<Part, OutOfMemory>
    requires place { place < length systems.now }
    requires few { length systems.now ≤ system_limit }
    requires few_pools { length pools.now ≤ 64 }
    requires accesses { accesses.now ≡ map S.lists systems.now }
    requires lent { IsLent shell.now pools.now }
    requires sizes { sizes.now ≡ sizes_of (maps_of pools.now) }
    requires lists { (place : ℕ) (system : S) → slice_get systems.now place ≡ Some system →
        IsLawfulAccess (length pools.now) (S.lists system) }
    ensures { IfOk result (λ part. (system : S) → slice_get systems.now place ≡ Some system →
        IsPartFor S.lists S.limit systems.now pools.now place system part) }
{
    let system = &systems[place];
    let prefix = shell.prefix_for(pools, system.access());
    let needs = needs_at(alloc, accesses, place as u32, pools.len())?;
    let buffer = BufferSlot::new(alloc, system, sizes)?;
    Ok(Part {
        prefix,
        needs,
        buffer,
    })
}

// What each system runs with.
fn parts_of<S: System, L: Listener>(
    alloc: Global,
    systems: &[S],
    accesses: &[Access],
    shell: &Shell<L>,
    pools: &[Storage<Row>],
    sizes: &[u32],
) -> Result<Vec<Part>, OutOfMemory>
    requires few { length systems.now ≤ system_limit }
    requires few_pools { length pools.now ≤ 64 }
    requires accesses { accesses.now ≡ map S.lists systems.now }
    requires lent { IsLent shell.now pools.now }
    requires sizes { sizes.now ≡ sizes_of (maps_of pools.now) }
    requires lists { (place : ℕ) (system : S) → slice_get systems.now place ≡ Some system →
        IsLawfulAccess (length pools.now) (S.lists system) }
    ensures count { IfOk result (λ parts. length parts.items ≡ length systems.now) }
    ensures parts { IfOk result (λ parts. (place : ℕ) (system : S) (part : _) →
        slice_get systems.now place ≡ Some system → slice_get parts.items place ≡ Some part →
        IsPartFor S.lists S.limit systems.now pools.now place system part) }
{
    let mut parts = Vec::with_capacity(alloc, systems.len())?;
    for place in 0..systems.len() {
        parts.push(part_of(alloc, systems, place, accesses, shell, pools, sizes)?)?;
    }
    Ok(parts)
}

/// The plan of a tick of these systems on these pools, and the first seat of its board. Takes memory.
pub fn make_plan<S: System, L: Listener>(
    alloc: Global,
    systems: &[S],
    shell: &Shell<L>,
    pools: &[Storage<Row>],
) -> Result<(Plan, BoardSeat), OutOfMemory>
    requires few { length systems.now ≤ system_limit }
    requires few_pools { length pools.now ≤ 64 }
    requires lent { IsLent shell.now pools.now }
    requires lists { (place : ℕ) (system : S) → slice_get systems.now place ≡ Some system →
        IsLawfulAccess (length pools.now) (S.lists system) }
    ensures plan { IfOk result (λ made. IsPlanFor S.lists S.limit systems.now pools.now made.0) }
    ensures seat { IfOk result (λ made. IsFresh made.0.board made.1) }
    ensures none { IfOk result (λ made. (view_of made.1).out ≡ 0) }
{
    let accesses = accesses_of(alloc, systems)?;
    let sizes = sizes(alloc, pools)?;
    let (board, seat) = board_of(alloc, accesses.as_slice())?;
    let parts = parts_of(alloc, systems, accesses.as_slice(), shell, pools, &sizes)?;
    let lasts = needs_at(
        alloc,
        accesses.as_slice(),
        systems.len() as u32,
        pools.len(),
    )?;
    let plan = Plan {
        board,
        parts,
        lasts,
    };
    Ok((plan, seat))
}
