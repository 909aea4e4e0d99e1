//! What is made before systems run: a buffer for each.

ghost use Rattle.std.specs.Prelude.{◌≡◌, ◌≤◌, ℕ, [], Some, IsTrue, IfOk, length, slice_get, vec_capacity};
ghost use Rattle.world_model.specs.Frames.{pool_limit, system_pools, IsLawfulAccess};
ghost use Rattle.world_model.specs.Groups.{are_declared};
ghost use Rattle.system_api.specs.Running.{sizes_of};
ghost use Rattle.registry.specs.Layout.{maps_of};
ghost use Rattle.registry.specs.Lending.{IsLent};
ghost use Rattle.tick_runner.specs.Running.{IsReady, AreReady};
ghost use Rattle.tick_runner.specs.Walking.{ArePrefixesFor};

use entity_id::OutOfMemory;
use registry::Shell;
use signal_sink::Listener;
use std::alloc::Global;
use storage::Storage;
use system_api::{Buffer, LentPool, POOL_LIMIT, System};
use world_model::Row;

/// What systems run with: a list in which pools are lent, and for each system the prefix
/// along which it may walk, if one is known, and a buffer.
#[derive(Drop)]
pub struct Prepared {
    pub room: Vec<LentPool>,
    pub prefixes: Vec<Option<(u32, u32)>>,
    pub buffers: Vec<Buffer>,
}

// How many rows each pool has.
pub fn sizes(alloc: Global, pools: &[Storage<Row>]) -> Result<Vec<u32>, OutOfMemory>
    ensures { IfOk result (λ list. list.items ≡ sizes_of (maps_of pools.now)) }
{
    let mut list = Vec::with_capacity(alloc, pools.len())?;
    for pool in pools {
        list.push(pool.len())?;
    }
    Ok(list)
}

// A buffer with room for as many orders as a system gives at most.
pub fn buffer_for<S: System>(
    alloc: Global,
    system: &S,
    sizes: &[u32],
) -> Result<Buffer, OutOfMemory>
    requires { IsTrue (are_declared (length sizes.now) (system_pools (S.lists system.now))) }
    ensures { IfOk result (λ buffer. IsReady (S.limit system.now sizes.now) buffer) }
{
    let mut buffer = Buffer::new(alloc);
    match buffer.reserve(system.bound(sizes)) {
        Ok(()) => Ok(buffer),
        Err(_) => Err(OutOfMemory),
    }
}

// One for each system.
pub fn buffers_for<S: System>(
    alloc: Global,
    systems: &[S],
    sizes: &[u32],
) -> Result<Vec<Buffer>, OutOfMemory>
    requires { (place : ℕ) (system : S) → slice_get systems.now place ≡ Some system →
        IsTrue (are_declared (length sizes.now) (system_pools (S.lists system))) }
    ensures { IfOk result (λ buffers.
        AreReady S.limit systems.now sizes.now buffers.items) }
{
    let mut buffers = Vec::with_capacity(alloc, systems.len())?;
    for system in systems {
        let buffer = buffer_for(alloc, system, sizes)?;
        buffers.push(buffer)?;
    }
    Ok(buffers)
}

// For each system the prefix along which it may walk, if one is known.
fn prefixes_for<S: System, L: Listener>(
    alloc: Global,
    systems: &[S],
    shell: &Shell<L>,
    pools: &[Storage<Row>],
) -> Result<Vec<Option<(u32, u32)>>, OutOfMemory>
    requires { IsLent shell.now pools.now }
    ensures { IfOk result (λ prefixes.
        ArePrefixesFor S.lists pools.now systems.now prefixes.items) }
{
    let mut prefixes = Vec::with_capacity(alloc, systems.len())?;
    for system in systems {
        prefixes.push(shell.prefix_for(pools, system.access()))?;
    }
    Ok(prefixes)
}

// All memory that the systems want.
pub fn prepare<S: System, L: Listener>(
    alloc: Global,
    systems: &[S],
    shell: &Shell<L>,
    pools: &[Storage<Row>],
) -> Result<Prepared, OutOfMemory>
    requires lent { IsLent shell.now pools.now }
    requires lists { (place : ℕ) (system : S) → slice_get systems.now place ≡ Some system →
        IsLawfulAccess (length pools.now) (S.lists system) }
    ensures list { IfOk result (λ prepared. prepared.room.items ≡ []) }
    ensures room { IfOk result (λ prepared. pool_limit ≤ vec_capacity prepared.room) }
    ensures prefixes { IfOk result (λ prepared.
        ArePrefixesFor S.lists pools.now systems.now prepared.prefixes.items) }
    ensures ready { IfOk result (λ prepared.
        AreReady S.limit systems.now (sizes_of (maps_of pools.now)) prepared.buffers.items) }
{
    let sizes = sizes(alloc, pools)?;
    let buffers = buffers_for(alloc, systems, &sizes)?;
    let prefixes = prefixes_for(alloc, systems, shell, pools)?;
    let room = Vec::with_capacity(alloc, POOL_LIMIT)?;
    Ok(Prepared {
        room,
        prefixes,
        buffers,
    })
}
