//! How many systems write a pool.

ghost use Rattle.std.specs.Prelude.{◌≡◌, ◌≤◌, length};
ghost use Rattle.access_graph.specs.Conflicts.{need, writers};
ghost use Rattle.access_graph.specs.Systems.{system_limit};

use super::conflicting::has_pool;
use world_model::Access;

/// How many of these systems, of which there are at most 64, write a pool: so often it has been written
/// once all of them have run. No memory. (This project's own.)
pub fn writers(accesses: &[Access], pool: u32) -> u32
    requires { length accesses.now ≤ system_limit }
    ensures count { result ≡ writers accesses.now pool }
    ensures within { result ≤ length accesses.now }
{
    accesses
        .iter()
        .filter(|access| has_pool(access.write.as_slice(), pool))
        .count() as u32
}

/// How many of the systems before this one write a pool: so often it has been written once it is this
/// system's turn. At the number of all systems it is how often the pool is written in all. Of systems
/// there are at most 64. No memory. (This project's own.)
pub fn need(accesses: &[Access], system: u32, pool: u32) -> u32
    requires few { length accesses.now ≤ system_limit }
    requires system { system ≤ length accesses.now }
    ensures count { result ≡ need accesses.now system pool }
    ensures within { result ≤ system }
{
    writers(&accesses[..system as usize], pool)
}
