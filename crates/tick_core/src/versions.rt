//! The versions of pools.

ghost use Rattle.std.specs.Prelude.{◌≡◌, ◌≢◌, ◌+◌, ◌<◌, ◌^◌, ◌++◌, ℕ, length, map, slice_index_or, IsTrue, OnOk, IfOk};
ghost use Rattle.std.specs.FinMap as entries;
ghost use Rattle.world_model.specs.Groups.{has_pool};
ghost use Rattle.tick_core.specs.Layout.{at_zero, version_in, versioned, versions_in};
ghost use Rattle.tick_core.specs.States.{written_pools};

use entity_id::OutOfMemory;
use std::alloc::Global;
use world_model::Access;

// The version of a pool. Where a pool stands twice the first version counts.
#[derive(Clone, Copy, Debug)]
pub(crate) struct PoolVersion {
    pub pool: u32,
    pub version: u32,
}

// Each pool that one of these systems writes, at version 0.
pub(crate) fn first_versions(
    alloc: Global,
    accesses: &[Access],
) -> Result<Vec<PoolVersion>, OutOfMemory>
    ensures { IfOk result (λ versions. versions.items ≡ map at_zero (written_pools accesses.now)) }
{
    let mut versions = Vec::new(alloc);
    for access in accesses {
        push_zeros(&mut versions, access.write.as_slice())?;
    }
    Ok(versions)
}

// Appends pools at version 0.
fn push_zeros(versions: &mut Vec<PoolVersion>, pools: &[u32]) -> Result<(), OutOfMemory>
    ensures { OnOk result (versions.new.items ≡ versions.old.items ++ map at_zero pools.now) }
{
    for pool in pools {
        versions.push(PoolVersion {
            pool: *pool,
            version: 0,
        })?;
    }
    Ok(())
}

// The version of a pool; 0 where there is none.
pub(crate) fn version_of(versions: &[PoolVersion], pool: u32) -> u32
    ensures { result ≡ version_in versions.now pool }
{
    for at in versions {
        if at.pool == pool {
            return at.version;
        }
    }
    0
}

// Where the version of a pool stands.
fn place_of(versions: &[PoolVersion], pool: u32) -> usize
    requires { IsTrue (has_pool (versioned versions.now) pool) }
    ensures within { result < length versions.now }
    ensures pool { (at : PoolVersion) → (slice_index_or versions.now result at).pool ≡ pool }
    ensures first { (k : ℕ) (at : PoolVersion) → k < result →
        (slice_index_or versions.now k at).pool ≢ pool }
{
    for at in 0..versions.len() {
        if versions[at].pool == pool {
            return at;
        }
    }
    unreachable!()
}

// A pool is at the next version.
pub(crate) fn raise(versions: &mut Vec<PoolVersion>, pool: u32)
    requires there { IsTrue (has_pool (versioned versions.old.items) pool) }
    requires room { version_in versions.old.items pool + 1 < 2 ^ 32 }
    ensures pools { versioned versions.new.items ≡ versioned versions.old.items }
    ensures versions { versions_in versions.new.items ≡ entries.insert
        (versions_in versions.old.items) pool (version_in versions.old.items pool + 1) }
{
    let at = place_of(versions, pool);
    versions[at].version += 1;
}
