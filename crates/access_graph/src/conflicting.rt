//! Whether two systems conflict.

ghost use Rattle.std.specs.Prelude.{◌≡◌};
ghost use Rattle.std.specs.List.{list_any};
ghost use Rattle.world_model.specs.Frames.{system_pools};
ghost use Rattle.world_model.specs.Groups.{has_pool};
ghost use Rattle.access_graph.specs.Conflicts.{systems_conflict};

use world_model::Access;

/// Whether two systems conflict: one writes a pool that the other reads, writes, looks at or excludes. The
/// order of the two doesn't matter, and readers don't conflict. At most as many comparisons as the written
/// pools of each are many, times all pools of the other. No memory. (EnTT: what `organizer.graph()` asks of
/// two functions; that an excluded or a looked up pool counts as read is this project's own.)
pub fn conflicts(a: &Access, b: &Access) -> bool
    ensures { result ≡ systems_conflict a.now b.now }
{
    names_any(b, a.write.as_slice()) || names_any(a, b.write.as_slice())
}

// Whether a system names one of these pools.
fn names_any(access: &Access, pools: &[u32]) -> bool
    ensures { result ≡ list_any (has_pool (system_pools access.now)) pools.now }
{
    pools.iter().any(|pool| names(access, *pool))
}

// Whether a system names a pool, in any of its lists.
fn names(access: &Access, pool: u32) -> bool
    ensures { result ≡ has_pool (system_pools access.now) pool }
{
    has_pool(access.read.as_slice(), pool)
        || has_pool(access.write.as_slice(), pool)
        || has_pool(access.look.as_slice(), pool)
        || has_pool(access.without.as_slice(), pool)
}

// Whether a list of pools has this one.
pub(crate) fn has_pool(pools: &[u32], pool: u32) -> bool
    ensures { result ≡ has_pool pools.now pool }
{
    pools.iter().any(|other| *other == pool)
}
