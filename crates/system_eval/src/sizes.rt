//! The smallest size of a system's own pools.

ghost use Rattle.std.specs.Prelude.{◌≡◌, length, slice_get, IsTrue};
ghost use Rattle.world_model.specs.Frames.{own_pools};
ghost use Rattle.world_model.specs.Groups.{are_declared};
ghost use Rattle.system_eval.specs.Runs.{smaller as smaller_size, least_of, sizes_at, least_size};

use world_model::Access;

/// The smaller of two sizes. No memory.
pub fn smaller(a: u32, b: u32) -> u32
    ensures { result ≡ smaller_size a b }
{
    if b < a { b } else { a }
}

// The smallest size of these pools, of which the first is this one.
fn least_in(sizes: &[u32], pools: &[u32], first: u32) -> u32
    requires { IsTrue (are_declared (length sizes.now) pools.now) }
    ensures { result ≡ least_of first (sizes_at sizes.now pools.now) }
{
    let mut least = first;
    for pool in pools {
        least = smaller(least, sizes[*pool as usize]);
    }
    least
}

// The first pool that a system reads or, where it reads none, writes.
fn first_own(access: &Access) -> Option<u32>
    ensures { result ≡ slice_get (own_pools access.now) 0 }
{
    match access.read.as_slice().first() {
        Some(pool) => Some(*pool),
        None => match access.write.as_slice().first() {
            Some(pool) => Some(*pool),
            None => None,
        },
    }
}

/// The smallest size of a system's own pools, where the pools have these sizes; 0 where it has none.
/// No memory.
pub fn least_own(sizes: &[u32], access: &Access) -> u32
    requires read { IsTrue (are_declared (length sizes.now) access.now.read) }
    requires write { IsTrue (are_declared (length sizes.now) access.now.write) }
    ensures { result ≡ least_size sizes.now (own_pools access.now) }
{
    let Some(first) = first_own(access) else {
        return 0;
    };
    let least = least_in(sizes, access.read.as_slice(), sizes[first as usize]);
    least_in(sizes, access.write.as_slice(), least)
}
