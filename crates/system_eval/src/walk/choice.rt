//! Which pool a walk goes over.

ghost use Rattle.std.specs.Prelude.{◌≡◌, ◌==◌, ℕ, ◌+◌, ◌<◌, ◌≤◌, length, nat_lt, if◌then◌else◌, IfSome};
ghost use Rattle.std.specs.List.{position_from};
ghost use Rattle.entity_id.specs.FiniteMap as entries;
ghost use Rattle.world_model.specs.Frames.{own_pools, pool_limit};
ghost use Rattle.world_model.specs.Ticks.{Maps};
ghost use Rattle.system_api.specs.Registers.{Register, Shows, MayWalkPrefix, pool_of};
ghost use Rattle.system_api.specs.Running.{AreLentFor};
ghost use Rattle.system_eval.specs.Choices.{IsChosen};
ghost use Rattle.system_eval.specs.Runs.{smaller as smaller_size};
ghost use Rattle.system_eval.specs.Walks.{rows_in, own_pool_at};

use super::own::own_pool;
use system_api::Lent;
use world_model::Access;

/// A pool to walk over: its place among a system's own, and how many of its first entities are
/// walked.
#[derive(Clone, Copy)]
pub struct Choice {
    /// The place of the pool.
    pub at: usize,
    /// How many entities.
    pub end: u32,
}

// The one with fewer entities.
fn fewer(a: Choice, b: Choice) -> Choice
    ensures end { result.end ≡ smaller_size a.end b.end }
    ensures at { result.at ≡ (if nat_lt b.end a.end then b.at else a.at) }
{
    if b.end < a.end { b } else { a }
}

// The first of the smallest own pools, and all of its entities.
fn smallest_own(lent: &Lent<'_>, reads: usize) -> Choice
    requires reads { reads ≤ length lent.now.reads }
    requires some { 0 < reads + length lent.now.writes }
    requires few { reads + length lent.now.writes ≤ pool_limit }
    ensures at { result.at < reads + length lent.now.writes }
    ensures end { result.end
        ≡ length (own_pool_at reads lent.now result.at).storage.pairs }
    ensures least { (at : ℕ) → at < reads + length lent.now.writes →
        result.end ≤ length (rows_in (own_pool_at reads lent.now at)) }
{
    let mut best = Choice {
        at: 0,
        end: own_pool(lent, reads, 0).len(),
    };
    for at in 1..reads + lent.writes() {
        let end = own_pool(lent, reads, at).len();
        best = fewer(best, Choice { at, end });
    }
    best
}

// The place of a number.
fn place_in(pools: &[u32], pool: u32) -> Option<usize>
    ensures { result ≡ position_from (λ other. other == pool) 0 pools.now }
{
    pools.iter().position(|other| *other == pool)
}

// The place of a pool among a system's own.
fn own_place(access: &Access, pool: u32) -> Option<usize>
    requires { length (own_pools access.now) ≤ pool_limit }
    ensures there { IfSome result (λ at. at < length (own_pools access.now)) }
    ensures pool { (register : Register) → AreLentFor access.now register →
        IfSome result (λ at. pool_of register pool
        ≡ own_pool_at (length access.now.read) register at) }
{
    match place_in(access.write.as_slice(), pool) {
        Some(at) => Some(access.read.as_slice().len() + at),
        None => place_in(access.read.as_slice(), pool),
    }
}

// The prefix that is lent, if one is and its pool is one of the system's own, and else all of the
// smallest own pool.
fn prefix_or_smallest(access: &Access, lent: &Lent<'_>) -> Choice
    requires pools { AreLentFor access.now lent.now }
    requires prefix { (maps : Maps) → Shows lent.now maps → MayWalkPrefix access.now maps lent.now }
    requires some { 0 < length (own_pools access.now) }
    requires few { length (own_pools access.now) ≤ pool_limit }
    ensures at { result.at < length (own_pools access.now) }
    ensures chosen { (maps : Maps) → Shows lent.now maps →
        entries.HasEachOnce
        (own_pool_at (length access.now.read) lent.now result.at).storage.pairs →
        IsChosen access.now maps lent.now result.at result.end }
{
    let reads = access.read.as_slice().len();
    let Some((pool, count)) = lent.prefix() else {
        return smallest_own(lent, reads);
    };
    match own_place(access, pool) {
        Some(at) => Choice { at, end: count },
        None => smallest_own(lent, reads),
    }
}

/// The pool of a walk: where a prefix is lent, its pool and so many of its first entities, and else
/// the smallest own pool and all of its entities. No memory.
pub fn choose(access: &Access, lent: &Lent<'_>) -> Choice
    requires pools { AreLentFor access.now lent.now }
    requires prefix { (maps : Maps) → Shows lent.now maps → MayWalkPrefix access.now maps lent.now }
    requires some { 0 < length (own_pools access.now) }
    requires few { length (own_pools access.now) ≤ pool_limit }
    ensures at { result.at < length (own_pools access.now) }
    ensures once { entries.HasEachOnce
        (own_pool_at (length access.now.read) lent.now result.at).storage.pairs }
    ensures chosen { (maps : Maps) → Shows lent.now maps →
        IsChosen access.now maps lent.now result.at result.end }
{
    let choice = prefix_or_smallest(access, lent);
    // That no index comes twice is told by the index.
    let _index = own_pool(lent, access.read.as_slice().len(), choice.at).index();
    choice
}
