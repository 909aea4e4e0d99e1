//! Whether a declaration is a group's.

ghost use Rattle.std.specs.Prelude.{◌≡◌, nat_lt, nat_le, ◌&&◌, length, drop, ◌++◌, is_ok, IfErr, Some};
ghost use Rattle.world_model.specs.Groups.{are_declared, are_distinct, group_pools, group_pool_limit, is_well_formed};
ghost use Rattle.group_rules.specs.Families.{decl_refusal, is_admitted};

use super::DeclRefused;
use super::relation::{has_pool, overlap};
use world_model::GroupDecl;

// The most pools that a group names, in its three lists together.
const GROUP_POOL_LIMIT: usize = 8;

/// Whether a declaration is a group's, where pools are numbered from 0 up to `pools`. `NoPool` exactly
/// where it names one that isn't there; else `BadDecl` exactly where it owns no pool, names a pool twice
/// over its three lists, or names more than 8. No memory. (EnTT: the static assertions of
/// `registry.group`, which refuse a group of one component alone; this project lets a group own one pool
/// alone, and has no group that owns none.)
pub fn check(decl: &GroupDecl, pools: u32) -> Result<(), DeclRefused>
    ensures ok { is_ok result ≡ is_admitted pools decl.now }
    ensures refused { IfErr result (λ refused. decl_refusal pools decl.now ≡ Some refused) }
{
    if !are_declared(decl, pools) {
        return Err(DeclRefused::NoPool);
    }
    if !is_well_formed(decl) {
        return Err(DeclRefused::BadDecl);
    }
    Ok(())
}

// Whether every pool that it names is there.
fn are_declared(decl: &GroupDecl, pools: u32) -> bool
    ensures { result ≡ are_declared pools (group_pools decl.now) }
{
    are_below(decl.own.as_slice(), pools)
        && are_below(decl.get.as_slice(), pools)
        && are_below(decl.without.as_slice(), pools)
}

// Whether it owns a pool, names none twice and not more than the limit.
fn is_well_formed(decl: &GroupDecl) -> bool
    ensures { result ≡ is_well_formed decl.now }
{
    let own = decl.own.as_slice();
    let get = decl.get.as_slice();
    let without = decl.without.as_slice();
    !own.is_empty() && are_few(own, get, without) && are_distinct_together(own, get, without)
}

fn are_below(list: &[u32], pools: u32) -> bool
    ensures { result ≡ are_declared pools list.now }
{
    list.iter().all(|pool| *pool < pools)
}

// Whether three lists have not more pools than the limit.
fn are_few(own: &[u32], get: &[u32], without: &[u32]) -> bool
    ensures { result ≡ nat_le (length (own.now ++ get.now ++ without.now)) group_pool_limit }
{
    own.len() <= GROUP_POOL_LIMIT
        && get.len() <= GROUP_POOL_LIMIT
        && without.len() <= GROUP_POOL_LIMIT
        && own.len() + get.len() + without.len() <= GROUP_POOL_LIMIT
}

// Whether three lists name no pool twice: none of them does, and no two of them share one.
#[tactic(auto, using(crate::proofs::DistinctLemmas::distinct_together))]
fn are_distinct_together(own: &[u32], get: &[u32], without: &[u32]) -> bool
    ensures { result ≡ are_distinct (own.now ++ get.now ++ without.now) }
{
    are_distinct(own)
        && are_distinct(get)
        && !overlap(get, own)
        && are_distinct(without)
        && !overlap(without, own)
        && !overlap(without, get)
}

// Whether a list names no pool twice.
fn are_distinct(list: &[u32]) -> bool
    ensures { result ≡ are_distinct list.now }
{
    for place in 0..list.len() {
        if has_pool(&list[place + 1..], list[place]) {
            return false;
        }
    }
    true
}
