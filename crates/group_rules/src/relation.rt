//! How two groups stand to each other.

ghost use Rattle.std.specs.Prelude.{◌≡◌, not};
ghost use Rattle.std.specs.List.{list_any};
ghost use Rattle.world_model.specs.Groups.{has_pool, includes, is_inner, is_same_group, is_apart, groups_conflict};
ghost use Rattle.group_rules.specs.Families.{relation_of};

use world_model::GroupDecl;

/// How one group stands to another. (EnTT's assertion `Conflicting groups`; the words are this project's
/// own.)
#[derive(Clone, Copy, Debug, PartialEq, Eq)]
pub enum Relation {
    /// Each of the three lists has the same pools as the other group's.
    Same,
    /// No pool is owned by both.
    Apart,
    /// Each list of the other group is contained in its own: it is the more restrictive one.
    Inner,
    /// Each of its lists is contained in the other group's own.
    Outer,
    /// Both own a pool, and neither is nested in the other.
    Conflict,
}

/// How `a` stands to `b`: the first of the five relations that holds, where each list is taken as a set.
/// No memory. (EnTT: what `registry.group` asserts of each group that owns one of the pools.)
pub fn relate(a: &GroupDecl, b: &GroupDecl) -> Relation
    ensures { result ≡ relation_of a.now b.now }
{
    if is_same_group(a, b) {
        Relation::Same
    } else if is_apart(a, b) {
        Relation::Apart
    } else if is_inner(a, b) {
        Relation::Inner
    } else if is_inner(b, a) {
        Relation::Outer
    } else {
        Relation::Conflict
    }
}

// Whether two groups have the same lists, as sets.
pub(crate) fn is_same_group(a: &GroupDecl, b: &GroupDecl) -> bool
    ensures { result ≡ is_same_group a.now b.now }
{
    is_inner(a, b) && is_inner(b, a)
}

// Whether two groups own a pool in common, and neither is inner to the other.
pub(crate) fn groups_conflict(a: &GroupDecl, b: &GroupDecl) -> bool
    ensures { result ≡ groups_conflict a.now b.now }
{
    !is_apart(a, b) && !is_inner(a, b) && !is_inner(b, a)
}

// Whether a list of pools has this one.
pub(crate) fn has_pool(pools: &[u32], pool: u32) -> bool
    ensures { result ≡ has_pool pools.now pool }
{
    pools.iter().any(|other| *other == pool)
}

// Whether some pool stands in both lists.
pub(crate) fn overlap(pools: &[u32], others: &[u32]) -> bool
    ensures { result ≡ list_any (has_pool pools.now) others.now }
{
    others.iter().any(|pool| has_pool(pools, *pool))
}

// Whether every pool of the second list is in the first.
fn includes(pools: &[u32], others: &[u32]) -> bool
    ensures { result ≡ includes pools.now others.now }
{
    others.iter().all(|pool| has_pool(pools, *pool))
}

/// Whether a group is inner to another: each list of the outer one is contained in its own. So a group
/// is inner to itself. No memory. (EnTT: the more restrictive of two nested groups.)
pub fn is_inner(inner: &GroupDecl, outer: &GroupDecl) -> bool
    ensures { result ≡ is_inner inner.now outer.now }
{
    includes(inner.own.as_slice(), outer.own.as_slice())
        && includes(inner.get.as_slice(), outer.get.as_slice())
        && includes(inner.without.as_slice(), outer.without.as_slice())
}

fn is_apart(a: &GroupDecl, b: &GroupDecl) -> bool
    ensures { result ≡ is_apart a.now b.now }
{
    !overlap(a.own.as_slice(), b.own.as_slice())
}
