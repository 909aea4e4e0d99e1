//! The least group of some kind.

ghost use Rattle.std.specs.Prelude.{◌≡◌, ◌≤◌, length};
ghost use Rattle.world_model.specs.Groups.{has_pool, group_limit};
ghost use Rattle.group_engine.specs.Engine.{owner_of, inner_in};

use group_rules::is_inner;
use world_model::GroupDecl;

// The least group that owns a pool.
pub fn owner(decls: &[GroupDecl], pool: u32) -> Option<u32>
    requires { length decls.now ≤ group_limit }
    ensures { result ≡ owner_of decls.now pool }
{
    let group = decls
        .iter()
        .position(|decl| has_pool(decl.own.as_slice(), pool))?;
    Some(group as u32)
}

// The least group that is inner to this one, and not the same.
pub fn inner(decls: &[GroupDecl], decl: &GroupDecl) -> Option<u32>
    requires { length decls.now ≤ group_limit }
    ensures { result ≡ inner_in decls.now decl.now }
{
    let group = decls
        .iter()
        .position(|other| is_inner(other, decl) && !is_inner(decl, other))?;
    Some(group as u32)
}

fn has_pool(pools: &[u32], pool: u32) -> bool
    ensures { result ≡ has_pool pools.now pool }
{
    pools.iter().any(|other| *other == pool)
}
