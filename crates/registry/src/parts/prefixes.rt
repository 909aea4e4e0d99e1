//! Groups whose members are a system's entities.

ghost use Rattle.std.specs.Prelude.{◌≡◌, ◌<◌, ◌≤◌, ◌++◌, length, IsTrue, IfSome};
ghost use Rattle.std.specs.List.{position_from};
ghost use Rattle.world_model.specs.Frames.{own_pools};
ghost use Rattle.world_model.specs.Groups.{has_pool, includes, group_limit};
ghost use Rattle.group_engine.specs.Engine.{decl_at};
ghost use Rattle.registry.specs.Emptying.{emptied_of, IsShell};
ghost use Rattle.registry.specs.Lending.{have_same, has_members_of, prefix_of, prefix_in, IsLent, BeginsWithMembers};

use super::Parts;
use super::lawful::know_each_once;
use super::walking::has_pool;
use group_engine::groups_are_lawful;
use group_rules::pools_of_groups;
use signal_sink::Listener;
use storage::Storage;
use world_model::{Access, GroupDecl, Row};

// The first owned pool of the least group whose members are a system's entities, and how many it has.
// Each pool is looked at, since only its own calls tell that its identifiers are distinct.
pub fn prefix_for<L: Listener>(
    parts: &Parts<L>,
    pools: &[Storage<Row>],
    access: &Access,
) -> Option<(u32, u32)>
    requires shell { IsShell parts.now }
    requires lent { IsLent (emptied_of parts.now) pools.now }
    ensures least { result ≡ prefix_in (emptied_of parts.now) access.now }
    ensures begins { IfSome result (λ prefix.
        BeginsWithMembers access.now pools.now prefix.0 prefix.1) }
{
    let group = group_for(parts.groups.decls(), access)?;
    Some(prefix_of(parts, pools, access, group))
}

// The first owned pool of a group whose members are a system's entities, and how many it has.
fn prefix_of<L: Listener>(
    parts: &Parts<L>,
    pools: &[Storage<Row>],
    access: &Access,
    group: u32,
) -> (u32, u32)
    requires shell { IsShell parts.now }
    requires lent { IsLent (emptied_of parts.now) pools.now }
    requires group { group < length parts.now.groups.decls }
    requires members { IsTrue (has_members_of access.now (decl_at parts.now.groups group)) }
    ensures prefix { result ≡ prefix_of (emptied_of parts.now) group }
    ensures begins { BeginsWithMembers access.now pools.now result.0 result.1 }
{
    know_each_once(pools);
    groups_are_lawful();
    pools_of_groups();
    let _ = parts.groups.decls();
    let own = parts.groups.decl(group).own.as_slice()[0];
    // It is no more than the pool has, of which there are fewer than 2^32.
    let _len = pools[own as usize].len();
    (own, parts.groups.members(pools, group).len() as u32)
}

// The least group whose members are a system's entities.
fn group_for(decls: &[GroupDecl], access: &Access) -> Option<u32>
    requires { length decls.now ≤ group_limit }
    ensures { result ≡ position_from (has_members_of access.now) 0 decls.now }
{
    let group = decls.iter().position(|decl| has_members_of(access, decl))?;
    Some(group as u32)
}

// Whether a group's members are a system's entities.
fn has_members_of(access: &Access, decl: &GroupDecl) -> bool
    ensures { result ≡ has_members_of access.now decl.now }
{
    wants_own_pools(access, decl) && have_same(access.without.as_slice(), decl.without.as_slice())
}

// Whether a group owns or observes just the pools that a system reads or writes.
fn wants_own_pools(access: &Access, decl: &GroupDecl) -> bool
    ensures { result ≡ have_same (own_pools access.now) (decl.now.own ++ decl.now.get) }
{
    let (read, write) = (access.read.as_slice(), access.write.as_slice());
    let (own, get) = (decl.own.as_slice(), decl.get.as_slice());
    both_include(read, write, own, get) && both_include(own, get, read, write)
}

// Whether the first two lists have each pool of the other two.
fn both_include(first: &[u32], second: &[u32], third: &[u32], fourth: &[u32]) -> bool
    ensures { result ≡ includes (first.now ++ second.now) (third.now ++ fourth.now) }
{
    third
        .iter()
        .chain(fourth.iter())
        .all(|pool| is_in_either(first, second, *pool))
}

fn is_in_either(first: &[u32], second: &[u32], pool: u32) -> bool
    ensures { result ≡ has_pool (first.now ++ second.now) pool }
{
    first
        .iter()
        .chain(second.iter())
        .any(|other| *other == pool)
}

// Whether two lists have the same pools.
fn have_same(a: &[u32], b: &[u32]) -> bool
    ensures { result ≡ have_same a.now b.now }
{
    includes(a, b) && includes(b, a)
}

// Whether each of these pools is in a list.
fn includes(list: &[u32], pools: &[u32]) -> bool
    ensures { result ≡ includes list.now pools.now }
{
    pools.iter().all(|pool| has_pool(list, *pool))
}
