//! Each call on the pools of a few components: where the groups' members stand, and which calls are refused.

ghost use Rattle.std.specs.Prelude.{◌≡◌, ◌<◌, length};
ghost use Rattle.entity_id.specs.Matching.{is_in};
ghost use Rattle.group_engine.specs.Grouped.{packed_of, AreGrouped};

use super::*;
use crate::testing::has_pool;
use entity_id::{Entity, Pools};
use sparse_set::Steps;
use std::alloc::Global;
use std::marker::Brand;
use std::process::Abort;
use std::sync::ledger::{Blank, Ledger};
use storage::Storage;
use world_model::{GroupDecl, Refusal};

#[test]
fn members_stand_first_in_each_owned_pool_in_one_order(rt: HostRuntime) {
    walk_in::<Brand>(&rt, rt.alloc(), Blank::new(1));
}

fn walk_in<G: Ledger>(rt: &impl Abort, alloc: Global, blank: Blank)
    requires name { blank.name ≡ G.name }
    requires parts { blank.parts ≡ G.parts }
    requires some { 0 < blank.parts }
{
    let (a, b, c) = (entity(4), entity(7), entity(2));
    let mut steps = Steps::<G>::new(blank);
    let mut pools = no_rows(alloc);
    fill(rt, &mut pools[0], &[(a, 10), (b, 20), (c, 30)], &mut steps);
    fill(rt, &mut pools[1], &[(c, 300), (a, 100)], &mut steps);
    fill(rt, &mut pools[2], &[(b, 0)], &mut steps);
    let mut engine = no_groups(alloc, &pools);
    assert_eq!(rt; engine.len(), 0);
    assert_eq!(rt; engine.owner(0), None);

    // Those in pools 0 and 1, and not in pool 2.
    let moving = group(rt, alloc, &[0, 1], &[], &[2]);
    assert_eq!(rt; engine.find(&moving), Ok(None));
    assert_eq!(rt; engine.build(moving, &mut pools, &mut steps), Ok(0));
    assert_members(rt, &engine, &pools, 0, &[a, c]);
    assert_rows(rt, &engine, &pools, 0, 0, &[10, 30]);
    assert_rows(rt, &engine, &pools, 0, 1, &[100, 300]);
    assert_eq!(rt; pools[0].entities(), [a, c, b].as_slice());
    assert_eq!(rt; engine.owner(1), Some(0));
    assert_eq!(rt; engine.owner(2), None);

    // From the last to the first by ascending key.
    try_sort(rt, &engine, &mut pools, 0, &[1, 5], Ok(()), &mut steps);
    assert_members(rt, &engine, &pools, 0, &[c, a]);
    assert_rows(rt, &engine, &pools, 0, 1, &[300, 100]);
    refuse_in(rt, alloc, &mut engine, &mut pools, &mut steps);
}

// What is refused, and that a group stands once.
fn refuse_in<G: Ledger>(
    rt: &impl Abort,
    alloc: Global,
    engine: &mut GroupEngine,
    pools: &mut [Storage<u16>; 3],
    steps: &mut Steps<G>,
)
    requires pools { engine.old.pools ≡ 3 }
    requires grouped { AreGrouped engine.old.decls engine.old.lens (packed_of pools.old) }
{
    let missing = group(rt, alloc, &[0, 3], &[], &[]);
    try_build(rt, engine, pools, missing, Err(Refusal::NoPool), steps);
    let twice = group(rt, alloc, &[0, 1], &[1], &[]);
    try_build(rt, engine, pools, twice, Err(Refusal::BadDecl), steps);
    let beside = group(rt, alloc, &[1, 2], &[], &[]);
    let refused = Refusal::Conflict { with: 0 };
    try_build(rt, engine, pools, beside, Err(refused), steps);
    let same = group(rt, alloc, &[1, 0], &[], &[2]);
    assert_eq!(rt; engine.find(&same), Ok(Some(0)));
    try_build(rt, engine, pools, same, Ok(0), steps);
    assert_eq!(rt; engine.names(2), true);
    assert_eq!(rt; engine.names(3), false);

    // The first group is inner to this one.
    let outer = group(rt, alloc, &[0], &[], &[]);
    try_build(rt, engine, pools, outer, Ok(1), steps);
    let refused = SortRefused::HasInner { with: 0 };
    try_sort(rt, engine, pools, 1, &[1, 2, 3], Err(refused), steps);
    assert_eq!(rt; engine.decls().len(), 2);
    assert_eq!(rt; engine.len(), 2);
    assert_eq!(rt; engine.decl(1).own.as_slice(), [0].as_slice());
}

#[test]
fn laws_are_called_at_no_values() {
    groups_are_lawful();
    groups_after_changes::<u16>(&[]);
}

#[test]
fn members_come_and_go_with_rows(rt: HostRuntime) {
    change_in::<Brand>(&rt, rt.alloc(), Blank::new(1));
}

// Pool 0 is owned, pool 1 observed and pool 2 excluded.
fn change_in<G: Ledger>(rt: &impl Abort, alloc: Global, blank: Blank)
    requires name { blank.name ≡ G.name }
    requires parts { blank.parts ≡ G.parts }
    requires some { 0 < blank.parts }
{
    let (a, b) = (entity(4), entity(7));
    let mut steps = Steps::<G>::new(blank);
    let mut pools = no_rows(alloc);
    let mut engine = no_groups(alloc, &pools);
    let decl = group(rt, alloc, &[0], &[1], &[2]);
    try_build(rt, &mut engine, &mut pools, decl, Ok(0), &mut steps);
    put(rt, &mut engine, &mut pools, a, 0, &mut steps);
    put(rt, &mut engine, &mut pools, b, 0, &mut steps);
    assert_members(rt, &engine, &pools, 0, &[]);
    put(rt, &mut engine, &mut pools, b, 1, &mut steps);
    assert_members(rt, &engine, &pools, 0, &[b]);
    put(rt, &mut engine, &mut pools, a, 1, &mut steps);
    assert_members(rt, &engine, &pools, 0, &[b, a]);
    put(rt, &mut engine, &mut pools, b, 2, &mut steps);
    assert_members(rt, &engine, &pools, 0, &[a]);
    take(&mut engine, &mut pools, b, 2, &mut steps);
    assert_members(rt, &engine, &pools, 0, &[a, b]);
    take(&mut engine, &mut pools, a, 0, &mut steps);
    assert_members(rt, &engine, &pools, 0, &[b]);
    clear(&mut engine, &mut pools, 1, &mut steps);
    assert_members(rt, &engine, &pools, 0, &[]);
    assert_eq!(rt; pools[0].entities(), [b].as_slice());
}

// Adds a row to a pool, and the groups hear of it.
fn put<G: Ledger>(
    rt: &impl Abort,
    engine: &mut GroupEngine,
    pools: &mut [Storage<u16>; 3],
    entity: Entity,
    pool: u32,
    steps: &mut Steps<G>,
)
    requires pool { pool < 3 }
    requires pools { engine.old.pools ≡ 3 }
    requires grouped { AreGrouped engine.old.decls engine.old.lens (packed_of pools.old) }
    ensures pools { engine.new.pools ≡ 3 }
    ensures grouped { AreGrouped engine.new.decls engine.new.lens (packed_of pools.new) }
{
    groups_after_changes(&[0u16]);
    if pools[pool as usize].emplace(entity, 0, steps).is_err() {
        panic!(rt; "no memory");
    }
    engine.after_add(pools, entity, pool, steps);
}

// Takes a row out of a pool, once the groups heard of it.
fn take<G: Ledger>(
    engine: &mut GroupEngine,
    pools: &mut [Storage<u16>; 3],
    entity: Entity,
    pool: u32,
    steps: &mut Steps<G>,
)
    requires pool { pool < 3 }
    requires pools { engine.old.pools ≡ 3 }
    requires grouped { AreGrouped engine.old.decls engine.old.lens (packed_of pools.old) }
    ensures pools { engine.new.pools ≡ 3 }
    ensures grouped { AreGrouped engine.new.decls engine.new.lens (packed_of pools.new) }
{
    groups_after_changes(&[0u16]);
    if !has(pools, entity, pool) {
        return;
    }
    engine.before_remove(pools, entity, pool, steps);
    let _ = pools[pool as usize].erase(entity, steps);
}

// Empties a pool, once the groups heard of it.
fn clear<G: Ledger>(
    engine: &mut GroupEngine,
    pools: &mut [Storage<u16>; 3],
    pool: u32,
    steps: &mut Steps<G>,
)
    requires pool { pool < 3 }
    requires pools { engine.old.pools ≡ 3 }
    requires grouped { AreGrouped engine.old.decls engine.old.lens (packed_of pools.old) }
    ensures pools { engine.new.pools ≡ 3 }
    ensures grouped { AreGrouped engine.new.decls engine.new.lens (packed_of pools.new) }
{
    groups_after_changes(&[0u16]);
    engine.before_clear(pools, pool, steps);
    pools[pool as usize].clear();
}

// Whether an identifier is in a pool.
fn has(pools: &[Storage<u16>], entity: Entity, pool: u32) -> bool
    ensures { result ≡ is_in (packed_of pools.now) entity pool }
{
    match pools.get(pool as usize) {
        Some(stored) => stored.index().contains(entity),
        None => false,
    }
}

// Builds a group, with this answer.
fn try_build<G: Ledger>(
    rt: &impl Abort,
    engine: &mut GroupEngine,
    pools: &mut [Storage<u16>; 3],
    decl: GroupDecl,
    answer: Result<u32, Refusal>,
    steps: &mut Steps<G>,
)
    requires pools { engine.old.pools ≡ 3 }
    requires grouped { AreGrouped engine.old.decls engine.old.lens (packed_of pools.old) }
    ensures pools { engine.new.pools ≡ 3 }
    ensures grouped { AreGrouped engine.new.decls engine.new.lens (packed_of pools.new) }
{
    assert_eq!(rt; engine.build(decl, pools, steps), answer);
}

// Sorts a group of as many members as there are keys, with this answer.
fn try_sort<G: Ledger>(
    rt: &impl Abort,
    engine: &GroupEngine,
    pools: &mut [Storage<u16>; 3],
    group: u32,
    keys: &[i64],
    answer: Result<(), SortRefused>,
    steps: &mut Steps<G>,
)
    requires pools { engine.now.pools ≡ 3 }
    requires grouped { AreGrouped engine.now.decls engine.now.lens (packed_of pools.old) }
    ensures grouped { AreGrouped engine.now.decls engine.now.lens (packed_of pools.new) }
{
    assert!(rt; group < engine.len());
    let members = engine.members(pools, group).len();
    assert_eq!(rt; keys.len(), members);
    assert_eq!(rt; engine.sort_group(pools, group, keys, steps), answer);
}

fn assert_members(
    rt: &impl Abort,
    engine: &GroupEngine,
    pools: &[Storage<u16>; 3],
    group: u32,
    members: &[Entity],
)
    requires pools { engine.now.pools ≡ 3 }
    requires grouped { AreGrouped engine.now.decls engine.now.lens (packed_of pools.now) }
{
    assert!(rt; group < engine.len());
    assert_eq!(rt; engine.members(pools, group), members);
}

fn assert_rows(
    rt: &impl Abort,
    engine: &GroupEngine,
    pools: &[Storage<u16>; 3],
    group: u32,
    pool: u32,
    rows: &[u16],
)
    requires pools { engine.now.pools ≡ 3 }
    requires grouped { AreGrouped engine.now.decls engine.now.lens (packed_of pools.now) }
{
    assert!(rt; group < engine.len());
    assert!(rt; has_pool(engine.decl(group).own.as_slice(), pool));
    assert_eq!(rt; engine.rows(pools, group, pool), rows);
}

// Three pools without a row.
fn no_rows(alloc: Global) -> [Storage<u16>; 3] {
    [
        Storage::new(alloc),
        Storage::new(alloc),
        Storage::new(alloc),
    ]
}

// No groups over these pools.
fn no_groups(alloc: Global, pools: &[Storage<u16>; 3]) -> GroupEngine
    ensures pools { result.pools ≡ 3 }
    ensures grouped { AreGrouped result.decls result.lens (packed_of pools.now) }
{
    let _pools = pools;
    GroupEngine::new(alloc, 3)
}

fn entity(index: u32) -> Entity {
    Entity { index, version: 0 }
}

fn group(rt: &impl Abort, alloc: Global, own: &[u32], get: &[u32], without: &[u32]) -> GroupDecl {
    GroupDecl {
        own: pools_of(rt, alloc, own),
        get: pools_of(rt, alloc, get),
        without: pools_of(rt, alloc, without),
    }
}

fn pools_of(rt: &impl Abort, alloc: Global, list: &[u32]) -> Pools {
    Pools::from_vec(Vec::from_slice(alloc, list).expect(rt, "memory"))
}

fn fill<G: Ledger>(
    rt: &impl Abort,
    pool: &mut Storage<u16>,
    rows: &[(Entity, u16)],
    steps: &mut Steps<G>,
) {
    for row in rows {
        assert_eq!(rt; pool.emplace(row.0, row.1, steps), Ok(()));
    }
}
