//! Relations, refusals and numbers of the groups of a few components.

use super::*;
use entity_id::Pools;
use std::alloc::Global;
use std::process::Abort;
use world_model::GroupDecl;

#[test]
fn groups_stand_to_each_other_by_their_lists_as_sets(rt: HostRuntime) {
    let none: &[u32] = [].as_slice();
    let moving = group(
        &rt,
        rt.alloc(),
        [0, 1].as_slice(),
        [2].as_slice(),
        [3].as_slice(),
    );
    for (own, get, without, relation) in [
        (
            [1, 0].as_slice(),
            [2].as_slice(),
            [3].as_slice(),
            Relation::Same,
        ),
        (
            [2].as_slice(),
            [0, 1].as_slice(),
            [3].as_slice(),
            Relation::Apart,
        ),
        ([0].as_slice(), none, [3].as_slice(), Relation::Inner),
        ([1].as_slice(), none, none, Relation::Inner),
        (
            [4, 1, 0].as_slice(),
            [5, 2].as_slice(),
            [3].as_slice(),
            Relation::Outer,
        ),
        (
            [0, 1].as_slice(),
            [3].as_slice(),
            [2].as_slice(),
            Relation::Conflict,
        ),
        ([0].as_slice(), [1].as_slice(), none, Relation::Conflict),
    ] {
        let other = group(&rt, rt.alloc(), own, get, without);
        assert_eq!(rt; relate(&moving, &other), relation);
    }
}

#[test]
fn a_declaration_is_refused_for_a_missing_pool_before_its_own_faults(rt: HostRuntime) {
    let none: &[u32] = [].as_slice();
    let eight: &[u32] = [0, 1, 2, 3, 4, 5, 6, 7].as_slice();
    for (own, get, without, answer) in [
        ([9].as_slice(), none, none, Ok(())),
        ([0, 1].as_slice(), [2].as_slice(), [3].as_slice(), Ok(())),
        (eight, none, none, Ok(())),
        (
            [0].as_slice(),
            none,
            [10].as_slice(),
            Err(DeclRefused::NoPool),
        ),
        (none, [10, 10].as_slice(), none, Err(DeclRefused::NoPool)),
        (none, [1].as_slice(), none, Err(DeclRefused::BadDecl)),
        ([1, 0, 1].as_slice(), none, none, Err(DeclRefused::BadDecl)),
        (
            [0].as_slice(),
            [1].as_slice(),
            [1].as_slice(),
            Err(DeclRefused::BadDecl),
        ),
        (eight, [8].as_slice(), none, Err(DeclRefused::BadDecl)),
    ] {
        assert_eq!(rt;
            check(&group(&rt, rt.alloc(), own, get, without), 10),
            answer
        );
    }
}

#[test]
fn nested_groups_are_numbered_and_the_least_conflict_is_named(rt: HostRuntime) {
    let mut family = Family::new(rt.alloc());
    for (own, answer) in [
        ([0].as_slice(), Ok(0)),
        ([0, 1].as_slice(), Ok(1)),
        ([0, 1, 2].as_slice(), Ok(2)),
        ([0, 3].as_slice(), Err(FamilyRefused::Conflict { with: 1 })),
        ([1, 0].as_slice(), Ok(1)),
        ([3].as_slice(), Ok(3)),
    ] {
        assert_eq!(rt;
            add(
                &rt,
                &mut family,
                group(&rt, rt.alloc(), own, [].as_slice(), [].as_slice())
            ),
            answer
        );
    }
    assert_eq!(rt; family.len(), 4);
    assert_eq!(rt; family.decl(1).own.as_slice(), [0, 1].as_slice());
}

#[test]
fn groups_that_observe_more_nest_in_those_that_observe_less(rt: HostRuntime) {
    let mut family = Family::new(rt.alloc());
    for (own, get, answer) in [
        ([0].as_slice(), [2].as_slice(), Ok(0)),
        ([1].as_slice(), [3].as_slice(), Ok(1)),
        ([0, 1].as_slice(), [2, 3].as_slice(), Ok(2)),
        (
            [0, 1].as_slice(),
            [2].as_slice(),
            Err(FamilyRefused::Conflict { with: 1 }),
        ),
    ] {
        assert_eq!(rt;
            add(
                &rt,
                &mut family,
                group(&rt, rt.alloc(), own, get, [].as_slice())
            ),
            answer
        );
    }
}

#[test]
fn the_33rd_group_is_one_too_many(rt: HostRuntime) {
    let mut family = Family::new(rt.alloc());
    for (pool, answer) in (0..32)
        .map(|pool| (pool, Ok(pool)))
        .chain([(32, Err(FamilyRefused::TooMany)), (31, Ok(31))])
    {
        assert_eq!(rt;
            add(
                &rt,
                &mut family,
                group(
                    &rt,
                    rt.alloc(),
                    [pool].as_slice(),
                    [].as_slice(),
                    [].as_slice()
                )
            ),
            answer
        );
    }
}

// The group of these pools.
fn group(rt: &impl Abort, alloc: Global, own: &[u32], get: &[u32], without: &[u32]) -> GroupDecl {
    GroupDecl {
        own: pools(rt, alloc, own),
        get: pools(rt, alloc, get),
        without: pools(rt, alloc, without),
    }
}

fn pools(rt: &impl Abort, alloc: Global, list: &[u32]) -> Pools {
    Pools::from_vec(Vec::from_slice(alloc, list).expect(rt, "memory"))
}

// What the family answers to a group that passes the check.
fn add(rt: &impl Abort, family: &mut Family, decl: GroupDecl) -> Result<u32, FamilyRefused> {
    match check(&decl, 64) {
        Ok(()) => family.add(decl),
        Err(refused) => panic!(rt; "{:?}", refused),
    }
}
