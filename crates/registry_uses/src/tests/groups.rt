//! Groups made, and walked.

ghost use Rattle.std.specs.Prelude.{◌≡◌, ◌<◌};

use super::queries::pools;
use super::samples::{FIRST, SECOND, Sample, number};
use entity_id::Entity;
use sparse_set::Steps;
use std::alloc::Global;
use std::marker::Brand;
use std::process::Abort;
use std::sync::ledger::{Blank, Ledger};
use std::test::Fail;
use world_model::{GroupDecl, Refusal, Row};

// A group of these pools.
pub fn group(alloc: Global, own: &[u32], get: &[u32], without: &[u32]) -> Result<GroupDecl, Fail> {
    Ok(GroupDecl {
        own: pools(alloc, own)?,
        get: pools(alloc, get)?,
        without: pools(alloc, without)?,
    })
}

impl Sample {
    pub fn groups(&mut self, rt: &impl Abort, decl: GroupDecl, wanted: Result<u32, Refusal>) {
        assert_eq!(rt; self.group::<Brand>(Blank::new(1), decl), wanted);
    }

    fn group<G: Ledger>(&mut self, blank: Blank, decl: GroupDecl) -> Result<u32, Refusal>
        requires name { blank.name ≡ G.name }
        requires parts { blank.parts ≡ G.parts }
        requires some { 0 < blank.parts }
    {
        let mut steps = Steps::<G>::new(blank);
        self.registry.group(decl, &mut steps)
    }

    // The members of a group in packed order.
    pub fn has_members(&self, rt: &impl Abort, group: u32, wanted: Result<&[Entity], Refusal>) {
        assert_eq!(rt; self.registry.members(group), wanted);
    }

    // Their rows in a pool.
    fn has_rows(&self, rt: &impl Abort, group: u32, pool: u32, wanted: Result<&[Row], Refusal>) {
        assert_eq!(rt; self.registry.rows(group, pool), wanted);
    }
}

#[test]
fn the_same_group_in_any_order_has_one_number(rt: HostRuntime) -> Result<(), Fail> {
    let mut sample = Sample::load(rt.alloc())?;
    assert_eq!(rt; sample.registry.groups(), 0);
    sample.groups(&rt, group(rt.alloc(), &[1], &[], &[])?, Ok(0));
    sample.groups(&rt, group(rt.alloc(), &[0, 1], &[], &[])?, Ok(1));
    sample.groups(&rt, group(rt.alloc(), &[1, 0], &[], &[])?, Ok(1));
    assert_eq!(rt; sample.registry.groups(), 2);
    sample.has_members(&rt, 1, Ok(&[FIRST]));
    sample.has_told(&rt, &[], &[], &[])
}

#[test]
fn a_group_is_lent_by_its_number(rt: HostRuntime) -> Result<(), Fail> {
    let mut sample = Sample::load(rt.alloc())?;
    sample.groups(&rt, group(rt.alloc(), &[1], &[], &[0])?, Ok(0));
    match sample.registry.group_decl(0) {
        Ok(decl) => {
            assert_eq!(rt; decl.own.as_slice(), [1].as_slice());
            assert_eq!(rt; decl.get.as_slice(), [].as_slice());
            assert_eq!(rt; decl.without.as_slice(), [0].as_slice());
        }
        Err(refused) => panic!(rt; "{refused:?}"),
    }
    let refused = sample.registry.group_decl(1).err();
    assert_eq!(rt; refused, Some(Refusal::NoGroup));
    sample.has_members(&rt, 0, Ok(&[SECOND]));
    Ok(())
}

#[test]
fn a_group_is_refused_for_the_first_cause(rt: HostRuntime) -> Result<(), Fail> {
    let mut sample = Sample::load(rt.alloc())?;
    sample.groups(
        &rt,
        group(rt.alloc(), &[], &[2], &[])?,
        Err(Refusal::NoPool),
    );
    sample.groups(
        &rt,
        group(rt.alloc(), &[], &[0], &[])?,
        Err(Refusal::BadDecl),
    );
    sample.groups(&rt, group(rt.alloc(), &[0], &[1], &[])?, Ok(0));
    sample.groups(
        &rt,
        group(rt.alloc(), &[0], &[], &[0])?,
        Err(Refusal::BadDecl),
    );
    let apart = group(rt.alloc(), &[0], &[], &[1])?;
    sample.groups(&rt, apart, Err(Refusal::Conflict { with: 0 }));
    assert_eq!(rt; sample.registry.groups(), 1);
    Ok(())
}

#[test]
fn rows_stand_at_the_places_of_the_members(rt: HostRuntime) -> Result<(), Fail> {
    let mut sample = Sample::load(rt.alloc())?;
    sample.groups(&rt, group(rt.alloc(), &[1], &[], &[])?, Ok(0));
    sample.groups(&rt, group(rt.alloc(), &[1], &[0], &[])?, Ok(1));
    sample.has_rows(&rt, 0, 1, Ok(&[number(7), number(8)]));
    sample.has_rows(&rt, 1, 1, Ok(&[number(7)]));
    sample.has_rows(&rt, 2, 2, Err(Refusal::NoGroup));
    sample.has_rows(&rt, 1, 2, Err(Refusal::NoPool));
    sample.has_rows(&rt, 1, 0, Err(Refusal::BadKey));
    sample.has_members(&rt, 2, Err(Refusal::NoGroup));
    Ok(())
}

#[test]
fn entities_enter_a_group_and_leave_it(rt: HostRuntime) -> Result<(), Fail> {
    let mut sample = Sample::load(rt.alloc())?;
    sample.groups(&rt, group(rt.alloc(), &[0, 1], &[], &[])?, Ok(0));
    sample.adds(&rt, SECOND, 0, 9, Ok(()));
    sample.has_members(&rt, 0, Ok(&[FIRST, SECOND]));
    sample.has_rows(&rt, 0, 0, Ok(&[number(4), number(9)]));
    sample.destroys(&rt, FIRST, Ok(()));
    sample.has_members(&rt, 0, Ok(&[SECOND]));
    sample.clears(&rt, 1, Ok(1));
    sample.has_members(&rt, 0, Ok(&[]));
    sample.lists(&rt, 0, Ok(&[SECOND]));
    sample.has_told(&rt, &[SECOND], &[], &[FIRST])
}
