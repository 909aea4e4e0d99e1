//! Pools and groups sorted.

ghost use Rattle.std.specs.Prelude.{◌≡◌, ◌<◌};

use super::groups::group;
use super::samples::{FIRST, SECOND, Sample};
use sparse_set::Steps;
use std::marker::Brand;
use std::process::Abort;
use std::sync::ledger::{Blank, Ledger};
use std::test::Fail;
use world_model::Refusal;

impl Sample {
    fn sorts(&mut self, rt: &impl Abort, pool: u32, field: u32, wanted: Result<(), Refusal>) {
        assert_eq!(rt; self.sort::<Brand>(Blank::new(1), pool, field), wanted);
    }

    fn sort<G: Ledger>(&mut self, blank: Blank, pool: u32, field: u32) -> Result<(), Refusal>
        requires name { blank.name ≡ G.name }
        requires parts { blank.parts ≡ G.parts }
        requires some { 0 < blank.parts }
    {
        let mut steps = Steps::<G>::new(blank);
        self.registry.sort_pool(pool, field, &mut steps)
    }

    fn sorts_group(
        &mut self,
        rt: &impl Abort,
        group: u32,
        pool: u32,
        field: u32,
        wanted: Result<(), Refusal>,
    ) {
        assert_eq!(rt;
            self.sort_group::<Brand>(Blank::new(1), group, pool, field),
            wanted
        );
    }

    fn sort_group<G: Ledger>(
        &mut self,
        blank: Blank,
        group: u32,
        pool: u32,
        field: u32,
    ) -> Result<(), Refusal>
        requires name { blank.name ≡ G.name }
        requires parts { blank.parts ≡ G.parts }
        requires some { 0 < blank.parts }
    {
        let mut steps = Steps::<G>::new(blank);
        self.registry.sort_group(group, pool, field, &mut steps)
    }
}

#[test]
fn the_walk_of_a_sorted_pool_ascends_from_the_back(rt: HostRuntime) -> Result<(), Fail> {
    let mut sample = Sample::load(rt.alloc())?;
    sample.sorts(&rt, 1, 0, Ok(()));
    sample.lists(&rt, 1, Ok(&[SECOND, FIRST]));
    sample.sorts(&rt, 2, 1, Err(Refusal::NoPool));
    sample.groups(&rt, group(rt.alloc(), &[1], &[], &[])?, Ok(0));
    sample.sorts(&rt, 1, 1, Err(Refusal::BadKey));
    sample.sorts(&rt, 1, 0, Err(Refusal::Owned { by: 0 }));
    sample.has_told(&rt, &[], &[], &[])
}

#[test]
fn the_walk_of_a_sorted_group_ascends_from_the_back(rt: HostRuntime) -> Result<(), Fail> {
    let mut sample = Sample::load(rt.alloc())?;
    sample.groups(&rt, group(rt.alloc(), &[1], &[], &[])?, Ok(0));
    sample.sorts_group(&rt, 0, 1, 0, Ok(()));
    sample.has_members(&rt, 0, Ok(&[SECOND, FIRST]));
    sample.groups(&rt, group(rt.alloc(), &[1], &[0], &[])?, Ok(1));
    sample.has_members(&rt, 0, Ok(&[FIRST, SECOND]));
    sample.sorts_group(&rt, 2, 2, 1, Err(Refusal::NoGroup));
    sample.sorts_group(&rt, 0, 2, 1, Err(Refusal::NoPool));
    sample.sorts_group(&rt, 0, 0, 0, Err(Refusal::BadKey));
    sample.sorts_group(&rt, 0, 1, 1, Err(Refusal::BadKey));
    sample.sorts_group(&rt, 0, 1, 0, Err(Refusal::HasInner { with: 1 }));
    sample.sorts_group(&rt, 1, 0, 0, Ok(()));
    sample.has_told(&rt, &[], &[], &[])
}
