//! Each call that changes nothing.

ghost use Rattle.std.specs.Prelude.{◌≡◌, ◌<◌, length, IfOk};

use super::samples::{FIRST, SECOND, Sample, entity, number};
use entity_id::{Entity, Pools};
use std::alloc::Global;
use std::process::Abort;
use std::test::Fail;
use world_model::{Refusal, Row};

impl Sample {
    pub fn has(&self, rt: &impl Abort, entity: Entity, pool: u32, wanted: Result<Row, Refusal>) {
        assert_eq!(rt; self.registry.get(entity, pool), wanted);
    }

    // The identifiers of a pool in packed order.
    pub fn lists(&self, rt: &impl Abort, pool: u32, wanted: Result<&[Entity], Refusal>) {
        assert_eq!(rt; self.registry.entities(pool), wanted);
    }

    pub fn is_orphan(&self, rt: &impl Abort, entity: Entity, wanted: Result<bool, Refusal>) {
        assert_eq!(rt; self.registry.orphan(entity), wanted);
    }

    // How many slots and entities there are.
    pub fn counts(&self, rt: &impl Abort, size: u32, alive: u32) {
        assert_eq!(rt; self.registry.size(), size);
        assert_eq!(rt; self.registry.alive(), alive);
    }

    pub fn knows(&self, rt: &impl Abort, entity: Entity, wanted: bool) {
        assert_eq!(rt; self.registry.valid(entity), wanted);
    }

    fn finds(&self, rt: &impl Abort, entity: Entity, pool: u32, wanted: Option<Row>) {
        assert_eq!(rt; self.registry.try_get(entity, pool), wanted);
    }

    fn is_in_all(
        &self,
        rt: &impl Abort,
        entity: Entity,
        pools: Pools,
        wanted: Result<bool, Refusal>,
    ) {
        assert_eq!(rt; self.registry.all_of(entity, &pools), wanted);
    }

    fn is_in_any(
        &self,
        rt: &impl Abort,
        entity: Entity,
        pools: Pools,
        wanted: Result<bool, Refusal>,
    ) {
        assert_eq!(rt; self.registry.any_of(entity, &pools), wanted);
    }

    fn views(
        &self,
        rt: &impl Abort,
        alloc: Global,
        all: &[u32],
        without: &[u32],
        wanted: &[Entity],
    ) -> Result<(), Fail>
        requires { 0 < length all.now }
    {
        let list = self
            .registry
            .view(&pools(alloc, all)?, &pools(alloc, without)?)?;
        assert_eq!(rt; list.as_slice(), wanted);
        Ok(())
    }
}

// A list of pools.
pub fn pools(alloc: Global, numbers: &[u32]) -> Result<Pools, Fail>
    ensures { IfOk result (λ pools. pools ≡ numbers.now) }
{
    Ok(Pools::from_vec(Vec::from_slice(alloc, numbers)?))
}

#[test]
fn rows_are_found(rt: HostRuntime) -> Result<(), Fail> {
    let sample = Sample::load(rt.alloc())?;
    sample.has(&rt, FIRST, 0, Ok(number(4)));
    sample.has(&rt, SECOND, 0, Err(Refusal::Absent));
    sample.has(&rt, FIRST, 2, Err(Refusal::NoPool));
    sample.finds(&rt, SECOND, 1, Some(number(8)));
    sample.finds(&rt, SECOND, 0, None);
    sample.finds(&rt, FIRST, 2, None);
    Ok(())
}

#[test]
fn entities_are_in_all_of_some_pools(rt: HostRuntime) -> Result<(), Fail> {
    let sample = Sample::load(rt.alloc())?;
    sample.is_in_all(&rt, FIRST, pools(rt.alloc(), &[0, 1])?, Ok(true));
    sample.is_in_all(&rt, SECOND, pools(rt.alloc(), &[0, 1])?, Ok(false));
    sample.is_in_all(&rt, SECOND, pools(rt.alloc(), &[])?, Ok(true));
    sample.is_in_all(
        &rt,
        FIRST,
        pools(rt.alloc(), &[0, 2])?,
        Err(Refusal::NoPool),
    );
    Ok(())
}

#[test]
fn entities_are_in_one_of_some_pools(rt: HostRuntime) -> Result<(), Fail> {
    let sample = Sample::load(rt.alloc())?;
    sample.is_in_any(&rt, SECOND, pools(rt.alloc(), &[0, 1])?, Ok(true));
    sample.is_in_any(&rt, SECOND, pools(rt.alloc(), &[0])?, Ok(false));
    sample.is_in_any(&rt, FIRST, pools(rt.alloc(), &[])?, Ok(false));
    sample.is_in_any(
        &rt,
        FIRST,
        pools(rt.alloc(), &[0, 2])?,
        Err(Refusal::NoPool),
    );
    Ok(())
}

#[test]
fn an_orphan_is_in_no_pool(rt: HostRuntime) -> Result<(), Fail> {
    let mut sample = Sample::load(rt.alloc())?;
    sample.creates(&rt, Ok(entity(1, 5)));
    sample.is_orphan(&rt, entity(1, 5), Ok(true));
    sample.is_orphan(&rt, SECOND, Ok(false));
    sample.is_orphan(&rt, entity(0, 9), Err(Refusal::Dead));
    Ok(())
}

#[test]
fn views_list_entities_in_ascending_index(rt: HostRuntime) -> Result<(), Fail> {
    let sample = Sample::load(rt.alloc())?;
    sample.views(&rt, rt.alloc(), &[1], &[], &[FIRST, SECOND])?;
    sample.views(&rt, rt.alloc(), &[1, 0], &[], &[FIRST])?;
    sample.views(&rt, rt.alloc(), &[1], &[0], &[SECOND])?;
    sample.views(&rt, rt.alloc(), &[0], &[1], &[])
}
