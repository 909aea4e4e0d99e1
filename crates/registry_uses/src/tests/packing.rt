//! Where packed lists go.

use super::samples::{FIRST, SECOND, Sample, entity};
use std::test::Fail;
use world_model::Refusal;

#[test]
fn identifiers_of_a_pool_are_lent_in_packed_order(rt: HostRuntime) -> Result<(), Fail> {
    let sample = Sample::load(rt.alloc())?;
    sample.lists(&rt, 0, Ok(&[FIRST]));
    sample.lists(&rt, 1, Ok(&[FIRST, SECOND]));
    sample.lists(&rt, 2, Err(Refusal::NoPool));
    Ok(())
}

#[test]
fn the_last_takes_the_place_of_one_that_is_erased(rt: HostRuntime) -> Result<(), Fail> {
    let mut sample = Sample::load(rt.alloc())?;
    sample.creates(&rt, Ok(entity(1, 5)));
    sample.adds(&rt, entity(1, 5), 1, 6, Ok(()));
    sample.lists(&rt, 1, Ok(&[FIRST, SECOND, entity(1, 5)]));
    sample.erases(&rt, FIRST, 1, Ok(()));
    sample.lists(&rt, 1, Ok(&[entity(1, 5), SECOND]));
    Ok(())
}

#[test]
fn a_refused_erase_leaves_the_packed_lists(rt: HostRuntime) -> Result<(), Fail> {
    let mut sample = Sample::load(rt.alloc())?;
    sample.adds(&rt, SECOND, 0, 6, Ok(()));
    sample.erases(&rt, entity(0, 9), 0, Err(Refusal::Dead));
    sample.lists(&rt, 0, Ok(&[FIRST, SECOND]));
    sample.lists(&rt, 1, Ok(&[FIRST, SECOND]));
    Ok(())
}

#[test]
fn a_pool_that_is_cleared_has_no_identifiers(rt: HostRuntime) -> Result<(), Fail> {
    let mut sample = Sample::load(rt.alloc())?;
    sample.clears(&rt, 1, Ok(2));
    sample.lists(&rt, 1, Ok(&[]));
    sample.lists(&rt, 0, Ok(&[FIRST]));
    Ok(())
}
