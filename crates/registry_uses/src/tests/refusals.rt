//! Calls that are refused: nobody hears of them.

use super::samples::{FIRST, SECOND, Sample, entity};
use std::test::Fail;
use world_model::Refusal;

#[test]
fn a_row_is_not_added_where_it_may_not_be(rt: HostRuntime) -> Result<(), Fail> {
    let mut sample = Sample::load(rt.alloc())?;
    sample.adds(&rt, SECOND, 2, 9, Err(Refusal::NoPool));
    sample.adds(&rt, entity(0, 9), 0, 9, Err(Refusal::Dead));
    sample.adds(&rt, FIRST, 0, 9, Err(Refusal::Present));
    sample.lists(&rt, 0, Ok(&[FIRST]));
    sample.has_told(&rt, &[], &[], &[])
}

#[test]
fn a_row_that_is_not_there_is_neither_replaced_nor_patched(rt: HostRuntime) -> Result<(), Fail> {
    let mut sample = Sample::load(rt.alloc())?;
    sample.replaces(&rt, SECOND, 5, Err(Refusal::Absent));
    sample.patches(&rt, SECOND, -6, Err(Refusal::Absent));
    sample.has_told(&rt, &[], &[], &[])
}

#[test]
fn nothing_leaves_a_pool_that_is_not_declared(rt: HostRuntime) -> Result<(), Fail> {
    let mut sample = Sample::load(rt.alloc())?;
    sample.removes(&rt, FIRST, 2, Err(Refusal::NoPool));
    sample.erases(&rt, FIRST, 2, Err(Refusal::NoPool));
    sample.clears(&rt, 2, Err(Refusal::NoPool));
    sample.has_told(&rt, &[], &[], &[])
}
