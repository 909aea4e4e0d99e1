//! Rows added, replaced and removed, and who hears of it.

use super::samples::{FIRST, SECOND, Sample, entity, number};
use std::test::Fail;
use world_model::Refusal;

#[test]
fn an_added_row_is_found_and_told(rt: HostRuntime) -> Result<(), Fail> {
    let mut sample = Sample::load(rt.alloc())?;
    sample.adds(&rt, SECOND, 0, 9, Ok(()));
    sample.has(&rt, SECOND, 0, Ok(number(9)));
    sample.has_told(&rt, &[SECOND], &[], &[])
}

#[test]
fn a_row_is_added_or_replaced(rt: HostRuntime) -> Result<(), Fail> {
    let mut sample = Sample::load(rt.alloc())?;
    sample.puts(&rt, SECOND, 0, 9, Ok(()));
    sample.puts(&rt, FIRST, 0, 1, Ok(()));
    sample.has(&rt, SECOND, 0, Ok(number(9)));
    sample.has(&rt, FIRST, 0, Ok(number(1)));
    sample.has_told(&rt, &[SECOND], &[FIRST], &[])
}

#[test]
fn a_replaced_row_is_found_and_told(rt: HostRuntime) -> Result<(), Fail> {
    let mut sample = Sample::load(rt.alloc())?;
    sample.replaces(&rt, FIRST, 5, Ok(()));
    sample.has(&rt, FIRST, 0, Ok(number(5)));
    sample.has_told(&rt, &[], &[FIRST], &[])
}

#[test]
fn a_patched_row_is_found_and_told(rt: HostRuntime) -> Result<(), Fail> {
    let mut sample = Sample::load(rt.alloc())?;
    sample.patches(&rt, FIRST, -6, Ok(()));
    sample.has(&rt, FIRST, 0, Ok(number(-6)));
    sample.has_told(&rt, &[], &[FIRST], &[])
}

#[test]
fn a_removed_row_is_told_and_not_found(rt: HostRuntime) -> Result<(), Fail> {
    let mut sample = Sample::load(rt.alloc())?;
    sample.removes(&rt, FIRST, 0, Ok(1));
    sample.removes(&rt, FIRST, 0, Ok(0));
    sample.erases(&rt, FIRST, 0, Err(Refusal::Absent));
    sample.erases(&rt, FIRST, 1, Ok(()));
    sample.is_orphan(&rt, FIRST, Ok(true));
    sample.has_told(&rt, &[], &[], &[FIRST])
}

#[test]
fn an_erased_row_is_told(rt: HostRuntime) -> Result<(), Fail> {
    let mut sample = Sample::load(rt.alloc())?;
    sample.erases(&rt, FIRST, 0, Ok(()));
    sample.has(&rt, FIRST, 0, Err(Refusal::Absent));
    sample.clears(&rt, 0, Ok(0));
    sample.clears(&rt, 1, Ok(2));
    sample.has_told(&rt, &[], &[], &[FIRST])
}

#[test]
fn rows_are_cleared_in_ascending_index(rt: HostRuntime) -> Result<(), Fail> {
    let made = entity(1, 5);
    let mut sample = Sample::load(rt.alloc())?;
    sample.creates(&rt, Ok(made));
    sample.adds(&rt, SECOND, 0, 1, Ok(()));
    sample.adds(&rt, made, 0, 2, Ok(()));
    sample.clears(&rt, 0, Ok(3));
    sample.has_told(&rt, &[SECOND, made], &[], &[FIRST, made, SECOND])
}
