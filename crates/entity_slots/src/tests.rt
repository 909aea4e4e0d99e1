//! The order in which indices and versions are given out.

ghost use Rattle.std.specs.Prelude.{◌≡◌};

use super::*;
use entity_id::{Entity, P20_12};
use world_model::Slot;

fn entity(index: u32, version: u32) -> Entity {
    Entity { index, version }
}

fn slot(version: u32, live: bool) -> Slot
    ensures { result ≡ record { version = version; live = live } }
{
    Slot { version, live }
}

#[test]
fn versions_begin_again_after_4094(rt: HostRuntime) {
    let mut slots = EntitySlots::new(rt.alloc(), P20_12, 1);
    for version in 0..4_095 {
        assert_eq!(rt; slots.create(), Ok(entity(0, version)));
        assert_eq!(rt; slots.destroy(entity(0, version)), Ok(()));
    }
    assert_eq!(rt; slots.create(), Ok(entity(0, 0)));
}

#[test]
fn the_index_released_last_is_reused_first(rt: HostRuntime) {
    let mut slots = EntitySlots::new(rt.alloc(), P20_12, 9);
    for index in 0..4 {
        assert_eq!(rt; slots.create(), Ok(entity(index, 0)));
    }
    for index in [1, 3, 2] {
        assert_eq!(rt; slots.destroy(entity(index, 0)), Ok(()));
    }
    assert_eq!(rt; slots.alive(), 1);
    assert_eq!(rt; slots.free_at(0), Some(2));
    assert_eq!(rt; slots.free_at(2), Some(1));
    assert_eq!(rt; slots.free_at(3), None);
    for index in [2, 3, 1] {
        assert_eq!(rt; slots.create(), Ok(entity(index, 1)));
    }
    assert_eq!(rt; slots.len(), 4);
    assert!(rt; slots.valid(entity(1, 1)));
    assert!(rt; !slots.valid(entity(1, 0)));
    assert_eq!(rt; slots.destroy(entity(1, 0)), Err(Dead));
}

#[test]
fn a_create_past_the_limit_is_refused(rt: HostRuntime) {
    let mut slots = EntitySlots::new(rt.alloc(), P20_12, 2);
    assert_eq!(rt; slots.create(), Ok(entity(0, 0)));
    assert_eq!(rt; slots.create(), Ok(entity(1, 0)));
    assert_eq!(rt; slots.create(), Err(CreateRefused::Full));
    assert_eq!(rt; slots.destroy(entity(0, 0)), Ok(()));
    assert_eq!(rt; slots.create(), Ok(entity(0, 1)));
}

#[test]
fn loaded_slots_go_on_where_they_stood(rt: HostRuntime) {
    let list = [slot(7, false), slot(3, true), slot(4_094, false)];
    let loaded = EntitySlots::load(rt.alloc(), P20_12, 4, &list, &[2, 0]);
    let mut slots = loaded.expect(&rt, "memory");
    assert_eq!(rt; slots.slot(0), slot(7, false));
    assert_eq!(rt; slots.alive(), 1);
    for made in [entity(2, 4_094), entity(0, 7), entity(3, 0)] {
        assert_eq!(rt; slots.create(), Ok(made));
    }
    assert_eq!(rt; slots.create(), Err(CreateRefused::Full));
    assert_eq!(rt; slots.destroy(entity(2, 4_094)), Ok(()));
    assert_eq!(rt; slots.create(), Ok(entity(2, 0)));
}

#[test]
fn hints_are_given_where_they_are_free_and_fit(rt: HostRuntime) {
    let mut slots = EntitySlots::new(rt.alloc(), P20_12, 1_048_575);
    for (hint, made) in [
        (entity(4, 7), entity(4, 7)),
        (entity(4, 0), entity(3, 0)),
        (entity(1, 5), entity(1, 5)),
        (entity(1_048_575, 4_095), entity(2, 0)),
        (entity(9, 4_095), entity(0, 0)),
    ] {
        assert_eq!(rt; slots.create_hint(hint), Ok(made));
    }
    assert_eq!(rt; slots.create(), Ok(entity(5, 0)));
    assert_eq!(rt; slots.len(), 6);
    for (index, version) in [(0, 0), (1, 5), (2, 0), (3, 0), (4, 7), (5, 0)] {
        assert!(rt; slots.valid(entity(index, version)), "{index}");
    }
}

#[test]
fn a_hint_in_the_middle_of_the_free_list_leaves_the_rest(rt: HostRuntime) {
    let mut slots = EntitySlots::new(rt.alloc(), P20_12, 9);
    for index in 0..4 {
        assert_eq!(rt; slots.create(), Ok(entity(index, 0)));
    }
    for index in [1, 3, 2] {
        assert_eq!(rt; slots.destroy(entity(index, 0)), Ok(()));
    }
    assert_eq!(rt; slots.create_hint(entity(3, 7)), Ok(entity(3, 7)));
    let free = slots.free_list().expect(&rt, "memory");
    assert_eq!(rt; free.as_slice(), [2, 1].as_slice());
    assert_eq!(rt; slots.alive(), 2);
}

#[test]
fn a_reserved_creation_is_refused_only_at_the_limit(rt: HostRuntime) {
    let mut slots = EntitySlots::new(rt.alloc(), P20_12, 2);
    slots.reserve(1).expect(&rt, "memory");
    assert_eq!(rt; slots.create_reserved(), Ok(entity(0, 0)));
    let mut none = EntitySlots::new(rt.alloc(), P20_12, 0);
    assert_eq!(rt; none.create_reserved(), Err(Full));
    assert_eq!(rt; none.create_hint(entity(0, 0)), Err(CreateRefused::Full));
}
