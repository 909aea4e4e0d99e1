//! Each function once with ample memory.

ghost use Rattle.std.specs.Prelude.{◌≡◌, ◌<◌};
ghost use Rattle.registry_uses.specs.Scenes.{IsScene};

use crate::*;
use entity_id::Entity;
use registry::Registry;
use signal_sink::Recorder;
use sparse_set::Steps;
use std::alloc::Global;
use std::marker::Brand;
use std::process::Abort;
use std::sync::ledger::{Blank, Ledger};
use world_model::{Event, EventKind, Refusal, Row};

fn row(x: i64, y: i64) -> Row {
    Row { f: [x, y, 0, 0] }
}

fn scene(rt: &impl Abort, alloc: Global) -> Registry<Recorder>
    ensures { IsScene result }
{
    begin(alloc).expect(rt, "memory")
}

#[test]
fn an_entity_moves_unless_it_is_frozen(rt: HostRuntime) {
    move_in::<Brand>(&rt, rt.alloc(), Blank::new(1));
}

fn move_in<G: Ledger>(rt: &impl Abort, alloc: Global, blank: Blank)
    requires name { blank.name ≡ G.name }
    requires parts { blank.parts ≡ G.parts }
    requires some { 0 < blank.parts }
{
    let mut steps = Steps::<G>::new(blank);
    let mut registry = scene(rt, alloc);
    let first = spawn(&mut registry, 3, -4, &mut steps).expect(rt, "memory");
    let second = spawn(&mut registry, 8, 8, &mut steps).expect(rt, "memory");
    assert_eq!(rt; steer(&mut registry, first, 1, 1, &mut steps), Ok(()));
    assert_eq!(rt; steer(&mut registry, second, 1, 1, &mut steps), Ok(()));
    assert_eq!(rt; set_frozen(&mut registry, second, true, &mut steps), Ok(()));
    assert_eq!(rt; advance_all(alloc, &mut registry), Ok(()));
    assert_eq!(rt; registry.get(first, POSITION), Ok(row(4, -3)));
    assert_eq!(rt; registry.get(second, POSITION), Ok(row(8, 8)));
    assert_eq!(rt;
        set_frozen(&mut registry, second, false, &mut steps),
        Ok(())
    );
    assert_eq!(rt; lift(&mut registry, second, i64::MAX), Ok(()));
    assert_eq!(rt; advance_all(alloc, &mut registry), Ok(()));
    assert_eq!(rt; registry.get(second, POSITION), Ok(row(9, i64::MAX)));
}

#[test]
fn members_move_as_all_that_move_do(rt: HostRuntime) {
    walk_in::<Brand>(&rt, rt.alloc(), Blank::new(1));
}

fn walk_in<G: Ledger>(rt: &impl Abort, alloc: Global, blank: Blank)
    requires name { blank.name ≡ G.name }
    requires parts { blank.parts ≡ G.parts }
    requires some { 0 < blank.parts }
{
    let mut steps = Steps::<G>::new(blank);
    let mut registry = scene(rt, alloc);
    let frozen = spawn(&mut registry, 8, 8, &mut steps).expect(rt, "memory");
    let first = spawn(&mut registry, 3, -4, &mut steps).expect(rt, "memory");
    assert_eq!(rt; steer(&mut registry, frozen, 1, 1, &mut steps), Ok(()));
    assert_eq!(rt; steer(&mut registry, first, 1, 2, &mut steps), Ok(()));
    assert_eq!(rt; set_frozen(&mut registry, frozen, true, &mut steps), Ok(()));
    let group = group_moving(alloc, &mut registry, &mut steps).expect(rt, "memory");
    assert_eq!(rt; registry.members(group), Ok([first].as_slice()));
    assert_eq!(rt; advance_members(&mut registry), Ok(()));
    assert_eq!(rt; registry.get(first, POSITION), Ok(row(4, -2)));
    assert_eq!(rt; registry.get(frozen, POSITION), Ok(row(8, 8)));
}

#[test]
fn a_stale_identifier_is_refused(rt: HostRuntime) {
    end_in::<Brand>(&rt, rt.alloc(), Blank::new(1));
}

fn end_in<G: Ledger>(rt: &impl Abort, alloc: Global, blank: Blank)
    requires name { blank.name ≡ G.name }
    requires parts { blank.parts ≡ G.parts }
    requires some { 0 < blank.parts }
{
    let mut steps = Steps::<G>::new(blank);
    let mut registry = scene(rt, alloc);
    let first = spawn(&mut registry, 3, -4, &mut steps).expect(rt, "memory");
    let again = respawn(&mut registry, first, &mut steps);
    let other = Entity {
        index: 0,
        version: 1,
    };
    assert_eq!(rt; again, Ok(other));
    assert_eq!(rt; registry.get(first, POSITION), Err(Refusal::Dead));
    assert_eq!(rt;
        respawn(&mut registry, first, &mut steps),
        Err(Refusal::Dead)
    );
    assert_eq!(rt; despawn(&mut registry, other, &mut steps), Ok(()));
    assert_eq!(rt; registry.valid(other), false);
}

#[test]
fn a_listener_hears_of_a_place_that_goes(rt: HostRuntime) {
    hear_in::<Brand>(&rt, rt.alloc(), Blank::new(1));
}

fn hear_in<G: Ledger>(rt: &impl Abort, alloc: Global, blank: Blank)
    requires name { blank.name ≡ G.name }
    requires parts { blank.parts ≡ G.parts }
    requires some { 0 < blank.parts }
{
    let mut steps = Steps::<G>::new(blank);
    let mut registry = scene(rt, alloc);
    let first = spawn(&mut registry, 3, -4, &mut steps).expect(rt, "memory");
    let gone = Event {
        kind: EventKind::Destroy,
        pool: POSITION,
        entity: first,
    };
    match heard_of_end(alloc, &mut registry, first, &mut steps) {
        Ok(recorder) => assert_eq!(rt; recorder.heard(), [gone].as_slice()),
        Err(refused) => panic!(rt; "{refused:?}"),
    }
}

#[test]
fn the_ninth_recorder_is_one_too_many(rt: HostRuntime) {
    use_up_in::<Brand>(&rt, rt.alloc(), Blank::new(1));
}

fn use_up_in<G: Ledger>(rt: &impl Abort, alloc: Global, blank: Blank)
    requires name { blank.name ≡ G.name }
    requires parts { blank.parts ≡ G.parts }
    requires some { 0 < blank.parts }
{
    let mut steps = Steps::<G>::new(blank);
    let mut registry = scene(rt, alloc);
    let nobody = Entity {
        index: 0,
        version: 0,
    };
    for _ in 0..8 {
        let refused = heard_of_end(alloc, &mut registry, nobody, &mut steps).err();
        assert_eq!(rt; refused, Some(Refusal::Dead));
    }
    let refused = heard_of_end(alloc, &mut registry, nobody, &mut steps).err();
    assert_eq!(rt; refused, Some(Refusal::TooMany));
}

#[test]
fn a_copy_answers_as_the_scene_does(rt: HostRuntime) {
    copy_in::<Brand>(&rt, rt.alloc(), Blank::new(1));
}

fn copy_in<G: Ledger>(rt: &impl Abort, alloc: Global, blank: Blank)
    requires name { blank.name ≡ G.name }
    requires parts { blank.parts ≡ G.parts }
    requires some { 0 < blank.parts }
{
    let mut steps = Steps::<G>::new(blank);
    let mut registry = scene(rt, alloc);
    let first = spawn(&mut registry, 3, -4, &mut steps).expect(rt, "memory");
    let other = copy(alloc, &registry).expect(rt, "memory");
    assert_eq!(rt; other.get(first, POSITION), Ok(row(3, -4)));
}
