ghost use Rattle.std.specs.Prelude.{◌≡◌, ◌<◌, ◌≤◌, length, IfOk};
ghost use Rattle.pool_slots.specs.Turns.{HasShapeOf};

use super::*;
use entity_id::Entity;
use sparse_set::Steps;
use std::alloc::Global;
use std::marker::Brand;
use std::process::Abort;
use std::sync::Wait;
use std::sync::ledger::{Blank, Ledger};
use std::test::Fail;
use std::thread::{Threads, join};
use storage::{Storage, values_and_keys};
use world_model::Row;

// Admits whatever rows a pool has.
#[derive(Drop)]
struct AnyRows;

impl PoolFact for AnyRows {
    ghost admits = { λ _ _ _ _. Unit {0} };
}

fn is_shared<T: Send + Sync>(_value: &T) {}

fn slots_are_shared<F: PoolFact + Send + Sync>(slots: &Slots<F>) {
    is_shared(slots);
}

const ENTITY: Entity = Entity {
    index: 5,
    version: 0,
};

fn number(value: i64) -> Row {
    Row {
        f: [value, 0, 0, 0],
    }
}

// Two pools: one with an entity, and one with none.
fn two_pools<G: Ledger>(
    rt: &impl Abort,
    alloc: Global,
    blank: Blank,
) -> Result<Vec<Storage<Row>>, Fail>
    requires name { blank.name ≡ G.name }
    requires parts { blank.parts ≡ G.parts }
    requires some { 0 < blank.parts }
    ensures { IfOk result (λ pools. length pools.items ≡ 2) }
{
    let mut steps = Steps::<G>::new(blank);
    let mut first = Storage::new(alloc);
    assert_eq!(rt; first.emplace(ENTITY, number(7), &mut steps), Ok(()));
    Ok(vec![in alloc; first, Storage::new(alloc)]?)
}

#[test]
fn readers_share_a_pool_and_a_writer_raises_its_version(rt: HostRuntime) -> Result<(), Fail> {
    share_in::<Brand, HostRuntime>(&rt, rt.alloc(), Blank::new(1))
}

fn share_in<G: Ledger, R: Wait + Abort>(rt: &R, alloc: Global, blank: Blank) -> Result<(), Fail>
    requires name { blank.name ≡ G.name }
    requires parts { blank.parts ≡ G.parts }
    requires some { 0 < blank.parts }
{
    let mut pools = two_pools::<G>(rt, alloc, blank)?;
    let slots = Slots::new(alloc, &AnyRows, &mut pools)?;
    slots_are_shared(&slots);
    assert_eq!(rt; pools[0].len(), 0);
    let one = slots.read(rt, 0, 0);
    let two = slots.read(rt, 0, 0);
    assert_eq!(rt; one.storage().len(), 1);
    assert_eq!(rt; two.storage().len(), 1);
    assert_eq!(rt; two.pool(), 0);
    one.leave();
    two.leave();
    slots.write(rt, 0, 0).put();
    let turn = slots.write(rt, 0, 1);
    assert_eq!(rt; turn.place.version(), 1);
    turn.put();
    slots.close_at(rt, &mut pools, &[2, 0]);
    assert_eq!(rt; pools[0].len(), 1);
    assert_eq!(rt; pools[1].len(), 0);
    Ok(())
}

// Takes the first pool at a version, writes a number into its rows, and puts it back.
fn raise<R: Wait>(rt: &R, slots: &Slots<AnyRows>, version: u32)
    requires pools { length slots.now ≡ 2 }
    requires version { version < 2 }
{
    values_and_keys::<Row>(&[]);
    let mut turn = slots.write(rt, 0, version);
    let (_, rows) = turn.split();
    rows.fill(number(9));
    turn.put();
}

// Has the first pool put back twice: by one thread at version 1, and by the other at version 0.
fn write_twice<R: Threads + Wait + Sync>(rt: &R, slots: &Slots<AnyRows>)
    requires { length slots.now ≡ 2 }
{
    join(rt, || raise(rt, slots, 1), || raise(rt, slots, 0));
}

#[test]
fn a_writer_waits_for_its_version(rt: HostRuntime) -> Result<(), Fail> {
    wait_in::<Brand, HostRuntime>(&rt, rt.alloc(), Blank::new(1))
}

fn wait_in<G: Ledger, R: Threads + Wait + Abort + Sync>(
    rt: &R,
    alloc: Global,
    blank: Blank,
) -> Result<(), Fail>
    requires name { blank.name ≡ G.name }
    requires parts { blank.parts ≡ G.parts }
    requires some { 0 < blank.parts }
{
    let mut pools = two_pools::<G>(rt, alloc, blank)?;
    let room = SlotsRoom::new(alloc, 2)?;
    let slots = Slots::fill(room, &AnyRows, &mut pools);
    write_twice(rt, &slots);
    let turn = slots.read(rt, 0, 2);
    assert_eq!(rt; turn.storage().get(ENTITY), Some(number(9)));
    drop(turn);
    slots.close(rt, &mut pools);
    assert_eq!(rt; pools[0].len(), 1);
    assert_eq!(rt; pools[1].len(), 0);
    Ok(())
}
