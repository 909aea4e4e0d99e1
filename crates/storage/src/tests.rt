ghost use Rattle.std.specs.Prelude.{◌≡◌, ◌<◌};

use super::*;
use entity_id::Entity;
use sparse_set::{Absent, PushRefused, Steps};
use std::alloc::Global;
use std::marker::Brand;
use std::process::Abort;
use std::sync::ledger::{Blank, Ledger};
use std::test::Fail;

fn entity(index: u32, version: u32) -> Entity
    ensures index { result.index ≡ index }
    ensures version { result.version ≡ version }
{
    Entity { index, version }
}

fn is_shared<T: Send + Sync>(_value: &T) {}

#[test]
fn the_last_pair_takes_the_place_of_the_one_erased(rt: HostRuntime) {
    erase_in::<Brand>(&rt, rt.alloc(), Blank::new(1));
}

fn erase_in<G: Ledger>(rt: &impl Abort, alloc: Global, blank: Blank)
    requires name { blank.name ≡ G.name }
    requires parts { blank.parts ≡ G.parts }
    requires some { 0 < blank.parts }
{
    let (a, b, c) = (entity(5, 0), entity(7, 2), entity(2, 1));
    let mut steps = Steps::<G>::new(blank);
    let mut storage: Storage<u16> = Storage::new(alloc);
    assert_eq!(rt; storage.emplace(a, 10, &mut steps), Ok(()));
    assert_eq!(rt;
        storage.emplace(a, 11, &mut steps),
        Err(PushRefused::Present)
    );
    assert_eq!(rt; storage.emplace(b, 20, &mut steps), Ok(()));
    assert_eq!(rt; storage.emplace(c, 30, &mut steps), Ok(()));
    assert_eq!(rt; storage.erase(a, &mut steps), Ok(10));
    assert_eq!(rt; storage.entities(), [c, b].as_slice());
    assert_eq!(rt; storage.values(), [30, 20].as_slice());
    assert_eq!(rt; storage.erase(b, &mut steps), Ok(20));
    assert_eq!(rt; storage.entities(), [c].as_slice());
    assert_eq!(rt; storage.erase(c, &mut steps), Ok(30));
    assert_eq!(rt; storage.entities(), [].as_slice());
    assert_eq!(rt; storage.erase(c, &mut steps), Err(Absent));
}

#[test]
fn values_are_read_and_written(rt: HostRuntime) {
    write_in::<Brand>(&rt, rt.alloc(), Blank::new(1));
}

fn write_in<G: Ledger>(rt: &impl Abort, alloc: Global, blank: Blank)
    requires name { blank.name ≡ G.name }
    requires parts { blank.parts ≡ G.parts }
    requires some { 0 < blank.parts }
{
    let (a, b) = (entity(5, 0), entity(7, 2));
    let mut steps = Steps::<G>::new(blank);
    let mut storage: Storage<u16> = Storage::new(alloc);
    is_shared(&storage);
    assert_eq!(rt; storage.reserve(1, 8), Ok(()));
    assert_eq!(rt; storage.has_index(5), false);
    storage.emplace_reserved(a, 10, &mut steps);
    assert_eq!(rt; storage.emplace(b, 20, &mut steps), Ok(()));
    assert_eq!(rt; storage.set(b, 21), Ok(()));
    assert_eq!(rt; storage.set(entity(7, 3), 22), Err(Absent));
    if let Some(value) = storage.get_mut(a) {
        *value += 1;
    }
    assert_eq!(rt; storage.get(a), Some(11));
    assert_eq!(rt; storage.get(entity(7, 3)), None);
    assert_eq!(rt; storage.contains(b), true);
    assert_eq!(rt; storage.index().index_of(b), Some(1));
    let (index, values) = storage.split_mut();
    assert_eq!(rt; index.packed(), [a, b].as_slice());
    values[0] = 12;
    assert_eq!(rt; storage.values(), [12, 21].as_slice());
}

#[test]
fn pairs_move_whole(rt: HostRuntime) {
    move_in::<Brand>(&rt, rt.alloc(), Blank::new(1));
}

fn move_in<G: Ledger>(rt: &impl Abort, alloc: Global, blank: Blank)
    requires name { blank.name ≡ G.name }
    requires parts { blank.parts ≡ G.parts }
    requires some { 0 < blank.parts }
{
    let mut steps = Steps::<G>::new(blank);
    let mut storage: Storage<u16> = Storage::new(alloc);
    for index in 0..4 {
        assert_eq!(rt;
            storage.emplace(entity(index, 0), 10 * index as u16, &mut steps),
            Ok(())
        );
    }
    assert_eq!(rt; storage.len(), 4);
    storage.swap_at(0, 3, &mut steps);
    assert_eq!(rt; storage.values(), [30, 10, 20, 0].as_slice());
    if let Ok(order) = storage.index().order_of(3, &[7, 9, 9]) {
        storage.arrange(order.as_slice(), &mut steps);
    }
    assert_eq!(rt; storage.values(), [20, 10, 30, 0].as_slice());
    storage.clear();
    assert_eq!(rt; storage.len(), 0);
}

#[test]
fn laws_are_called_at_no_values() {
    maps_ascend::<u16>(&[]);
    look_ups_of_maps::<u16>(&[]);
    look_ups_after_changes::<u16>(&[]);
    sizes_of_maps::<u16>(&[]);
    values_and_keys::<u16>(&[]);
}
