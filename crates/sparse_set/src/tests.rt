ghost use Rattle.std.specs.Prelude.{◌≡◌, ◌<◌};

use super::*;
use entity_id::Entity;
use std::alloc::Global;
use std::marker::Brand;
use std::process::Abort;
use std::sync::ledger::{Blank, Ledger};
use std::test::Fail;

fn entity(index: u32, version: u32) -> Entity
    ensures index { result.index ≡ index }
    ensures version { result.version ≡ version }
{
    Entity { index, version }
}

fn is_shared<T: Send + Sync>(_value: &T) {}

#[test]
fn identifiers_are_told_by_version(rt: HostRuntime) {
    push_in::<Brand>(&rt, rt.alloc(), Blank::new(1));
}

fn push_in<G: Ledger>(rt: &impl Abort, alloc: Global, blank: Blank)
    requires name { blank.name ≡ G.name }
    requires parts { blank.parts ≡ G.parts }
    requires some { 0 < blank.parts }
{
    let mut steps = Steps::<G>::new(blank);
    let mut set = SparseSet::new(alloc);
    is_shared(&set);
    assert_eq!(rt; set.push(entity(70_000, 1), &mut steps), Ok(()));
    assert_eq!(rt;
        set.push(entity(70_000, 2), &mut steps),
        Err(PushRefused::Present)
    );
    assert_eq!(rt; set.contains(entity(70_000, 1)), true);
    assert_eq!(rt; set.contains(entity(70_000, 2)), false);
    assert_eq!(rt; set.index_of(entity(70_000, 1)), Some(0));
    assert_eq!(rt; set.index_of(entity(70_000, 2)), None);
    assert_eq!(rt; set.has_index(70_000), true);
    assert_eq!(rt; set.reserve(9_000, 80_000), Ok(()));
    assert_eq!(rt; set.has_index(9), false);
    set.push_reserved(entity(9, 0), &mut steps);
    assert_eq!(rt; set.spare(), 8_999);
    assert_eq!(rt; set.packed(), [entity(70_000, 1), entity(9, 0)].as_slice());
}

#[test]
fn the_last_identifier_takes_the_place_of_the_one_that_goes(rt: HostRuntime) {
    pop_in::<Brand>(&rt, rt.alloc(), Blank::new(1));
}

fn pop_in<G: Ledger>(rt: &impl Abort, alloc: Global, blank: Blank)
    requires name { blank.name ≡ G.name }
    requires parts { blank.parts ≡ G.parts }
    requires some { 0 < blank.parts }
{
    let mut steps = Steps::<G>::new(blank);
    let mut set = SparseSet::new(alloc);
    for index in 0..3 {
        assert_eq!(rt; set.push(entity(index, 7), &mut steps), Ok(()));
    }
    assert_eq!(rt; set.len(), 3);
    assert_eq!(rt; set.at(1), entity(1, 7));
    set.swap_at(1, 2, &mut steps);
    assert_eq!(rt;
        set.packed(),
        [entity(0, 7), entity(2, 7), entity(1, 7)].as_slice()
    );
    assert_eq!(rt; set.swap_pop(entity(0, 7), &mut steps), Ok(0));
    assert_eq!(rt; set.swap_pop(entity(0, 7), &mut steps), Err(Absent));
    assert_eq!(rt; set.packed(), [entity(1, 7), entity(2, 7)].as_slice());
    set.clear();
    assert_eq!(rt; set.contains(entity(1, 7)), false);
    assert_eq!(rt; set.len(), 0);
}

#[test]
fn orders_walk_from_the_back_by_key_and_index(rt: HostRuntime) -> Result<(), Fail> {
    orders_in::<Brand>(&rt, rt.alloc(), Blank::new(1))
}

fn orders_in<G: Ledger>(rt: &impl Abort, alloc: Global, blank: Blank) -> Result<(), Fail>
    requires name { blank.name ≡ G.name }
    requires parts { blank.parts ≡ G.parts }
    requires some { 0 < blank.parts }
{
    let mut steps = Steps::<G>::new(blank);
    let mut set = SparseSet::new(alloc);
    for index in 0..5 {
        assert_eq!(rt; set.push(entity(index, 0), &mut steps), Ok(()));
    }
    assert_eq!(rt; set.len(), 5);
    let order = set.order_of(4, &[3, 1, 1, 2])?;
    set.arrange(order.as_slice(), &mut steps);
    assert_eq!(rt;
        set.packed(),
        [
            entity(0, 0),
            entity(3, 0),
            entity(2, 0),
            entity(1, 0),
            entity(4, 0)
        ]
        .as_slice()
    );
    assert_eq!(rt; set.index_of(entity(3, 0)), Some(1));
    Ok(())
}

#[test]
fn a_page_is_made_once_an_index_of_it_is_pushed_or_reserved(rt: HostRuntime) {
    pages_in::<Brand>(&rt, rt.alloc(), Blank::new(1));
}

fn pages_in<G: Ledger>(rt: &impl Abort, alloc: Global, blank: Blank)
    requires name { blank.name ≡ G.name }
    requires parts { blank.parts ≡ G.parts }
    requires some { 0 < blank.parts }
{
    let mut steps = Steps::<G>::new(blank);
    let mut set = SparseSet::new(alloc);
    assert_eq!(rt; set.pages(), 0);
    for (index, pages) in [(1_048_574, 1), (0, 2), (4_095, 2), (4_096, 3)] {
        assert_eq!(rt; set.push(entity(index, 0), &mut steps), Ok(()));
        assert_eq!(rt; set.pages(), pages, "{index}");
    }
    for index in [1_048_574, 0, 4_095, 4_096] {
        assert!(rt;
            set.swap_pop(entity(index, 0), &mut steps).is_ok(),
            "{index}"
        );
        assert_eq!(rt; set.pages(), 3, "{index}");
    }
    assert_eq!(rt; set.reserve(1, 8_193), Ok(()));
    assert_eq!(rt; set.pages(), 4);
}
