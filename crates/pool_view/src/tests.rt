//! Walks of a few sets.

ghost use Rattle.std.specs.Prelude.{◌≡◌, ◌<◌};

use super::*;
use entity_id::Entity;
use sparse_set::{SparseSet, Steps};
use std::alloc::Global;
use std::marker::Brand;
use std::process::Abort;
use std::sync::ledger::{Blank, Ledger};
use std::test::Fail;

fn entity(index: u32, version: u32) -> Entity
    ensures index { result.index ≡ index }
    ensures version { result.version ≡ version }
{
    Entity { index, version }
}

fn is_shared<T: Send + Sync>(_value: &T) {}

// The set of these identifiers, packed in this order.
fn set_of(rt: &impl Abort, alloc: Global, entities: &[Entity]) -> SparseSet {
    pack_in::<Brand>(rt, alloc, Blank::new(1), entities)
}

fn pack_in<G: Ledger>(
    rt: &impl Abort,
    alloc: Global,
    blank: Blank,
    entities: &[Entity],
) -> SparseSet
    requires name { blank.name ≡ G.name }
    requires parts { blank.parts ≡ G.parts }
    requires some { 0 < blank.parts }
{
    let mut steps = Steps::<G>::new(blank);
    let mut set = SparseSet::new(alloc);
    for entity in entities {
        assert_eq!(rt; set.push(*entity, &mut steps), Ok(()));
    }
    set
}

// The view is led by the set at this place, and walks these identifiers.
fn is_walked(
    rt: &impl Abort,
    alloc: Global,
    view: &View,
    leading: u32,
    walk: &[Entity],
) -> Result<(), Fail> {
    let given: Vec<Entity> = view.iter().collect(alloc)?;
    assert_eq!(rt; given.as_slice(), walk);
    assert_eq!(rt; view.leading(), leading);
    assert_eq!(rt; view.count() as usize, walk.len());
    for entity in walk {
        assert_eq!(rt; view.contains(*entity), true);
    }
    Ok(())
}

#[test]
fn the_smallest_set_is_walked_from_the_back(rt: HostRuntime) -> Result<(), Fail> {
    let (one, two, three) = (entity(1, 0), entity(2, 0), entity(3, 0));
    let a = set_of(&rt, rt.alloc(), &[one, two, three]);
    let b = set_of(&rt, rt.alloc(), &[three, one]);
    let c = set_of(&rt, rt.alloc(), &[three]);
    let d = set_of(&rt, rt.alloc(), &[entity(9, 0), entity(8, 0), two]);
    walk_these(&rt, rt.alloc(), &a, &b, &c, &d)
}

fn walk_these<'a>(
    rt: &impl Abort,
    alloc: Global,
    a: &'a SparseSet,
    b: &'a SparseSet,
    c: &'a SparseSet,
    d: &'a SparseSet,
) -> Result<(), Fail> {
    let (one, two, three) = (entity(1, 0), entity(2, 0), entity(3, 0));
    let mut view = View::new(a);
    is_shared(&view);
    is_walked(rt, alloc, &view, 0, &[three, two, one])?;
    view.include(b);
    is_walked(rt, alloc, &view, 1, &[one, three])?;
    view.exclude(c);
    is_walked(rt, alloc, &view, 1, &[one])?;
    assert_eq!(rt; view.contains(three), false);

    // Of two sets of one size the one that was named first leads.
    let mut tied = View::new(a);
    tied.include(d);
    is_walked(rt, alloc, &tied, 0, &[two])?;
    Ok(())
}

#[test]
fn identifiers_of_another_version_are_not_viewed(rt: HostRuntime) -> Result<(), Fail> {
    let older = set_of(&rt, rt.alloc(), &[entity(4, 0), entity(5, 2)]);
    let newer = set_of(&rt, rt.alloc(), &[entity(4, 1), entity(5, 2)]);
    versions_of(&rt, rt.alloc(), &older, &newer)
}

fn versions_of<'a>(
    rt: &impl Abort,
    alloc: Global,
    older: &'a SparseSet,
    newer: &'a SparseSet,
) -> Result<(), Fail> {
    let mut both = View::new(older);
    assert_eq!(rt; both.contains(entity(4, 0)), true);
    assert_eq!(rt; both.contains(entity(4, 1)), false);
    both.include(newer);
    is_walked(rt, alloc, &both, 0, &[entity(5, 2)])?;
    let mut one = View::new(older);
    one.exclude(newer);
    is_walked(rt, alloc, &one, 0, &[entity(4, 0)])?;
    Ok(())
}

#[test]
fn sixteen_sets_of_each_sort_are_viewed(rt: HostRuntime) -> Result<(), Fail> {
    let (one, two, three) = (entity(1, 0), entity(2, 0), entity(3, 0));
    let many = set_of(&rt, rt.alloc(), &[one, two, three]);
    let few = set_of(&rt, rt.alloc(), &[three, one]);
    let other = set_of(&rt, rt.alloc(), &[entity(7, 0)]);
    let last = set_of(&rt, rt.alloc(), &[one]);
    fill_up(&rt, rt.alloc(), &many, &few, &other, &last)
}

fn fill_up<'a>(
    rt: &impl Abort,
    alloc: Global,
    many: &'a SparseSet,
    few: &'a SparseSet,
    other: &'a SparseSet,
    last: &'a SparseSet,
) -> Result<(), Fail> {
    let (one, three) = (entity(1, 0), entity(3, 0));
    let mut view = View::new(many);
    for _included in 1..SET_LIMIT - 1 {
        view.include(many);
    }
    view.include(few);
    for _excluded in 0..SET_LIMIT - 1 {
        view.exclude(other);
    }
    is_walked(rt, alloc, &view, 15, &[one, three])?;
    view.exclude(last);
    assert_eq!(rt; (view.included(), view.excluded()), (16, 16));
    is_walked(rt, alloc, &view, 15, &[three])?;
    Ok(())
}

#[test]
fn an_empty_leading_set_gives_nothing(rt: HostRuntime) -> Result<(), Fail> {
    let some = set_of(&rt, rt.alloc(), &[entity(1, 0)]);
    let empty = set_of(&rt, rt.alloc(), &[]);
    walk_nothing(&rt, rt.alloc(), &some, &empty)
}

fn walk_nothing<'a>(
    rt: &impl Abort,
    alloc: Global,
    some: &'a SparseSet,
    empty: &'a SparseSet,
) -> Result<(), Fail> {
    let mut view = View::new(some);
    view.include(empty);
    is_walked(rt, alloc, &view, 1, &[])?;
    let mut walk = view.iter();
    assert_eq!(rt; walk.next(), None);
    assert_eq!(rt; walk.next(), None);
    Ok(())
}

#[test]
fn laws_are_called_at_no_values() {
    leading_is_the_first_smallest();
    walks_are_exact();
    views_of_pools_match();
}
