//! A set put in an order, by exchanges from the first place on.

ghost use Rattle.std.specs.Prelude.{◌≡◌, ◌+◌, ◌≤◌, ◌<◌, ◌++◌, length, take, drop, IfSome};
ghost use Rattle.std.specs.List.{swap};
ghost use Rattle.std.specs.List.Sorted.{IsPermutation};
ghost use Rattle.entity_id.specs.PackedLists.{place_of};
ghost use Rattle.sparse_set.specs.PackedSets.{AreDistinct};

use crate::places::item_at;
use crate::sparse_set::SparseSet;
use crate::steps::Steps;
use entity_id::Entity;
use std::sync::ledger::Ledger;

// Brings an identifier to a place, where it is contained: by an exchange, if it isn't there.
fn bring<G: Ledger>(set: &mut SparseSet, entity: Entity, place: u32, steps: &mut Steps<G>)
    requires { place < length set.old.list }
    ensures list { IfSome (place_of set.old.list entity) (λ at.
        set.new.list ≡ swap set.old.list at place) }
    ensures spare { set.new.spare ≡ set.old.spare }
    ensures bound { set.new.index_bound ≡ set.old.index_bound }
    ensures steps { steps.new ≤ steps.old + 1 }
{
    let Some(at) = set.index_of(entity) else {
        return;
    };
    if at != place {
        set.swap_at(at, place, steps);
    }
}

// Brings the identifiers of the order to the first places, one after another.
pub fn bring_all<G: Ledger>(set: &mut SparseSet, len: u32, order: &[Entity], steps: &mut Steps<G>)
    requires len { len ≡ length set.old.list }
    requires distinct { AreDistinct set.old.list }
    requires order { IsPermutation order.now (take (length order.now) set.old.list) }
    ensures list { set.new.list ≡ order.now ++ drop (length order.now) set.old.list }
    ensures distinct { AreDistinct set.new.list }
    ensures spare { set.new.spare ≡ set.old.spare }
    ensures bound { set.new.index_bound ≡ set.old.index_bound }
    ensures steps { steps.new ≤ steps.old + length order.now }
{
    for place in 0..len {
        let Some(entity) = item_at(order, place as usize) else {
            return;
        };
        bring(set, entity, place, steps);
    }
}
