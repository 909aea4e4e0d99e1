//! A storage put in an order, by exchanges from the first place on.

ghost use Rattle.std.specs.Prelude.{◌≡◌, ◌+◌, ◌≤◌, ◌<◌, ◌++◌, length, take, drop, slice_get, IfSome};
ghost use Rattle.std.specs.List.{swap};
ghost use Rattle.std.specs.List.Sorted.{IsPermutation};
ghost use Rattle.entity_id.specs.FiniteMap as entries;
ghost use Rattle.entity_id.specs.PackedLists.{place_of};

use crate::storage::Storage;
use entity_id::Entity;
use sparse_set::Steps;
use std::sync::ledger::Ledger;

// What stands at a place of the order.
fn entity_at(order: &[Entity], place: usize) -> Option<Entity>
    ensures { result ≡ slice_get order.now place }
{
    order.get(place).copied()
}

// Brings an identifier and its value to a place, where it is contained: by an exchange, if it isn't
// there.
fn bring<T: Copy, G: Ledger>(
    storage: &mut Storage<T>,
    entity: Entity,
    place: u32,
    steps: &mut Steps<G>,
)
    requires { place < length storage.old.pairs }
    ensures keys { IfSome (place_of (entries.keys storage.old.pairs) entity) (λ at.
        entries.keys storage.new.pairs ≡ swap (entries.keys storage.old.pairs) at place) }
    ensures map { entries.map_of storage.new.pairs ≡ entries.map_of storage.old.pairs }
    ensures spare { storage.new.spare ≡ storage.old.spare }
    ensures bound { storage.new.index_bound ≡ storage.old.index_bound }
    ensures steps { steps.new ≤ steps.old + 1 }
{
    let Some(at) = storage.index().index_of(entity) else {
        return;
    };
    if at != place {
        storage.swap_at(at, place, steps);
    }
}

// Brings the identifiers of the order to the first places, one after another.
pub fn bring_all<T: Copy, G: Ledger>(
    storage: &mut Storage<T>,
    len: u32,
    order: &[Entity],
    steps: &mut Steps<G>,
)
    requires len { len ≡ length storage.old.pairs }
    requires once { entries.HasEachOnce storage.old.pairs }
    requires order { IsPermutation order.now
        (take (length order.now) (entries.keys storage.old.pairs)) }
    ensures keys { entries.keys storage.new.pairs
        ≡ order.now ++ drop (length order.now) (entries.keys storage.old.pairs) }
    ensures once { entries.HasEachOnce storage.new.pairs }
    ensures map { entries.map_of storage.new.pairs ≡ entries.map_of storage.old.pairs }
    ensures spare { storage.new.spare ≡ storage.old.spare }
    ensures bound { storage.new.index_bound ≡ storage.old.index_bound }
    ensures steps { steps.new ≤ steps.old + length order.now }
{
    for place in 0..len {
        let Some(entity) = entity_at(order, place as usize) else {
            return;
        };
        bring(storage, entity, place, steps);
    }
}
