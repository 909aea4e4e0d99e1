//! Sets at the places of a view.

ghost use Rattle.std.specs.Prelude.{◌≡◌, ◌<◌, ◌≤◌, ◌^◌, map, length, nat_lt};
ghost use Rattle.std.specs.List.{IsFirstBest};
ghost use Rattle.sparse_set.specs.PackedSets.{contains, AreDistinct};
ghost use Rattle.pool_view.specs.ViewedSets.{is_in_all, is_in_one, leading_place};
ghost use Rattle.pool_view.specs.HeldSets.{list_at, lists_of};

use crate::view::PLACES;
use arrayvec::ArrayVec;
use entity_id::Entity;
use sparse_set::SparseSet;

// Whether the set at a place contains an identifier.
fn is_in(set: &Option<&SparseSet>, entity: Entity) -> bool
    ensures { result ≡ contains (list_at set.now) entity }
{
    match set {
        Some(set) => set.contains(entity),
        None => false,
    }
}

// Whether an identifier is in each of some sets.
pub fn is_in_all(sets: &[Option<&SparseSet>], entity: Entity) -> bool
    ensures { result ≡ is_in_all (lists_of sets.now) entity }
{
    for set in sets {
        if !is_in(set, entity) {
            return false;
        }
    }
    true
}

// Whether an identifier is in one of some sets.
pub fn is_in_one(sets: &[Option<&SparseSet>], entity: Entity) -> bool
    ensures { result ≡ is_in_one (lists_of sets.now) entity }
{
    for set in sets {
        if is_in(set, entity) {
            return true;
        }
    }
    false
}

// How many identifiers the set at a place has.
fn len_of(set: &Option<&SparseSet>) -> u32
    ensures { result ≡ length (list_at set.now) }
{
    match set {
        Some(set) => set.len(),
        None => 0,
    }
}

// The place of the leading one of some sets.
pub fn leading(sets: &[Option<&SparseSet>]) -> usize
    requires some { 0 < length sets.now }
    requires few { length sets.now ≤ PLACES }
    ensures place { result ≡ leading_place (lists_of sets.now) }
    ensures within { result < length sets.now }
{
    first_least(sizes_of(sets).as_slice())
}

// How many identifiers each of some sets has.
fn sizes_of(sets: &[Option<&SparseSet>]) -> ArrayVec<u32, PLACES>
    requires { length sets.now ≤ PLACES }
    ensures { result.items ≡ map length (lists_of sets.now) }
{
    let mut sizes = ArrayVec::new();
    for set in sets {
        sizes.push(len_of(set));
    }
    sizes
}

// The place of the least number, the first at a tie.
fn first_least(numbers: &[u32]) -> usize
    requires { 0 < length numbers.now }
    ensures within { result < length numbers.now }
    ensures first { IsFirstBest nat_lt numbers.now (length numbers.now) result }
{
    let mut least = 0;
    for place in 1..numbers.len() {
        if numbers[place] < numbers[least] {
            least = place;
        }
    }
    least
}

// The packed list at a place.
pub fn packed_at<'a>(set: &Option<&'a SparseSet>) -> &'a [Entity]
    ensures list { result.now ≡ list_at set.now }
    ensures distinct { AreDistinct result.now }
    ensures few { length result.now < 2 ^ 32 }
{
    match set {
        Some(set) => set.packed(),
        None => &[],
    }
}
