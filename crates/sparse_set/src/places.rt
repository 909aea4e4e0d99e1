//! A packed list, and the pages that have each identifier's place under its index.

ghost use Rattle.std.specs.Prelude.{◌≡◌, ℕ, ◌+◌, ◌<◌, ◌≤◌, ◌^◌, [], ◌∷◌, ◌++◌, List, length, Some, false, IsOk, OnOk, IfSome, slice_get};
ghost use Rattle.std.specs.List.{swap};
ghost use Rattle.std.specs.Vec.{vec_capacity};
ghost use Rattle.entity_id.specs.declared.entity.Entity.{Entity};
ghost use Rattle.entity_id.specs.PackedLists.{place_of, swap_popped};
ghost use Rattle.sparse_set.specs.PackedSets.{has_index, AreDistinct};
ghost use Rattle.sparse_set.specs.Pages.{HasPlace, AreMadeBelow};
ghost use Rattle.sparse_set.specs.Places.{ArePlaced};

use crate::pages::Pages;
use entity_id::{Entity, OutOfMemory};

// What stands at a place.
pub fn item_at<T: Copy>(list: &[T], place: usize) -> Option<T>
    ensures { result ≡ slice_get list.now place }
{
    list.get(place).copied()
}

// The place of an identifier.
pub fn place_in(packed: &[Entity], pages: &Pages, entity: Entity) -> Option<u32>
    requires { ArePlaced packed.now pages.now }
    ensures place { result ≡ place_of packed.now entity }
    ensures here { IfSome result (λ place. slice_get packed.now place ≡ Some entity) }
{
    let place = pages.get(entity.index)?;
    let found = item_at(packed, place as usize)?;
    if found == entity { Some(place) } else { None }
}

// Whether an identifier with this index is contained.
pub fn has_index_in(packed: &[Entity], pages: &Pages, index: u32) -> bool
    requires { ArePlaced packed.now pages.now }
    ensures { result ≡ has_index packed.now index }
{
    let Some(place) = pages.get(index) else {
        return false;
    };
    match item_at(packed, place as usize) {
        Some(found) => found.index == index,
        None => false,
    }
}

// Makes room for so many more: no list has 2^32 identifiers.
pub fn reserve_packed(packed: &mut Vec<Entity>, n: usize) -> Result<(), OutOfMemory>
    requires { length packed.old.items < 2 ^ 32 }
    ensures items { packed.new.items ≡ packed.old.items }
    ensures ok { OnOk result (length packed.old.items + n ≤ vec_capacity packed.new) }
    ensures few { OnOk result (length packed.old.items + n < 2 ^ 32) }
    ensures ready { length packed.old.items + n < 2 ^ 32
        → length packed.old.items + n ≤ vec_capacity packed.old → IsOk result }
    ensures capacity { vec_capacity packed.old ≤ vec_capacity packed.new }
{
    if n > u32::MAX as usize - packed.len() || packed.reserve(n).is_err() {
        return Err(OutOfMemory);
    }
    Ok(())
}

#[tactic(auto, using(crate::proofs::PageLemmas::made_after_put))]
pub fn append(packed: &mut Vec<Entity>, pages: &mut Pages, entity: Entity)
    requires placed { ArePlaced packed.old.items pages.old }
    requires absent { has_index packed.old.items entity.index ≡ false }
    requires room { length packed.old.items < vec_capacity packed.old }
    requires few { length packed.old.items + 1 < 2 ^ 32 }
    requires within { HasPlace pages.old entity.index }
    ensures list { packed.new.items ≡ packed.old.items ++ entity ∷ [] }
    ensures distinct { AreDistinct packed.new.items }
    ensures placed { ArePlaced packed.new.items pages.new }
    ensures capacity { vec_capacity packed.old ≤ vec_capacity packed.new }
    ensures made { (bound : ℕ) → AreMadeBelow pages.old bound → AreMadeBelow pages.new bound }
{
    pages.set(entity.index, packed.len() as u32);
    let _ = packed.push(entity);
}

#[tactic(auto, using(crate::proofs::PageLemmas::made_after_put))]
pub fn exchange(packed: &mut Vec<Entity>, pages: &mut Pages, a: u32, b: u32)
    requires placed { ArePlaced packed.old.items pages.old }
    requires a { a < length packed.old.items }
    requires b { b < length packed.old.items }
    ensures list { packed.new.items ≡ swap packed.old.items a b }
    ensures distinct { AreDistinct packed.new.items }
    ensures capacity { vec_capacity packed.new ≡ vec_capacity packed.old }
    ensures made { (bound : ℕ) → AreMadeBelow pages.old bound → AreMadeBelow pages.new bound }
    ensures placed { ArePlaced packed.new.items pages.new }
{
    let first = packed[a as usize].index;
    let second = packed[b as usize].index;
    pages.set(first, b);
    pages.set(second, a);
    packed.swap(a as usize, b as usize);
}

// The last identifier takes the place of the one that goes, whose own place under its index is no
// longer read: whoever reads it finds another identifier there, or nothing.
#[tactic(auto, using(crate::proofs::PageLemmas::made_after_put))]
pub fn take_out(packed: &mut Vec<Entity>, pages: &mut Pages, place: u32)
    requires placed { ArePlaced packed.old.items pages.old }
    requires within { place < length packed.old.items }
    ensures list { packed.new.items ≡ swap_popped packed.old.items place }
    ensures distinct { AreDistinct packed.new.items }
    ensures placed { ArePlaced packed.new.items pages.new }
    ensures capacity { vec_capacity packed.new ≡ vec_capacity packed.old }
    ensures made { (bound : ℕ) → AreMadeBelow pages.old bound → AreMadeBelow pages.new bound }
{
    let last = packed[packed.len() - 1];
    pages.set(last.index, place);
    let _ = packed.swap_remove(place as usize);
}
