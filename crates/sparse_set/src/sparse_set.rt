ghost use Rattle.std.specs.Prelude.{◌≡◌, ◌<◌, ◌≤◌, ◌^◌, [], length, take, Some, IfOk, IfSome, slice_get};
ghost use Rattle.std.specs.List.Sorted.{IsPermutation};
ghost use Rattle.entity_id.specs.PackedLists.{place_of};
ghost use Rattle.sparse_set.specs.PackedSets.{contains, has_index, AreDistinct};
ghost use Rattle.sparse_set.specs.WalkOrders.{IsWalkOrder};

mod changes;

use crate::order::walk_order;
use crate::pages::Pages;
use crate::places::{has_index_in, place_in};
use entity_id::{Entities, Entity, OutOfMemory};
use std::alloc::Global;
use std::marker::Model;

/// A packed list of identifiers, no two of one index, with room for a number of reserved pushes of
/// indices below a bound. It may move to a worker, and workers may share it.
/// (EnTT: `entt::basic_sparse_set` with swap-and-pop.)
#[derive(Drop)]
pub struct SparseSet {
    packed: Vec<Entity>,
    // Under the index of each packed identifier its place; nothing or any number elsewhere.
    pages: Pages,
    spare: usize,
    // The page of each index below it is made.
    index_bound: u32,
}

impl Model for SparseSet {
    ghost use Rattle.sparse_set.specs.PackedSets.{PackedSet};
    ghost use Rattle.sparse_set.specs.Places.{set_of, IsKept};

    ghost Value = { PackedSet };

    ghost view = { set_of };

    ghost invariant = { IsKept };
}

impl SparseSet {
    /// An empty set, which keeps the allocator. No memory. (EnTT: the constructor.)
    pub fn new(alloc: Global) -> SparseSet
        ensures list { result.list ≡ [] }
        ensures spare { result.spare ≡ 0 }
        ensures bound { result.index_bound ≡ 0 }
    {
        SparseSet {
            packed: Vec::new(alloc),
            pages: Pages::new(alloc),
            spare: 0,
            index_bound: 0,
        }
    }

    /// How many identifiers are contained. No memory. (EnTT: `size`.)
    pub fn len(&self) -> u32
        ensures { result ≡ length self.now.list }
    {
        self.packed.len() as u32
    }

    /// For how many reserved pushes there is room. No memory. (This project's own.)
    pub fn spare(&self) -> u32
        ensures { result ≡ self.now.spare }
    {
        self.spare as u32
    }

    /// The identifiers, in packed order. No memory. (EnTT: `data`.)
    pub fn packed(&self) -> &[Entity]
        ensures list { result.now ≡ self.now.list }
        ensures distinct { AreDistinct self.now.list }
        ensures few { length self.now.list < 2 ^ 32 }
    {
        &self.packed
    }

    /// The identifier at a place below [`SparseSet::len`]. No memory. (EnTT: `operator[]`.)
    pub fn at(&self, place: u32) -> Entity
        requires { place < length self.now.list }
        ensures { slice_get self.now.list place ≡ Some result }
    {
        self.packed[place as usize]
    }

    /// The place of an identifier: `None` exactly where it isn't contained, whatever identifier of
    /// its index is. No memory. (EnTT: `index`.)
    pub fn index_of(&self, entity: Entity) -> Option<u32>
        ensures place { result ≡ place_of self.now.list entity }
        ensures here { IfSome result (λ place. slice_get self.now.list place ≡ Some entity) }
    {
        place_in(&self.packed, &self.pages, entity)
    }

    /// Whether an identifier is contained, in index and version. No memory. (EnTT: `contains`.)
    pub fn contains(&self, entity: Entity) -> bool
        ensures { result ≡ contains self.now.list entity }
    {
        self.index_of(entity).is_some()
    }

    /// Whether an identifier of this index is contained, in whatever version. No memory. (EnTT:
    /// `current(entity) != traits_type::to_version(tombstone)`.)
    pub fn has_index(&self, index: u32) -> bool
        ensures { result ≡ has_index self.now.list index }
    {
        has_index_in(&self.packed, &self.pages, index)
    }

    /// How many pages of 4,096 indices in a row stand. A page takes memory once an index of it is
    /// first pushed or reserved, and stays. No memory. (EnTT: the pages of the sparse array, of
    /// `ENTT_SPARSE_PAGE` entries each; `extent` counts those that don't stand too.)
    pub fn pages(&self) -> u32 {
        self.pages.count()
    }

    /// The first `n` identifiers so ordered that the walk from the back of the order to its front
    /// ascends by key, and at equal keys by index. The key of an identifier is the one at its
    /// place. Takes memory. (EnTT: `sort_n`, whose order stands so for an iteration, from back to
    /// front.)
    pub fn order_of(&self, n: u32, keys: &[i64]) -> Result<Entities, OutOfMemory>
        requires within { n ≤ length self.now.list }
        requires keys { length keys.now ≡ n }
        ensures order { IfOk result (λ order. IsWalkOrder keys.now (take n self.now.list) order) }
        ensures permutation { IfOk result (λ order. IsPermutation order (take n self.now.list)) }
        ensures len { IfOk result (λ order. length order ≡ n) }
    {
        walk_order(*self.packed.allocator(), keys, &self.packed[..n as usize])
    }
}
