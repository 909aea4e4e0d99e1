ghost use Rattle.std.specs.Prelude.{◌≡◌, ◌<◌, [], length, map, Some, slice_get};
ghost use Rattle.std.specs.Bool.{OnFalse};
ghost use Rattle.std.specs.Borrow.{sem};
ghost use Rattle.std.specs.Option.{option_copied_mut};
ghost use Rattle.entity_id.specs.FiniteMap as entries;
ghost use Rattle.storage.specs.Lends.{lends_value, lends_get, lends_values};

mod changes;

use entity_id::Entity;
use sparse_set::SparseSet;
use std::alloc::Global;
use std::marker::Model;

/// Identifiers with values, in packed order, no two of one index, with room for a number of
/// reserved ones of indices below a bound. Where its values may, it may move to a worker, and
/// workers may share it. (EnTT: `entt::basic_storage` with swap-and-pop.)
#[derive(Drop)]
pub struct Storage<T: Copy> {
    index: SparseSet,
    values: Vec<T>,
}

impl<T: Copy> Model for Storage<T> {
    ghost use Rattle.storage.specs.Stored.{Stored};
    ghost use Rattle.storage.specs.Layout.{stored_of, IsKept};

    ghost Value = { Stored T };

    ghost view = { λ a. stored_of a.index a.values };

    ghost invariant = { λ a. IsKept a.index a.values };
}

impl<T: Copy> Storage<T> {
    /// An empty storage, which keeps the allocator. No memory. (EnTT: the constructor.)
    pub fn new(alloc: Global) -> Storage<T>
        ensures pairs { result.pairs ≡ [] }
        ensures spare { result.spare ≡ 0 }
        ensures bound { result.index_bound ≡ 0 }
    {
        Storage {
            index: SparseSet::new(alloc),
            values: Vec::new(alloc),
        }
    }

    /// How many pairs it has, as many as the map that they stand for. No memory. (EnTT: `size`.)
    pub fn len(&self) -> u32
        ensures pairs { result ≡ length self.now.pairs }
        ensures map { result ≡ length (entries.map_of self.now.pairs) }
    {
        self.index.len()
    }

    /// The sparse set of its identifiers. No memory. (EnTT: the base class.)
    pub fn index(&self) -> &SparseSet
        ensures list { result.now.list ≡ entries.keys self.now.pairs }
        ensures spare { result.now.spare ≡ self.now.spare }
        ensures bound { result.now.index_bound ≡ self.now.index_bound }
        ensures once { entries.HasEachOnce self.now.pairs }
    {
        &self.index
    }

    /// Its identifiers, in packed order. No memory. (EnTT: `data`.)
    pub fn entities(&self) -> &[Entity]
        ensures { result.now ≡ entries.keys self.now.pairs }
    {
        self.index.packed()
    }

    /// Its values, in packed order. No memory. (EnTT: `raw`.)
    pub fn values(&self) -> &[T]
        ensures { result.now ≡ map (λ pair. pair.1) self.now.pairs }
    {
        &self.values
    }

    /// Whether an identifier has a value, in index and version. No memory. (EnTT: `contains`.)
    pub fn contains(&self, entity: Entity) -> bool
        ensures packed { result ≡ entries.contains self.now.pairs entity }
        ensures map { result ≡ entries.contains (entries.map_of self.now.pairs) entity }
        ensures absent { OnFalse result
            (entries.remove (entries.map_of self.now.pairs) entity
            ≡ entries.map_of self.now.pairs) }
    {
        self.get(entity).is_some()
    }

    /// Whether an identifier of this index has a value, in whatever version. No memory. (EnTT:
    /// `current(entity) != traits_type::to_version(tombstone)`.)
    pub fn has_index(&self, index: u32) -> bool
        ensures packed { result ≡ entries.has_index self.now.pairs index }
        ensures map { result ≡ entries.has_index (entries.map_of self.now.pairs) index }
    {
        self.index.has_index(index)
    }

    /// The value of an identifier: `None` exactly where it has none. No memory. (EnTT: `get`.)
    pub fn get(&self, entity: Entity) -> Option<T>
        ensures packed { result ≡ entries.get self.now.pairs entity }
        ensures map { result ≡ entries.get (entries.map_of self.now.pairs) entity }
    {
        match self.index.index_of(entity) {
            Some(place) => Some(self.values[place as usize]),
            None => None,
        }
    }

    // The value at the place of an identifier.
    fn value_mut(&mut self, entity: Entity, place: u32) -> &mut T
        requires { slice_get (entries.keys self.old.pairs) place ≡ Some entity }
        ensures* writes_back { sem 𝓛 (lends_value T.row self.entry entity result) }
        ensures value { entries.get self.old.pairs entity ≡ Some result.now }
    {
        &mut self.values[place as usize]
    }

    /// Lends the value of an identifier, and no other: `None` exactly where it has none. No memory.
    /// (EnTT: `get`.)
    pub fn get_mut(&mut self, entity: Entity) -> Option<&mut T>
        ensures* writes_back { sem 𝓛 (lends_get T.row self.entry entity result) }
        ensures value { option_copied_mut result ≡ entries.get self.old.pairs entity }
    {
        match self.index().index_of(entity) {
            Some(place) => Some(self.value_mut(entity, place)),
            None => None,
        }
    }

    /// Its sparse set, and all its values for writing, in packed order. No memory. (This project's
    /// own.)
    pub fn split_mut(&mut self) -> (&SparseSet, &mut [T])
        ensures* writes_back { sem 𝓛 (lends_values T.row self.entry result.1) }
        ensures list { result.0.now.list ≡ entries.keys self.old.pairs }
        ensures spare { result.0.now.spare ≡ self.old.spare }
        ensures bound { result.0.now.index_bound ≡ self.old.index_bound }
        ensures value { result.1.now ≡ map (λ pair. pair.1) self.old.pairs }
    {
        (&self.index, &mut self.values)
    }
}
