//! What holds of the finite map that pairs in packed order stand for. Each argument says only of
//! which type the values are.

ghost use Rattle.std.specs.Prelude.{◌≡◌, ◌≢◌, ℕ, List, length, Some, None, IsTrue, false};
ghost use Rattle.entity_id.specs.declared.entity.Entity.{Entity};
ghost use Rattle.entity_id.specs.Identifiers.{is_same};
ghost use Rattle.entity_id.specs.FiniteMap as entries;
ghost use Rattle.storage.specs.Stored.{Stored};
ghost use Rattle.storage.specs.Changed.{with_values};

/// The map ascends in index, and still does after a put and a removal. No memory.
pub fn maps_ascend<T>(_values: &[T])
    ensures made { (pairs : List (Entity × T)) → entries.IsAscending (entries.map_of pairs) }
    ensures put { (v : List (Entity × T)) (entity : Entity) (value : T) →
        entries.IsAscending v → entries.IsAscending (entries.put v entity value) }
    ensures removed { (v : List (Entity × T)) (entity : Entity) →
        entries.IsAscending v → entries.IsAscending (entries.remove v entity) }
{}

/// The map finds what the pairs have, by identifier and by index. No memory.
pub fn look_ups_of_maps<T>(_values: &[T])
    ensures values { (pairs : List (Entity × T)) (entity : Entity) →
        entries.HasEachOnce pairs →
        entries.get (entries.map_of pairs) entity ≡ entries.get pairs entity }
    ensures indices { (pairs : List (Entity × T)) (index : ℕ) →
        entries.has_index (entries.map_of pairs) index ≡ entries.has_index pairs index }
{}

/// What a map finds after a put and after a removal: the value that was put, nothing under another
/// version of its index or of what was removed, and every other value as before. No memory.
pub fn look_ups_after_changes<T>(_values: &[T])
    ensures put { (v : List (Entity × T)) (entity : Entity) (value : T) →
        entries.get (entries.put v entity value) entity ≡ Some value }
    ensures version { (v : List (Entity × T)) (entity : Entity) (value : T) (other : Entity) →
        other.index ≡ entity.index → is_same other entity ≡ false →
        entries.get (entries.put v entity value) other ≡ None }
    ensures beside { (v : List (Entity × T)) (entity : Entity) (value : T) (other : Entity) →
        other.index ≢ entity.index →
        entries.get (entries.put v entity value) other ≡ entries.get v other }
    ensures removed { (v : List (Entity × T)) (entity : Entity) →
        entries.get (entries.remove v entity) entity ≡ None }
    ensures others { (v : List (Entity × T)) (entity other : Entity) →
        is_same entity other ≡ false →
        entries.get (entries.remove v entity) other ≡ entries.get v other }
{}

/// The map has as many entries as there are pairs. No memory.
pub fn sizes_of_maps<T>(_values: &[T])
    ensures { (pairs : List (Entity × T)) →
        entries.HasEachOnce pairs → length (entries.map_of pairs) ≡ length pairs }
{}

/// A storage with other values, one or all, has the identifiers that it had, in their places, and
/// one value set is a put. No memory.
pub fn values_and_keys<T>(_values: &[T])
    ensures one { (pairs : List (Entity × T)) (entity : Entity) (value : T) →
        entries.keys (entries.with_value pairs entity value) ≡ entries.keys pairs }
    ensures all { (stored : Stored T) (values : List T) →
        entries.keys (with_values stored values).pairs ≡ entries.keys stored.pairs }
    ensures put { (pairs : List (Entity × T)) (entity : Entity) (value : T) →
        entries.HasEachOnce pairs → IsTrue (entries.contains pairs entity) →
        entries.map_of (entries.with_value pairs entity value)
        ≡ entries.put (entries.map_of pairs) entity value }
{}
