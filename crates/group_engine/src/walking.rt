//! The members of a group, side by side.

ghost use Rattle.std.specs.Prelude.{◌≡◌, ◌≤◌, length, map, take};
ghost use Rattle.entity_id.specs.FiniteMap as entries;

use entity_id::Entity;
use storage::Storage;

// The first identifiers of a pool.
pub fn members<T: Copy>(pool: &Storage<T>, count: u32) -> &[Entity]
    requires { count ≤ length pool.now.pairs }
    ensures list { result.now ≡ take count (entries.keys pool.now.pairs) }
    ensures len { length result.now ≡ count }
{
    &pool.entities()[..count as usize]
}

// The first values of a pool.
pub fn rows<T: Copy>(pool: &Storage<T>, count: u32) -> &[T]
    requires { count ≤ length pool.now.pairs }
    ensures list { result.now ≡ take count (map (λ pair. pair.1) pool.now.pairs) }
    ensures len { length result.now ≡ count }
{
    &pool.values()[..count as usize]
}
