//! What the parts of a registry always keep, in the words of its callers.

ghost use Rattle.std.specs.Prelude.{◌≡◌, ◌<◌, ℕ, length, Some, slice_get};
ghost use Rattle.entity_id.specs.FiniteMap as entries;
ghost use Rattle.group_engine.specs.Engine.{len_at};
ghost use Rattle.registry.specs.Held.{member_count};
ghost use Rattle.registry.specs.Laws.{IsLawfulRegistry};
ghost use Rattle.registry.specs.Layout.{held_of, IsKept};
ghost use Rattle.storage.specs.Stored.{Stored};
ghost use Rattle.world_model.specs.declared.component.Row.{Row};

use super::Parts;
use group_engine::groups_are_lawful;
use group_rules::pools_of_groups;
use signal_sink::Listener;
use storage::Storage;
use world_model::Row;

// The registry of these parts is lawful, and each group is as long as it has members. Each pool is
// looked at, since only its own calls tell that its identifiers are distinct.
pub fn know_law<L: Listener>(parts: &Parts<L>)
    requires { IsKept parts.now }
    ensures lawful { IsLawfulRegistry (held_of parts.now) }
    ensures counted { (group : ℕ) → group < length parts.now.groups.decls →
        len_at parts.now.groups group ≡ member_count (held_of parts.now) group }
    ensures once { (pool : ℕ) (stored : Stored Row) → slice_get parts.now.pools.items pool ≡ Some stored →
        entries.HasEachOnce stored.pairs }
{
    know_each_once(&parts.pools);
    let _ = parts.groups.decls();
    groups_are_lawful();
    pools_of_groups();
}

// No pool has two rows of one index.
pub fn know_each_once(pools: &[Storage<Row>])
    ensures { (pool : ℕ) (stored : Stored Row) → slice_get pools.now pool ≡ Some stored →
        entries.HasEachOnce stored.pairs }
{
    for pool in pools {
        let _ = pool.index();
    }
}
