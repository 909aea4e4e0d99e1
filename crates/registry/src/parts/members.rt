//! The members of a group, in packed order.

ghost use Rattle.std.specs.Prelude.{◌≡◌, ◌<◌, length, IsPermutation};
ghost use Rattle.group_engine.specs.Engine.{len_at, prefix_at};
ghost use Rattle.group_engine.specs.Grouped.{packed_of};
ghost use Rattle.world_model.specs.Contents.{keys_of, group_at};
ghost use Rattle.world_model.specs.Groups.{members};
ghost use Rattle.registry.specs.Layout.{world_of, IsKept};

use super::Parts;
use super::lawful::know_law;
use entity_id::Entity;
use signal_sink::Listener;

// The members of a group, in the common order of the pools that it owns.
pub fn members_of<L: Listener>(parts: &Parts<L>, group: u32) -> &[Entity]
    requires consistent { IsKept parts.now }
    requires group { group < length parts.now.groups.decls }
    ensures list { result.now ≡ prefix_at parts.now.groups (packed_of parts.now.pools.items) group }
    ensures len { length result.now ≡ len_at parts.now.groups group }
    ensures matching { IsPermutation result.now
        (members (keys_of (world_of parts.now)) (group_at (world_of parts.now) group)) }
{
    know_law(parts);
    parts.groups.members(&parts.pools, group)
}
