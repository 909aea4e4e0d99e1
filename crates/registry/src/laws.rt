//! What follows from the contracts of the calls.

ghost use Rattle.std.specs.Prelude.{◌≡◌, ◌++◌, ℕ, List, [], false, map};
ghost use Rattle.entity_id.specs.FiniteMap as entries;
ghost use Rattle.world_model.specs.declared.command.Command.{Command};
ghost use Rattle.world_model.specs.declared.event.Event.{Event};
ghost use Rattle.world_model.specs.declared.world.World.{World};
ghost use Rattle.world_model.specs.Contents.{keys_of};
ghost use Rattle.world_model.specs.Frames.{AreFittingMaps};
ghost use Rattle.world_model.specs.Ticks.{Maps};
ghost use Rattle.world_model.specs.Worlds.{IsLawful};
ghost use Rattle.registry.specs.Held.{Held, Becomes};
ghost use Rattle.registry.specs.Packing.{packed_after, regroups, Repacks};

/// A command that moves no identifier for the groups' sake leaves the packed lists that are said, each of
/// them: so it is with every command where no group owns a pool. No memory. (This project's own.)
pub fn packing_without_groups()
    ensures { (old new : Held) (command : Command) →
        ((pool : ℕ) → regroups old command pool ≡ false) →
        Repacks old new command → new.packed ≡ packed_after old command }
{}

/// A lawful world stays so with other rows of the same identifiers, where they fit. No memory. (This
/// project's own.)
pub fn worlds_with_other_rows_are_lawful()
    ensures { (limit : ℕ) (world : World) (maps : Maps) →
        IsLawful limit world → map entries.keys maps ≡ keys_of world →
        AreFittingMaps world.profile world.decls maps →
        IsLawful limit (record world { pools = maps }) }
{}

/// Changes one after another are one change, whose events are those of the one and then those of the
/// other; and a registry of another world, with all else as it was, has changed so that nobody hears of
/// it. No memory. (This project's own.)
pub fn registries_change_in_parts()
    ensures parts { (old mid new : Held) (between after : World) (first later : List Event) →
        Becomes old mid between first → Becomes mid new after later →
        Becomes old new after (first ++ later) }
    ensures quiet { (old : Held) (world : World) →
        Becomes old (record old { world = world }) world [] }
{}
