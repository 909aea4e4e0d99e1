//! What holds of commands, whoever carries them out.

ghost use Rattle.std.specs.Prelude.{◌≡◌, ◌≢◌, ◌≤◌, ◌++◌, ℕ, List, length, map, take};
ghost use Rattle.std.specs.Prelude.{Some, IsTrue, false};
ghost use Rattle.std.specs.List.{AllByRecursion};
ghost use Rattle.entity_id.specs.declared.entity.Entity.{Entity};
ghost use Rattle.entity_id.specs.declared.entity.Profile.{Profile};
ghost use Rattle.entity_id.specs.FiniteMap.{AreAscending};
ghost use Rattle.entity_id.specs.Identifiers.{is_profile, IsOfProfile};
ghost use Rattle.world_model.specs.declared.command.Command.{Command};
ghost use Rattle.world_model.specs.declared.command.Command.TheVariants.{Clear, Destroy, Get, Group};
ghost use Rattle.world_model.specs.declared.command.Command.TheVariants.{Members, View};
ghost use Rattle.world_model.specs.declared.command.Reply.TheVariants.{Done, Listed, Made};
ghost use Rattle.world_model.specs.declared.command.Reply.TheVariants.{Refused, Values};
ghost use Rattle.world_model.specs.declared.component.Decl.{Decl};
ghost use Rattle.world_model.specs.declared.component.Row.{Row};
ghost use Rattle.world_model.specs.declared.group.GroupDecl.{GroupDecl};
ghost use Rattle.world_model.specs.declared.refusal.Refusal.{Refusal};
ghost use Rattle.world_model.specs.declared.world.World.{World};
ghost use Rattle.world_model.specs.Components.{IsDecl};
ghost use Rattle.world_model.specs.Conditions.{IsAllowed, MaySet};
ghost use Rattle.world_model.specs.Outcomes.{answers};
ghost use Rattle.world_model.specs.Refusing.{refusal_of};
ghost use Rattle.world_model.specs.Slots.{is_live};
ghost use Rattle.world_model.specs.Steps.{step, run};
ghost use Rattle.world_model.specs.Worlds.{IsLawful, component_limit, empty_world};

/// A world with no slots, rows and groups is lawful, where its components are; and a lawful world
/// stays so under every command that is allowed in it, one or many after another, whether they are
/// refused or not. No memory.
pub fn commands_keep_worlds_lawful()
    ensures empty { (limit : ℕ) (profile : Profile) (decls : List Decl) →
        IsTrue (is_profile profile) → limit ≤ profile.index_limit →
        length decls ≤ component_limit → AllByRecursion IsDecl decls →
        IsLawful limit (empty_world profile decls) }
    ensures one { (limit : ℕ) (world : World) (command : Command) →
        IsLawful limit world → IsAllowed world command →
        IsLawful limit (step limit world command).world }
    ensures many { (limit : ℕ) (world : World) (commands : List Command) →
        IsLawful limit world → AllByRecursion (IsAllowed world) commands →
        IsLawful limit (run limit world commands).world }
{}

/// No command changes the profile, the components or the number of ticks. None but `Group` changes
/// the groups, and that one leaves those that stand, with their numbers. No memory.
pub fn commands_keep_components()
    ensures profile { (limit : ℕ) (world : World) (command : Command) →
        (step limit world command).world.profile ≡ world.profile }
    ensures components { (limit : ℕ) (world : World) (command : Command) →
        (step limit world command).world.decls ≡ world.decls }
    ensures ticks { (limit : ℕ) (world : World) (command : Command) →
        (step limit world command).world.tick ≡ world.tick }
    ensures groups { (limit : ℕ) (world : World) (command : Command) →
        ((decl : GroupDecl) → command ≢ Group decl) →
        (step limit world command).world.groups ≡ world.groups }
    ensures groups_stand { (limit : ℕ) (world : World) (command : Command) →
        take (length world.groups) (step limit world command).world.groups ≡ world.groups }
{}

/// A refused command answers with its refusal, leaves the world and tells nothing; and only a
/// refused command answers so. No memory.
pub fn refused_commands_change_nothing()
    ensures refused { (limit : ℕ) (world : World) (command : Command) (cause : Refusal) →
        refusal_of limit world command ≡ Some cause →
        step limit world command ≡ answers world (Refused cause) }
    ensures only_refused { (limit : ℕ) (world : World) (command : Command) (cause : Refusal) →
        (step limit world command).reply ≡ Refused cause →
        refusal_of limit world command ≡ Some cause }
{}

/// Commands in two parts: the second part begins in the world that the first one leaves, and the
/// replies and the events are those of the one and then those of the other. No memory.
pub fn commands_in_parts()
    ensures world { (limit : ℕ) (world : World) (first second : List Command) →
        (run limit world (first ++ second)).world
        ≡ (run limit (run limit world first).world second).world }
    ensures replies { (limit : ℕ) (world : World) (first second : List Command) →
        (run limit world (first ++ second)).replies
        ≡ (run limit world first).replies
        ++ (run limit (run limit world first).world second).replies }
    ensures events { (limit : ℕ) (world : World) (first second : List Command) →
        (run limit world (first ++ second)).events
        ≡ (run limit world first).events
        ++ (run limit (run limit world first).world second).events }
{}

/// No command reads or changes the number of ticks: at another number it answers and tells the
/// same, and leaves the same world at that number. No memory.
pub fn commands_ignore_the_tick()
    ensures reply { (limit tick : ℕ) (world : World) (command : Command) →
        (step limit (record world { tick = tick }) command).reply
        ≡ (step limit world command).reply }
    ensures world { (limit tick : ℕ) (world : World) (command : Command) →
        (step limit (record world { tick = tick }) command).world
        ≡ record (step limit world command).world { tick = tick } }
    ensures events { (limit tick : ℕ) (world : World) (command : Command) →
        (step limit (record world { tick = tick }) command).events
        ≡ (step limit world command).events }
{}

/// In a lawful world an identifier that is live stays so until it is destroyed, whatever else is
/// done; and once it is destroyed it is live no more. No memory.
pub fn entities_live_until_destroyed()
    ensures lives { (limit : ℕ) (world : World) (command : Command) (entity : Entity) →
        IsLawful limit world → IsTrue (is_live world.slots entity) →
        command ≢ Destroy entity →
        IsTrue (is_live (step limit world command).world.slots entity) }
    ensures dies { (limit : ℕ) (world : World) (entity : Entity) →
        (step limit world (Destroy entity)).reply ≡ Done →
        is_live (step limit world (Destroy entity)).world.slots entity ≡ false }
{}

/// In a lawful world, an identifier that a command makes is live afterwards; those that it lists,
/// and those that its events name, were live before; all of them have indices and versions within
/// the profile; and a row that is told may be set again. No memory.
pub fn commands_tell_live_entities()
    ensures made { (limit : ℕ) (world : World) (command : Command) (entity : Entity) →
        IsLawful limit world → (step limit world command).reply ≡ Made entity →
        IsTrue (is_live (step limit world command).world.slots entity) }
    ensures made_of_profile { (limit : ℕ) (world : World) (command : Command) (entity : Entity) →
        IsLawful limit world → (step limit world command).reply ≡ Made entity →
        IsOfProfile world.profile entity }
    ensures listed { (limit : ℕ) (world : World) (command : Command) (entities : List Entity) →
        IsLawful limit world → (step limit world command).reply ≡ Listed entities →
        AllByRecursion (λ entity. IsTrue (is_live world.slots entity)) entities }
    ensures listed_of_profile { (limit : ℕ) (world : World) (command : Command)
        (entities : List Entity) →
        IsLawful limit world → (step limit world command).reply ≡ Listed entities →
        AllByRecursion (IsOfProfile world.profile) entities }
    ensures events { (limit : ℕ) (world : World) (command : Command) → IsLawful limit world →
        AllByRecursion (λ event. IsTrue (is_live world.slots event.entity))
        (step limit world command).events }
    ensures events_of_profile { (limit : ℕ) (world : World) (command : Command) →
        IsLawful limit world →
        AllByRecursion (λ event. IsOfProfile world.profile event.entity)
        (step limit world command).events }
    ensures row { (limit : ℕ) (world : World) (entity : Entity) (pool : ℕ) (row : Row) →
        IsLawful limit world → (step limit world (Get entity pool)).reply ≡ Values row →
        MaySet world.profile world.decls pool row }
{}

/// In a lawful world views and the members of groups are listed in ascending index, and so are the
/// events of a component that is cleared. No memory.
pub fn commands_list_in_order()
    ensures view { (limit : ℕ) (world : World) (all without : List ℕ) (entities : List Entity) →
        IsLawful limit world → (step limit world (View all without)).reply ≡ Listed entities →
        AreAscending entities }
    ensures members { (limit : ℕ) (world : World) (group : ℕ) (entities : List Entity) →
        IsLawful limit world → (step limit world (Members group)).reply ≡ Listed entities →
        AreAscending entities }
    ensures cleared { (limit : ℕ) (world : World) (pool : ℕ) → IsLawful limit world →
        AreAscending (map (λ event. event.entity) (step limit world (Clear pool)).events) }
{}
