//! What holds of every system of the language, whoever runs it.

ghost use Rattle.std.specs.Prelude.{◌≡◌, ◌<◌, ◌^◌, ℕ, ℤ, List, IsTrue};
ghost use Rattle.std.specs.Ordering.{int_eq};
ghost use Rattle.entity_id.specs.declared.entity.Profile.{Profile};
ghost use Rattle.entity_id.specs.Fields.{entity_in, field_of};
ghost use Rattle.world_model.specs.declared.access.Access.{Access};
ghost use Rattle.world_model.specs.declared.component.Decl.{Decl};
ghost use Rattle.world_model.specs.declared.component.Kind.TheVariants.{Ref};
ghost use Rattle.world_model.specs.declared.world.World.{World};
ghost use Rattle.world_model.specs.Components.{fits_kind};
ghost use Rattle.world_model.specs.Integers.{IsI64};
ghost use Rattle.world_model.specs.Ticks.{System as AnySystem};
ghost use Rattle.world_model.specs.Worlds.{IsLawful};
ghost use Rattle.row_lang.specs.Arithmetic.{truth};
ghost use Rattle.row_lang.specs.Effects.{IsChecked, system_effect};
ghost use Rattle.world_model.specs.Frames.{AreAscendingMaps, ChangesOnlyItsRows, DependsOnItsLists, GivesAtMost, GivesAtMostOfEach, IsFitSystem};
ghost use Rattle.row_lang.specs.Systems.{System, IsSystem, command_count};
ghost use Rattle.row_lang.specs.Values.{same_entity};

/// A system changes rows of its own entities alone, in the pools that it writes; the identifiers of every
/// pool stay. No memory.
pub fn systems_change_only_their_rows()
    ensures { (profile : Profile) (system : System) →
        ChangesOnlyItsRows system.access (system_effect profile system) }
{}

/// What a system leaves in the pools that it writes, and its orders, depend on no pool but those that its
/// lists name. No memory.
pub fn systems_depend_on_their_lists()
    ensures { (profile : Profile) (system : System) →
        DependsOnItsLists system.access (system_effect profile system) }
{}

/// Every system that lines stand for is checked: its lists are lawful, and each of its statements is one
/// under these lists. So it needs no check behind the reader's. Nothing is asked of the components. No
/// memory.
pub fn systems_are_checked()
    ensures { (decls : List Decl) (system : System) →
        IsSystem decls system → IsChecked decls system }
{}

/// A checked system is one that a world may have: in every lawful world of its components, whatever the
/// profile, the rows that it leaves fit, and so do its orders. No memory.
pub fn checked_systems_are_fit()
    ensures { (profile : Profile) (decls : List Decl) (system : System) →
        IsChecked decls system →
        IsFitSystem profile decls system.access (system_effect profile system) }
{}

/// Every system that lines stand for is one that a world of the same components may have, whatever the
/// profile. No memory.
pub fn systems_are_fit()
    ensures { (profile : Profile) (decls : List Decl) (system : System) →
        IsSystem decls system →
        IsFitSystem profile decls system.access (system_effect profile system) }
{}

/// A checked system gives no more orders than it has command statements, for each row of the first pool
/// that it reads or writes. No memory.
pub fn checked_systems_give_few_orders()
    ensures { (profile : Profile) (decls : List Decl) (system : System) →
        IsChecked decls system →
        GivesAtMost (command_count system.statements) system.access (system_effect profile system) }
{}

/// A checked system gives no more orders than it has command statements, for each row of any one pool that
/// it reads or writes, so of the smallest too, whichever that is. The pools' rows stand in ascending index,
/// as they do in every lawful world. No memory.
pub fn smallest_pools_bound_orders()
    ensures maps { (profile : Profile) (decls : List Decl) (system : System) →
        IsChecked decls system →
        GivesAtMostOfEach (command_count system.statements) system.access
        (system_effect profile system) }
    ensures worlds { (limit : ℕ) (world : World) →
        IsLawful limit world → AreAscendingMaps world.pools }
{}

/// A number that a field of a row may hold for an identifier is the field of the identifier that it holds.
/// So two such numbers hold the same identifier exactly where they are equal, and the word `same` is worth
/// what their comparison is. No memory.
pub fn fields_hold_one_identifier()
    ensures field { (profile : Profile) (x : ℤ) → IsI64 x → IsTrue (fits_kind profile Ref x) →
        field_of profile (entity_in profile x) ≡ x }
    ensures one { (profile : Profile) (x y : ℤ) → IsI64 x → IsI64 y →
        IsTrue (fits_kind profile Ref x) → IsTrue (fits_kind profile Ref y) →
        entity_in profile x ≡ entity_in profile y → x ≡ y }
    ensures same { (profile : Profile) (x y : ℤ) → IsI64 x → IsI64 y →
        IsTrue (fits_kind profile Ref x) → IsTrue (fits_kind profile Ref y) →
        same_entity profile x y ≡ truth (int_eq x y) }
{}

/// Any fit system that changes only its rows, of the language or not, leaves a lawful world lawful, before
/// its orders are carried out. No memory.
pub fn fit_systems_keep_worlds_lawful()
    ensures { (profile : Profile) (decls : List Decl) (access : Access) (system : AnySystem) →
        IsFitSystem profile decls access system →
        ChangesOnlyItsRows access system →
        (limit : ℕ) (world : World) →
        IsLawful limit world →
        world.profile ≡ profile →
        world.decls ≡ decls →
        world.tick < 2 ^ 63 →
        IsLawful limit (record world { pools = (system world.tick world.pools).maps }) }
{}
