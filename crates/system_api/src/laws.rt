//! Why the order in which a system walks its entities can't show: laws of rows and of orders, whoever
//! makes them. Each function does nothing: its contract is the law. An argument says only of which
//! type the values are.

ghost use Rattle.std.specs.Prelude.{◌≡◌, ℕ, List, filter, if◌then◌else◌, IsTrue, []};
ghost use Rattle.std.specs.List.{AllByRecursion, flat_map};
ghost use Rattle.entity_id.specs.declared.entity.Entity.{Entity};
ghost use Rattle.entity_id.specs.FiniteMap as entries;
ghost use Rattle.world_model.specs.declared.access.Access.{Access};
ghost use Rattle.world_model.specs.declared.component.Row.{Row};
ghost use Rattle.world_model.specs.declared.deferred.Deferred.{Deferred};
ghost use Rattle.world_model.specs.Frames.{own_pools, map_at, is_member, members};
ghost use Rattle.world_model.specs.Groups.{has_pool};
ghost use Rattle.world_model.specs.Ticks.{Maps};
ghost use Rattle.system_api.specs.Emissions.{Emission, GiveTheSame, SettlesAs};
ghost use Rattle.system_api.specs.Emissions.{emissions_along, orders_along};
ghost use Rattle.system_api.specs.Rewriting.{rewritten};
ghost use Rattle.system_api.specs.Settling.{HasSameParts, IsSettled, NeverFalls};

/// Pairs that are changed entity by entity stand for the map that is changed so, in whatever order
/// they stand. No memory.
pub fn rows_are_rewritten<T>(_values: &[T])
    ensures { (change : Entity → T → T) (pairs : List (Entity × T)) →
        entries.map_of (rewritten change pairs) ≡ rewritten change (entries.map_of pairs) }
{}

/// A list is settled in one way alone, and what never falls is told by its parts. No memory.
pub fn lists_settle_in_one_way<T>(_values: &[T])
    ensures settled { (number : T → ℕ) (old a b : List T) →
        IsSettled number old a → IsSettled number old b → a ≡ b }
    ensures told { (number : T → ℕ) (a b : List T) →
        NeverFalls number a → NeverFalls number b → HasSameParts number a b → a ≡ b }
{}

/// Orders given for the pairs of a packed list, for each index in the order of its own, are settled as
/// the orders along the map, in whatever order the pairs stand. No memory.
pub fn orders_are_in_order<T>(_values: &[T])
    ensures { (give : Entity → T → List Deferred) (pairs : List (Entity × T))
        (given : List Emission) → entries.HasEachOnce pairs →
        GiveTheSame given (emissions_along give pairs) →
        SettlesAs given (orders_along give (entries.map_of pairs)) }
{}

/// A system's entities are those of any one pool of its own that are members, and so the orders of
/// its entities are those along that pool. No memory.
pub fn any_own_pool_has_the_members()
    ensures members { (access : Access) (maps : Maps) (pool : ℕ) →
        AllByRecursion entries.IsAscending maps → IsTrue (has_pool (own_pools access) pool) →
        filter (is_member access maps) (entries.keys (map_at maps pool)) ≡ members access maps }
    ensures orders { (access : Access) (maps : Maps) (pool : ℕ) (give : Entity → List Deferred) →
        AllByRecursion entries.IsAscending maps → IsTrue (has_pool (own_pools access) pool) →
        orders_along (λ (entity : Entity) (row : Row). if is_member access maps entity then give entity else [])
        (map_at maps pool) ≡ flat_map give (members access maps) }
{}
