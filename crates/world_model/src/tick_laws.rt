//! What holds of orders and ticks, whoever carries them out.

ghost use Rattle.std.specs.Prelude.{◌≡◌, ◌+◌, ◌++◌, ℕ, List, length};
ghost use Rattle.std.specs.List.{AllByRecursion};
ghost use Rattle.world_model.specs.declared.deferred.Deferred.{Deferred};
ghost use Rattle.world_model.specs.declared.world.World.{World};
ghost use Rattle.world_model.specs.Orders.{Progress, IsFitting, apply, apply_all};
ghost use Rattle.world_model.specs.Ticks.{System, orders_of, world_after_orders};
ghost use Rattle.world_model.specs.Ticks.{world_after_systems, world_after_tick, world_after_ticks};
ghost use Rattle.world_model.specs.Worlds.{IsLawful};

/// Fitting orders leave a lawful world lawful, from wherever in a list of orders they go on; and no
/// orders change the profile, the components, the number of ticks or the groups. No memory.
pub fn orders_keep_worlds_lawful()
    ensures lawful { (limit : ℕ) (progress : Progress) (orders : List Deferred) →
        IsLawful limit progress.world →
        AllByRecursion (IsFitting progress.world.profile progress.world.decls) orders →
        IsLawful limit (apply_all limit progress orders).world }
    ensures profile { (limit : ℕ) (progress : Progress) (orders : List Deferred) →
        (apply_all limit progress orders).world.profile ≡ progress.world.profile }
    ensures components { (limit : ℕ) (progress : Progress) (orders : List Deferred) →
        (apply_all limit progress orders).world.decls ≡ progress.world.decls }
    ensures ticks { (limit : ℕ) (progress : Progress) (orders : List Deferred) →
        (apply_all limit progress orders).world.tick ≡ progress.world.tick }
    ensures groups { (limit : ℕ) (progress : Progress) (orders : List Deferred) →
        (apply_all limit progress orders).world.groups ≡ progress.world.groups }
{}

/// Orders in two parts: the second part goes on from what the first one leaves, with the identifier
/// that was spawned last. Each order is done or skipped, and a skipped one leaves the world and
/// tells nothing. No memory.
pub fn orders_in_parts()
    ensures parts { (limit : ℕ) (progress : Progress) (first second : List Deferred) →
        apply_all limit progress (first ++ second)
        ≡ apply_all limit (apply_all limit progress first) second }
    ensures counted { (limit : ℕ) (progress : Progress) (orders : List Deferred) →
        (apply_all limit progress orders).done + (apply_all limit progress orders).skipped
        ≡ progress.done + progress.skipped + length orders }
    ensures skipped { (limit : ℕ) (progress : Progress) (order : Deferred) →
        (apply limit progress order).skipped ≡ progress.skipped + 1 →
        (apply limit progress order).world ≡ progress.world }
    ensures skipped_tells_nothing { (limit : ℕ) (progress : Progress) (order : Deferred) →
        (apply limit progress order).skipped ≡ progress.skipped + 1 →
        (apply limit progress order).events ≡ progress.events }
{}

/// Ticks in two parts: so many and then so many more are as many as both together; and each counts
/// one. No memory.
pub fn ticks_in_parts()
    ensures parts { (limit : ℕ) (systems : List System) (first second : ℕ) (world : World) →
        world_after_ticks limit systems (first + second) world
        ≡ world_after_ticks limit systems second (world_after_ticks limit systems first world) }
    ensures counted { (limit : ℕ) (systems : List System) (count : ℕ) (world : World) →
        (world_after_ticks limit systems count world).tick ≡ world.tick + count }
{}

/// Lists of fitting orders, each of which begins with nothing spawned, leave a lawful world lawful.
/// So a tick does, where its systems leave lawful rows and fitting orders. No memory.
pub fn ticks_keep_worlds_lawful()
    ensures orders { (limit : ℕ) (world : World) (lists : List (List Deferred)) →
        IsLawful limit world →
        AllByRecursion (AllByRecursion (IsFitting world.profile world.decls)) lists →
        IsLawful limit (world_after_orders limit world lists) }
    ensures tick { (limit : ℕ) (systems : List System) (world : World) →
        IsLawful limit (world_after_systems systems world) →
        AllByRecursion (AllByRecursion (IsFitting world.profile world.decls))
        (orders_of systems world.tick world.pools) →
        IsLawful limit (world_after_tick limit systems world) }
{}
