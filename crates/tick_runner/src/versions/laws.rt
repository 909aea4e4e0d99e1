//! Laws of pools at versions. Each function does nothing: its contract is the law.

ghost use Rattle.std.specs.Prelude.{◌≡◌, ◌+◌, ℕ, List, map, Some, slice_get, IsTrue};
ghost use Rattle.world_model.specs.Frames.{system_pools, ChangesOnlyItsRows};
ghost use Rattle.world_model.specs.Groups.{has_pool};
ghost use Rattle.world_model.specs.Ticks.{Maps, maps_after_systems};
ghost use Rattle.access_graph.specs.Conflicts.{need, writers};
ghost use Rattle.tick_runner.specs.Versions.{at, maps_before};

use system_api::System;

/// A system that finds each pool of its lists at the version that it needs leaves each pool that it writes
/// at the next version, and gives the orders that it gives in the fold; and at its last version each
/// pool is as the fold leaves it. No memory. (This project's own.)
pub fn systems_raise_versions<S: System>(_systems: &[S])
    ensures rows { (systems : List S) (place tick : ℕ) (system : S) (maps found : Maps) → slice_get systems place ≡ Some system →
        ((pool : ℕ) → IsTrue (has_pool (system_pools (S.lists system)) pool) →
        slice_get found pool ≡ at S.lists S.effect systems tick maps pool (need (map S.lists systems) place pool)) →
        (pool : ℕ) → IsTrue (has_pool (S.lists system).write pool) →
        slice_get (S.effect system tick found).maps pool ≡ at S.lists S.effect systems tick maps pool (need (map S.lists systems) place pool + 1) }
    ensures orders { (systems : List S) (place tick : ℕ) (system : S) (maps found : Maps) → slice_get systems place ≡ Some system →
        ((pool : ℕ) → IsTrue (has_pool (system_pools (S.lists system)) pool) →
        slice_get found pool ≡ at S.lists S.effect systems tick maps pool (need (map S.lists systems) place pool)) →
        (S.effect system tick found).orders ≡ (S.effect system tick (maps_before S.effect systems tick maps place)).orders }
    ensures last { (systems : List S) (tick pool : ℕ) (maps : Maps) →
        at S.lists S.effect systems tick maps pool (writers (map S.lists systems) pool) ≡ slice_get (maps_after_systems (map S.effect systems) tick maps) pool }
{}

/// What a system may change, as any function may know it, also one that starts threads. No memory. (This
/// project's own.)
pub fn systems_keep_frames<S: System>(_systems: &[S])
    ensures { (system : S) → ChangesOnlyItsRows (S.lists system) (S.effect system) }
{}
