//! Systems, as those who run them know them.

ghost use Rattle.std.specs.Prelude.{◌≡◌, ℕ, ◌<◌, ◌≤◌, ◌+◌, ◌^◌, [], List, length, IsTrue};
ghost use Rattle.std.specs.List.{AllByRecursion};
ghost use Rattle.entity_id.specs.FiniteMap as entries;
ghost use Rattle.world_model.specs.declared.access.Access.{Access as Lists};
ghost use Rattle.world_model.specs.Frames.{system_pools, ChangesOnlyItsRows, DependsOnItsLists};
ghost use Rattle.world_model.specs.Groups.{are_declared};
ghost use Rattle.world_model.specs.Ticks.{Maps, Effect};
ghost use Rattle.system_api.specs.Emissions.{SettlesAs};
ghost use Rattle.system_api.specs.Registers.{Shows, StandsFor, MayWalkPrefix, ChangesRows};
ghost use Rattle.system_api.specs.Running.{AreLentFor, HasRoomFor, AreSameSizesIn, sizes_of};

use crate::buffer::Buffer;
use crate::lent::Lent;
use world_model::Access;

/// What runs once a tick: it changes rows of its entities and gives orders, by the pools of its lists
/// and the tick number alone. (EnTT: a function that `entt::organizer` is given.)
pub trait System {
    /// Its four lists of pools.
    ghost lists: { Self → Lists };

    /// What it makes, at a tick number, of the rows of all components: their rows afterwards, and its
    /// orders in ascending index of its entities.
    ghost effect: { Self → ℕ → Maps → Effect };

    /// How many orders it gives at most, where the components have so many rows.
    ghost limit: { Self → List ℕ → ℕ };

    /// Its lists. No memory. (EnTT: the read-only and read-write types of an organizer's vertex.)
    fn access(&self) -> &Access
        ensures { result.now ≡ lists self.now };

    /// How many orders it gives at most, where the pools have these sizes, one for each pool in
    /// ascending number. No memory. (This project's own.)
    fn bound(&self, sizes: &[u32]) -> u64
        requires { IsTrue (are_declared (length sizes.now) (system_pools (lists self.now))) }
        ensures { result ≡ limit self.now sizes.now };

    /// Runs once on lent pools, and emits its orders in whatever order; settled, they are those of its
    /// effect. What it does is told for all maps that the pools show, so it depends on no other pool.
    /// No memory. (EnTT: the call of a vertex's function.)
    fn run(&self, lent: &mut Lent<'_>, tick: u64, out: &mut Buffer)
        requires pools { AreLentFor (lists self.now) lent.old }
        requires prefix { (maps : Maps) → Shows lent.old maps →
            MayWalkPrefix (lists self.now) maps lent.old }
        requires tick { tick < 2 ^ 63 }
        requires empty { out.old.list ≡ [] }
        requires room { HasRoomFor (limit self.now) lent.old out.old.spare }
        ensures pools { ChangesRows lent.old lent.new }
        ensures rows { (maps : Maps) → Shows lent.old maps →
            AllByRecursion (StandsFor (effect self.now tick maps).maps) lent.new.writes }
        ensures orders { (maps : Maps) → Shows lent.old maps →
            SettlesAs out.new.list (effect self.now tick maps).orders }
        ensures spare { out.new.spare + length out.new.list ≡ out.old.spare };

    /// It changes rows of its entities in the pools that it writes, and nothing else.
    ghost frame: { (system : Self) → ChangesOnlyItsRows (lists system) (effect system) };

    /// It depends on the pools of its lists alone.
    ghost local: { (system : Self) → DependsOnItsLists (lists system) (effect system) };

    /// It gives no more orders than its limit for the sizes of the components.
    ghost few: { (system : Self) (tick : ℕ) (maps : Maps) → AllByRecursion entries.IsAscending maps →
        length (effect system tick maps).orders ≤ limit system (sizes_of maps) };

    /// Its limit depends on the sizes of the pools of its lists alone.
    ghost sized: { (system : Self) (a b : List ℕ) →
        AreSameSizesIn (system_pools (lists system)) a b → limit system a ≡ limit system b };
}
