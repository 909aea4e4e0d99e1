//! One identifier moved to one place in several pools.

ghost use Rattle.std.specs.Prelude.{◌≡◌, ℕ, ◌+◌, ◌<◌, ◌≤◌, length, IsTrue};
ghost use Rattle.entity_id.specs.FiniteMap as entries;
ghost use Rattle.entity_id.specs.FiniteMap.{AreDistinctBy};
ghost use Rattle.world_model.specs.Groups.{has_pool, packed_at};
ghost use Rattle.group_engine.specs.Grouped.{packed_of, core_of, cores_of};
ghost use Rattle.group_engine.specs.Moving.{IsReady, IsMoved, AreMoved};

use entity_id::Entity;
use sparse_set::Steps;
use std::sync::ledger::Ledger;
use storage::Storage;

// Exchanges an identifier with what stands at a place, if it isn't there.
fn bring<T: Copy, G: Ledger>(
    pool: &mut Storage<T>,
    entity: Entity,
    place: u32,
    steps: &mut Steps<G>,
)
    requires { IsReady entity place (entries.keys pool.old.pairs) }
    ensures moved { IsMoved entity place (entries.keys pool.old.pairs) (entries.keys pool.new.pairs) }
    ensures core { core_of pool.new ≡ core_of pool.old }
    ensures steps { steps.new ≤ steps.old + 1 }
{
    let Some(at) = pool.index().index_of(entity) else {
        return;
    };
    if at != place {
        pool.swap_at(at, place, steps);
    }
}

// Does so in each pool of a list.
pub fn bring_in_all<T: Copy, G: Ledger>(
    own: &[u32],
    pools: &mut [Storage<T>],
    entity: Entity,
    place: u32,
    steps: &mut Steps<G>,
)
    requires ready { (pool : ℕ) → IsTrue (has_pool own.now pool) →
        IsReady entity place (packed_at (packed_of pools.old) pool) }
    requires distinct { AreDistinctBy (λ (pool : ℕ). pool) own.now }
    ensures moved { AreMoved own.now entity place (packed_of pools.old) (packed_of pools.new) }
    ensures cores { cores_of pools.new ≡ cores_of pools.old }
    ensures steps { steps.new ≤ steps.old + length own.now }
{
    for k in 0..own.len() {
        let pool = own[k] as usize;
        bring(&mut pools[pool], entity, place, steps);
    }
}
