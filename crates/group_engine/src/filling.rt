//! A group filled by a walk of its first owned pool.

ghost use Rattle.std.specs.Prelude.{◌≡◌, ℕ, ◌+◌, ◌*◌, ◌<◌, ◌≤◌, length, slice_index_or};
ghost use Rattle.entity_id.specs.FiniteMap.{AreDistinctBy};
ghost use Rattle.world_model.specs.Groups.{has_pool, packed_at};
ghost use Rattle.group_engine.specs.Grouped.{packed_of, cores_of, IsGrouped, AreStill};
ghost use Rattle.group_engine.specs.Families.{KeepsGroups};
ghost use Rattle.group_engine.specs.Moving.{HaveSame};

use crate::passes::enter_if;
use sparse_set::Steps;
use std::sync::ledger::Ledger;
use storage::Storage;
use world_model::GroupDecl;

// Brings all identifiers that match to the front of each owned pool, and answers how many there are.
// Each group that is apart from this one, or nested with it, stays as it is.
pub fn fill<T: Copy, G: Ledger>(
    decl: &GroupDecl,
    pools: &mut [Storage<T>],
    steps: &mut Steps<G>,
) -> u32
    requires some { 0 < length decl.now.own }
    requires distinct { AreDistinctBy (λ (other : ℕ). other) decl.now.own }
    requires declared { slice_index_or decl.now.own 0 0 < length pools.old }
    ensures grouped { IsGrouped (packed_of pools.new) decl.now result }
    ensures keeps { KeepsGroups decl.now (packed_of pools.old) (packed_of pools.new) }
    ensures still { AreStill (has_pool decl.now.own) (packed_of pools.old) (packed_of pools.new) }
    ensures cores { cores_of pools.new ≡ cores_of pools.old }
    ensures steps { steps.new ≤ steps.old
        + length (packed_at (packed_of pools.old) (slice_index_or decl.now.own 0 0)) * length decl.now.own }
{
    let first = decl.own.as_slice()[0];
    let len = pools[first as usize].index().len();
    let mut count = 0;
    for place in 0..len {
        let entity = pools[first as usize].index().at(place);
        count = enter_if(decl, count, pools, entity, first, true, steps);
    }
    count
}
