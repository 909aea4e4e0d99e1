//! A group put in an order.

ghost use Rattle.std.specs.Prelude.{slice_get, ◌≡◌, ℕ, ◌+◌, ◌*◌, ◌<◌, ◌≤◌, length, take, Some, IsTrue, OnOk, OnErr};
ghost use Rattle.std.specs.List.Sorted.{IsPermutation};
ghost use Rattle.entity_id.specs.FiniteMap.{AreDistinctBy};
ghost use Rattle.world_model.specs.declared.group.GroupDecl.{GroupDecl};
ghost use Rattle.sparse_set.specs.WalkOrders.{IsWalkOrder};
ghost use Rattle.world_model.specs.Groups.{has_pool, packed_at, group_prefix};
ghost use Rattle.group_engine.specs.Grouped.{AreArranged, packed_of, cores_of, AreGrouped};
ghost use Rattle.group_engine.specs.Families.{IsFamily, HasNoInner};

use entity_id::{Entity, OutOfMemory};
use sparse_set::Steps;
use std::sync::ledger::Ledger;
use storage::Storage;
use world_model::GroupDecl;

// Puts the identifiers of an order at the first places of each pool of a list.
fn arrange_all<T: Copy, G: Ledger>(
    own: &[u32],
    pools: &mut [Storage<T>],
    order: &[Entity],
    steps: &mut Steps<G>,
)
    requires distinct { AreDistinctBy (λ (pool : ℕ). pool) own.now }
    requires declared { (pool : ℕ) → IsTrue (has_pool own.now pool) → pool < length pools.old }
    requires order { (pool : ℕ) → IsTrue (has_pool own.now pool) →
        IsPermutation order.now (take (length order.now) (packed_at (packed_of pools.old) pool)) }
    ensures arranged { AreArranged own.now order.now (packed_of pools.old) (packed_of pools.new) }
    ensures cores { cores_of pools.new ≡ cores_of pools.old }
    ensures steps { steps.new ≤ steps.old + length own.now * length order.now }
{
    for k in 0..own.len() {
        pools[own[k] as usize].arrange(order, steps);
    }
}

// Sorts a group's members, which no group is inner to, by the key at the place of each.
pub fn sort_group<T: Copy, G: Ledger>(
    decls: &[GroupDecl],
    lens: &[u32],
    pools: &mut [Storage<T>],
    group: u32,
    keys: &[i64],
    steps: &mut Steps<G>,
) -> Result<(), OutOfMemory>
    requires family { IsFamily decls.now }
    requires each { length lens.now ≡ length decls.now }
    requires grouped { AreGrouped decls.now lens.now (packed_of pools.old) }
    requires declared { (decl : GroupDecl) → slice_get decls.now group ≡ Some decl →
        (pool : ℕ) → IsTrue (has_pool decl.own pool) → pool < length pools.old }
    requires group { group < length decls.now }
    requires keys { slice_get lens.now group ≡ Some (length keys.now) }
    requires inner { (decl : GroupDecl) → slice_get decls.now group ≡ Some decl → HasNoInner decls.now group decl }
    ensures grouped { AreGrouped decls.now lens.now (packed_of pools.new) }
    ensures order { OnOk result ((decl : GroupDecl) → slice_get decls.now group ≡ Some decl →
        IsWalkOrder keys.now (group_prefix (packed_of pools.old) decl (length keys.now))
        (group_prefix (packed_of pools.new) decl (length keys.now))) }
    ensures arranged { OnOk result ((decl : GroupDecl) → slice_get decls.now group ≡ Some decl →
        AreArranged decl.own (group_prefix (packed_of pools.new) decl (length keys.now))
        (packed_of pools.old) (packed_of pools.new)) }
    ensures err { OnErr result (pools.new ≡ pools.old) }
    ensures cores { cores_of pools.new ≡ cores_of pools.old }
    ensures steps { (decl : GroupDecl) → slice_get decls.now group ≡ Some decl →
        steps.new ≤ steps.old + length decl.own * length keys.now }
{
    let own = decls[group as usize].own.as_slice();
    let order = pools[own[0] as usize]
        .index()
        .order_of(lens[group as usize], keys)?;
    arrange_all(own, pools, order.as_slice(), steps);
    Ok(())
}
