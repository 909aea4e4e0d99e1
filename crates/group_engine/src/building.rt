//! A group added to a family.

ghost use Rattle.std.specs.Prelude.{◌≡◌, ℕ, ◌+◌, ◌*◌, ◌^◌, ◌<◌, ◌≤◌, ◌++◌, ◌∷◌, [], length, false, slice_index_or, slice_get, Some, None, IsTrue, IfOk, OnOk, OnErr};
ghost use Rattle.std.specs.List.{AllByRecursion};
ghost use Rattle.world_model.specs.declared.group.GroupDecl.{GroupDecl};
ghost use Rattle.world_model.specs.Groups.{has_pool, group_pools, are_declared, is_inner, is_well_formed, packed_at};
ghost use Rattle.group_rules.specs.Families.{AreLawfulTogether, same_in, add_refusal};
ghost use Rattle.group_engine.specs.Grouped.{packed_of, cores_of, AreGrouped, AreStill};
ghost use Rattle.group_engine.specs.Families.{IsOrdered};
ghost use Rattle.group_engine.specs.Masks.{AreMarked};

use crate::filling::fill;
use crate::marking::Masks;
use entity_id::OutOfMemory;
use group_rules::{Family, is_inner};
use sparse_set::Steps;
use std::sync::ledger::Ledger;
use storage::Storage;
use world_model::GroupDecl;

// The place in the order before the first group that is inner to this one.
fn place_for(decls: &[GroupDecl], order: &[u32], decl: &GroupDecl) -> usize
    requires { IsOrdered decls.now order.now }
    ensures fits { result ≤ length order.now }
    ensures before { (place group : ℕ) (other : GroupDecl) → place < result →
        slice_get order.now place ≡ Some group → slice_get decls.now group ≡ Some other →
        is_inner other decl.now ≡ false }
    ensures first { (group : ℕ) (other : GroupDecl) →
        slice_get order.now result ≡ Some group → slice_get decls.now group ≡ Some other →
        IsTrue (is_inner other decl.now) }
{
    for place in 0..order.len() {
        if is_inner(&decls[order[place] as usize], decl) {
            return place;
        }
    }
    order.len()
}

// Adds a group that the family neither has nor refuses, and fills it: the other groups stay as they are.
pub fn add_group<T: Copy, G: Ledger>(
    family: &mut Family,
    order: &mut Vec<u32>,
    lens: &mut Vec<u32>,
    masks: &mut Masks,
    decl: GroupDecl,
    pools: &mut [Storage<T>],
    steps: &mut Steps<G>,
) -> Result<u32, OutOfMemory>
    requires formed { IsTrue (is_well_formed decl) }
    requires new { same_in family.old decl ≡ None }
    requires accepted { add_refusal family.old decl ≡ None }
    requires order { IsOrdered family.old order.old.items }
    requires each { length lens.old.items ≡ length family.old }
    requires declared { IsTrue (are_declared (length pools.old) (group_pools decl)) }
    requires all_declared { AllByRecursion (λ other. IsTrue
        (are_declared (length pools.old) (group_pools other))) family.old }
    requires many { length pools.old < 2 ^ 32 }
    requires marked { AreMarked masks.old family.old order.old.items (length pools.old) }
    requires grouped { AreGrouped family.old lens.old.items (packed_of pools.old) }
    ensures ok { IfOk result (λ number. number ≡ length family.old) }
    ensures family { OnOk result (family.new ≡ family.old ++ decl ∷ []) }
    ensures lawful { OnOk result (AreLawfulTogether family.new) }
    ensures order { OnOk result (IsOrdered family.new order.new.items) }
    ensures each { OnOk result (length lens.new.items ≡ length family.new) }
    ensures marked { AreMarked masks.new family.new order.new.items (length pools.old) }
    ensures grouped { OnOk result (AreGrouped family.new lens.new.items (packed_of pools.new)) }
    ensures still { AreStill (has_pool decl.own) (packed_of pools.old) (packed_of pools.new) }
    ensures cores { cores_of pools.new ≡ cores_of pools.old }
    ensures steps { steps.new ≤ steps.old
        + length (packed_at (packed_of pools.old) (slice_index_or decl.own 0 0)) * length decl.own }
    ensures family_err { OnErr result (family.new ≡ family.old) }
    ensures order_err { OnErr result (order.new.items ≡ order.old.items) }
    ensures lens_err { OnErr result (lens.new.items ≡ lens.old.items) }
    ensures pools_err { OnErr result (pools.new ≡ pools.old) }
{
    // All memory first: a group that is half filled can't be taken back.
    if order.reserve(1).is_err() {
        return Err(OutOfMemory);
    }
    if lens.reserve(1).is_err() {
        return Err(OutOfMemory);
    }
    masks.make_places(pools.len())?;
    let place = place_for(family.as_slice(), order, &decl);
    let number = family.add_new(decl)?;
    let count = fill(family.decl(number), pools, steps);
    let _ = order.insert(place, number);
    let _ = lens.push(count);
    masks.mark(family.as_slice(), order);
    Ok(number)
}
