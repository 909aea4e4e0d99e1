//! Which groups a change of a pool concerns.

ghost use Rattle.std.specs.Prelude.{◌≡◌, ℕ, ◌<◌, ◌≤◌, ◌^◌, List, length, slice_index_or, IsTrue, OnOk};
ghost use Rattle.std.specs.List.{AllByRecursion};
ghost use Rattle.world_model.specs.declared.group.GroupDecl.{GroupDecl};
ghost use Rattle.world_model.specs.Groups.{group_pools, are_declared, group_limit};
ghost use Rattle.group_engine.specs.Families.{IsOrdered};
ghost use Rattle.group_engine.specs.Masks.{may_enter, IsMask, AreMasks, AreMarked};

use crate::testing::may_enter;
use entity_id::OutOfMemory;
use world_model::GroupDecl;

/// For each pool two masks with a bit for each place of the groups' order, so that a change of the pool
/// tries only the groups that it concerns. A pool that has none concerns no group.
#[derive(Drop)]
pub struct Masks {
    // The groups that own or observe the pool.
    pub wanting: Vec<u32>,
    // The groups that exclude it.
    pub excluding: Vec<u32>,
}

impl Masks {
    // The groups that own or observe a pool.
    pub fn wanting_at(&self, pool: u32) -> u32
        ensures { result ≡ slice_index_or self.now.wanting.items pool 0 }
    {
        match self.wanting.get(pool as usize) {
            Some(mask) => *mask,
            None => 0,
        }
    }

    // The groups that exclude a pool.
    pub fn excluding_at(&self, pool: u32) -> u32
        ensures { result ≡ slice_index_or self.now.excluding.items pool 0 }
    {
        match self.excluding.get(pool as usize) {
            Some(mask) => *mask,
            None => 0,
        }
    }

    // Makes a place for each pool.
    pub fn make_places(&mut self, pools: usize) -> Result<(), OutOfMemory>
        ensures marked { (decls : List GroupDecl) (order : List ℕ) →
            AreMarked self.old decls order pools → AreMarked self.new decls order pools }
        ensures wanting { OnOk result (length self.new.wanting.items ≡ pools) }
        ensures excluding { OnOk result (length self.new.excluding.items ≡ pools) }
    {
        if self.wanting.resize(pools, 0).is_err() {
            return Err(OutOfMemory);
        }
        if self.excluding.resize(pools, 0).is_err() {
            return Err(OutOfMemory);
        }
        Ok(())
    }

    // Writes the masks of all pools anew: a group more puts those behind it in the order at other places.
    pub fn mark(&mut self, decls: &[GroupDecl], order: &[u32])
        requires order { IsOrdered decls.now order.now }
        requires few { length order.now ≤ group_limit }
        requires many { length self.old.wanting.items < 2 ^ 32 }
        requires same { length self.old.excluding.items ≡ length self.old.wanting.items }
        requires declared { AllByRecursion (λ decl. IsTrue
            (are_declared (length self.old.wanting.items) (group_pools decl))) decls.now }
        ensures { AreMarked self.new decls.now order.now (length self.old.wanting.items) }
    {
        mark_pools(decls, order, true, &mut self.wanting);
        mark_pools(decls, order, false, &mut self.excluding);
    }
}

// The groups that may be entered by an identifier that comes into a pool, or by one that goes.
fn mask_of(decls: &[GroupDecl], order: &[u32], pool: u32, held: bool) -> u32
    requires order { IsOrdered decls.now order.now }
    requires few { length order.now ≤ group_limit }
    ensures { IsMask result decls.now order.now (may_enter pool held) }
{
    let mut mask = 0u32;
    for place in 0..order.len() {
        if may_enter(&decls[order[place] as usize], pool, held) {
            mask |= 1u32 << place;
        }
    }
    mask
}

// Writes the mask of each pool; the groups name no others.
fn mark_pools(decls: &[GroupDecl], order: &[u32], held: bool, masks: &mut [u32])
    requires order { IsOrdered decls.now order.now }
    requires few { length order.now ≤ group_limit }
    requires many { length masks.old < 2 ^ 32 }
    requires declared { AllByRecursion (λ decl. IsTrue
        (are_declared (length masks.old) (group_pools decl))) decls.now }
    ensures masks { AreMasks masks.new decls.now order.now (length masks.old) held }
    ensures len { length masks.new ≡ length masks.old }
{
    for pool in 0..masks.len() {
        masks[pool] = mask_of(decls, order, pool as u32, held);
    }
}
