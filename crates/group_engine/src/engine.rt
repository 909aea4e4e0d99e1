ghost use Rattle.std.specs.Prelude.{◌≡◌, ◌<◌, [], length, take, IsTrue};
ghost use Rattle.world_model.specs.Groups.{has_pool, packed_at, AreLawfulGroups};
ghost use Rattle.group_engine.specs.Grouped.{packed_of, is_named, AreGrouped};
ghost use Rattle.group_engine.specs.Engine.{decl_at, len_at, prefix_at, values_at, owner_of, inner_in};

mod building;
mod changes;
mod clearing;
mod sorting;

use crate::marking::Masks;
use crate::{searching, walking};
use entity_id::Entity;
use group_rules::Family;
use std::alloc::Global;
use std::marker::Model;
use storage::Storage;
use world_model::GroupDecl;

/// The owning groups of some pools, by number, with the number of each one's members. The pools are
/// handed to each call, in the order of their numbers; a call that takes them keeps every group packed
/// in them (`AreGrouped` in `specs/Grouped.antt`). (EnTT: what `registry.group` keeps of each group, its
/// `current` length and the pools that it owns.)
#[derive(Drop)]
pub struct GroupEngine {
    family: Family,
    // How many members each group has.
    lens: Vec<u32>,
    // The groups' numbers: an outer group before those inner to it, so that one pass enters them.
    order: Vec<u32>,
    // Which groups a change of each pool concerns; empty before the first group.
    masks: Masks,
    // How many pools there are.
    pools: u32,
}

impl Model for GroupEngine {
    ghost use Rattle.group_engine.specs.Engine.{Groups};
    ghost use Rattle.group_engine.specs.Layout.{IsKept};

    ghost Value = { Groups };

    ghost view = { λ a. record { decls = a.family; lens = a.lens.items; pools = a.pools } };

    ghost invariant = { λ a. IsKept
        (record { decls = a.family; lens = a.lens.items; pools = a.pools }) a.order.items a.masks };
}

impl GroupEngine {
    /// No groups, of so many pools. No memory. (EnTT: a registry before its first `group`.)
    pub fn new(alloc: Global, pools: u32) -> GroupEngine
        ensures decls { result.decls ≡ [] }
        ensures lens { result.lens ≡ [] }
        ensures pools { result.pools ≡ pools }
    {
        GroupEngine {
            family: Family::new(alloc),
            lens: Vec::new(alloc),
            order: Vec::new(alloc),
            masks: Masks {
                wanting: Vec::new(alloc),
                excluding: Vec::new(alloc),
            },
            pools,
        }
    }

    /// How many groups there are, at most 32. No memory. (This project's own.)
    pub fn len(&self) -> u32
        ensures { result ≡ length self.now.decls }
    {
        self.family.len()
    }

    /// The groups, by number: they are lawful together. No memory. (This project's own.)
    pub fn decls(&self) -> &[GroupDecl]
        ensures decls { result.now ≡ self.now.decls }
        ensures lawful { AreLawfulGroups self.now.pools self.now.decls }
        ensures each { length self.now.lens ≡ length self.now.decls }
    {
        self.family.as_slice()
    }

    /// The declaration of a group below [`GroupEngine::len`]. No memory. (This project's own.)
    pub fn decl(&self, group: u32) -> &GroupDecl
        requires { group < length self.now.decls }
        ensures { result.now ≡ decl_at self.now group }
    {
        self.family.decl(group)
    }

    /// The least group that owns a pool, if one does. No memory. (EnTT: `registry.owned<T>()`.)
    pub fn owner(&self, pool: u32) -> Option<u32>
        ensures { result ≡ owner_of self.now.decls pool }
    {
        searching::owner(self.family.as_slice(), pool)
    }

    /// The least group that is inner to a group below [`GroupEngine::len`] and not the same, if there is
    /// one: then the group isn't sorted. No memory. (EnTT: `registry.sortable`, negated.)
    pub fn inner(&self, group: u32) -> Option<u32>
        requires { group < length self.now.decls }
        ensures { result ≡ inner_in self.now.decls (decl_at self.now group) }
    {
        searching::inner(self.family.as_slice(), self.family.decl(group))
    }

    /// Whether a group names a pool, in any of its lists. No memory. (This project's own.)
    pub fn names(&self, pool: u32) -> bool
        ensures { result ≡ is_named self.now.decls pool }
    {
        self.masks.wanting_at(pool) != 0 || self.masks.excluding_at(pool) != 0
    }

    /// The members of a group below [`GroupEngine::len`], in the common order of its owned pools. No
    /// memory. (EnTT: `group.data()`, as long as `group.size()`.)
    pub fn members<'a, T: Copy>(&self, pools: &'a [Storage<T>], group: u32) -> &'a [Entity]
        requires group { group < length self.now.decls }
        requires pools { length pools.now ≡ self.now.pools }
        requires grouped { AreGrouped self.now.decls self.now.lens (packed_of pools.now) }
        ensures list { result.now ≡ prefix_at self.now (packed_of pools.now) group }
        ensures len { length result.now ≡ len_at self.now group }
    {
        let own = self.family.decl(group).own.as_slice();
        walking::members(&pools[own[0] as usize], self.lens[group as usize])
    }

    /// The values of a group's members in a pool that it owns: each at the place of its member. The
    /// group is below [`GroupEngine::len`]. No memory. (EnTT: `group.storage<T>().raw()`.)
    pub fn rows<'a, T: Copy>(&self, pools: &'a [Storage<T>], group: u32, pool: u32) -> &'a [T]
        requires group { group < length self.now.decls }
        requires owned { IsTrue (has_pool (decl_at self.now group).own pool) }
        requires pools { length pools.now ≡ self.now.pools }
        requires grouped { AreGrouped self.now.decls self.now.lens (packed_of pools.now) }
        ensures values { result.now ≡ take (len_at self.now group) (values_at pools.now pool) }
        ensures order { take (len_at self.now group) (packed_at (packed_of pools.now) pool)
            ≡ prefix_at self.now (packed_of pools.now) group }
        ensures len { length result.now ≡ len_at self.now group }
    {
        let count = self.lens[group as usize];
        walking::rows(&pools[pool as usize], count)
    }
}
