//! The lists in a world. A contract sees each as the list of its items.

ghost use Rattle.std.specs.Prelude.{◌≡◌, ◌++◌, ◌∷◌, [], OnOk, OnErr};

use super::{Decl, GroupDecl, Row, Slot};
use entity_id::{Entity, OutOfMemory};
use std::marker::Model;

/// Components, by number.
#[derive(Debug, Drop)]
pub struct DeclList {
    decls: Vec<Decl>,
}

impl Model for DeclList {
    ghost use Rattle.std.specs.Prelude.{List};
    ghost use Rattle.world_model.specs.declared.component.Decl.{Decl};

    ghost Value = { List Decl };

    ghost view = { λ a. a.decls.items };
}

impl DeclList {
    /// The list of these items. No memory.
    pub fn from_vec(decls: Vec<Decl>) -> DeclList
        ensures { result ≡ decls.items }
    {
        DeclList { decls }
    }

    /// Its components. No memory.
    pub fn as_slice(&self) -> &[Decl]
        ensures { result.now ≡ self.now }
    {
        &self.decls
    }
}

/// Owning groups, by number.
#[derive(Debug, Drop)]
pub struct GroupList {
    groups: Vec<GroupDecl>,
}

impl Model for GroupList {
    ghost use Rattle.std.specs.Prelude.{List};
    ghost use Rattle.world_model.specs.declared.group.GroupDecl.{GroupDecl};

    ghost Value = { List GroupDecl };

    ghost view = { λ a. a.groups.items };
}

impl GroupList {
    /// The list of these items. No memory.
    pub fn from_vec(groups: Vec<GroupDecl>) -> GroupList
        ensures { result ≡ groups.items }
    {
        GroupList { groups }
    }

    /// Its groups. No memory.
    pub fn as_slice(&self) -> &[GroupDecl]
        ensures { result.now ≡ self.now }
    {
        &self.groups
    }
}

/// Slots, by index.
#[derive(Debug, Drop)]
pub struct SlotList {
    slots: Vec<Slot>,
}

impl Model for SlotList {
    ghost use Rattle.std.specs.Prelude.{List};
    ghost use Rattle.world_model.specs.declared.slot.Slot.{Slot};

    ghost Value = { List Slot };

    ghost view = { λ a. a.slots.items };
}

impl SlotList {
    /// The list of these items. No memory.
    pub fn from_vec(slots: Vec<Slot>) -> SlotList
        ensures { result ≡ slots.items }
    {
        SlotList { slots }
    }

    /// Its slots. No memory.
    pub fn as_slice(&self) -> &[Slot]
        ensures { result.now ≡ self.now }
    {
        &self.slots
    }
}

/// Indices of free slots, the next one to be reused first.
#[derive(Debug, Drop)]
pub struct FreeList {
    indices: Vec<u32>,
}

impl Model for FreeList {
    ghost use Rattle.std.specs.Prelude.{List, ℕ};

    ghost Value = { List ℕ };

    ghost view = { λ a. a.indices.items };
}

impl FreeList {
    /// The list of these items. No memory.
    pub fn from_vec(indices: Vec<u32>) -> FreeList
        ensures { result ≡ indices.items }
    {
        FreeList { indices }
    }

    /// Its indices. No memory.
    pub fn as_slice(&self) -> &[u32]
        ensures { result.now ≡ self.now }
    {
        &self.indices
    }
}

/// The rows of one component, each with its entity. In a lawful world they stand in ascending index.
#[derive(Debug, Drop)]
pub struct Rows {
    entries: Vec<(Entity, Row)>,
}

impl Model for Rows {
    ghost use Rattle.std.specs.Prelude.{List};
    ghost use Rattle.entity_id.specs.declared.entity.Entity.{Entity};
    ghost use Rattle.world_model.specs.declared.component.Row.{Row};

    ghost Value = { List (Entity × Row) };

    ghost view = { λ a. a.entries.items };
}

impl Rows {
    /// The list of these items. No memory.
    pub fn from_vec(entries: Vec<(Entity, Row)>) -> Rows
        ensures { result ≡ entries.items }
    {
        Rows { entries }
    }

    /// Appends an entity and its row. After a refusal the list is as before.
    pub fn push(&mut self, entity: Entity, row: Row) -> Result<(), OutOfMemory>
        ensures ok { OnOk result (self.new ≡ self.old ++ (entity, row) ∷ []) }
        ensures err { OnErr result (self.new ≡ self.old) }
    {
        self.entries.push((entity, row))?;
        Ok(())
    }

    /// Its entities and rows. No memory.
    pub fn as_slice(&self) -> &[(Entity, Row)]
        ensures { result.now ≡ self.now }
    {
        &self.entries
    }
}

/// The rows of each component, by number.
#[derive(Debug, Drop)]
pub struct PoolList {
    pools: Vec<Rows>,
}

impl Model for PoolList {
    ghost use Rattle.std.specs.Prelude.{List};
    ghost use Rattle.entity_id.specs.declared.entity.Entity.{Entity};
    ghost use Rattle.world_model.specs.declared.component.Row.{Row};

    ghost Value = { List (List (Entity × Row)) };

    ghost view = { λ a. a.pools.items };
}

impl PoolList {
    /// The list of these items. No memory.
    pub fn from_vec(pools: Vec<Rows>) -> PoolList
        ensures { result ≡ pools.items }
    {
        PoolList { pools }
    }

    /// Its pools. No memory.
    pub fn as_slice(&self) -> &[Rows]
        ensures { result.now ≡ self.now }
    {
        &self.pools
    }
}
