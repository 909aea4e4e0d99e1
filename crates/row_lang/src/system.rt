//! Systems.

ghost use Rattle.std.specs.Prelude.{◌≡◌, ◌<◌, ◌-◌, ◌++◌, ◌∷◌, [], ◌^◌, OnOk, OnErr};
ghost use Rattle.row_lang.specs.Systems.{command_count, begun, is_command as is_command_statement, with_list};

use super::{AccessList, Statement, StatementList};
use entity_id::{Name, OutOfMemory, Pools};
use std::alloc::Global;
use std::marker::Model;
use world_model::Access;

/// A system: its name, the pools that it uses and how, and its statements. A
/// [`SystemDraft`](super::SystemDraft) makes one of a system's lines. (This project's own; in EnTT a
/// system is any function that an `entt::organizer` is given.)
#[derive(Debug, Drop)]
pub struct SystemDef {
    name: Name,
    access: Access,
    statements: StatementList,
    commands: u32,
}

impl Model for SystemDef {
    ghost use Rattle.std.specs.Prelude.{◌≡◌};
    ghost use Rattle.row_lang.specs.Systems.{System, command_count};

    ghost Value = { System };

    ghost view = { λ a. record { name = a.name; access = a.access; statements = a.statements } };

    ghost invariant = { λ a. a.commands ≡ command_count a.statements };
}

impl SystemDef {
    // A system of this name with empty lists and no statement. No memory.
    pub(super) fn new(alloc: Global, name: Name) -> SystemDef
        ensures { result ≡ (begun name).system }
    {
        SystemDef {
            name,
            access: Access {
                read: Pools::from_vec(Vec::new(alloc)),
                write: Pools::from_vec(Vec::new(alloc)),
                look: Pools::from_vec(Vec::new(alloc)),
                without: Pools::from_vec(Vec::new(alloc)),
            },
            statements: StatementList::new(alloc),
            commands: 0,
        }
    }

    /// Its name. No memory.
    pub fn name(&self) -> &Name
        ensures { result.now ≡ self.now.name }
    {
        &self.name
    }

    /// The pools that it uses, each list in ascending number. No memory. (EnTT: what
    /// `entt::organizer::emplace` is told of a system.)
    pub fn access(&self) -> &Access
        ensures { result.now ≡ self.now.access }
    {
        &self.access
    }

    /// Its statements, in the order of its lines. No memory.
    pub fn statements(&self) -> &[Statement]
        ensures { result.now ≡ self.now.statements }
    {
        self.statements.as_slice()
    }

    /// How many of its statements are command statements: all but `set` are. No memory.
    pub fn commands(&self) -> u32
        ensures { result ≡ command_count self.now.statements }
    {
        self.commands
    }

    // The allocator that it was made with.
    pub(super) fn allocator(&self) -> Global {
        self.statements.allocator()
    }

    // Sets one of its lists. No memory.
    pub(super) fn set_list(&mut self, list: AccessList, pools: Pools)
        ensures { self.new ≡ record self.old { access = with_list self.old.access list pools } }
    {
        match list {
            AccessList::Read => self.access.read = pools,
            AccessList::Write => self.access.write = pools,
            AccessList::Look => self.access.look = pools,
            AccessList::Without => self.access.without = pools,
        }
    }

    // Appends a statement, of which the caller knows whether it is a command statement. After the refusal
    // all is as before.
    pub(super) fn push(&mut self, statement: Statement, is_command: bool) -> Result<(), OutOfMemory>
        requires told { is_command ≡ is_command_statement statement }
        requires few { command_count self.old.statements < 2 ^ 32 - 1 }
        ensures ok { OnOk result
            (self.new ≡ record self.old { statements = self.old.statements ++ statement ∷ [] }) }
        ensures err { OnErr result (self.new ≡ self.old) }
    {
        self.statements.push(statement)?;
        if is_command {
            self.commands += 1;
        }
        Ok(())
    }
}
