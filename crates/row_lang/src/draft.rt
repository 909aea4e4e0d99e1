//! The lines of a system, read one at a time.

ghost use Rattle.std.specs.Prelude.{◌≡◌, ◌≢◌, ℕ, true, List, [], IfOk, IsErrOf};
ghost use Rattle.world_model.specs.declared.component.Decl.{Decl as AnyDecl};
ghost use Rattle.world_model.specs.Names.{is_name as has_form};
ghost use Rattle.row_lang.specs.BodyLines.{BodyLine};
ghost use Rattle.row_lang.specs.Drafts.{IsFirstLine};
ghost use Rattle.row_lang.specs.Spelling.{first_line_text};
ghost use Rattle.row_lang.specs.Systems.{IsDraftOf, IsSystemOf, is_closed as has_closed};

use super::words::after;
use super::{LineFault, Part, SystemDef};
use entity_id::Name;
use std::alloc::Global;
use std::marker::Model;
use world_model::{Decl, is_name};

/// How many bytes a line has at most, its end not counted.
pub const LINE_LIMIT: usize = 4_096;

/// How many `do` lines a system has at most.
pub const STATEMENT_LIMIT: usize = 64;

/// How many command statements a system has at most.
pub const COMMAND_LIMIT: u32 = 8;

/// A system whose lines are being read. A contract sees what the lines stand for so far, and the last part
/// of a system that they have reached (`Draft` in `specs/Systems.antt`). (This project's own.)
#[derive(Debug, Drop)]
pub struct SystemDraft {
    pub(super) part: Part,
    pub(super) def: SystemDef,
}

impl Model for SystemDraft {
    ghost use Rattle.std.specs.Prelude.{◌≤◌};
    ghost use Rattle.world_model.specs.Frames.{pool_limit};
    ghost use Rattle.row_lang.specs.Systems.{Draft, command_count, command_limit, listed};

    ghost Value = { Draft };

    ghost view = { λ a. record { part = a.part; system = a.def } };

    ghost invariant = { λ a. (listed a.def.access ≤ pool_limit) ×
        (command_count a.def.statements ≤ command_limit) };
}

impl SystemDraft {
    /// Reads the first line of a system, `system NAME`, without its end. `Bad` exactly where the line isn't
    /// these words with a name of the form of names. `OutOfMemory` where memory for the name runs out.
    pub fn begin(alloc: Global, first: &[u8], decls: &[Decl]) -> Result<SystemDraft, LineFault>
        ensures ok { IfOk result (λ draft. IsFirstLine first.now draft) }
        ensures bad { IsErrOf result LineFault.Bad → (name : List ℕ) → has_form name ≡ true →
            first.now ≢ first_line_text name }
        ensures draft { IfOk result (λ draft. IsDraftOf decls.now draft.system.name [] draft) }
    {
        let Some(name) = after(first, b"system ") else {
            return Err(LineFault::Bad);
        };
        if !is_name(name) {
            return Err(LineFault::Bad);
        }
        let name = Name::from_vec(Vec::from_slice(alloc, name)?);
        Ok(SystemDraft {
            part: Part::Begun,
            def: SystemDef::new(alloc, name),
        })
    }

    /// Whether the last line was read. No memory.
    pub fn is_closed(&self) -> bool
        ensures { result ≡ has_closed self.now }
    {
        self.part.is_between(Part::Closed, Part::Closed)
    }

    /// What the lines stand for so far. No memory.
    pub fn def(&self) -> &SystemDef
        ensures { result.now ≡ self.now.system }
    {
        &self.def
    }

    /// The system that the lines stand for. The draft is closed. No memory.
    pub fn finish(self) -> SystemDef
        requires { has_closed self ≡ true }
        ensures system { result ≡ self.system }
        ensures lines { (decls : List AnyDecl) (name : List ℕ) (lines : List BodyLine) →
            IsDraftOf decls name lines self → IsSystemOf decls name lines result }
    {
        self.def
    }
}
