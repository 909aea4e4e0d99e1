ghost use Rattle.std.specs.Prelude.{◌≡◌, not, count_by};
ghost use Rattle.std.proofs.Props.{props};
ghost use Rattle.row_lang.specs.Naming.{AreNamedDecls};
ghost use Rattle.world_text.specs.SystemLines.{IsCommandCount};

use super::format::Format;
use super::section::Section;
use row_lang::{SystemDef, SystemDraft};
use world_model::{Decl, GroupDecl, Rows, Slot};

/// What the lines read so far stand for.
#[derive(Debug, Drop)]
pub struct Draft {
    /// The document's format.
    pub format: Format,
    /// The latest part of the document that the lines have reached.
    pub section: Section,
    /// The components, by number.
    pub decls: Vec<Decl>,
    /// The groups, by number.
    pub groups: Vec<GroupDecl>,
    /// The systems whose last line stands, by number.
    pub systems: Vec<SystemDef>,
    /// The system whose last line doesn't, where there is one.
    pub unfinished: Option<SystemDraft>,
    /// How many command statements the systems have, all together.
    pub commands: u32,
    /// The tick number, and 0 before its line.
    pub tick: u64,
    /// The slots, by index.
    pub slots: Vec<Slot>,
    /// The free list, top first.
    pub free: Vec<u32>,
    /// For each slot, whether it is live or on the free list.
    pub settled: Vec<bool>,
    /// How many slots are neither.
    pub unsettled: usize,
    /// The rows of the pools, the last of which may grow.
    pub pools: Vec<Rows>,
    ghost named: { AreNamedDecls decls.items } by { Prim.hlevel props },
    ghost commanded: { IsCommandCount systems.items unfinished commands },
    ghost counted: { unsettled ≡ count_by not settled.items },
}
