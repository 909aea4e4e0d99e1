//! The header lines of a document, added one at a time.

ghost use Rattle.std.specs.Prelude.{◌≡◌, ◌++◌, ◌∷◌, [], ℕ, List, not, true, map, IfOk, OnOk, OnErr, IsErrOf};
ghost use Rattle.world_text.specs.Documents.{IsLawfulDocument, header_of};
ghost use Rattle.world_text.specs.Drafts.{Stands, TakesLine};
ghost use Rattle.world_text.specs.Fitting.{is_unfinished};
ghost use Rattle.world_text.specs.Formats.{version_1};
ghost use Rattle.world_text.specs.Headers.{TakesHeaderLine, RefusesHeaderLine, RefusesHeaders, KeepsOthers, header_in, header_so_far};
ghost use Rattle.world_text.specs.LineKinds.{Line};
ghost use Rattle.world_text.specs.Lines.{line_text};

use super::SystemList;
use super::draft::Draft;
use super::format::VERSION_1;
use super::name_lines::{read_component, read_group};
use super::reading::empty_draft;
use super::section::Section;
use super::system_lines::{has_unfinished, read_body, read_system};
use entity_id::split_once;
use row_lang::LineFault;
use row_lang::words::after;
use std::alloc::Global;
use std::marker::Model;
use world_model::{Decl, DeclList, GroupList};

/// What header lines stand for.
#[derive(Debug, Drop)]
pub struct Header {
    /// The components, by number.
    pub decls: DeclList,
    /// The groups, by number.
    pub groups: GroupList,
    /// The systems, by number.
    pub systems: SystemList,
}

/// Header lines that are added one at a time: those of a document's components, groups and systems,
/// behind its first line. A contract sees what they stand for so far (`HeaderSoFar` in
/// `specs/Headers.antt`). (This project's own.)
#[derive(Debug, Drop)]
pub struct HeaderDraft {
    draft: Draft,
}

impl Model for HeaderDraft {
    ghost use Rattle.world_text.specs.Headers.{HeaderSoFar, IsHeaderDraft, header_in};

    ghost Value = { HeaderSoFar };

    ghost view = { λ a. header_in a.draft };

    ghost invariant = { λ a. IsHeaderDraft a.draft };
}

impl HeaderDraft {
    /// No lines. No memory.
    pub fn new(alloc: Global) -> HeaderDraft
        ensures { result ≡ header_so_far [] }
    {
        let mut draft = empty_draft(alloc, VERSION_1);
        draft.section = Section::Version;
        HeaderDraft { draft }
    }

    /// Adds a line, without its end. `Bad` exactly where it isn't admissible as a component line, a group
    /// line or a line of a system, after line 1 and the lines added before. `OutOfMemory` where memory for
    /// a copy of the line, or for what it adds, runs out. After a refusal the draft is as before.
    pub fn add(&mut self, line: &[u8]) -> Result<(), LineFault>
        ensures ok { OnOk result (TakesHeaderLine self.old line.now self.new) }
        ensures bad { IsErrOf result LineFault.Bad → RefusesHeaderLine self.old line.now }
        ensures err { OnErr result (self.new ≡ self.old) }
    {
        if let Some(_parts) = split_once(line, b'\n') {
            return Err(LineFault::Bad);
        }
        let alloc = *self.draft.decls.allocator();
        let mut text = Vec::from_slice(alloc, line)?;
        text.push(b'\n')?;
        read_header_line(alloc, &mut self.draft, &text)?;
        Ok(())
    }

    /// Whether no system stands unfinished. No memory.
    pub fn at_rest(&self) -> bool
        ensures { result ≡ not (is_unfinished self.now.systems) }
    {
        self.draft.unfinished.is_none()
    }

    /// The components that the lines declare so far. No memory.
    pub fn decls(&self) -> &[Decl]
        ensures { result.now ≡ self.now.decls }
    {
        &self.draft.decls
    }

    /// The draft of a document that begins with these lines, behind its first line. No memory.
    pub fn into_draft(self) -> Draft
        ensures stands { (lines : List Line) → self ≡ header_so_far lines →
            Stands result (Line.Version ∷ lines) }
        ensures format { result.format ≡ version_1 }
    {
        self.draft
    }

    /// What the lines stand for. No system stands unfinished. No memory.
    pub fn finish(self) -> Header
        requires { not (is_unfinished self.systems) ≡ true }
        ensures decls { result.decls ≡ self.decls }
        ensures groups { result.groups ≡ self.groups }
        ensures systems { result.systems ≡ self.systems.closed }
    {
        let draft = self.draft;
        Header {
            decls: DeclList::from_vec(draft.decls),
            groups: GroupList::from_vec(draft.groups),
            systems: SystemList::from_vec(draft.systems),
        }
    }
}

// Reads a header line at the front, and gives what stands behind it.
fn read_header_line<'a>(
    alloc: Global,
    draft: &mut Draft,
    bytes: &'a [u8],
) -> Result<&'a [u8], LineFault>
    requires { draft.old.format ≡ version_1 }
    ensures ok { IfOk result (λ after. TakesLine draft.old bytes.now after.now draft.new) }
    ensures bad { IsErrOf result LineFault.Bad → RefusesHeaders draft.old bytes.now }
    ensures others { KeepsOthers draft.old draft.new }
    ensures err { OnErr result (header_in draft.new ≡ header_in draft.old) }
{
    if has_unfinished(draft) {
        return read_body(draft, bytes);
    }
    if let Some(text) = after(bytes, b"component ") {
        return read_component(alloc, draft, text);
    }
    if let Some(text) = after(bytes, b"group") {
        return read_group(alloc, draft, text);
    }
    if let Some(_text) = after(bytes, b"system ") {
        return read_system(alloc, draft, bytes);
    }
    Err(LineFault::Bad)
}
