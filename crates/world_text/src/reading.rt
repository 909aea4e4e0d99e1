ghost use Rattle.std.specs.Prelude.{◌≡◌, ◌≤◌, ◌++◌, [], ℕ, List, length, drop, codes, IfOk, IfErr, IsErrOf};
ghost use Rattle.world_text.specs.Formats.{IsFormat};
ghost use Rattle.world_text.specs.LineKinds.{Line};
ghost use Rattle.world_text.specs.Documents.{IsDocument, IsFront, IsLawfulDocument};
ghost use Rattle.world_text.specs.Drafts.{Stands, Refuses, TakesLine, RefusesLine, RefusesOthers, document_in};
ghost use Rattle.world_text.specs.Refusals.{IsCause, IsFrontCause};

use super::adding::add_end;
use super::draft::Draft;
use super::format::{Format, VERSION_1};
use super::name_lines::{read_component, read_group, read_pool};
use super::number_lines::{read_next, read_slot, read_tick, read_version};
use super::row_lines::read_row;
use super::section::Section;
use super::system_lines::{has_unfinished, read_body, read_system};
use super::{Document, SystemList, TextRefused};
use row_lang::LineFault;
use row_lang::words::after;
use std::alloc::Global;
use world_model::{DeclList, FreeList, GroupList, PoolList, SlotList, World};

// A draft of no lines.
pub(super) fn empty_draft(alloc: Global, format: Format) -> Draft
    ensures format { result.format ≡ format }
    ensures stands { Stands result [] }
{
    Draft {
        format,
        section: Section::Start,
        decls: Vec::new(alloc),
        groups: Vec::new(alloc),
        systems: Vec::new(alloc),
        unfinished: None,
        commands: 0,
        tick: 0,
        slots: Vec::new(alloc),
        free: Vec::new(alloc),
        settled: Vec::new(alloc),
        unsettled: 0,
        pools: Vec::new(alloc),
    }
}

// Reads the line at the front, and gives what stands behind it.
fn read_line<'a>(alloc: Global, draft: &mut Draft, bytes: &'a [u8]) -> Result<&'a [u8], LineFault>
    requires { IsFormat draft.old.format }
    ensures ok { IfOk result (λ after. TakesLine draft.old bytes.now after.now draft.new) }
    ensures bad { IsErrOf result LineFault.Bad → RefusesLine draft.old bytes.now }
{
    if has_unfinished(draft) {
        return read_body(draft, bytes);
    }
    read_other(alloc, draft, bytes)
}

// The same for a line that isn't one of a system. The most frequent lines come first.
fn read_other<'a>(alloc: Global, draft: &mut Draft, bytes: &'a [u8]) -> Result<&'a [u8], LineFault>
    requires { IsFormat draft.old.format }
    ensures ok { IfOk result (λ after. TakesLine draft.old bytes.now after.now draft.new) }
    ensures bad { IsErrOf result LineFault.Bad → RefusesOthers draft.old bytes.now }
{
    if let Some(text) = after(bytes, b"row ") {
        return read_row(draft, text);
    }
    if let Some(text) = after(bytes, b"live ") {
        return read_slot(draft, text, true);
    }
    if let Some(text) = after(bytes, b"free ") {
        return read_slot(draft, text, false);
    }
    if let Some(text) = after(bytes, b"next ") {
        return read_next(draft, text);
    }
    if let Some(text) = after(bytes, b"pool ") {
        return read_pool(alloc, draft, text);
    }
    if let Some(text) = after(bytes, b"component ") {
        return read_component(alloc, draft, text);
    }
    if let Some(text) = after(bytes, b"group") {
        return read_group(alloc, draft, text);
    }
    if let Some(_text) = after(bytes, b"system ") {
        return read_system(alloc, draft, bytes);
    }
    if let Some(text) = after(bytes, b"tick ") {
        return read_tick(draft, text);
    }
    if let Some(text) = after(bytes, b"world ") {
        return read_version(draft, text);
    }
    read_end(draft, bytes)
}

// Reads the line `end`.
fn read_end<'a>(draft: &mut Draft, bytes: &'a [u8]) -> Result<&'a [u8], LineFault>
    ensures ok { IfOk result (λ after. TakesLine draft.old bytes.now after.now draft.new) }
    ensures none { IsErrOf result LineFault.Bad →
        (more : List ℕ) → bytes.now ≡ codes "end\n" ++ more → Refuses draft.old Line.End }
{
    let Some(after) = after(bytes, b"end\n") else {
        return Err(LineFault::Bad);
    };
    add_end(draft)?;
    Ok(after)
}

/// A document at the front of a text.
#[derive(Debug, Drop)]
pub struct Front {
    /// The document.
    pub document: Document,
    /// How many bytes it has.
    pub taken: u64,
    /// How many lines it has.
    pub lines: u64,
}

/// The document that stands at the front of a text; what stands behind its end isn't looked at.
/// `BadLine` comes exactly where that line is the first of a document that is not admissible or that is
/// missing, and `OutOfMemory` for want of memory.
pub fn read_front(alloc: Global, bytes: &[u8]) -> Result<Front, TextRefused>
    ensures front { IfOk result (λ front.
        IsFront bytes.now front.document front.lines (drop front.taken bytes.now)) }
    ensures within { IfOk result (λ front.
        (front.lines ≤ front.taken) × (front.taken ≤ length bytes.now)) }
    ensures lawful { IfOk result (λ front. IsLawfulDocument front.document) }
    ensures cause { IfErr result (IsFrontCause bytes.now) }
{
    let mut draft = empty_draft(alloc, VERSION_1);
    let mut rest = bytes;
    let mut lines = 0;
    while draft.section != Section::End {
        match read_line(alloc, &mut draft, rest) {
            Ok(after) => rest = after,
            Err(LineFault::Bad) => return Err(TextRefused::BadLine { line: lines + 1 }),
            Err(LineFault::OutOfMemory) => return Err(TextRefused::OutOfMemory),
        }
        lines += 1;
    }
    let document = finished(draft);
    let taken = (bytes.len() - rest.len()) as u64;
    Ok(Front {
        document,
        taken,
        lines,
    })
}

/// The document that a text is. `BadLine` comes exactly where that line is the first that is not
/// admissible or that is missing, and `OutOfMemory` for want of memory.
pub fn read_world(alloc: Global, bytes: &[u8]) -> Result<Document, TextRefused>
    ensures document { IfOk result (λ document. IsDocument bytes.now document) }
    ensures lawful { IfOk result (λ document. IsLawfulDocument document) }
    ensures cause { IfErr result (IsCause bytes.now) }
{
    let front = read_front(alloc, bytes)?;
    if front.taken < bytes.len() as u64 {
        return Err(TextRefused::BadLine {
            line: front.lines + 1,
        });
    }
    Ok(front.document)
}

/// The document that a draft's lines stand for. No memory.
pub fn finished(draft: Draft) -> Document
    ensures { result ≡ document_in draft }
{
    let world = World {
        profile: draft.format.profile,
        decls: DeclList::from_vec(draft.decls),
        groups: GroupList::from_vec(draft.groups),
        tick: draft.tick,
        slots: SlotList::from_vec(draft.slots),
        free: FreeList::from_vec(draft.free),
        pools: PoolList::from_vec(draft.pools),
    };
    Document {
        world,
        systems: SystemList::from_vec(draft.systems),
    }
}
