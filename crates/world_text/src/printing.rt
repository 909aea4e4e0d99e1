ghost use Rattle.std.specs.Prelude.{◌≡◌, ◌+◌, ◌≤◌, ◌++◌, ◌∷◌, [], length, take, drop, map, OnOk, OnErr, IfOk};
ghost use Rattle.std.specs.Fmt.{decimal};
ghost use Rattle.std.specs.List.{flat_map, zip};
ghost use Rattle.world_text.specs.Formats.{version_1};
ghost use Rattle.world_text.specs.Lines.{line_text, kind_text, text_of};
ghost use Rattle.world_text.specs.Documents.{IsLawfulDocument, text, header_of, system_lines, row_line, pool_lines};
ghost use Rattle.world_text.specs.LineKinds.{Line};

use super::Document;
use super::format::VERSION_1;
use super::group_printing::push_groups;
use super::row_printing::write_row;
use entity_id::{Entity, OutOfMemory};
use itoa::write_digits;
use row_lang::{SystemDef, push_system};
use std::alloc::Global;
use world_model::{Decl, Kind, Row, Rows, Slot};

// Room for a line, which is written from its end to its front. The longest is that of a row, 114
// bytes: `row `, an identifier of 21, four values of at most 21, each behind a space, and the end.
pub(super) const ROOM: usize = 128;

/// The canonical text of a lawful document: its lines in their one order, rows in ascending index.
/// The text is a document that stands for the same. Refused where memory for the text runs out.
pub fn write_world(alloc: Global, document: &Document) -> Result<Vec<u8>, OutOfMemory>
    requires { IsLawfulDocument document.now }
    ensures { IfOk result (λ out. out.items ≡ text document.now) }
{
    let mut out = Vec::new(alloc);
    push_world(&mut out, document)?;
    Ok(out)
}

/// Appends the canonical text of a lawful document, as [`write_world`] makes it. After a refusal, which
/// comes where memory for the text runs out, `out` is as before.
pub fn push_world(out: &mut Vec<u8>, document: &Document) -> Result<(), OutOfMemory>
    requires { IsLawfulDocument document.now }
    ensures ok { OnOk result (out.new.items ≡ out.old.items ++ text document.now) }
    ensures err { OnErr result (out.new.items ≡ out.old.items) }
{
    let before = out.len();
    let pushed = push_lines(out, document);
    if pushed.is_err() {
        out.truncate(before);
    }
    pushed
}

// The same, but after a refusal a front of the text may have been appended. So it is with the parts below.
fn push_lines(out: &mut Vec<u8>, document: &Document) -> Result<(), OutOfMemory>
    requires { IsLawfulDocument document.now }
    ensures ok { OnOk result (out.new.items ≡ out.old.items ++ text document.now) }
    ensures front { take (length out.old.items) out.new.items ≡ out.old.items }
{
    let world = &document.world;
    push_number(out, b"world ", VERSION_1.version)?;
    push_header(out, document)?;
    push_number(out, b"tick ", world.tick)?;
    push_slots(out, world.slots.as_slice())?;
    push_nexts(out, world.free.as_slice())?;
    push_pools(out, world.decls.as_slice(), world.pools.as_slice())?;
    out.extend_from_slice(b"end\n")?;
    Ok(())
}

// The header lines.
pub(super) fn push_header(out: &mut Vec<u8>, document: &Document) -> Result<(), OutOfMemory>
    ensures ok { OnOk result (out.new.items ≡
        out.old.items ++ text_of version_1 (header_of document.now)) }
    ensures front { take (length out.old.items) out.new.items ≡ out.old.items }
{
    let decls = document.world.decls.as_slice();
    push_decls(out, decls)?;
    push_groups(out, decls, document.world.groups.as_slice())?;
    push_systems(out, decls, document.systems.as_slice())
}

// The lines of systems.
fn push_systems(out: &mut Vec<u8>, decls: &[Decl], systems: &[SystemDef]) -> Result<(), OutOfMemory>
    ensures ok { OnOk result (out.new.items ≡
        out.old.items ++ text_of version_1 (flat_map (system_lines decls.now) systems.now)) }
    ensures front { take (length out.old.items) out.new.items ≡ out.old.items }
{
    for system in systems {
        push_system(out, system, decls)?;
    }
    Ok(())
}

// A line of a word and a number.
pub(super) fn push_number(out: &mut Vec<u8>, word: &[u8], number: u64) -> Result<(), OutOfMemory>
    requires { length word.now ≤ 16 }
    ensures ok { OnOk result (out.new.items ≡
        out.old.items ++ (word.now ++ decimal number ++ 10 ∷ [])) }
    ensures err { OnErr result (out.new.items ≡ out.old.items) }
{
    let mut line = [0u8; ROOM];
    let at = write_number(word, number, &mut line);
    out.extend_from_slice(&line[at..])?;
    Ok(())
}

// Writes a line of a word and a number at the end of the buffer, and says where it begins.
pub(super) fn write_number(word: &[u8], number: u64, line: &mut [u8; ROOM]) -> usize
    requires { length word.now ≤ 16 }
    ensures within { (90 ≤ result) × (result ≤ 128) }
    ensures written { drop result line.new ≡ word.now ++ decimal number ++ 10 ∷ [] }
{
    line[ROOM - 1] = b'\n';
    let at = write_digits(number, line, ROOM - 1);
    write_word(word, line, at)
}

// Writes a word so that it ends at `end`, and says where it begins.
pub(super) fn write_word(word: &[u8], buf: &mut [u8], end: usize) -> usize
    requires { (length word.now ≤ end) × (end ≤ length buf.old) }
    ensures start { result + length word.now ≡ end }
    ensures written { drop result buf.new ≡ word.now ++ drop end buf.old }
{
    let start = end - word.len();
    buf[start..end].copy_from_slice(word);
    start
}

fn push_decls(out: &mut Vec<u8>, decls: &[Decl]) -> Result<(), OutOfMemory>
    ensures ok { OnOk result (out.new.items ≡
        out.old.items ++ text_of version_1 (map Line.Component decls.now)) }
    ensures front { take (length out.old.items) out.new.items ≡ out.old.items }
{
    for decl in decls {
        push_decl(out, decl)?;
    }
    Ok(())
}

fn push_decl(out: &mut Vec<u8>, decl: &Decl) -> Result<(), OutOfMemory>
    ensures ok { OnOk result (out.new.items ≡
        out.old.items ++ (line_text version_1 (Line.Component decl.now) ++ 10 ∷ [])) }
    ensures front { take (length out.old.items) out.new.items ≡ out.old.items }
{
    out.extend_from_slice(b"component ")?;
    out.extend_from_slice(decl.name.as_slice())?;
    push_kinds(out, decl.field_kinds())?;
    out.push(b'\n')?;
    Ok(())
}

fn push_kinds(out: &mut Vec<u8>, kinds: &[Kind]) -> Result<(), OutOfMemory>
    ensures ok { OnOk result (out.new.items ≡ out.old.items ++ flat_map kind_text kinds.now) }
    ensures front { take (length out.old.items) out.new.items ≡ out.old.items }
{
    for kind in kinds {
        match kind {
            Kind::Int => out.extend_from_slice(b" int")?,
            Kind::Ref => out.extend_from_slice(b" entity")?,
        }
    }
    Ok(())
}

fn push_slots(out: &mut Vec<u8>, slots: &[Slot]) -> Result<(), OutOfMemory>
    ensures ok { OnOk result (out.new.items ≡
        out.old.items ++ text_of version_1 (map Line.Slot slots.now)) }
    ensures front { take (length out.old.items) out.new.items ≡ out.old.items }
{
    for slot in slots {
        push_slot(out, *slot)?;
    }
    Ok(())
}

fn push_slot(out: &mut Vec<u8>, slot: Slot) -> Result<(), OutOfMemory>
    ensures ok { OnOk result (out.new.items ≡
        out.old.items ++ (line_text version_1 (Line.Slot slot) ++ 10 ∷ [])) }
    ensures err { OnErr result (out.new.items ≡ out.old.items) }
{
    let word = if slot.live { b"live " } else { b"free " };
    push_number(out, word, u64::from(slot.version))
}

fn push_nexts(out: &mut Vec<u8>, free: &[u32]) -> Result<(), OutOfMemory>
    ensures ok { OnOk result (out.new.items ≡
        out.old.items ++ text_of version_1 (map Line.Next free.now)) }
    ensures front { take (length out.old.items) out.new.items ≡ out.old.items }
{
    for index in free {
        push_number(out, b"next ", u64::from(*index))?;
    }
    Ok(())
}

fn push_pools(out: &mut Vec<u8>, decls: &[Decl], pools: &[Rows]) -> Result<(), OutOfMemory>
    ensures ok { OnOk result (out.new.items ≡ out.old.items ++
        text_of version_1 (flat_map (pool_lines version_1.profile) (zip decls.now pools.now))) }
    ensures front { take (length out.old.items) out.new.items ≡ out.old.items }
{
    for (decl, rows) in decls.iter().zip(pools) {
        push_pool(out, decl, rows.as_slice())?;
    }
    Ok(())
}

fn push_pool(out: &mut Vec<u8>, decl: &Decl, rows: &[(Entity, Row)]) -> Result<(), OutOfMemory>
    ensures ok { OnOk result (out.new.items ≡
        out.old.items ++ text_of version_1 (pool_lines version_1.profile (decl.now, rows.now))) }
    ensures front { take (length out.old.items) out.new.items ≡ out.old.items }
{
    out.extend_from_slice(b"pool ")?;
    out.extend_from_slice(decl.name.as_slice())?;
    out.push(b'\n')?;
    push_rows(out, decl, rows)
}

fn push_rows(out: &mut Vec<u8>, decl: &Decl, rows: &[(Entity, Row)]) -> Result<(), OutOfMemory>
    ensures ok { OnOk result (out.new.items ≡
        out.old.items ++ text_of version_1 (map (row_line version_1.profile decl.now) rows.now)) }
    ensures front { take (length out.old.items) out.new.items ≡ out.old.items }
{
    for entry in rows {
        push_row(out, decl, entry)?;
    }
    Ok(())
}

fn push_row(out: &mut Vec<u8>, decl: &Decl, entry: &(Entity, Row)) -> Result<(), OutOfMemory>
    ensures ok { OnOk result (out.new.items ≡ out.old.items ++
        (line_text version_1 (row_line version_1.profile decl.now entry.now) ++ 10 ∷ [])) }
    ensures err { OnErr result (out.new.items ≡ out.old.items) }
{
    let mut line = [0u8; ROOM];
    let at = write_row(decl, entry, &mut line);
    out.extend_from_slice(&line[at..])?;
    Ok(())
}
