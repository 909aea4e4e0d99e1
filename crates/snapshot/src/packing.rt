//! Documents packed: the fields of a snapshot, written one after another into one buffer.

ghost use Rattle.std.specs.Prelude.{◌≡◌, ◌<◌, ◌≤◌, ◌^◌, ◌++◌, length, map, codes, OnOk, IfOk};
ghost use Rattle.std.specs.List.{flat_map, zip, AllByRecursion};
ghost use Rattle.world_text.specs.Formats.{version_1};
ghost use Rattle.world_text.specs.Documents.{IsLawfulDocument, value_in, values_in, header_of};
ghost use Rattle.world_text.specs.Lines.{line_text};
ghost use Rattle.snapshot.specs.Fields.{Field, bytes_of, field_bytes, value_bytes, entity_bytes};
ghost use Rattle.snapshot.specs.Fields.{line_bytes, u32_bytes, header_limit, line_limit};
ghost use Rattle.snapshot.specs.Packing.{snapshot, pool_fields, row_field};

use super::counts::{ALL_SET, MARK, VERSION};
use super::numbers::{push_u16, push_u32, push_u64};
use super::sizes::{size_of_header, size_of_world};
use entity_id::{Entity, Name, OutOfMemory, P20_12};
use std::alloc::Global;
use world_model::{Decl, Kind, Row, Rows, Slot};
use world_text::{Document, VERSION_1, header_lines};

/// The snapshot of a lawful document: its fields in their one order, rows in ascending index. The buffer
/// is made once, of the size that they take. Refused where memory for it, or for the header lines, runs
/// out. (EnTT: `snapshot`.)
pub fn pack(alloc: Global, document: &Document) -> Result<Vec<u8>, OutOfMemory>
    requires { IsLawfulDocument document.now }
    ensures { IfOk result (λ out. out.items ≡ snapshot document.now) }
{
    let lines = header_lines(alloc, document)?;
    let world = &document.world;
    let size = size_of_header(&lines).saturating_add(size_of_world(world));
    let mut out = Vec::with_capacity(alloc, size)?;
    push_header(&mut out, &lines)?;
    push_u64(&mut out, world.tick)?;
    push_slots(&mut out, world.slots.as_slice())?;
    push_free(&mut out, world.free.as_slice())?;
    push_pools(&mut out, world.decls.as_slice(), world.pools.as_slice())?;
    Ok(out)
}

// The mark, the version, and the header lines behind their count.
fn push_header(out: &mut Vec<u8>, lines: &[Name]) -> Result<(), OutOfMemory>
    requires few { length lines.now ≤ header_limit }
    requires short { AllByRecursion (λ l. length l ≤ line_limit) lines.now }
    ensures { OnOk result (out.new.items ≡ out.old.items ++
        (codes "WORLDSNP" ++ (u32_bytes 1 ++
        (u32_bytes (length lines.now) ++ flat_map line_bytes lines.now)))) }
{
    out.extend_from_slice(MARK)?;
    push_u32(out, VERSION)?;
    push_u32(out, lines.len() as u32)?;
    push_lines(out, lines)
}

fn push_lines(out: &mut Vec<u8>, lines: &[Name]) -> Result<(), OutOfMemory>
    requires short { AllByRecursion (λ l. length l ≤ line_limit) lines.now }
    ensures { OnOk result (out.new.items ≡ out.old.items ++ flat_map line_bytes lines.now) }
{
    for line in lines {
        push_line(out, line.as_slice())?;
    }
    Ok(())
}

// Appends a line behind its length.
fn push_line(out: &mut Vec<u8>, line: &[u8]) -> Result<(), OutOfMemory>
    requires { length line.now ≤ line_limit }
    ensures { OnOk result (out.new.items ≡ out.old.items ++ line_bytes line.now) }
{
    push_u16(out, line.len() as u16)?;
    out.extend_from_slice(line)?;
    Ok(())
}

fn push_slots(out: &mut Vec<u8>, slots: &[Slot]) -> Result<(), OutOfMemory>
    requires { length slots.now < 2 ^ 32 }
    ensures { OnOk result (out.new.items ≡ out.old.items ++
        (u32_bytes (length slots.now) ++ bytes_of (map Field.Slot slots.now))) }
{
    push_u32(out, slots.len() as u32)?;
    for slot in slots {
        push_slot(out, *slot)?;
    }
    Ok(())
}

fn push_slot(out: &mut Vec<u8>, slot: Slot) -> Result<(), OutOfMemory>
    ensures { OnOk result (out.new.items ≡ out.old.items ++ field_bytes (Field.Slot slot)) }
{
    out.push(u8::from(slot.live))?;
    push_u32(out, slot.version)
}

fn push_free(out: &mut Vec<u8>, free: &[u32]) -> Result<(), OutOfMemory>
    ensures { OnOk result (out.new.items ≡ out.old.items ++ bytes_of (map Field.Next free.now)) }
{
    for index in free {
        push_u32(out, *index)?;
    }
    Ok(())
}

fn push_pools(out: &mut Vec<u8>, decls: &[Decl], pools: &[Rows]) -> Result<(), OutOfMemory>
    requires { AllByRecursion (λ rows. length rows < 2 ^ 32) pools.now }
    ensures { OnOk result (out.new.items ≡ out.old.items ++
        bytes_of (flat_map pool_fields (zip decls.now pools.now))) }
{
    for (decl, rows) in decls.iter().zip(pools) {
        push_pool(out, decl, rows.as_slice())?;
    }
    Ok(())
}

// Appends a component's rows behind their count.
fn push_pool(out: &mut Vec<u8>, decl: &Decl, rows: &[(Entity, Row)]) -> Result<(), OutOfMemory>
    requires { length rows.now < 2 ^ 32 }
    ensures { OnOk result (out.new.items ≡
        out.old.items ++ bytes_of (pool_fields (decl.now, rows.now))) }
{
    push_u32(out, rows.len() as u32)?;
    push_rows(out, decl, rows)
}

fn push_rows(out: &mut Vec<u8>, decl: &Decl, rows: &[(Entity, Row)]) -> Result<(), OutOfMemory>
    ensures { OnOk result (out.new.items ≡
        out.old.items ++ bytes_of (map (row_field decl.now) rows.now)) }
{
    for entry in rows {
        push_row(out, decl, entry)?;
    }
    Ok(())
}

fn push_row(out: &mut Vec<u8>, decl: &Decl, entry: &(Entity, Row)) -> Result<(), OutOfMemory>
    ensures { OnOk result (out.new.items ≡
        out.old.items ++ field_bytes (row_field decl.now entry.now)) }
{
    push_u32(out, entry.0.index)?;
    push_values(out, decl.field_kinds(), &entry.1.f)
}

// Appends the values of a row, as far as both slices go.
fn push_values(out: &mut Vec<u8>, kinds: &[Kind], fields: &[i64]) -> Result<(), OutOfMemory>
    ensures { OnOk result (out.new.items ≡ out.old.items ++ flat_map value_bytes
        (map (λ pair. value_in version_1.profile pair.0 pair.1) (zip kinds.now fields.now))) }
{
    for (kind, field) in kinds.iter().zip(fields) {
        push_value(out, *kind, *field)?;
    }
    Ok(())
}

fn push_value(out: &mut Vec<u8>, kind: Kind, field: i64) -> Result<(), OutOfMemory>
    ensures { OnOk result (out.new.items ≡
        out.old.items ++ value_bytes (value_in version_1.profile kind field)) }
{
    match kind {
        Kind::Int => push_u64(out, field.cast_unsigned()),
        Kind::Ref => push_entity(out, Entity::from_field(VERSION_1.profile, field)),
    }
}

fn push_entity(out: &mut Vec<u8>, entity: Entity) -> Result<(), OutOfMemory>
    ensures { OnOk result (out.new.items ≡ out.old.items ++ entity_bytes entity) }
{
    if entity.index == P20_12.index_limit && entity.version == P20_12.version_limit {
        push_u32(out, ALL_SET)?;
        return push_u32(out, ALL_SET);
    }
    push_u32(out, entity.index)?;
    push_u32(out, entity.version)
}
