//! The keys of sorts: which fields they are, and their values.

ghost use Rattle.std.specs.Prelude.{◌≡◌, false, map, slice_get, IfOk};
ghost use Rattle.std.specs.Option.{option_map_or};
ghost use Rattle.entity_id.specs.FiniteMap as entries;
ghost use Rattle.world_model.specs.Components.{has_int_field, is_int, kinds_of, value_at};
ghost use Rattle.registry.specs.Keys.{value_in};

use entity_id::{Entity, OutOfMemory};
use std::alloc::Global;
use storage::Storage;
use world_model::{Decl, DeclList, Kind, Row};

// Whether a component has an int field of this number.
pub fn has_int_field(decls: &DeclList, pool: u32, field: u32) -> bool
    ensures { result ≡ has_int_field decls.now pool field }
{
    match decls.as_slice().get(pool as usize) {
        Some(decl) => is_int_field(decl, field),
        None => false,
    }
}

fn is_int_field(decl: &Decl, field: u32) -> bool
    ensures { result ≡ option_map_or is_int (slice_get (kinds_of decl.now) field) false }
{
    match decl.field_kinds().get(field as usize) {
        Some(Kind::Int) => true,
        _ => false,
    }
}

// The value of a field of a row.
fn value_at(row: &Row, field: u32) -> i64
    ensures { result ≡ value_at row.now field }
{
    match row.f.get(field as usize) {
        Some(value) => *value,
        None => 0,
    }
}

// The values of a field, row by row.
pub fn values_of(alloc: Global, rows: &[Row], field: u32) -> Result<Vec<i64>, OutOfMemory>
    ensures { IfOk result (λ values. values.items ≡ map (λ row. value_at row field) rows.now) }
{
    Ok(rows.iter().map(|row| value_at(row, field)).collect(alloc)?)
}

// The value of a field of an identifier's row, and 0 where it has none.
fn value_of(stored: &Storage<Row>, entity: Entity, field: u32) -> i64
    ensures { result ≡ value_in (entries.map_of stored.now.pairs) field entity }
{
    match stored.get(entity) {
        Some(row) => value_at(&row, field),
        None => 0,
    }
}

// The values of a field of the rows of these identifiers.
pub fn looked_up(
    alloc: Global,
    stored: &Storage<Row>,
    list: &[Entity],
    field: u32,
) -> Result<Vec<i64>, OutOfMemory>
    ensures { IfOk result (λ values.
        values.items ≡ map (value_in (entries.map_of stored.now.pairs) field) list.now) }
{
    Ok(
        list.iter()
            .map(|entity| value_of(stored, *entity, field))
            .collect(alloc)?,
    )
}
