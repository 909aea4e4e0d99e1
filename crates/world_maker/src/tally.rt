//! Rows counted, and their fields added up.

ghost use Rattle.std.specs.Prelude.{◌≡◌, ◌<◌, ◌≤◌, [], ◌∷◌, length, slice_get, sum_by, Some, if◌then◌else◌};
ghost use Rattle.world_model.specs.Components.{is_int};
ghost use Rattle.world_model.specs.Contents.{pool_at};
ghost use Rattle.world_maker.specs.Summaries.{bits_sum, ints_among, ints_of_pool, ints_in, wrapped_sum};

use registry::Registry;
use signal_sink::Listener;
use world_model::{Decl, Kind, Row};

/// How many rows all components of a registry have, which are these. No memory.
pub fn row_count<L: Listener>(registry: &Registry<L>, decls: &[Decl]) -> u64
    requires { decls.now ≡ registry.now.world.decls }
    ensures { result ≡ sum_by length registry.now.world.pools }
{
    registry.law();
    let mut count = 0;
    for pool in 0..decls.len() as u32 {
        count += rows_in(registry, pool);
    }
    count
}

// How many rows a component has.
fn rows_in<L: Listener>(registry: &Registry<L>, pool: u32) -> u64
    requires { pool < length registry.now.world.decls }
    ensures { result ≡ length (pool_at registry.now.world pool) }
{
    registry.law();
    match registry.entities(pool) {
        Ok(list) => list.len() as u64,
        Err(_) => unreachable!(),
    }
}

/// The sum of the `int` fields of all rows of a registry, whose components are these: the 64 bits that are
/// kept of it, with their sign. No memory.
pub fn sum_of_ints<L: Listener>(registry: &Registry<L>, decls: &[Decl]) -> i64
    requires { decls.now ≡ registry.now.world.decls }
    ensures { result ≡ wrapped_sum (ints_in registry.now.world) }
{
    registry.law();
    let mut sum: u64 = 0;
    for pool in 0..decls.len() as u32 {
        sum = sum.wrapping_add(bits_of_pool(registry, pool, &decls[pool as usize]));
    }
    sum.cast_signed()
}

// The bits of the sum of the `int` fields of a component's rows.
fn bits_of_pool<L: Listener>(registry: &Registry<L>, pool: u32, decl: &Decl) -> u64
    requires { slice_get registry.now.world.decls pool ≡ Some decl.now }
    ensures { result ≡ bits_sum (ints_of_pool decl.now (pool_at registry.now.world pool)) }
{
    registry.law();
    let Ok(list) = registry.entities(pool) else {
        unreachable!();
    };
    let mut sum: u64 = 0;
    for entity in list {
        match registry.get(*entity, pool) {
            Ok(row) => sum = sum.wrapping_add(bits_of_row(decl.field_kinds(), &row)),
            Err(_) => unreachable!(),
        }
    }
    sum
}

// The bits of the sum of a row's fields of kind `int`.
fn bits_of_row(kinds: &[Kind], row: &Row) -> u64
    requires { length kinds.now ≤ 4 }
    ensures { result ≡ bits_sum (ints_among kinds.now row.now.f) }
{
    let mut sum: u64 = 0;
    for (place, kind) in kinds.iter().enumerate() {
        sum = sum.wrapping_add(bits_of_field(*kind, row.f[place]));
    }
    sum
}

// The bits of a field, where its kind is `int`.
fn bits_of_field(kind: Kind, field: i64) -> u64
    ensures { result ≡ bits_sum (if is_int kind then field ∷ [] else []) }
{
    match kind {
        Kind::Int => field.cast_unsigned(),
        Kind::Ref => 0,
    }
}
