//! The rows of a snapshot.

ghost use Rattle.std.specs.Prelude.{◌≡◌, ◌≤◌, ◌<◌, ◌+◌, ℕ, suc, length, count_by, slice_get, Some, None, IfOk, IfErr, IfSome, IfNone, OnOk, MatchOption};
ghost use Rattle.world_model.specs.Components.{kinds_of};
ghost use Rattle.world_model.specs.declared.component.Decl.{Decl};
ghost use Rattle.snapshot.specs.Reading.{IsCause, IsAtRest, RowsDue, IsEntityAt, IsNoEntityAt};

use super::numbers::u32_at;
use super::refusal::{PackRefused, refused};
use super::room::{reserve_rows, room_at};
use super::sizes::size_of_row;
use super::values::row_at;
use entity_id::{Entity, Name};
use std::alloc::Global;
use world_model::{Decl, Kind, Slot};
use world_text::{Draft, add_pool, add_row};

// Reads the rows of each component, and gives the place behind them.
pub fn read_pools(
    alloc: Global,
    draft: &mut Draft,
    bytes: &[u8],
    at: usize,
) -> Result<usize, PackRefused>
    requires due { IsAtRest bytes.now at draft.old }
    requires none { length draft.old.pools.items ≡ 0 }
    ensures ok { IfOk result (λ to. IsAtRest bytes.now to draft.new) }
    ensures each { OnOk result (length draft.new.pools.items ≡ length draft.new.decls.items) }
    ensures cause { IfErr result (IsCause bytes.now) }
{
    let live = live_count(&draft.slots) as u32;
    let count = draft.decls.len();
    let mut to = at;
    for number in 0..count {
        to = read_pool(alloc, draft, bytes, to, number, live)?;
    }
    Ok(to)
}

fn live_count(slots: &[Slot]) -> usize
    ensures { result ≡ count_by (λ slot. slot.live) slots.now }
{
    slots.iter().filter(|slot| slot.live).count()
}

// Reads the rows of the component of this number, behind their count, and gives the place behind
// them.
fn read_pool(
    alloc: Global,
    draft: &mut Draft,
    bytes: &[u8],
    at: usize,
    number: usize,
    live: u32,
) -> Result<usize, PackRefused>
    requires due { IsAtRest bytes.now at draft.old }
    requires next { length draft.old.pools.items ≡ number }
    requires declared { number < length draft.old.decls.items }
    requires live { live ≡ count_by (λ slot. slot.live) draft.old.slots.items }
    ensures ok { IfOk result (λ to. RowsDue bytes.now to draft.new 0) }
    ensures one { OnOk result (length draft.new.pools.items ≡ number + 1) }
    ensures decls { draft.new.decls.items ≡ draft.old.decls.items }
    ensures slots { draft.new.slots.items ≡ draft.old.slots.items }
    ensures cause { IfErr result (IsCause bytes.now) }
{
    let count = match u32_at(bytes, at) {
        Some(count) if count <= live => count,
        _ => return Err(PackRefused::BadAt { offset: at as u64 }),
    };
    let name = Name::from_vec(Vec::from_slice(alloc, draft.decls[number].name.as_slice())?);
    if let Err(fault) = add_pool(alloc, draft, name) {
        return Err(refused(fault, at));
    }
    let mut to = at + 4;
    let size = size_of_row(&draft.decls[number]);
    reserve_rows(alloc, draft, room_at(bytes, to, count, size))?;
    for _ in 0..count {
        to = read_row(draft, bytes, to)?;
    }
    Ok(to)
}

// Reads the row at a place, and gives the place behind it.
fn read_row(draft: &mut Draft, bytes: &[u8], at: usize) -> Result<usize, PackRefused>
    ensures ok { IfOk result (λ to. (left : ℕ) →
        RowsDue bytes.now at draft.old (suc left) → RowsDue bytes.now to draft.new left) }
    ensures cause { IfErr result (λ e. (left : ℕ) →
        RowsDue bytes.now at draft.old (suc left) → IsCause bytes.now e) }
    ensures pools { OnOk result (length draft.new.pools.items ≡ length draft.old.pools.items) }
    ensures decls { draft.new.decls.items ≡ draft.old.decls.items }
    ensures slots { draft.new.slots.items ≡ draft.old.slots.items }
{
    let Some(entity) = entity_at(&draft.slots, bytes, at) else {
        return Err(PackRefused::BadAt { offset: at as u64 });
    };
    let last = draft.pools.len().saturating_sub(1);
    let Some(kinds) = kinds_at(&draft.decls, last) else {
        return Err(PackRefused::BadAt { offset: at as u64 });
    };
    let Some((row, to)) = row_at(kinds, bytes, at + 4) else {
        return Err(PackRefused::BadAt { offset: at as u64 });
    };
    match add_row(draft, entity, row) {
        Ok(()) => Ok(to),
        Err(fault) => Err(refused(fault, at)),
    }
}

// The kinds of the component of this number.
fn kinds_at(decls: &[Decl], number: usize) -> Option<&[Kind]>
    ensures found { MatchOption result (slice_get decls.now number ≡ None)
        (λ kinds. (decl : Decl) ×
        (slice_get decls.now number ≡ Some decl) ×
        (kinds.now ≡ kinds_of decl)) }
    ensures few { IfSome result (λ kinds. length kinds.now ≤ 4) }
{
    let decl = decls.get(number)?;
    Some(decl.field_kinds())
}

// The identifier of the index at a place, with the version of its slot.
fn entity_at(slots: &[Slot], bytes: &[u8], at: usize) -> Option<Entity>
    ensures some { IfSome result (IsEntityAt slots.now bytes.now at) }
    ensures none { IfNone result (IsNoEntityAt slots.now bytes.now at) }
{
    let index = u32_at(bytes, at)?;
    let slot = slots.get(index as usize)?;
    Some(Entity {
        index,
        version: slot.version,
    })
}
