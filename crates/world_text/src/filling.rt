//! The pools of a draft, and the rows that go on the last of them.

ghost use Rattle.std.specs.Prelude.{◌≡◌, true, false, slice_get, ◌++◌, ◌∷◌, ◌+◌, ◌-◌, ◌<◌, ◌≤◌, [], length, slice_index_or, slice_set, OnOk, OnErr, IsErrOf};
ghost use Rattle.std.specs.Option.{option_map_or};
ghost use Rattle.world_model.specs.Components.{has_name};
ghost use Rattle.world_text.specs.Fitting.{is_above as above};
ghost use Rattle.world_text.specs.Drafts.{Takes, Refuses, TakesRow, RefusesRow};
ghost use Rattle.world_text.specs.LineKinds.{Line};

use super::draft::Draft;
use super::section::Section;
use entity_id::{Entity, Name};
use row_lang::LineFault;
use std::alloc::Global;
use world_model::{Decl, Row, Rows, is_live};

/// Begins the next pool, where the name is the next component's.
pub fn add_pool(alloc: Global, draft: &mut Draft, name: Name) -> Result<(), LineFault>
    ensures ok { OnOk result (Takes draft.old (Line.Pool name) draft.new) }
    ensures bad { IsErrOf result LineFault.Bad → Refuses draft.old (Line.Pool name) }
    ensures decls { draft.new.decls.items ≡ draft.old.decls.items }
    ensures slots { draft.new.slots.items ≡ draft.old.slots.items }
    ensures pools { OnOk result (length draft.new.pools.items ≡ length draft.old.pools.items + 1) }
{
    if !draft.section.is_between(Section::Tick, Section::Pools) {
        return Err(LineFault::Bad);
    }
    if draft.unsettled != 0 {
        return Err(LineFault::Bad);
    }
    if !has_name_at(&draft.decls, draft.pools.len(), name.as_slice()) {
        return Err(LineFault::Bad);
    }
    draft.pools.push(Rows::from_vec(Vec::new(alloc)))?;
    draft.section = Section::Pools;
    Ok(())
}

// Whether the component of this number is there and has this name.
fn has_name_at(decls: &[Decl], number: usize, name: &[u8]) -> bool
    ensures { result ≡ option_map_or (has_name name.now) (slice_get decls.now number) false }
{
    match decls.get(number) {
        Some(decl) => decl.name.as_slice() == name,
        None => false,
    }
}

/// Adds a row to the last pool, where its entity may stand there: it is live, and above those before
/// it in the pool. Its values are the caller's to test.
pub fn add_row(draft: &mut Draft, entity: Entity, row: Row) -> Result<(), LineFault>
    ensures ok { OnOk result (TakesRow draft.old entity row draft.new) }
    ensures bad { IsErrOf result LineFault.Bad → RefusesRow draft.old entity }
    ensures decls { draft.new.decls.items ≡ draft.old.decls.items }
    ensures slots { draft.new.slots.items ≡ draft.old.slots.items }
    ensures pools { OnOk result (length draft.new.pools.items ≡ length draft.old.pools.items) }
{
    if !draft.section.is_between(Section::Pools, Section::Pools) {
        return Err(LineFault::Bad);
    }
    if !is_live(&draft.slots, entity) {
        return Err(LineFault::Bad);
    }
    if !is_above_last(&draft.pools, entity) {
        return Err(LineFault::Bad);
    }
    push_on_last(&mut draft.pools, entity, row)
}

// Whether there is a pool, and the identifier is above those in the last one.
fn is_above_last(pools: &[Rows], entity: Entity) -> bool
    ensures above { result ≡
        option_map_or (λ rows. above rows entity) (slice_get pools.now (length pools.now - 1)) false }
    ensures some { result ≡ true → 0 < length pools.now }
{
    match pools.last() {
        Some(rows) => is_above(rows.as_slice(), entity),
        None => false,
    }
}

fn is_above(rows: &[(Entity, Row)], entity: Entity) -> bool
    ensures { result ≡ above rows.now entity }
{
    match rows.last() {
        Some(last) => last.0.index < entity.index,
        None => true,
    }
}

fn push_on_last(pools: &mut Vec<Rows>, entity: Entity, row: Row) -> Result<(), LineFault>
    requires { 0 < length pools.old.items }
    ensures ok { OnOk result (pools.new.items ≡
        slice_set pools.old.items (length pools.old.items - 1)
        (slice_index_or pools.old.items (length pools.old.items - 1) [] ++ (entity, row) ∷ [])) }
    ensures not_bad { IsErrOf result LineFault.Bad → ⊥ }
{
    let last = pools.len() - 1;
    let rows = &mut pools[last];
    rows.push(entity, row)?;
    Ok(())
}
