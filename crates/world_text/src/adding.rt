//! One line more in a draft: whether it is admissible after the lines before it, and what it adds.

ghost use Rattle.std.specs.Prelude.{◌≡◌, ◌&&◌, true, not, cond, slice_index_or, OnOk, IsErrOf, OnErr};
ghost use Rattle.std.specs.List.{list_all, list_any};
ghost use Rattle.world_model.specs.Components.{has_name};
ghost use Rattle.row_lang.specs.Naming.{IsNamedDecl};
ghost use Rattle.world_model.specs.Groups.{are_declared, group_pools, may_coexist as coexist};
ghost use Rattle.world_text.specs.Headers.{KeepsOthers, header_in};
ghost use Rattle.world_text.specs.Drafts.{Takes, Refuses, TakesGroup, RefusesGroup};
ghost use Rattle.world_text.specs.Fitting.{may_join as joins};
ghost use Rattle.world_text.specs.LineKinds.{Line};

use super::draft::Draft;
use super::format::COMPONENT_LIMIT;
use super::section::Section;
use group_rules::{GROUP_LIMIT, Relation, check, relate};
use row_lang::LineFault;
use world_model::{Decl, GroupDecl, Slot};

fn has_decl(decls: &[Decl], name: &[u8]) -> bool
    ensures { result ≡ list_any (has_name name.now) decls.now }
{
    decls.iter().any(|decl| decl.name.as_slice() == name)
}

/// Adds the line that names the version.
pub fn add_version(draft: &mut Draft) -> Result<(), LineFault>
    ensures ok { OnOk result (Takes draft.old Line.Version draft.new) }
    ensures bad { IsErrOf result LineFault.Bad → Refuses draft.old Line.Version }
{
    if !draft.section.is_between(Section::Start, Section::Start) {
        return Err(LineFault::Bad);
    }
    draft.section = Section::Version;
    Ok(())
}

/// Adds a component, where there is room for one more and none has its name.
pub fn add_component(draft: &mut Draft, decl: Decl) -> Result<(), LineFault>
    requires { IsNamedDecl decl }
    ensures ok { OnOk result (Takes draft.old (Line.Component decl) draft.new) }
    ensures bad { IsErrOf result LineFault.Bad → Refuses draft.old (Line.Component decl) }
    ensures others { KeepsOthers draft.old draft.new }
    ensures err { OnErr result (header_in draft.new ≡ header_in draft.old) }
{
    if !draft
        .section
        .is_between(Section::Version, Section::Components)
    {
        return Err(LineFault::Bad);
    }
    if draft.decls.len() >= COMPONENT_LIMIT {
        return Err(LineFault::Bad);
    }
    if has_decl(&draft.decls, decl.name.as_slice()) {
        return Err(LineFault::Bad);
    }
    draft.decls.push(decl)?;
    draft.section = Section::Components;
    Ok(())
}

/// Adds a group, where it is well-formed, there is room for one more, and it may stand beside each before
/// it. That its line names its components is the caller's to test.
pub fn add_group(draft: &mut Draft, decl: GroupDecl) -> Result<(), LineFault>
    ensures ok { OnOk result (TakesGroup draft.old decl draft.new) }
    ensures bad { IsErrOf result LineFault.Bad → RefusesGroup draft.old decl }
    ensures others { KeepsOthers draft.old draft.new }
    ensures err { OnErr result (header_in draft.new ≡ header_in draft.old) }
{
    if !draft.section.is_between(Section::Version, Section::Groups) {
        return Err(LineFault::Bad);
    }
    if !may_join(&draft.groups, &decl, draft.decls.len() as u32) {
        return Err(LineFault::Bad);
    }
    draft.groups.push(decl)?;
    draft.section = Section::Groups;
    Ok(())
}

// Whether a group is one over so many pools, and may be added to these.
fn may_join(groups: &[GroupDecl], decl: &GroupDecl, pools: u32) -> bool
    ensures { result ≡ (are_declared pools (group_pools decl.now) && joins groups.now decl.now) }
{
    check(decl, pools).is_ok() && groups.len() < GROUP_LIMIT as usize && is_beside_all(groups, decl)
}

fn is_beside_all(groups: &[GroupDecl], decl: &GroupDecl) -> bool
    ensures { result ≡ list_all (coexist decl.now) groups.now }
{
    groups.iter().all(|other| may_coexist(decl, other))
}

// Whether two groups may stand beside each other.
fn may_coexist(a: &GroupDecl, b: &GroupDecl) -> bool
    ensures { result ≡ coexist a.now b.now }
{
    match relate(a, b) {
        Relation::Apart | Relation::Inner | Relation::Outer => true,
        Relation::Same | Relation::Conflict => false,
    }
}

/// Adds the tick number.
pub fn add_tick(draft: &mut Draft, tick: u64) -> Result<(), LineFault>
    ensures ok { OnOk result (Takes draft.old (Line.Tick tick) draft.new) }
    ensures bad { IsErrOf result LineFault.Bad → Refuses draft.old (Line.Tick tick) }
{
    if !draft.section.is_between(Section::Version, Section::Systems) {
        return Err(LineFault::Bad);
    }
    if draft.unfinished.is_some() {
        return Err(LineFault::Bad);
    }
    draft.tick = tick;
    draft.section = Section::Tick;
    Ok(())
}

// One for a free slot, and none for one that is live.
fn count_of_free(slot: Slot) -> usize
    ensures { result ≡ cond (not slot.live) 1 0 }
{
    if slot.live { 0 } else { 1 }
}

/// Adds a slot, where there is room for one more.
pub fn add_slot(draft: &mut Draft, slot: Slot) -> Result<(), LineFault>
    ensures ok { OnOk result (Takes draft.old (Line.Slot slot) draft.new) }
    ensures bad { IsErrOf result LineFault.Bad → Refuses draft.old (Line.Slot slot) }
{
    if !draft.section.is_between(Section::Tick, Section::Slots) {
        return Err(LineFault::Bad);
    }
    if draft.slots.len() >= draft.format.slot_limit as usize {
        return Err(LineFault::Bad);
    }
    draft.slots.push(slot)?;
    draft.settled.push(slot.live)?;
    draft.unsettled += count_of_free(slot);
    draft.section = Section::Slots;
    Ok(())
}

// A slot that isn't there counts as settled.
fn is_settled(flags: &[bool], index: usize) -> bool
    ensures { result ≡ slice_index_or flags.now index true }
{
    if index < flags.len() {
        flags[index]
    } else {
        true
    }
}

/// Adds an index to the free list, where its slot is free and not on the list.
pub fn add_next(draft: &mut Draft, index: u32) -> Result<(), LineFault>
    ensures ok { OnOk result (Takes draft.old (Line.Next index) draft.new) }
    ensures bad { IsErrOf result LineFault.Bad → Refuses draft.old (Line.Next index) }
{
    if !draft.section.is_between(Section::Tick, Section::FreeList) {
        return Err(LineFault::Bad);
    }
    let at = index as usize;
    if is_settled(&draft.settled, at) {
        return Err(LineFault::Bad);
    }
    draft.free.push(index)?;
    draft.settled[at] = true;
    draft.unsettled -= 1;
    draft.section = Section::FreeList;
    Ok(())
}

/// Ends the document, where every free slot is on the free list and every component has its pool.
pub fn add_end(draft: &mut Draft) -> Result<(), LineFault>
    ensures ok { OnOk result (Takes draft.old Line.End draft.new) }
    ensures bad { IsErrOf result LineFault.Bad → Refuses draft.old Line.End }
{
    if !draft.section.is_between(Section::Tick, Section::Pools) {
        return Err(LineFault::Bad);
    }
    if draft.unsettled != 0 {
        return Err(LineFault::Bad);
    }
    if draft.pools.len() != draft.decls.len() {
        return Err(LineFault::Bad);
    }
    draft.section = Section::End;
    Ok(())
}
