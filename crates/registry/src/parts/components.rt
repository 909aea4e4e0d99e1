//! The commands on one row.

ghost use Rattle.std.specs.Prelude.{◌≡◌, ◌≢◌, ◌+◌, ◌≤◌, ◌&&◌, not, length, Some, false, if◌then◌else◌, is_ok, Err, IfOk, IfErr, OnOk, OnErr};
ghost use Rattle.world_model.specs.declared.command.Command.TheVariants.{Emplace, EmplaceOrReplace, Replace, Remove, Erase};
ghost use Rattle.world_model.specs.declared.command.Reply.TheVariants.{Done, Number, Refused};
ghost use Rattle.world_model.specs.declared.refusal.Refusal.{Refusal};
ghost use Rattle.world_model.specs.Conditions.{IsAllowed};
ghost use Rattle.world_model.specs.Contents.{has_row};
ghost use Rattle.group_engine.specs.Grouped.{is_named};
ghost use Rattle.registry.specs.Costs.{row_steps};
ghost use Rattle.registry.specs.Held.{Does, AsBefore, reply_to, refusal_to};
ghost use Rattle.registry.specs.Layout.{world_of, held_of, IsKept};
ghost use Rattle.registry.specs.Packing.{Repacks};
ghost use Rattle.registry.specs.Rooms.{HasRoomInPool};
ghost use Rattle.registry.specs.Spending.{nowhere, once_in, Spends};

use super::Parts;
use super::refusing::{entry_refusal, has_row};
use super::rows::{change_row, drop_row, put_row};
use entity_id::Entity;
use signal_sink::Listener;
use sparse_set::Steps;
use std::sync::ledger::Ledger;
use world_model::{Refusal, Row};

// Adds a row.
pub fn emplace<L: Listener, G: Ledger>(
    parts: &mut Parts<L>,
    entity: Entity,
    pool: u32,
    row: Row,
    steps: &mut Steps<G>,
) -> Result<(), Refusal>
    requires consistent { IsKept parts.old }
    requires allowed { IsAllowed (world_of parts.old) (Emplace entity pool row) }
    ensures consistent { IsKept parts.new }
    ensures ok { OnOk result
        (Does (held_of parts.old) (held_of parts.new) (Emplace entity pool row)) }
    ensures reply { OnOk result (reply_to (held_of parts.old) (Emplace entity pool row) ≡ Done) }
    ensures err { OnErr result (AsBefore (held_of parts.old) (held_of parts.new)) }
    ensures cause { IfErr result (λ refused. refused ≢ Refusal.OutOfMemory →
        refusal_to (held_of parts.old) (Emplace entity pool row) ≡ Some refused) }
    ensures refused { (cause : Refusal) →
        refusal_to (held_of parts.old) (Emplace entity pool row) ≡ Some cause → result ≡ Err cause }
    ensures packed { OnOk result
        (Repacks (held_of parts.old) (held_of parts.new) (Emplace entity pool row)) }
    ensures steps { is_named parts.old.groups.decls pool ≡ false →
        steps.new ≡ steps.old + (if is_ok result then 1 else 0) }
    ensures few { steps.new ≤ steps.old + row_steps parts.old.groups.decls pool }
{
    match entry_refusal(parts, entity, pool) {
        Some(refused) => Err(refused),
        None => put_row(parts, entity, pool, row, true, steps),
    }
}

// Replaces a row.
pub fn replace<L: Listener>(
    parts: &mut Parts<L>,
    entity: Entity,
    pool: u32,
    row: Row,
) -> Result<(), Refusal>
    requires consistent { IsKept parts.old }
    requires allowed { IsAllowed (world_of parts.old) (Replace entity pool row) }
    ensures consistent { IsKept parts.new }
    ensures ok { OnOk result
        (Does (held_of parts.old) (held_of parts.new) (Replace entity pool row)) }
    ensures reply { OnOk result (reply_to (held_of parts.old) (Replace entity pool row) ≡ Done) }
    ensures err { OnErr result (AsBefore (held_of parts.old) (held_of parts.new)) }
    ensures cause { IfErr result (λ refused. refused ≢ Refusal.OutOfMemory →
        refusal_to (held_of parts.old) (Replace entity pool row) ≡ Some refused) }
    ensures refused { (cause : Refusal) →
        refusal_to (held_of parts.old) (Replace entity pool row) ≡ Some cause → result ≡ Err cause }
    ensures packed { OnOk result
        (Repacks (held_of parts.old) (held_of parts.new) (Replace entity pool row)) }
{
    match entry_refusal(parts, entity, pool) {
        Some(refused) => Err(refused),
        None => change_row(parts, entity, pool, row, true),
    }
}

// Adds a row, or replaces the one that is there.
pub fn emplace_or_replace<L: Listener, G: Ledger>(
    parts: &mut Parts<L>,
    entity: Entity,
    pool: u32,
    row: Row,
    growing: bool,
    steps: &mut Steps<G>,
) -> Result<(), Refusal>
    requires consistent { IsKept parts.old }
    requires allowed { IsAllowed (world_of parts.old) (EmplaceOrReplace entity pool row) }
    requires room { growing ≡ false →
        HasRoomInPool (held_of parts.old) (length parts.old.slots.slots) 1 1 pool }
    ensures consistent { IsKept parts.new }
    ensures ok { OnOk result
        (Does (held_of parts.old) (held_of parts.new) (EmplaceOrReplace entity pool row)) }
    ensures reply { OnOk result
        (reply_to (held_of parts.old) (EmplaceOrReplace entity pool row) ≡ Done) }
    ensures err { OnErr result (AsBefore (held_of parts.old) (held_of parts.new)) }
    ensures cause { IfErr result (λ refused. refused ≢ Refusal.OutOfMemory →
        refusal_to (held_of parts.old) (EmplaceOrReplace entity pool row) ≡ Some refused) }
    ensures refused { (cause : Refusal) →
        refusal_to (held_of parts.old) (EmplaceOrReplace entity pool row) ≡ Some cause → result ≡ Err cause }
    ensures packed { OnOk result
        (Repacks (held_of parts.old) (held_of parts.new) (EmplaceOrReplace entity pool row)) }
    ensures steps { is_named parts.old.groups.decls pool ≡ false → steps.new ≡ steps.old
        + (if is_ok result && not (has_row (world_of parts.old) pool entity) then 1 else 0) }
    ensures few { steps.new ≤ steps.old + row_steps parts.old.groups.decls pool }
    ensures never { growing ≡ false → IfErr result (λ refused. refused ≢ Refusal.OutOfMemory) }
    ensures spends { Spends (once_in pool) (once_in pool) (held_of parts.old) (held_of parts.new) }
{
    match entry_refusal(parts, entity, pool) {
        Some(refused) => Err(refused),
        None if has_row(parts, entity, pool) => change_row(parts, entity, pool, row, growing),
        None => put_row(parts, entity, pool, row, growing, steps),
    }
}

// Removes a row, where there is one, and says whether there was.
pub fn remove<L: Listener, G: Ledger>(
    parts: &mut Parts<L>,
    entity: Entity,
    pool: u32,
    steps: &mut Steps<G>,
) -> Result<u32, Refusal>
    requires { IsKept parts.old }
    ensures consistent { IsKept parts.new }
    ensures does { Does (held_of parts.old) (held_of parts.new) (Remove entity pool) }
    ensures ok { IfOk result (λ count.
        reply_to (held_of parts.old) (Remove entity pool) ≡ Number count) }
    ensures err { IfErr result (λ refused.
        reply_to (held_of parts.old) (Remove entity pool) ≡ Refused refused) }
    ensures unchanged { OnErr result (AsBefore (held_of parts.old) (held_of parts.new)) }
    ensures packed { OnOk result
        (Repacks (held_of parts.old) (held_of parts.new) (Remove entity pool)) }
    ensures steps { is_named parts.old.groups.decls pool ≡ false →
        IfOk result (λ count. steps.new ≡ steps.old + count) }
    ensures no_steps { OnErr result (steps.new ≡ steps.old) }
    ensures few { steps.new ≤ steps.old + row_steps parts.old.groups.decls pool }
{
    match entry_refusal(parts, entity, pool) {
        Some(refused) => Err(refused),
        None if drop_row(parts, entity, pool, steps) => Ok(1),
        None => Ok(0),
    }
}

// Removes a row that has to be there.
pub fn erase<L: Listener, G: Ledger>(
    parts: &mut Parts<L>,
    entity: Entity,
    pool: u32,
    steps: &mut Steps<G>,
) -> Result<(), Refusal>
    requires { IsKept parts.old }
    ensures consistent { IsKept parts.new }
    ensures does { Does (held_of parts.old) (held_of parts.new) (Erase entity pool) }
    ensures ok { OnOk result (reply_to (held_of parts.old) (Erase entity pool) ≡ Done) }
    ensures err { IfErr result (λ refused.
        reply_to (held_of parts.old) (Erase entity pool) ≡ Refused refused) }
    ensures unchanged { OnErr result (AsBefore (held_of parts.old) (held_of parts.new)) }
    ensures packed { OnOk result
        (Repacks (held_of parts.old) (held_of parts.new) (Erase entity pool)) }
    ensures spends { Spends nowhere nowhere (held_of parts.old) (held_of parts.new) }
    ensures steps { is_named parts.old.groups.decls pool ≡ false →
        steps.new ≡ steps.old + (if is_ok result then 1 else 0) }
    ensures few { steps.new ≤ steps.old + row_steps parts.old.groups.decls pool }
{
    match entry_refusal(parts, entity, pool) {
        Some(refused) => Err(refused),
        None if drop_row(parts, entity, pool, steps) => Ok(()),
        None => Err(Refusal::Absent),
    }
}
