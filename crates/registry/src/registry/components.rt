//! Rows added, replaced and removed.

ghost use Rattle.std.specs.Prelude.{◌≡◌, ◌≢◌, ◌+◌, ◌≤◌, ◌<◌, ◌&&◌, not, length, false, if◌then◌else◌, is_ok, Some, Err, IsTrue, IfOk, IfErr, OnOk, OnErr};
ghost use Rattle.world_model.specs.declared.command.Command.TheVariants.{Emplace, EmplaceOrReplace, Replace, Patch, Remove, Erase, Clear};
ghost use Rattle.world_model.specs.declared.command.Reply.TheVariants.{Done, Number, Refused};
ghost use Rattle.world_model.specs.declared.refusal.Refusal.{Refusal};
ghost use Rattle.world_model.specs.Components.{fits_kind, has_field};
ghost use Rattle.world_model.specs.Conditions.{fits_pool};
ghost use Rattle.world_model.specs.Contents.{has_row};
ghost use Rattle.group_engine.specs.Grouped.{is_named};
ghost use Rattle.registry.specs.Costs.{row_steps, ClearsWithin};
ghost use Rattle.registry.specs.Held.{Does, AsBefore, reply_to, refusal_to};
ghost use Rattle.registry.specs.Packing.{Repacks};

use super::Registry;
use crate::parts::width::is_wide;
use crate::parts::{clearing, components, fields};
use entity_id::Entity;
use signal_sink::Listener;
use sparse_set::Steps;
use std::sync::ledger::Ledger;
use world_model::{Refusal, Row};

impl<L: Listener> Registry<L> {
    /// Adds a row to a pool, of which its listeners hear. The row fits the component, where that is
    /// declared (`Decl::fits`). `NoPool`, then `Dead`, then `Present`, exactly where the pool is not
    /// declared, the identifier is not live, and it is in the pool; `OutOfMemory` where none of these
    /// holds. The identifier stands last in the pool's packed list then, unless a group owns the pool.
    /// Each group that names the pool keeps its members first in the pools that it owns, and may
    /// reorder these; no other packed list changes. One step, and at most one more for each owned pool
    /// of each group that names the pool. Takes memory. (EnTT: `registry.emplace<T>(entity, ..)`.)
    pub fn emplace<G: Ledger>(
        &mut self,
        entity: Entity,
        pool: u32,
        row: Row,
        steps: &mut Steps<G>,
    ) -> Result<(), Refusal>
        requires { IsTrue (fits_pool self.old.world.profile self.old.world.decls pool row) }
        ensures ok { OnOk result (Does self.old self.new (Emplace entity pool row)) }
        ensures reply { OnOk result (reply_to self.old (Emplace entity pool row) ≡ Done) }
        ensures err { OnErr result (AsBefore self.old self.new) }
        ensures cause { IfErr result (λ refused. refused ≢ Refusal.OutOfMemory →
            refusal_to self.old (Emplace entity pool row) ≡ Some refused) }
        ensures refused { (cause : Refusal) →
            refusal_to self.old (Emplace entity pool row) ≡ Some cause → result ≡ Err cause }
        ensures packed { OnOk result (Repacks self.old self.new (Emplace entity pool row)) }
        ensures steps { is_named self.old.world.groups pool ≡ false →
            steps.new ≡ steps.old + (if is_ok result then 1 else 0) }
        ensures few { steps.new ≤ steps.old + row_steps self.old.world.groups pool }
    {
        is_wide(&row);
        components::emplace(&mut self.parts, entity, pool, row, steps)
    }

    /// Adds a row, or replaces the one that is there: listeners hear of a construction or of an
    /// update. The row fits the component, where that is declared. `NoPool`, then `Dead`, exactly
    /// where the pool is not declared and the identifier is not live; `OutOfMemory` where neither
    /// holds. For a row that is added the packed lists and the steps are those of
    /// [`Registry::emplace`]; one that is replaced changes no packed list and counts no step. Takes
    /// memory. (EnTT: `registry.emplace_or_replace<T>(entity, ..)`.)
    pub fn emplace_or_replace<G: Ledger>(
        &mut self,
        entity: Entity,
        pool: u32,
        row: Row,
        steps: &mut Steps<G>,
    ) -> Result<(), Refusal>
        requires { IsTrue (fits_pool self.old.world.profile self.old.world.decls pool row) }
        ensures ok { OnOk result (Does self.old self.new (EmplaceOrReplace entity pool row)) }
        ensures reply { OnOk result (reply_to self.old (EmplaceOrReplace entity pool row) ≡ Done) }
        ensures err { OnErr result (AsBefore self.old self.new) }
        ensures cause { IfErr result (λ refused. refused ≢ Refusal.OutOfMemory →
            refusal_to self.old (EmplaceOrReplace entity pool row) ≡ Some refused) }
        ensures refused { (cause : Refusal) →
            refusal_to self.old (EmplaceOrReplace entity pool row) ≡ Some cause → result ≡ Err cause }
        ensures packed { OnOk result (Repacks self.old self.new (EmplaceOrReplace entity pool row)) }
        ensures steps { is_named self.old.world.groups pool ≡ false → steps.new ≡ steps.old
            + (if is_ok result && not (has_row self.old.world pool entity) then 1 else 0) }
        ensures few { steps.new ≤ steps.old + row_steps self.old.world.groups pool }
    {
        is_wide(&row);
        components::emplace_or_replace(&mut self.parts, entity, pool, row, true, steps)
    }

    /// Replaces a row, of which the pool's listeners of updates hear. The row fits the component,
    /// where that is declared. `NoPool`, then `Dead`, then `Absent`, exactly where the pool is not
    /// declared, the identifier is not live, and it is not in the pool; `OutOfMemory` where none of
    /// these holds, and a listener finds no room. (EnTT: `registry.replace<T>(entity, ..)`.)
    pub fn replace(&mut self, entity: Entity, pool: u32, row: Row) -> Result<(), Refusal>
        requires { IsTrue (fits_pool self.old.world.profile self.old.world.decls pool row) }
        ensures ok { OnOk result (Does self.old self.new (Replace entity pool row)) }
        ensures reply { OnOk result (reply_to self.old (Replace entity pool row) ≡ Done) }
        ensures err { OnErr result (AsBefore self.old self.new) }
        ensures cause { IfErr result (λ refused. refused ≢ Refusal.OutOfMemory →
            refusal_to self.old (Replace entity pool row) ≡ Some refused) }
        ensures refused { (cause : Refusal) →
            refusal_to self.old (Replace entity pool row) ≡ Some cause → result ≡ Err cause }
        ensures packed { OnOk result (Repacks self.old self.new (Replace entity pool row)) }
    {
        is_wide(&row);
        components::replace(&mut self.parts, entity, pool, row)
    }

    /// Sets one field of a row, of which the pool's listeners of updates hear. Where the component
    /// is declared, it has the field, and the field may hold the value. `NoPool`, then `Dead`, then
    /// `Absent`, exactly where the pool is not declared, the identifier is not live, and it is not in
    /// the pool; `OutOfMemory` where none of these holds, and a listener finds no room. (EnTT:
    /// `registry.patch<T>(entity, ..)`.)
    pub fn patch(
        &mut self,
        entity: Entity,
        pool: u32,
        field: u32,
        value: i64,
    ) -> Result<(), Refusal>
        requires { pool < length self.old.world.decls → IsTrue (has_field
            (λ kind. fits_kind self.old.world.profile kind value) self.old.world.decls pool field) }
        ensures ok { OnOk result (Does self.old self.new (Patch entity pool field value)) }
        ensures reply { OnOk result (reply_to self.old (Patch entity pool field value) ≡ Done) }
        ensures err { OnErr result (AsBefore self.old self.new) }
        ensures cause { IfErr result (λ refused. refused ≢ Refusal.OutOfMemory →
            refusal_to self.old (Patch entity pool field value) ≡ Some refused) }
        ensures refused { (cause : Refusal) →
            refusal_to self.old (Patch entity pool field value) ≡ Some cause → result ≡ Err cause }
        ensures packed { OnOk result (Repacks self.old self.new (Patch entity pool field value)) }
    {
        fields::patch(&mut self.parts, entity, pool, field, value, true)
    }

    /// Removes a row, where there is one: 1 then, once its listeners heard of its destruction, and
    /// else 0. `NoPool`, then `Dead`, exactly where the pool is not declared and the identifier is
    /// not live. The packed lists are those of [`Registry::erase`] where a row goes, and else stay. One
    /// step for a row removed, and at most one more for each owned pool of each group that names the
    /// pool. No memory. (EnTT: `registry.remove<T>(entity)`.)
    pub fn remove<G: Ledger>(
        &mut self,
        entity: Entity,
        pool: u32,
        steps: &mut Steps<G>,
    ) -> Result<u32, Refusal>
        ensures does { Does self.old self.new (Remove entity pool) }
        ensures ok { IfOk result (λ count. reply_to self.old (Remove entity pool) ≡ Number count) }
        ensures err { IfErr result (λ refused.
            reply_to self.old (Remove entity pool) ≡ Refused refused) }
        ensures unchanged { OnErr result (AsBefore self.old self.new) }
        ensures packed { OnOk result (Repacks self.old self.new (Remove entity pool)) }
        ensures steps { is_named self.old.world.groups pool ≡ false →
            IfOk result (λ count. steps.new ≡ steps.old + count) }
        ensures no_steps { OnErr result (steps.new ≡ steps.old) }
        ensures few { steps.new ≤ steps.old + row_steps self.old.world.groups pool }
    {
        components::remove(&mut self.parts, entity, pool, steps)
    }

    /// Removes a row that has to be there, once its listeners heard of its destruction. `NoPool`,
    /// then `Dead`, then `Absent`, exactly where the pool is not declared, the identifier is not
    /// live, and it is not in the pool. The last identifier of the pool's packed list takes the place
    /// of the one that goes, unless a group owns the pool. Each group that names the pool keeps its
    /// members first in the pools that it owns, and may reorder these; no other packed list changes.
    /// One step, and at most one more for each owned pool of each group that names the pool. No
    /// memory. (EnTT: `registry.erase<T>(entity)`.)
    pub fn erase<G: Ledger>(
        &mut self,
        entity: Entity,
        pool: u32,
        steps: &mut Steps<G>,
    ) -> Result<(), Refusal>
        ensures does { Does self.old self.new (Erase entity pool) }
        ensures ok { OnOk result (reply_to self.old (Erase entity pool) ≡ Done) }
        ensures err { IfErr result (λ refused.
            reply_to self.old (Erase entity pool) ≡ Refused refused) }
        ensures unchanged { OnErr result (AsBefore self.old self.new) }
        ensures packed { OnOk result (Repacks self.old self.new (Erase entity pool)) }
        ensures steps { is_named self.old.world.groups pool ≡ false →
            steps.new ≡ steps.old + (if is_ok result then 1 else 0) }
        ensures few { steps.new ≤ steps.old + row_steps self.old.world.groups pool }
    {
        components::erase(&mut self.parts, entity, pool, steps)
    }

    /// Removes every row of a pool, and answers how many there were: listeners hear of each row's
    /// destruction, in ascending index. `NoPool` exactly where the pool is not declared. Each group that
    /// names the pool keeps its members first in the pools that it owns, and may reorder these; no
    /// other packed list changes. The pool's own is put in order by exchanges, by way of a binary
    /// heap: of `n` rows, fewer than `2 ^ depth`, it counts at most `n * (2 * depth + 1)` steps, and
    /// for each row one more for each owned pool of each group that names the pool. No memory. (EnTT:
    /// `registry.clear<T>()`, which walks in packed order.)
    pub fn clear_pool<G: Ledger>(&mut self, pool: u32, steps: &mut Steps<G>) -> Result<u32, Refusal>
        ensures does { Does self.old self.new (Clear pool) }
        ensures ok { IfOk result (λ count. reply_to self.old (Clear pool) ≡ Number count) }
        ensures err { IfErr result (λ refused. reply_to self.old (Clear pool) ≡ Refused refused) }
        ensures unchanged { OnErr result (AsBefore self.old self.new) }
        ensures packed { OnOk result (Repacks self.old self.new (Clear pool)) }
        ensures steps { ClearsWithin self.old.world pool steps.old steps.new }
    {
        clearing::clear(&mut self.parts, pool, steps)
    }
}
