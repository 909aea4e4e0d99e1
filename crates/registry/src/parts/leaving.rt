//! Entities destroyed.

ghost use Rattle.std.specs.Prelude.{◌≡◌, ◌+◌, ◌<◌, ◌≤◌, ◌^◌, ℕ, length, map, sum_by, OnOk, OnErr, IfErr};
ghost use Rattle.std.specs.List.{list_any};
ghost use Rattle.entity_id.specs.FiniteMap as entries;
ghost use Rattle.world_model.specs.declared.command.Command.TheVariants.{Destroy};
ghost use Rattle.world_model.specs.declared.command.Reply.TheVariants.{Done, Refused};
ghost use Rattle.group_engine.specs.Grouped.{packed_of, AreGrouped, AreStill, moves};
ghost use Rattle.registry.specs.Costs.{row_steps, destroy_steps};
ghost use Rattle.registry.specs.Held.{Does, AsBefore, reply_to};
ghost use Rattle.registry.specs.Layout.{maps_of, rooms_of, world_of, held_of, HaveRoom, KeepGroups, IsKept};
ghost use Rattle.registry.specs.Leaving.{Leave, pools_with};
ghost use Rattle.registry.specs.Packing.{popped, Repacks};
ghost use Rattle.registry.specs.Spending.{nowhere, SpendsRows, Spends};

use super::Parts;
use super::rows::withdraw;
use entity_id::Entity;
use group_engine::GroupEngine;
use signal_sink::{Listener, Signal};
use sparse_set::Steps;
use std::sync::ledger::Ledger;
use storage::Storage;
use world_model::{Refusal, Row};

// Takes an entity out of every pool, the last one first, and frees its slot.
pub fn destroy<L: Listener, G: Ledger>(
    parts: &mut Parts<L>,
    entity: Entity,
    steps: &mut Steps<G>,
) -> Result<(), Refusal>
    requires { IsKept parts.old }
    ensures consistent { IsKept parts.new }
    ensures does { Does (held_of parts.old) (held_of parts.new) (Destroy entity) }
    ensures ok { OnOk result (reply_to (held_of parts.old) (Destroy entity) ≡ Done) }
    ensures err { IfErr result (λ refused.
        reply_to (held_of parts.old) (Destroy entity) ≡ Refused refused) }
    ensures unchanged { OnErr result (AsBefore (held_of parts.old) (held_of parts.new)) }
    ensures packed { OnOk result
        (Repacks (held_of parts.old) (held_of parts.new) (Destroy entity)) }
    ensures steps { steps.new ≤ steps.old + destroy_steps (world_of parts.old) entity }
    ensures spends { Spends nowhere nowhere (held_of parts.old) (held_of parts.new) }
{
    if !parts.slots.valid(entity) {
        return Err(Refusal::Dead);
    }
    leave_all(
        &mut parts.pools,
        &mut parts.groups,
        &mut parts.destroy,
        entity,
        steps,
    );
    let _ = parts.slots.destroy(entity);
    Ok(())
}

// Takes an identifier out of every pool, the last one first.
fn leave_all<L: Listener, G: Ledger>(
    pools: &mut Vec<Storage<Row>>,
    groups: &mut GroupEngine,
    signals: &mut Vec<Signal<L>>,
    entity: Entity,
    steps: &mut Steps<G>,
)
    requires each { length pools.old.items ≡ length signals.old.items }
    requires few { length pools.old.items < 2 ^ 32 }
    requires room { HaveRoom pools.old.items signals.old.items }
    requires count { groups.old.pools ≡ length pools.old.items }
    requires grouped { AreGrouped groups.old.decls groups.old.lens (packed_of pools.old.items) }
    ensures maps { maps_of pools.new.items
        ≡ map (λ rows. entries.remove rows entity) (maps_of pools.old.items) }
    ensures hearings { Leave entity (maps_of pools.old.items) signals.old.items signals.new.items }
    ensures room { HaveRoom pools.new.items signals.new.items }
    ensures groups { KeepGroups groups.old groups.new pools.new.items }
    ensures pool_each { length pools.new.items ≡ length pools.old.items }
    ensures signal_each { length signals.new.items ≡ length signals.old.items }
    ensures packed { AreStill
        (λ (pool : ℕ). list_any (λ (left : ℕ). moves groups.old.decls left pool)
        (pools_with (maps_of pools.old.items) entity))
        (map (popped entity) (packed_of pools.old.items)) (packed_of pools.new.items) }
    ensures steps { steps.new ≤ steps.old
        + sum_by (row_steps groups.old.decls) (pools_with (maps_of pools.old.items) entity) }
    ensures spends { SpendsRows nowhere
        (rooms_of pools.old.items) (rooms_of pools.new.items)
        (packed_of pools.old.items) (packed_of pools.new.items)
        signals.old.items signals.new.items }
{
    let mut left = pools.len();
    while left > 0 {
        left -= 1;
        withdraw(pools, groups, signals, left as u32, entity, steps);
    }
}
