//! Orders carried out.

ghost use Rattle.std.specs.Prelude.{◌≡◌, ◌+◌, ◌^◌, ◌<◌, if◌then◌else◌, false, length, IsOk, IfOk, IfErr, OnOk, OnErr};
ghost use Rattle.std.specs.List.{AllByRecursion};
ghost use Rattle.world_model.specs.declared.deferred.Needs.{Needs};
ghost use Rattle.world_model.specs.Orders.{IsFitting, last_after};
ghost use Rattle.registry.specs.Applying.{outcome_in, IsCarriedOut, Applies, AppliesFirst};
ghost use Rattle.registry.specs.Held.{AsBefore};
ghost use Rattle.registry.specs.Layout.{held_of, IsKept};
ghost use Rattle.registry.specs.Rooms.{HasRoom, HasRoomFor, HasRoomForOrders, AreLeft};
ghost use Rattle.registry.specs.Spending.{adds_of, updates_of, spawns_of, Spends};

use super::Parts;
use super::components::erase;
use super::leaving::destroy;
use super::one_order::{add, give, send, spawn};
use crate::stopped::ApplyStopped;
use entity_id::{Entity, OutOfMemory};
use signal_sink::Listener;
use sparse_set::Steps;
use std::sync::ledger::Ledger;
use world_model::{Applied, Deferred};

// Carries out orders, one after another. Where the room for them stands, none is asked for, and all are
// carried out.
pub fn apply<L: Listener, G: Ledger>(
    parts: &mut Parts<L>,
    orders: &[Deferred],
    growing: bool,
    steps: &mut Steps<G>,
) -> Result<Applied, ApplyStopped>
    requires consistent { IsKept parts.old }
    requires fitting { AllByRecursion
        (IsFitting parts.old.slots.profile parts.old.decls) orders.now }
    requires room { growing ≡ false → HasRoomForOrders orders.now (held_of parts.old) }
    ensures consistent { IsKept parts.new }
    ensures ok { IfOk result (λ applied.
        Applies (held_of parts.old) (held_of parts.new) orders.now applied) }
    ensures some { IfErr result (λ stopped. stopped.after < length orders.now) }
    ensures err { IfErr result (λ stopped.
        AppliesFirst (held_of parts.old) (held_of parts.new) orders.now stopped.after) }
    ensures never { growing ≡ false → IsOk result }
    ensures left { OnOk result ((needs rest : Needs) → AreLeft needs rest orders.now →
        HasRoomFor needs (held_of parts.old) → HasRoomFor rest (held_of parts.new)) }
{
    let mut applied = Applied {
        done: 0,
        skipped: 0,
    };
    let mut last = None;
    for order in orders {
        match carry_out(parts, &mut last, order, growing, steps) {
            Ok(done) => applied = counted(applied, done),
            Err(_) => {
                return Err(ApplyStopped {
                    after: applied.done + applied.skipped,
                });
            }
        }
    }
    Ok(applied)
}

// One order more, done or skipped.
fn counted(applied: Applied, done: bool) -> Applied
    requires { applied.done + applied.skipped + 1 < 2 ^ 64 }
    ensures done { result.done ≡ applied.done + (if done then 1 else 0) }
    ensures skipped { result.skipped ≡ applied.skipped + (if done then 0 else 1) }
{
    let mut more = applied;
    if done {
        more.done += 1;
    } else {
        more.skipped += 1;
    }
    more
}

// Carries out one order, and says whether it was done: one that would be refused is skipped.
fn carry_out<L: Listener, G: Ledger>(
    parts: &mut Parts<L>,
    last: &mut Option<Entity>,
    order: &Deferred,
    growing: bool,
    steps: &mut Steps<G>,
) -> Result<bool, OutOfMemory>
    requires consistent { IsKept parts.old }
    requires fitting { IsFitting parts.old.slots.profile parts.old.decls order.now }
    requires room { growing ≡ false → HasRoom (adds_of order.now) (updates_of order.now)
        (spawns_of order.now) (held_of parts.old) }
    ensures consistent { IsKept parts.new }
    ensures ok { IfOk result (λ done. IsCarriedOut (held_of parts.old) (held_of parts.new)
        (outcome_in (held_of parts.old) last.old order.now) done) }
    ensures last { OnOk result (last.new ≡ last_after last.old order.now
        (outcome_in (held_of parts.old) last.old order.now).reply) }
    ensures err { OnErr result (AsBefore (held_of parts.old) (held_of parts.new)) }
    ensures never { growing ≡ false → IsOk result }
    ensures spends { Spends (adds_of order.now) (updates_of order.now)
        (held_of parts.old) (held_of parts.new) }
{
    match order {
        Deferred::Kill { entity } => Ok(destroy(parts, *entity, steps).is_ok()),
        Deferred::Give { entity, pool, row } => give(parts, *entity, *pool, *row, growing, steps),
        Deferred::Take { entity, pool } => Ok(erase(parts, *entity, *pool, steps).is_ok()),
        Deferred::Send {
            entity,
            pool,
            field,
            value,
        } => send(parts, *entity, *pool, *field, *value, growing),
        Deferred::Add {
            entity,
            pool,
            field,
            value,
        } => add(parts, *entity, *pool, *field, *value, growing),
        Deferred::Spawn => spawn(parts, last),
        Deferred::Bear { pool, row } => match *last {
            Some(entity) => give(parts, entity, *pool, *row, growing, steps),
            None => Ok(false),
        },
    }
}
