//! Commands carried out, with their replies.

ghost use Rattle.std.specs.Prelude.{◌≡◌, IsTrue};
ghost use Rattle.world_model.specs.declared.command.Reply.TheVariants.{Done, Made, Number, Truth, Values, Listed, GroupNumber};
ghost use Rattle.registry.specs.Costs.{RunsWithin};
ghost use Rattle.registry.specs.Layout.{world_of, held_of, IsKept};
ghost use Rattle.registry.specs.Running.{is_question, reply_by, Asks, IsRun};

use super::grouping::group_by_ref;
use super::listing::{list_members, list_sorted_group, list_sorted_pool};
use super::width::is_wide;
use super::{Parts, clearing, components, creation, fields, leaving, queries, viewing};
use entity_id::{Entities, Entity};
use signal_sink::Listener;
use sparse_set::Steps;
use std::sync::ledger::Ledger;
use world_model::{Command, Refusal, Reply, Row};

// Carries out a command.
pub fn run<L: Listener, G: Ledger>(
    parts: &mut Parts<L>,
    command: &Command,
    steps: &mut Steps<G>,
) -> Reply
    requires consistent { IsKept parts.old }
    requires asked { Asks (world_of parts.old) command.now }
    ensures consistent { IsKept parts.new }
    ensures run { IsRun (held_of parts.old) (held_of parts.new) command.now result }
    ensures steps { RunsWithin (world_of parts.old) command.now steps.old steps.new }
{
    match command {
        Command::Create => made(creation::create(parts)),
        Command::Hint { entity } => made(creation::create_hint(parts, *entity)),
        Command::Destroy { entity } => done(leaving::destroy(parts, *entity, steps)),
        Command::Emplace { entity, pool, row } => {
            is_wide(row);
            done(components::emplace(parts, *entity, *pool, *row, steps))
        }
        Command::EmplaceOrReplace { entity, pool, row } => {
            is_wide(row);
            done(components::emplace_or_replace(parts, *entity, *pool, *row, true, steps))
        }
        Command::Replace { entity, pool, row } => {
            is_wide(row);
            done(components::replace(parts, *entity, *pool, *row))
        }
        Command::Patch {
            entity,
            pool,
            field,
            value,
        } => { done(fields::patch(parts, *entity, *pool, *field, *value, true)) }
        Command::Remove { entity, pool } => {
            count(components::remove(parts, *entity, *pool, steps))
        }
        Command::Erase { entity, pool } => { done(components::erase(parts, *entity, *pool, steps)) }
        Command::Clear { pool } => count(clearing::clear(parts, *pool, steps)),
        Command::Group { decl } => numbered(group_by_ref(parts, decl, steps)),
        Command::SortPool { pool, field } => listed(list_sorted_pool(parts, *pool, *field, steps)),
        Command::SortGroup { group, pool, field } => {
            listed(list_sorted_group(parts, *group, *pool, *field, steps))
        }
        _ => ask(parts, command),
    }
}

// Carries out a command that changes nothing.
fn ask<L: Listener>(parts: &Parts<L>, command: &Command) -> Reply
    requires consistent { IsKept parts.now }
    requires asked { Asks (world_of parts.now) command.now }
    requires question { IsTrue (is_question command.now) }
    ensures { IsRun (held_of parts.now) (held_of parts.now) command.now result }
{
    match command {
        Command::Valid { entity } => Reply::Truth(parts.slots.valid(*entity)),
        Command::Get { entity, pool } => values(queries::get(parts, *entity, *pool)),
        Command::AllOf { entity, pools } => truth(queries::all_of(parts, *entity, pools)),
        Command::AnyOf { entity, pools } => truth(queries::any_of(parts, *entity, pools)),
        Command::Orphan { entity } => truth(queries::orphan(parts, *entity)),
        Command::Alive => Reply::Number(u64::from(parts.slots.alive())),
        Command::Size => Reply::Number(u64::from(parts.slots.len())),
        Command::View { all, without } => listed(viewing::view(parts, all, without)),
        Command::Members { group } => listed(list_members(parts, *group)),
        // No other command is a question.
        _ => unreachable!(),
    }
}

fn done(answer: Result<(), Refusal>) -> Reply
    ensures { result ≡ reply_by (λ _. Done) answer }
{
    match answer {
        Ok(()) => Reply::Done,
        Err(refused) => Reply::Refused(refused),
    }
}

fn made(answer: Result<Entity, Refusal>) -> Reply
    ensures { result ≡ reply_by (λ entity. Made entity) answer }
{
    match answer {
        Ok(entity) => Reply::Made(entity),
        Err(refused) => Reply::Refused(refused),
    }
}

fn count(answer: Result<u32, Refusal>) -> Reply
    ensures { result ≡ reply_by (λ count. Number count) answer }
{
    match answer {
        Ok(count) => Reply::Number(u64::from(count)),
        Err(refused) => Reply::Refused(refused),
    }
}

fn numbered(answer: Result<u32, Refusal>) -> Reply
    ensures { result ≡ reply_by (λ group. GroupNumber group) answer }
{
    match answer {
        Ok(group) => Reply::GroupNumber(group),
        Err(refused) => Reply::Refused(refused),
    }
}

fn truth(answer: Result<bool, Refusal>) -> Reply
    ensures { result ≡ reply_by (λ answer. Truth answer) answer }
{
    match answer {
        Ok(answer) => Reply::Truth(answer),
        Err(refused) => Reply::Refused(refused),
    }
}

fn values(answer: Result<Row, Refusal>) -> Reply
    ensures { result ≡ reply_by (λ row. Values row) answer }
{
    match answer {
        Ok(row) => Reply::Values(row),
        Err(refused) => Reply::Refused(refused),
    }
}

fn listed(answer: Result<Entities, Refusal>) -> Reply
    ensures { result ≡ reply_by (λ list. Listed list) answer }
{
    match answer {
        Ok(list) => Reply::Listed(list),
        Err(refused) => Reply::Refused(refused),
    }
}
