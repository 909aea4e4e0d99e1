//! The rows of one entity.

ghost use Rattle.std.specs.Prelude.{◌≡◌, ◌<◌, ◌+◌, ◌%◌, pos};
ghost use Rattle.entity_id.specs.Fields.{field_of};
ghost use Rattle.entity_id.specs.Identifiers.{p20_12};
ghost use Rattle.world_maker.specs.Draws.{draws_behind};
ghost use Rattle.world_maker.specs.MadeWorlds.{first_owner as owner_of, one_field as row_of_one, two_fields as row_of_two, speed as speed_of};
ghost use Rattle.world_maker.specs.Making.{entity_rows};

use super::draws::Draws;
use entity_id::{Entity, P20_12};
use world_model::Row;

/// The row of an entity in each component, and whether it is frozen.
#[derive(Clone, Copy, Debug)]
pub struct EntityRows {
    /// Where it is.
    pub position: Row,
    /// How fast it moves.
    pub velocity: Row,
    /// How well it is.
    pub health: Row,
    /// With whom it is.
    pub team: Row,
    /// Whom it attacks.
    pub target: Row,
    /// How hard it hits.
    pub damage: Row,
    /// Since when it is there.
    pub timer: Row,
    /// Whether it stands still.
    pub is_frozen: bool,
}

/// The first identifier of an index. No memory.
pub fn first_owner(index: u32) -> Entity
    ensures { result ≡ owner_of index }
{
    Entity { index, version: 0 }
}

/// The rows of the next of so many entities, from its ten draws. No memory.
pub fn draw_rows(draws: &mut Draws, count: u32) -> EntityRows
    requires { 0 < count }
    ensures rows { result ≡ entity_rows count (draws_behind draws.old.last) }
    ensures last { draws.new.last ≡ draws_behind draws.old.last 10 }
{
    EntityRows {
        position: two_fields(below(draws, 1000), below(draws, 1000)),
        velocity: two_fields(speed(draws), speed(draws)),
        health: one_field(health(draws)),
        team: one_field(below(draws, 4)),
        target: one_field(target(draws, count)),
        damage: one_field(below(draws, 5)),
        timer: one_field(below(draws, 50)),
        is_frozen: draws.draw() % 8 == 0,
    }
}

// What the next draw leaves when it is divided.
fn below(draws: &mut Draws, limit: u32) -> i64
    requires { 0 < limit }
    ensures value { result ≡ pos (draws_behind draws.old.last 1 % limit) }
    ensures last { draws.new.last ≡ draws_behind draws.old.last 1 }
{
    i64::from(draws.draw() % limit)
}

// A speed from -5 to 5, by the next draw.
fn speed(draws: &mut Draws) -> i64
    ensures value { result ≡ speed_of (draws_behind draws.old.last 1) }
    ensures last { draws.new.last ≡ draws_behind draws.old.last 1 }
{
    below(draws, 11) - 5
}

// A health from 1 to 100, by the next draw.
fn health(draws: &mut Draws) -> i64
    ensures value { result ≡ pos (draws_behind draws.old.last 1 % 100 + 1) }
    ensures last { draws.new.last ≡ draws_behind draws.old.last 1 }
{
    below(draws, 100) + 1
}

// The field that names one of so many entities, by the next draw.
fn target(draws: &mut Draws, count: u32) -> i64
    requires { 0 < count }
    ensures value { result ≡ field_of p20_12 (owner_of (draws_behind draws.old.last 1 % count)) }
    ensures last { draws.new.last ≡ draws_behind draws.old.last 1 }
{
    first_owner(draws.draw() % count).to_field(P20_12)
}

fn one_field(value: i64) -> Row
    ensures { result ≡ row_of_one value }
{
    Row {
        f: [value, 0, 0, 0],
    }
}

fn two_fields(first: i64, second: i64) -> Row
    ensures { result ≡ row_of_two first second }
{
    Row {
        f: [first, second, 0, 0],
    }
}
