//! The rows of each component of a made world.

ghost use Rattle.std.specs.Prelude.{◌≡◌, [], OnOk, IfOk};
ghost use Rattle.world_maker.specs.Making.{no_rows, with_entity, pools_listed};

use super::entity_rows::EntityRows;
use entity_id::{Entity, OutOfMemory};
use std::alloc::Global;
use world_model::{Row, Rows};

// The row of a component without fields, and of one whose field is 0.
const ZERO_ROW: Row = Row { f: [0; 4] };

/// The rows of each component.
#[derive(Debug, Drop)]
pub struct MadePools {
    /// Those of `position`.
    pub position: Rows,
    /// Those of `velocity`.
    pub velocity: Rows,
    /// Those of `health`.
    pub health: Rows,
    /// Those of `team`.
    pub team: Rows,
    /// Those of `target`.
    pub target: Rows,
    /// Those of `damage`.
    pub damage: Rows,
    /// Those of `timer`.
    pub timer: Rows,
    /// Those of `frozen`.
    pub frozen: Rows,
    /// Those of `marked`.
    pub marked: Rows,
}

// No rows, and room for so many.
fn room(alloc: Global, count: usize) -> Result<Rows, OutOfMemory>
    ensures { IfOk result (λ rows. rows ≡ []) }
{
    let rows = Vec::with_capacity(alloc, count)?;
    Ok(Rows::from_vec(rows))
}

impl MadePools {
    /// No rows, and room for those of so many entities. Of the frozen, which are about one in eight, it is
    /// not known how many there are: their rows get room as they come.
    pub fn with_room(alloc: Global, count: usize) -> Result<MadePools, OutOfMemory>
        ensures { IfOk result (λ pools. pools ≡ no_rows) }
    {
        Ok(MadePools {
            position: room(alloc, count)?,
            velocity: room(alloc, count)?,
            health: room(alloc, count)?,
            team: room(alloc, count)?,
            target: room(alloc, count)?,
            damage: room(alloc, count)?,
            timer: room(alloc, count)?,
            frozen: room(alloc, 0)?,
            marked: room(alloc, count)?,
        })
    }

    /// Appends the rows of an entity.
    pub fn push(&mut self, entity: Entity, rows: &EntityRows) -> Result<(), OutOfMemory>
        ensures { OnOk result (self.new ≡ with_entity self.old entity rows.now) }
    {
        self.position.push(entity, rows.position)?;
        self.velocity.push(entity, rows.velocity)?;
        self.health.push(entity, rows.health)?;
        self.team.push(entity, rows.team)?;
        self.target.push(entity, rows.target)?;
        self.damage.push(entity, rows.damage)?;
        self.timer.push(entity, rows.timer)?;
        if rows.is_frozen {
            self.frozen.push(entity, ZERO_ROW)?;
        }
        self.marked.push(entity, ZERO_ROW)
    }

    /// The rows of each component, by its number.
    pub fn into_list(self, alloc: Global) -> Result<Vec<Rows>, OutOfMemory>
        ensures { IfOk result (λ list. list.items ≡ pools_listed self) }
    {
        let mut list = Vec::with_capacity(alloc, 9)?;
        list.push(self.position)?;
        list.push(self.velocity)?;
        list.push(self.health)?;
        list.push(self.team)?;
        list.push(self.target)?;
        list.push(self.damage)?;
        list.push(self.timer)?;
        list.push(self.frozen)?;
        list.push(self.marked)?;
        Ok(list)
    }
}
