//! One batch of a walk.

ghost use Rattle.std.specs.Prelude.{◌≡◌, ℕ, ◌+◌, ◌*◌, ◌<◌, ◌≤◌, ◌^◌, length, IsTrue};
ghost use Rattle.world_model.specs.Frames.{own_pools};
ghost use Rattle.world_model.specs.Groups.{are_distinct};
ghost use Rattle.row_lang.specs.Systems.{command_count};
ghost use Rattle.system_api.specs.Batches.{lanes};
ghost use Rattle.system_api.specs.Running.{AreLentFor};
ghost use Rattle.system_eval.specs.Lanes.{AreReady};
ghost use Rattle.system_eval.specs.Finding.{IsBatch};
ghost use Rattle.system_eval.specs.Walks.{own_pool_at, excluded_from, walked_in, Rewrites, Gives, AreOnce};

use super::lanes::take_batch;
use super::own::{exclude_from, find_own, own_pool};
use super::store::store_all;
use super::task::Task;
use crate::body::{Scene, Stack, run_body};
use entity_id::Entity;
use system_api::{Buffer, LANES, Lent, NO_ENTITY};
use world_model::{Access, Row};

// The entities of a walk from a place on: those of the system marked, and their places and rows in
// each own pool.
fn find_batch(
    access: &Access,
    lent: &Lent<'_>,
    at: usize,
    end: usize,
    from: usize,
    entities: &mut [Entity; LANES],
    marks: &mut [bool; LANES],
    places: &mut [[u32; LANES]],
    columns: &mut [[Row; LANES]],
)
    requires lists { excluded_from access.now ≤ length lent.now.reads }
    requires at { at < length access.now.read + length lent.now.writes }
    requires end { end
        ≤ length (own_pool_at (length access.now.read) lent.now at).storage.pairs }
    requires from { from ≤ 2 ^ 32 }
    requires places { length access.now.read + length lent.now.writes ≤ length places.old }
    requires columns { length access.now.read + length lent.now.writes ≤ length columns.old }
    ensures places { length places.new ≡ length places.old }
    ensures columns { length columns.new ≡ length columns.old }
    ensures batch { IsBatch access.now (walked_in (length access.now.read) lent.now at end) from
        lent.now entities.new marks.new places.new columns.new }
    ensures once { AreOnce (walked_in (length access.now.read) lent.now at end) }
{
    let reads = access.read.as_slice().len();
    let walked = own_pool(lent, reads, at);
    // That no index comes twice is told by the index.
    let _index = walked.index();
    take_batch(walked.entities(), end, from, entities, marks);
    find_own(lent, reads, at, from, entities, marks, places, columns);
    exclude_from(lent, reads + access.look.as_slice().len(), entities, marks);
}

/// One batch of a walk over the first `end` entities of the own pool at a place: the rows that the
/// body leaves, and its orders. No memory.
pub fn run_batch(
    task: &Task<'_>,
    lent: &mut Lent<'_>,
    at: usize,
    end: usize,
    from: usize,
    places: &mut [[u32; LANES]],
    columns: &mut [[Row; LANES]],
    stack: &mut Stack,
    out: &mut Buffer,
)
    requires pools { AreLentFor task.now.system.access lent.old }
    requires distinct { IsTrue (are_distinct (own_pools task.now.system.access)) }
    requires tick { task.now.tick < 2 ^ 63 }
    requires ready { ∥ AreReady task.now.system.access task.now.system.statements ∥₁ }
    requires at { at < length (own_pools task.now.system.access) }
    requires end { end
        ≤ length (own_pool_at (length task.now.system.access.read) lent.old at).storage.pairs }
    requires from { from < end }
    requires low { from ≤ 2 ^ 32 }
    requires places { length (own_pools task.now.system.access) ≤ length places.old }
    requires columns { length (own_pools task.now.system.access) ≤ length columns.old }
    requires room { command_count task.now.system.statements * end
        ≤ out.old.spare + command_count task.now.system.statements * from }
    ensures places { length places.new ≡ length places.old }
    ensures columns { length columns.new ≡ length columns.old }
    ensures once { AreOnce (walked_in (length task.now.system.access.read) lent.old at end) }
    ensures rows { Rewrites task.now
        (walked_in (length task.now.system.access.read) lent.old at end)
        from (from + lanes) lent.old lent.new }
    ensures orders { Gives task.now
        (walked_in (length task.now.system.access.read) lent.old at end)
        from (from + lanes) lent.old out.old.list out.new.list }
    ensures spare { out.new.spare + length out.new.list ≡ out.old.spare + length out.old.list }
    ensures room { command_count task.now.system.statements * end
        ≤ out.new.spare + command_count task.now.system.statements * (from + lanes) }
{
    let mut entities = [NO_ENTITY; LANES];
    let mut marks = [false; LANES];
    let access = task.system.access();
    find_batch(
        access,
        lent,
        at,
        end,
        from,
        &mut entities,
        &mut marks,
        places,
        columns,
    );
    let scene = Scene {
        profile: task.profile,
        tick: task.tick,
        access,
        lent: &*lent,
        entities: &entities,
        marks: &marks,
    };
    run_body(&scene, task.system.statements(), columns, stack, out);
    let reads = access.read.as_slice().len();
    store_all(lent, reads, &entities, &marks, places, columns);
}
