//! The walk of a system over its entities, a batch of places at a time.

ghost use Rattle.std.specs.Prelude.{◌≡◌, ℕ, ◌+◌, ◌*◌, ◌^◌, ◌<◌, ◌≤◌, length, IsTrue};
ghost use Rattle.world_model.specs.Frames.{own_pools, pool_limit};
ghost use Rattle.world_model.specs.Groups.{are_distinct};
ghost use Rattle.row_lang.specs.Systems.{command_count};
ghost use Rattle.system_api.specs.Running.{AreLentFor};
ghost use Rattle.system_eval.specs.Lanes.{AreReady};
ghost use Rattle.system_eval.specs.Walks.{own_pool_at, walked_in, Rewrites, Gives};

mod batch;
mod choice;
mod lanes;
mod own;
mod store;
mod task;

use crate::body::Stack;
use batch::run_batch;
pub use choice::choose;
use system_api::{Buffer, LANES, Lent, NO_ROW, POOL_LIMIT};
pub use task::Task;

/// The walk over the first `end` entities of the own pool at a place: each that is one of the
/// system's has the rows that the body leaves, and its orders are given. No memory.
pub fn walk(task: &Task<'_>, lent: &mut Lent<'_>, at: usize, end: u32, out: &mut Buffer)
    requires pools { AreLentFor task.now.system.access lent.old }
    requires few { length (own_pools task.now.system.access) ≤ pool_limit }
    requires distinct { IsTrue (are_distinct (own_pools task.now.system.access)) }
    requires tick { task.now.tick < 2 ^ 63 }
    requires ready { ∥ AreReady task.now.system.access task.now.system.statements ∥₁ }
    requires at { at < length (own_pools task.now.system.access) }
    requires end { end
        ≤ length (own_pool_at (length task.now.system.access.read) lent.old at).storage.pairs }
    requires room { command_count task.now.system.statements * end ≤ out.old.spare }
    ensures rows { Rewrites task.now
        (walked_in (length task.now.system.access.read) lent.old at end) 0 end lent.old lent.new }
    ensures orders { Gives task.now
        (walked_in (length task.now.system.access.read) lent.old at end) 0 end lent.old
        out.old.list out.new.list }
    ensures spare { out.new.spare + length out.new.list ≡ out.old.spare + length out.old.list }
{
    let mut places = [[0; LANES]; POOL_LIMIT];
    let mut columns = [[NO_ROW; LANES]; POOL_LIMIT];
    let mut stack = Stack::new();
    let end = end as usize;
    let mut from = 0;
    while from < end {
        run_batch(
            task,
            lent,
            at,
            end,
            from,
            &mut places,
            &mut columns,
            &mut stack,
            out,
        );
        from += LANES;
    }
}
