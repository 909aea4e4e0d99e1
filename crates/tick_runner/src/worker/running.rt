//! One system on pools in slots.

ghost use Rattle.std.specs.Prelude.{◌≡◌, ℕ, ◌<◌, ◌≤◌, ◌^◌, [], Some, length, slice_get, vec_capacity};
ghost use Rattle.world_model.specs.Frames.{pool_limit, IsLawfulAccess};
ghost use Rattle.access_graph.specs.Systems.{system_limit};
ghost use Rattle.tick_runner.specs.Plans.{AreOfTick, IsPartFor};
ghost use Rattle.tick_runner.specs.Running.{IsReady};
ghost use Rattle.tick_runner.specs.Versions.{IsRightAt};

use crate::gate::Gate;
use crate::lending::lend_prefix;
use crate::plan::Part;
use crate::turns::{leave_all, lend_turns, put_all, read_all, read_once, write_all};
use crate::versions::TickFact;
use arrayvec::ArrayVec;
use pool_slots::Slots;
use std::mem;
use std::sync::Wait;
use system_api::{Buffer, Lent, LentPool, System};

// Runs the system at a place: it takes turns at its pools, at the versions that it needs, runs, and puts
// those that it writes back at their next versions; its orders are put in order.
pub fn run_claimed<'a, 'b, R: Wait, S: System, T: Gate>(
    rt: &R,
    slots: &Slots<TickFact<'a, S>>,
    fact: &TickFact<'b, S>,
    place: u32,
    system: &S,
    part: &Part,
    gate: &T,
    room: &mut Vec<LentPool>,
    out: &mut Buffer,
)
    requires slots { AreOfTick fact.now slots.now }
    requires few { length fact.now.systems.value.now ≤ system_limit }
    requires at { slice_get fact.now.systems.value.now place ≡ Some system.now }
    requires lawful { IsLawfulAccess (length fact.now.pools.value.items) (S.lists system.now) }
    requires part { IsPartFor S.lists S.limit fact.now.systems.value.now fact.now.pools.value.items
        place system.now part.now }
    requires tick { fact.now.tick < 2 ^ 63 }
    requires list { room.old.items ≡ [] }
    requires room { pool_limit ≤ vec_capacity room.old }
    requires ready { IsReady part.now.buffer.slot out.old }
    ensures list { room.new.items ≡ [] }
    ensures room { pool_limit ≤ vec_capacity room.new }
    ensures orders { IsRightAt S.effect fact.now place out.new }
{
    let access = system.access();
    let pools = read_once(access);
    let turns = read_all(rt, slots, &part.needs, pools.as_slice());
    let shown = turns.as_slice();
    let empty = Vec::new(*room.allocator());
    let mut lent = Lent::new(mem::replace(room, empty));
    lend_prefix(&mut lent, part.prefix);
    lend_turns(pools.as_slice(), shown, &mut lent, access);
    let mut places = ArrayVec::new();
    write_all(
        rt,
        slots,
        &part.needs,
        access.write.as_slice(),
        &mut places,
        &mut lent,
    );
    gate.enter(place);
    system.run(&mut lent, fact.tick, out);
    let mut writes = lent.into_writes();
    put_all(places, &mut writes);
    leave_all(turns);
    *room = writes;
    out.settle();
}
