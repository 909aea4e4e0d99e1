//! Turns to write what a system writes.

ghost use Rattle.std.specs.Prelude.{◌≡◌, ◌≤◌, ◌<◌, ◌+◌, ◌++◌, [], map, length, IsTrue, vec_capacity};
ghost use Rattle.std.specs.List.{AllZip};
ghost use Rattle.world_model.specs.Frames.{pool_limit};
ghost use Rattle.world_model.specs.Groups.{are_declared};
ghost use Rattle.pool_slots.specs.Tags.{AreNumbered};
ghost use Rattle.tick_runner.specs.Turns.{found_at, IsOf, MayComeBack};

use arrayvec::ArrayVec;
use pool_slots::{Place, PoolFact, Slots, WriteTurn};
use std::sync::Wait;
use system_api::{Lent, LentPool, POOL_LIMIT};

// Takes the pools of these numbers, at the versions that are needed, and lends them for writing.
pub fn write_all<'s, R: Wait, F: PoolFact>(
    rt: &R,
    slots: &'s Slots<F>,
    needs: &[u32],
    list: &[u32],
    places: &mut ArrayVec<Option<Place<'s, F>>, POOL_LIMIT>,
    lent: &mut Lent<'_>,
)
    requires declared { IsTrue (are_declared (length slots.now) list.now) }
    requires few { length list.now ≤ pool_limit }
    requires numbered { AreNumbered slots.now }
    requires needs { length needs.now ≡ length slots.now }
    requires none { places.old.items ≡ [] }
    requires empty { lent.old.writes ≡ [] }
    ensures places { places.new.items ≡ found_at slots.now needs.now list.now }
    ensures writes { AllZip (IsOf F.admits) places.new.items lent.new.writes }
    ensures reads { lent.new.reads ≡ lent.old.reads }
    ensures prefix { lent.new.prefix ≡ lent.old.prefix }
{
    for pool in list {
        let WriteTurn { place, storage } = slots.write(rt, *pool, needs[*pool as usize]);
        places.push(Some(place));
        lent.add_write(LentPool {
            number: *pool,
            storage,
        });
    }
}

// Puts pools back at their places, each at its next version, and leaves their list empty.
pub fn put_all<F: PoolFact>(
    mut places: ArrayVec<Option<Place<'_, F>>, POOL_LIMIT>,
    writes: &mut Vec<LentPool>,
)
    requires { AllZip (MayComeBack F.admits) places.items writes.old.items }
    ensures empty { writes.new.items ≡ [] }
    ensures room { vec_capacity writes.old ≤ vec_capacity writes.new }
{
    while let Some(pool) = writes.pop() {
        let LentPool { number: _, storage } = pool;
        let Some(last) = places.pop() else {
            unreachable!()
        };
        let Some(at) = last else { unreachable!() };
        at.put(storage);
    }
}
