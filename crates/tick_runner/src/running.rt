//! Systems run, one after another.

ghost use Rattle.std.specs.Prelude.{◌≡◌, ℕ, ◌<◌, ◌≤◌, ◌^◌, [], Some, None, length, map, slice_get, slice_index_or, vec_capacity};
ghost use Rattle.world_model.specs.Frames.{pool_limit, IsLawfulAccess};
ghost use Rattle.world_model.specs.Ticks.{maps_after_systems, orders_of};
ghost use Rattle.system_api.specs.Running.{sizes_of};
ghost use Rattle.registry.specs.Layout.{maps_of};
ghost use Rattle.registry.specs.Lending.{shapes_of};
ghost use Rattle.tick_runner.specs.Running.{orders_in, IsReady, AreReady};
ghost use Rattle.tick_runner.specs.Walking.{IsPrefixFor, ArePrefixesFor};

use crate::lending::{give_back, lend_prefix, lend_read, lend_written};
use std::alloc::Global;
use std::mem;
use storage::Storage;
use system_api::{Buffer, Lent, LentPool, System};
use world_model::Row;

// Runs one system on the pools, and puts its orders in order.
fn run_one<S: System>(
    alloc: Global,
    system: &S,
    pools: &mut Vec<Storage<Row>>,
    room: &mut Vec<LentPool>,
    prefix: Option<(u32, u32)>,
    tick: u64,
    out: &mut Buffer,
)
    requires lists { IsLawfulAccess (length pools.old.items) (S.lists system.now) }
    requires tick { tick < 2 ^ 63 }
    requires list { room.old.items ≡ [] }
    requires room { pool_limit ≤ vec_capacity room.old }
    requires prefix { IsPrefixFor (S.lists system.now) pools.old.items prefix }
    requires ready { IsReady (S.limit system.now (sizes_of (maps_of pools.old.items))) out.old }
    ensures rows { maps_of pools.new.items
        ≡ (S.effect system.now tick (maps_of pools.old.items)).maps }
    ensures shapes { shapes_of pools.new.items ≡ shapes_of pools.old.items }
    ensures list { room.new.items ≡ [] }
    ensures room { pool_limit ≤ vec_capacity room.new }
    ensures orders { orders_in out.new
        ≡ (S.effect system.now tick (maps_of pools.old.items)).orders }
{
    let access = system.access();
    let mut lent = Lent::new(mem::replace(room, Vec::new(alloc)));
    lend_prefix(&mut lent, prefix);
    lend_written(alloc, pools, &mut lent, access.write.as_slice());
    lend_read(pools, &mut lent, access);
    system.run(&mut lent, tick, out);
    let mut writes = lent.into_writes();
    give_back(pools, &mut writes);
    *room = writes;
    out.settle();
}

// The prefix at a place, if one is known.
fn prefix_at(prefixes: &[Option<(u32, u32)>], place: usize) -> Option<(u32, u32)>
    ensures { result ≡ slice_index_or prefixes.now place None }
{
    match prefixes.get(place) {
        Some(prefix) => *prefix,
        None => None,
    }
}

// Runs systems one after another, each with a buffer of its own.
pub fn run_all<S: System>(
    alloc: Global,
    systems: &[S],
    pools: &mut Vec<Storage<Row>>,
    room: &mut Vec<LentPool>,
    prefixes: &[Option<(u32, u32)>],
    tick: u64,
    buffers: &mut Vec<Buffer>,
)
    requires lists { (place : ℕ) (system : S) → slice_get systems.now place ≡ Some system →
        IsLawfulAccess (length pools.old.items) (S.lists system) }
    requires tick { tick < 2 ^ 63 }
    requires list { room.old.items ≡ [] }
    requires room { pool_limit ≤ vec_capacity room.old }
    requires prefixes { ArePrefixesFor S.lists pools.old.items systems.now prefixes.now }
    requires ready { AreReady S.limit systems.now (sizes_of (maps_of pools.old.items))
        buffers.old.items }
    ensures rows { maps_of pools.new.items
        ≡ maps_after_systems (map S.effect systems.now) tick (maps_of pools.old.items) }
    ensures shapes { shapes_of pools.new.items ≡ shapes_of pools.old.items }
    ensures orders { map orders_in buffers.new.items
        ≡ orders_of (map S.effect systems.now) tick (maps_of pools.old.items) }
{
    for place in 0..systems.len() {
        run_one(
            alloc,
            &systems[place],
            pools,
            room,
            prefix_at(prefixes, place),
            tick,
            &mut buffers[place],
        );
    }
}
