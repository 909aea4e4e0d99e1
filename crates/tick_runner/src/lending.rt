//! Pools lent to a system, and taken back.

ghost use Rattle.std.specs.Prelude.{◌≡◌, ◌+◌, ◌<◌, ◌≤◌, ◌++◌, [], None, IsTrue, length, vec_capacity};
ghost use Rattle.std.specs.List.{AllByRecursion};
ghost use Rattle.world_model.specs.Frames.{pool_limit};
ghost use Rattle.world_model.specs.Groups.{are_declared};
ghost use Rattle.system_api.specs.Registers.{numbers};
ghost use Rattle.system_api.specs.Running.{read_pools};
ghost use Rattle.tick_runner.specs.Putting.{put_back, IsPoolOf};

use std::alloc::Global;
use std::mem;
use storage::Storage;
use system_api::{Lent, LentPool};
use world_model::{Access, Row};

// Says how many first identifiers of a pool a walk needs, where that is known.
pub fn lend_prefix(lent: &mut Lent<'_>, prefix: Option<(u32, u32)>)
    requires { lent.old.prefix ≡ None }
    ensures reads { lent.new.reads ≡ lent.old.reads }
    ensures writes { lent.new.writes ≡ lent.old.writes }
    ensures prefix { lent.new.prefix ≡ prefix }
{
    if let Some((number, count)) = prefix {
        lent.set_prefix(number, count);
    }
}

// Takes the pools of these numbers out of the list, and lends them for writing.
pub fn lend_written(alloc: Global, pools: &mut Vec<Storage<Row>>, lent: &mut Lent<'_>, list: &[u32])
    requires declared { IsTrue (are_declared (length pools.old.items) list.now) }
    requires few { length list.now ≤ pool_limit }
    requires empty { lent.old.writes ≡ [] }
    ensures count { length pools.new.items ≡ length pools.old.items }
    ensures numbers { numbers lent.new.writes ≡ list.now }
    ensures reads { lent.new.reads ≡ lent.old.reads }
    ensures prefix { lent.new.prefix ≡ lent.old.prefix }
    ensures back { put_back lent.new.writes pools.new.items ≡ pools.old.items }
{
    for number in list {
        let storage = mem::replace(&mut pools[*number as usize], Storage::new(alloc));
        lent.add_write(LentPool {
            number: *number,
            storage,
        });
    }
}

// Lends the pools of these numbers for reading.
fn lend_list<'a>(pools: &'a [Storage<Row>], lent: &mut Lent<'a>, list: &[u32])
    requires declared { IsTrue (are_declared (length pools.now) list.now) }
    requires few { length lent.old.reads + length list.now ≤ pool_limit }
    requires reads { AllByRecursion (IsPoolOf pools.now) lent.old.reads }
    ensures numbers { numbers lent.new.reads ≡ numbers lent.old.reads ++ list.now }
    ensures reads { AllByRecursion (IsPoolOf pools.now) lent.new.reads }
    ensures writes { lent.new.writes ≡ lent.old.writes }
    ensures prefix { lent.new.prefix ≡ lent.old.prefix }
{
    for number in list {
        lent.add_read(*number, &pools[*number as usize]);
    }
}

// Lends the pools that a system reads, looks at and excludes.
pub fn lend_read<'a>(pools: &'a [Storage<Row>], lent: &mut Lent<'a>, access: &Access)
    requires declared { IsTrue (are_declared (length pools.now) (read_pools access.now)) }
    requires few { length (read_pools access.now) ≤ pool_limit }
    requires empty { lent.old.reads ≡ [] }
    ensures numbers { numbers lent.new.reads ≡ read_pools access.now }
    ensures reads { AllByRecursion (IsPoolOf pools.now) lent.new.reads }
    ensures writes { lent.new.writes ≡ lent.old.writes }
    ensures prefix { lent.new.prefix ≡ lent.old.prefix }
{
    lend_list(pools, lent, access.read.as_slice());
    lend_list(pools, lent, access.look.as_slice());
    lend_list(pools, lent, access.without.as_slice());
}

// Puts pools back under their numbers, and leaves their list empty.
pub fn give_back(pools: &mut Vec<Storage<Row>>, writes: &mut Vec<LentPool>)
    requires declared { IsTrue (are_declared (length pools.old.items) (numbers writes.old.items)) }
    ensures pools { pools.new.items ≡ put_back writes.old.items pools.old.items }
    ensures empty { writes.new.items ≡ [] }
    ensures room { vec_capacity writes.old ≤ vec_capacity writes.new }
{
    while let Some(pool) = writes.pop() {
        let LentPool { number, storage } = pool;
        let _empty = mem::replace(&mut pools[number as usize], storage);
    }
}
