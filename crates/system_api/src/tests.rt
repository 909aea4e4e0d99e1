//! A system run by hand, and what no clause says at a glance.

ghost use Rattle.std.specs.Prelude.{◌≡◌, ℕ, ◌<◌, ◌≤◌, ◌+◌, [], List, length, map};
ghost use Rattle.entity_id.specs.FiniteMap as entries;
ghost use Rattle.world_model.specs.Ticks.{Maps};
ghost use Rattle.system_api.specs.Emissions.{Emission};
ghost use Rattle.system_api.specs.Partings.{parting_lists, parting_order, parted, parting_limit};
ghost use Rattle.system_api.specs.Partings.{parting_frame, parting_local, parting_few, parting_sized};

use super::*;
use entity_id::{Entity, Pools};
use sparse_set::Steps;
use std::alloc::Global;
use std::marker::Brand;
use std::process::Abort;
use std::sync::ledger::{Blank, Ledger};
use std::test::Fail;
use storage::Storage;
use world_model::{Access, Deferred, Row};

fn entity(index: u32, version: u32) -> Entity
    ensures index { result.index ≡ index }
    ensures version { result.version ≡ version }
{
    Entity { index, version }
}

fn row(first: i64) -> Row {
    Row {
        f: [first, 0, 0, 0],
    }
}

// Destroys each entity of pool 0 that pool 1 has too, and takes its row in pool 0 from each other.
#[derive(Drop)]
struct Parting {
    access: Access,
    ghost lists: { access ≡ parting_lists },
}

impl Parting {
    fn new(alloc: Global) -> Result<Parting, Fail> {
        let access = Access {
            read: Pools::from_vec(vec![in alloc; 0u32, 1]?),
            write: Pools::from_vec(Vec::new(alloc)),
            look: Pools::from_vec(Vec::new(alloc)),
            without: Pools::from_vec(Vec::new(alloc)),
        };
        Ok(Parting { access })
    }
}

impl System for Parting {
    ghost lists = { λ _. parting_lists };

    ghost effect = { λ _. parted };

    ghost limit = { λ _. parting_limit };

    fn access(&self) -> &Access {
        &self.access
    }

    fn bound(&self, sizes: &[u32]) -> u64 {
        u64::from(sizes[0])
    }

    fn run(&self, lent: &mut Lent<'_>, _tick: u64, out: &mut Buffer) {
        let (whole, other) = (lent.read(0), lent.read(1));
        // That its map has no more entries is told by its length.
        let _len = whole.len();
        part(whole, other, out);
    }

    ghost frame = { λ _. parting_frame };

    ghost local = { λ _. parting_local };

    ghost few = { λ _ tick maps _. parting_few tick maps };

    ghost sized = { λ _ a b same. parting_sized a b same };
}

// The order for one entity.
fn order_for(other: &Storage<Row>, entity: Entity) -> Deferred
    ensures { result ≡ parting_order (entries.map_of other.now.pairs) entity }
{
    if other.contains(entity) {
        Deferred::Kill { entity }
    } else {
        Deferred::Take { entity, pool: 0 }
    }
}

// The orders for all entities of a pool.
fn part(whole: &Storage<Row>, other: &Storage<Row>, out: &mut Buffer)
    requires empty { out.old.list ≡ [] }
    requires room { length whole.now.pairs ≤ out.old.spare }
    ensures once { entries.HasEachOnce whole.now.pairs }
    ensures list { out.new.list ≡ map (λ entity. record {
      index = entity.index;
      order = parting_order (entries.map_of other.now.pairs) entity;
    }) (entries.keys whole.now.pairs) }
    ensures spare { out.new.spare + length out.new.list ≡ out.old.spare }
{
    // That no index comes twice is told by the index.
    let _index = whole.index();
    for entity in whole.entities() {
        out.push_reserved(entity.index, order_for(other, *entity));
    }
}

// Runs the system on two pools, and gives its orders, settled.
fn orders_of(
    alloc: Global,
    system: &Parting,
    whole: &Storage<Row>,
    other: &Storage<Row>,
) -> Result<Vec<Deferred>, Fail> {
    let mut lent = Lent::new(Vec::with_capacity(alloc, POOL_LIMIT)?);
    lent.add_read(0, whole);
    lent.add_read(1, other);
    let mut out = Buffer::new(alloc);
    out.reserve(system.bound(&[whole.len(), other.len()]))?;
    system.run(&mut lent, 0, &mut out);
    out.settle();
    let mut orders = Vec::new(alloc);
    for place in 0..out.len() {
        orders.push(out.at(place))?;
    }
    Ok(orders)
}

// A pool of these identifiers, packed in this order, whose rows begin with 0, 1 and so on.
fn pool_of<G: Ledger>(
    rt: &impl Abort,
    alloc: Global,
    entities: &[Entity],
    steps: &mut Steps<G>,
) -> Storage<Row> {
    let mut storage = Storage::new(alloc);
    for place in 0..entities.len() {
        let added = storage.emplace(entities[place], row(place as i64), steps);
        assert_eq!(rt; added, Ok(()));
    }
    storage
}

#[test]
fn orders_are_settled_by_index_and_then_as_they_came(rt: HostRuntime) -> Result<(), Fail> {
    let mut out = Buffer::new(rt.alloc());
    out.reserve(4)?;
    out.push_reserved(
        5,
        Deferred::Kill {
            entity: entity(9, 0),
        },
    );
    out.push_reserved(2, Deferred::Spawn);
    out.push_reserved(
        5,
        Deferred::Kill {
            entity: entity(1, 0),
        },
    );
    out.push_reserved(
        2,
        Deferred::Take {
            entity: entity(2, 0),
            pool: 3,
        },
    );
    out.settle();
    assert_eq!(rt; out.len(), 4);
    assert_eq!(rt; out.at(0), Deferred::Spawn);
    assert_eq!(rt;
        out.at(1),
        Deferred::Take {
            entity: entity(2, 0),
            pool: 3
        }
    );
    assert_eq!(rt;
        out.at(2),
        Deferred::Kill {
            entity: entity(9, 0)
        }
    );
    assert_eq!(rt;
        out.at(3),
        Deferred::Kill {
            entity: entity(1, 0)
        }
    );
    out.clear();
    assert_eq!(rt; out.len(), 0);
    // The room of what was taken out is left.
    out.push_reserved(7, Deferred::Spawn);
    assert_eq!(rt; out.at(0), Deferred::Spawn);
    Ok(())
}

#[test]
fn a_system_is_run_on_two_pools(rt: HostRuntime) -> Result<(), Fail> {
    part_two::<Brand>(&rt, rt.alloc(), Blank::new(1))
}

fn part_two<G: Ledger>(rt: &impl Abort, alloc: Global, blank: Blank) -> Result<(), Fail>
    requires name { blank.name ≡ G.name }
    requires parts { blank.parts ≡ G.parts }
    requires some { 0 < blank.parts }
{
    let (two, four, seven) = (entity(2, 0), entity(4, 1), entity(7, 0));
    let mut steps = Steps::<G>::new(blank);
    let whole = pool_of(rt, alloc, &[seven, two, four], &mut steps);
    let other = pool_of(rt, alloc, &[four, entity(2, 1)], &mut steps);
    let system = Parting::new(alloc)?;
    let orders = orders_of(alloc, &system, &whole, &other)?;
    let wanted = [
        Deferred::Take {
            entity: two,
            pool: 0,
        },
        Deferred::Kill { entity: four },
        Deferred::Take {
            entity: seven,
            pool: 0,
        },
    ];
    assert_eq!(rt; orders.as_slice(), wanted.as_slice());
    Ok(())
}

#[test]
fn written_pools_come_back_with_their_rows(rt: HostRuntime) -> Result<(), Fail> {
    write_two::<Brand>(&rt, rt.alloc(), Blank::new(1))
}

fn write_two<G: Ledger>(rt: &impl Abort, alloc: Global, blank: Blank) -> Result<(), Fail>
    requires name { blank.name ≡ G.name }
    requires parts { blank.parts ≡ G.parts }
    requires some { 0 < blank.parts }
{
    let (one, three) = (entity(1, 0), entity(3, 0));
    let mut steps = Steps::<G>::new(blank);
    let mut lent = Lent::new(Vec::with_capacity(alloc, POOL_LIMIT)?);
    let storage = pool_of(rt, alloc, &[three, one], &mut steps);
    lent.add_write(LentPool { number: 6, storage });
    let storage = pool_of(rt, alloc, &[three, one], &mut steps);
    lent.add_write(LentPool { number: 7, storage });
    lent.set_prefix(7, 1);
    assert_eq!(rt; lent.prefix(), Some((7, 1)));
    assert_eq!(rt; (lent.reads(), lent.writes()), (0, 2));
    if lent.written(1).len() == 2 {
        lent.set_row(1, 0, row(8));
    }
    let mut entities = [NO_ENTITY; LANES];
    let mut marks = [false; LANES];
    let mut column = [NO_ROW; LANES];
    gather(lent.written(0), 1, &mut entities, &mut marks, &mut column);
    assert_eq!(rt; (entities[0], marks[0], marks[1]), (one, true, false));
    column[0] = row(9);
    column[1] = row(10);
    lent.scatter(0, 1, &marks, &column);
    let pools = lent.into_writes();
    assert_eq!(rt; (pools[0].number, pools[1].number), (6, 7));
    assert_eq!(rt; pools[0].storage.values(), [row(0), row(9)].as_slice());
    assert_eq!(rt; pools[1].storage.values(), [row(8), row(1)].as_slice());
    Ok(())
}

#[test]
fn identifiers_are_looked_up_and_excluded(rt: HostRuntime) {
    look_up_two::<Brand>(&rt, rt.alloc(), Blank::new(1));
}

fn look_up_two<G: Ledger>(rt: &impl Abort, alloc: Global, blank: Blank)
    requires name { blank.name ≡ G.name }
    requires parts { blank.parts ≡ G.parts }
    requires some { 0 < blank.parts }
{
    let (one, three) = (entity(1, 0), entity(3, 0));
    let mut steps = Steps::<G>::new(blank);
    let storage = pool_of(rt, alloc, &[three, one], &mut steps);
    let mut entities = [entity(3, 1); LANES];
    entities[5] = one;
    let mut marks = [true; LANES];
    let mut column = [row(7); LANES];
    look_up(&storage, &entities, &mut marks, &mut column);
    assert_eq!(rt; (marks[4], marks[5]), (false, true));
    assert_eq!(rt; (column[4], column[5]), (NO_ROW, row(1)));
    let mut others = [true; LANES];
    exclude(&storage, &entities, &mut others);
    assert_eq!(rt; (others[4], others[5]), (true, false));
}

#[test]
fn rows_are_set_where_identifiers_are_located(rt: HostRuntime) -> Result<(), Fail> {
    locate_one::<Brand>(&rt, rt.alloc(), Blank::new(1))
}

fn locate_one<G: Ledger>(rt: &impl Abort, alloc: Global, blank: Blank) -> Result<(), Fail>
    requires name { blank.name ≡ G.name }
    requires parts { blank.parts ≡ G.parts }
    requires some { 0 < blank.parts }
{
    let (one, three) = (entity(1, 0), entity(3, 0));
    let mut steps = Steps::<G>::new(blank);
    let mut lent = Lent::new(Vec::with_capacity(alloc, POOL_LIMIT)?);
    let storage = pool_of(rt, alloc, &[three, one], &mut steps);
    lent.add_write(LentPool { number: 6, storage });
    let entities = [one; LANES];
    let mut marks = [false; LANES];
    marks[5] = true;
    let mut places = [0; LANES];
    let mut column = [NO_ROW; LANES];
    locate(
        lent.written(0).index(),
        0,
        &entities,
        &mut marks,
        &mut places,
    );
    assert_eq!(rt; (marks[5], places[5]), (true, 1));
    load(lent.written(0).values(), &places, &mut column);
    assert_eq!(rt; column[5], row(1));
    column[5] = row(9);
    lent.scatter_at(0, &places, &marks, &column);
    assert_eq!(rt; lent.written(0).values(), [row(0), row(9)].as_slice());
    Ok(())
}

#[test]
fn laws_are_called_at_no_values() {
    rows_are_rewritten::<u16>(&[]);
    lists_settle_in_one_way::<u16>(&[]);
    orders_are_in_order::<u16>(&[]);
    any_own_pool_has_the_members();
}
