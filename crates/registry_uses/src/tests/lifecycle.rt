//! Registries made, saved and loaded, and entities made and destroyed.

ghost use Rattle.std.specs.Prelude.{◌<◌, IfOk};
ghost use Rattle.world_model.specs.Worlds.{IsLawful};

use super::samples::{FIRST, SECOND, Sample, entity, number, sample_world, two_numbers};
use entity_id::{Entity, P20_12};
use registry::Registry;
use signal_sink::Recorder;
use std::alloc::Global;
use std::process::Abort;
use std::test::Fail;
use world_model::{Refusal, Row, Slot, World};

// The slots of the sample world.
const SLOTS: [Slot; 3] = [
    Slot {
        version: 0,
        live: true,
    },
    Slot {
        version: 5,
        live: false,
    },
    Slot {
        version: 3,
        live: true,
    },
];

// A registry without entities.
fn begun(alloc: Global, slot_limit: u32) -> Result<Sample, Fail>
    requires { slot_limit < 1000 }
{
    let registry = Registry::new(alloc, P20_12, slot_limit, two_numbers(alloc)?)?;
    Ok(Sample { registry })
}

#[test]
fn a_registry_may_have_no_components(rt: HostRuntime) -> Result<(), Fail> {
    let mut registry: Registry<Recorder> = Registry::new(
        rt.alloc(),
        P20_12,
        2,
        Vec::new(rt.alloc()),
    )?;
    assert_eq!(rt; registry.create(), Ok(entity(0, 0)));
    assert_eq!(rt; registry.entities(0), Err(Refusal::NoPool));
    Ok(())
}

#[test]
fn a_new_registry_has_no_slots_and_makes_as_many_as_may_be(rt: HostRuntime) -> Result<(), Fail> {
    let mut sample = begun(rt.alloc(), 2)?;
    sample.counts(&rt, 0, 0);
    sample.knows(&rt, FIRST, false);
    sample.creates(&rt, Ok(entity(0, 0)));
    sample.creates(&rt, Ok(entity(1, 0)));
    sample.creates(&rt, Err(Refusal::Full));
    sample.counts(&rt, 2, 2);
    sample.knows(&rt, FIRST, true);
    Ok(())
}

#[test]
fn hints_past_the_end_release_the_gap_and_free_indices_leave_the_list(
    rt: HostRuntime,
) -> Result<(), Fail> {
    let mut sample = begun(rt.alloc(), 9)?;
    sample.creates_by_hint(&rt, entity(4, 7), entity(4, 7));
    sample.creates_by_hint(&rt, entity(4, 0), entity(3, 0));
    sample.creates_by_hint(&rt, entity(1, 5), entity(1, 5));
    sample.creates_by_hint(&rt, entity(9, 0), entity(2, 0));
    sample.creates(&rt, Ok(entity(0, 0)));
    sample.creates(&rt, Ok(entity(5, 0)));
    sample.counts(&rt, 6, 6);
    Ok(())
}

#[test]
fn a_loaded_world_goes_on_where_it_stood(rt: HostRuntime) -> Result<(), Fail> {
    let mut sample = Sample::load(rt.alloc())?;
    sample.counts(&rt, 3, 2);
    sample.knows(&rt, SECOND, true);
    // The free index first, with the version that its slot keeps.
    sample.creates(&rt, Ok(entity(1, 5)));
    sample.creates(&rt, Ok(entity(3, 0)));
    sample.creates(&rt, Err(Refusal::Full));
    Ok(())
}

#[test]
fn a_saved_world_is_the_one_that_was_loaded(rt: HostRuntime) -> Result<(), Fail> {
    let world = saved(rt.alloc())?;
    has_counts(&rt, &world, 7, 2);
    has_slots(&rt, &world, &SLOTS, &[1]);
    has_rows(&rt, &world, 0, &[(FIRST, number(4))]);
    has_rows(&rt, &world, 1, &[(FIRST, number(7)), (SECOND, number(8))]);
    Ok(())
}

#[test]
fn a_saved_world_loads_again(rt: HostRuntime) -> Result<(), Fail> {
    let world = saved_again(rt.alloc(), &saved(rt.alloc())?)?;
    has_counts(&rt, &world, 7, 2);
    has_slots(&rt, &world, &SLOTS, &[1]);
    has_rows(&rt, &world, 0, &[(FIRST, number(4))]);
    has_rows(&rt, &world, 1, &[(FIRST, number(7)), (SECOND, number(8))]);
    Ok(())
}

// The sample world, loaded and saved.
fn saved(alloc: Global) -> Result<World, Fail>
    ensures { IfOk result (λ world. IsLawful 4 world) }
{
    saved_again(alloc, &sample_world(alloc)?)
}

// A world, loaded and saved.
fn saved_again(alloc: Global, world: &World) -> Result<World, Fail>
    requires { IsLawful 4 world.now }
    ensures { IfOk result (λ saved. IsLawful 4 saved) }
{
    let registry: Registry<Recorder> = Registry::load(alloc, world, 4)?;
    Ok(registry.save(7)?)
}

fn has_slots(rt: &impl Abort, world: &World, slots: &[Slot], free: &[u32]) {
    assert!(rt; world.slots.as_slice() == slots);
    assert!(rt; world.free.as_slice() == free);
}

fn has_counts(rt: &impl Abort, world: &World, tick: u64, components: usize) {
    assert!(rt; world.tick == tick);
    assert!(rt; world.decls.as_slice().len() == components);
    assert!(rt; world.pools.as_slice().len() == components);
}

fn has_rows(rt: &impl Abort, world: &World, pool: usize, wanted: &[(Entity, Row)]) {
    match world.pools.as_slice().get(pool) {
        Some(rows) => assert!(rt; rows.as_slice() == wanted),
        None => panic!(rt; "no pool {pool}"),
    }
}

#[test]
fn a_destroyed_entity_leaves_its_pools(rt: HostRuntime) -> Result<(), Fail> {
    let mut sample = Sample::load(rt.alloc())?;
    sample.destroys(&rt, FIRST, Ok(()));
    sample.destroys(&rt, FIRST, Err(Refusal::Dead));
    sample.knows(&rt, FIRST, false);
    sample.lists(&rt, 0, Ok(&[]));
    sample.lists(&rt, 1, Ok(&[SECOND]));
    sample.has_told(&rt, &[], &[], &[FIRST])
}

#[test]
fn a_released_index_is_made_anew(rt: HostRuntime) -> Result<(), Fail> {
    let mut sample = Sample::load(rt.alloc())?;
    sample.destroys(&rt, FIRST, Ok(()));
    sample.creates(&rt, Ok(entity(0, 1)));
    sample.has(&rt, SECOND, 1, Ok(number(8)));
    Ok(())
}
