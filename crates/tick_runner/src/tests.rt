//! Ticks of a registry with systems of these tests' own.

ghost use Rattle.std.specs.Prelude.{◌≡◌, ◌<◌, ◌≤◌, IfOk};
ghost use Rattle.std.specs.List.{AllByRecursion};
ghost use Rattle.entity_id.specs.declared.entity.Profile.{Profile};
ghost use Rattle.world_model.specs.Frames.{IsFitSystem, IsLawfulAccess};
ghost use Rattle.world_model.specs.Orders.{IsFitting};
ghost use Rattle.tick_runner.specs.Giving.{number_component, three_components, reading_and_writing, gives, one_order};
ghost use Rattle.tick_runner.specs.Giving.{giver_frame, giver_local, giver_few, giver_sized};

use super::*;
use entity_id::{Entity, Name, OutOfMemory, P20_12, Pools};
use registry::Registry;
use signal_sink::Recorder;
use std::alloc::Global;
use std::hint;
use std::process::Abort;
use std::sync::Wait;
use std::sync::atomic::{AtomicU64, Ordering};
use std::test::Fail;
use std::thread::Threads;
use system_api::{Buffer, Lent, System};
use world_model::{Access, Decl, Deferred, Kind};

// Gives one order at each tick, and changes no row.
#[derive(Drop)]
struct Giver {
    access: Access,
    order: Deferred,
}

impl System for Giver {
    ghost lists = { λ system. system.access };

    ghost effect = { λ system. gives system.order };

    ghost limit = { λ _. one_order };

    fn access(&self) -> &Access {
        &self.access
    }

    fn bound(&self, _sizes: &[u32]) -> u64 {
        1
    }

    fn run(&self, _lent: &mut Lent<'_>, _tick: u64, out: &mut Buffer) {
        out.push_reserved(0, self.order);
    }

    ghost frame = { λ system. giver_frame system.access system.order };

    ghost local = { λ system. giver_local system.access system.order };

    ghost few = { λ _ tick maps _. giver_few };

    ghost sized = { λ _ a b same. giver_sized };
}

// A system that names these pools, and gives an order.
fn giving(alloc: Global, read: &[u32], write: &[u32], order: Deferred) -> Result<Giver, OutOfMemory>
    requires lists { IsLawfulAccess 3 (reading_and_writing read.now write.now) }
    requires order { (profile : Profile) → IsFitting profile three_components order }
    ensures { IfOk result (λ system. (profile : Profile) →
        IsFitSystem profile three_components system.access (gives system.order)) }
{
    let access = Access {
        read: Pools::from_vec(Vec::from_slice(alloc, read)?),
        write: Pools::from_vec(Vec::from_slice(alloc, write)?),
        look: Pools::from_vec(Vec::new(alloc)),
        without: Pools::from_vec(Vec::new(alloc)),
    };
    Ok(Giver { access, order })
}

// A component of one number.
fn number_component(alloc: Global, name: &[u8]) -> Result<Decl, OutOfMemory>
    ensures { IfOk result (λ decl. decl ≡ number_component name.now) }
{
    Ok(Decl {
        name: Name::from_vec(Vec::from_slice(alloc, name)?),
        count: 1,
        kinds: [Kind::Int; 4],
    })
}

// Three components, of one number each.
fn components(alloc: Global) -> Result<Vec<Decl>, OutOfMemory>
    ensures { IfOk result (λ decls. decls.items ≡ three_components) }
{
    let mut decls = Vec::new(alloc);
    decls.push(number_component(alloc, b"a")?)?;
    decls.push(number_component(alloc, b"b")?)?;
    decls.push(number_component(alloc, b"c")?)?;
    Ok(decls)
}

// A registry of three components, without entities.
fn empty_registry(alloc: Global) -> Result<Registry<Recorder>, Fail>
    ensures { IfOk result (λ registry. registry.world.decls ≡ three_components) }
{
    Ok(Registry::new(alloc, P20_12, 8, components(alloc)?)?)
}

#[test]
fn each_system_runs_once_and_then_its_orders_are_carried_out(rt: HostRuntime) -> Result<(), Fail> {
    let alloc = rt.alloc();
    let systems = [
        giving(alloc, &[0], &[], Deferred::Spawn)?,
        giving(alloc, &[0], &[], Deferred::Spawn)?,
    ];
    let registry = tick_plain(alloc, empty_registry(alloc)?, &systems, 7)?;
    assert_eq!(rt; registry.alive(), 2);
    Ok(())
}

// Five systems that conflict. Carried out in any other sequence, their orders would leave other identifiers.
fn five_systems(alloc: Global) -> Result<[Giver; 5], Fail>
    ensures { IfOk result (λ systems. (profile : Profile) → AllByRecursion (λ system.
        IsFitSystem profile three_components system.access (gives system.order)) systems) }
{
    let first = Entity {
        index: 0,
        version: 0,
    };
    Ok([
        giving(alloc, &[], &[0], Deferred::Spawn)?,
        giving(alloc, &[0], &[1], Deferred::Spawn)?,
        giving(alloc, &[1], &[2], Deferred::Kill { entity: first })?,
        giving(alloc, &[2], &[0], Deferred::Spawn)?,
        giving(alloc, &[0, 1], &[2], Deferred::Spawn)?,
    ])
}

// The world that a tick of the five systems by so many workers leaves, as text.
fn after_shared<R: Threads + Wait + Sync>(
    rt: &R,
    alloc: Global,
    workers: u32,
) -> Result<String, Fail>
    requires some { 0 < workers }
    requires most { workers ≤ 16 }
{
    let systems = five_systems(alloc)?;
    let registry = tick_shared(
        rt,
        alloc,
        empty_registry(alloc)?,
        &systems,
        7,
        workers,
        &NoGate,
    )?;
    Ok(format!(in alloc; "{:?}", registry.save(8)?)?)
}

#[test]
fn any_number_of_workers_leave_what_one_thread_leaves(rt: HostRuntime) -> Result<(), Fail> {
    let alloc = rt.alloc();
    let systems = five_systems(alloc)?;
    let registry = tick_plain(alloc, empty_registry(alloc)?, &systems, 7)?;
    let reborn = Entity {
        index: 0,
        version: 1,
    };
    assert_eq!(rt; registry.alive(), 3);
    assert!(rt; registry.valid(reborn));
    let plain = format!(in alloc; "{:?}", registry.save(8)?)?;
    for workers in [1, 2, 4, 16] {
        assert_eq!(rt; after_shared(&rt, alloc, workers)?, plain);
    }
    Ok(())
}

// Notes which systems have entered, as bits, and holds each until another one has entered.
#[derive(Drop)]
struct Holding {
    entered: AtomicU64,
    late: AtomicU64,
    until: [Option<u32>; 3],
}

// How often a gate looks whether the other system has entered.
const MOST_TURNS: u32 = 200_000_000;

impl Holding {
    fn new(until: [Option<u32>; 3]) -> Holding {
        Holding {
            entered: AtomicU64::new(0),
            late: AtomicU64::new(0),
            until,
        }
    }

    // Whether a system has entered.
    fn has_entered(&self, system: u32) -> bool {
        self.entered.load(Ordering::SeqCst) & 1u64.wrapping_shl(system) != 0
    }

    // Waits until a system has entered, and notes where it doesn't.
    fn hold_until(&self, system: u32) {
        for _turn in 0..MOST_TURNS {
            if self.has_entered(system) {
                return;
            }
            hint::spin_loop();
        }
        self.late.store(1, Ordering::SeqCst);
    }
}

impl Gate for Holding {
    fn enter(&self, system: u32) {
        let bit = 1u64.wrapping_shl(system);
        self.entered.fetch_or(bit, Ordering::SeqCst);
        if let Some(Some(other)) = self.until.get(system as usize) {
            self.hold_until(*other);
        }
    }
}

#[test]
fn writers_of_two_pools_run_at_the_same_time(rt: HostRuntime) -> Result<(), Fail> {
    let alloc = rt.alloc();
    let systems = [
        giving(alloc, &[], &[0], Deferred::Spawn)?,
        giving(alloc, &[], &[1], Deferred::Spawn)?,
    ];
    let gate = Holding::new([Some(1), Some(0), None]);
    tick_shared(&rt, alloc, empty_registry(alloc)?, &systems, 7, 2, &gate)?;
    assert_eq!(rt; gate.entered.load(Ordering::SeqCst), 0b11);
    assert_eq!(rt; gate.late.load(Ordering::SeqCst), 0);
    Ok(())
}

#[test]
fn readers_of_one_pool_run_at_the_same_time(rt: HostRuntime) -> Result<(), Fail> {
    let alloc = rt.alloc();
    let systems = [
        giving(alloc, &[0], &[1], Deferred::Spawn)?,
        giving(alloc, &[0], &[2], Deferred::Spawn)?,
    ];
    let gate = Holding::new([Some(1), Some(0), None]);
    tick_shared(&rt, alloc, empty_registry(alloc)?, &systems, 7, 2, &gate)?;
    assert_eq!(rt; gate.entered.load(Ordering::SeqCst), 0b11);
    assert_eq!(rt; gate.late.load(Ordering::SeqCst), 0);
    Ok(())
}

#[test]
fn a_system_starts_while_another_one_of_its_wave_runs(rt: HostRuntime) -> Result<(), Fail> {
    let alloc = rt.alloc();
    let systems = [
        giving(alloc, &[], &[0], Deferred::Spawn)?,
        giving(alloc, &[], &[1], Deferred::Spawn)?,
        giving(alloc, &[0], &[], Deferred::Spawn)?,
    ];
    let gate = Holding::new([None, Some(2), None]);
    tick_shared(&rt, alloc, empty_registry(alloc)?, &systems, 7, 2, &gate)?;
    assert_eq!(rt; gate.entered.load(Ordering::SeqCst), 0b111);
    assert_eq!(rt; gate.late.load(Ordering::SeqCst), 0);
    Ok(())
}
