//! Graphs of a few systems, and one of the most that there are.

use super::*;
use entity_id::Pools;
use std::alloc::Global;
use std::process::Abort;
use world_model::Access;

fn pools(rt: &impl Abort, alloc: Global, numbers: &[u32]) -> Pools {
    Pools::from_vec(Vec::from_slice(alloc, numbers).expect(rt, "memory"))
}

fn access(
    rt: &impl Abort,
    alloc: Global,
    read: &[u32],
    write: &[u32],
    look: &[u32],
    without: &[u32],
) -> Access {
    Access {
        read: pools(rt, alloc, read),
        write: pools(rt, alloc, write),
        look: pools(rt, alloc, look),
        without: pools(rt, alloc, without),
    }
}

#[test]
fn readers_run_between_two_writers(rt: HostRuntime) {
    let alloc = rt.alloc();
    let systems = [
        access(&rt, alloc, &[], &[0], &[], &[]),
        access(&rt, alloc, &[0], &[], &[], &[]),
        access(&rt, alloc, &[0], &[], &[], &[]),
        access(&rt, alloc, &[], &[0], &[], &[]),
        access(&rt, alloc, &[], &[1], &[], &[]),
    ];
    assert!(rt; conflicts(&systems[0], &systems[1]));
    assert!(rt; !conflicts(&systems[1], &systems[2]));
    let graph = Graph::new(alloc, &systems).expect(&rt, "memory");
    let edges = [
        Edge { from: 0, to: 1 },
        Edge { from: 0, to: 2 },
        Edge { from: 1, to: 3 },
        Edge { from: 2, to: 3 },
    ];
    assert_eq!(rt; graph.edges(), edges.as_slice());
    assert_eq!(rt; graph.len(), 5);
    for (system, preds, top, wave) in [
        (0, 0, true, 0),
        (1, 0b1, false, 1),
        (2, 0b1, false, 1),
        (3, 0b111, false, 2),
        (4, 0, true, 0),
    ] {
        assert!(rt; system < graph.len());
        assert_eq!(rt; graph.preds(system), preds, "before {system}");
        assert_eq!(rt; graph.top_level(system), top, "at {system}");
        assert_eq!(rt; graph.wave(system), wave, "at {system}");
    }
}

#[test]
fn a_system_needs_what_the_writers_before_it_leave(rt: HostRuntime) {
    let alloc = rt.alloc();
    let mut systems = Accesses::new(alloc);
    for write in [
        [0].as_slice(),
        [].as_slice(),
        [0, 1].as_slice(),
        [0].as_slice(),
    ] {
        let system = access(&rt, alloc, &[], write, &[2], &[]);
        systems.push_copy(&system).expect(&rt, "memory");
    }
    let accesses = systems.as_slice();
    assert_eq!(rt; accesses.len(), 4);
    for (pool, count) in [(0, 3), (1, 1), (2, 0)] {
        assert_eq!(rt; writers(accesses, pool), count, "at {pool}");
    }
    for (system, count) in [(0, 0), (1, 1), (2, 1), (3, 2), (4, 3)] {
        assert!(rt; system <= 4);
        assert_eq!(rt; need(accesses, system, 0), count, "before {system}");
    }
    assert_eq!(rt; accesses[2].write.as_slice(), [0, 1].as_slice());
    assert_eq!(rt; accesses[2].look.as_slice(), [2].as_slice());
}

#[test]
fn an_implied_edge_is_left_out(rt: HostRuntime) {
    let alloc = rt.alloc();
    let systems = [
        access(&rt, alloc, &[], &[0], &[], &[]),
        access(&rt, alloc, &[], &[0], &[], &[]),
        access(&rt, alloc, &[], &[0], &[], &[]),
    ];
    let graph = Graph::new(alloc, &systems).expect(&rt, "memory");
    let edges = [Edge { from: 0, to: 1 }, Edge { from: 1, to: 2 }];
    assert_eq!(rt; graph.edges(), edges.as_slice());
    assert_eq!(rt; graph.len(), 3);
    assert_eq!(rt; graph.before(2).bits(), 0b11);
    assert_eq!(rt; graph.wave(2), 2);
}

#[test]
fn a_diamond_of_looks_and_exclusions_has_its_four_sides(rt: HostRuntime) {
    let alloc = rt.alloc();
    let systems = [
        access(&rt, alloc, &[], &[0, 1], &[], &[]),
        access(&rt, alloc, &[], &[2], &[0], &[]),
        access(&rt, alloc, &[], &[3], &[], &[1]),
        access(&rt, alloc, &[2, 3], &[], &[], &[]),
    ];
    let graph = Graph::new(alloc, &systems).expect(&rt, "memory");
    let edges = [
        Edge { from: 0, to: 1 },
        Edge { from: 0, to: 2 },
        Edge { from: 1, to: 3 },
        Edge { from: 2, to: 3 },
    ];
    assert_eq!(rt; graph.edges(), edges.as_slice());
    assert_eq!(rt; graph.len(), 4);
    assert_eq!(rt; graph.preds(3), 0b110);
}

#[test]
fn sixty_four_writers_run_one_after_another(rt: HostRuntime) {
    let alloc = rt.alloc();
    let mut systems = Vec::new(alloc);
    for _ in 0..64 {
        systems
            .push(access(&rt, alloc, &[], &[0], &[], &[]))
            .expect(&rt, "memory");
    }
    assert_eq!(rt; systems.len(), 64);
    let graph = Graph::new(alloc, &systems).expect(&rt, "memory");
    assert_eq!(rt; graph.len(), 64);
    assert_eq!(rt; graph.edges().len(), 63);
    assert_eq!(rt; graph.preds(63), u64::MAX >> 1);
    assert_eq!(rt; graph.wave(63), 63);
    assert!(rt; !graph.top_level(63));
}

#[test]
fn sets_have_what_was_put_into_them(rt: HostRuntime) {
    let set = Systems::empty().with(63).with(0).with(5);
    let low = Systems::empty().with(0).with(1);
    assert!(rt; set.has(63) && set.has(5) && !set.has(1) && !set.has(64));
    assert_eq!(rt; set.bits(), (1 << 63) | 0b10_0001);
    assert_eq!(rt; set.union(&low).bits(), (1 << 63) | 0b10_0011);
    assert_eq!(rt; set.difference(&low).bits(), (1 << 63) | 0b10_0000);
    assert!(rt; !low.is_within(&set) && low.is_within(&set.union(&low)));
    for (from, next) in [(0, Some(0)), (1, Some(5)), (6, Some(63)), (64, None)] {
        assert_eq!(rt; set.next_from(from), next, "from {from}");
    }
    assert_eq!(rt; low.next_from(2), None);
}

#[test]
fn the_laws_are_called() {
    conflicting_systems_wait();
    edges_keep_the_order();
    every_edge_is_needed();
    waves_rise();
    graphs_are_unique();
}
