//! Listeners connected and disconnected.

use super::samples::Sample;
use registry::Registry;
use signal_sink::Recorder;
use std::alloc::Global;
use std::process::Abort;
use std::test::Fail;
use world_model::{EventKind, Refusal};

const KINDS: [EventKind; 3] = [EventKind::Construct, EventKind::Update, EventKind::Destroy];

fn connects(
    rt: &impl Abort,
    alloc: Global,
    registry: &mut Registry<Recorder>,
    kind: EventKind,
    pool: u32,
    wanted: Result<u32, Refusal>,
) {
    match registry.connect(kind, pool, Recorder::new(alloc)) {
        Ok(number) => assert_eq!(rt; Ok(number), wanted),
        Err(refused) => assert_eq!(rt; Err(refused.cause), wanted),
    }
}

// How much the listener heard that is disconnected.
fn disconnects(
    rt: &impl Abort,
    registry: &mut Registry<Recorder>,
    kind: EventKind,
    pool: u32,
    wanted: Result<usize, Refusal>,
) {
    match registry.disconnect(kind, pool, 0) {
        Ok(recorder) => assert_eq!(rt; Ok(recorder.heard().len()), wanted),
        Err(refused) => assert_eq!(rt; Err(refused), wanted),
    }
}

#[test]
fn a_listener_is_numbered_by_those_before_it(rt: HostRuntime) -> Result<(), Fail> {
    let mut registry = Sample::load(rt.alloc())?.registry;
    for kind in KINDS {
        for number in 1..8 {
            connects(&rt, rt.alloc(), &mut registry, kind, 0, Ok(number));
        }
        connects(
            &rt,
            rt.alloc(),
            &mut registry,
            kind,
            0,
            Err(Refusal::TooMany),
        );
        connects(&rt, rt.alloc(), &mut registry, kind, 1, Ok(0));
    }
    Ok(())
}

#[test]
fn a_listener_is_disconnected_once(rt: HostRuntime) -> Result<(), Fail> {
    let mut registry = Sample::load(rt.alloc())?.registry;
    for kind in KINDS {
        disconnects(&rt, &mut registry, kind, 0, Ok(0));
        disconnects(&rt, &mut registry, kind, 0, Err(Refusal::Unknown));
        connects(&rt, rt.alloc(), &mut registry, kind, 0, Ok(1));
    }
    Ok(())
}

#[test]
fn nobody_listens_to_pools_that_are_not_declared(rt: HostRuntime) -> Result<(), Fail> {
    let mut registry = Sample::load(rt.alloc())?.registry;
    for kind in KINDS {
        connects(
            &rt,
            rt.alloc(),
            &mut registry,
            kind,
            2,
            Err(Refusal::NoPool),
        );
        disconnects(&rt, &mut registry, kind, 2, Err(Refusal::NoPool));
    }
    Ok(())
}
