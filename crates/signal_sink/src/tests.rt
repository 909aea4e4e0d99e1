//! Who hears what, through recorders.

use super::*;
use entity_id::Entity;
use std::alloc::Global;
use std::process::Abort;
use world_model::{Event, EventKind, Refusal};

fn event(index: u32) -> Event {
    Event {
        kind: EventKind::Construct,
        pool: 0,
        entity: Entity { index, version: 0 },
    }
}

fn is_shared<T: Send + Sync>(_value: &T) {}

#[test]
fn a_recorder_keeps_what_it_heard(rt: HostRuntime) {
    let mut recorder = Recorder::new(rt.alloc());
    assert_eq!(rt; recorder.heard(), [].as_slice());
    recorder.reserve(100_000).expect(&rt, "memory");
    recorder.notify(event(5));
    recorder.notify(event(3));
    assert_eq!(rt; recorder.heard(), [event(5), event(3)].as_slice());
    is_shared(&recorder);
}

#[test]
fn each_listener_hears_what_is_published_while_it_is_connected(rt: HostRuntime) {
    let mut signal = Signal::new(rt.alloc());
    assert_eq!(rt; connect(&rt, &mut signal, Recorder::new(rt.alloc())), 0);
    assert_eq!(rt; connect(&rt, &mut signal, Recorder::new(rt.alloc())), 1);
    publish(&rt, &mut signal, event(7));
    let first = signal.disconnect(0).expect(&rt, "a listener");
    assert_eq!(rt; signal.disconnect(0).is_err(), true);
    assert_eq!(rt; signal.disconnect(2).is_err(), true);
    publish(&rt, &mut signal, event(8));
    assert_eq!(rt; connect(&rt, &mut signal, first), 2);
    publish(&rt, &mut signal, event(9));
    is_shared(&signal);
    for (number, heard) in [
        (1, [event(7), event(8), event(9)].as_slice()),
        (2, [event(7), event(9)].as_slice()),
    ] {
        let listener = signal.disconnect(number).expect(&rt, "a listener");
        assert_eq!(rt; listener.heard(), heard);
    }
}

fn connect(rt: &impl Abort, signal: &mut Signal<Recorder>, listener: Recorder) -> u32 {
    match signal.connect(listener) {
        Ok(number) => number,
        Err(refused) => panic!(rt; "{:?}", refused.cause),
    }
}

fn publish(rt: &impl Abort, signal: &mut Signal<Recorder>, e: Event) {
    signal.reserve(1).expect(rt, "memory");
    signal.publish(e);
}

#[test]
fn the_ninth_listener_is_refused_though_one_was_disconnected(rt: HostRuntime) {
    let mut signal = Signal::new(rt.alloc());
    for number in 0..8 {
        assert_eq!(rt; signal.is_full(), false);
        assert_eq!(rt;
            connect(&rt, &mut signal, Recorder::new(rt.alloc())),
            number
        );
    }
    let listener = signal.disconnect(3).expect(&rt, "a listener");
    assert_eq!(rt; signal.is_full(), true);
    match signal.connect(listener) {
        Ok(number) => panic!(rt; "connected under {number}"),
        Err(refused) => assert_eq!(rt; refused.cause, Refusal::TooMany),
    }
}
