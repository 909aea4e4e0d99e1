//! A listener that keeps the list of what it heard.

ghost use Rattle.std.specs.Prelude.{◌≡◌, ◌≤◌, [], IsOk, OnOk, OnErr};

use super::Listener;
use entity_id::OutOfMemory;
use std::alloc::Global;
use std::marker::Model;
use world_model::Event;

/// A listener that keeps the list of what it heard. A contract sees it as a `Hearing`
/// (`specs/Hearings.antt`). (This project's own.)
#[derive(Debug, Drop)]
pub struct Recorder {
    events: Vec<Event>,
    // For how many more events the list has room, at least.
    spare: usize,
}

impl Model for Recorder {
    ghost use Rattle.std.specs.Prelude.{◌+◌, ◌≤◌, length, vec_capacity};
    ghost use Rattle.signal_sink.specs.Hearings.{Hearing};

    ghost Value = { Hearing };

    ghost view = { λ a. record { heard = a.events.items; spare = a.spare } };

    ghost invariant = { λ a. length a.events.items + a.spare ≤ vec_capacity a.events };
}

impl Recorder {
    /// It heard nothing yet, and has no room. No memory.
    pub fn new(alloc: Global) -> Recorder
        ensures { result ≡ record { heard = []; spare = 0 } }
    {
        Recorder {
            events: Vec::new(alloc),
            spare: 0,
        }
    }

    /// The events that it heard, in order. No memory.
    pub fn heard(&self) -> &[Event]
        ensures { result.now ≡ self.now.heard }
    {
        &self.events
    }
}

impl Listener for Recorder {
    ghost heard = { λ hearing. hearing.heard };

    ghost spare = { λ hearing. hearing.spare };

    /// Makes room for `n` events. `OutOfMemory` where there is no memory for them, never where it has
    /// that room, and then all is as before. Takes memory.
    fn reserve(&mut self, n: u64) -> Result<(), OutOfMemory>
        ensures ok { OnOk result (n ≤ self.new.spare) }
        ensures heard { self.new.heard ≡ self.old.heard }
        ensures room { self.old.spare ≤ self.new.spare }
        ensures ready { n ≤ self.old.spare → IsOk result }
        ensures err { OnErr result (self.new ≡ self.old) }
    {
        let wanted = n as usize;
        if wanted > self.spare {
            self.events.reserve(wanted)?;
            self.spare = wanted;
        }
        Ok(())
    }

    fn notify(&mut self, e: Event) {
        self.events.push_reserved(e);
        self.spare -= 1;
    }
}
