//! Each listener of a list is made room in, or told.

ghost use Rattle.std.specs.Prelude.{◌≡◌, ℕ, ◌≤◌, length, OnOk};
ghost use Rattle.std.specs.Option.{option_map};
ghost use Rattle.signal_sink.specs.Hearings.{hearing_by, hearings_by, HasSpare, told, all_told, heard_lists, HaveSpare, KeepsSpare, KeepSpare};

use super::Listener;
use entity_id::OutOfMemory;
use world_model::Event;

// Makes room for so many events with each.
pub(super) fn reserve_all<L: Listener>(
    listeners: &mut Vec<Option<L>>,
    n: u64,
) -> Result<(), OutOfMemory>
    ensures ok { OnOk result (HaveSpare n (hearings_by L.heard L.spare listeners.new.items)) }
    ensures heard { heard_lists (hearings_by L.heard L.spare listeners.new.items) ≡
        heard_lists (hearings_by L.heard L.spare listeners.old.items) }
    ensures spare { KeepSpare (hearings_by L.heard L.spare listeners.old.items)
        (hearings_by L.heard L.spare listeners.new.items) }
    ensures room { (m : ℕ) → HaveSpare m (hearings_by L.heard L.spare listeners.old.items)
        → HaveSpare m (hearings_by L.heard L.spare listeners.new.items) }
    ensures len { length listeners.new.items ≡ length listeners.old.items }
{
    for i in 0..listeners.len() {
        reserve_one(&mut listeners[i], n)?;
    }
    Ok(())
}

// Makes room for so many events, where one is connected.
fn reserve_one<L: Listener>(place: &mut Option<L>, n: u64) -> Result<(), OutOfMemory>
    ensures ok { OnOk result (HasSpare n (hearing_by L.heard L.spare place.new)) }
    ensures heard { option_map (λ hearing. hearing.heard) (hearing_by L.heard L.spare place.new) ≡
        option_map (λ hearing. hearing.heard) (hearing_by L.heard L.spare place.old) }
    ensures spare { KeepsSpare (hearing_by L.heard L.spare place.old)
        (hearing_by L.heard L.spare place.new) }
    ensures room { (m : ℕ) → HasSpare m (hearing_by L.heard L.spare place.old)
        → HasSpare m (hearing_by L.heard L.spare place.new) }
{
    match place {
        Some(listener) => listener.reserve(n),
        None => Ok(()),
    }
}

// Tells each of an event.
pub(super) fn tell_all<L: Listener>(listeners: &mut Vec<Option<L>>, e: Event)
    requires { HaveSpare 1 (hearings_by L.heard L.spare listeners.old.items) }
    ensures hearings { hearings_by L.heard L.spare listeners.new.items ≡
        all_told e (hearings_by L.heard L.spare listeners.old.items) }
    ensures len { length listeners.new.items ≡ length listeners.old.items }
{
    for i in 0..listeners.len() {
        tell(&mut listeners[i], e);
    }
}

// Tells of an event, where one is connected.
fn tell<L: Listener>(place: &mut Option<L>, e: Event)
    requires { HasSpare 1 (hearing_by L.heard L.spare place.old) }
    ensures { hearing_by L.heard L.spare place.new ≡
        option_map (told e) (hearing_by L.heard L.spare place.old) }
{
    if let Some(listener) = place {
        listener.notify(e);
    }
}
