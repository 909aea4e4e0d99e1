//! Who hears of events.

ghost use Rattle.std.specs.Prelude.{◌≡◌, ℕ, ◌+◌, ◌<◌, ◌≤◌, List, [], ◌∷◌, ◌++◌, OnOk};
ghost use Rattle.world_model.specs.declared.event.Event.{Event};

use entity_id::OutOfMemory;
use world_model::Event;

/// Who hears of events. A contract sees the list of the events that it heard, and its spare: for how
/// many more it has room. (EnTT: a delegate that is connected to an `entt::sink`.)
pub trait Listener: Drop {
    /// The events that it heard, in order.
    ghost heard: { Self → List Event };

    /// For how many more events it has room.
    ghost spare: { Self → ℕ };

    /// Makes room for `n` events. `OutOfMemory` where there is no memory for them; its spare never
    /// falls, and what it heard stays. (This project's own.)
    fn reserve(&mut self, n: u64) -> Result<(), OutOfMemory>
        ensures ok { OnOk result (n ≤ spare self.new) }
        ensures heard { heard self.new ≡ heard self.old }
        ensures room { spare self.old ≤ spare self.new };

    /// Tells it of an event, for which it has room. No memory. (EnTT: the call of a delegate.)
    fn notify(&mut self, e: Event)
        requires { 0 < spare self.old }
        ensures heard { heard self.new ≡ heard self.old ++ e ∷ [] }
        ensures spare { spare self.new + 1 ≡ spare self.old };
}
