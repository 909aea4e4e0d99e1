//! Listeners connected and disconnected.

ghost use Rattle.std.specs.Prelude.{◌≡◌, ◌≢◌, ◌↔◌, ◌<◌, ◌≤◌, [], ◌∷◌, ◌++◌, length, nat_lt, slice_get, slice_set, if◌then◌else◌, Some, None, false, OnOk, OnErr, IfOk, IfErr};
ghost use Rattle.signal_sink.specs.Hearings.{listener_limit, heard_lists, is_connected};
ghost use Rattle.registry.specs.Listeners.{listeners_at, IsRewired};

use super::Registry;
use crate::parts::listening;
use signal_sink::{ConnectRefused, Listener};
use world_model::{EventKind, Refusal};

impl<L: Listener> Registry<L> {
    /// Connects a listener to what happens to the rows of a pool: one kind of event. It answers the
    /// listener's number, which is how many of its kind and pool were connected before, so that no
    /// number is given again. One that hears of rows removed has room for all rows of the pool from
    /// then on. `NoPool` exactly where the pool is not declared, `TooMany` exactly where 8 were
    /// connected before, those that were disconnected since included, and else `OutOfMemory`; then
    /// all is as before, and the listener comes back with what it heard. Takes memory, but none where
    /// it answers `NoPool` or `TooMany`. (EnTT: `registry.on_construct<T>().connect<F>()`, and
    /// `on_update` and `on_destroy` alike.)
    pub fn connect(
        &mut self,
        kind: EventKind,
        pool: u32,
        listener: L,
    ) -> Result<u32, ConnectRefused<L>>
        ensures rewired { IsRewired self.old self.new kind pool }
        ensures number { IfOk result (λ number. number ≡ length (listeners_at self.old kind pool)) }
        ensures heard { OnOk result (heard_lists (listeners_at self.new kind pool)
            ≡ heard_lists (listeners_at self.old kind pool) ++ Some (L.heard listener) ∷ []) }
        ensures declared { OnOk result (pool < length self.old.world.decls) }
        ensures room { OnOk result (length (listeners_at self.old kind pool) < listener_limit) }
        ensures err { OnErr result (self.new ≡ self.old) }
        ensures given_back { IfErr result (λ refused. L.heard refused.listener ≡ L.heard listener) }
        ensures no_pool { IfErr result (λ refused. (refused.cause ≡ Refusal.NoPool)
            ↔ (length self.old.world.decls ≤ pool)) }
        ensures too_many { IfErr result (λ refused. (refused.cause ≡ Refusal.TooMany)
            ↔ (length (listeners_at self.old kind pool) ≡ listener_limit)) }
        ensures cause { IfErr result (λ refused.
            refused.cause ≢ Refusal.NoPool → refused.cause ≢ Refusal.TooMany →
            refused.cause ≡ Refusal.OutOfMemory) }
    {
        listening::connect(&mut self.parts, kind, pool, listener)
    }

    /// Takes the listener of a number out of the signal of a kind and a pool: it hears of nothing
    /// more. `NoPool` exactly where the pool is not declared, and else `Unknown` exactly where no
    /// connected listener has the number; then all is as before. No memory. (EnTT:
    /// `registry.on_construct<T>().disconnect<F>()`, and `on_update` and `on_destroy` alike.)
    pub fn disconnect(&mut self, kind: EventKind, pool: u32, number: u32) -> Result<L, Refusal>
        ensures rewired { IsRewired self.old self.new kind pool }
        ensures listener { IfOk result (λ listener.
            slice_get (listeners_at self.old kind pool) number
            ≡ Some (Some (record { heard = L.heard listener; spare = L.spare listener }))) }
        ensures gone { OnOk result (listeners_at self.new kind pool
            ≡ slice_set (listeners_at self.old kind pool) number None) }
        ensures err { OnErr result (self.new ≡ self.old) }
        ensures cause { IfErr result (λ refused. refused ≡
            (if nat_lt pool (length self.old.world.decls) then Refusal.Unknown else Refusal.NoPool)) }
        ensures unknown { OnErr result
            (is_connected (listeners_at self.old kind pool) number ≡ false) }
    {
        listening::disconnect(&mut self.parts, kind, pool, number)
    }
}
