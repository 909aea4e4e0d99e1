//! Listeners connected and disconnected.

ghost use Rattle.std.specs.Prelude.{◌≡◌, ◌≢◌, ◌↔◌, ◌<◌, ◌≤◌, [], ◌∷◌, ◌++◌, length, slice_get, slice_set, slice_index_or, nat_lt, if◌then◌else◌, is_ok, Some, None, false, true, IsTrue, OnOk, OnErr, IfOk, IfErr};
ghost use Rattle.signal_sink.specs.Hearings.{listener_limit, heard_lists, is_connected, HaveSpare};
ghost use Rattle.registry.specs.Layout.{held_of, IsKept};
ghost use Rattle.registry.specs.Listeners.{listeners_at, IsRewired};

use super::Parts;
use signal_sink::{ConnectRefused, Listener, Signal};
use world_model::{EventKind, Refusal};

// Connects a listener to the signal of a kind and a pool. One that hears of rows removed has room for
// all rows of its pool first.
pub fn connect<L: Listener>(
    parts: &mut Parts<L>,
    kind: EventKind,
    pool: u32,
    listener: L,
) -> Result<u32, ConnectRefused<L>>
    requires { IsKept parts.old }
    ensures consistent { IsKept parts.new }
    ensures rewired { IsRewired (held_of parts.old) (held_of parts.new) kind pool }
    ensures number { IfOk result (λ number.
        number ≡ length (listeners_at (held_of parts.old) kind pool)) }
    ensures heard { OnOk result (heard_lists (listeners_at (held_of parts.new) kind pool)
        ≡ heard_lists (listeners_at (held_of parts.old) kind pool) ++ Some (L.heard listener) ∷ []) }
    ensures declared { OnOk result (pool < length parts.old.decls) }
    ensures room { OnOk result
        (length (listeners_at (held_of parts.old) kind pool) < listener_limit) }
    ensures err { OnErr result (held_of parts.new ≡ held_of parts.old) }
    ensures given_back { IfErr result (λ refused. L.heard refused.listener ≡ L.heard listener) }
    ensures no_pool { IfErr result (λ refused. (refused.cause ≡ Refusal.NoPool)
        ↔ (length parts.old.decls ≤ pool)) }
    ensures too_many { IfErr result (λ refused. (refused.cause ≡ Refusal.TooMany)
        ↔ (length (listeners_at (held_of parts.old) kind pool) ≡ listener_limit)) }
    ensures cause { IfErr result (λ refused.
        refused.cause ≢ Refusal.NoPool → refused.cause ≢ Refusal.TooMany →
        refused.cause ≡ Refusal.OutOfMemory) }
{
    let at = pool as usize;
    if at >= parts.pools.len() {
        return Err(ConnectRefused {
            cause: Refusal::NoPool,
            listener,
        });
    }
    match kind {
        EventKind::Construct => connect_to(&mut parts.construct, at, listener),
        EventKind::Update => connect_to(&mut parts.update, at, listener),
        EventKind::Destroy => {
            let rows = parts.pools[at].len() as u64;
            connect_with_room(&mut parts.destroy, at, rows, listener)
        }
    }
}

// Connects a listener to one of the signals, once it has room for so many events. That the signal
// is full is found first, so that no memory is taken then.
fn connect_with_room<L: Listener>(
    signals: &mut Vec<Signal<L>>,
    at: usize,
    rows: u64,
    listener: L,
) -> Result<u32, ConnectRefused<L>>
    requires { at < length signals.old.items }
    ensures number { IfOk result (λ number.
        number ≡ length (slice_index_or signals.old.items at [])) }
    ensures heard { OnOk result (heard_lists (slice_index_or signals.new.items at [])
        ≡ heard_lists (slice_index_or signals.old.items at []) ++ Some (L.heard listener) ∷ []) }
    ensures signals { OnOk result (signals.new.items
        ≡ slice_set signals.old.items at (slice_index_or signals.new.items at [])) }
    ensures spare { HaveSpare rows (slice_index_or signals.old.items at []) →
        HaveSpare rows (slice_index_or signals.new.items at []) }
    ensures room { OnOk result
        (length (slice_index_or signals.old.items at []) < listener_limit) }
    ensures err { OnErr result (signals.new.items ≡ signals.old.items) }
    ensures given_back { IfErr result (λ refused. L.heard refused.listener ≡ L.heard listener) }
    ensures too_many { IfErr result (λ refused. (refused.cause ≡ Refusal.TooMany)
        ↔ (length (slice_index_or signals.old.items at []) ≡ listener_limit)) }
    ensures cause { IfErr result (λ refused.
        refused.cause ≢ Refusal.TooMany → refused.cause ≡ Refusal.OutOfMemory) }
{
    if signals[at].is_full() {
        return Err(ConnectRefused {
            cause: Refusal::TooMany,
            listener,
        });
    }
    let mut ready = listener;
    if ready.reserve(rows).is_err() {
        return Err(ConnectRefused {
            cause: Refusal::OutOfMemory,
            listener: ready,
        });
    }
    connect_to(signals, at, ready)
}

// Connects a listener to one of the signals, where there is such a signal.
fn connect_to<L: Listener>(
    signals: &mut Vec<Signal<L>>,
    at: usize,
    listener: L,
) -> Result<u32, ConnectRefused<L>>
    requires { at < length signals.old.items }
    ensures number { IfOk result (λ number.
        number ≡ length (slice_index_or signals.old.items at [])) }
    ensures signals { OnOk result (signals.new.items ≡ slice_set signals.old.items at
        (slice_index_or signals.old.items at []
        ++ Some (record { heard = L.heard listener; spare = L.spare listener }) ∷ [])) }
    ensures room { OnOk result
        (length (slice_index_or signals.old.items at []) < listener_limit) }
    ensures err { OnErr result (signals.new.items ≡ signals.old.items) }
    ensures given_back { IfErr result (λ refused. refused.listener ≡ listener) }
    ensures too_many { IfErr result (λ refused. (refused.cause ≡ Refusal.TooMany)
        ↔ (length (slice_index_or signals.old.items at []) ≡ listener_limit)) }
    ensures other_cause { IfErr result (λ refused.
        refused.cause ≢ Refusal.TooMany → refused.cause ≡ Refusal.OutOfMemory) }
{
    signals[at].connect(listener)
}

// Takes a listener out of one of the signals.
fn disconnect_from<L: Listener>(
    signals: &mut Vec<Signal<L>>,
    at: usize,
    number: u32,
) -> Result<L, Refusal>
    requires { at < length signals.old.items }
    ensures known { is_ok result ≡ is_connected (slice_index_or signals.old.items at []) number }
    ensures listener { IfOk result (λ listener.
        slice_get (slice_index_or signals.old.items at []) number
        ≡ Some (Some (record { heard = L.heard listener; spare = L.spare listener }))) }
    ensures signals { OnOk result (signals.new.items ≡ slice_set signals.old.items at
        (slice_set (slice_index_or signals.old.items at []) number None)) }
    ensures err { OnErr result (signals.new.items ≡ signals.old.items) }
    ensures cause { IfErr result (λ refused. refused ≡ Refusal.Unknown) }
{
    match signals[at].disconnect(number) {
        Ok(listener) => Ok(listener),
        Err(_) => Err(Refusal::Unknown),
    }
}

// Takes a listener out of the signal of a kind and a pool.
pub fn disconnect<L: Listener>(
    parts: &mut Parts<L>,
    kind: EventKind,
    pool: u32,
    number: u32,
) -> Result<L, Refusal>
    requires { IsKept parts.old }
    ensures consistent { IsKept parts.new }
    ensures rewired { IsRewired (held_of parts.old) (held_of parts.new) kind pool }
    ensures listener { IfOk result (λ listener.
        slice_get (listeners_at (held_of parts.old) kind pool) number
        ≡ Some (Some (record { heard = L.heard listener; spare = L.spare listener }))) }
    ensures gone { OnOk result (listeners_at (held_of parts.new) kind pool
        ≡ slice_set (listeners_at (held_of parts.old) kind pool) number None) }
    ensures err { OnErr result (held_of parts.new ≡ held_of parts.old) }
    ensures cause { IfErr result (λ refused. refused ≡
        (if nat_lt pool (length parts.old.decls) then Refusal.Unknown else Refusal.NoPool)) }
    ensures unknown { OnErr result
        (is_connected (listeners_at (held_of parts.old) kind pool) number ≡ false) }
{
    let at = pool as usize;
    if at >= parts.pools.len() {
        return Err(Refusal::NoPool);
    }
    match kind {
        EventKind::Construct => disconnect_from(&mut parts.construct, at, number),
        EventKind::Update => disconnect_from(&mut parts.update, at, number),
        EventKind::Destroy => disconnect_from(&mut parts.destroy, at, number),
    }
}
