//! The listeners of a signal, by number.

ghost use Rattle.std.specs.Prelude.{◌≡◌, ◌≢◌, ◌↔◌, ℕ, ◌+◌, ◌<◌, [], ◌∷◌, ◌++◌, length, slice_get, slice_set, is_ok, IsTrue, OnOk, OnErr, IfOk, IfErr};
ghost use Rattle.signal_sink.specs.Hearings.{listener_limit, all_told, heard_lists, heard_also, is_connected, HaveSpare, KeepSpare};

use super::telling::{reserve_all, tell_all};
use super::{ConnectRefused, Listener, Unknown};
use entity_id::OutOfMemory;
use std::alloc::Global;
use std::marker::Model;
use world_model::{Event, Refusal};

/// The most listeners that a signal ever connects.
pub const LISTENER_LIMIT: usize = 8;

/// Listeners under numbers, in order of connection from 0. A contract sees the list of what each of
/// them heard, with its spare, and None where one was disconnected (`specs/Hearings.antt`). (EnTT:
/// `entt::sigh` with its `entt::sink`.)
#[derive(Debug, Drop)]
pub struct Signal<L: Listener> {
    listeners: Vec<Option<L>>,
}

impl<L: Listener> Model for Signal<L> {
    ghost use Rattle.std.specs.Prelude.{List, Option, length, ◌≤◌};
    ghost use Rattle.signal_sink.specs.Hearings.{Hearing, hearings_by, listener_limit};

    ghost Value = { List (Option Hearing) };

    ghost view = { λ a. hearings_by L.heard L.spare a.listeners.items };

    ghost invariant = { λ a. length a.listeners.items ≤ listener_limit };
}

impl<L: Listener> Signal<L> {
    /// No listener. No memory. (EnTT: `entt::sigh`'s constructor.)
    pub fn new(alloc: Global) -> Signal<L>
        ensures { result ≡ [] }
    {
        Signal {
            listeners: Vec::new(alloc),
        }
    }

    /// Whether 8 were connected, those that were disconnected since included, so that no more can be.
    /// No memory. (This project's own.)
    pub fn is_full(&self) -> bool
        ensures { IsTrue result ↔ (length self.now ≡ listener_limit) }
    {
        self.listeners.len() >= LISTENER_LIMIT
    }

    /// Connects a listener, and answers its number: how many were connected before, so that no
    /// number is given again. `TooMany` exactly where 8 were connected before, those that were
    /// disconnected since included; `OutOfMemory` where there is no memory for one more. After a
    /// refusal the signal is as before, and the listener comes back. (EnTT: `sink.connect<F>()`,
    /// which takes any number, and connects one function once.)
    pub fn connect(&mut self, listener: L) -> Result<u32, ConnectRefused<L>>
        ensures ok { IfOk result (λ number. number ≡ length self.old) }
        ensures hearings { OnOk result (self.new ≡ self.old ++
            Some (record { heard = L.heard listener; spare = L.spare listener }) ∷ []) }
        ensures room { OnOk result (length self.old < listener_limit) }
        ensures err { OnErr result (self.new ≡ self.old) }
        ensures given_back { IfErr result (λ refused. refused.listener ≡ listener) }
        ensures too_many { IfErr result (λ refused.
            (refused.cause ≡ Refusal.TooMany) ↔ (length self.old ≡ listener_limit)) }
        ensures other_cause { IfErr result (λ refused.
            refused.cause ≢ Refusal.TooMany → refused.cause ≡ Refusal.OutOfMemory) }
    {
        if self.is_full() {
            return Err(ConnectRefused {
                cause: Refusal::TooMany,
                listener,
            });
        }
        let number = self.listeners.len();
        if self.listeners.reserve(1).is_err() {
            return Err(ConnectRefused {
                cause: Refusal::OutOfMemory,
                listener,
            });
        }
        self.listeners.push_reserved(Some(listener));
        Ok(number as u32)
    }

    /// Takes the listener of a number out of the signal, which tells it of nothing more. `Unknown`
    /// exactly where no connected listener has the number, and then the signal is as before. No
    /// memory. (EnTT: `sink.disconnect<F>()`.)
    pub fn disconnect(&mut self, number: u32) -> Result<L, Unknown>
        ensures known { is_ok result ≡ is_connected self.old number }
        ensures listener { IfOk result (λ listener. slice_get self.old number ≡
            Some (Some (record { heard = L.heard listener; spare = L.spare listener }))) }
        ensures hearings { OnOk result (self.new ≡ slice_set self.old number None) }
        ensures err { OnErr result (self.new ≡ self.old) }
    {
        let place = number as usize;
        if place >= self.listeners.len() {
            return Err(Unknown);
        }
        self.listeners[place].take().ok_or(Unknown)
    }

    /// Makes room for `n` events with each connected listener. `OutOfMemory` where there is no
    /// memory for them; no listener's spare falls, and what each heard stays, after a refusal too.
    /// (This project's own.)
    pub fn reserve(&mut self, n: u64) -> Result<(), OutOfMemory>
        ensures ok { OnOk result (HaveSpare n self.new) }
        ensures heard { heard_lists self.new ≡ heard_lists self.old }
        ensures spare { KeepSpare self.old self.new }
        ensures room { (m : ℕ) → HaveSpare m self.old → HaveSpare m self.new }
    {
        reserve_all(&mut self.listeners, n)
    }

    /// Tells each connected listener of an event once, in order of connection; each has room for it.
    /// No memory. (EnTT: `sigh.publish(args)`.)
    pub fn publish(&mut self, e: Event)
        requires { HaveSpare 1 self.old }
        ensures hearings { self.new ≡ all_told e self.old }
        ensures heard { heard_lists self.new ≡ heard_also e (heard_lists self.old) }
        ensures spare { (m : ℕ) → HaveSpare (m + 1) self.old → HaveSpare m self.new }
    {
        tell_all(&mut self.listeners, e);
    }
}
