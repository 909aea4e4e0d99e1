//! Listeners of one signal, told of each event in the order in which they were connected, as an
//! EnTT 3.10 sink has them.
//!
//! A [`Signal`] holds listeners under numbers that are never given again. A [`Listener`] makes room
//! for events ahead of time, so that telling it needs no memory and can't be refused. [`Recorder`]
//! is a listener that keeps the list of what it heard. What a contract sees of them stands in
//! `specs/Hearings.antt`.
#![tactic(auto)]

mod listener;
mod recorder;
mod refused;
mod signal;
mod telling;

pub use listener::Listener;
pub use recorder::Recorder;
pub use refused::{ConnectRefused, Unknown};
pub use signal::{LISTENER_LIMIT, Signal};

#[cfg(test)]
mod tests;
