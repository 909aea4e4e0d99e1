//! Why a call is refused.

use super::Listener;
use world_model::Refusal;

/// Why a listener was not connected, and the listener.
#[derive(Debug, Drop)]
pub struct ConnectRefused<L: Listener> {
    /// `TooMany` or `OutOfMemory`.
    pub cause: Refusal,
    /// The listener, as it was passed.
    pub listener: L,
}

/// No connected listener has the number.
#[derive(Clone, Copy, Debug, PartialEq, Eq)]
pub struct Unknown;
