//! What a worker calls before it runs a system.

/// What is told that a system is about to run, by whichever worker runs it. A worker calls it once it
/// holds all pools of the system, and before the system runs; what it does can't change what a tick leaves.
/// Several workers call it at the same time. (This project's own.)
pub trait Gate {
    /// The system of this number is about to run.
    fn enter(&self, system: u32);
}

/// A gate that does nothing.
#[derive(Clone, Copy, Debug, Default)]
pub struct NoGate;

impl Gate for NoGate {
    fn enter(&self, _system: u32) {}
}
