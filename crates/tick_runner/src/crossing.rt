//! What may go to the threads of workers.

use super::NoGate;
use crate::plan::Plan;
use crate::worker::Worker;

fn needs_send<T: Send>(_value: &T) {}

fn needs_sync<T: Sync>(_value: &T) {}

// A worker may be moved to another thread, and threads may share a plan and a gate that does nothing. It
// does nothing: that its calls are allowed is what it says.
pub(crate) fn workers_cross_threads(worker: &Worker, plan: &Plan, gate: &NoGate) {
    needs_send(worker);
    needs_sync(plan);
    needs_send(gate);
    needs_sync(gate);
}
