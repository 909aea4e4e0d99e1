//! That boards and seats may go from thread to thread.

use super::{Board, BoardSeat};

fn needs_send<T: Send>(_value: &T) {}

fn needs_sync<T: Sync>(_value: &T) {}

// Threads may share a board, and a board and a seat may each be moved to another thread. It does nothing:
// that its calls are allowed is what it says.
pub(crate) fn boards_cross_threads(board: &Board, seat: &BoardSeat) {
    needs_send(board);
    needs_sync(board);
    needs_send(seat);
}
