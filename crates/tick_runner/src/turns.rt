//! Turns at the pools of a system: one for each pool that it names, however many lists name it.

mod naming;
mod reading;
mod writing;

pub use naming::read_once;
pub use reading::{leave_all, lend_turns, read_all};
pub use writing::{put_all, write_all};
