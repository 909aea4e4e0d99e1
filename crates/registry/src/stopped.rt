//! Why orders stop.

/// Orders stopped for want of memory. The registry stands as the orders before the one that wanted it
/// left it. (This project's own.)
#[derive(Clone, Copy, Debug, PartialEq, Eq)]
pub struct ApplyStopped {
    /// How many orders were carried out, done or skipped.
    pub after: u64,
}
