/// Why a group was not sorted.
#[derive(Clone, Copy, Debug, PartialEq, Eq)]
pub enum SortRefused {
    /// A more restrictive group owns one of the group's pools.
    HasInner {
        /// The least such group.
        with: u32,
    },
    /// Memory ran out.
    OutOfMemory,
}
