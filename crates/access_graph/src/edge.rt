/// That one system runs before another. (EnTT: a link of the graph that `organizer.graph()` gives.)
#[derive(Clone, Copy, Debug, PartialEq, Eq)]
pub struct Edge {
    /// The number of the system that runs first.
    pub from: u32,
    /// The number of the system that waits for it, which is greater.
    pub to: u32,
}
