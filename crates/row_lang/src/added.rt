/// What a line did that was added to a system.
#[derive(Clone, Copy, Debug, PartialEq, Eq)]
pub enum Added {
    /// Further lines may follow.
    More,
    /// It was the system's last line, `end`.
    Closed,
}
