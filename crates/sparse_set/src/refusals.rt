/// Why an identifier was not appended.
#[derive(Clone, Copy, Debug, PartialEq, Eq)]
pub enum PushRefused {
    /// An identifier with this index is contained.
    Present,
    OutOfMemory,
}

/// The identifier is not contained.
#[derive(Clone, Copy, Debug, PartialEq, Eq)]
pub struct Absent;
