use entity_id::{P20_12, Profile};

/// A version of the document's format.
#[derive(Clone, Copy, Debug, PartialEq, Eq)]
pub struct Format {
    /// The number in the document's first line.
    pub version: u64,
    /// How large the parts of an identifier are.
    pub profile: Profile,
    /// How many slots a document has at most.
    pub slot_limit: u32,
}

/// Version 1: identifiers of 20 and 12 bits.
pub const VERSION_1: Format = Format {
    version: 1,
    profile: P20_12,
    slot_limit: 1_048_575,
};

/// How many components a document has at most.
pub const COMPONENT_LIMIT: usize = 64;

/// The greatest tick number.
pub const TICK_LIMIT: u64 = 1_000_000_000_000;

/// How many bytes a line has at most, its end not counted.
pub const LINE_LIMIT: usize = 4_096;
