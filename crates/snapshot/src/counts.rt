//! The limits of a snapshot.

/// The text that a snapshot begins with.
pub const MARK: &[u8; 8] = b"WORLDSNP";

/// The number of the form.
pub const VERSION: u32 = 1;

/// How many header lines a snapshot has at most.
pub const HEADER_LIMIT: u32 = 4_576;

/// How many bytes a header line has at most.
pub const LINE_LIMIT: usize = 4_096;

/// The number of 32 bits that stands in both parts of the null identifier.
pub const ALL_SET: u32 = 4_294_967_295;
