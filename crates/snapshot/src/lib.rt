//! The binary form of a world: documents packed into snapshots, and read from them.
//!
//! What a snapshot is stands in `specs/`, as a relation on whole lists of fields: `Fields.antt` says what
//! the bytes of each field are, `Due.antt` which kind of field is due behind others, and `Snapshots.antt`
//! where a field is admissible, which bytes are a snapshot of which document, and where the first bad field
//! starts. `Packing.antt` has the one snapshot of a document, and `Reading.antt` how far a reader has come.
//! What a field says is admissible by the very clauses by which the line of a document is that says the
//! same.
#![tactic(auto)]

mod beginning;
mod body;
mod counts;
mod laws;
mod numbers;
mod packing;
mod pools;
mod reading;
mod refusal;
mod room;
mod sizes;
mod values;

pub use laws::{
    one_bad_field, one_snapshot, packed_snapshot, packed_snapshot_is_read_back,
    snapshot_or_bad_field, snapshots_are_lawful,
};
pub use packing::pack;
pub use reading::unpack;
pub use refusal::PackRefused;

#[cfg(test)]
mod tests;
