//! Identifiers of entities: an index and a version, as EnTT 3.10 has them.
//!
//! An identifier is seen in four forms: as its two parts ([`Entity`]), as the number that a field
//! of a row holds ([`Entity::to_field`]), as the number of its bits ([`Entity::to_bits`]) and as
//! text ([`Entity::push_text`], [`parse_entity`]).
//!
//! Beside them stand the small lists that public types of the other crates hold, and the finite map
//! from identifiers that their contracts cite (`specs/FiniteMap.antt`).
#![tactic(auto)]

mod bits;
mod cut;
mod decimal;
mod entity;
mod laws;
mod lists;
mod memory;
mod text;

pub use bits::next_version;
pub use cut::{rsplit_once, split_once};
pub use decimal::{read_nat, take_nat};
pub use entity::{Entity, P20_12, P32_32, Profile};
pub use laws::{
    bits_and_identifiers, equal_lookups, fields_and_identifiers, matches_are_exact, matches_ascend,
};
pub use lists::{Counts, Entities, Name, Pools};
pub use memory::OutOfMemory;
pub use text::{parse_entity, take_entity};

#[cfg(test)]
mod tests;
