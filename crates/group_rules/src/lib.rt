//! Which declarations of owning groups may stand beside each other, as EnTT 3.10's `registry.group` asks.
//!
//! A group may own a pool that another owns only where they are nested: each of the outer group's three
//! lists is contained in the same list of the inner one. EnTT asks for nested groups too; the rule in this
//! form, over lists taken as sets, is this project's own. [`relate`] says how two declarations stand to
//! each other, [`check`] whether one of them is a group's at all, and a [`Family`] holds declarations of
//! which any two may stand beside each other, under numbers that stay.
//!
//! What the answers mean stands in `specs/Families.antt`, over the definitions of the crate world_model
//! (`specs/Groups.antt`). That they are a world's answers, and what follows of two groups of a family, are
//! the laws of `src/laws.rt`.
#![tactic(auto)]

mod checking;
mod family;
mod laws;
mod refused;
mod relation;

pub use checking::check;
pub use family::{Family, GROUP_LIMIT};
pub use laws::{
    answers_are_those_of_worlds, families_are_those_of_worlds, families_grow_in_order,
    groups_of_families, inner_groups_nest, pools_of_groups, pools_of_nested_groups,
    relations_of_groups,
};
pub use refused::{DeclRefused, FamilyRefused};
pub use relation::{Relation, is_inner, relate};

#[cfg(test)]
mod tests;
