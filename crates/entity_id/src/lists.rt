//! The lists that public types hold. A contract sees each as the list of its items.

ghost use Rattle.std.specs.Prelude.{◌≡◌};

use super::Entity;
use std::marker::Model;

/// A name, as its bytes.
#[derive(Debug, Drop)]
pub struct Name {
    bytes: Vec<u8>,
}

impl Model for Name {
    ghost use Rattle.std.specs.Prelude.{List, ℕ};

    ghost Value = { List ℕ };

    ghost view = { λ a. a.bytes.items };
}

impl Name {
    /// The name of these bytes. No memory.
    pub fn from_vec(bytes: Vec<u8>) -> Name
        ensures { result ≡ bytes.items }
    {
        Name { bytes }
    }

    /// Its bytes. No memory.
    pub fn as_slice(&self) -> &[u8]
        ensures { result.now ≡ self.now }
    {
        &self.bytes
    }
}

/// Pool numbers, in order.
#[derive(Debug, Drop)]
pub struct Pools {
    numbers: Vec<u32>,
}

impl Model for Pools {
    ghost use Rattle.std.specs.Prelude.{List, ℕ};

    ghost Value = { List ℕ };

    ghost view = { λ a. a.numbers.items };
}

impl Pools {
    /// The list of these numbers. No memory.
    pub fn from_vec(numbers: Vec<u32>) -> Pools
        ensures { result ≡ numbers.items }
    {
        Pools { numbers }
    }

    /// Its numbers. No memory.
    pub fn as_slice(&self) -> &[u32]
        ensures { result.now ≡ self.now }
    {
        &self.numbers
    }
}

/// Identifiers, in order.
#[derive(Debug, Drop)]
pub struct Entities {
    entities: Vec<Entity>,
}

impl Model for Entities {
    ghost use Rattle.std.specs.Prelude.{List};
    ghost use Rattle.entity_id.specs.declared.entity.Entity.{Entity};

    ghost Value = { List Entity };

    ghost view = { λ a. a.entities.items };
}

impl Entities {
    /// The list of these identifiers. No memory.
    pub fn from_vec(entities: Vec<Entity>) -> Entities
        ensures { result ≡ entities.items }
    {
        Entities { entities }
    }

    /// Its identifiers. No memory.
    pub fn as_slice(&self) -> &[Entity]
        ensures { result.now ≡ self.now }
    {
        &self.entities
    }
}

/// Numbers of 64 bits, in order.
#[derive(Debug, Drop)]
pub struct Counts {
    counts: Vec<u64>,
}

impl Model for Counts {
    ghost use Rattle.std.specs.Prelude.{List, ℕ};

    ghost Value = { List ℕ };

    ghost view = { λ a. a.counts.items };
}

impl Counts {
    /// The list of these numbers. No memory.
    pub fn from_vec(counts: Vec<u64>) -> Counts
        ensures { result ≡ counts.items }
    {
        Counts { counts }
    }

    /// Its numbers. No memory.
    pub fn as_slice(&self) -> &[u64]
        ensures { result.now ≡ self.now }
    {
        &self.counts
    }
}
