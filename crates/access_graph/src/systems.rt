//! Sets of systems.

ghost use Rattle.std.specs.Prelude.{◌≡◌, ◌<◌, ℕ, if◌then◌else◌};
ghost use Rattle.std.specs.Int.{bit_at};
ghost use Rattle.std.specs.FinSet as set;
ghost use Rattle.access_graph.specs.Systems.{IsNext, system_limit};

use std::marker::Model;

/// How many systems there are at most.
pub const SYSTEM_LIMIT: u32 = 64;

/// A set of systems, by number. A contract sees the set. (This project's own.)
#[derive(Debug, Drop)]
pub struct Systems {
    bits: u64,
}

impl Model for Systems {
    ghost use Rattle.std.specs.Coded.{coded_ℕ};
    ghost use Rattle.std.specs.FinSet as set;
    ghost use Rattle.access_graph.specs.Systems.{SystemSet, systems_of};

    ghost Value = { SystemSet };

    ghost coded = { set.code coded_ℕ };

    ghost view = { λ a. systems_of a.bits };
}

impl Systems {
    /// The set with no system. No memory.
    pub fn empty() -> Systems
        ensures { result ≡ set.empty }
    {
        Systems { bits: 0 }
    }

    /// Whether a system is in the set; one from 64 on never is. No memory.
    pub fn has(&self, system: u32) -> bool
        ensures { result ≡ set.contains self.now system }
    {
        system < SYSTEM_LIMIT && (self.bits >> system) & 1 == 1
    }

    /// The set with one system more, below 64; the same set where it has that already. No memory.
    pub fn with(&self, system: u32) -> Systems
        requires { system < system_limit }
        ensures { result ≡ set.insert self.now system }
    {
        Systems {
            bits: self.bits | (1 << system),
        }
    }

    /// The systems that are in one of two sets. No memory.
    pub fn union(&self, other: &Systems) -> Systems
        ensures { result ≡ set.union self.now other.now }
    {
        Systems {
            bits: self.bits | other.bits,
        }
    }

    /// The systems that are in this set and not in the other. No memory.
    pub fn difference(&self, other: &Systems) -> Systems
        ensures { result ≡ set.difference self.now other.now }
    {
        Systems {
            bits: self.bits & !other.bits,
        }
    }

    /// Whether every system of this set is in the other. No memory.
    pub fn is_within(&self, other: &Systems) -> bool
        ensures { result ≡ set.is_subset self.now other.now }
    {
        self.bits & !other.bits == 0
    }

    /// The least system of the set from a number on, or none. From 0, and then each time from the one
    /// above the last answer, it gives them all in ascending order. No memory.
    pub fn next_from(&self, from: u32) -> Option<u32>
        ensures { IsNext self.now from result }
    {
        let bits = self.bits;
        if from >= SYSTEM_LIMIT {
            return None;
        }
        let rest = bits >> from;
        if rest == 0 {
            return None;
        }
        Some(from + rest.trailing_zeros())
    }

    /// The set as a number, in which the bit of each of its systems is set, and no other. No memory.
    pub fn bits(&self) -> u64
        ensures { (system : ℕ) →
            bit_at result system ≡ (if set.contains self.now system then 1 else 0) }
    {
        self.bits
    }
}
