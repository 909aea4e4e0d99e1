//! Sets of systems as the bits of numbers.

ghost use Rattle.std.specs.Prelude.{◌≡◌, ◌==◌, ◌↔◌, ◌<◌, ◌≤◌, length, IsTrue};
ghost use Rattle.std.specs.Int.{bit_at};
ghost use Rattle.ready_board.specs.Sets.{AreLower, IsWithin, first_systems, only, system_limit};

use super::SYSTEM_LIMIT;

// The set of one system.
pub(crate) fn bit_of(system: u32) -> u64
    requires { system < system_limit }
    ensures { result ≡ only system }
{
    1 << system
}

// The set of the first systems, so many of them.
pub(crate) fn first_of(count: usize) -> u64
    requires { count ≤ system_limit }
    ensures { result ≡ first_systems count }
{
    if count == SYSTEM_LIMIT {
        u64::MAX
    } else {
        (1 << count) - 1
    }
}

// Whether a system is in the set.
pub(crate) fn has(set: u64, system: u32) -> bool
    requires { system < system_limit }
    ensures { result ≡ (bit_at set system == 1) }
{
    (set >> system) & 1 == 1
}

// Whether each system of the first set is in the second.
pub(crate) fn is_within(part: u64, whole: u64) -> bool
    ensures { IsTrue result ↔ IsWithin part whole }
{
    part & whole == part
}

/// Whether each predecessor of a system is smaller than the system, where the bits of each number are the
/// predecessors of its system: what `Board::new` asks for. No memory. (This project's own.)
pub fn are_lower(preds: &[u64]) -> bool
    requires { length preds.now ≤ system_limit }
    ensures { IsTrue result ↔ AreLower preds.now }
{
    for (system, set) in preds.iter().enumerate() {
        if !is_within(*set, first_of(system)) {
            return false;
        }
    }
    true
}
