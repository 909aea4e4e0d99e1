//! The places whose bits are set in a mask.

ghost use Rattle.std.specs.Prelude.{◌≡◌, ℕ, ◌-◌, ◌<◌, ◌≤◌};
ghost use Rattle.std.specs.Int.{bit_at};

// The first of them from this place on, or one past all.
pub fn next_place(mask: u32, from: usize) -> usize
    requires { from ≤ 32 }
    ensures rises { from ≤ result }
    ensures set { result < 32 → bit_at mask result ≡ 1 }
    ensures clear { (place : ℕ) → from ≤ place → place < result → bit_at mask place ≡ 0 }
{
    from + (u64::from(mask) >> from).trailing_zeros() as usize
}

// One more than the last of them before this place, or 0.
pub fn past_last(mask: u32, end: usize) -> usize
    requires { end ≤ 32 }
    ensures falls { result ≤ end }
    ensures set { 0 < result → bit_at mask (result - 1) ≡ 1 }
    ensures clear { (place : ℕ) → result ≤ place → place < end → bit_at mask place ≡ 0 }
{
    let below = u64::from(mask) & ((1 << end) - 1);
    64 - below.leading_zeros() as usize
}
