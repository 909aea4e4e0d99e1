ghost use Rattle.std.specs.Prelude.{◌≡◌, ◌≢◌, ◌∷◌, List, ℕ, MatchOption, ◌<◌, ◌≤◌, ◌-◌, ◌^◌, ℤ, negsuc, IfSome, IfNone};
ghost use Rattle.std.specs.Fmt.{signed_decimal};
ghost use Rattle.world_model.specs.Integers.{IsI64, IsIntegerFirst};

use entity_id::take_nat;

// The number that a magnitude above 0 stands for behind a minus sign.
fn negated(magnitude: u64) -> i64
    requires { (0 < magnitude) × (magnitude ≤ 2 ^ 63) }
    ensures { result ≡ negsuc (magnitude - 1) }
{
    -1 - (magnitude - 1) as i64
}

// What stands behind a minus sign.
fn without_minus(token: &[u8]) -> Option<&[u8]>
    ensures { MatchOption result ((rest : List ℕ) → token.now ≢ 45 ∷ rest) (λ rest. token.now ≡ 45 ∷ rest.now) }
{
    match token {
        [b'-', rest @ ..] => Some(rest),
        _ => None,
    }
}

/// The whole number of 64 bits at the front of a text, in decimal with no plus sign, no leading zero
/// and no `-0`, as far as its digits go, and what stands behind it. None exactly where the text begins
/// with none. No memory.
pub fn take_int(text: &[u8]) -> Option<(i64, &[u8])>
    ensures some { IfSome result (λ x. IsIntegerFirst text.now x.0 x.1.now) }
    ensures none { IfNone result
        ((z : ℤ) (rest : List ℕ) → IsIntegerFirst text.now z rest → ⊥) }
{
    if let Some(digits) = without_minus(text) {
        let (magnitude, rest) = take_nat(digits, 1 << 63)?;
        if magnitude == 0 {
            return None;
        }
        return Some((negated(magnitude), rest));
    }
    let (number, rest) = take_nat(text, i64::MAX as u64)?;
    Some((number as i64, rest))
}

/// The whole number of 64 bits that a text spells in decimal, with no plus sign, no leading zero and
/// no `-0`. None exactly where it spells none. No memory.
pub fn read_int(token: &[u8]) -> Option<i64>
    ensures some { IfSome result (λ z. IsI64 z × (token.now ≡ signed_decimal z)) }
    ensures none { IfNone result ((z : ℤ) → IsI64 z → token.now ≢ signed_decimal z) }
{
    let (number, rest) = take_int(token)?;
    if rest.is_empty() { Some(number) } else { None }
}
