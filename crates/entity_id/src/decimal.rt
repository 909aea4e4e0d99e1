ghost use Rattle.std.specs.Prelude.{List, ◌≡◌, ℕ, ◌+◌, ◌-◌, ◌*◌, ◌<◌, ◌≤◌, ◌≢◌, ◌↔◌, ◌⊎◌, IsTrue, IfSome, IfNone, SomeIff, length, drop, slice_index};
ghost use Rattle.std.specs.Fmt.{decimal};
ghost use Rattle.entity_id.specs.Texts.{BeginsWithDigits, EndsNumber, IsNumberFirst};

// Numbers of so many digits have 64 bits.
const SURE_DIGITS: usize = 19;

// A leading zero before other digits.
fn is_padded(token: &[u8]) -> bool
    ensures { IsTrue result ↔ ((1 < length token.now) × (slice_index token.now 0 ≡ 48)) }
{
    token.len() > 1 && token[0] == b'0'
}

// The digit at a place.
fn digit_at(text: &[u8], at: usize) -> Option<u8>
    ensures { SomeIff result
        ((at < length text.now) × (48 ≤ slice_index text.now at) × (slice_index text.now at ≤ 57))
        (slice_index text.now at - 48) }
{
    match text.get(at) {
        Some(byte @ b'0'..=b'9') => Some(*byte - b'0'),
        _ => None,
    }
}

fn with_digit(number: u64, digit: u8, limit: u64) -> Option<u64>
    ensures { SomeIff result (10 * number + digit ≤ limit) (10 * number + digit) }
{
    let next = number.checked_mul(10)?.checked_add(u64::from(digit))?;
    if next <= limit { Some(next) } else { None }
}

// Whether a number ends in front of this text.
pub(super) fn ends_number(text: &[u8]) -> bool
    ensures { IsTrue result ↔ EndsNumber text.now }
{
    digit_at(text, 0).is_none()
}

// The digits at the front of a text, and the value of each number that they spell: all of them, or as
// many as surely have a value of 64 bits.
fn first_digits(text: &[u8]) -> (u64, usize)
    ensures digits { BeginsWithDigits text.now result.0 result.1 }
    ensures all { EndsNumber (drop result.1 text.now) ⊎ (result.1 ≡ 19) }
{
    let front = &text[..text.len().min(SURE_DIGITS)];
    let mut number = 0;
    let mut at = 0;
    while let Some(digit) = digit_at(front, at) {
        number = 10 * number + u64::from(digit);
        at += 1;
    }
    (number, at)
}

// The digits at the front of a text, and their value, once so many of this value are known. None where
// that is above `limit`.
fn more_digits(text: &[u8], limit: u64, number: u64, known: usize) -> Option<(u64, usize)>
    requires { BeginsWithDigits text.now number known }
    ensures some { IfSome result (λ x.
        BeginsWithDigits text.now x.0 x.1 × EndsNumber (drop x.1 text.now)) }
    ensures none { IfNone result
        ((n : ℕ) (rest : List ℕ) → IsNumberFirst limit text.now n rest → ⊥) }
{
    let mut number = number;
    let mut at = known;
    while let Some(digit) = digit_at(text, at) {
        number = with_digit(number, digit, limit)?;
        at += 1;
    }
    Some((number, at))
}

// The digits at the front of a text, and their value. None only where no number of at most `limit`
// stands there.
fn take_digits(text: &[u8], limit: u64) -> Option<(u64, usize)>
    ensures some { IfSome result (λ x.
        BeginsWithDigits text.now x.0 x.1 × EndsNumber (drop x.1 text.now)) }
    ensures none { IfNone result
        ((n : ℕ) (rest : List ℕ) → IsNumberFirst limit text.now n rest → ⊥) }
{
    let (number, count) = first_digits(text);
    if count < SURE_DIGITS {
        return Some((number, count));
    }
    more_digits(text, limit, number, count)
}

/// The number at the front of a text, in decimal without sign and without a leading zero, as far as
/// its digits go, and what stands behind it. None exactly where the text begins with no number of at
/// most `limit`. No memory.
pub fn take_nat(text: &[u8], limit: u64) -> Option<(u64, &[u8])>
    ensures some { IfSome result (λ x. IsNumberFirst limit text.now x.0 x.1.now) }
    ensures none { IfNone result
        ((n : ℕ) (rest : List ℕ) → IsNumberFirst limit text.now n rest → ⊥) }
{
    let (number, count) = take_digits(text, limit)?;
    if number > limit || count == 0 || is_padded(&text[..count]) {
        return None;
    }
    Some((number, &text[count..]))
}

/// The number that a text spells in decimal, without sign and without a leading zero. None exactly
/// where the text spells no number of at most `limit`. No memory.
pub fn read_nat(token: &[u8], limit: u64) -> Option<u64>
    ensures some { IfSome result (λ n. (n ≤ limit) × (token.now ≡ decimal n)) }
    ensures none { IfNone result ((n : ℕ) → n ≤ limit → token.now ≢ decimal n) }
{
    let (number, rest) = take_nat(token, limit)?;
    if rest.is_empty() { Some(number) } else { None }
}
