ghost use Rattle.std.specs.Prelude.{◌≡◌, ◌≢◌, ◌≤◌, ℕ, IfSome, IfNone};
ghost use Rattle.std.specs.Fmt.{decimal};
ghost use Rattle.plain_text.specs.Numbers.{number_within, number};
ghost use Rattle.plain_text.specs.Steps.{value_by};

// The value of decimal digits, if it is at most the limit.
fn value_of(digits: &[u8], limit: u64) -> Option<u64>
    ensures value { result ≡ value_by limit 0 digits.now }
    ensures in_range { IfSome result (λ n. n ≤ limit) }
{
    let mut value: u64 = 0;
    for digit in digits {
        if !digit.is_ascii_digit() {
            return None;
        }
        value = value
            .checked_mul(10)?
            .checked_add(u64::from(*digit - b'0'))?;
        if value > limit {
            return None;
        }
    }
    Some(value)
}

/// The number that a word of one or more decimal digits says, if it is at most the limit. Leading zeros count for
/// nothing.
pub fn number_within(word: &[u8], limit: u64) -> Option<u64>
    ensures value { result ≡ number_within limit word.now }
    ensures in_range { IfSome result (λ n. n ≤ limit) }
{
    if word.is_empty() {
        return None;
    }
    value_of(word, limit)
}

// What the word says as a number from `low` to `high`.
#[tactic(auto, unfolding(crate::specs::Numbers::number))]
fn read(word: &[u8], low: u64, high: u64) -> Option<u64>
    ensures value { result ≡ number low high word.now }
    ensures in_range { IfSome result (λ n. (low ≤ n) × (n ≤ high)) }
{
    if let [b'0', _, ..] = word {
        return None;
    }
    let value = number_within(word, high)?;
    if value < low {
        return None;
    }
    Some(value)
}

/// The number from `low` to `high` that is written as this word, in decimal digits with no leading zero.
pub fn number(word: &[u8], low: u64, high: u64) -> Option<u64>
    ensures found { IfSome result (λ n. word.now ≡ decimal n) }
    ensures none { IfNone result ((n : ℕ) → low ≤ n → n ≤ high → word.now ≢ decimal n) }
    ensures value { result ≡ number low high word.now }
    ensures in_range { IfSome result (λ n. (low ≤ n) × (n ≤ high)) }
{
    read(word, low, high)
}
