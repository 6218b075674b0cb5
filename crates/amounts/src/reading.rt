ghost use Rattle.std.specs.Prelude.{◌≡◌, ◌≤◌, ◌+◌, ◌*◌, ◌==◌, IsTrue, IfOk, drop};
ghost use Rattle.std.specs.Char.{is_ascii_digit};
ghost use Rattle.std.specs.List.{list_all};
ghost use Rattle.amounts.specs.Amounts.{parts, digit_at, first_digits, amount_said};

use plain_text::{cut_at, number_within};

/// Why a word is no amount up to a limit: the first of these that holds.
#[derive(Clone, Copy, Debug, PartialEq, Eq)]
pub enum NoAmount {
    /// It isn't digits with perhaps a point and more digits after them.
    NotDigits,
    /// A digit past the sixth after the point isn't 0.
    TooFine,
    /// What stands before the point is above the limit.
    TooLarge,
}

// Whether there are but decimal digits.
fn are_digits(bytes: &[u8]) -> bool
    ensures { result ≡ list_all is_ascii_digit bytes.now }
{
    bytes.iter().all(|byte| byte.is_ascii_digit())
}

// Whether there are but zeros.
fn are_zeros(bytes: &[u8]) -> bool
    ensures { result ≡ list_all (λ c. c == 48) bytes.now }
{
    bytes.iter().all(|byte| *byte == b'0')
}

// What stands before the point of a word, and what stands after it.
fn parts(word: &[u8]) -> (&[u8], &[u8])
    ensures { (result.0.now, result.1.now) ≡ parts word.now }
{
    let Some((whole, fraction)) = cut_at(word, b'.') else {
        return (word, &word[..0]);
    };
    (whole, fraction)
}

// The digit after the point at this place.
fn digit_at(fraction: &[u8], place: usize) -> u64
    ensures digit { result ≡ digit_at fraction.now place }
    ensures small { IsTrue (list_all is_ascii_digit fraction.now) → result ≤ 9 }
    ensures fits { result ≤ 207 }
{
    let byte = fraction.get(place).copied().unwrap_or(b'0');
    u64::from(byte.saturating_sub(b'0'))
}

// The first six digits after the point, as a number.
fn first_six(fraction: &[u8]) -> u64
    ensures six { result ≡ first_digits 6 fraction.now }
    ensures small { IsTrue (list_all is_ascii_digit fraction.now) → result ≤ 999999 }
{
    100_000 * digit_at(fraction, 0)
        + 10_000 * digit_at(fraction, 1)
        + 1_000 * digit_at(fraction, 2)
        + 100 * digit_at(fraction, 3)
        + 10 * digit_at(fraction, 4)
        + digit_at(fraction, 5)
}

// Whether nothing but zeros stands past the sixth digit after the point.
fn ends_in_time(fraction: &[u8]) -> bool
    ensures { result ≡ list_all (λ c. c == 48) (drop 6 fraction.now) }
{
    match fraction.get(6..) {
        Some(rest) => are_zeros(rest),
        None => true,
    }
}

/// The millionths that a word says, where its whole part is at most `most`; or why it says none.
#[tactic(auto, unfolding(crate::specs::Amounts::amount_said, plain_text::specs::Numbers::number_within))]
pub fn amount_said(word: &[u8], most: u64) -> Result<u128, NoAmount>
    ensures said { result ≡ amount_said most word.now }
    ensures in_range { IfOk result (λ x. x ≤ most * 1000000 + 999999) }
{
    let (whole, fraction) = parts(word);
    if whole.is_empty() || !are_digits(whole) || !are_digits(fraction) {
        return Err(NoAmount::NotDigits);
    }
    if !ends_in_time(fraction) {
        return Err(NoAmount::TooFine);
    }
    let Some(whole) = number_within(whole, most) else {
        return Err(NoAmount::TooLarge);
    };
    Ok(u128::from(whole) * 1_000_000 + u128::from(first_six(fraction)))
}
