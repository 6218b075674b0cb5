ghost use Rattle.std.specs.Prelude.{◌≡◌, ◌≤◌, IsTrue, IfOk};
ghost use Rattle.std.specs.Char.{is_ascii_digit};
ghost use Rattle.std.specs.List.{list_all};
ghost use Rattle.st_model.specs.Network.{IsVertex};
ghost use Rattle.plain_text.specs.Numbers.{is_number, value};
ghost use Rattle.stp_reader.specs.Judged.{within, count, nodes, vertex, amount};

use crate::Reason;
use amounts::{NoAmount, amount_said};
use plain_text::number_within;
use st_model::MAX_VERTICES;

/// The greatest whole part of a cost or prize.
const MAX_AMOUNT: u64 = 1_000_000_000_000;

// Whether there are but decimal digits.
fn are_digits(bytes: &[u8]) -> bool
    ensures { result ≡ list_all is_ascii_digit bytes.now }
{
    bytes.iter().all(|byte| byte.is_ascii_digit())
}

// Whether a word is a number: one or more decimal digits.
fn is_number(word: &[u8]) -> bool
    ensures { result ≡ is_number word.now }
{
    !word.is_empty() && are_digits(word)
}

// The number that a word says, if it is at most the limit.
#[tactic(auto, unfolding(plain_text::specs::Numbers::number_within))]
fn within(word: &[u8], limit: u64) -> Result<u64, Reason>
    requires { IsTrue (is_number word.now) }
    ensures value { result ≡ within limit (value word.now) }
    ensures in_range { IfOk result (λ n. n ≤ limit) }
{
    number_within(word, limit).ok_or(Reason::OutOfRange)
}

/// The count that a word says, which is at most the limit.
#[tactic(auto, unfolding(crate::specs::Judged::count))]
pub fn count(word: &[u8], limit: u64) -> Result<u64, Reason>
    ensures value { result ≡ count limit word.now }
    ensures in_range { IfOk result (λ n. n ≤ limit) }
{
    if !is_number(word) {
        return Err(Reason::BadNumber);
    }
    within(word, limit)
}

/// The number of vertices that a word says.
#[tactic(auto, unfolding(crate::specs::Judged::nodes))]
pub fn nodes(word: &[u8]) -> Result<u32, Reason>
    ensures value { result ≡ nodes word.now }
    ensures in_range { IfOk result (λ n. (1 ≤ n) × (n ≤ 1000000)) }
{
    let vertices = count(word, u64::from(MAX_VERTICES))?;
    if vertices == 0 {
        return Err(Reason::NoVertices);
    }
    Ok(vertices as u32)
}

/// The vertex that a word says, from 1 to a number.
#[tactic(auto, unfolding(crate::specs::Judged::vertex))]
pub fn vertex(word: &[u8], vertices: u32) -> Result<u32, Reason>
    ensures value { result ≡ vertex vertices word.now }
    ensures in_range { IfOk result (IsVertex vertices) }
{
    if !is_number(word) {
        return Err(Reason::BadNumber);
    }
    match within(word, u64::from(vertices)) {
        Ok(vertex) if vertex >= 1 => Ok(vertex as u32),
        _ => Err(Reason::VertexRange),
    }
}

/// The millionths that a word says as a cost or prize.
#[tactic(auto, unfolding(crate::specs::Judged::amount, amounts::specs::Amounts::amount_said))]
pub fn amount(word: &[u8]) -> Result<u64, Reason>
    ensures value { result ≡ amount word.now }
    ensures in_range { IfOk result (λ x. x ≤ 1000000000000999999) }
{
    match amount_said(word, MAX_AMOUNT) {
        Ok(millionths) => Ok(millionths as u64),
        Err(NoAmount::NotDigits) => Err(Reason::BadNumber),
        Err(NoAmount::TooFine) => Err(Reason::Fraction),
        Err(NoAmount::TooLarge) => Err(Reason::OutOfRange),
    }
}
