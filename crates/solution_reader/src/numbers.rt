ghost use Rattle.std.specs.Prelude.{◌≡◌, ◌≤◌, IfOk};
ghost use Rattle.solution_reader.specs.Numbers.{primal_said};
ghost use Rattle.solution_reader.specs.Judging.{number};

use crate::SolReason;
use amounts::amount_said;
use plain_text::number_within;

/// The number that a word says, which is at most the limit.
#[tactic(auto, unfolding(crate::specs::Judging::number, plain_text::specs::Numbers::number_within))]
pub fn number(word: &[u8], limit: u64) -> Result<u64, SolReason>
    ensures value { result ≡ number limit word.now }
    ensures in_range { IfOk result (λ n. n ≤ limit) }
{
    number_within(word, limit).ok_or(SolReason::BadNumber)
}

/// The millionths that a word says as a primal, if its whole part is below 2^64 and nothing but zeros stands past
/// the sixth digit after its point.
#[tactic(auto, unfolding(crate::specs::Numbers::primal_said))]
pub fn primal_said(word: &[u8]) -> Option<u128>
    ensures { result ≡ primal_said word.now }
{
    amount_said(word, u64::MAX).ok()
}
