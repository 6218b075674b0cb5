ghost use Rattle.std.specs.Prelude.{◌≡◌, ℕ, List, [], ◌∷◌, ◌++◌, IfOk};
ghost use Rattle.stp_reader.specs.Judged.{scaled};
ghost use Rattle.stp_reader.specs.Reached.{Says, IsSeen};
ghost use Rattle.stp_reader.specs.Unit.{is_fractional, is_large, scale_of};

use crate::Reason;
use amounts::Scale;

/// How many millionths a whole has.
pub const MILLION: u64 = 1_000_000;

/// A million, in millionths.
const LARGE: u64 = 1_000_000_000_000;

/// What was seen of all amounts so far.
#[derive(Clone, Copy)]
pub struct Seen {
    /// One of them has decimals.
    pub fraction: bool,
    /// One of them is above a million.
    pub large: bool,
}

fn is_fractional(amount: u64) -> bool
    ensures { result ≡ is_fractional amount }
{
    amount % MILLION != 0
}

fn is_large(amount: u64) -> bool
    ensures { result ≡ is_large amount }
{
    amount > LARGE
}

impl Seen {
    /// What was seen before any amount.
    pub fn nothing() -> Seen
        ensures { IsSeen result [] }
    {
        Seen {
            fraction: false,
            large: false,
        }
    }

    /// What was seen with one amount more, in millionths, if it may stand after those before.
    pub fn with(self, amount: u64) -> Result<Seen, Reason>
        ensures judged { (before : List ℕ) → IsSeen self before
            → Says (λ _. amount) result (scaled before amount amount) }
        ensures seen { (before : List ℕ) → IsSeen self before
            → IfOk result (λ next. IsSeen next (before ++ amount ∷ [])) }
    {
        let fraction = is_fractional(amount) || self.fraction;
        let large = is_large(amount) || self.large;
        if fraction && large {
            return Err(Reason::ScaleRange);
        }
        Ok(Seen { fraction, large })
    }

    /// The unit of a file with these amounts.
    pub fn scale(self) -> Scale
        ensures { (amounts : List ℕ) → IsSeen self amounts → result ≡ scale_of amounts }
    {
        if self.fraction {
            Scale::Millionths
        } else {
            Scale::Whole
        }
    }
}
