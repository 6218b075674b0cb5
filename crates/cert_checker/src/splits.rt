ghost use Rattle.std.specs.Prelude.{◌≡◌, true, ◌∷◌, length, reverse, IfOk};
ghost use Rattle.cert_checker.specs.Held.{none_open, closed, cuts_left, opened};

use log_format::Item;
use std::alloc::{AllocError, Global};
use std::marker::Model;

/// The splits of a proof that aren't finished.
#[derive(Drop)]
pub struct Splits {
    // Of each whether its second half waits; the last split comes last.
    waits: Vec<bool>,
    // How many cuts of a close are to come.
    left: u64,
}

impl Model for Splits {
    ghost use Rattle.std.specs.Prelude.{reverse};
    ghost use Rattle.cert_checker.specs.Held.{Open};

    ghost Value = { Open };

    ghost view = { λ s. record { splits = reverse s.waits.items; left = s.left } };
}

impl Splits {
    // No split.
    pub fn new(alloc: Global) -> Self
        ensures { result ≡ none_open }
    {
        Splits {
            waits: Vec::new(alloc),
            left: 0,
        }
    }

    // How many there are.
    pub fn count(&self) -> u64
        ensures { result ≡ length self.now.splits }
    {
        self.waits.len() as u64
    }

    // The splits after one more item.
    pub fn after(self, item: &Item) -> Result<Self, AllocError>
        ensures { IfOk result (λ next. next ≡ opened self item.now) }
    {
        match item {
            Item::Split(_) => self.split(),
            Item::CloseHead { count, .. } => self.cuts_left(*count),
            Item::OneCut(_) => {
                let left = self.left.saturating_sub(1);
                self.cuts_left(left)
            }
            _ => Ok(self),
        }
    }

    // The splits with one more.
    fn split(self) -> Result<Self, AllocError>
        ensures { IfOk result (λ next. next ≡ record { splits = true ∷ self.splits; left = self.left }) }
    {
        let mut waits = self.waits;
        waits.push(true)?;
        Ok(Splits {
            waits,
            left: self.left,
        })
    }

    // The splits where so many cuts of a close are to come.
    fn cuts_left(self, left: u64) -> Result<Self, AllocError>
        ensures { IfOk result (λ next. next ≡ cuts_left self.splits left) }
    {
        if left > 0 {
            return Ok(Splits {
                waits: self.waits,
                left,
            });
        }
        Ok(Splits {
            waits: closed(self.waits)?,
            left: 0,
        })
    }
}

// The splits where a half is closed: of the last one whose second half waits, that one comes.
fn closed(waits: Vec<bool>) -> Result<Vec<bool>, AllocError>
    ensures { IfOk result (λ rest. reverse rest.items ≡ closed (reverse waits.items)) }
{
    let mut rest = waits;
    while let Some(second_waits) = rest.pop() {
        if second_waits {
            rest.push(false)?;
            return Ok(rest);
        }
    }
    Ok(rest)
}
