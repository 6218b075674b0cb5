ghost use Rattle.std.specs.Prelude.{◌≡◌, ℕ, ◌+◌, ◌^◌, ◌<◌, ◌≤◌, ◌∷◌, [], length, All, IfNone, IfSome, OnOk, OnSome, IsPermutation};

use std::alloc::{AllocError, Global};
use std::cmp::Reverse;
use std::collections::BinaryHeap;
use std::marker::Model;

// A link between two cells: what it costs to go from one terminal over it to the other.
#[derive(Clone, Copy, PartialEq, Eq, PartialOrd, Ord)]
pub struct Offer {
    pub cost: u64,
    pub from: u32,
    pub to: u32,
}

// Offers that wait.
#[derive(Drop)]
pub struct Offers {
    waiting: BinaryHeap<Reverse<Offer>>,
}

impl Model for Offers {
    ghost use Rattle.std.specs.Prelude.{List};
    ghost use Rattle.std.specs.BinaryHeap.{heap_items, IsHeap};
    ghost use Rattle.std.specs.declared.cmp.Reverse.{Reverse as ReverseSpec};
    ghost use Rattle.twice_tree.specs.declared.offers.Offer.{Offer as OfferSpec};
    ghost use Rattle.twice_tree.specs.Order.{offer_cmp};

    ghost Value = { List (ReverseSpec OfferSpec) };

    ghost view = { λ o. heap_items o.waiting };

    ghost invariant = { λ o. IsHeap offer_cmp (heap_items o.waiting) };
}

impl Offers {
    // No offer waits.
    pub fn new(alloc: Global) -> Offers
        ensures { result ≡ [] }
    {
        Offers {
            waiting: BinaryHeap::new(alloc),
        }
    }

    // One more offer waits.
    pub fn push(&mut self, offer: Offer) -> Result<(), AllocError>
        ensures { OnOk result (IsPermutation (record { 0 = offer } ∷ self.old) self.new) }
    {
        self.waiting.push(Reverse(offer))?;
        Ok(())
    }

    // One of the cheapest offers, which waits no longer.
    pub fn next(&mut self) -> Option<Offer>
        ensures moved { IfSome result (λ offer. IsPermutation self.old (record { 0 = offer } ∷ self.new)) }
        ensures cheapest { IfSome result (λ offer. All (λ other. offer.cost ≤ other.0.cost) self.old) }
        ensures length { OnSome result (length self.new + 1 ≡ length self.old) }
        ensures empty { IfNone result (self.old ≡ []) }
        ensures none { IfNone result (self.new ≡ []) }
    {
        let Reverse(offer) = self.waiting.pop()?;
        Some(offer)
    }

    // How many wait.
    pub fn len(&self) -> usize
        ensures { result ≡ length self.now }
    {
        self.waiting.as_slice().len()
    }
}
