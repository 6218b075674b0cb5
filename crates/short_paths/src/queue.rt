ghost use Rattle.std.specs.Prelude.{◌≡◌, ℕ, ◌+◌, ◌*◌, ◌<◌, ◌≤◌, ◌⊎◌, length, All, IfSome, IfNone, OnOk, OnSome, IsPermutation, ◌∷◌, []};
ghost use Rattle.short_paths.specs.Waiting.{cost_at, IsAbove, IsOrdered, IsRising, IsSinking};

use std::alloc::{AllocError, Global};
use std::marker::Model;

// An offer: a cost, the vertex that it reaches, and the one that it comes from.
#[derive(Clone, Copy, Debug)]
pub struct Offer {
    pub cost: u64,
    pub to: u32,
    pub from: u32,
}

// Offers that wait, in a heap: below place k are places 4 k + 1 to 4 k + 4, and none is dearer
// than one below it. Each step down waits for memory, so four below each serve better than two.
#[derive(Drop)]
pub struct Queue {
    offers: Vec<Offer>,
}

impl Model for Queue {
    ghost use Rattle.std.specs.Prelude.{List};
    ghost use Rattle.short_paths.specs.declared.queue.Offer.{Offer};
    ghost use Rattle.short_paths.specs.Waiting.{IsOrdered};

    ghost Value = { List Offer };

    ghost view = { λ q. q.offers.items };

    ghost invariant = { λ q. IsOrdered q.offers.items };
}

impl Queue {
    // No offer waits.
    pub fn new(alloc: Global) -> Queue
        ensures { result ≡ [] }
    {
        Queue {
            offers: Vec::new(alloc),
        }
    }

    // One more offer waits.
    pub fn push(&mut self, offer: Offer) -> Result<(), AllocError>
        ensures moved { OnOk result (IsPermutation (offer ∷ self.old) self.new) }
        ensures length { length self.new ≤ length self.old + 1 }
    {
        let place = self.offers.len();
        self.offers.push(offer)?;
        rise(&mut self.offers, place);
        Ok(())
    }

    // One of the cheapest offers, which waits no longer.
    pub fn pop(&mut self) -> Option<Offer>
        ensures moved { IfSome result (λ offer. IsPermutation self.old (offer ∷ self.new)) }
        ensures cheapest { IfSome result (λ offer. All (λ other. offer.cost ≤ other.cost) self.old) }
        ensures length { OnSome result (length self.new + 1 ≡ length self.old) }
        ensures empty { IfNone result (self.old ≡ []) }
        ensures none { IfNone result (self.new ≡ []) }
    {
        if self.offers.is_empty() {
            return None;
        }
        let first = self.offers.swap_remove(0);
        sink(&mut self.offers);
        Some(first)
    }
}

// Moves an offer up until none above it is dearer.
fn rise(offers: &mut [Offer], mut place: usize)
    requires within { place < length offers.old }
    requires order { IsRising offers.old place }
    ensures moved { IsPermutation offers.old offers.new }
    ensures order { IsOrdered offers.new }
{
    while let Some(above) = dearer_above(offers, place) {
        offers.swap(above, place);
        place = above;
    }
}

// The place above a place, if the offer there is dearer.
fn dearer_above(offers: &[Offer], place: usize) -> Option<usize>
    requires { place < length offers.now }
    ensures dearer { IfSome result (λ above. IsAbove above place ×
        (cost_at offers.now place < cost_at offers.now above)) }
    ensures none { IfNone result ((above : ℕ) → IsAbove above place →
        cost_at offers.now above ≤ cost_at offers.now place) }
{
    if place == 0 {
        return None;
    }
    let above = (place - 1) / 4;
    if offers[place].cost < offers[above].cost {
        Some(above)
    } else {
        None
    }
}

// Moves the first offer down until none below it is cheaper.
fn sink(offers: &mut [Offer])
    requires { IsSinking offers.old 0 }
    ensures moved { IsPermutation offers.old offers.new }
    ensures order { IsOrdered offers.new }
{
    let mut place = 0;
    while let Some(below) = cheaper_below(offers, place) {
        offers.swap(place, below);
        place = below;
    }
}

// The place of a cheapest offer below a place, if it is cheaper than the one there.
fn cheaper_below(offers: &[Offer], place: usize) -> Option<usize>
    requires { place ≤ length offers.now }
    ensures cheaper { IfSome result (λ below. IsAbove place below × (below < length offers.now) ×
        (cost_at offers.now below < cost_at offers.now place)) }
    ensures cheapest { IfSome result (λ below. (other : ℕ) → IsAbove place other → other < length offers.now →
        cost_at offers.now below ≤ cost_at offers.now other) }
    ensures none { IfNone result ((other : ℕ) → IsAbove place other → other < length offers.now →
        cost_at offers.now place ≤ cost_at offers.now other) }
{
    let first = 4 * place + 1;
    if first >= offers.len() {
        return None;
    }
    let below = cheapest_of_four(offers, first);
    if offers[below].cost < offers[place].cost {
        Some(below)
    } else {
        None
    }
}

// The place of a cheapest of the four offers from a place on, or of those that are there.
fn cheapest_of_four(offers: &[Offer], first: usize) -> usize
    requires { first < length offers.now }
    ensures within { (first ≤ result) × (result ≤ first + 3) × (result < length offers.now) }
    ensures cheapest { (other : ℕ) → first ≤ other → other ≤ first + 3 → other < length offers.now →
        cost_at offers.now result ≤ cost_at offers.now other }
{
    if first + 3 < offers.len() {
        let left = cheaper(offers, first, first + 1);
        let right = cheaper(offers, first + 2, first + 3);
        cheaper(offers, left, right)
    } else {
        cheapest_from(offers, first)
    }
}

// The place of a cheapest offer from a place on.
fn cheapest_from(offers: &[Offer], first: usize) -> usize
    requires { first < length offers.now }
    ensures within { (first ≤ result) × (result < length offers.now) }
    ensures cheapest { (other : ℕ) → first ≤ other → other < length offers.now →
        cost_at offers.now result ≤ cost_at offers.now other }
{
    let mut best = first;
    for place in first + 1..offers.len() {
        best = cheaper(offers, best, place);
    }
    best
}

// That of two places where the cheaper offer is.
fn cheaper(offers: &[Offer], a: usize, b: usize) -> usize
    requires a { a < length offers.now }
    requires b { b < length offers.now }
    ensures either { (result ≡ a) ⊎ (result ≡ b) }
    ensures a { cost_at offers.now result ≤ cost_at offers.now a }
    ensures b { cost_at offers.now result ≤ cost_at offers.now b }
{
    if offers[b].cost < offers[a].cost {
        b
    } else {
        a
    }
}
