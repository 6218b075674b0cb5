ghost use Rattle.std.specs.Prelude.{◌≡◌, ◌+◌, ◌<◌, ◌≤◌, ◌==◌, ◌^◌, if◌then◌else◌, None, Some, IsTrue};
ghost use Rattle.open_ledger.specs.Tally.{newcomer, with_busy, with_down, with_grant, with_halt, with_refusal, with_sights, with_up};
ghost use Rattle.open_ledger.specs.Seat.{counting, SaysWhy};

use crate::place::Place;
use crate::why::Why;
use std::marker::Model;

/// One worker's seat at a ledger. No call on it waits, takes memory or tries again.
#[derive(Drop)]
pub struct LedgerSeat {
    place: Place,
    budget: u64,
    why: Option<Why>,
}

impl Model for LedgerSeat {
    ghost use Rattle.std.specs.Prelude.{◌≡◌, ◌≢◌, ◌<◌, None};
    ghost use Rattle.open_ledger.specs.Seat.{Known};

    ghost Value = { Known };

    ghost view = { λ s. record { ledger = s.place.ledger; tally = s.place.tally; why = s.why } };

    ghost invariant = { λ s. (s.place.tally.parts ≡ 1) × (s.place.tally.budget ≡ s.budget)
        × (0 < s.place.tally.halts → s.why ≢ None) };
}

impl LedgerSeat {
    // The seat over a place with one part, on which nothing was done.
    pub(crate) fn over(place: Place, budget: u64) -> LedgerSeat
        requires { place.tally ≡ newcomer budget }
        ensures ledger { result.ledger ≡ place.ledger }
        ensures tally { result.tally ≡ newcomer budget }
        ensures why { result.why ≡ None }
    {
        LedgerSeat {
            place,
            budget,
            why: None,
        }
    }

    // The place under the seat.
    pub(crate) fn under(self) -> Place
        ensures one { result.tally.parts ≡ 1 }
        ensures why { SaysWhy self }
        ensures ledger { result.ledger ≡ self.ledger }
        ensures tally { result.tally ≡ self.tally }
    {
        self.place
    }

    /// One node more is open.
    pub fn up(&mut self)
        ensures { self.new ≡ counting self.old (with_up self.old.tally) }
    {
        self.place.up();
    }

    /// One node less is open.
    pub fn down(&mut self)
        ensures { self.new ≡ counting self.old (with_down self.old.tally) }
    {
        self.place.down();
    }

    /// How many nodes are open. The seat is idle where it saw 0, until its next step on the open
    /// word.
    pub fn see_open(&mut self) -> u64
        ensures { self.new ≡ counting self.old (with_busy self.old.tally (if result == 0 then 0 else 1)) }
    {
        self.place.see_open()
    }

    /// Claims a unit of the budget: whether the claims before it numbered less than the budget.
    pub fn claim(&mut self) -> bool
        requires { self.old.tally.refused ≡ 0 }
        ensures claimed { self.new ≡ counting self.old
            (if result then with_grant self.old.tally else with_refusal self.old.tally) }
        ensures within { self.new.tally.granted ≤ self.old.tally.budget }
    {
        let budget = self.budget;
        self.place.claim() < budget
    }

    /// Tells all seats to halt. The seat keeps why.
    pub fn halt(&mut self, why: Why)
        requires { why ≡ Why.Refused → 0 < self.old.tally.refused }
        ensures ledger { self.new.ledger ≡ self.old.ledger }
        ensures tally { self.new.tally ≡ with_halt self.old.tally }
        ensures why { self.new.why ≡ Some why }
    {
        self.place.halt();
        self.why = Some(why);
    }

    /// Whether some seat halted. True wherever this seat halted, or saw that another did.
    pub fn see_halt(&mut self) -> bool
        ensures seen { self.new ≡ counting self.old (with_sights self.old.tally (if result then 1 else 0)) }
        ensures known { 0 < self.old.tally.halts + self.old.tally.sights → IsTrue result }
    {
        self.place.see_halt() == 1
    }

    /// Why this seat halted last, if it did.
    pub fn why(&self) -> Option<Why>
        ensures { result ≡ self.now.why }
    {
        self.why
    }
}
