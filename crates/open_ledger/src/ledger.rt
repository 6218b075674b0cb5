ghost use Rattle.std.specs.Prelude.{◌≡◌, ◌+◌, ◌%◌, ◌^◌, ◌<◌, ◌≤◌, length, min, IfOk, All};
ghost use Rattle.open_ledger.specs.Seat.{fresh, ups_of, downs_of, granted_of, refused_of, halts_of, sights_of, SaysWhy, SomeSaysWhy};
ghost use Rattle.open_ledger.specs.Joined.{joined};

use crate::place::Place;
use crate::seat::LedgerSeat;
use std::alloc::{AllocError, Global};
use std::marker::Model;

/// What a ledger comes to.
#[derive(Debug, Clone, Copy, PartialEq, Eq, Drop)]
pub struct Totals {
    /// How many nodes are open.
    pub opened: u64,
    /// How many claims were granted.
    pub claimed: u64,
}

/// The open nodes, the claims and the halt of a search, which seats see and change. All memory is
/// taken when it begins.
#[derive(Drop)]
pub struct Ledger {
    own: Place,
    budget: u64,
    seats: u32,
}

impl Model for Ledger {
    ghost use Rattle.std.specs.Prelude.{◌≡◌, ◌+◌};
    ghost use Rattle.open_ledger.specs.Ledger.{Ledger, IsUntouched};

    ghost Value = { Ledger };

    ghost view = { λ b. record { ledger = b.own.ledger; budget = b.budget; seats = b.seats } };

    ghost invariant = { λ b. IsUntouched b.own.tally b.budget b.seats };
}

impl Ledger {
    /// A ledger for a budget, below 2^63, with one open node, and 1 to 64 seats at it.
    pub fn begin(
        alloc: Global,
        budget: u64,
        seats: u32,
    ) -> Result<(Ledger, Vec<LedgerSeat>), AllocError>
        requires small { budget < 2 ^ 63 }
        requires few { (0 < seats) × (seats ≤ 64) }
        ensures budget { IfOk result (λ r. r.0.budget ≡ budget) }
        ensures given { IfOk result (λ r. r.0.seats ≡ seats) }
        ensures count { IfOk result (λ r. length r.1.items ≡ seats) }
        ensures seats { IfOk result (λ r. All (λ s. s ≡ fresh r.0.ledger budget) r.1.items) }
    {
        let mut own = Place::first(alloc, budget)?;
        let mut all = Vec::with_capacity(alloc, seats as usize)?;
        for _ in 0..seats {
            all.push(LedgerSeat::over(own.another()?, budget))?;
        }
        Ok((Ledger { own, budget, seats }, all))
    }

    /// What is open and what was claimed, where all seats are handed back: the open nodes are one
    /// and all ups less all downs, modulo 2^64, and none where each seat's last step on the open word
    /// saw 0; the claims granted are as many as the budget has, if there were so many. Where a seat
    /// saw a halt, some seat halted and says why.
    pub fn close(self, seats: Vec<LedgerSeat>) -> Totals
        requires own { All (λ s. s.ledger ≡ self.ledger) seats.items }
        requires all { length seats.items ≡ self.seats }
        ensures opened { (result.opened + downs_of seats.items) % 2 ^ 64 ≡ (1 + ups_of seats.items) % 2 ^ 64 }
        ensures idle { All (λ s. s.tally.busy ≡ 0) seats.items → result.opened ≡ 0 }
        ensures claimed { result.claimed ≡ granted_of seats.items }
        ensures within { result.claimed ≡ min self.budget (granted_of seats.items + refused_of seats.items) }
        ensures halted { 0 < sights_of seats.items → 0 < halts_of seats.items }
        ensures why { 0 < sights_of seats.items → SomeSaysWhy seats.items }
    {
        let Ledger {
            mut own,
            budget,
            ..
        } = self;
        take_all(&mut own, seats);
        let opened = own.see_open();
        let claimed = own.see_claims().min(budget);
        own.see_halt();
        Totals { opened, claimed }
    }
}

// Takes in all these seats.
fn take_all(own: &mut Place, seats: Vec<LedgerSeat>)
    requires { All (λ s. s.ledger ≡ own.old.ledger) seats.items }
    ensures joined { own.new.tally ≡ joined own.old.tally seats.items }
    ensures parts { own.new.tally.parts ≡ own.old.tally.parts + length seats.items }
    ensures why { All SaysWhy seats.items }
{
    for seat in seats {
        own.take_in(seat.under());
    }
}
