ghost use Rattle.std.specs.Prelude.{◌≡◌, ◌+◌, ◌<◌, ◌≤◌, length, IfOk, All};
ghost use Rattle.incumbent.specs.Least.{least_of};
ghost use Rattle.incumbent.specs.Joined.{joined};
ghost use Rattle.incumbent.specs.Seat.{fresh, all_offers};

use crate::seat::{BestSeat, Place};
use std::alloc::{AllocError, Global};
use std::marker::Model;

/// The least value that was offered so far, which seats see and lower. All memory is taken when it
/// begins.
#[derive(Drop)]
pub struct Incumbent {
    own: Place,
    seats: u32,
}

impl Model for Incumbent {
    ghost use Rattle.std.specs.Prelude.{◌≡◌, ◌+◌, []};
    ghost use Rattle.incumbent.specs.Seat.{Board};

    ghost Value = { Board };

    ghost view = { λ b. record { incumbent = b.own.incumbent; start = b.own.hand.start; seats = b.seats } };

    ghost invariant = { λ b. (b.own.hand.parts + b.seats ≡ 65) × (b.own.hand.offers ≡ []) };
}

impl Incumbent {
    /// An incumbent that begins with a value, and 1 to 64 seats at it.
    pub fn begin(
        alloc: Global,
        start: u64,
        seats: u32,
    ) -> Result<(Incumbent, Vec<BestSeat>), AllocError>
        requires few { (0 < seats) × (seats ≤ 64) }
        ensures start { IfOk result (λ r. r.0.start ≡ start) }
        ensures given { IfOk result (λ r. r.0.seats ≡ seats) }
        ensures count { IfOk result (λ r. length r.1.items ≡ seats) }
        ensures seats { IfOk result (λ r. All (λ s. s ≡ fresh r.0.incumbent start) r.1.items) }
    {
        let mut own = Place::first(alloc, start)?;
        let mut all = Vec::with_capacity(alloc, seats as usize)?;
        for _ in 0..seats {
            all.push(BestSeat::over(own.another()?))?;
        }
        Ok((Incumbent { own, seats }, all))
    }

    /// The least of the start and all offers, where all seats are handed back. No seat saw less.
    pub fn close(self, seats: Vec<BestSeat>) -> u64
        requires own { All (λ s. s.incumbent ≡ self.incumbent) seats.items }
        requires all { length seats.items ≡ self.seats }
        ensures least { result ≡ least_of self.start (all_offers seats.items) }
        ensures seen { All (λ s. result ≤ s.lowest) seats.items }
    {
        let Incumbent { mut own, .. } = self;
        take_all(&mut own, seats);
        own.see()
    }
}

// Takes in all these seats.
fn take_all(own: &mut Place, seats: Vec<BestSeat>)
    requires { All (λ s. s.incumbent ≡ own.old.incumbent) seats.items }
    ensures { own.new.hand ≡ joined own.old.hand seats.items }
{
    for seat in seats {
        own.take_in(seat.under());
    }
}
