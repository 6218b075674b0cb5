ghost use Rattle.std.specs.Prelude.{◌≡◌, ◌+◌, ◌<◌, ◌≤◌, ◌==◌, ◌^◌, if◌then◌else◌, nat_lt, IfOk, OnOk};
ghost use Rattle.open_ledger.specs.Rule.{IsOpenWord, IsClaimWord, IsHaltWord};
ghost use Rattle.open_ledger.specs.Tally.{both, cut_from, first_tally, newcomer, with_busy, with_down, with_grant, with_halt, with_refusal, with_sights, with_up};

use crate::rule::{Both, Claim, Cut, Down, Halt, SeeClaims, SeeHalt, SeeOpen, Sums, Tally, Up};
use atomic_table::{Seat, Table};
use std::alloc::{AllocError, Global};
use std::marker::Model;
use std::sync::Arc;

type Words = Table<(), Tally, u64, Sums, Global>;

const OPEN: usize = 0;

const CLAIMS: usize = 1;

const HALT: usize = 2;

// A seat with any number of parts.
#[derive(Drop)]
pub struct Place {
    table: Arc<Words>,
    seat: Seat<(), Tally>,
}

impl Model for Place {
    ghost use Rattle.std.specs.Prelude.{◌≡◌, ◌<◌, []};
    ghost use Rattle.open_ledger.specs.Place.{Place};

    ghost Value = { Place };

    ghost view = { λ s. record { ledger = s.table.value.shared.table_id; tally = s.seat.me.0 } };

    ghost invariant = { λ s. (s.table.value.shared.table_id.words ≡ 3)
        × (s.seat.table_id ≡ s.table.value.shared.table_id) × (s.seat.me.1 ≡ []) × (0 < s.seat.me.0.parts) };
}

impl Place {
    // The first seat of words for a budget.
    pub fn first(alloc: Global, budget: u64) -> Result<Place, AllocError>
        requires { budget < 2 ^ 63 }
        ensures { IfOk result (λ s. s.tally ≡ first_tally budget) }
    {
        let (table, seat) = Words::of_words(alloc, &[1, 0, 0], &budget)?;
        let table = Arc::new(alloc, table)?;
        Ok(Place { table, seat })
    }

    // Adds 1 to the open word.
    pub fn up(&mut self)
        ensures same { self.new.ledger ≡ self.old.ledger }
        ensures tally { self.new.tally ≡ with_up self.old.tally }
    {
        let Place { table, seat } = self;
        let words: &Words = table;
        words.shared.fetch_add::<Up>(seat, OPEN, 1);
    }

    // Takes 1 from the open word.
    pub fn down(&mut self)
        ensures same { self.new.ledger ≡ self.old.ledger }
        ensures tally { self.new.tally ≡ with_down self.old.tally }
    {
        let Place { table, seat } = self;
        let words: &Words = table;
        words.shared.fetch_sub::<Down>(seat, OPEN, 1);
    }

    // The open word.
    pub fn see_open(&mut self) -> u64
        ensures same { self.new.ledger ≡ self.old.ledger }
        ensures tally { self.new.tally ≡ with_busy self.old.tally (if result == 0 then 0 else 1) }
        ensures whole { self.old.tally.parts ≡ 65
            → IsOpenWord result self.old.tally.ups self.old.tally.downs self.old.tally.busy }
    {
        let Place { table, seat } = self;
        let words: &Words = table;
        words.shared.load::<SeeOpen>(seat, OPEN)
    }

    // Adds 1 to the claim word, and gives what it was.
    pub fn claim(&mut self) -> u64
        requires { self.old.tally.refused < self.old.tally.parts }
        ensures same { self.new.ledger ≡ self.old.ledger }
        ensures tally { self.new.tally ≡ (if nat_lt result self.old.tally.budget
            then with_grant self.old.tally else with_refusal self.old.tally) }
        ensures within { self.new.tally.granted ≤ self.old.tally.budget }
    {
        let Place { table, seat } = self;
        let words: &Words = table;
        words.shared.fetch_add::<Claim>(seat, CLAIMS, 1)
    }

    // The claim word.
    pub fn see_claims(&mut self) -> u64
        ensures same { self.new.ledger ≡ self.old.ledger }
        ensures tally { self.new.tally ≡ self.old.tally }
        ensures whole { self.old.tally.parts ≡ 65
            → IsClaimWord self.old.tally.budget result self.old.tally.granted self.old.tally.refused }
    {
        let Place { table, seat } = self;
        let words: &Words = table;
        words.shared.load::<SeeClaims>(seat, CLAIMS)
    }

    // Stores 1 in the halt word.
    pub fn halt(&mut self)
        ensures same { self.new.ledger ≡ self.old.ledger }
        ensures tally { self.new.tally ≡ with_halt self.old.tally }
    {
        let Place { table, seat } = self;
        let words: &Words = table;
        words.shared.store::<Halt>(seat, HALT, 1);
    }

    // The halt word, which is 0 or 1.
    pub fn see_halt(&mut self) -> u64
        ensures same { self.new.ledger ≡ self.old.ledger }
        ensures tally { self.new.tally ≡ with_sights self.old.tally result }
        ensures bit { result ≤ 1 }
        ensures known { 1 ≤ self.old.tally.halts + self.old.tally.sights → result ≡ 1 }
        ensures whole { self.old.tally.parts ≡ 65 → IsHaltWord result self.old.tally.halts self.old.tally.sights }
    {
        let Place { table, seat } = self;
        let words: &Words = table;
        words.shared.load::<SeeHalt>(seat, HALT)
    }

    // A seat more.
    pub fn another(&mut self) -> Result<Place, AllocError>
        requires parts { 1 < self.old.tally.parts }
        requires unclaimed { self.old.tally.refused ≡ 0 }
        ensures same { self.new.ledger ≡ self.old.ledger }
        ensures kept { OnOk result (self.new.tally ≡ cut_from self.old.tally) }
        ensures new { IfOk result (λ s. (s.ledger ≡ self.old.ledger) × (s.tally ≡ newcomer self.old.tally.budget)) }
    {
        let table = Arc::try_clone(&self.table)?;
        let Place { table: own, seat } = self;
        let words: &Words = own;
        let seat = words.shared.split_seat::<Cut>(seat);
        Ok(Place { table, seat })
    }

    // Takes in another seat.
    pub fn take_in(&mut self, other: Place)
        requires { other.ledger ≡ self.old.ledger }
        ensures same { self.new.ledger ≡ self.old.ledger }
        ensures both { self.new.tally ≡ both self.old.tally other.tally }
    {
        let Place {
            table: _,
            seat: theirs,
        } = other;
        let Place { table, seat } = self;
        let words: &Words = table;
        words.shared.join_seat::<Both>(seat, theirs);
    }
}
