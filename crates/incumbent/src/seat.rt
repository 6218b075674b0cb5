ghost use Rattle.std.specs.Prelude.{◌≡◌, ◌+◌, ◌-◌, ◌<◌, ◌≤◌, ◌∷◌, ◌++◌, [], min, IfOk, OnOk, OnErr};
ghost use Rattle.incumbent.specs.Least.{least_of};
ghost use Rattle.incumbent.specs.Rule.{hand, first_hand, newcomer, both};
ghost use Rattle.incumbent.specs.Seat.{known_as, having_seen, having_offered};

use crate::rule::{Both, Cut, Hand, Least, Look, Offer};
use atomic_table::{Seat, Table};
use std::alloc::{AllocError, Global};
use std::marker::Model;
use std::sync::Arc;

type Word = Table<(), Hand, u64, Least, Global>;

// A seat with any number of parts.
#[derive(Drop)]
pub struct Place {
    table: Arc<Word>,
    seat: Seat<(), Hand>,
}

impl Model for Place {
    ghost use Rattle.std.specs.Prelude.{◌≡◌, ◌<◌, []};
    ghost use Rattle.incumbent.specs.Place.{Place};

    ghost Value = { Place };

    ghost view = { λ s. record { incumbent = s.table.value.shared.table_id; hand = s.seat.me.0 } };

    ghost invariant = { λ s. (s.table.value.shared.table_id.words ≡ 1)
        × (s.seat.table_id ≡ s.table.value.shared.table_id) × (s.seat.me.1 ≡ []) × (0 < s.seat.me.0.parts) };
}

impl Place {
    // The first seat of a word that begins with this value.
    pub fn first(alloc: Global, start: u64) -> Result<Place, AllocError>
        ensures { IfOk result (λ s. s.hand ≡ first_hand start) }
    {
        let (table, seat) = Word::of_words(alloc, &[start], &start)?;
        let table = Arc::new(alloc, table)?;
        Ok(Place { table, seat })
    }

    // The word.
    pub fn see(&mut self) -> u64
        ensures at_most { result ≤ self.old.hand.lowest }
        ensures same { self.new.incumbent ≡ self.old.incumbent }
        ensures hand { self.new.hand ≡ hand self.old.hand.parts self.old.hand.start self.old.hand.offers result }
        ensures whole { self.old.hand.parts ≡ 65 → result ≡ least_of self.old.hand.start self.old.hand.offers }
    {
        let Place { table, seat } = self;
        let word: &Word = table;
        word.shared.load::<Look>(seat, 0)
    }

    // Makes the word the less of it and the value, and gives that.
    pub fn offer(&mut self, value: u64) -> u64
        ensures at_most { result ≤ min self.old.hand.lowest value }
        ensures same { self.new.incumbent ≡ self.old.incumbent }
        ensures hand { self.new.hand
            ≡ hand self.old.hand.parts self.old.hand.start (self.old.hand.offers ++ value ∷ []) result }
    {
        let Place { table, seat } = self;
        let word: &Word = table;
        let found = word.shared.fetch_min::<Offer>(seat, 0, value);
        found.min(value)
    }

    // A seat more.
    pub fn another(&mut self) -> Result<Place, AllocError>
        requires { 1 < self.old.hand.parts }
        ensures same { self.new.incumbent ≡ self.old.incumbent }
        ensures kept { OnOk result (self.new.hand
            ≡ hand (self.old.hand.parts - 1) self.old.hand.start self.old.hand.offers self.old.hand.lowest) }
        ensures new { IfOk result (λ s. (s.incumbent ≡ self.old.incumbent) × (s.hand ≡ newcomer self.old.hand.start)) }
    {
        let table = Arc::try_clone(&self.table)?;
        let Place { table: own, seat } = self;
        let word: &Word = own;
        let seat = word.shared.split_seat::<Cut>(seat);
        Ok(Place { table, seat })
    }

    // Takes in another seat.
    pub fn take_in(&mut self, other: Place)
        requires { other.incumbent ≡ self.old.incumbent }
        ensures same { self.new.incumbent ≡ self.old.incumbent }
        ensures both { self.new.hand ≡ both self.old.hand other.hand }
    {
        let Place {
            table: _,
            seat: theirs,
        } = other;
        let Place { table, seat } = self;
        let word: &Word = table;
        word.shared.join_seat::<Both>(seat, theirs);
    }
}

/// One worker's seat at an incumbent. No call on it waits, takes memory or tries again.
#[derive(Drop)]
pub struct BestSeat {
    place: Place,
}

impl Model for BestSeat {
    ghost use Rattle.std.specs.Prelude.{◌≡◌};
    ghost use Rattle.incumbent.specs.Seat.{Known, known_as};

    ghost Value = { Known };

    ghost view = { λ s. known_as s.place.incumbent s.place.hand };

    ghost invariant = { λ s. s.place.hand.parts ≡ 1 };
}

impl BestSeat {
    // The seat over a place with one part.
    pub(crate) fn over(place: Place) -> BestSeat
        requires { place.hand.parts ≡ 1 }
        ensures { result ≡ known_as place.incumbent place.hand }
    {
        BestSeat { place }
    }

    // The place under the seat.
    pub(crate) fn under(self) -> Place
        ensures one { result.hand.parts ≡ 1 }
        ensures same { self ≡ known_as result.incumbent result.hand }
    {
        self.place
    }

    /// The word: at most the start and all that this seat has seen or offered.
    pub fn see(&mut self) -> u64
        ensures at_most { result ≤ self.old.lowest }
        ensures seen { self.new ≡ having_seen self.old result }
    {
        self.place.see()
    }

    /// Offers a value: the word becomes the less of it and the value, which is the answer.
    pub fn offer(&mut self, value: u64) -> u64
        ensures at_most { result ≤ min self.old.lowest value }
        ensures offered { self.new ≡ having_offered self.old value result }
    {
        self.place.offer(value)
    }
}
