// The rule of the word, and what its steps tell.
ghost use Rattle.std.specs.Prelude.{◌+◌, ◌-◌, []};
ghost use Rattle.incumbent.specs.Rule.{IsKept, hand, first_hand, newcomer, both, saw, offered};

use atomic_table::{Join, Play, Split, TableRule};
use std::collections::LinkedList;

// What a seat knows: its parts of the right to know all offers, the start, its offers, and the
// least that it has seen or offered. No value of it is made.
pub struct Hand {
    pub parts: u64,
    pub start: u64,
    pub offers: LinkedList<u64>,
    pub lowest: u64,
}

// The word is the least of the start and all offers.
pub struct Least;

impl TableRule<(), Hand, u64> for Least {
    ghost holds = { λ start s. IsKept start s.words s.views };

    ghost first = { first_hand };
}

// A load.
pub struct Look;

impl Play<(), Hand> for Look {
    ghost then = { λ st me found w. saw me.0 found w };
}

// An offer.
pub struct Offer;

impl Play<(), Hand> for Offer {
    ghost then = { λ st me found w. offered me.0 st.first found w };
}

// A part for a seat that comes.
pub struct Cut;

impl Split<Hand> for Cut {
    ghost left = { λ v. hand (v.parts - 1) v.start v.offers v.lowest };

    ghost right = { λ v. newcomer v.start };
}

// Two seats as one.
pub struct Both;

impl Join<Hand> for Both {
    ghost both = { both };

    ghost spent = { hand 0 0 [] 0 };
}
