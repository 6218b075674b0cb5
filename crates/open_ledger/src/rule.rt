// The rule of the words, and what their steps tell.
ghost use Rattle.open_ledger.specs.Rule.{IsKept, upped, downed, saw_open, claimed, saw_claims, halted, saw_halt};
ghost use Rattle.open_ledger.specs.Tally.{first_tally, cut_from, newcomer, both, spent};

use atomic_table::{Join, Play, Split, TableRule};

// What a seat knows: its parts of the right to know all counts, the budget, and what was done on
// it. Each field but `budget` adds up over the seats. No value of it is made.
pub struct Tally {
    pub budget: u64,
    pub parts: u64,
    pub ups: u64,
    pub downs: u64,
    // 1 unless the seat's last step on the open word saw 0 there
    pub busy: u64,
    pub granted: u64,
    pub refused: u64,
    pub halts: u64,
    // how often the seat saw that somebody halted
    pub sights: u64,
}

// The words are what the seats' counts add up to.
pub struct Sums;

impl TableRule<(), Tally, u64> for Sums {
    ghost holds = { λ budget s. IsKept budget s.words s.views };

    ghost first = { first_tally };
}

pub struct Up;

impl Play<(), Tally> for Up {
    ghost then = { λ st me found w. upped me.0 w };
}

pub struct Down;

impl Play<(), Tally> for Down {
    ghost then = { λ st me found w. downed me.0 w };
}

pub struct SeeOpen;

impl Play<(), Tally> for SeeOpen {
    ghost then = { λ st me found w. saw_open me.0 found w };
}

pub struct Claim;

impl Play<(), Tally> for Claim {
    ghost then = { λ st me found w. claimed me.0 found w };
}

pub struct SeeClaims;

impl Play<(), Tally> for SeeClaims {
    ghost then = { λ st me found w. saw_claims me.0 found w };
}

pub struct Halt;

impl Play<(), Tally> for Halt {
    ghost then = { λ st me found w. halted me.0 w };
}

pub struct SeeHalt;

impl Play<(), Tally> for SeeHalt {
    ghost then = { λ st me found w. saw_halt me.0 found w };
}

// A part for a seat that comes.
pub struct Cut;

impl Split<Tally> for Cut {
    ghost left = { cut_from };

    ghost right = { λ v. newcomer v.budget };
}

// Two seats as one.
pub struct Both;

impl Join<Tally> for Both {
    ghost both = { both };

    ghost spent = { spent };
}
