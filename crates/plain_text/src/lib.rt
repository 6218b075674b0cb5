//! The bytes of a plain text: what a byte cuts them into, and the numbers in decimal digits that stand in them.
//!
//! `cut_at` cuts at the first byte of a value, and answers None exactly where there is none. `number_within` reads
//! decimal digits, leading zeros and all, up to a limit. `number` reads a word that is the decimal of a number in
//! a range. A caller may rely on both directions: what is read is written so, and what is written so is read. The
//! lemmas on how a number is written stand in `proofs/Numerals.antt`, those on which bytes don't stand in it in
//! `proofs/Lacking.antt`.
#![tactic(auto)]

mod numbers;
mod pieces;

pub use numbers::{number, number_within};
pub use pieces::cut_at;
