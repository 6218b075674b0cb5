//! The least value that was offered, as one word that threads share without a lock.
//!
//! An `Incumbent` begins with a start value and hands out seats. A seat sees the word and offers
//! values to it, each in one atomic step. Between any two steps the word is the least of the start
//! and all offers of all seats; `close`, which takes all seats back, gives that number.
#![tactic(auto)]

mod board;
mod rule;
mod seat;

pub use board::Incumbent;
pub use seat::BestSeat;
