//! How many nodes are open, how many units of a budget were claimed, and whether somebody halted:
//! three words that threads share without a lock.
//!
//! A `Ledger` hands out seats, one for each worker. Each call on a seat is one atomic step on one
//! word. Between any two steps the open word is 1 and all ups less all downs, the claim word counts
//! the claims, and the halt word is 1 exactly where somebody halted. `close` takes all seats back
//! and tells what is open and what was claimed.
#![tactic(auto)]

mod ledger;
mod place;
mod rule;
mod seat;
mod why;

pub use ledger::{Ledger, Totals};
pub use seat::LedgerSeat;
pub use why::Why;
