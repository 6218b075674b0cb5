//! What a search needs that goes on from a log: the closes of its proof that weigh too little, and the
//! log with the proofs of the searches that went on from them.
//!
//! A caller may rely on *next below*: `Closes` finds each light close, at its turn, with its branch,
//! its packing and its number. Of `graft` it may rely on *graft*: the new log's proof is the old one
//! with what stands for its closes, it is accepted, and its bound is the greatest that it shows. What
//! stands for a close is the proof of a search of it, unless that has a lighter close (`grafted_weighs`).
#![tactic(auto)]

mod closes;
mod grafts;
mod growing;
mod law;
mod open;
mod written;

pub use closes::{Closes, open_closes};
pub use grafts::graft;
pub use law::{grafted_proves, grafted_weighs};
