//! Runs that go on from a log: searches from the closes of its proof that weigh too little, one after
//! another, each within what is left of one budget, and the log with their proofs.
//!
//! A caller may rely on *going on*: each search is of the next close that is light at its turn, it
//! begins with the least cost known then, and it is complete and finished. And of `resume` on *resumed*:
//! the new log is accepted, it proves no less than the old one and claims no dearer tree, and where its
//! bound is below its cost the whole budget was spent.
#![tactic(auto)]

mod from_log;
mod going_on;
mod known;
mod lowering;
mod searching;

pub use from_log::{Resumed, resume};
pub use going_on::{Gone, go_on};
pub use known::Known;
pub use lowering::lowered;
pub use searching::search_from;
