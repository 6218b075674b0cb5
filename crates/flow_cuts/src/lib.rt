//! The set round a vertex that the fewest arcs enter.
//!
//! `fewest` gives, among the sets that hold a vertex and not the root and that are entered only by
//! arcs of which something remains, one that no other beats in the number of arcs that enter it.
//! A caller may rely on that, and on None exactly where there is no such set.
#![tactic(auto)]

mod flow;
mod least;
mod searching;
mod sending;

pub use least::fewest;
