//! The search for reduction steps.
//!
//! `reduce` takes steps of an instance until none is left of those that make a vertex go; where the
//! instance isn't large, until no detour is left either. A caller may rely on its clauses: the steps
//! apply one after another, and what is left admits no more of these kinds.
#![tactic(auto)]

mod reducing;
mod work;

pub use reducing::reduce;
