//! Detours: walks that stand in for a link of a graph under change.
//!
//! `detour` gives the inner vertices of a detour for a link, and None exactly where there is none:
//! they may be applied as a step of a reduction. A `Finder` does the same for many links one after
//! another, without memory that is linear in the graph for each, and may give up where a search
//! goes on for long.
#![tactic(auto)]

mod finder;
mod found;
mod quest;
mod search;
mod walk_back;

pub use finder::{Finder, detour};
pub use found::Found;
