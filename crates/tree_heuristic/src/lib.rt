//! Trees that are found fast, and walls, which show that there is none.
//!
//! `first_tree` finds a tree in a graph under change that reaches what a branch says, whatever the
//! branch says of links, `wall` a set of vertices that keeps required ones apart, and `prune` takes
//! leaves off that aren't worth their links. A caller may rely on both ways: what is found is a tree
//! that reaches what the branch says, and else there is none.
#![tactic(auto)]

mod certain;
mod first;
mod growing;
mod kept;
mod listing;
mod pruning;
mod spread;
mod walls;

pub use first::{first_tree, guided_tree};
pub use pruning::prune;
pub use walls::{store_wall, wall};
