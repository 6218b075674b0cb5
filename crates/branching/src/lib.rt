//! Nodes of the search: a branch that is still to be worked on, with a packing that fits it; where
//! it may be split, and its halves.
//!
//! A caller may rely on *is a node* of each half of a node, whose packing weighs no less: the law
//! `halves_are_no_lighter`.
#![tactic(auto)]

mod choosing;
mod halving;
mod law;
mod node;

pub use choosing::{choose, may_split, may_split_at};
pub use halving::{halves, halves_at, halves_link};
pub use law::halves_are_no_lighter;
pub use node::Node;
