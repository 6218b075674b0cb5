//! A local search that makes Steiner trees cheaper.
//!
//! `improve` changes a tree by moves until none of them gains: the least spanning tree of what is
//! reached, branches that aren't worth their links taken off, vertices put in, key paths exchanged,
//! and key vertices taken out (Uchoa and Werneck 2010, Fast local search for Steiner trees in
//! graphs), but for moves of which bounds show that they gain nothing. A caller may rely on what
//! comes out: a tree that costs no more and reaches what the branch says, whatever the branch says
//! of links. `wander` moves on among trees that cost the same before it improves one, and owes the
//! same. A tree that was found elsewhere is judged by `judged`. Which moves are tried, and in which
//! order, is free: what they lay out is judged.
#![tactic(auto)]

mod branches;
mod draft;
mod exchanging;
mod improving;
mod inserting;
mod joins;
mod judging;
mod key_paths;
mod search;
mod spanning;
mod wandering;

pub use improving::improve;
pub use judging::judged;
pub use wandering::wander;
