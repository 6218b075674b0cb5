//! An end for each vertex that may be left out for a prize, with what is left of that prize.
//!
//! `Twins` is seen as the ends and what is left for each vertex. A caller may rely on the ends'
//! numbers, which go on from the last vertex in the order of the vertices, and on each charge
//! lowering one number and nothing else, which giving back raises again.
#![tactic(auto)]

mod sets;
mod twins;

pub use twins::Twins;
