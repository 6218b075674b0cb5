//! The log that certifies a search: of the tree that it found, of the steps that were taken before
//! it, and of the proof tree that is read off what was gathered.
//!
//! A caller may rely on *assembled*: the log is accepted of the first instance, and its bound is
//! the greatest that its proof shows, up to the cost of its tree. `proof_lines` is of use to who puts
//! that proof tree into another one.
#![tactic(auto)]

mod assembling;
mod bound;
mod lines;
mod standings;

pub use assembling::assemble;
pub use lines::proof_lines;
