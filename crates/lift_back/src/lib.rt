//! Reduction steps: they make an instance smaller, keep what its best tree costs but for an
//! offset that is known, and lead each tree of what is left back to a tree of the first instance.
//!
//! An instance under reduction is seen as a `State`: what is left of the instance, the vertices
//! that are gone, and the offset.
#![tactic(auto)]

mod chain;
mod ends;
mod law;
mod lifting;
mod reduced;
mod removing;
mod rest;
mod step;
mod undo;

pub use ends::Ends;
pub use law::{a_step_keeps_the_best, steps_keep_the_best};
pub use reduced::{ApplyError, Reduced};
pub use step::Step;
