//! A graph that changes: an instance, and which of its vertices are present.
//!
//! A `Store` is seen as a network and a mark for each vertex. A caller may rely on each call's
//! clause for the whole graph: what it changes, and that all else is as before. After a removal
//! the links stand in a free order; no other call moves a link. What is kept of a link is found
//! by its ends in constant expected time.
#![tactic(auto)]

mod building;
mod half;
mod joints;
mod links;
mod lists;
mod store;
mod whole;

pub use half::Half;
pub use store::Store;
pub use whole::Whole;
