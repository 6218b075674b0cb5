//! The links between present vertices as pairs of arcs, with what remains of each arc's cost.
//!
//! `Arcs` is seen as a root, what each vertex is, and the arcs into each vertex. A caller may rely
//! on each call's clause for every arc: `of` gives both arcs of each link that isn't barred its
//! cost, `charge` lowers exactly those that enter a set, `give_back` raises just these again, and
//! each call takes time in what it touches.
#![tactic(auto)]

mod arc;
mod arcs;
mod building;
mod change;
mod entering;
mod kind;
mod marks;
mod rows;

pub use arc::Arc;
pub use arcs::Arcs;
pub use kind::VertexKind;
