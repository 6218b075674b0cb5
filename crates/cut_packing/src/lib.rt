//! Directed cuts with values that bound every tree of a branch from below.
//!
//! A `Packing` that *fits* a branch of an instance weighs at most what any tree of the branch
//! costs (`weak_duality`), and so does what a proof tree of splits and packings proves
//! (`proof_tree_bounds`). `fits`, `weight`, `base_weight` and `is_full` compute the definitions of their names; a
//! caller may rely on them exactly, for every packing, whatever stands in it. What they are made of is
//! public where it doesn't know that links go both ways: arcs with what cuts lay on them, whichever they are.
//! Definitions and laws are over a *ground*: an undirected network, or one with an only root (`rooted_duality`).
#![tactic(auto)]

mod arcs;
mod cut;
mod fitting;
mod fullness;
mod law;
mod loads;
mod named;
mod packing;
mod saturated;
mod set_table;
mod shared_set;
mod weighing;

pub use arcs::{LoadedArc, LoadedArcs, can_bear};
pub use cut::Cut;
pub use fitting::{are_vertices, fits, holds};
pub use fullness::is_full;
pub use law::{proof_tree_bounds, rooted_duality, rooted_proof_tree_bounds, weak_duality};
pub use loads::{lay, lay_cuts};
pub use named::named_values;
pub use packing::Packing;
pub use saturated::heads_of;
pub use set_table::SetTable;
pub use shared_set::SharedSet;
pub use weighing::{base_weight, weight};
