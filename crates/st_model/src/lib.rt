//! Instances of the Steiner tree problem in graphs, trees in them, and what a tree costs.
//!
//! An `Instance` is seen as a network: its vertices, one link for each pair that is joined, and
//! what each vertex needs. `is_tree` and `tree_cost` compute the definitions *tree* and *cost*,
//! on which every promise of this repository rests. A caller may rely on `is an instance`: ends
//! are different vertices, no pair stands twice, and all that can be paid stays below 2^63.
#![tactic(auto)]

mod branch;
mod build;
mod cost;
mod instance;
mod judge;
mod law;
mod link;
mod listed;
mod need;
mod regrowing;
mod sides;
mod split_at;
mod thinning;
mod tree;
mod vertex_lists;
mod vertex_set;
mod walking;

pub use branch::Branch;
pub use cost::tree_cost;
pub use instance::{Instance, MAX_VERTICES};
pub use law::{halves_share_the_trees, lone_starts_miss_the_rest};
pub use link::Link;
pub use listed::Listed;
pub use need::Need;
pub use regrowing::{RegrowError, regrow, regrowing_keeps_trees};
pub use sides::Sides;
pub use split_at::SplitAt;
pub use thinning::thin;
pub use tree::{Tree, is_tree};
pub use vertex_lists::VertexLists;
pub use vertex_set::VertexSet;
pub use walking::walk;
