//! Directed instances: arborescences from a root that reach all terminals, and what bounds their cost.
//!
//! A `DiInstance` is seen as a directed network: its vertices, its root, one arc for each ordered pair of
//! vertices between which one leads, and its terminals. All that is judged here is judged by the definitions
//! of trees, packings and fullness that undirected instances have, over the ground of the network: arcs cost
//! what they cost in their own direction, the terminals and the root have to be reached, nobody pays, and
//! cuts have the root alone.
#![tactic(auto)]

mod ascending;
mod ascent;
mod build;
mod closing;
mod entering;
mod first;
mod fitting;
mod fullness;
mod gathering;
mod instance;
mod judge;
mod law;
mod leaf;
mod loads;
mod pruning;
mod raising;
mod smallest;
mod spreading;
mod walls;
mod weighing;

pub use ascending::di_ascend;
pub use ascent::DiAscent;
pub use closing::di_close_all;
pub use first::di_first_tree;
pub use fitting::di_fits;
pub use fullness::di_is_full;
pub use instance::DiInstance;
pub use judge::{di_cost, di_is_tree};
pub use law::{directed_words, packings_bound, walls_leave_no_tree};
pub use leaf::DiLeaf;
pub use loads::free_arcs;
pub use walls::di_wall;
pub use weighing::di_weight;
