//! Looks for trees that reach what a branch says and cost less than the incumbent: over saturated arcs,
//! along random weights, and on walks over trees that cost the same, several side by side. Of a tree that is
//! answered callers may rely on that it reaches what the branch says, whatever the branch says of links, and
//! costs less; nothing is claimed of whether one is found, and what is drawn is the same for the same seed.
#![tactic(auto)]

mod bettering;
pub mod by_vertex;
mod candidate;
mod comparing;
mod distances;
mod draws;
mod effort;
mod elite;
mod growing;
mod incumbent;
mod key_vertices;
mod means;
mod narrowing;
mod place;
mod price;
mod sampling;
mod saturated;
mod trees;
mod walk;
mod wandering;

pub use bettering::better_tree;
pub use comparing::{gap, later, least_after, priced, tree_of};
pub use distances::near_root;
pub use draws::Draws;
pub use effort::Effort;
pub use elite::Elite;
pub use incumbent::Incumbent;
pub use key_vertices::KeyVertices;
pub use means::Means;
pub use narrowing::narrowed;
pub use place::Place;
pub use price::Priced;
pub use sampling::random_tree;
pub use trees::{Trees, trees_at};
pub use wandering::wandered_tree;
