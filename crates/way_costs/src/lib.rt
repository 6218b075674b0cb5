//! What links and ways cost, as moves see it that make a tree cheaper.
//!
//! A `MoveGraph` is a graph under change with a branch of trees in it: the links of each vertex by what they cost, and
//! what it is worth to reach a vertex. A `Noise` on costs breaks ties between ways that cost the same. `Bounds` say
//! what ways cost at least that join both sides of a link of a tree without it. All of it says where to look, and no
//! promise depends on it: what is laid out is judged.
#![tactic(auto)]

mod bounds;
mod by_vertex;
mod move_graph;
mod noise;
mod regions;

pub use bounds::Bounds;
pub use by_vertex::ByVertex;
pub use move_graph::MoveGraph;
pub use noise::Noise;
