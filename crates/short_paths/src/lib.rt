//! Distances from many sources in a graph under change, within a limit, and paths of that cost;
//! and trees that are laid out along links and paths.
//!
//! `from_many` settles the vertices in order of their distance (Dijkstra 1959). A caller may rely
//! on its clause for every vertex: a distance and a path of that cost where some walk from a
//! source costs at most the limit, and nothing where none does. `at` and `path_to` read them off,
//! and `sources` says where each path begins. A `Laid` goes along links and paths, each from what
//! it reaches, and takes an arc wherever that leads on.
#![tactic(auto)]

mod distances;
mod laid;
mod mark;
mod queue;
mod search;
mod settled;
mod sources;

pub use distances::{Distances, from_many};
pub use laid::Laid;
