//! Least spanning trees of a branch in which nothing is left to decide, shown least by a packing.
//!
//! `close_all` grows clusters along the links in ascending order of cost (Kruskal 1956) and cuts
//! each cluster off from the root before it is joined, so that the cuts weigh what the tree costs:
//! by weak duality no tree of the branch is cheaper. Links that are barred are left out, and those that
//! are a must cost nothing meanwhile, so that they weigh in whole. Where the present vertices aren't
//! connected, one cut of any weight round a cluster says so.
#![tactic(auto)]

mod ascending;
mod close;
mod forest;
mod leaf;
mod present;
mod search;
mod settled;

pub use close::close_all;
pub use leaf::Leaf;
