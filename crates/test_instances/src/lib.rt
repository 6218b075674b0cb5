//! Instances for the tests of the crates above: by name, with the cost of a cheapest tree, and
//! drawn ones that look random.
//!
//! A caller may rely on the network that the clause of a named instance tells, and on the ranges
//! of what a `Draws` gives, which is the same in each run.
#![tactic(auto)]

mod draws;
mod named;
mod subsets;

pub use draws::Draws;
pub use named::{link, links_of_triangle, odd_wheel, pair, triangle_with_centre};
pub use subsets::{bit, cost_of_set};
