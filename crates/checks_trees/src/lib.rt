//! The tests of `graph_store`, `tree_heuristic` and `twice_tree`.
#![tactic(auto)]

#[cfg(test)]
mod graph_store_tests;
#[cfg(test)]
mod tree_heuristic_tests;
#[cfg(test)]
mod twice_tree_tests;
