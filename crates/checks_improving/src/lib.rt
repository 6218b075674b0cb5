//! The tests of `way_costs`, `local_search` and `better_trees`.
#![tactic(auto)]

#[cfg(test)]
mod better_trees_tests;
#[cfg(test)]
mod local_search_tests;
#[cfg(test)]
mod shared;
#[cfg(test)]
mod way_costs_tests;
