//! The tests of `branching` and `search_core`.
#![tactic(auto)]

#[cfg(test)]
mod branching_tests;
#[cfg(test)]
mod search_core_tests;
