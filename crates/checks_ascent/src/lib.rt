//! The tests of `dual_ascent`.
#![tactic(auto)]

#[cfg(test)]
mod dual_ascent_tests;
