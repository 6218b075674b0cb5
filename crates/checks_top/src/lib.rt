//! The tests of `steiner_top`.
#![tactic(auto)]

#[cfg(test)]
mod steiner_top_tests;
