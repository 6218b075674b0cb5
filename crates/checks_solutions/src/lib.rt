//! The tests of `solution_reader`.
#![tactic(auto)]

#[cfg(test)]
mod solution_reader_tests;
