//! The tests of `arborescence`.
#![tactic(auto)]

#[cfg(test)]
mod arborescence_tests;
