//! The tests of `directed_search`.
#![tactic(auto)]

#[cfg(test)]
mod directed_search_tests;
