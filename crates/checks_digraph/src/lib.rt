//! The tests of `bidirected_form` and `prize_transform`.
#![tactic(auto)]

#[cfg(test)]
mod bidirected_form_tests;
#[cfg(test)]
mod prize_transform_tests;
