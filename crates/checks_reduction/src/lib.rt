//! The tests of `lift_back` and `reductions`.
#![tactic(auto)]

#[cfg(test)]
mod lift_back_tests;
#[cfg(test)]
mod reductions_tests;
