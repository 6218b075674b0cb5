//! The tests of `cut_packing` and `level_packing`.
#![tactic(auto)]

#[cfg(test)]
mod cut_packing_tests;
#[cfg(test)]
mod level_packing_tests;
#[cfg(test)]
mod told;
