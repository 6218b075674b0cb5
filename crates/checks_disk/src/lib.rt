//! The tests of `st_edge` and `instance_gen`.
#![tactic(auto)]

#[cfg(test)]
mod instance_gen_tests;
#[cfg(test)]
mod st_edge_tests;
