//! The tests of `short_paths`, `few_terminals`, `special_dist` and `flow_cuts`.
#![tactic(auto)]

#[cfg(test)]
mod few_terminals_tests;
#[cfg(test)]
mod flow_cuts_tests;
#[cfg(test)]
mod short_paths_tests;
#[cfg(test)]
mod special_dist_tests;
