//! The tests of `st_model` and `test_instances`.
#![tactic(auto)]

#[cfg(test)]
mod st_model_tests;
#[cfg(test)]
mod test_instances_tests;
