//! The tests of `cert_checker`.
#![tactic(auto)]

#[cfg(test)]
mod cert_checker_tests;
