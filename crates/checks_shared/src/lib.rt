//! The tests of `incumbent`, `open_ledger` and `node_pool`.
#![tactic(auto)]

#[cfg(test)]
mod incumbent_tests;
#[cfg(test)]
mod node_pool_tests;
#[cfg(test)]
mod open_ledger_tests;
