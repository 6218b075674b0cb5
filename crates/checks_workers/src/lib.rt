//! The tests of `node_work` and `worker_loop`.
#![tactic(auto)]

#[cfg(test)]
mod node_work_tests;
#[cfg(test)]
mod worker_loop_tests;
