//! Lemmas on the views of seats that share a table: places in a list of views, and sums over it.
//!
//! Nothing here runs. The crates over `atomic_table` and `crossbeam_deque` count what each seat did
//! by sums over the views of all seats, and cite these lemmas in their proofs.
#![tactic(auto)]
