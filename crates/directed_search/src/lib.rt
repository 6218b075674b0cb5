//! A best arborescence of a directed instance within a budget of nodes, by one worker, with its certificate.
//!
//! Branch and bound on vertices. A node is a branch of the search, with a packing of cuts that fits it. While
//! budget is left a node is expanded: cuts are added to its packing by dual ascent (Wong 1984). A node whose
//! packing weighs no less than the best tree costs is closed by it. Any other one is split at a vertex that its
//! trees may reach or avoid, or, where none is left, closed by a least arborescence (Chu and Liu, Edmonds).
//! Without budget a node is closed by its packing as it is. So the bound is the least that the closes weigh.
#![tactic(auto)]

ghost use Rattle.std.specs.Prelude.{IfOk};
ghost use Rattle.directed_search.specs.Found.{IsDiOutcome};

mod answering;
mod choosing;
mod expanding;
mod guessing;
mod joining;
mod open_node;
mod outcome;
mod progress;
mod running;
mod stack;
mod weighing;

use answering::{found, without_tree};
use arborescence::{DiInstance, di_wall};
pub use outcome::DiOutcome;
use std::alloc::{AllocError, Global};

/// Searches for a best tree of a directed instance, expanding at most `budget` nodes: a tree and the greatest
/// bound up to its cost that the certificate proves, in the unit of the instance's costs, or that there is no
/// tree. Where less than the budget was spent the tree is best, and so it is where the budget is 2 ^ (k + 1) at
/// least, for k vertices that are neither the root nor a terminal. The only error is want of memory.
///
/// Takes time linear in the instance and the packings for each node that is expanded, and for each cut.
pub fn solve_directed(
    alloc: Global,
    instance: &DiInstance,
    budget: u64,
) -> Result<DiOutcome, AllocError>
    ensures { IfOk result (IsDiOutcome budget instance.now) }
{
    match di_wall(alloc, instance)? {
        Some(wall) => Ok(without_tree(instance, wall)),
        None => found(alloc, instance, budget),
    }
}
