ghost use Rattle.std.specs.Prelude.{ℕ, IfOk};
ghost use Rattle.st_model.specs.declared.tree.Tree.{Tree as TreeSpec};
ghost use Rattle.st_model.specs.Arborescence.{IsTreeIn};
ghost use Rattle.st_model.specs.Branch.{IsVertexSet};
ghost use Rattle.arborescence.specs.DiNetwork.{di_ground};
ghost use Rattle.arborescence.specs.DiWall.{IsDiWall};
ghost use Rattle.directed_search.specs.Found.{IsDiOutcome};

use crate::guessing::pruned;
use crate::outcome::DiOutcome;
use crate::progress::Progress;
use crate::running::run;
use arborescence::{DiInstance, di_first_tree};
use log_format::{Claim, Log, Version};
use st_model::{Branch, Listed, Sides, Tree};
use std::alloc::{AllocError, Global};

// There is no tree, since a wall keeps a terminal from the root.
pub fn without_tree(instance: &DiInstance, wall: Vec<u32>) -> DiOutcome
    requires wall { IsDiWall instance.now wall.items }
    requires set { IsVertexSet instance.now.n wall.items }
    ensures { (nodes : ℕ) → IsDiOutcome nodes instance.now result }
{
    prove!(instance.vertices() <= 1_000_000);
    DiOutcome::NoTree {
        certificate: Log {
            version: Version::Two,
            claim: Claim::NoTree {
                wall: Listed::of(wall),
            },
        },
    }
}

// What a search finds where there is a tree.
pub fn found(alloc: Global, instance: &DiInstance, budget: u64) -> Result<DiOutcome, AllocError>
    requires some { (t : TreeSpec) × IsTreeIn (di_ground instance.now) t }
    ensures { IfOk result (IsDiOutcome budget instance.now) }
{
    let tree = first_tree(alloc, instance)?;
    let guess = pruned(alloc, instance, tree.arcs.as_slice())?;
    let mut progress = Progress::begin(alloc, instance, tree, budget);
    progress.try_tree(alloc, instance, guess)?;
    run(alloc, instance, &mut progress)?;
    progress.into_outcome(alloc, instance)
}

// A first tree.
fn first_tree(alloc: Global, instance: &DiInstance) -> Result<Tree, AllocError>
    requires some { (t : TreeSpec) × IsTreeIn (di_ground instance.now) t }
    ensures { IfOk result (IsTreeIn (di_ground instance.now)) }
{
    let branch = Sides::of(alloc, Branch::all(alloc))?;
    match di_first_tree(alloc, instance, &branch)? {
        Some(tree) => Ok(tree),
        None => unreachable!(),
    }
}
