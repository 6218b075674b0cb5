ghost use Rattle.std.specs.Prelude.{◌≡◌, ◌≤◌, IfOk};
ghost use Rattle.st_model.specs.Arborescence.{IsTree, cost};
ghost use Rattle.st_model.specs.Branch.{IsBranch, ReachesAsTold};
ghost use Rattle.tree_heuristic.specs.Leaves.{NoLeafToSpare};

use crate::kept::Kept;
use st_model::{Instance, Sides, Tree};
use std::alloc::{AllocError, Global};

/// A tree that reaches what the branch says and costs no more than the one that is given, and of
/// which no leaf that is neither required nor inside pays less than its link costs. It takes a time
/// linear in the vertices.
pub fn prune(
    alloc: Global,
    instance: &Instance,
    branch: &Sides,
    tree: Tree,
) -> Result<Tree, AllocError>
    requires branch { IsBranch instance.now branch.now }
    requires tree { IsTree instance.now tree }
    requires reaches { ReachesAsTold branch.now tree }
    ensures tree { IfOk result (IsTree instance.now) }
    ensures reaches { IfOk result (ReachesAsTold branch.now) }
    ensures cost { IfOk result (λ new. cost instance.now new ≤ cost instance.now tree) }
    ensures leaves { IfOk result (NoLeafToSpare instance.now branch.now) }
{
    let mut kept = Kept::of(alloc, instance, branch, tree)?;
    kept.trim(instance, branch);
    Ok(kept.into_tree())
}
