ghost use Rattle.std.specs.Prelude.{◌≤◌, IfOk, IfSome, IfNone};
ghost use Rattle.st_model.specs.declared.tree.Tree.{Tree as Grown};
ghost use Rattle.st_model.specs.Arborescence.{IsTree, cost};
ghost use Rattle.st_model.specs.Branch.{IsBranch, NoneIsCertain, ReachesAsTold};
ghost use Rattle.st_model.specs.Lists.{sum_to};
ghost use Rattle.st_model.specs.Network.{pays};
ghost use Rattle.st_model.specs.Wall.{IsWall};
ghost use Rattle.log_format.specs.Text.{IsWritableSet};

use graph_store::{Store, Whole};
use local_search::improve;
use st_model::{Instance, Sides, Tree, lone_starts_miss_the_rest};
use std::alloc::{AllocError, Global};
use tree_heuristic::{first_tree, prune, store_wall};

/// A wall of an instance that has no tree.
pub fn wall_of(alloc: Global, instance: &Instance) -> Result<Option<Vec<u32>>, AllocError>
    ensures wall { IfOk result (λ found. IfSome found (λ wall. IsWall instance.now wall.items)) }
    ensures set { IfOk result (λ found. IfSome found (λ wall. IsWritableSet wall.items)) }
    ensures none { IfOk result (λ found. IfNone found ((t : Grown) × IsTree instance.now t)) }
{
    let store = Store::of(alloc, instance)?;
    let wall = store_wall(alloc, &store)?;
    Ok(wall)
}

/// A tree of a branch that has one, from which a search may start.
pub fn start_tree(alloc: Global, whole: &Whole, branch: &Sides) -> Result<Tree, AllocError>
    requires branch { IsBranch whole.now.instance branch.now }
    requires some { (t : Grown) × IsTree whole.now.instance t × ReachesAsTold branch.now t }
    ensures tree { IfOk result (IsTree whole.now.instance) }
    ensures reaches { IfOk result (ReachesAsTold branch.now) }
    // Where nobody has to be reached, it is no dearer than leaving everybody out.
    ensures cheap { IfOk result (λ tree. NoneIsCertain whole.now.instance branch.now
        → cost whole.now.instance tree ≤ sum_to (pays whole.now.instance) whole.now.instance.n) }
{
    lone_starts_miss_the_rest();
    prove!(1 <= whole.instance.vertices());
    match first_tree(alloc, &whole.store, branch)? {
        Some(tree) => {
            let pruned = prune(alloc, &whole.instance, branch, tree)?;
            improve(alloc, whole, branch, pruned)
        }
        None => unreachable!(),
    }
}
