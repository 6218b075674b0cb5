ghost use Rattle.std.specs.Prelude.{◌↔◌, ◌≤◌, ℕ, IfNone, IfOk, IfSome, IsTrue};
ghost use Rattle.st_model.specs.declared.tree.Tree.{Tree as Grown};
ghost use Rattle.st_model.specs.Arborescence.{IsTree, cost};
ghost use Rattle.st_model.specs.Branch.{IsBranch, NoneIsCertain, ReachesAsTold};
ghost use Rattle.st_model.specs.Lists.{sum_to};
ghost use Rattle.st_model.specs.Network.{pays};
ghost use Rattle.st_model.specs.Terminals.{IsTerminal, NobodyPays};
ghost use Rattle.twice_tree.specs.Twice.{IsWithinTwice};
ghost use Rattle.steiner_top.specs.Left.{LeavesOutLone};

use crate::start::start_tree;
use graph_store::Whole;
use local_search::improve;
use st_model::{Instance, Need, Sides, Tree, tree_cost};
use std::alloc::{AllocError, Global};
use twice_tree::near_tree;

/// A tree of a branch that has one, from which a search may start: a first tree that is improved,
/// or, where nobody pays and that is cheaper, a near one.
pub fn near_start(alloc: Global, whole: &Whole, branch: &Sides) -> Result<Tree, AllocError>
    requires branch { IsBranch whole.now.instance branch.now }
    requires some { (t : Grown) × IsTree whole.now.instance t × ReachesAsTold branch.now t }
    requires gone { LeavesOutLone whole.now.instance branch.now }
    ensures tree { IfOk result (IsTree whole.now.instance) }
    ensures reaches { IfOk result (ReachesAsTold branch.now) }
    // Where nobody has to be reached, it is no dearer than leaving everybody out.
    ensures cheap { IfOk result (λ tree. NoneIsCertain whole.now.instance branch.now
        → cost whole.now.instance tree ≤ sum_to (pays whole.now.instance) whole.now.instance.n) }
    // Where nobody pays, it costs at most twice what each tree costs, less a share.
    ensures near { IfOk result (λ tree. NobodyPays whole.now.instance → IsWithinTwice whole.now.instance tree) }
{
    let tree = start_tree(alloc, whole, branch)?;
    let start = nearer(alloc, whole, branch, tree)?;
    Ok(start)
}

// The tree, or a near one where nobody pays and that is cheaper.
fn nearer(alloc: Global, whole: &Whole, branch: &Sides, tree: Tree) -> Result<Tree, AllocError>
    requires branch { IsBranch whole.now.instance branch.now }
    requires gone { LeavesOutLone whole.now.instance branch.now }
    requires tree { IsTree whole.now.instance tree }
    requires reaches { ReachesAsTold branch.now tree }
    ensures tree { IfOk result (IsTree whole.now.instance) }
    ensures reaches { IfOk result (ReachesAsTold branch.now) }
    ensures cost { IfOk result (λ new. cost whole.now.instance new ≤ cost whole.now.instance tree) }
    ensures near { IfOk result (λ new. NobodyPays whole.now.instance → IsWithinTwice whole.now.instance new) }
{
    prove!(1 <= whole.instance.vertices());
    let Some(_) = first_required(&whole.instance) else {
        return Ok(tree);
    };
    if !nobody_pays(&whole.instance) {
        return Ok(tree);
    }
    let Some(near) = near_tree(alloc, &whole.store)? else {
        return Ok(tree);
    };
    let new = cheaper(alloc, whole, branch, tree, near)?;
    Ok(new)
}

// The cheaper of two trees; the second one is improved.
fn cheaper(
    alloc: Global,
    whole: &Whole,
    branch: &Sides,
    tree: Tree,
    near: Tree,
) -> Result<Tree, AllocError>
    requires branch { IsBranch whole.now.instance branch.now }
    requires tree { IsTree whole.now.instance tree }
    requires reaches { ReachesAsTold branch.now tree }
    requires near { IsTree whole.now.instance near }
    requires near_reaches { ReachesAsTold branch.now near }
    ensures tree { IfOk result (IsTree whole.now.instance) }
    ensures reaches { IfOk result (ReachesAsTold branch.now) }
    ensures cost { IfOk result (λ new. cost whole.now.instance new ≤ cost whole.now.instance tree) }
    ensures near { IfOk result (λ new. cost whole.now.instance new ≤ cost whole.now.instance near) }
{
    if tree_cost(&whole.instance, &tree) <= tree_cost(&whole.instance, &near) {
        return Ok(tree);
    }
    let new = improve(alloc, whole, branch, near)?;
    Ok(new)
}

// The first vertex that is required.
fn first_required(instance: &Instance) -> Option<u32>
    ensures some { IfSome result (IsTerminal instance.now) }
    ensures none { IfNone result ((v : ℕ) → IsTerminal instance.now v → ⊥) }
{
    for before in 0..instance.vertices() {
        if instance.need(before + 1) == Need::Required {
            return Some(before + 1);
        }
    }
    None
}

// Whether to leave any vertex out costs nothing.
fn nobody_pays(instance: &Instance) -> bool
    ensures { IsTrue result ↔ NobodyPays instance.now }
{
    for before in 0..instance.vertices() {
        if instance.prize(before + 1) > 0 {
            return false;
        }
    }
    true
}
