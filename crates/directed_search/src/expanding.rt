ghost use Rattle.std.specs.Prelude.{◌≤◌, ◌∷◌, OnOk};
ghost use Rattle.cut_packing.specs.Packing.{weight_in};
ghost use Rattle.cut_packing.specs.ProofTree.{IsSplitIn};
ghost use Rattle.arborescence.specs.DiNetwork.{di_ground};
ghost use Rattle.directed_search.specs.Searching.{IsAllCertain, IsAt, IsDiPacking, IsDone, IsInHand};

use crate::choosing::choose;
use crate::guessing::guessed;
use crate::open_node::OpenNode;
use crate::progress::Progress;
use crate::stack::Stack;
use arborescence::{DiAscent, DiInstance, DiLeaf, di_ascend, di_close_all, di_weight};
use cut_packing::Packing;
use st_model::{Sides, Tree};
use std::alloc::{AllocError, Global};

// Works on a node: while budget is left it is expanded, and else it is closed by its packing.
pub fn work(
    alloc: Global,
    instance: &DiInstance,
    progress: &mut Progress,
    waiting: &mut Stack,
    node: OpenNode,
) -> Result<(), AllocError>
    requires at { IsAt instance.now progress.old (node ∷ waiting.old) }
    ensures { OnOk result (IsDone instance.now node.branch progress.old waiting.old progress.new waiting.new) }
{
    prove!(instance.vertices() <= 1_000_000);
    if progress.is_spent() {
        progress.close(node.packing)?;
        return Ok(());
    }
    progress.count();
    expand(alloc, instance, progress, waiting, node)?;
    Ok(())
}

// Expands a node.
fn expand(
    alloc: Global,
    instance: &DiInstance,
    progress: &mut Progress,
    waiting: &mut Stack,
    node: OpenNode,
) -> Result<(), AllocError>
    requires hand { IsInHand instance.now progress.old node.branch waiting.old }
    requires packing { IsDiPacking instance.now node.branch node.packing }
    ensures { OnOk result (IsDone instance.now node.branch progress.old waiting.old progress.new waiting.new) }
{
    let branch = Sides::of(alloc, node.branch)?;
    ascend(alloc, instance, progress, waiting, &branch, node.packing)?;
    Ok(())
}

// Adds cuts to the packing of a node, and closes it, or goes on.
fn ascend(
    alloc: Global,
    instance: &DiInstance,
    progress: &mut Progress,
    waiting: &mut Stack,
    branch: &Sides,
    packing: Packing,
) -> Result<(), AllocError>
    requires hand { IsInHand instance.now progress.old branch.now waiting.old }
    requires packing { IsDiPacking instance.now branch.now packing }
    ensures { OnOk result (IsDone instance.now branch.now progress.old waiting.old progress.new waiting.new) }
{
    match di_ascend(alloc, instance, branch, packing, progress.primal())? {
        DiAscent::Reached(reached) => {
            close_heavy(instance, progress, waiting, branch, reached)?;
            Ok(())
        }
        DiAscent::Full(full) => {
            let tree = guessed(alloc, instance, branch, &full)?;
            go_on(alloc, instance, progress, waiting, branch, full, tree)?;
            Ok(())
        }
    }
}

// Closes a node by a packing that weighs what the best tree costs.
fn close_heavy(
    instance: &DiInstance,
    progress: &mut Progress,
    waiting: &Stack,
    branch: &Sides,
    packing: Packing,
) -> Result<(), AllocError>
    requires hand { IsInHand instance.now progress.old branch.now waiting.now }
    requires packing { IsDiPacking instance.now branch.now packing }
    requires heavy { progress.old.primal ≤ weight_in (di_ground instance.now) branch.now packing }
    ensures { OnOk result (IsDone instance.now branch.now progress.old waiting.now progress.new waiting.now) }
{
    prove!(instance.vertices() <= 1_000_000);
    progress.close(packing)?;
    Ok(())
}

// Closes a node whose packing is full if a better tree was found with it, and else splits it, or closes it by
// a least arborescence where nothing is left to decide.
fn go_on(
    alloc: Global,
    instance: &DiInstance,
    progress: &mut Progress,
    waiting: &mut Stack,
    branch: &Sides,
    packing: Packing,
    tree: Tree,
) -> Result<(), AllocError>
    requires hand { IsInHand instance.now progress.old branch.now waiting.old }
    requires packing { IsDiPacking instance.now branch.now packing }
    ensures { OnOk result (IsDone instance.now branch.now progress.old waiting.old progress.new waiting.new) }
{
    let at = choose(instance, branch, &tree);
    progress.try_tree(alloc, instance, tree)?;
    let weight = di_weight(instance, branch.branch(), &packing);
    if weight >= u128::from(progress.primal()) {
        close_heavy(instance, progress, waiting, branch, packing)?;
        return Ok(());
    }
    match at {
        Some(vertex) => split(alloc, instance, progress, waiting, branch, packing, vertex)?,
        None => close_decided(alloc, instance, progress, waiting, branch)?,
    }
    Ok(())
}

// Splits a node at a vertex. Both halves keep the packing, since no cut names the vertex.
fn split(
    alloc: Global,
    instance: &DiInstance,
    progress: &mut Progress,
    waiting: &mut Stack,
    branch: &Sides,
    packing: Packing,
    vertex: u32,
) -> Result<(), AllocError>
    requires hand { IsInHand instance.now progress.old branch.now waiting.old }
    requires packing { IsDiPacking instance.now branch.now packing }
    requires may { IsSplitIn (di_ground instance.now) branch.now vertex }
    ensures { OnOk result (IsDone instance.now branch.now progress.old waiting.old progress.new waiting.new) }
{
    prove!(instance.vertices() <= 1_000_000);
    let inside = branch.branch().with_inside(alloc, vertex)?;
    let outside = branch.branch().with_outside(alloc, vertex)?;
    let shared = packing.shared(alloc)?;
    progress.split(vertex)?;
    waiting.push(OpenNode {
        branch: outside,
        packing: shared,
    })?;
    waiting.push(OpenNode {
        branch: inside,
        packing,
    })?;
    Ok(())
}

// Closes a node in which nothing is left to decide: by a least arborescence, or since it has none.
fn close_decided(
    alloc: Global,
    instance: &DiInstance,
    progress: &mut Progress,
    waiting: &Stack,
    branch: &Sides,
) -> Result<(), AllocError>
    requires hand { IsInHand instance.now progress.old branch.now waiting.now }
    requires certain { IsAllCertain instance.now branch.now }
    ensures { OnOk result (IsDone instance.now branch.now progress.old waiting.now progress.new waiting.now) }
{
    let primal = progress.primal();
    match di_close_all(alloc, instance, branch, primal)? {
        DiLeaf::Tree(tree, packing) => {
            progress.offer(instance, tree);
            close_heavy(instance, progress, waiting, branch, packing)?;
        }
        DiLeaf::Wall(packing) => close_heavy(instance, progress, waiting, branch, packing)?,
    }
    Ok(())
}
