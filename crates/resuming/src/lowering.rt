ghost use Rattle.std.specs.Prelude.{◌≤◌, IfOk, IfSome};
ghost use Rattle.st_model.specs.Arborescence.{IsTree, cost};
ghost use Rattle.st_model.specs.Branch.{IsBranch, ReachesAsTold};

use better_trees::narrowed;
use graph_store::Whole;
use local_search::improve;
use st_model::{Sides, Tree, VertexSet, tree_cost};
use std::alloc::{AllocError, Global};
use tree_heuristic::first_tree;

/// A tree of an earlier instance as one of what steps left of it: a cheap tree over the vertices that it reaches there. None
/// where links don't join these any more.
pub fn lowered(
    alloc: Global,
    whole: &Whole,
    branch: &Sides,
    tree: &Tree,
) -> Result<Option<Tree>, AllocError>
    requires { IsBranch whole.now.instance branch.now }
    ensures tree { IfOk result (λ found. IfSome found (IsTree whole.now.instance)) }
    ensures reaches { IfOk result (λ found. IfSome found (ReachesAsTold branch.now)) }
{
    let reached = vertices_of(alloc, whole, tree)?;
    let narrow = narrowed(alloc, &whole.instance, branch, &reached)?;
    let part = Sides::of(alloc, narrow)?;
    let Some(found) = first_tree(alloc, &whole.store, &part)? else {
        return Ok(None);
    };
    let tree = improve(alloc, whole, &part, found)?;
    Ok(Some(tree))
}

// The vertices of an instance that a tree reaches.
fn vertices_of(alloc: Global, whole: &Whole, tree: &Tree) -> Result<VertexSet, AllocError> {
    let mut vertices = vec![in alloc; tree.start]?;
    for (_, head) in tree.arcs.as_slice() {
        vertices.push(*head)?;
    }
    VertexSet::of(alloc, whole.instance.vertices() as usize + 1, &vertices)
}

/// The tree of an earlier instance, lowered, unless the first tree is cheaper or there is none.
pub fn nearer(
    alloc: Global,
    whole: &Whole,
    branch: &Sides,
    first: Tree,
    tree: &Tree,
) -> Result<Tree, AllocError>
    requires branch { IsBranch whole.now.instance branch.now }
    requires tree { IsTree whole.now.instance first }
    requires reaches { ReachesAsTold branch.now first }
    ensures tree { IfOk result (IsTree whole.now.instance) }
    ensures reaches { IfOk result (ReachesAsTold branch.now) }
    ensures cost { IfOk result (λ new. cost whole.now.instance new ≤ cost whole.now.instance first) }
{
    let Some(found) = lowered(alloc, whole, branch, tree)? else {
        return Ok(first);
    };
    if tree_cost(&whole.instance, &first) < tree_cost(&whole.instance, &found) {
        return Ok(first);
    }
    Ok(found)
}
