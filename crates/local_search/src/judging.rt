ghost use Rattle.std.specs.Prelude.{◌≡◌, ◌↔◌, ℕ, IfOk, IfSome, IfNone, IsFalse, IsTrue, All, map};
ghost use Rattle.std.specs.Bool.{OnTrue};
ghost use Rattle.st_model.specs.Arborescence.{IsArborescence, IsTree, reached};
ghost use Rattle.st_model.specs.Branch.{IsBranch, ReachesAsTold};
ghost use Rattle.st_model.specs.Lists.{has};
ghost use Rattle.local_search.specs.Better.{IsCheaper, IsNoDearer};

use st_model::{Instance, Sides, Tree, VertexSet, is_tree, tree_cost};
use std::alloc::{AllocError, Global};

// The other one where it is a tree that reaches what the branch says and costs less, and else the first one.
pub fn cheaper(
    alloc: Global,
    instance: &Instance,
    branch: &Sides,
    tree: Tree,
    other: Tree,
) -> Result<Tree, AllocError>
    requires branch { IsBranch instance.now branch.now }
    requires tree { IsTree instance.now tree }
    requires reaches { ReachesAsTold branch.now tree }
    ensures { IfOk result (IsNoDearer instance.now branch.now tree) }
{
    if is_better(alloc, instance, branch, &tree, &other)? {
        Ok(other)
    } else {
        Ok(tree)
    }
}

// The other one where it is a tree that reaches what the branch says and costs no more, and else the first
// one.
pub fn no_dearer(
    alloc: Global,
    instance: &Instance,
    branch: &Sides,
    tree: Tree,
    other: Tree,
) -> Result<Tree, AllocError>
    requires branch { IsBranch instance.now branch.now }
    requires tree { IsTree instance.now tree }
    requires reaches { ReachesAsTold branch.now tree }
    ensures { IfOk result (IsNoDearer instance.now branch.now tree) }
{
    let Some(other) = judged(alloc, instance, branch, other)? else {
        return Ok(tree);
    };
    if tree_cost(instance, &other) <= tree_cost(instance, &tree) {
        Ok(other)
    } else {
        Ok(tree)
    }
}

// Whether the other one is a tree that reaches what the branch says and costs less.
fn is_better(
    alloc: Global,
    instance: &Instance,
    branch: &Sides,
    tree: &Tree,
    other: &Tree,
) -> Result<bool, AllocError>
    requires branch { IsBranch instance.now branch.now }
    requires tree { IsArborescence instance.now tree.now }
    ensures { IfOk result (λ answer. OnTrue answer (IsCheaper instance.now branch.now tree.now other.now)) }
{
    if !is_tree_as_told(alloc, instance, branch, other)? {
        return Ok(false);
    }
    Ok(tree_cost(instance, other) < tree_cost(instance, tree))
}

/// The tree, where it is one that reaches what the branch says; None where it isn't.
pub fn judged(
    alloc: Global,
    instance: &Instance,
    branch: &Sides,
    tree: Tree,
) -> Result<Option<Tree>, AllocError>
    requires { IsBranch instance.now branch.now }
    ensures same { IfOk result (λ found. IfSome found (λ t. t ≡ tree)) }
    ensures tree { IfOk result (λ found. IfSome found (IsTree instance.now)) }
    ensures reaches { IfOk result (λ found. IfSome found (ReachesAsTold branch.now)) }
    ensures none { IfOk result (λ found. IfNone found (¬ (IsTree instance.now tree × ReachesAsTold branch.now tree))) }
{
    if is_tree_as_told(alloc, instance, branch, &tree)? {
        Ok(Some(tree))
    } else {
        Ok(None)
    }
}

// Whether this is a tree that reaches what the branch says.
fn is_tree_as_told(
    alloc: Global,
    instance: &Instance,
    branch: &Sides,
    tree: &Tree,
) -> Result<bool, AllocError>
    requires { IsBranch instance.now branch.now }
    ensures { IfOk result (λ answer. IsTrue answer ↔ (IsTree instance.now tree.now × ReachesAsTold branch.now tree.now)) }
{
    if !is_tree(alloc, instance, tree)? {
        return Ok(false);
    }
    reaches_as_told(alloc, instance, branch, tree)
}

// Whether a tree reaches all vertices inside, and none outside.
fn reaches_as_told(
    alloc: Global,
    instance: &Instance,
    branch: &Sides,
    tree: &Tree,
) -> Result<bool, AllocError>
    requires { IsBranch instance.now branch.now }
    ensures { IfOk result (λ answer. IsTrue answer ↔ ReachesAsTold branch.now tree.now) }
{
    let reached = reached_list(alloc, tree)?;
    let set = VertexSet::of(alloc, instance.vertices() as usize + 1, &reached)?;
    let inside = has_all(&set, branch.branch().inside.as_slice());
    let outside = has_none(branch, &reached);
    Ok(inside && outside)
}

// The vertices that a tree reaches.
fn reached_list(alloc: Global, tree: &Tree) -> Result<Vec<u32>, AllocError>
    ensures { IfOk result (λ list. (v : ℕ) → has list.items v ≡ has (reached tree.now) v) }
{
    let mut list = heads_of(alloc, tree.arcs.as_slice())?;
    list.push(tree.start)?;
    Ok(list)
}

// The heads of arcs.
fn heads_of(alloc: Global, arcs: &[(u32, u32)]) -> Result<Vec<u32>, AllocError>
    ensures { IfOk result (λ heads. heads.items ≡ map (λ arc. arc.1) arcs.now) }
{
    arcs.iter().map(|arc| arc.1).collect(alloc)
}

// Whether all of these vertices are in a set.
fn has_all(set: &VertexSet, vertices: &[u32]) -> bool
    ensures { IsTrue result ↔ All (λ v. IsTrue (has set.now.members v)) vertices.now }
{
    vertices.iter().all(|vertex| set.contains(*vertex))
}

// Whether none of these vertices is outside.
fn has_none(branch: &Sides, vertices: &[u32]) -> bool
    ensures { IsTrue result ↔ All (λ v. IsFalse (has branch.now.outside v)) vertices.now }
{
    vertices.iter().all(|vertex| !branch.is_outside(*vertex))
}
