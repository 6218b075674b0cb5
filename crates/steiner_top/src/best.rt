ghost use Rattle.std.specs.Prelude.{◌≡◌, All, IfOk, IfSome, min};
ghost use Rattle.st_model.specs.Arborescence.{IsTree, cost};
ghost use Rattle.st_model.specs.Branch.{ReachesAsTold};
ghost use Rattle.search_core.specs.Complete.{least_found, less_found};

use search_core::{Searched, Segment};
use st_model::{Branch, Instance, Tree, tree_cost};
use std::alloc::{AllocError, Global};

// A search, and the best tree that it found.
#[derive(Drop)]
pub struct Best {
    pub tree: Tree,
    pub search: Searched,
}

/// The cheapest of a tree of a branch and those that workers found.
pub fn cheapest(
    alloc: Global,
    instance: &Instance,
    branch: &Branch,
    start: Tree,
    segments: &[Segment],
) -> Result<Tree, AllocError>
    requires tree { IsTree instance.now start }
    requires reaches { ReachesAsTold branch.now start }
    requires found { All (λ s. IfSome s.best
        (λ t. IsTree instance.now t × ReachesAsTold branch.now t)) segments.now }
    ensures tree { IfOk result (IsTree instance.now) }
    ensures reaches { IfOk result (ReachesAsTold branch.now) }
    ensures least { IfOk result (λ t. cost instance.now t
        ≡ least_found instance.now (cost instance.now start) segments.now) }
{
    let mut best = start;
    for segment in segments {
        best = with_found(alloc, instance, branch, best, segment)?;
    }
    Ok(best)
}

// A tree, or the one that a worker found, where that costs less.
fn with_found(
    alloc: Global,
    instance: &Instance,
    branch: &Branch,
    tree: Tree,
    segment: &Segment,
) -> Result<Tree, AllocError>
    requires tree { IsTree instance.now tree }
    requires reaches { ReachesAsTold branch.now tree }
    requires found { IfSome segment.now.best
        (λ t. IsTree instance.now t × ReachesAsTold branch.now t) }
    ensures tree { IfOk result (IsTree instance.now) }
    ensures reaches { IfOk result (ReachesAsTold branch.now) }
    ensures least { IfOk result (λ t. cost instance.now t
        ≡ less_found instance.now segment.now.best (cost instance.now tree)) }
{
    match &segment.best {
        Some(found) => cheaper(alloc, instance, branch, tree, found),
        None => Ok(tree),
    }
}

// The second of two trees, where it costs less, and else the first.
fn cheaper(
    alloc: Global,
    instance: &Instance,
    branch: &Branch,
    first: Tree,
    second: &Tree,
) -> Result<Tree, AllocError>
    requires first { IsTree instance.now first × ReachesAsTold branch.now first }
    requires second { IsTree instance.now second.now × ReachesAsTold branch.now second.now }
    ensures tree { IfOk result (IsTree instance.now) }
    ensures reaches { IfOk result (ReachesAsTold branch.now) }
    ensures least { IfOk result (λ t. cost instance.now t
        ≡ min (cost instance.now second.now) (cost instance.now first)) }
{
    if tree_cost(instance, second) < tree_cost(instance, &first) {
        second.copied(alloc)
    } else {
        Ok(first)
    }
}
