ghost use Rattle.std.specs.Prelude.{◌≡◌, ◌≤◌, IfOk};
ghost use Rattle.st_model.specs.Arborescence.{IsTree, cost};
ghost use Rattle.st_model.specs.Branch.{IsBranch, ReachesAsTold};
ghost use Rattle.local_search.specs.Better.{IsNoDearer};

use crate::exchanging::with_exchanges;
use crate::improving::improve;
use crate::inserting::with_more;
use crate::judging::no_dearer;
use graph_store::Whole;
use st_model::{Sides, Tree};
use std::alloc::{AllocError, Global};
use way_costs::{MoveGraph, Noise};

/// A tree that reaches what the branch says and costs no more than the one that is given. In each of so
/// many steps moves go to trees that cost the same, or less, by a noise on the costs that hangs on the seed,
/// until none does; what comes of them is improved.
pub fn wander(
    alloc: Global,
    whole: &Whole,
    branch: &Sides,
    tree: Tree,
    seed: u64,
    steps: u64,
) -> Result<Tree, AllocError>
    requires branch { IsBranch whole.now.instance branch.now }
    requires tree { IsTree whole.now.instance tree }
    requires reaches { ReachesAsTold branch.now tree }
    ensures tree { IfOk result (IsTree whole.now.instance) }
    ensures reaches { IfOk result (ReachesAsTold branch.now) }
    ensures cost { IfOk result (λ new. cost whole.now.instance new ≤ cost whole.now.instance tree) }
{
    let mut best = tree;
    for step in 0..steps {
        let noise = Noise::of(seed.wrapping_add(step));
        let Some(other) = moved_on(alloc, whole, branch, &best, noise)? else {
            break;
        };
        best = no_dearer(alloc, &whole.instance, branch, best, other)?;
    }
    improve(alloc, whole, branch, best)
}

// What moves make of a tree by costs with noise, if any of them gains.
fn moved_on(
    alloc: Global,
    whole: &Whole,
    branch: &Sides,
    tree: &Tree,
    noise: Noise,
) -> Result<Option<Tree>, AllocError> {
    let graph = MoveGraph::of(alloc, &whole.store, branch, noise)?;
    let more = with_more(alloc, &graph, tree)?;
    let other = with_exchanges(alloc, &graph, &more)?;
    if links_cost(&graph, &other) == links_cost(&graph, tree) {
        return Ok(None);
    }
    Ok(Some(other))
}

// What the links of a tree cost.
fn links_cost(graph: &MoveGraph, tree: &Tree) -> u64 {
    let mut cost: u64 = 0;
    for (tail, head) in tree.arcs.as_slice() {
        cost = cost.saturating_add(graph.link_cost(*tail, *head));
    }
    cost
}
