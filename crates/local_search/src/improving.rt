ghost use Rattle.std.specs.Prelude.{◌≡◌, ◌≤◌, IfOk};
ghost use Rattle.st_model.specs.Arborescence.{IsTree, cost};
ghost use Rattle.st_model.specs.Branch.{IsBranch, ReachesAsTold};
ghost use Rattle.local_search.specs.Better.{IsNoDearer};

use crate::branches::without_branches;
use crate::exchanging::{with_all_worth, with_exchanges};
use crate::inserting::with_more;
use crate::judging::cheaper;
use crate::spanning::spanning_tree;
use graph_store::Whole;
use st_model::{Sides, Tree, tree_cost};
use std::alloc::{AllocError, Global};
use tree_heuristic::prune;
use way_costs::{MoveGraph, Noise};

// How many rounds of all moves there are at most.
const ROUNDS: u64 = 20;

// How many links all rounds go over together, about: up to 20,000 links all rounds are made, and above 200,000 one.
const SHARE: u64 = 400_000;

/// A tree that reaches what the branch says and costs no more than the one that is given.
pub fn improve(alloc: Global, whole: &Whole, branch: &Sides, tree: Tree) -> Result<Tree, AllocError>
    requires branch { IsBranch whole.now.instance branch.now }
    requires tree { IsTree whole.now.instance tree }
    requires reaches { ReachesAsTold branch.now tree }
    ensures tree { IfOk result (IsTree whole.now.instance) }
    ensures reaches { IfOk result (ReachesAsTold branch.now) }
    ensures cost { IfOk result (λ new. cost whole.now.instance new ≤ cost whole.now.instance tree) }
{
    let graph = MoveGraph::of(alloc, &whole.store, branch, Noise::none())?;
    let mut best = moved(alloc, whole, branch, &graph, tree)?;
    for _round in 0..graph.times(ROUNDS, SHARE) {
        let before = tree_cost(&whole.instance, &best);
        best = exchanged(alloc, whole, branch, &graph, best)?;
        let between = tree_cost(&whole.instance, &best);
        if between == before {
            break;
        }
        best = moved(alloc, whole, branch, &graph, best)?;
        if tree_cost(&whole.instance, &best) == between {
            break;
        }
    }
    Ok(best)
}

// The tree after the moves that look at what is near, each judged by itself.
fn moved(
    alloc: Global,
    whole: &Whole,
    branch: &Sides,
    graph: &MoveGraph,
    tree: Tree,
) -> Result<Tree, AllocError>
    requires branch { IsBranch whole.now.instance branch.now }
    requires tree { IsTree whole.now.instance tree }
    requires reaches { ReachesAsTold branch.now tree }
    ensures { IfOk result (IsNoDearer whole.now.instance branch.now tree) }
{
    let instance = &whole.instance;
    let spanned = spanning_tree(alloc, graph, &tree)?;
    let tree = cheaper(alloc, instance, branch, tree, spanned)?;
    let cut = without_branches(alloc, graph, &tree)?;
    let tree = cheaper(alloc, instance, branch, tree, cut)?;
    let more = with_more(alloc, graph, &tree)?;
    cheaper(alloc, instance, branch, tree, more)
}

// The tree after exchanges, and after what is found on the way from one that reaches all that is worth
// something.
fn exchanged(
    alloc: Global,
    whole: &Whole,
    branch: &Sides,
    graph: &MoveGraph,
    tree: Tree,
) -> Result<Tree, AllocError>
    requires branch { IsBranch whole.now.instance branch.now }
    requires tree { IsTree whole.now.instance tree }
    requires reaches { ReachesAsTold branch.now tree }
    ensures { IfOk result (IsNoDearer whole.now.instance branch.now tree) }
{
    let instance = &whole.instance;
    let exchanged = with_exchanges(alloc, graph, &tree)?;
    let tree = cheaper(alloc, instance, branch, tree, exchanged)?;
    let tree = prune(alloc, instance, branch, tree)?;
    let Some(widened) = widened_tree(alloc, graph, &tree)? else {
        return Ok(tree);
    };
    cheaper(alloc, instance, branch, tree, widened)
}

// What the moves make of the tree once it reaches all that is worth something, if it misses any of
// that.
fn widened_tree(alloc: Global, graph: &MoveGraph, tree: &Tree) -> Result<Option<Tree>, AllocError> {
    let Some(wide) = with_all_worth(alloc, graph, tree)? else {
        return Ok(None);
    };
    let wide = spanning_tree(alloc, graph, &wide)?;
    let wide = without_branches(alloc, graph, &wide)?;
    let wide = with_more(alloc, graph, &wide)?;
    let wide = with_exchanges(alloc, graph, &wide)?;
    Ok(Some(wide))
}
