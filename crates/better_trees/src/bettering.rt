ghost use Rattle.std.specs.Prelude.{IfOk, IfSome};
ghost use Rattle.better_trees.specs.Better.{IsBetterAt, IsTreeAt};

use crate::comparing::cheaper;
use crate::draws::Draws;
use crate::effort::{Effort, steps_for};
use crate::growing::path_tree;
use crate::place::Place;
use crate::price::Priced;
use crate::saturated::Saturated;
use bidirected_form::Arcs;
use graph_store::Whole;
use local_search::{judged, wander};
use st_model::{Tree, tree_cost};
use std::alloc::{AllocError, Global};
use tree_heuristic::{guided_tree, prune};

// What a vertex weighs at least, in hundredths, and up to how much more, where trees grow along random weights.
const LEAST: u64 = 50;

const MORE: u64 = 100;

// How many steps a walk from a random tree has, or from one over saturated arcs at a first node, at most.
const STEPS: u64 = 4;

/// A tree that reaches what the branch says and costs less than the least cost known, if `saturated_tree`
/// is one.
pub fn better_tree(
    alloc: Global,
    place: &Place<'_>,
    arcs: &Arcs,
    least: u64,
    effort: Effort,
) -> Result<Option<Priced>, AllocError>
    ensures { IfOk result (λ better. IfSome better (IsBetterAt place.now least)) }
{
    let tree = saturated_tree(alloc, place, arcs, effort, 0)?;
    Ok(cheaper(place, tree, least))
}

/// A tree over saturated arcs that reaches what the branch says, if there is one: the cheapest of some that
/// grow, led on by a walk of so many steps and improved.
pub fn saturated_tree(
    alloc: Global,
    place: &Place<'_>,
    arcs: &Arcs,
    effort: Effort,
    steps: u64,
) -> Result<Option<Tree>, AllocError>
    ensures { IfOk result (λ tree. IfSome tree (IsTreeAt place.now)) }
{
    let arcs = Saturated::of(alloc, &place.whole.store, arcs)?;
    let Some(tree) = pruned_path_tree(alloc, place, &arcs, &[])? else {
        return Ok(None);
    };
    let tree = cheapest_path_tree(alloc, place, &arcs, tree, effort)?;
    let tree = wander(alloc, place.whole, place.branch, tree, effort.seed, steps)?;
    Ok(Some(tree))
}

// The cheapest of a tree and of some that grow along random weights. What is left of a best packing
// has saturated arcs to many trees, and the cheapest among them often is a cheapest one.
fn cheapest_path_tree(
    alloc: Global,
    place: &Place<'_>,
    arcs: &Saturated,
    first: Tree,
    effort: Effort,
) -> Result<Tree, AllocError>
    requires { IsTreeAt place.now first }
    ensures { IfOk result (IsTreeAt place.now) }
{
    let instance = &place.whole.instance;
    let mut draws = Draws::of(effort.seed);
    let mut best = first;
    for _growth in 0..effort.growths(instance.links().len()) {
        let weights = draws.weights(alloc, place.whole.store.vertices(), LEAST, MORE)?;
        if let Some(tree) = pruned_path_tree(alloc, place, arcs, &weights)? {
            if tree_cost(instance, &tree) < tree_cost(instance, &best) {
                best = tree;
            }
        }
    }
    Ok(best)
}

// The tree that grows over saturated arcs along weights, pruned, if it reaches what the branch says.
fn pruned_path_tree(
    alloc: Global,
    place: &Place<'_>,
    arcs: &Saturated,
    weights: &[u64],
) -> Result<Option<Tree>, AllocError>
    ensures { IfOk result (λ tree. IfSome tree (IsTreeAt place.now)) }
{
    let instance = &place.whole.instance;
    let tree = path_tree(alloc, place, arcs, weights)?;
    let Some(tree) = judged(alloc, instance, place.branch, tree)? else {
        return Ok(None);
    };
    Ok(Some(prune(alloc, instance, place.branch, tree)?))
}

/// A tree that reaches what the branch says, if one is found: a first tree along weighted costs, pruned, led
/// on by a walk and improved.
pub fn tree_along(
    alloc: Global,
    place: &Place<'_>,
    weights: &[u64],
    seed: u64,
) -> Result<Option<Tree>, AllocError>
    ensures { IfOk result (λ tree. IfSome tree (IsTreeAt place.now)) }
{
    let whole = place.whole;
    let Some(tree) = guided_tree(alloc, &whole.store, place.branch, weights)? else {
        return Ok(None);
    };
    let tree = prune(alloc, &whole.instance, place.branch, tree)?;
    let tree = wander(alloc, whole, place.branch, tree, seed, steps(whole))?;
    Ok(Some(tree))
}

/// How many steps a walk from a random tree has, or from one over saturated arcs at a first node.
pub fn steps(whole: &Whole) -> u64 {
    steps_for(STEPS, whole.instance.links().len())
}
