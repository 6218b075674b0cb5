ghost use Rattle.std.specs.Prelude.{IfOk, IfSome};
ghost use Rattle.st_model.specs.Branch.{IsBranch};
ghost use Rattle.better_trees.specs.Part.{IsPartOf};
ghost use Rattle.better_trees.specs.Better.{IsBetterAt, IsTreeAt};

use crate::bettering::saturated_tree;
use crate::comparing::{cheaper, gap, later, least_after, tree_of};
use crate::distances::near_root;
use crate::elite::Elite;
use crate::incumbent::Incumbent;
use crate::key_vertices::KeyVertices;
use crate::means::Means;
use crate::narrowing::narrowed;
use crate::place::Place;
use crate::price::Priced;
use crate::sampling::random_tree;
use crate::wandering::wandered_tree;
use bidirected_form::Arcs;
use cut_packing::{Packing, weight};
use st_model::{Instance, Sides, Tree};
use std::alloc::{AllocError, Global};
use std::thread::Threads;

// Walks are among vertices that are nearer to the root than this part of what is left.
const WALKED: u64 = 4;

/// What the trees tell that were found at a node: one that is cheaper than the incumbent, if there is one, and
/// their key vertices.
#[derive(Drop)]
pub struct Trees {
    pub better: Option<Priced>,
    pub key_vertices: KeyVertices,
}

/// What the trees tell that are found beside the incumbent at a node with a packing, which leaves so much
/// of the arcs. At a node that began without cuts random trees are looked for too.
pub fn trees_at<R: Threads + Sync>(
    means: &Means<'_, R>,
    place: &Place<'_>,
    packing: &Packing,
    arcs: &Arcs,
    incumbent: &Incumbent<'_>,
    elite: &mut Elite,
) -> Result<Trees, AllocError>
    ensures { IfOk result (λ trees. IfSome trees.better (IsBetterAt place.now incumbent.now.cost)) }
{
    let instance = &place.whole.instance;
    let below = gap(instance, place.branch, packing, incumbent.cost);
    let steps = means
        .effort
        .steps(below, incumbent.cost, instance.links().len());
    let tree = saturated_tree(means.alloc, place, arcs, means.effort, steps)?;
    let key_vertices = key_vertices_of(means.alloc, instance, incumbent.tree, &tree)?;
    let better = if means.effort.is_bare {
        led_on(means, place, packing, arcs, incumbent, tree, elite)?
    } else {
        cheaper(place, tree, incumbent.cost)
    };
    Ok(Trees {
        better,
        key_vertices,
    })
}

// The key vertices of the best tree known, and of one over saturated arcs, if there is one.
fn key_vertices_of(
    alloc: Global,
    instance: &Instance,
    known: &Tree,
    saturated: &Option<Tree>,
) -> Result<KeyVertices, AllocError> {
    let mut key_vertices = KeyVertices::of_none(alloc, instance)?;
    key_vertices.count(alloc, known)?;
    if let Some(tree) = saturated {
        key_vertices.count(alloc, tree)?;
    }
    Ok(key_vertices)
}

// The best tree of one over saturated arcs, if there is one, of random ones beside it, and of those that walks
// come to, if it is cheaper than the incumbent. No random one that does without the barred links and costs less than
// all reaches a vertex beyond the gap, so such vertices are left out of these.
fn led_on<R: Threads + Sync>(
    means: &Means<'_, R>,
    place: &Place<'_>,
    packing: &Packing,
    arcs: &Arcs,
    incumbent: &Incumbent<'_>,
    tree: Option<Tree>,
    elite: &mut Elite,
) -> Result<Option<Priced>, AllocError>
    requires { IfSome tree (IsTreeAt place.now) }
    ensures { IfOk result (λ found. IfSome found (IsBetterAt place.now incumbent.now.cost)) }
{
    let saturated = remember(means.alloc, place, &tree, elite)?;
    let better = cheaper(place, tree, incumbent.cost);
    let least = least_after(incumbent.cost, &better);
    let part = part_within(means.alloc, place, packing, arcs, least)?;
    let within = Place {
        whole: place.whole,
        branch: &part,
    };
    let bound = weight(&place.whole.instance, place.branch.branch(), packing);
    let random = random_tree(means, &within, arcs, &saturated, elite, least, bound)?;
    let better = later(better, random);
    or_wandered(means, place, packing, arcs, incumbent, elite, better)
}

// Keeps a tree among the cheapest ones, if there is one; a copy of it.
fn remember(
    alloc: Global,
    place: &Place<'_>,
    tree: &Option<Tree>,
    elite: &mut Elite,
) -> Result<Option<Tree>, AllocError>
    requires { IfSome tree.now (IsTreeAt place.now) }
{
    let Some(tree) = tree else {
        return Ok(None);
    };
    elite.keep(alloc, &place.whole.instance, tree)?;
    Ok(Some(tree.copied(alloc)?))
}

// A tree that walks come to, where it is cheaper than a better tree that was found, and else that one.
#[tactic(auto, using(crate::proofs::Found::found_later))]
fn or_wandered<R: Threads + Sync>(
    means: &Means<'_, R>,
    place: &Place<'_>,
    packing: &Packing,
    arcs: &Arcs,
    incumbent: &Incumbent<'_>,
    elite: &mut Elite,
    better: Option<Priced>,
) -> Result<Option<Priced>, AllocError>
    requires better { IfSome better (IsBetterAt place.now incumbent.now.cost) }
    ensures { IfOk result (λ found. IfSome found (IsBetterAt place.now incumbent.now.cost)) }
{
    let bound = weight(&place.whole.instance, place.branch.branch(), packing);
    let least = least_after(incumbent.cost, &better);
    if bound >= u128::from(least) || !elite.is_worth_walks() {
        return Ok(better);
    }
    let below = gap(&place.whole.instance, place.branch, packing, least);
    let near = near_root(means.alloc, arcs, 1 + below / WALKED)?;
    let known = Incumbent {
        tree: tree_of(incumbent.tree, &better),
        cost: least,
    };
    let found = wandered_tree(means, place, &near, &known, elite, bound)?;
    elite.walked(found.is_some());
    Ok(later(better, found))
}

// The part of the branch where also those are outside that are beyond the gap.
fn part_within(
    alloc: Global,
    place: &Place<'_>,
    packing: &Packing,
    arcs: &Arcs,
    least: u64,
) -> Result<Sides, AllocError>
    ensures branch { IfOk result (IsBranch place.now.whole.now.instance) }
    ensures part { IfOk result (IsPartOf place.now.branch.now) }
{
    let instance = &place.whole.instance;
    let below = gap(instance, place.branch, packing, least);
    let near = near_root(alloc, arcs, below)?;
    let part = narrowed(alloc, instance, place.branch, &near)?;
    let part = Sides::of(alloc, part)?;
    Ok(part)
}
