ghost use Rattle.std.specs.Prelude.{◌≡◌, ◌<◌, ◌≤◌, Bool, IfOk, IfSome};
ghost use Rattle.st_model.specs.Branch.{NoneIsCertain};
ghost use Rattle.st_model.specs.Lists.{sum_to};
ghost use Rattle.st_model.specs.Network.{IsInstance, pays};
ghost use Rattle.cut_packing.specs.Full.{IsFull};
ghost use Rattle.cut_packing.specs.Packing.{weight};
ghost use Rattle.cut_packing.specs.ProofTree.{IsSplit, IsSplitAt};
ghost use Rattle.branching.specs.Choice.{IsChoice, IsDecided};
ghost use Rattle.better_trees.specs.Better.{IsBetter, least_after};
ghost use Rattle.node_work.specs.Finding.{IsFinding};
ghost use Rattle.node_work.specs.Node.{IsWritableNode};
ghost use Rattle.node_work.specs.Open.{IsOpen, as_node};
ghost use Rattle.node_work.specs.Step.{IsStep, MaySplit};
ghost use Rattle.node_work.specs.Target.{IsFindingFor};

use crate::barring::too_dear;
use crate::deciding::root_of;
use crate::following::follow;
use crate::guessing::{guess, together};
use crate::node::{OpenNode, node_of};
use crate::picking::pick;
use crate::plan::Plan;
use crate::rounds::{Rounds, work_by_rounds};
use crate::step::{End, Finding, Step};
use crate::target::Target;
use better_trees::{
    Effort, Incumbent, Means, Place, Priced, gap, least_after, near_root, priced, tree_of,
};
use bidirected_form::Arcs;
use branching::{Node, choose};
use cut_packing::{Packing, weight};
use dual_ascent::{Ascent, Extension};
use graph_store::{Store, Whole};
use level_packing::{Leaf, close_all};
use st_model::{Branch, Instance, Sides, SplitAt};
use std::alloc::{AllocError, Global};
use std::thread::Threads;

/// How a node is worked on: in how many threads trees are looked for, at most, and whether it may be split
/// at a link.
#[derive(Clone, Copy)]
pub struct Manner {
    pub threads: usize,
    pub links: bool,
}

/// Whether a node gets the effort of a whole search: it has no cuts yet, or nothing is decided in its branch, so that
/// its cuts are all with which an earlier search ended. A vertex that no link leads to is outside of each branch where
/// steps took it away.
pub fn is_whole(store: &Store, node: &Node) -> bool {
    node.packing.cuts.as_slice().is_empty() || is_undecided(store, &node.branch)
}

// Whether nobody is inside, nobody with a link outside, and nothing said of links.
fn is_undecided(store: &Store, branch: &Branch) -> bool {
    branch.inside.as_slice().is_empty()
        && branch.must.as_slice().is_empty()
        && branch.barred.as_slice().is_empty()
        && !branch
            .outside
            .as_slice()
            .iter()
            .any(|vertex| is_linked(store, *vertex))
}

// Whether a link leads to a vertex.
fn is_linked(store: &Store, vertex: u32) -> bool {
    vertex > 0 && vertex <= store.vertices() && store.degree(vertex) > 0
}

/// Works on a node. It closes where its packing weighs as much as the incumbent costs, or where nothing
/// is left to decide. Else its packing is extended until it weighs so much, or is full; a full one leads
/// to a tree, which may be cheaper, and unless it weighs as much as the cheapest one known the node
/// splits. At key vertices of the incumbent a split tells most; where links are split, those come first that
/// no cheaper tree uses. Where a plan was made for the node, it is followed.
pub fn expand<R: Threads + Sync>(
    rt: &R,
    alloc: Global,
    whole: &Whole,
    node: Node,
    incumbent: &Incumbent<'_>,
    plan: Option<Plan>,
    manner: Manner,
) -> Result<Step, AllocError>
    requires instance { IsInstance whole.now.instance }
    requires node { IsWritableNode whole.now.instance node }
    requires cheap { NoneIsCertain whole.now.instance node.branch
        → incumbent.now.cost ≤ sum_to (pays whole.now.instance) whole.now.instance.n }
    ensures { IfOk result (IsStep whole.now.instance node incumbent.now.cost manner.links) }
{
    if weight(&whole.instance, &node.branch, &node.packing) >= u128::from(incumbent.cost) {
        return Ok(closed(node.packing));
    }
    let Some(vertex) = choose(&node, &whole.instance) else {
        return close(alloc, &whole.instance, node, incumbent.cost);
    };
    let effort = Effort::at(&node.branch, is_whole(&whole.store, &node), manner.threads);
    let means = Means { rt, alloc, effort };
    take_up(&means, whole, node, vertex, incumbent, plan, manner.links)
}

// Closes a node with nothing left to decide, by a level packing that weighs what a tree costs, or
// the least cost known.
fn close(alloc: Global, instance: &Instance, node: Node, least: u64) -> Result<Step, AllocError>
    requires instance { IsInstance instance.now }
    requires node { IsWritableNode instance.now node }
    requires cheap { NoneIsCertain instance.now node.branch
        → least ≤ sum_to (pays instance.now) instance.now.n }
    requires decided { IsDecided instance.now node.branch }
    requires light { weight instance.now node.branch node.packing < least }
    ensures { IfOk result (λ step. (links : Bool) → IsStep instance.now node least links step) }
{
    let branch = Sides::of(alloc, node.branch)?;
    match close_all(alloc, instance, &branch, least)? {
        Leaf::Tree(tree, level) => Ok(Step {
            better: priced(instance, tree, least),
            end: End::Close(level),
        }),
        Leaf::Wall(level) => Ok(closed(level)),
    }
}

// A close, with no better tree.
pub fn closed(packing: Packing) -> Step
    ensures { result ≡ record { better = None; end = End.Close packing } }
{
    Step {
        better: None,
        end: End::Close(packing),
    }
}

// Works on a node that weighs less than the least cost known, and that can be split at the vertex
// given. Where no vertex is certain, so that there is no root for cuts, it splits there.
fn take_up<R: Threads + Sync>(
    means: &Means<'_, R>,
    whole: &Whole,
    node: Node,
    given: u32,
    incumbent: &Incumbent<'_>,
    plan: Option<Plan>,
    links: bool,
) -> Result<Step, AllocError>
    requires instance { IsInstance whole.now.instance }
    requires node { IsWritableNode whole.now.instance node }
    requires given { IsChoice whole.now.instance node.branch given }
    requires light { weight whole.now.instance node.branch node.packing < incumbent.now.cost }
    ensures { IfOk result (IsStep whole.now.instance node incumbent.now.cost links) }
{
    let Node {
        id,
        branch,
        packing,
    } = node;
    let branch = Sides::of(means.alloc, branch)?;
    let Some(root) = root_of(&whole.instance, &branch, &packing) else {
        return Ok(split(node_of(id, branch, packing), SplitAt::Vertex(given)));
    };
    let node = OpenNode {
        id,
        branch,
        packing,
        root,
        given,
    };
    match plan {
        Some(plan) => follow(means, whole, node, incumbent, plan, links),
        None => work_on(means, whole, node, incumbent, links),
    }
}

/// Refines the packing of a node and looks for trees: it closes, or splits where it tells most.
pub fn work_on<R: Threads + Sync>(
    means: &Means<'_, R>,
    whole: &Whole,
    node: OpenNode,
    incumbent: &Incumbent<'_>,
    links: bool,
) -> Result<Step, AllocError>
    requires node { IsOpen whole.now.instance node incumbent.now.cost }
    ensures { IfOk result (IsStep whole.now.instance (as_node node) incumbent.now.cost links) }
{
    let OpenNode {
        id,
        branch,
        packing,
        root,
        given,
    } = node;
    let place = Place {
        whole,
        branch: &branch,
    };
    let least = incumbent.cost;
    // So that what closes the branch can be written.
    prove!(least <= u64::MAX);
    let target = Target { place, root, least };
    let Rounds {
        extension,
        better,
        key_vertices,
    } = work_by_rounds(means, &target, packing, incumbent)?;
    let Extension { ascent, left } = extension;
    match ascent {
        Ascent::Reached(packing) => Ok(Step {
            better,
            end: End::Close(packing),
        }),
        Ascent::Full(packing) => {
            let known = Incumbent {
                tree: tree_of(incumbent.tree, &better),
                cost: least_after(least, &better),
            };
            let limit = gap(&whole.instance, &branch, &packing, known.cost);
            let near = near_root(means.alloc, &left.arcs, limit)?;
            let below = Target {
                place,
                root,
                least: known.cost,
            };
            let arcs = &left.arcs;
            let found = guess(means, &below, &packing, &near, &known)?;
            let more = with_bars(means.alloc, &below, found, arcs, limit, links)?;
            let vertex = pick(arcs, &whole.instance, &branch, &near, &key_vertices, given);
            let node = node_of(id, branch, packing);
            let finding = together(better, more);
            Ok(concluded(&whole.instance, node, vertex, finding, least, links))
        }
    }
}

// What was found, with a plan to bar links, where there is none to close, links are to be split, and some
// are too dear for a cheaper tree.
fn with_bars(
    alloc: Global,
    target: &Target<'_>,
    finding: Finding,
    arcs: &Arcs,
    lack: u64,
    links: bool,
) -> Result<Finding, AllocError>
    requires { IsFindingFor target.now finding }
    ensures { IfOk result (IsFindingFor target.now) }
{
    if !links || finding.closing.is_some() || finding.plan.is_some() {
        return Ok(finding);
    }
    let places = too_dear(alloc, arcs, target.place.branch.branch(), lack)?;
    if places.is_empty() {
        return Ok(finding);
    }
    let plan = Plan::of(&target.place.whole.instance, places, None);
    Ok(Finding {
        plan: Some(plan),
        ..finding
    })
}

// A split, with no better tree.
fn split(node: Node, at: SplitAt) -> Step
    ensures { result ≡ record { better = None; end = End.Split node at None } }
{
    Step {
        better: None,
        end: End::Split(node, at, None),
    }
}

// Ends a node with a full packing, beside which something was found: it closes by a packing that was
// found to close it.
fn concluded(
    instance: &Instance,
    node: Node,
    vertex: u32,
    finding: Finding,
    least: u64,
    links: bool,
) -> Step
    requires node { IsWritableNode instance.now node }
    requires full { IsFull instance.now node.branch node.packing }
    requires vertex { IsSplit instance.now node.branch vertex }
    requires finding { IsFinding instance.now node.branch least finding }
    ensures { IsStep instance.now node least links result }
{
    let Finding {
        better,
        closing,
        plan,
    } = finding;
    match closing {
        Some(packing) => Step {
            better,
            end: End::Close(packing),
        },
        None => ended(instance, node, vertex, better, least, plan, links),
    }
}

// Ends a node with a full packing, at the next vertex of a plan if there is one, or else at the one
// given.
fn ended(
    instance: &Instance,
    node: Node,
    vertex: u32,
    better: Option<Priced>,
    least: u64,
    plan: Option<Plan>,
    links: bool,
) -> Step
    requires node { IsWritableNode instance.now node }
    requires full { IsFull instance.now node.branch node.packing }
    requires vertex { IsSplit instance.now node.branch vertex }
    requires better { IfSome better (IsBetter instance.now node.branch least) }
    ensures { IsStep instance.now node least links result }
{
    if let Some(plan) = plan {
        if let Some(next) = plan.next(instance, &node.branch, links) {
            return parted(instance, node, next, better, least, Some(plan));
        }
    }
    parted(instance, node, SplitAt::Vertex(vertex), better, least, None)
}

/// Ends a node with a full packing: it closes where the packing weighs as much as the cheapest tree
/// known, and else it splits here.
pub fn parted(
    instance: &Instance,
    node: Node,
    at: SplitAt,
    better: Option<Priced>,
    least: u64,
    plan: Option<Plan>,
) -> Step
    requires node { IsWritableNode instance.now node }
    requires full { IsFull instance.now node.branch node.packing }
    requires split { IsSplitAt instance.now node.branch at }
    requires better { IfSome better (IsBetter instance.now node.branch least) }
    ensures { (links : Bool) → MaySplit links at → IsStep instance.now node least links result }
{
    let known = least_after(least, &better);
    if weight(instance, &node.branch, &node.packing) >= u128::from(known) {
        return Step {
            better,
            end: End::Close(node.packing),
        };
    }
    Step {
        better,
        end: End::Split(node, at, plan),
    }
}
