ghost use Rattle.std.specs.Prelude.{Bool, All, IfOk};
ghost use Rattle.st_model.specs.Branch.{IsVertexSet};
ghost use Rattle.cut_packing.specs.ProofTree.{IsSplitAt};
ghost use Rattle.node_work.specs.Open.{IsOpen, as_node};
ghost use Rattle.node_work.specs.Step.{IsStep, MaySplit};

use crate::expanding::{closed, parted, work_on};
use crate::node::{OpenNode, node_of};
use crate::plan::Plan;
use crate::raising::raise_from;
use crate::refining::Guide;
use crate::repairing::repaired;
use crate::step::Step;
use crate::target::Target;
use better_trees::{Effort, Incumbent, Means, Place};
use cut_packing::Packing;
use dual_ascent::{Ascent, Extension};
use graph_store::Whole;
use st_model::SplitAt;
use std::alloc::{AllocError, Global};
use std::thread::Threads;

/// Works on a node for which there is a plan: it splits at the next place of that, or closes by the
/// packing of the plan where none is left. Where it can't it is worked on as any other one.
pub fn follow<R: Threads + Sync>(
    means: &Means<'_, R>,
    whole: &Whole,
    node: OpenNode,
    incumbent: &Incumbent<'_>,
    plan: Plan,
    links: bool,
) -> Result<Step, AllocError>
    requires node { IsOpen whole.now.instance node incumbent.now.cost }
    ensures { IfOk result (IsStep whole.now.instance (as_node node) incumbent.now.cost links) }
{
    if let Some(at) = plan.next(&whole.instance, node.branch.branch(), links) {
        return split_by(means.alloc, whole, node, at, incumbent.cost, plan);
    }
    match plan.into_closing(&whole.instance) {
        Some(packing) => close_by(means, whole, node, incumbent, packing, links),
        None => work_on(means, whole, node, incumbent, links),
    }
}

// Splits a node at a place of a plan, or closes it where its packing can be raised to the least cost
// known.
fn split_by(
    alloc: Global,
    whole: &Whole,
    node: OpenNode,
    at: SplitAt,
    least: u64,
    plan: Plan,
) -> Result<Step, AllocError>
    requires node { IsOpen whole.now.instance node least }
    requires split { IsSplitAt whole.now.instance node.branch at }
    ensures { IfOk result (λ step. (links : Bool) → MaySplit links at
        → IsStep whole.now.instance (as_node node) least links step) }
{
    let OpenNode {
        id,
        branch,
        packing,
        root,
        given: _,
    } = node;
    let target = Target {
        place: Place {
            whole,
            branch: &branch,
        },
        root,
        least,
    };
    let Extension { ascent, left: _ } = raise_from(alloc, &target, packing, &[])?;
    match ascent {
        Ascent::Reached(packing) => Ok(closed(packing)),
        Ascent::Full(packing) => {
            let node = node_of(id, branch, packing);
            Ok(parted(&whole.instance, node, at, None, least, Some(plan)))
        }
    }
}

// Closes a node by a packing of which the branch bears enough, and else works on it.
fn close_by<R: Threads + Sync>(
    means: &Means<'_, R>,
    whole: &Whole,
    node: OpenNode,
    incumbent: &Incumbent<'_>,
    closing: Packing,
    links: bool,
) -> Result<Step, AllocError>
    requires node { IsOpen whole.now.instance node incumbent.now.cost }
    requires sets { All (λ c. IsVertexSet whole.now.instance.n c.set) closing.cuts }
    ensures { IfOk result (IsStep whole.now.instance (as_node node) incumbent.now.cost links) }
{
    let effort = Effort::at(node.branch.branch(), false, 1);
    let mut guide = Guide::at(*incumbent, effort.seed);
    let target = Target {
        place: Place {
            whole,
            branch: &node.branch,
        },
        root: node.root,
        least: incumbent.cost,
    };
    let found = repaired(&means.with(effort), &target, closing, &mut guide)?;
    match found {
        Some(packing) => Ok(closed(packing)),
        None => work_on(means, whole, node, incumbent, links),
    }
}
