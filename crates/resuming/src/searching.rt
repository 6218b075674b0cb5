ghost use Rattle.std.specs.Prelude.{◌≤◌, All, IfOk};
ghost use Rattle.st_model.specs.Branch.{NoneIsCertain, all_trees};
ghost use Rattle.st_model.specs.Lists.{sum_to};
ghost use Rattle.st_model.specs.Network.{pays};
ghost use Rattle.branching.specs.Node.{IsNode};
ghost use Rattle.log_format.specs.Text.{IsWritablePacking};
ghost use Rattle.search_core.specs.Complete.{AllPackings, IsAtVertex, IsComplete, IsFinished, records};
ghost use Rattle.resuming.specs.GoingOn.{IsSearchFrom};

use better_trees::Incumbent;
use branching::Node;
use graph_store::Whole;
use search_core::{Gathered, Searched, no_cuts};
use std::alloc::{AllocError, Global};
use std::sync::Wait;
use std::thread::Threads;
use worker_loop::{Gate, Limits, run_all_from};

/// The search that goes on from a close, where a tree is known that costs no more than the incumbent. Of the incumbent's
/// tree nothing has to hold. Where there is no budget no worker begins, and the branch of the close waits without cuts.
pub fn search_from<R: Threads + Wait + Sync, G: Gate>(
    rt: &R,
    alloc: Global,
    whole: &Whole,
    node: Node,
    incumbent: &Incumbent<'_>,
    limits: Limits,
    gate: &G,
) -> Result<Searched, AllocError>
    requires node { IsNode whole.now.instance node }
    requires writable { IsWritablePacking node.packing }
    requires cheap { NoneIsCertain whole.now.instance all_trees
        → incumbent.now.cost ≤ sum_to (pays whole.now.instance) whole.now.instance.n }
    ensures { IfOk result (IsSearchFrom whole.now.instance node incumbent.now.cost limits.budget) }
{
    let close = node.id;
    let start = incumbent.cost;
    let budget = limits.budget;
    let gathered = gathered_from(rt, alloc, whole, node, incumbent, limits, gate)?;
    Ok(Searched {
        close,
        start,
        budget,
        gathered,
    })
}

// What is gathered of it.
fn gathered_from<R: Threads + Wait + Sync, G: Gate>(
    rt: &R,
    alloc: Global,
    whole: &Whole,
    node: Node,
    incumbent: &Incumbent<'_>,
    limits: Limits,
    gate: &G,
) -> Result<Gathered, AllocError>
    requires node { IsNode whole.now.instance node }
    requires writable { IsWritablePacking node.packing }
    requires cheap { NoneIsCertain whole.now.instance all_trees
        → incumbent.now.cost ≤ sum_to (pays whole.now.instance) whole.now.instance.n }
    ensures complete { IfOk result
        (λ all. IsComplete all whole.now.instance node.branch incumbent.now.cost limits.budget) }
    ensures finished { IfOk result
        (λ all. IsFinished all whole.now.instance node.branch incumbent.now.cost limits.budget) }
    ensures writable { IfOk result (AllPackings IsWritablePacking) }
    ensures sites { IfOk result (λ all. All IsAtVertex (records all)) }
{
    if limits.budget == 0 {
        let gathered = Gathered::untouched(alloc, &node.branch, no_cuts(alloc), incumbent.cost)?;
        return Ok(gathered);
    }
    let limits = Limits {
        links: false,
        ..limits
    };
    let gathered = run_all_from(rt, alloc, whole, node, incumbent, limits, gate)?;
    Ok(gathered)
}
