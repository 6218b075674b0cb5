//! Searches that go on from a node.
ghost use Rattle.std.specs.Prelude.{IfOk, IfSome};
ghost use Rattle.st_model.specs.Network.{IsVertex};
ghost use Rattle.node_work.specs.Node.{IsWritableNode};

use super::starting::{Outcome, avoiding, first_required, outcome_of};
use better_trees::Incumbent;
use branching::Node;
use graph_store::Whole;
use search_core::no_cuts;
use st_model::{Instance, Listed, Need, Tree};
use std::alloc::{AllocError, Global};
use std::sync::Wait;
use std::thread::Threads;
use worker_loop::{Limits, OpenGate, run_all_from};

// The node of the trees that avoid a vertex, without cuts. None where that is required.
fn node_without(alloc: Global, instance: &Instance, vertex: u32) -> Result<Option<Node>, AllocError>
    requires { IsVertex instance.now.n vertex }
    ensures { IfOk result (λ found. IfSome found (IsWritableNode instance.now)) }
{
    if instance.need(vertex) == Need::Required {
        return Ok(None);
    }
    let sides = avoiding(alloc, instance, vertex)?;
    Ok(Some(Node {
        id: 7,
        branch: sides.into_branch(),
        packing: no_cuts(alloc),
    }))
}

// What two workers end with that go on from that node, where a tree of some cost is known. None where
// the vertex is required, or where nobody is.
pub fn go_on_without<R: Threads + Wait + Sync>(
    rt: &R,
    alloc: Global,
    whole: &Whole,
    vertex: u32,
    start_cost: u64,
    budget: u64,
) -> Result<Option<Outcome>, AllocError>
    requires { IsVertex whole.now.instance.n vertex }
{
    let Some(certain) = first_required(&whole.instance) else {
        return Ok(None);
    };
    prove!(whole.instance.need(certain) == Need::Required);
    let Some(node) = node_without(alloc, &whole.instance, vertex)? else {
        return Ok(None);
    };
    let limits = Limits {
        workers: 2,
        budget,
        links: false,
    };
    let tree = Tree {
        start: certain,
        arcs: Listed::of(Vec::new(alloc)),
    };
    let incumbent = Incumbent {
        tree: &tree,
        cost: start_cost,
    };
    let found = run_all_from(rt, alloc, whole, node, &incumbent, limits, &OpenGate)?;
    Ok(Some(outcome_of(&found)))
}
