ghost use Rattle.std.specs.Prelude.{◌≡◌, ◌<◌, ◌≤◌, IfOk, IfSome, IfNone, IsTrue};
ghost use Rattle.st_model.specs.Arborescence.{cost};
ghost use Rattle.st_model.specs.Lists.{sum_to};
ghost use Rattle.st_model.specs.Network.{IsVertex, is_required, pays};
ghost use Rattle.st_model.specs.Branch.{IsBranch, NoneIsCertain, all_trees, with_outside};

use graph_store::Whole;
use search_core::Gathered;
use st_model::{Branch, Instance, Listed, Need, Sides, Tree, is_tree};
use std::alloc::{AllocError, Global};
use std::sync::Wait;
use std::thread::Threads;
use test_instances::bit;
use tree_heuristic::first_tree;
use worker_loop::{Gate, Limits, OpenGate, run_all};

// How a search ended.
#[derive(Clone, Copy, Debug, PartialEq, Eq)]
pub struct Outcome {
    pub least: u64,
    pub claimed: u64,
    pub waiting: usize,
}

// What a search ends with, from a tree over all links where somebody is required, and else from
// vertex 1 alone. None where that isn't a tree.
pub fn run<R: Threads + Wait + Sync, G: Gate>(
    rt: &R,
    alloc: Global,
    whole: &Whole,
    workers: u32,
    budget: u64,
    gate: &G,
) -> Result<Option<Outcome>, AllocError>
    requires { (0 < workers) × (workers ≤ 64) }
{
    match first_required(&whole.instance) {
        Some(vertex) => {
            let start = grown(alloc, &whole.instance, vertex)?;
            run_from(rt, alloc, whole, start, workers, budget, gate)
        }
        None => {
            let start = lone(alloc, &whole.instance);
            run_from(rt, alloc, whole, start, workers, budget, gate)
        }
    }
}

fn run_from<R: Threads + Wait + Sync, G: Gate>(
    rt: &R,
    alloc: Global,
    whole: &Whole,
    start: Tree,
    workers: u32,
    budget: u64,
    gate: &G,
) -> Result<Option<Outcome>, AllocError>
    requires few { (0 < workers) × (workers ≤ 64) }
    requires cheap { NoneIsCertain whole.now.instance all_trees
        → cost whole.now.instance start ≤ sum_to (pays whole.now.instance) whole.now.instance.n }
{
    if !is_tree(alloc, &whole.instance, &start)? {
        return Ok(None);
    }
    let all = Branch::all(alloc);
    let limits = Limits {
        workers,
        budget,
        links: false,
    };
    let found = run_all(rt, alloc, whole, &all, &start, limits, gate)?;
    Ok(Some(outcome_of(&found)))
}

// The branch of the trees that avoid a vertex.
pub fn avoiding(alloc: Global, instance: &Instance, vertex: u32) -> Result<Sides, AllocError>
    requires { IsVertex instance.now.n vertex }
    ensures { IfOk result (λ sides. IsBranch instance.now sides × (sides ≡ with_outside all_trees vertex)) }
{
    let branch = Branch::all(alloc).with_outside(alloc, vertex)?;
    let sides = Sides::of(alloc, branch)?;
    Ok(sides)
}

// What a search of the trees that avoid a vertex ends with, from a first tree. None where there is
// none, where the vertex is required, or where nobody is.
pub fn run_without<R: Threads + Wait + Sync>(
    rt: &R,
    alloc: Global,
    whole: &Whole,
    vertex: u32,
    budget: u64,
) -> Result<Option<Outcome>, AllocError>
    requires { IsVertex whole.now.instance.n vertex }
{
    let Some(certain) = first_required(&whole.instance) else {
        return Ok(None);
    };
    prove!(whole.instance.need(certain) == Need::Required);
    if whole.instance.need(vertex) == Need::Required {
        return Ok(None);
    }
    let sides = avoiding(alloc, &whole.instance, vertex)?;
    let Some(start) = first_tree(alloc, &whole.store, &sides)? else {
        return Ok(None);
    };
    let branch = sides.branch();
    let limits = Limits {
        workers: 2,
        budget,
        links: false,
    };
    let found = run_all(rt, alloc, whole, branch, &start, limits, &OpenGate)?;
    Ok(Some(outcome_of(&found)))
}

// How a search ended, by what was gathered.
pub fn outcome_of(found: &Gathered) -> Outcome {
    let mut waiting = found.queued.as_slice().len();
    for segment in found.segments.as_slice() {
        waiting = waiting.saturating_add(segment.left.as_slice().len());
    }
    Outcome {
        least: found.least,
        claimed: found.claimed,
        waiting,
    }
}

// The first vertex that is required.
pub fn first_required(instance: &Instance) -> Option<u32>
    ensures vertex { IfSome result (IsVertex instance.now.n) }
    ensures required { IfSome result (λ v. IsTrue (is_required instance.now v)) }
    ensures none { IfNone result (NoneIsCertain instance.now all_trees) }
{
    for before in 0..instance.vertices() {
        if instance.need(before + 1) == Need::Required {
            return Some(before + 1);
        }
    }
    None
}

// Vertex 1 alone.
fn lone(alloc: Global, instance: &Instance) -> Tree
    ensures { cost instance.now result ≤ sum_to (pays instance.now) instance.now.n }
{
    prove!(1 <= instance.vertices());
    Tree {
        start: 1,
        arcs: Listed::of(Vec::new(alloc)),
    }
}

// A tree over all that hangs together with a vertex.
fn grown(alloc: Global, instance: &Instance, first: u32) -> Result<Tree, AllocError> {
    let mut arcs = Vec::new(alloc);
    let mut reached = bit(first);
    for _turn in 0..instance.vertices() {
        reached = grow(instance, reached, &mut arcs)?;
    }
    Ok(Tree {
        start: first,
        arcs: Listed::of(arcs),
    })
}

// Adds each link in turn that leads from what is reached to a new vertex; all that is reached then.
fn grow(
    instance: &Instance,
    mut reached: u32,
    arcs: &mut Vec<(u32, u32)>,
) -> Result<u32, AllocError> {
    for link in instance.links() {
        let (a, b) = (bit(link.a), bit(link.b));
        if reached & a != 0 && reached & b == 0 {
            arcs.push((link.a, link.b))?;
        } else if reached & b != 0 && reached & a == 0 {
            arcs.push((link.b, link.a))?;
        } else {
            continue;
        }
        reached = reached | a | b;
    }
    Ok(reached)
}
