ghost use Rattle.std.specs.Prelude.{IfOk};
ghost use Rattle.cut_packing.specs.Saturated.{AreSaturatedIn};
ghost use Rattle.arborescence.specs.DiNetwork.{di_ground};

use crate::joining::nearest_ways;
use arborescence::{DiInstance, free_arcs};
use cut_packing::{Packing, heads_of, lay_cuts};
use st_model::{Listed, Sides, Tree, VertexLists};
use std::alloc::{AllocError, Global};

// What is maybe a tree: shortest ways to the terminals over arcs whose whole cost the cuts take.
pub fn guessed(
    alloc: Global,
    instance: &DiInstance,
    branch: &Sides,
    packing: &Packing,
) -> Result<Tree, AllocError> {
    let heads = saturated(alloc, instance, branch, packing)?;
    let arcs = nearest_ways(alloc, instance, &heads)?;
    pruned(alloc, instance, &arcs)
}

// What is maybe a tree: of arcs that grow from the root those that lead to a terminal.
pub fn pruned(
    alloc: Global,
    instance: &DiInstance,
    arcs: &[(u32, u32)],
) -> Result<Tree, AllocError> {
    let arcs = leading(alloc, instance, arcs)?;
    Ok(Tree {
        start: instance.root(),
        arcs: Listed::of(arcs),
    })
}

// The heads of the arcs whose whole cost the cuts take, listed at their tails.
fn saturated(
    alloc: Global,
    instance: &DiInstance,
    branch: &Sides,
    packing: &Packing,
) -> Result<VertexLists<u32>, AllocError>
    ensures { IfOk result (AreSaturatedIn (di_ground instance.now) branch.now packing.now) }
{
    let free = free_arcs(alloc, instance, branch)?;
    let arcs = lay_cuts(alloc, free, packing.cuts.as_slice())?;
    heads_of(alloc, &arcs, instance.vertices() + 1)
}

// The arcs that lead to a terminal, in their order.
fn leading(
    alloc: Global,
    instance: &DiInstance,
    arcs: &[(u32, u32)],
) -> Result<Vec<(u32, u32)>, AllocError> {
    let mut used = vec![in alloc; false; instance.vertices() as usize + 1]?;
    let mut kept = Vec::new(alloc);
    for (tail, head) in arcs.iter().rev() {
        if instance.is_terminal(*head) || is_marked(&used, *head) {
            kept.push((*tail, *head))?;
            mark(&mut used, *tail);
        }
    }
    kept.reverse();
    Ok(kept)
}

// Whether a vertex is marked.
fn is_marked(marks: &[bool], vertex: u32) -> bool {
    marks.get(vertex as usize).copied().unwrap_or(false)
}

// Marks a vertex.
fn mark(marks: &mut [bool], vertex: u32) {
    if let Some(place) = marks.get_mut(vertex as usize) {
        *place = true;
    }
}
