use crate::rooted::Rooted;
use better_trees::by_vertex::{at, put};
use better_trees::{Draws, Place};
use cut_packing::{Cut, Packing};
use dual_ascent::Extension;
use graph_store::Whole;
use std::alloc::{AllocError, Global};

/// What parts a packing from a tree: where there is no fault, they weigh the same.
#[derive(Clone, Copy)]
pub enum Fault {
    /// The tree enters the set of the cut at this place more often than it has to.
    Cut(usize),
    /// Something is left of the arc over which the tree comes to this vertex, or of its prize where it
    /// doesn't come.
    Vertex(u32),
}

/// A random fault of an extension's packing, if there are any. Nothing is claimed of it:
/// what is changed there is judged.
pub fn random_fault(
    alloc: Global,
    place: &Place<'_>,
    extension: &Extension,
    tree: &Rooted,
    draws: &mut Draws,
) -> Result<Option<Fault>, AllocError> {
    let whole = place.whole;
    let packing = extension.ascent.packing();
    let mut faults = faulty_cuts(alloc, whole, packing, tree)?;
    let named = named(alloc, whole, packing)?;
    for before in 0..whole.instance.vertices() {
        let vertex = before + 1;
        let is_fault = match tree.tail(vertex) {
            Some(tail) => extension.left.arcs.remaining(tail, vertex).unwrap_or(0) > 0,
            None => {
                !tree.has(vertex)
                    && place.branch.is_free(&whole.instance, vertex)
                    && whole.instance.prize(vertex) > at(&named, vertex, 0)
            }
        };
        if is_fault {
            faults.push(Fault::Vertex(vertex))?;
        }
    }
    let index = draws.below(faults.len() as u64) as usize;
    Ok(faults.get(index).copied())
}

// The cuts that the tree enters more often than it has to.
fn faulty_cuts(
    alloc: Global,
    whole: &Whole,
    packing: &Packing,
    tree: &Rooted,
) -> Result<Vec<Fault>, AllocError> {
    let mut marks = vec![in alloc; false; whole.instance.vertices() as usize + 1]?;
    let mut faults = Vec::new(alloc);
    for (place, cut) in packing.cuts.as_slice().iter().enumerate() {
        if cut.y > 0 && entries(&mut marks, cut, tree) > needed(cut, tree) {
            faults.push(Fault::Cut(place))?;
        }
    }
    Ok(faults)
}

// How often the tree has to enter a cut's set.
fn needed(cut: &Cut, tree: &Rooted) -> u64 {
    if tree.has(cut.q) { 1 } else { 0 }
}

// How often the tree enters a cut's set. No mark is set before or after.
fn entries(marks: &mut [bool], cut: &Cut, tree: &Rooted) -> u64 {
    mark(marks, cut, true);
    let mut entries: u64 = 0;
    for vertex in cut.set.as_slice() {
        if let Some(tail) = tree.tail(*vertex) {
            if !at(marks, tail, false) {
                entries = entries.saturating_add(1);
            }
        }
    }
    mark(marks, cut, false);
    entries
}

fn mark(marks: &mut [bool], cut: &Cut, is_in: bool) {
    for vertex in cut.set.as_slice() {
        put(marks, *vertex, is_in);
    }
}

// By vertex the values of the cuts that name it.
fn named(alloc: Global, whole: &Whole, packing: &Packing) -> Result<Vec<u64>, AllocError> {
    let mut named: Vec<u64> = vec![in alloc; 0; whole.instance.vertices() as usize + 1]?;
    for cut in packing.cuts.as_slice() {
        let named_before: u64 = at(&named, cut.q, 0);
        put(&mut named, cut.q, named_before.saturating_add(cut.y));
    }
    Ok(named)
}
