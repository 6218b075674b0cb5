use st_model::{Listed, Tree};
use std::alloc::{AllocError, Global};
use std::cmp::Reverse;
use std::collections::BinaryHeap;
use way_costs::{ByVertex, MoveGraph};

// A least spanning tree of what a tree reaches, as far as links lead (Prim 1957).
pub fn spanning_tree(alloc: Global, graph: &MoveGraph, tree: &Tree) -> Result<Tree, AllocError> {
    let mut growth = Growth::at(alloc, graph, tree)?;
    for _offer in 0..u64::MAX {
        let Some(Reverse((_, head, tail))) = growth.offers.pop() else {
            break;
        };
        growth.take(graph, tail, head)?;
    }
    Ok(Tree {
        start: tree.start,
        arcs: Listed::of(growth.arcs),
    })
}

// A tree that takes one cheapest link after another.
#[derive(Drop)]
struct Growth {
    // Links to vertices that are to be reached: the cost, the head and the tail.
    offers: BinaryHeap<Reverse<(u64, u32, u32)>>,
    // Whether each vertex is still to be reached.
    missing: ByVertex<bool>,
    arcs: Vec<(u32, u32)>,
}

impl Growth {
    // The start alone.
    fn at(alloc: Global, graph: &MoveGraph, tree: &Tree) -> Result<Growth, AllocError> {
        let mut growth = Growth {
            offers: BinaryHeap::new(alloc),
            missing: ByVertex::new(alloc, graph.count(), false)?,
            arcs: Vec::new(alloc),
        };
        for (_, head) in tree.arcs.as_slice() {
            growth.missing.put(*head, true);
        }
        growth.offer(graph, tree.start)?;
        Ok(growth)
    }

    // Takes an arc, unless its head is reached already.
    fn take(&mut self, graph: &MoveGraph, tail: u32, head: u32) -> Result<(), AllocError> {
        if !self.missing.at(head) {
            return Ok(());
        }
        self.missing.put(head, false);
        self.arcs.push((tail, head))?;
        self.offer(graph, head)
    }

    // Offers the links that lead on from a tail.
    fn offer(&mut self, graph: &MoveGraph, tail: u32) -> Result<(), AllocError> {
        for half in graph.neighbours(tail) {
            if self.missing.at(half.to) {
                self.offers.push(Reverse((half.cost, half.to, tail)))?;
            }
        }
        Ok(())
    }
}
