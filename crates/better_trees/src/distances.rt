use bidirected_form::Arcs;
use st_model::VertexSet;
use std::alloc::{AllocError, Global};
use std::cmp::Reverse;
use std::collections::BinaryHeap;

// A search for how far vertices are from the root of some arcs.
#[derive(Drop)]
struct Search {
    // Ways that wait: how far they lead, and where to.
    ways: BinaryHeap<Reverse<(u64, u32)>>,
    // By vertex the shortest way so far; the limit, where none is shorter.
    least: Vec<u64>,
    // The vertices to which shortest ways were followed.
    near: Vec<u32>,
}

/// The vertices that are nearer to the root than a limit, over what remains of the arcs.
/// (Dijkstra 1959)
pub fn near_root(alloc: Global, arcs: &Arcs, limit: u64) -> Result<VertexSet, AllocError> {
    let count = arcs.vertices() as usize + 1;
    let mut search = Search {
        ways: BinaryHeap::new(alloc),
        least: vec![in alloc; limit; count]?,
        near: Vec::new(alloc),
    };
    search.offer(arcs.root(), 0)?;
    for _way in 0..u64::MAX {
        let Some(Reverse((distance, vertex))) = search.ways.pop() else {
            break;
        };
        search.take(arcs, distance, vertex)?;
    }
    VertexSet::of(alloc, count, &search.near)
}

impl Search {
    // Offers a vertex a way, unless it has one that is as short.
    fn offer(&mut self, vertex: u32, distance: u64) -> Result<(), AllocError> {
        if let Some(least) = self.least.get_mut(vertex as usize) {
            if distance < *least {
                *least = distance;
                self.ways.push(Reverse((distance, vertex)))?;
            }
        }
        Ok(())
    }

    // Follows a way to a vertex, unless a shorter one was offered.
    fn take(&mut self, arcs: &Arcs, distance: u64, vertex: u32) -> Result<(), AllocError> {
        if self.least.get(vertex as usize).copied() != Some(distance) {
            return Ok(());
        }
        self.near.push(vertex)?;
        if vertex < 1 || arcs.vertices() < vertex {
            return Ok(());
        }
        for head in arcs.neighbours(vertex) {
            if let Some(more) = arcs.remaining(vertex, *head) {
                self.offer(*head, distance.saturating_add(more))?;
            }
        }
        Ok(())
    }
}
