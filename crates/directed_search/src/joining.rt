use arborescence::DiInstance;
use st_model::VertexLists;
use std::alloc::{AllocError, Global};
use std::cmp::Reverse;
use std::collections::BinaryHeap;

// A tree that grows by shortest ways from it.
#[derive(Drop)]
struct Joining {
    // Ways that wait: how far they lead from the tree, and where to.
    ways: BinaryHeap<Reverse<(u64, u32)>>,
    // By vertex the shortest way so far, and from where it comes last.
    least: Vec<u64>,
    tails: Vec<u32>,
    // Whether a vertex is in the tree.
    joined: Vec<bool>,
    arcs: Vec<(u32, u32)>,
}

// Arcs that grow from the root along listed heads: one terminal after another is joined by a shortest way from
// what was joined before (Takahashi and Matsuyama 1980).
pub fn nearest_ways(
    alloc: Global,
    instance: &DiInstance,
    heads: &VertexLists<u32>,
) -> Result<Vec<(u32, u32)>, AllocError> {
    let mut joining = Joining::new(alloc, instance.vertices() as usize + 1)?;
    joining.join(instance.root())?;
    for _way in 0..u64::MAX {
        let Some(Reverse((distance, vertex))) = joining.ways.pop() else {
            break;
        };
        joining.take(alloc, instance, heads, distance, vertex)?;
    }
    Ok(joining.arcs)
}

impl Joining {
    // Nothing is joined yet.
    fn new(alloc: Global, count: usize) -> Result<Joining, AllocError> {
        Ok(Joining {
            ways: BinaryHeap::new(alloc),
            least: vec![in alloc; u64::MAX; count]?,
            tails: vec![in alloc; 0; count]?,
            joined: vec![in alloc; false; count]?,
            arcs: Vec::new(alloc),
        })
    }

    fn is_joined(&self, vertex: u32) -> bool {
        self.joined.get(vertex as usize).copied().unwrap_or(true)
    }

    // Puts a vertex into the tree, from where ways lead on.
    fn join(&mut self, vertex: u32) -> Result<(), AllocError> {
        if let Some(joined) = self.joined.get_mut(vertex as usize) {
            *joined = true;
        }
        if let Some(least) = self.least.get_mut(vertex as usize) {
            *least = 0;
        }
        self.ways.push(Reverse((0, vertex)))?;
        Ok(())
    }

    // Offers a vertex a way, unless it has one that is as short.
    fn offer(&mut self, tail: u32, head: u32, distance: u64) -> Result<(), AllocError> {
        if let Some(least) = self.least.get_mut(head as usize) {
            if distance < *least {
                *least = distance;
                self.ways.push(Reverse((distance, head)))?;
                if let Some(from) = self.tails.get_mut(head as usize) {
                    *from = tail;
                }
            }
        }
        Ok(())
    }

    // Follows a way to a vertex, unless a shorter one was offered. A terminal is joined first.
    fn take(
        &mut self,
        alloc: Global,
        instance: &DiInstance,
        heads: &VertexLists<u32>,
        distance: u64,
        vertex: u32,
    ) -> Result<(), AllocError> {
        if self.least.get(vertex as usize).copied() != Some(distance) {
            return Ok(());
        }
        if instance.is_terminal(vertex) && !self.is_joined(vertex) {
            return self.join_way(alloc, instance, vertex);
        }
        if heads.count() <= vertex as usize {
            return Ok(());
        }
        for head in heads.at(vertex) {
            if let Some(cost) = instance.away_cost(vertex, *head) {
                self.offer(vertex, *head, distance.saturating_add(cost))?;
            }
        }
        Ok(())
    }

    // Joins all of the way to a vertex.
    fn join_way(
        &mut self,
        alloc: Global,
        instance: &DiInstance,
        vertex: u32,
    ) -> Result<(), AllocError> {
        let way = self.way(alloc, instance, vertex)?;
        for (tail, head) in way.iter().rev() {
            self.arcs.push((*tail, *head))?;
            self.join(*head)?;
        }
        Ok(())
    }

    // The arcs of the way to a vertex from the tree, the last first.
    fn way(
        &self,
        alloc: Global,
        instance: &DiInstance,
        vertex: u32,
    ) -> Result<Vec<(u32, u32)>, AllocError> {
        let mut way = Vec::new(alloc);
        let mut here = vertex;
        for _step in 0..instance.vertices() {
            if self.is_joined(here) {
                break;
            }
            let tail = self.tails.get(here as usize).copied().unwrap_or(0);
            way.push((tail, here))?;
            here = tail;
        }
        Ok(way)
    }
}
