use crate::by_vertex::{at, put};
use crate::place::Place;
use crate::saturated::Saturated;
use st_model::{Listed, Tree};
use std::alloc::{AllocError, Global};
use std::cmp::Reverse;
use std::collections::BinaryHeap;

// What a vertex weighs without a weight, in hundredths.
const ONE: u64 = 100;

// A tree that grows from a root over saturated arcs, by one cheap path after another. Nothing is
// claimed of it: the tree is judged.
#[derive(Drop)]
struct Growth {
    // Offers that wait: what it costs to reach a vertex from the tree, and the vertex.
    offers: BinaryHeap<Reverse<(u64, u32)>>,
    // By vertex, the least that it was offered.
    least: Vec<u64>,
    // By vertex, from where.
    tails: Vec<u32>,
    // By vertex, whether it is in the tree.
    joined: Vec<bool>,
    // The arcs of the tree, each from a vertex that is reached.
    arcs: Vec<(u32, u32)>,
}

/// A tree from the root over saturated arcs, to all that it has to reach, as far as these lead there, and
/// to whoever pays more than it costs to reach. The cost of an arc is weighted by its head, in hundredths; a
/// vertex past the weights weighs 100. (Wong 1984)
pub fn path_tree(
    alloc: Global,
    place: &Place<'_>,
    arcs: &Saturated,
    weights: &[u64],
) -> Result<Tree, AllocError> {
    let root = arcs.root;
    let mut growth = Growth::at(alloc, place.whole.store.vertices(), root)?;
    for _offer in 0..u64::MAX {
        let Some(Reverse((cost, vertex))) = growth.offers.pop() else {
            break;
        };
        growth.take(place, arcs, weights, cost, vertex)?;
    }
    Ok(Tree {
        start: root,
        arcs: Listed::of(growth.arcs),
    })
}

impl Growth {
    // The root alone.
    fn at(alloc: Global, vertices: u32, root: u32) -> Result<Growth, AllocError> {
        let count = vertices as usize + 1;
        let mut growth = Growth {
            offers: BinaryHeap::new(alloc),
            least: vec![in alloc; u64::MAX; count]?,
            tails: vec![in alloc; root; count]?,
            joined: vec![in alloc; false; count]?,
            arcs: Vec::new(alloc),
        };
        put(&mut growth.joined, root, true);
        growth.offer(root, root, 0)?;
        Ok(growth)
    }

    // Offers a vertex a path from a tail, unless it has one that costs no more.
    fn offer(&mut self, vertex: u32, tail: u32, cost: u64) -> Result<(), AllocError> {
        if cost < at(&self.least, vertex, 0) {
            put(&mut self.least, vertex, cost);
            put(&mut self.tails, vertex, tail);
            self.offers.push(Reverse((cost, vertex)))?;
        }
        Ok(())
    }

    // Takes an offer, unless a better one came later: the path to its vertex joins the tree where it is
    // worth it, and else the search goes on from there.
    fn take(
        &mut self,
        place: &Place<'_>,
        arcs: &Saturated,
        weights: &[u64],
        cost: u64,
        vertex: u32,
    ) -> Result<(), AllocError> {
        if at(&self.least, vertex, 0) != cost {
            return Ok(());
        }
        if !at(&self.joined, vertex, true) && is_worth(place, vertex, cost) {
            return self.join(vertex);
        }
        self.expand(arcs, weights, cost, vertex)
    }

    // The path to a vertex joins the tree: its vertices are offered at no cost.
    fn join(&mut self, vertex: u32) -> Result<(), AllocError> {
        let first = self.arcs.len();
        let mut head = vertex;
        for _step in 0..self.tails.len() {
            if at(&self.joined, head, true) {
                break;
            }
            put(&mut self.joined, head, true);
            let tail = at(&self.tails, head, head);
            self.arcs.push((tail, head))?;
            self.offer(head, tail, 0)?;
            head = tail;
        }
        if let Some(path) = self.arcs.as_mut_slice().get_mut(first..) {
            path.reverse();
        }
        Ok(())
    }

    // Offers each vertex to which a saturated arc leads what it costs by there.
    fn expand(
        &mut self,
        arcs: &Saturated,
        weights: &[u64],
        cost: u64,
        tail: u32,
    ) -> Result<(), AllocError> {
        for half in arcs.from(tail) {
            if !at(&self.joined, half.to, true) {
                let weighted = half.cost.saturating_mul(at(weights, half.to, ONE));
                self.offer(half.to, tail, cost.saturating_add(weighted))?;
            }
        }
        Ok(())
    }
}

// Whether a vertex has to be reached, or pays more than it costs to reach.
fn is_worth(place: &Place<'_>, vertex: u32, cost: u64) -> bool {
    let instance = &place.whole.instance;
    if vertex < 1 || instance.vertices() < vertex {
        return false;
    }
    let prize = instance.prize(vertex);
    place.branch.is_certain(instance, vertex) || prize.saturating_mul(ONE) > cost
}
