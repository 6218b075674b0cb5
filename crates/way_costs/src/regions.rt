use crate::by_vertex::ByVertex;
use crate::move_graph::MoveGraph;
use st_model::Tree;
use std::alloc::{AllocError, Global};
use std::cmp::Reverse;
use std::collections::BinaryHeap;

// By vertex, how far the nearest vertex of a tree is over links to those that a tree may reach, and which
// that is; 0 where none is near.
#[derive(Drop)]
pub struct Regions {
    offers: BinaryHeap<Reverse<(u64, u32)>>,
    marks: ByVertex<(u64, u32)>,
}

impl Regions {
    // Those of a tree (Mehlhorn 1988).
    pub fn of(alloc: Global, graph: &MoveGraph, tree: &Tree) -> Result<Regions, AllocError> {
        let mut regions = Regions {
            offers: BinaryHeap::new(alloc),
            marks: ByVertex::new(alloc, graph.count(), (u64::MAX, 0))?,
        };
        regions.marks.put(tree.start, (0, tree.start));
        for (_, head) in tree.arcs.as_slice() {
            regions.marks.put(*head, (0, *head));
        }
        regions.expand(graph, tree.start)?;
        for (_, head) in tree.arcs.as_slice() {
            regions.expand(graph, *head)?;
        }
        regions.follow(graph)?;
        Ok(regions)
    }

    pub fn at(&self, vertex: u32) -> (u64, u32) {
        self.marks.at(vertex)
    }

    fn follow(&mut self, graph: &MoveGraph) -> Result<(), AllocError> {
        for _offer in 0..u64::MAX {
            let Some(Reverse((cost, vertex))) = self.offers.pop() else {
                break;
            };
            if cost == self.marks.at(vertex).0 {
                self.expand(graph, vertex)?;
            }
        }
        Ok(())
    }

    // Offers the links of a vertex to those round it.
    fn expand(&mut self, graph: &MoveGraph, vertex: u32) -> Result<(), AllocError> {
        let (cost, base) = self.marks.at(vertex);
        for half in graph.open_neighbours(vertex) {
            let offered = cost.saturating_add(half.cost);
            if offered < self.marks.at(half.to).0 {
                self.marks.put(half.to, (offered, base));
                self.offers.push(Reverse((offered, half.to)))?;
            }
        }
        Ok(())
    }
}
