use crate::by_vertex::ByVertex;
use crate::move_graph::MoveGraph;
use crate::regions::Regions;
use st_model::Tree;
use std::alloc::{AllocError, Global};

// A way past links of a tree, between two of its vertices.
type Way = (u64, u32, u32);

/// What ways cost at least that join both sides of a link of a tree without it. They are known of a tree as it
/// was once, and say where to look.
#[derive(Drop)]
pub struct Bounds {
    // More than a way to the root has steps.
    count: usize,
    // By vertex the next one towards the root, and how many there are.
    ups: ByVertex<u32>,
    depths: ByVertex<u32>,
    // By vertex what a way costs at least past the link from there towards the root.
    least: ByVertex<u64>,
    // By vertex one nearer to the root, where for all links on the way the least is known; 0 for none.
    known: ByVertex<u32>,
}

impl Bounds {
    /// Those of a tree.
    pub fn of(alloc: Global, graph: &MoveGraph, tree: &Tree) -> Result<Bounds, AllocError> {
        let mut bounds = Bounds::without_ways(alloc, graph, tree)?;
        let mut ways = bounds.ways(alloc, graph, tree)?;
        ways.sort()?;
        for way in ways {
            bounds.pass(way);
        }
        Ok(bounds)
    }

    /// Those of a tree without links.
    pub fn none(alloc: Global) -> Result<Bounds, AllocError> {
        Bounds::new(alloc, 0)
    }

    fn new(alloc: Global, count: usize) -> Result<Bounds, AllocError> {
        Ok(Bounds {
            count,
            ups: ByVertex::new(alloc, count, 0)?,
            depths: ByVertex::new(alloc, count, 0)?,
            least: ByVertex::new(alloc, count, u64::MAX)?,
            known: ByVertex::new(alloc, count, 0)?,
        })
    }

    // The bounds where no way is known but over the tree.
    fn without_ways(alloc: Global, graph: &MoveGraph, tree: &Tree) -> Result<Bounds, AllocError> {
        let mut bounds = Bounds::new(alloc, graph.count())?;
        for (tail, head) in tree.arcs.as_slice() {
            bounds.ups.put(*head, *tail);
            let depth = bounds.depths.at(*tail).saturating_add(1);
            bounds.depths.put(*head, depth);
        }
        Ok(bounds)
    }

    // The ways over one link between what is nearest to one vertex of the tree and to another one.
    fn ways(&self, alloc: Global, graph: &MoveGraph, tree: &Tree) -> Result<Vec<Way>, AllocError> {
        let regions = Regions::of(alloc, graph, tree)?;
        let mut ways = Vec::new(alloc);
        for before in 0..graph.vertices() {
            self.ways_from(graph, &regions, before + 1, &mut ways)?;
        }
        Ok(ways)
    }

    fn ways_from(
        &self,
        graph: &MoveGraph,
        regions: &Regions,
        vertex: u32,
        ways: &mut Vec<Way>,
    ) -> Result<(), AllocError> {
        let (cost, base) = regions.at(vertex);
        if base == 0 {
            return Ok(());
        }
        for half in graph.open_neighbours(vertex) {
            let (more, other) = regions.at(half.to);
            if vertex < half.to && base != other && !self.is_link(vertex, half.to) {
                let total = cost.saturating_add(half.cost).saturating_add(more);
                ways.push((total, base, other))?;
            }
        }
        Ok(())
    }

    // Whether the tree has a link between two vertices.
    fn is_link(&self, a: u32, b: u32) -> bool {
        self.ups.at(a) == b || self.ups.at(b) == a
    }

    // Passes the links of the tree between the ends of a way, where no cheaper way does.
    fn pass(&mut self, way: Way) {
        let (cost, a, b) = way;
        let mut low = self.unknown(a);
        let mut high = self.unknown(b);
        for _step in 0..self.count {
            if low == high {
                break;
            }
            if self.depths.at(low) < self.depths.at(high) {
                (low, high) = (high, low);
            }
            let up = self.ups.at(low);
            self.least.put(low, cost);
            self.known.put(low, up);
            low = self.unknown(up);
        }
    }

    // The first vertex on the way to the root from which the link isn't known.
    fn unknown(&mut self, vertex: u32) -> u32 {
        let mut here = vertex;
        for _step in 0..self.count {
            let next = self.known.at(here);
            if next == 0 {
                break;
            }
            let after = self.known.at(next);
            if after != 0 {
                self.known.put(here, after);
            }
            here = next;
        }
        here
    }

    /// What a way costs at least past the link between two vertices; 0 where the tree had none.
    pub fn past(&self, a: u32, b: u32) -> u64 {
        if self.ups.at(a) == b {
            self.least.at(a)
        } else if self.ups.at(b) == a {
            self.least.at(b)
        } else {
            0
        }
    }
}
