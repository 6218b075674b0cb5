use crate::draft::Draft;
use crate::joins::Joins;
use graph_store::Half;
use std::alloc::{AllocError, Global};
use std::cmp::Reverse;
use std::collections::BinaryHeap;
use way_costs::{ByVertex, MoveGraph};

// How far a vertex is from the nearest part, the vertex before it on the way from there, and the
// part; 0 in place of the part where none is near.
#[derive(Clone, Copy)]
struct Mark {
    cost: u64,
    from: u32,
    part: u32,
}

const UNMARKED: Mark = Mark {
    cost: u64::MAX,
    from: 0,
    part: 0,
};

// A link between what is near one part and what is near another one, or in the rest of the tree:
// what it costs with the ways to both, its ends, and what it costs itself.
#[derive(Clone, Copy, PartialEq, Eq, PartialOrd, Ord)]
pub struct Bridge {
    pub total: u64,
    pub tail: u32,
    pub head: u32,
    pub cost: u64,
}

// From how many vertices all searches of a pass go on together, at most, about: there are hardly more of them than
// links, and each has the same share.
const SHARE: u64 = 100_000_000;

// A search from parts that were cut off a tree for short ways that join them with it again.
#[derive(Drop)]
pub struct Search {
    offers: BinaryHeap<Reverse<(u64, u32)>>,
    marks: ByVertex<Mark>,
    // The vertices that are marked.
    marked: Vec<u32>,
    // From how many vertices a search goes on at most, those of the parts too.
    most: usize,
    parts: u32,
    // The bridges that were found and not weighed yet, and those that join parts which were apart.
    bridges: BinaryHeap<Reverse<Bridge>>,
    chosen: Vec<Bridge>,
    joins: Joins,
    // What is left of what the bridges may cost together.
    rest: u64,
    // Only ways that cost less are of use.
    limit: u64,
}

impl Search {
    pub fn new(alloc: Global, graph: &MoveGraph) -> Result<Search, AllocError> {
        Ok(Search {
            offers: BinaryHeap::new(alloc),
            marks: ByVertex::new(alloc, graph.count(), UNMARKED)?,
            marked: Vec::new(alloc),
            most: graph.times(u64::MAX, SHARE) as usize,
            parts: 0,
            bridges: BinaryHeap::new(alloc),
            chosen: Vec::new(alloc),
            joins: Joins::new(alloc),
            rest: 0,
            limit: 0,
        })
    }

    // Forgets all parts.
    pub fn begin(&mut self) {
        for place in 0..self.marked.len() {
            let vertex = self.marked.get(place).copied().unwrap_or(0);
            self.marks.put(vertex, UNMARKED);
        }
        self.marked.clear();
        self.offers.clear();
        self.bridges.clear();
        self.chosen.clear();
        self.parts = 0;
    }

    // The vertex before this one on the way from its part, and what the link there costs.
    pub fn before(&self, vertex: u32) -> (u32, u64) {
        let mark = self.marks.at(vertex);
        let before = self.marks.at(mark.from);
        (mark.from, mark.cost.saturating_sub(before.cost))
    }

    // The bridges that were chosen, the cheapest one first.
    pub fn bridges(&self) -> &[Bridge] {
        self.chosen.as_slice()
    }

    fn mark(&mut self, vertex: u32, mark: Mark) -> Result<(), AllocError> {
        if self.marks.at(vertex).part == 0 {
            self.marked.push(vertex)?;
        }
        self.marks.put(vertex, mark);
        Ok(())
    }

    // All that hangs at the top of a part is one more part.
    pub fn add_part(
        &mut self,
        graph: &MoveGraph,
        draft: &Draft,
        top: u32,
    ) -> Result<(), AllocError> {
        self.parts = self.parts.saturating_add(1);
        let mark = Mark {
            cost: 0,
            from: 0,
            part: self.parts,
        };
        let first = self.marked.len();
        self.mark(top, mark)?;
        for place in first..self.most {
            let Some(vertex) = self.marked.get(place).copied() else {
                break;
            };
            self.add_below(graph, draft, vertex, mark)?;
        }
        Ok(())
    }

    fn add_below(
        &mut self,
        graph: &MoveGraph,
        draft: &Draft,
        vertex: u32,
        mark: Mark,
    ) -> Result<(), AllocError> {
        for half in graph.neighbours(vertex) {
            if draft.is_below(half.to, vertex) {
                self.mark(half.to, mark)?;
            }
        }
        Ok(())
    }

    // Chooses the cheapest bridges that join all parts with the rest, over ways that cost less than a limit each;
    // whether there are enough. It ends where they can't cost less than so much together, and gives up where too many
    // vertices are near. (Kruskal 1956)
    pub fn spread(
        &mut self,
        graph: &MoveGraph,
        draft: &Draft,
        limit: u64,
        together: u64,
    ) -> Result<bool, AllocError> {
        self.rest = together;
        self.limit = limit;
        self.joins.begin(self.parts)?;
        if self.marked.len() > self.most {
            return Ok(false);
        }
        for place in 0..self.marked.len() {
            let vertex = self.marked.get(place).copied().unwrap_or(0);
            self.expand(graph, draft, vertex)?;
        }
        self.follow(graph, draft)?;
        Ok(self.joins.are_done())
    }

    fn follow(&mut self, graph: &MoveGraph, draft: &Draft) -> Result<(), AllocError> {
        for _offer in self.marked.len()..self.most {
            let Some(Reverse((cost, vertex))) = self.offers.pop() else {
                return self.choose(u64::MAX);
            };
            self.choose(cost)?;
            if cost >= self.limit {
                break;
            }
            if cost == self.marks.at(vertex).cost {
                self.expand(graph, draft, vertex)?;
            }
        }
        Ok(())
    }

    // Weighs the bridges that cost no more than the way that is to be followed now. None is found later that costs
    // less than that, so each of those still wanted costs as much at least, and ways beyond what that leaves for
    // the last of them are of no use.
    fn choose(&mut self, cost: u64) -> Result<(), AllocError> {
        for _bridge in 0..u64::MAX {
            let Some(bridge) = self.next_bridge(cost) else {
                break;
            };
            self.take(bridge)?;
        }
        let others = u64::from(self.joins.left().saturating_sub(1));
        let last = self.rest.saturating_sub(others.saturating_mul(cost));
        self.limit = self.limit.min(last);
        Ok(())
    }

    // The cheapest bridge that wasn't weighed yet, if it costs no more than so much.
    fn next_bridge(&mut self, cost: u64) -> Option<Bridge> {
        match self.bridges.peek() {
            Some(Reverse(bridge)) if bridge.total <= cost => {}
            _ => return None,
        }
        let Reverse(bridge) = self.bridges.pop()?;
        Some(bridge)
    }

    // Takes a bridge, if it joins parts that are apart.
    fn take(&mut self, bridge: Bridge) -> Result<(), AllocError> {
        let tail = self.marks.at(bridge.tail).part;
        let head = self.marks.at(bridge.head).part;
        if self.joins.join(tail, head) {
            self.rest = self.rest.saturating_sub(bridge.total);
            self.chosen.push(bridge)?;
        }
        if self.joins.are_done() {
            self.bridges.clear();
            self.limit = 0;
        }
        Ok(())
    }

    // Goes over the links of a vertex, as far as they are of use.
    fn expand(&mut self, graph: &MoveGraph, draft: &Draft, vertex: u32) -> Result<(), AllocError> {
        let here = self.marks.at(vertex);
        for half in graph.open_neighbours(vertex) {
            let cost = here.cost.saturating_add(half.cost);
            if cost >= self.limit {
                break;
            }
            self.offer(draft, vertex, here.part, cost, *half)?;
        }
        Ok(())
    }

    // Goes over a link of a part, which leads so far: it is a bridge, or leads to a vertex that nothing
    // was as near to.
    fn offer(
        &mut self,
        draft: &Draft,
        tail: u32,
        part: u32,
        cost: u64,
        half: Half,
    ) -> Result<(), AllocError> {
        let there = self.marks.at(half.to);
        if there.part == 0 && draft.is_reached(half.to) {
            if self.parts == 1 {
                self.limit = cost;
            }
            return self.bridge(cost, tail, half);
        }
        if there.part != 0 && there.part != part {
            self.bridge(cost.saturating_add(there.cost), tail, half)?;
        }
        if cost >= there.cost {
            return Ok(());
        }
        self.offers.push(Reverse((cost, half.to)))?;
        let mark = Mark {
            cost,
            from: tail,
            part,
        };
        self.mark(half.to, mark)
    }

    fn bridge(&mut self, total: u64, tail: u32, half: Half) -> Result<(), AllocError> {
        let bridge = Bridge {
            total,
            tail,
            head: half.to,
            cost: half.cost,
        };
        self.bridges.push(Reverse(bridge))?;
        Ok(())
    }
}
