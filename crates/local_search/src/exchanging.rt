use crate::draft::Draft;
use crate::key_paths::{may_exchange, may_take_out};
use crate::search::{Bridge, Search};
use st_model::Tree;
use std::alloc::{AllocError, Global};
use way_costs::{Bounds, ByVertex, MoveGraph};

// How often each vertex is tried at most.
const PASSES: u64 = 5;

// How many links all passes go over together, about. Each goes over the whole network: up to 20,000 links all passes
// are made, and above 50,000 one.
const SHARE: u64 = 100_000;

// The tree with key paths exchanged and key vertices taken out, one after another, where each
// makes it cheaper.
pub fn with_exchanges(alloc: Global, graph: &MoveGraph, tree: &Tree) -> Result<Tree, AllocError> {
    let mut exchange = Exchange::of(alloc, graph, tree)?;
    exchange.draft.root_at(centre(alloc, graph, tree)?)?;
    for _pass in 0..graph.times(PASSES, SHARE) {
        if !exchange.try_all(graph)? {
            break;
        }
    }
    exchange.draft.tree(alloc, graph)
}

// The tree with ways to all vertices that are worth something, whatever those cost, if it misses
// one of them.
pub fn with_all_worth(
    alloc: Global,
    graph: &MoveGraph,
    tree: &Tree,
) -> Result<Option<Tree>, AllocError> {
    let mut exchange = Exchange::of(alloc, graph, tree)?;
    let mut gains = false;
    for before in 0..graph.vertices() {
        if exchange.is_missed(graph, before + 1) && exchange.reach(graph, before + 1)? {
            gains = true;
        }
    }
    if !gains {
        return Ok(None);
    }
    Ok(Some(exchange.draft.tree(alloc, graph)?))
}

// A tree that is changed by ways that are searched for, and what ways cost at least as it was at the
// beginning of a pass.
#[derive(Drop)]
struct Exchange {
    alloc: Global,
    draft: Draft,
    search: Search,
    bounds: Bounds,
}

impl Exchange {
    fn of(alloc: Global, graph: &MoveGraph, tree: &Tree) -> Result<Exchange, AllocError> {
        Ok(Exchange {
            alloc,
            draft: Draft::of(alloc, graph, tree)?,
            search: Search::new(alloc, graph)?,
            bounds: Bounds::none(alloc)?,
        })
    }

    // Tries each vertex once; whether the tree is cheaper now.
    fn try_all(&mut self, graph: &MoveGraph) -> Result<bool, AllocError> {
        let tree = self.draft.tree(self.alloc, graph)?;
        self.bounds = Bounds::of(self.alloc, graph, &tree)?;
        let mut gains = false;
        for before in 0..graph.vertices() {
            if self.try_at(graph, before + 1)? {
                gains = true;
            }
        }
        Ok(gains)
    }

    // Changes the tree at a vertex, if that makes it cheaper: brings the vertex in, or exchanges
    // the key path from there towards the root, or takes it out.
    fn try_at(&mut self, graph: &MoveGraph, vertex: u32) -> Result<bool, AllocError> {
        if self.is_missed(graph, vertex) {
            return self.bring_in(graph, vertex);
        }
        if !self.draft.is_reached(vertex) || !self.draft.is_key(graph, vertex) {
            return Ok(false);
        }
        if !self.draft.is_root(vertex) && self.exchange_path(graph, vertex)? {
            return Ok(true);
        }
        Ok(graph.worth(vertex) < u64::MAX && self.take_out(graph, vertex)?)
    }

    // Whether a vertex is worth something that may be reached, and isn't.
    fn is_missed(&self, graph: &MoveGraph, vertex: u32) -> bool {
        !self.draft.is_reached(vertex) && graph.worth(vertex) > 0 && graph.is_open(vertex)
    }

    // Joins a vertex with the tree that it isn't in, if that makes it cheaper.
    fn bring_in(&mut self, graph: &MoveGraph, vertex: u32) -> Result<bool, AllocError> {
        self.draft.enter(graph, vertex)?;
        self.search.begin();
        self.search.add_part(graph, &self.draft, vertex)?;
        self.reconnect(graph)
    }

    // Joins a vertex with the tree that it isn't in, whatever that costs; whether there is a way.
    fn reach(&mut self, graph: &MoveGraph, vertex: u32) -> Result<bool, AllocError> {
        self.draft.enter(graph, vertex)?;
        self.search.begin();
        self.search.add_part(graph, &self.draft, vertex)?;
        let joined = self.bridge_over(graph, u64::MAX, u64::MAX)?;
        if joined {
            self.draft.keep();
        }
        Ok(joined)
    }

    // Joins all below a key vertex with the rest by another path.
    fn exchange_path(&mut self, graph: &MoveGraph, vertex: u32) -> Result<bool, AllocError> {
        if !may_exchange(graph, &self.draft, &self.bounds, vertex) {
            return Ok(false);
        }
        self.draft.drop_above(graph, vertex)?;
        self.search.begin();
        self.search.add_part(graph, &self.draft, vertex)?;
        self.reconnect(graph)
    }

    // Takes a key vertex out with all its key paths.
    fn take_out(&mut self, graph: &MoveGraph, vertex: u32) -> Result<bool, AllocError> {
        if !may_take_out(graph, &self.draft, &self.bounds, vertex) {
            return Ok(false);
        }
        if self.draft.is_root(vertex) {
            let below = self.draft.key_below(graph, vertex);
            self.draft.root_at(below)?;
        }
        self.draft.drop_above(graph, vertex)?;
        self.search.begin();
        for half in graph.neighbours(vertex) {
            if self.draft.is_below(half.to, vertex) {
                let top = self.draft.drop_below(graph, half.to)?;
                self.search.add_part(graph, &self.draft, top)?;
            }
        }
        self.draft.leave(graph, vertex)?;
        self.reconnect(graph)
    }

    // Joins all parts with the rest, if that gains, and else takes all back.
    fn reconnect(&mut self, graph: &MoveGraph) -> Result<bool, AllocError> {
        let gain = self.draft.gain();
        // Ways may collect prizes, and gain by that what they cost more.
        let together = gain.saturating_add(graph.prizes());
        Ok(self.bridge_over(graph, gain, together)? && self.draft.settle(graph)?)
    }

    // Joins all parts with the rest by the cheapest bridges, over ways that cost less than a limit each; takes all back
    // where there aren't enough, or where they can't cost less than so much together.
    fn bridge_over(
        &mut self,
        graph: &MoveGraph,
        limit: u64,
        together: u64,
    ) -> Result<bool, AllocError> {
        if !self.search.spread(graph, &self.draft, limit, together)? {
            self.draft.take_back();
            return Ok(false);
        }
        for place in 0..self.search.bridges().len() {
            if let Some(bridge) = self.search.bridges().get(place).copied() {
                self.lay(graph, bridge)?;
            }
        }
        Ok(true)
    }

    // Takes a bridge into the tree, with the ways to its ends.
    fn lay(&mut self, graph: &MoveGraph, bridge: Bridge) -> Result<(), AllocError> {
        self.graft(graph, bridge.tail)?;
        self.graft(graph, bridge.head)?;
        self.draft.join(bridge.tail, bridge.head, bridge.cost)
    }

    // Takes the way to a vertex from its part into the tree.
    fn graft(&mut self, graph: &MoveGraph, vertex: u32) -> Result<(), AllocError> {
        let mut here = vertex;
        for _step in 0..graph.vertices() {
            if self.draft.is_reached(here) {
                break;
            }
            let (before, cost) = self.search.before(here);
            self.draft.enter(graph, here)?;
            self.draft.hang(here, before, cost)?;
            here = before;
        }
        Ok(())
    }
}

// A vertex of a tree such that no part that hangs at it has more than half of the links.
fn centre(alloc: Global, graph: &MoveGraph, tree: &Tree) -> Result<u32, AllocError> {
    let arcs = tree.arcs.as_slice();
    let sizes = sizes(alloc, graph, tree)?;
    let mut centre = tree.start;
    for (_, head) in arcs {
        if sizes.at(*head) > arcs.len() / 2 {
            centre = *head;
        }
    }
    Ok(centre)
}

// By vertex, how many vertices its arcs lead to; it counts too.
fn sizes(alloc: Global, graph: &MoveGraph, tree: &Tree) -> Result<ByVertex<usize>, AllocError> {
    let mut sizes: ByVertex<usize> = ByVertex::new(alloc, graph.count(), 1)?;
    for (tail, head) in tree.arcs.as_slice().iter().rev() {
        sizes.put(*tail, sizes.at(*tail).saturating_add(sizes.at(*head)));
    }
    Ok(sizes)
}
