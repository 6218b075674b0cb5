use crate::draft::Draft;
use way_costs::{Bounds, MoveGraph};

// A key path of a tree: what it costs, and what a way costs at least that leads past one of its links.
#[derive(Clone, Copy)]
struct KeyPath {
    cost: u64,
    least: u64,
}

// No link yet.
const NO_LINK: KeyPath = KeyPath {
    cost: 0,
    least: u64::MAX,
};

// The key paths at a vertex: what they cost together, and of what ways cost at least past each of them
// the sum and the least.
#[derive(Clone, Copy)]
struct Fork {
    cost: u64,
    total: u64,
    least: u64,
}

// No key path yet.
const NO_PATH: Fork = Fork {
    cost: 0,
    total: 0,
    least: u64::MAX,
};

impl KeyPath {
    // With one link more, that leads from a vertex towards the root.
    fn with(self, draft: &Draft, bounds: &Bounds, vertex: u32) -> KeyPath {
        let (up, cost) = draft.up(vertex);
        KeyPath {
            cost: self.cost.saturating_add(cost),
            least: self.least.min(bounds.past(vertex, up)),
        }
    }
}

impl Fork {
    fn with(self, path: KeyPath) -> Fork {
        Fork {
            cost: self.cost.saturating_add(path.cost),
            total: self.total.saturating_add(path.least),
            least: self.least.min(path.least),
        }
    }
}

// Whether all below a key vertex may be joined with the rest for less than the key path towards the root
// costs. A way without one of the path's links costs no less than the bound past that link.
pub fn may_exchange(graph: &MoveGraph, draft: &Draft, bounds: &Bounds, vertex: u32) -> bool {
    let path = path_above(graph, draft, bounds, vertex);
    path.least < path.cost
}

// Whether all that key paths join at a key vertex is likely joined without it for less: by ways between two of
// these parts each, one fewer than there are parts, of which each part but one has one that leads past its path.
// (Ways that share some of their links may cost less together; such are passed over.)
pub fn may_take_out(graph: &MoveGraph, draft: &Draft, bounds: &Bounds, vertex: u32) -> bool {
    let mut fork = NO_PATH;
    if !draft.is_root(vertex) {
        fork = fork.with(path_above(graph, draft, bounds, vertex));
    }
    for half in graph.neighbours(vertex) {
        if draft.is_below(half.to, vertex) {
            fork = fork.with(path_below(graph, draft, bounds, half.to));
        }
    }
    let ways = fork.total.saturating_sub(fork.least);
    ways.saturating_add(graph.worth(vertex)) < fork.cost
}

// The key path from a vertex towards the root.
fn path_above(graph: &MoveGraph, draft: &Draft, bounds: &Bounds, vertex: u32) -> KeyPath {
    let mut path = NO_LINK;
    let mut here = vertex;
    for _step in 0..graph.vertices() {
        path = path.with(draft, bounds, here);
        here = draft.up(here).0;
        if here == 0 || draft.is_key(graph, here) {
            break;
        }
    }
    path
}

// The key path that begins with the link from a vertex towards the root, down to its other end.
fn path_below(graph: &MoveGraph, draft: &Draft, bounds: &Bounds, vertex: u32) -> KeyPath {
    let mut path = NO_LINK;
    let mut here = vertex;
    for _step in 0..graph.vertices() {
        path = path.with(draft, bounds, here);
        if draft.is_key(graph, here) {
            break;
        }
        here = draft.below(graph, here);
    }
    path
}
