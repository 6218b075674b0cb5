use crate::shared::{all, tree_over, two_paths};
use graph_store::Store;
use st_model::{Sides, Tree};
use std::alloc::{AllocError, Global};
use std::test::Fail;
use way_costs::{Bounds, MoveGraph, Noise};

// What a way costs at least past the link between two vertices, in a tree.
fn past_in(
    alloc: Global,
    store: &Store,
    branch: &Sides,
    tree: &Tree,
    (a, b): (u32, u32),
) -> Result<u64, AllocError> {
    let graph = MoveGraph::of(alloc, store, branch, Noise::none())?;
    let bounds = Bounds::of(alloc, &graph, tree)?;
    Ok(bounds.past(a, b))
}

// The same in the tree of these arcs from 1.
fn past_over(
    alloc: Global,
    store: &Store,
    arcs: &[(u32, u32)],
    ends: (u32, u32),
) -> Result<u64, AllocError> {
    let branch = all(alloc)?;
    let tree = tree_over(alloc, arcs)?;
    past_in(alloc, store, &branch, &tree, ends)
}

// The same among the two paths.
fn cost_past(alloc: Global, arcs: &[(u32, u32)], ends: (u32, u32)) -> Result<u64, AllocError> {
    let store = Store::of(alloc, &two_paths(alloc)?)?;
    past_over(alloc, &store, arcs, ends)
}

// Over the dear path and over the cheap one, two vertices, and what a way costs past the link between them.
const ROWS: &[(&[(u32, u32)], (u32, u32), u64)] = &[
    (DEAR, (1, 3), 6),
    (DEAR, (3, 1), 6),
    (DEAR, (2, 3), 6),
    (DEAR, (1, 2), 0),
    (DEAR, (1, 4), 0),
    (CHEAP, (1, 4), 10),
    (CHEAP, (5, 4), 10),
    (CHEAP, (5, 2), 10),
    (CHEAP, (1, 3), 0),
];

const DEAR: &[(u32, u32)] = &[(1, 3), (3, 2)];

const CHEAP: &[(u32, u32)] = &[(1, 4), (4, 5), (5, 2)];

// Past each link of the one path the other one is the only way.
#[test]
fn knows_what_ways_cost_past_a_link(rt: HostRuntime) -> Result<(), Fail> {
    for (arcs, ends, cost) in ROWS {
        let (a, b) = *ends;
        assert_eq!(rt; cost_past(rt.alloc(), arcs, *ends)?, *cost, "{a} {b}");
    }
    Ok(())
}
