use crate::draft::Draft;
use st_model::{Listed, Tree};
use std::alloc::{AllocError, Global};
use way_costs::{ByVertex, MoveGraph};

// The tree without the branches that cost at least as much as it is worth to reach them.
pub fn without_branches(alloc: Global, graph: &MoveGraph, tree: &Tree) -> Result<Tree, AllocError> {
    let mut draft = Draft::of(alloc, graph, tree)?;
    draft.root_at(worthiest(graph, tree))?;
    let tree = draft.tree(alloc, graph)?;
    let worth = worth_of_branches(alloc, graph, &tree)?;
    let mut kept = ByVertex::new(alloc, graph.count(), false)?;
    kept.put(tree.start, true);
    let mut arcs = Vec::new(alloc);
    for (tail, head) in tree.arcs.as_slice() {
        if kept.at(*tail) && worth.at(*head) > graph.link_cost(*tail, *head) {
            kept.put(*head, true);
            arcs.push((*tail, *head))?;
        }
    }
    Ok(Tree {
        start: tree.start,
        arcs: Listed::of(arcs),
    })
}

// Of the vertices of a tree one that it is worth most to reach.
fn worthiest(graph: &MoveGraph, tree: &Tree) -> u32 {
    let mut best = tree.start;
    for (_, head) in tree.arcs.as_slice() {
        if graph.worth(*head) > graph.worth(best) {
            best = *head;
        }
    }
    best
}

// By vertex, what it is worth to reach it and the best of what its arcs lead to.
fn worth_of_branches(
    alloc: Global,
    graph: &MoveGraph,
    tree: &Tree,
) -> Result<ByVertex<u64>, AllocError> {
    let mut worth = own_worth(alloc, graph)?;
    for (tail, head) in tree.arcs.as_slice().iter().rev() {
        let more = worth
            .at(*head)
            .saturating_sub(graph.link_cost(*tail, *head));
        worth.put(*tail, worth.at(*tail).saturating_add(more));
    }
    Ok(worth)
}

fn own_worth(alloc: Global, graph: &MoveGraph) -> Result<ByVertex<u64>, AllocError> {
    let mut worth = ByVertex::new(alloc, graph.count(), 0)?;
    for before in 0..graph.vertices() {
        worth.put(before + 1, graph.worth(before + 1));
    }
    Ok(worth)
}
