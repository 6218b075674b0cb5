use crate::draft::Draft;
use graph_store::Half;
use st_model::Tree;
use std::alloc::{AllocError, Global};
use way_costs::MoveGraph;

// How often each vertex is tried at most.
const PASSES: u32 = 2;

// The tree with vertices put in, one after another, where each makes it cheaper.
pub fn with_more(alloc: Global, graph: &MoveGraph, tree: &Tree) -> Result<Tree, AllocError> {
    let mut draft = Draft::of(alloc, graph, tree)?;
    for _pass in 0..PASSES {
        if !put_all_in(graph, &mut draft)? {
            break;
        }
    }
    draft.tree(alloc, graph)
}

// Tries each vertex once; whether one was put in.
fn put_all_in(graph: &MoveGraph, draft: &mut Draft) -> Result<bool, AllocError> {
    let mut gains = false;
    for before in 0..graph.vertices() {
        if put_in(graph, draft, before + 1)? {
            gains = true;
        }
    }
    Ok(gains)
}

// Puts a vertex in, if that makes the tree cheaper: by its cheapest link, and by each further one
// that costs less than the dearest on the cycle that it closes.
fn put_in(graph: &MoveGraph, draft: &mut Draft, vertex: u32) -> Result<bool, AllocError> {
    if draft.is_reached(vertex) || !graph.is_open(vertex) {
        return Ok(false);
    }
    let Some(first) = first_link(graph, draft, vertex) else {
        return Ok(false);
    };
    draft.crown(graph, vertex, first)?;
    for half in graph.neighbours(vertex) {
        if draft.is_reached(half.to) {
            draft.close(*half)?;
        }
    }
    draft.settle(graph)
}

// The cheapest link from a vertex to the tree, if it has two or is worth that one.
fn first_link(graph: &MoveGraph, draft: &Draft, vertex: u32) -> Option<Half> {
    let mut has_two = false;
    let mut cheapest: Option<Half> = None;
    for half in graph.neighbours(vertex) {
        if draft.is_reached(half.to) {
            has_two = cheapest.is_some();
            cheapest = Some(cheaper_half(cheapest, *half));
        }
    }
    cheapest.filter(|half| has_two || half.cost < graph.worth(vertex))
}

fn cheaper_half(known: Option<Half>, half: Half) -> Half {
    match known {
        Some(known) if known.cost <= half.cost => known,
        _ => half,
    }
}
