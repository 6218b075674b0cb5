ghost use Rattle.std.specs.Prelude.{◌≡◌, ◌<◌, ◌≤◌, ◌↔◌, ℕ, [], IfOk, IfSome, IfNone, IsTrue, IsFalse};
ghost use Rattle.st_model.specs.Arborescence.{IsArborescence, IsTree, cost};
ghost use Rattle.st_model.specs.Branch.{IsBranch, ReachesAsTold, is_certain, NoneIsCertain};
ghost use Rattle.st_model.specs.Network.{IsVertex, pays};
ghost use Rattle.graph_store.specs.Graph.{IsGraph, is_in};
ghost use Rattle.tree_heuristic.specs.Reaching.{HasNoTree, IsNoDearerThanOne, IsTreeOf, ReachesPresent};
ghost use Rattle.tree_heuristic.specs.Spreading.{MayJoin};

use crate::certain::missing;
use crate::growing::{Growing, Guide};
use crate::spread::Spread;
use graph_store::Store;
use st_model::{Listed, Need, Sides, Tree, VertexSet, lone_starts_miss_the_rest};
use std::alloc::{AllocError, Global};

/// A tree that reaches what the branch says, and only present vertices; `None` exactly where there
/// is none. Where no vertex is required or inside it costs no more than each tree of one present
/// vertex. The tree takes one cheapest path after another to what it has to reach (Takahashi and
/// Matsuyama 1980), and to a vertex whose prize is more than the path costs.
pub fn first_tree(alloc: Global, store: &Store, branch: &Sides) -> Result<Option<Tree>, AllocError>
    requires { IsBranch store.now.network branch.now }
    ensures tree { IfOk result (λ found. IfSome found (IsTree store.now.network)) }
    ensures reaches { IfOk result (λ found. IfSome found (ReachesAsTold branch.now)) }
    ensures present { IfOk result (λ found. IfSome found (ReachesPresent store.now)) }
    ensures none { IfOk result (λ found. IfNone found (HasNoTree store.now branch.now)) }
    ensures lone { IfOk result (λ found. IfSome found (λ t. NoneIsCertain store.now.network branch.now
        → IsNoDearerThanOne store.now branch.now t)) }
{
    guided_tree(alloc, store, branch, &[])
}

/// As `first_tree`, but its paths are cheapest where each link costs so many hundredths of its cost
/// as its two ends weigh together; a vertex past the end of the weights weighs 50.
pub fn guided_tree(
    alloc: Global,
    store: &Store,
    branch: &Sides,
    weights: &[u64],
) -> Result<Option<Tree>, AllocError>
    requires { IsBranch store.now.network branch.now }
    ensures tree { IfOk result (λ found. IfSome found (IsTree store.now.network)) }
    ensures reaches { IfOk result (λ found. IfSome found (ReachesAsTold branch.now)) }
    ensures present { IfOk result (λ found. IfSome found (ReachesPresent store.now)) }
    ensures none { IfOk result (λ found. IfNone found (HasNoTree store.now branch.now)) }
    ensures lone { IfOk result (λ found. IfSome found (λ t. NoneIsCertain store.now.network branch.now
        → IsNoDearerThanOne store.now branch.now t)) }
{
    let nothing = VertexSet::new(alloc, 0)?;
    match missing(store, branch, &nothing) {
        Some(start) => joined_tree(alloc, store, branch, weights, start),
        None => free_tree(alloc, store, branch, weights),
    }
}

// A tree from a vertex that is required or inside.
fn joined_tree(
    alloc: Global,
    store: &Store,
    branch: &Sides,
    weights: &[u64],
    start: u32,
) -> Result<Option<Tree>, AllocError>
    requires branch { IsBranch store.now.network branch.now }
    requires vertex { IsVertex store.now.network.n start }
    requires certain { IsTrue (is_certain store.now.network branch.now start) }
    ensures tree { IfOk result (λ found. IfSome found (IsTreeOf store.now branch.now)) }
    ensures none { IfOk result (λ found. IfNone found (HasNoTree store.now branch.now)) }
{
    if !may_join(store, branch, start) {
        return Ok(None);
    }
    match grown_tree(alloc, store, branch, weights, start)? {
        Some(tree) => Ok(Some(tree)),
        None => spanning_tree(alloc, store, branch, start),
    }
}

// A tree of cheap paths from a vertex, if it reaches all that it has to.
fn grown_tree(
    alloc: Global,
    store: &Store,
    branch: &Sides,
    weights: &[u64],
    start: u32,
) -> Result<Option<Tree>, AllocError>
    requires branch { IsBranch store.now.network branch.now }
    requires vertex { IsVertex store.now.network.n start }
    requires start_joins { MayJoin store.now branch.now.outside start }
    ensures { IfOk result (λ found. IfSome found (IsTreeOf store.now branch.now)) }
{
    let worth = worths(alloc, store, branch)?;
    let guide = Guide {
        worth: &worth,
        weights,
    };
    let growing = Growing::over(alloc, store, branch, guide, start)?;
    let grown = Spread::along(alloc, store, branch, &growing, start)?;
    match missing(store, branch, &grown.reached) {
        Some(_) => Ok(None),
        None => Ok(Some(grown.into_tree())),
    }
}

// A tree of all that links lead to from a vertex that is required or inside.
fn spanning_tree(
    alloc: Global,
    store: &Store,
    branch: &Sides,
    start: u32,
) -> Result<Option<Tree>, AllocError>
    requires branch { IsBranch store.now.network branch.now }
    requires vertex { IsVertex store.now.network.n start }
    requires certain { IsTrue (is_certain store.now.network branch.now start) }
    requires start_joins { MayJoin store.now branch.now.outside start }
    ensures tree { IfOk result (λ found. IfSome found (IsTreeOf store.now branch.now)) }
    ensures none { IfOk result (λ found. IfNone found (HasNoTree store.now branch.now)) }
{
    let spread = Spread::over(alloc, store, branch, start)?;
    match missing(store, branch, &spread.reached) {
        Some(_) => Ok(None),
        None => Ok(Some(spread.into_tree())),
    }
}

// What it is worth to reach each vertex: its prize, and all where it is required or inside.
fn worths(alloc: Global, store: &Store, branch: &Sides) -> Result<Vec<u64>, AllocError> {
    let vertices = store.vertices();
    let mut worth = Vec::new(alloc);
    worth.push(0)?;
    for before in 0..vertices {
        worth.push(worth_of(store, branch, before + 1))?;
    }
    Ok(worth)
}

fn worth_of(store: &Store, branch: &Sides, vertex: u32) -> u64
    requires { IsVertex store.now.network.n vertex }
{
    match store.need(vertex) {
        Need::Pays(prize) if !branch.is_inside(vertex) => prize,
        _ => u64::MAX,
    }
}

// Whether a vertex is present and not outside.
fn may_join(store: &Store, branch: &Sides, vertex: u32) -> bool
    requires { IsVertex store.now.network.n vertex }
    ensures { IsTrue result ↔ MayJoin store.now branch.now.outside vertex }
{
    store.is_present(vertex) && !branch.is_outside(vertex)
}

// Where no vertex is required or inside, the cheaper of a vertex alone and a tree from there.
fn free_tree(
    alloc: Global,
    store: &Store,
    branch: &Sides,
    weights: &[u64],
) -> Result<Option<Tree>, AllocError>
    requires uncertain { NoneIsCertain store.now.network branch.now }
    requires branch { IsBranch store.now.network branch.now }
    ensures tree { IfOk result (λ found. IfSome found (IsTreeOf store.now branch.now)) }
    ensures none { IfOk result (λ found. IfNone found (HasNoTree store.now branch.now)) }
    ensures lone { IfOk result (λ found. IfSome found (IsNoDearerThanOne store.now branch.now)) }
{
    let Some(lone) = lone_tree(alloc, store, branch) else {
        return Ok(None);
    };
    match grown_tree(alloc, store, branch, weights, lone.start)? {
        Some(tree) if costs_less(store, &tree, lone.start) => Ok(Some(tree)),
        _ => Ok(Some(lone)),
    }
}

// Whether a tree costs less than a vertex alone: its links cost less than what its vertices pay
// more than this one.
fn costs_less(store: &Store, tree: &Tree, alone: u32) -> bool
    requires tree { IsArborescence store.now.network tree.now }
    requires alone { IsVertex store.now.network.n alone }
    ensures { IsTrue result ↔ (cost store.now.network tree.now < cost store.now.network
        (record { start = alone; arcs = [] })) }
{
    prove!(alone <= store.vertices());
    let mut spent = store.prize(alone);
    let mut saved = store.prize(tree.start);
    for (tail, head) in tree.arcs.as_slice() {
        spent += store.link_cost(*tail, *head).unwrap_or(0);
        saved += store.prize(*head);
    }
    spent < saved
}

// A vertex alone, such that no other pays more.
fn lone_tree(alloc: Global, store: &Store, branch: &Sides) -> Option<Tree>
    requires uncertain { NoneIsCertain store.now.network branch.now }
    requires branch { IsBranch store.now.network branch.now }
    ensures start { IfSome result (λ t. IsVertex store.now.network.n t.start ×
        MayJoin store.now branch.now.outside t.start × (t.arcs ≡ [])) }
    ensures tree { IfSome result (IsTreeOf store.now branch.now) }
    ensures none { IfNone result (HasNoTree store.now branch.now) }
    ensures lone { IfSome result (IsNoDearerThanOne store.now branch.now) }
{
    lone_starts_miss_the_rest();
    let start = dearest(store, branch)?;
    Some(Tree {
        start,
        arcs: Listed::of(Vec::new(alloc)),
    })
}

// Of the vertices that are present and not outside one that pays most.
fn dearest(store: &Store, branch: &Sides) -> Option<u32>
    ensures some { IfSome result (λ v. IsVertex store.now.network.n v × MayJoin store.now branch.now.outside v) }
    ensures most { IfSome result (λ v. (w : ℕ) → IsVertex store.now.network.n w →
        MayJoin store.now branch.now.outside w → pays store.now.network w ≤ pays store.now.network v) }
    ensures none { IfNone result ((w : ℕ) → IsVertex store.now.network.n w →
        MayJoin store.now branch.now.outside w → ⊥) }
    ensures graph { IsGraph store.now }
{
    let mut best = None;
    let mut prize = 0;
    for before in 0..store.vertices() {
        let vertex = before + 1;
        let pays = store.prize(vertex);
        if may_join(store, branch, vertex) && (best.is_none() || pays > prize) {
            best = Some(vertex);
            prize = pays;
        }
    }
    best
}
