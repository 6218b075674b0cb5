ghost use Rattle.std.specs.Prelude.{◌≡◌, ℕ, [], IfNone, IfOk, IfSome, IsFalse, IsTrue};
ghost use Rattle.st_model.specs.Arborescence.{IsTree};
ghost use Rattle.st_model.specs.Branch.{AreThose, all_trees};
ghost use Rattle.st_model.specs.Lists.{has};
ghost use Rattle.st_model.specs.Network.{IsVertex, is_required as required};
ghost use Rattle.st_model.specs.Terminals.{IsTerminal, NobodyPays, terminal_count};
ghost use Rattle.graph_store.specs.Graph.{is_in};
ghost use Rattle.tree_heuristic.specs.Reaching.{HasNoTree, ReachesPresent};
ghost use Rattle.twice_tree.specs.Twice.{IsWithinTwice};

use crate::cells::Cells;
use crate::joining::Joining;
use graph_store::Store;
use st_model::{Listed, Need, Tree, VertexSet};
use std::alloc::{AllocError, Global};

/// A tree of a graph in which nobody pays that costs at most twice the least, less a share of one
/// in as many as are required. From a first required vertex on, the nearest one is joined again and
/// again (Takahashi and Matsuyama 1980), over the cells of all (Mehlhorn 1988), so it takes about
/// twice the time of the search for distances that it begins with. Each path that it takes ends at
/// a required vertex, so no leaf is pruned. Where none is required it is one vertex. None comes
/// exactly where no tree reaches all that are required and nobody who is gone.
pub fn near_tree(alloc: Global, store: &Store) -> Result<Option<Tree>, AllocError>
    requires here { (v : ℕ) → IsTerminal store.now.network v → IsTrue (is_in store.now v) }
    requires free { NobodyPays store.now.network }
    ensures tree { IfOk result (λ found. IfSome found (IsTree store.now.network)) }
    ensures present { IfOk result (λ found. IfSome found (ReachesPresent store.now)) }
    ensures twice { IfOk result (λ found. IfSome found (IsWithinTwice store.now.network)) }
    ensures none { IfOk result (λ found. IfNone found (HasNoTree store.now all_trees)) }
    ensures lone { IfOk result (λ found. IfSome found (λ t. terminal_count store.now.network ≡ 0 → t.arcs ≡ [])) }
{
    prove!(1 <= store.vertices());
    let terminals = terminals_of(alloc, store)?;
    let nothing = VertexSet::new(alloc, 0)?;
    match missing(&terminals, &nothing) {
        Some(first) => {
            let found = joined_tree(alloc, store, &terminals, first)?;
            Ok(found)
        }
        None => Ok(lone_tree(alloc, store)),
    }
}

// All vertices that are required.
fn terminals_of(alloc: Global, store: &Store) -> Result<Vec<u32>, AllocError>
    ensures { IfOk result (λ terminals. AreThose (required store.now.network) store.now.network.n
        terminals.items) }
{
    let mut terminals = Vec::with_capacity(alloc, store.vertices() as usize)?;
    for before in 0..store.vertices() {
        let vertex = before + 1;
        if is_required(store, vertex) {
            terminals.push(vertex)?;
        }
    }
    Ok(terminals)
}

// Whether a vertex is required.
fn is_required(store: &Store, vertex: u32) -> bool
    requires { IsVertex store.now.network.n vertex }
    ensures { result ≡ required store.now.network vertex }
{
    match store.need(vertex) {
        Need::Required => true,
        Need::Pays(_) => false,
    }
}

// The tree that joins all required vertices from a first one on, if links lead to all of them.
fn joined_tree(
    alloc: Global,
    store: &Store,
    terminals: &[u32],
    first: u32,
) -> Result<Option<Tree>, AllocError>
    requires those { AreThose (required store.now.network) store.now.network.n terminals.now }
    requires first { IsTerminal store.now.network first }
    requires free { NobodyPays store.now.network }
    ensures tree { IfOk result (λ found. IfSome found (IsTree store.now.network)) }
    ensures twice { IfOk result (λ found. IfSome found (IsWithinTwice store.now.network)) }
    ensures none { IfOk result (λ found. IfNone found (HasNoTree store.now all_trees)) }
{
    let cells = Cells::of(alloc, store, terminals)?;
    let joining = Joining::over(alloc, store, &cells, first, terminals.len())?;
    match missing(terminals, &joining.joined) {
        Some(_) => Ok(None),
        None => Ok(Some(joining.laid.into_tree())),
    }
}

// One of some vertices that isn't in the set.
fn missing(vertices: &[u32], set: &VertexSet) -> Option<u32>
    ensures some { IfSome result (λ v. IsTrue (has vertices.now v) × IsFalse (has set.now.members v)) }
    ensures none { IfNone result ((v : ℕ) → IsTrue (has vertices.now v) → IsTrue (has set.now.members v)) }
{
    for vertex in vertices {
        if !set.contains(*vertex) {
            return Some(*vertex);
        }
    }
    None
}

// One vertex that is present.
fn lone_tree(alloc: Global, store: &Store) -> Option<Tree>
    ensures present { IfSome result (λ t. IsTrue (is_in store.now t.start)) }
    ensures lone { IfSome result (λ t. t.arcs ≡ []) }
    ensures none { IfNone result (HasNoTree store.now all_trees) }
{
    for before in 0..store.vertices() {
        let vertex = before + 1;
        if store.is_present(vertex) {
            return Some(Tree {
                start: vertex,
                arcs: Listed::of(Vec::new(alloc)),
            });
        }
    }
    None
}
