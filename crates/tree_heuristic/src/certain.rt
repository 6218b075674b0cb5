ghost use Rattle.std.specs.Prelude.{◌≡◌, ℕ, IfSome, IfNone, IsTrue, IsFalse};
ghost use Rattle.st_model.specs.Branch.{IsBranch, is_certain};
ghost use Rattle.st_model.specs.Lists.{has};
ghost use Rattle.st_model.specs.Network.{IsVertex, is_required};

use graph_store::Store;
use st_model::{Need, Sides, VertexSet};

// A vertex that is required or inside and isn't in the set, if there is one.
pub fn missing(store: &Store, branch: &Sides, set: &VertexSet) -> Option<u32>
    requires { IsBranch store.now.network branch.now }
    ensures some { IfSome result (λ v. IsVertex store.now.network.n v ×
        IsTrue (is_certain store.now.network branch.now v) × IsFalse (has set.now.members v)) }
    ensures none { IfNone result ((v : ℕ) → IsVertex store.now.network.n v →
        IsTrue (is_certain store.now.network branch.now v) → IsTrue (has set.now.members v)) }
{
    match missing_inside(branch.branch().inside.as_slice(), set) {
        Some(vertex) => Some(vertex),
        None => missing_required(store, set),
    }
}

fn missing_inside(inside: &[u32], set: &VertexSet) -> Option<u32>
    ensures some { IfSome result (λ v. IsTrue (has inside.now v) × IsFalse (has set.now.members v)) }
    ensures none { IfNone result ((v : ℕ) → IsTrue (has inside.now v) → IsTrue (has set.now.members v)) }
{
    for vertex in inside {
        if !set.contains(*vertex) {
            return Some(*vertex);
        }
    }
    None
}

fn missing_required(store: &Store, set: &VertexSet) -> Option<u32>
    ensures some { IfSome result (λ v. IsVertex store.now.network.n v × IsTrue (is_required store.now.network v) ×
        IsFalse (has set.now.members v)) }
    ensures none { IfNone result ((v : ℕ) → IsVertex store.now.network.n v →
        IsTrue (is_required store.now.network v) → IsTrue (has set.now.members v)) }
{
    for before in 0..store.vertices() {
        let vertex = before + 1;
        if store.need(vertex) == Need::Required && !set.contains(vertex) {
            return Some(vertex);
        }
    }
    None
}
