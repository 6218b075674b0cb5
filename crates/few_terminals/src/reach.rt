ghost use Rattle.std.specs.Prelude.{◌≡◌, ◌+◌, ℕ, List, All, IfOk, IfSome, IfNone, OnOk, IsTrue, IsFalse};
ghost use Rattle.st_model.specs.Lists.{has};
ghost use Rattle.st_model.specs.Network.{IsVertex};
ghost use Rattle.graph_store.specs.declared.half.Half.{Half};
ghost use Rattle.graph_store.specs.Neighbours.{AreNeighbours};
ghost use Rattle.few_terminals.specs.Reach.{slot_of, AreReached, HasFollowed};

use graph_store::Store;
use st_model::VertexSet;
use std::alloc::{AllocError, Global};

// All that links lead to from a vertex.
pub fn reach(alloc: Global, store: &Store, root: u32) -> Result<VertexSet, AllocError>
    requires { IsVertex store.now.network.n root }
    ensures { IfOk result (λ reached. AreReached store.now.network root reached.members) }
{
    let mut reached = VertexSet::new(alloc, store.vertices() as usize + 1)?;
    reached.insert(root)?;
    let mut next = 0;
    while let Some(tail) = reached.member(next) {
        follow(&mut reached, store, tail)?;
        next += 1;
    }
    Ok(reached)
}

// Reaches all that a vertex is linked with.
fn follow(reached: &mut VertexSet, store: &Store, tail: u32) -> Result<(), AllocError>
    requires vertex { IsVertex store.now.network.n tail }
    requires count { reached.old.count ≡ store.now.network.n + 1 }
    ensures count { OnOk result (reached.new.count ≡ reached.old.count) }
    ensures followed { OnOk result ((halves : List Half) × AreNeighbours store.now.network tail halves
        × HasFollowed store.now.network reached.old.members halves reached.new.members) }
{
    for half in store.neighbours(tail) {
        reached.insert(half.to)?;
    }
    Ok(())
}

// One of the vertices that isn't reached, if there is one.
pub fn unreached(reached: &VertexSet, vertices: &[u32]) -> Option<u32>
    ensures some { IfSome result (λ v. IsTrue (has vertices.now v) × IsFalse (has reached.now.members v)) }
    ensures none { IfNone result ((v : ℕ) → IsTrue (has vertices.now v) → IsTrue (has reached.now.members v)) }
{
    for &vertex in vertices {
        if !reached.contains(vertex) {
            return Some(vertex);
        }
    }
    None
}

// Where a vertex stands in a list, and past its end where it doesn't.
pub fn slot_of(vertices: &[u32], vertex: u32) -> usize
    ensures { result ≡ slot_of vertices.now vertex }
{
    for slot in 0..vertices.len() {
        if vertices[slot] == vertex {
            return slot;
        }
    }
    vertices.len()
}
