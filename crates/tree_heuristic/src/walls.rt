ghost use Rattle.std.specs.Prelude.{◌≡◌, ℕ, IfOk, IfSome, IfNone, IsTrue};
ghost use Rattle.st_model.specs.declared.tree.Tree.{Tree};
ghost use Rattle.st_model.specs.Arborescence.{IsTree};
ghost use Rattle.st_model.specs.Branch.{IsVertexSet};
ghost use Rattle.st_model.specs.Network.{IsInstance, IsVertex};
ghost use Rattle.st_model.specs.Wall.{IsWall};
ghost use Rattle.graph_store.specs.Graph.{is_in};

use crate::certain::missing;
use crate::listing::ascending;
use crate::spread::Spread;
use graph_store::Store;
use st_model::{Branch, Instance, Sides, VertexSet};
use std::alloc::{AllocError, Global};

/// A set of vertices with a required vertex in it and one outside that no link crosses, ascending;
/// or `None`, exactly where the instance has a tree.
pub fn wall(alloc: Global, instance: &Instance) -> Result<Option<Vec<u32>>, AllocError>
    ensures some { IfOk result (λ found. IfSome found (λ wall. IsWall instance.now wall.items)) }
    ensures set { IfOk result (λ found. IfSome found (λ wall. IsVertexSet instance.now.n wall.items)) }
    ensures none { IfOk result (λ found. IfNone found ((t : Tree) × IsTree instance.now t)) }
    ensures instance { IfOk result (λ _. IsInstance instance.now) }
{
    let store = Store::of(alloc, instance)?;
    store_wall(alloc, &store)
}

/// The same of a store of which no vertex is gone.
pub fn store_wall(alloc: Global, store: &Store) -> Result<Option<Vec<u32>>, AllocError>
    requires { (v : ℕ) → IsVertex store.now.network.n v → IsTrue (is_in store.now v) }
    ensures some { IfOk result (λ found. IfSome found (λ wall. IsWall store.now.network wall.items)) }
    ensures set { IfOk result (λ found. IfSome found (λ wall. IsVertexSet store.now.network.n wall.items)) }
    ensures none { IfOk result (λ found. IfNone found ((t : Tree) × IsTree store.now.network t)) }
    ensures instance { IfOk result (λ _. IsInstance store.now.network) }
{
    let vertices = store.vertices();
    let branch = Sides::of(alloc, Branch::all(alloc))?;
    let nothing = VertexSet::new(alloc, 0)?;
    let Some(start) = missing(store, &branch, &nothing) else {
        return Ok(None);
    };
    let spread = Spread::over(alloc, store, &branch, start)?;
    match missing(store, &branch, &spread.reached) {
        None => Ok(None),
        Some(_) => Ok(Some(ascending(alloc, &spread.reached, vertices)?)),
    }
}
