ghost use Rattle.std.specs.Prelude.{◌≡◌, ℕ, IfOk};
ghost use Rattle.st_model.specs.Branch.{IsVertexSet};
ghost use Rattle.st_model.specs.Lists.{has};
ghost use Rattle.st_model.specs.Network.{IsVertex};

use st_model::VertexSet;
use std::alloc::{AllocError, Global};

// The members of a set from 1 to a last vertex, ascending.
pub fn ascending(alloc: Global, set: &VertexSet, last: u32) -> Result<Vec<u32>, AllocError>
    ensures set { IfOk result (λ list. IsVertexSet last list.items) }
    ensures same { IfOk result (λ list. (v : ℕ) → IsVertex last v → has list.items v ≡ has set.now.members v) }
{
    let mut list = Vec::new(alloc);
    for before in 0..last {
        let vertex = before + 1;
        if set.contains(vertex) {
            list.push(vertex)?;
        }
    }
    Ok(list)
}
