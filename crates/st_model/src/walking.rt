ghost use Rattle.std.specs.Prelude.{◌≡◌, ℕ, ◌<◌, length, All, IfOk};
ghost use Rattle.st_model.specs.Led.{heads_at, AreLed};

use crate::{VertexLists, VertexSet};
use std::alloc::{AllocError, Global};

/// All that the heads, listed at their tails, lead to from a root; the root too.
pub fn walk(alloc: Global, heads: &VertexLists<u32>, root: u32) -> Result<VertexSet, AllocError>
    requires root { root < length heads.now }
    requires in_range { (u : ℕ) → All (λ v. v < length heads.now) (heads_at heads.now u) }
    ensures { IfOk result (λ reached. AreLed heads.now root reached.members) }
{
    let mut reached = VertexSet::new(alloc, heads.count())?;
    reached.insert(root)?;
    let mut next = 0;
    while let Some(tail) = reached.member(next) {
        reached.extend(heads.at(tail))?;
        next += 1;
    }
    Ok(reached)
}
