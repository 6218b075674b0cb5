ghost use Rattle.std.specs.Prelude.{◌≡◌, ℕ, IfOk};
ghost use Rattle.std.specs.List.Sorted.{IsStrictlyIncreasing};
ghost use Rattle.st_model.specs.Lists.{has};

use std::alloc::{AllocError, Global};

// The vertices of a list, ascending and each once.
pub fn ascending(alloc: Global, list: &[u32]) -> Result<Vec<u32>, AllocError>
    ensures ascending { IfOk result (λ set. IsStrictlyIncreasing set.items) }
    ensures same { IfOk result (λ set. (v : ℕ) → has set.items v ≡ has list.now v) }
{
    let mut set = Vec::from_slice(alloc, list)?;
    set.sort_unstable();
    set.dedup();
    Ok(set)
}
