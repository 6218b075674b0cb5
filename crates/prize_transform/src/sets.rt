ghost use Rattle.std.specs.Prelude.{◌≡◌, IfOk, filter, nat_le};

use std::alloc::{AllocError, Global};

// Those of a list that are at most a number.
pub fn below(alloc: Global, list: &[u32], last: u32) -> Result<Vec<u32>, AllocError>
    ensures { IfOk result (λ kept. kept.items ≡ filter (λ v. nat_le v last) list.now) }
{
    list.iter().copied().filter(|v| *v <= last).collect(alloc)
}
