ghost use Rattle.std.specs.Prelude.{◌≡◌, ℕ, ◌<◌, IfOk, slice_index, vec_len};
ghost use Rattle.cut_packing.specs.Packing.{named};

use crate::Cut;
use std::alloc::{AllocError, Global};

/// The values of the cuts that name each vertex below a count.
pub fn named_values(alloc: Global, count: usize, cuts: &[Cut]) -> Result<Vec<u128>, AllocError>
    ensures count { IfOk result (λ values. vec_len values ≡ count) }
    ensures named { IfOk result
        (λ values. (v : ℕ) → v < count → slice_index values.items v ≡ named cuts.now v) }
{
    let mut values = vec![in alloc; 0; count]?;
    for cut in cuts {
        let place = cut.q as usize;
        if place < count {
            values[place] += u128::from(cut.y);
        }
    }
    Ok(values)
}
