ghost use Rattle.std.specs.Prelude.{◌≡◌, IfOk};

use crate::Cut;
use st_model::Listed;
use std::alloc::{AllocError, Global};

/// Cuts for a root, which none of them holds. A root is given wherever there are cuts.
#[derive(Debug, Drop)]
pub struct Packing {
    pub root: Option<u32>,
    pub cuts: Listed<Cut>,
}

impl Packing {
    /// The same packing, which shares its sets.
    pub fn shared(&self, alloc: Global) -> Result<Packing, AllocError>
        ensures { IfOk result (λ copy. copy ≡ self.now) }
    {
        let cuts = shared_cuts(alloc, self.cuts.as_slice())?;
        Ok(Packing {
            root: self.root,
            cuts: Listed::of(cuts),
        })
    }
}

// The same cuts, which share their sets.
fn shared_cuts(alloc: Global, cuts: &[Cut]) -> Result<Vec<Cut>, AllocError>
    ensures { IfOk result (λ copies. copies.items ≡ cuts.now) }
{
    let mut copies = Vec::with_capacity(alloc, cuts.len())?;
    for cut in cuts {
        copies.push(cut.shared()?)?;
    }
    Ok(copies)
}
