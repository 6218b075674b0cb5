ghost use Rattle.std.specs.Prelude.{◌≡◌, IfOk};

use st_model::Tree;
use std::alloc::{AllocError, Global};

/// A tree and what it costs.
#[derive(Debug, Drop)]
pub struct Priced {
    pub tree: Tree,
    pub price: u64,
}

impl Priced {
    /// The same tree again.
    pub fn copied(&self, alloc: Global) -> Result<Priced, AllocError>
        ensures { IfOk result (λ copy. copy ≡ self.now) }
    {
        Ok(Priced {
            tree: self.tree.copied(alloc)?,
            price: self.price,
        })
    }
}
