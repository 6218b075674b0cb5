ghost use Rattle.graph_store.specs.Whole.{IsWholeOf};

use crate::Store;
use st_model::Instance;
use std::alloc::{AllocError, Global};

/// An instance, and its store, of which no vertex is gone.
#[derive(Drop)]
pub struct Whole {
    pub instance: Instance,
    pub store: Store,
    pub ghost whole: { IsWholeOf instance store },
}

impl Whole {
    ghost use Rattle.std.specs.Prelude.{◌≡◌, IfOk};

    /// The instance with its store.
    pub fn of(alloc: Global, instance: Instance) -> Result<Whole, AllocError>
        ensures { IfOk result (λ whole. whole.instance ≡ instance) }
    {
        let store = Store::of(alloc, &instance)?;
        Ok(Whole { instance, store })
    }
}
