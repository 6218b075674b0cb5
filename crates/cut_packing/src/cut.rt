ghost use Rattle.std.specs.Prelude.{◌≡◌, IfOk};

use crate::SharedSet;
use std::alloc::AllocError;

/// A set of vertices, one of them that has to be reached or paid for, and the cut's value: every
/// tree enters the set at this price, or pays for the vertex.
#[derive(Debug, Drop)]
pub struct Cut {
    pub set: SharedSet,
    pub q: u32,
    pub y: u64,
}

impl Cut {
    /// The same cut, which shares its set.
    pub fn shared(&self) -> Result<Cut, AllocError>
        ensures { IfOk result (λ copy. copy ≡ self.now) }
    {
        Ok(Cut {
            set: self.set.shared()?,
            q: self.q,
            y: self.y,
        })
    }
}
