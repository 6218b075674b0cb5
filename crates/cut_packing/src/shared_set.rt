ghost use Rattle.std.specs.Prelude.{◌≡◌, IfOk};

use std::alloc::AllocError;
use std::marker::Model;
use std::sync::ArcSlice;

/// The vertices of a set, in the order in which they were listed. It may be shared: another one of
/// the same vertices takes no memory for them. Contracts see it as the list of the vertices.
#[derive(Debug, Drop)]
pub struct SharedSet {
    vertices: ArcSlice<u32>,
}

impl Model for SharedSet {
    ghost use Rattle.std.specs.Prelude.{ℕ, List};
    ghost use Rattle.std.specs.Arc.{arc_slice_items};

    ghost Value = { List ℕ };

    ghost view = { λ s. arc_slice_items s.vertices };
}

impl SharedSet {
    /// The set of these vertices.
    pub fn of(vertices: Vec<u32>) -> Result<Self, AllocError>
        ensures { IfOk result (λ set. set ≡ vertices.items) }
    {
        let vertices = ArcSlice::from_vec(vertices)?;
        Ok(SharedSet { vertices })
    }

    /// The same set, shared.
    pub fn shared(&self) -> Result<Self, AllocError>
        ensures { IfOk result (λ set. set ≡ self.now) }
    {
        let vertices = self.vertices.clone()?;
        Ok(SharedSet { vertices })
    }

    /// The vertices.
    pub fn as_slice(&self) -> &[u32]
        ensures { result.now ≡ self.now }
    {
        self.vertices.as_slice()
    }
}
